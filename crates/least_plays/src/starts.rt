//! The best ranks of a position with one die first, and its best plays out of those.
ghost use Rattle.std.specs.Prelude.{◌≡◌, ℕ, ◌<◌, length, slice_index, slice_index_or};
ghost use Rattle.race_model.specs.Prelude.{roll_at, IsBestPlay};
ghost use Rattle.least_plays.specs.Known.{AreStarts};

use crate::RankedMeans;
use home_board::Position;

/// The places of the greater die of each roll, by the roll's index.
const HIGH_PLACES: [u8; 21] = [
    0, 1, 1, 2, 2, 2, 3, 3, 3, 3, 4, 4, 4, 4, 4, 5, 5, 5, 5, 5, 5,
];

/// The places of its smaller die.
const LOW_PLACES: [u8; 21] = [
    0, 0, 1, 0, 1, 2, 0, 1, 2, 3, 0, 1, 2, 3, 4, 0, 1, 2, 3, 4, 5,
];

/// The best ranks from a position with one die first: after that die played once, twice and three
/// times, and after a roll that has it, by the number of the roll's other die.
#[derive(Clone, Copy)]
pub struct Start {
    pub after: [u16; 3],
    pub plays: [u16; 6],
}

impl Start {
    /// Nothing is known.
    pub const UNKNOWN: Start = Start {
        after: [0; 3],
        plays: [0; 6],
    };
}

/// The best ranks from a position, by the number of the die that is played first.
#[derive(Clone, Copy)]
pub struct Starts {
    pub position: Position,
    pub dice: [Start; 6],
}

impl Starts {
    /// The best play of the roll of an index: the better of both orders, which a double has once.
    #[inline(always)]
    fn best_play<M: RankedMeans>(&self, index: usize, means: &M) -> u16
        requires starts { AreStarts (M.mean means.now) (M.count means.now) self.now }
        requires index { index < 21 }
        ensures { IsBestPlay (M.mean means.now) self.now.position (roll_at index) result }
    {
        let high = usize::from(HIGH_PLACES[index]);
        let low = usize::from(LOW_PLACES[index]);
        means.better(self.dice[high].plays[low], self.dice[low].plays[high])
    }

    /// The best plays of the 21 rolls.
    #[inline(always)]
    pub fn best_plays<M: RankedMeans>(&self, means: &M) -> [u16; 21]
        requires { AreStarts (M.mean means.now) (M.count means.now) self.now }
        ensures best { (i : ℕ) → i < 21 →
            IsBestPlay (M.mean means.now) self.now.position (roll_at i) (slice_index result i) }
        ensures len { length result ≡ 21 }
    {
        [
            self.best_play(0, means),
            self.best_play(1, means),
            self.best_play(2, means),
            self.best_play(3, means),
            self.best_play(4, means),
            self.best_play(5, means),
            self.best_play(6, means),
            self.best_play(7, means),
            self.best_play(8, means),
            self.best_play(9, means),
            self.best_play(10, means),
            self.best_play(11, means),
            self.best_play(12, means),
            self.best_play(13, means),
            self.best_play(14, means),
            self.best_play(15, means),
            self.best_play(16, means),
            self.best_play(17, means),
            self.best_play(18, means),
            self.best_play(19, means),
            self.best_play(20, means),
        ]
    }
}
