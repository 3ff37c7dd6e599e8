//! What is kept of the records of lower rank, so that the best plays of a position are found
//! without a look at these records.
ghost use Rattle.std.specs.Prelude.{◌≡◌, ◌≢◌, ℕ, ◌+◌, ◌/◌, ◌^◌, ◌<◌, ◌≤◌, length, slice_index};
ghost use Rattle.race_model.specs.Prelude.{IsPosition, pips, roll_at, rank as rank_of, IsBestPlay};
ghost use Rattle.least_plays.specs.Known.{HasRows, Knows};
ghost use Rattle.certificate.specs.KeptMeans.{kept_place, kept_mean, HasRoom};

use home_board::Position;
use least_plays::{LeastPlays, RankedMeans};
use ranking::Ranks;
use std::marker::Model;

/// The recorded means of the last `ROOM` ranks whose records were accepted: ranks from `ROOM` on
/// have places again from the first one on.
#[derive(Drop)]
pub struct AcceptedMeans<const ROOM: usize> {
    means: [u128; ROOM],
}

// Clauses see a number for each place.
impl<const ROOM: usize> Model for AcceptedMeans<ROOM> {
    ghost use Rattle.std.specs.Prelude.{◌≡◌, ℕ, List, length};

    ghost Value = { List ℕ };

    ghost view = { λ accepted. accepted.means };

    ghost invariant = { λ accepted. length accepted.means ≡ ROOM };
}

impl<const ROOM: usize> AcceptedMeans<ROOM> {
    /// None was accepted.
    fn new() -> Self {
        AcceptedMeans { means: [0; ROOM] }
    }

    /// Stores the mean of the next rank over the one `ROOM` ranks before.
    #[tactic(auto, unfolding(crate::specs::KeptMeans::kept_mean))]
    fn set(&mut self, rank: u16, mean: u128)
        requires { rank < ROOM + ROOM }
        ensures mean { kept_mean ROOM self.new rank ≡ mean }
        ensures others { (r : ℕ) → kept_place ROOM r ≢ kept_place ROOM rank →
            kept_mean ROOM self.new r ≡ kept_mean ROOM self.old r }
    {
        self.means[kept_place(rank, ROOM)] = mean;
    }
}

/// The place of a rank.
#[tactic(auto, unfolding(crate::specs::KeptMeans::kept_place))]
fn kept_place(rank: u16, room: usize) -> usize
    requires { rank < room + room }
    ensures value { result ≡ kept_place room rank }
    ensures range { result < room }
    ensures few { result ≤ rank }
{
    let rank = usize::from(rank);
    if rank < room { rank } else { rank - room }
}

/// They are what the best plays go by.
impl<const ROOM: usize> RankedMeans for AcceptedMeans<ROOM> {
    ghost mean = { λ accepted. kept_mean ROOM accepted };

    ghost leading = { λ accepted rank. kept_mean ROOM accepted rank / 2 ^ 64 };

    ghost count = { λ accepted. ROOM + ROOM };

    #[inline(always)]
    #[tactic(auto, unfolding(crate::specs::KeptMeans::kept_mean))]
    fn is_less(&self, one: u16, other: u16) -> bool {
        self.means[kept_place(one, ROOM)] < self.means[kept_place(other, ROOM)]
    }

    #[inline(always)]
    #[tactic(auto, unfolding(crate::specs::KeptMeans::kept_mean))]
    fn leading_bits(&self, rank: u16) -> u64 {
        (self.means[kept_place(rank, ROOM)] >> 64) as u64
    }
}

/// The means of the last `ROOM` accepted records, by which best plays are found. `ROWS` rows hold
/// what is known of lower levels. It takes no memory but its own: 16 bytes for each mean and 36
/// for each row, which lie where the value lies, as on the stack of `check`; so lend it by `&mut`.
#[derive(Drop)]
pub struct LowerRecords<const ROOM: usize, const ROWS: usize> {
    pub means: AcceptedMeans<ROOM>,
    pub plays: LeastPlays<ROWS>,
}

impl<const ROOM: usize, const ROWS: usize> LowerRecords<ROOM, ROWS> {
    /// No record was accepted: the next one is that of rank 0.
    pub fn new() -> Self
        ensures { (mean : ℕ → ℕ) → Knows mean result.plays 0 }
    {
        LowerRecords {
            means: AcceptedMeans::new(),
            plays: LeastPlays::new(),
        }
    }

    /// The best plays of the 21 rolls from the next position, by the means of lower ranks.
    // a function of its own, since a browser makes a function fast only between two calls of it
    #[inline(never)]
    pub fn best_plays(&mut self, ranks: &Ranks, position: &Position) -> [u16; 21]
        requires position { IsPosition position.now }
        requires room { rank_of position.now ≤ ROOM + ROOM }
        requires rows { HasRows ROWS (rank_of position.now) }
        requires known { Knows (kept_mean ROOM self.old.means) self.old.plays
            (rank_of position.now) }
        ensures means { self.new.means ≡ self.old.means }
        ensures known { Knows (kept_mean ROOM self.new.means) self.new.plays
            (rank_of position.now + 1) }
        ensures best { (i : ℕ) → i < 21 →
            IsBestPlay (kept_mean ROOM self.old.means) position.now (roll_at i)
            (slice_index result i) }
        ensures len { length result ≡ 21 }
    {
        self.plays.advance(ranks, position, &self.means)
    }

    /// Keeps the mean of the record of this rank, whose best plays were found.
    pub fn accept(&mut self, rank: u16, mean: u128)
        requires room { rank < ROOM + ROOM }
        requires near { HasRoom ROOM rank }
        requires known { Knows (kept_mean ROOM self.old.means) self.old.plays (rank + 1) }
        ensures mean { kept_mean ROOM self.new.means rank ≡ mean }
        ensures others { (r : ℕ) → kept_place ROOM r ≢ kept_place ROOM rank →
            kept_mean ROOM self.new.means r ≡ kept_mean ROOM self.old.means r }
        ensures known { Knows (kept_mean ROOM self.new.means) self.new.plays (rank + 1) }
    {
        self.means.set(rank, mean);
    }
}
