//! What is left of a position beyond each point.
ghost use Rattle.std.specs.Prelude.{◌≡◌};
ghost use Rattle.ranking.specs.Chains.{IsLeft};

use home_board::Position;

/// The checkers and pips left after each of the first points. The checkers on none of these points
/// count, and the pips of the points beyond.
#[derive(Clone, Copy)]
pub(crate) struct Left {
    pub position: Position,
    pub checkers: [usize; 7],
    pub pips: [usize; 7],
}

impl Left {
    /// What is left of a position.
    #[inline(always)]
    pub fn of(position: &Position) -> Left
        ensures position { result.position ≡ position.now }
        ensures left { IsLeft result }
    {
        let mut checkers = [15; 7];
        let mut pips = [usize::from(position.pips()); 7];
        for point in 1..7 {
            let place = usize::from(point);
            let count = usize::from(position.count(point));
            checkers[place] = checkers[place - 1] - count;
            pips[place] = pips[place - 1] - place * count;
        }
        Left {
            position: *position,
            checkers,
            pips,
        }
    }
}
