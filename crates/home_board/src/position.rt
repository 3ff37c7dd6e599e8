//! A position: six points and at most 15 checkers.
ghost use Rattle.std.specs.Prelude.{◌≡◌, ℕ, ◌+◌, ◌*◌, ◌<◌, ◌≤◌, ◌↔◌, List, replicate, IsTrue, IsOk, IfOk};
ghost use Rattle.race_model.specs.Prelude.{IsPosition, IsFinished, IsHighest, checkers, pips, finished};
ghost use Rattle.race_model.specs.Positions.{count};
ghost use Rattle.std.proofs.Common.{rules};
ghost use Rattle.std.specs.Cmp.{partial_order_from_own_ties};
ghost use Rattle.std.specs.Cmp.Rules.{comparing};
ghost use Rattle.std.specs.Ordering.{as_partial_cmp};
ghost use Rattle.home_board.specs.Order.{rank_cmp};

use std::cmp::Ordering;
use std::marker::Model;
use thiserror::Error;

/// The greatest pip bound of a database, in pips (this project's profile).
pub const MAX_BOUND: u8 = 58;

/// The greatest pip bound of a database of version 1, in pips.
pub const OLD_BOUND: u8 = 44;

/// The refusal of counts that add up to more than 15, the number of a player's checkers.
#[derive(Clone, Copy, Debug, PartialEq, Eq, Error)]
#[error("more than 15 checkers")]
pub struct TooMany;

/// Where one player's checkers stand: how many on each of the six points of the home
/// board, at most 15 in all. The others are borne off. (The rules of backgammon.)
#[derive(Clone, Copy, Debug, PartialEq, Eq)]
pub struct Position {
    counts: [u8; 6],
}

// Clauses see the six counts, that of point 1 first.
impl Model for Position {
    ghost Value = { List ℕ };

    ghost view = { λ position. position.counts };

    ghost invariant = { λ position. IsPosition position.counts };

    ghost inverse = { λ counts. record { counts = counts } };
}

impl Position {
    /// The finished position: all checkers are borne off.
    pub const EMPTY: Position = Position { counts: [0; 6] };

    /// The position with these counts of the points 1 to 6.
    /// Refused exactly where they add up to more than 15.
    pub fn new(counts: [u8; 6]) -> Result<Self, TooMany>
        ensures accepted { IsOk result ↔ (checkers counts ≤ 15) }
        ensures value { IfOk result (λ position. position ≡ counts) }
    {
        let [ones, twos, threes, fours, fives, sixes] = counts.map(u16::from);
        if ones + twos + threes + fours + fives + sixes <= 15 {
            Ok(Position { counts })
        } else {
            Err(TooMany)
        }
    }

    /// How many checkers stand on a point; 0 for a number that is no point.
    pub fn count(&self, point: u8) -> u8
        ensures value { result ≡ count self.now point }
        ensures position { IsPosition self.now }
    {
        let counts = &self.counts;
        if point == 0 || point > 6 {
            return 0;
        }
        counts[usize::from(point) - 1]
    }

    /// How many checkers are left, 0 to 15.
    pub fn checkers(&self) -> u8
        ensures value { result ≡ checkers self.now }
        ensures position { IsPosition self.now }
    {
        let [ones, twos, threes, fours, fives, sixes] = self.counts;
        ones + twos + threes + fours + fives + sixes
    }

    /// The pip count, 0 to 90.
    pub fn pips(&self) -> u8
        ensures value { result ≡ pips self.now }
        ensures range { result ≤ 90 }
        ensures position { IsPosition self.now }
    {
        let [ones, twos, threes, fours, fives, sixes] = self.counts;
        ones + 2 * twos + 3 * threes + 4 * fours + 5 * fives + 6 * sixes
    }

    /// Whether all checkers are borne off.
    pub fn is_finished(&self) -> bool
        ensures value { IsTrue result ↔ IsFinished self.now }
        ensures position { IsPosition self.now }
    {
        self.checkers() == 0
    }

    /// The highest point with a checker on it; 0 for the finished position.
    pub fn highest(&self) -> u8
        ensures none { (result ≡ 0) ↔ IsFinished self.now }
        ensures highest { 0 < result → IsHighest self.now result }
        ensures range { result ≤ 6 }
    {
        let counts = &self.counts;
        for point in (1..=6).rev() {
            if counts[usize::from(point) - 1] > 0 {
                return point;
            }
        }
        0
    }
}

/// The finished position.
impl Default for Position {
    ghost is_default = { λ position. position ≡ finished };

    fn default() -> Self {
        Position::EMPTY
    }
}

/// The order of ranks: fewer pips first, and of as many the smaller list of counts.
impl Ord for Position {
    ghost cmp = { rank_cmp };

    ghost total = { Prim.search (comparing, rules) };

    ghost matches_partial_cmp = { Prim.search (comparing, rules) };

    ghost matches_eq = { Prim.search (comparing, rules) };

    fn cmp(&self, other: &Self) -> Ordering {
        self.pips()
            .cmp(&other.pips())
            .then_with(|| self.counts.cmp(&other.counts))
    }
}

impl PartialOrd for Position {
    ghost partial_cmp = { as_partial_cmp rank_cmp };

    ghost laws = { partial_order_from_own_ties (Prim.search (comparing, rules))
        (Prim.search (comparing, rules)) };

    fn partial_cmp(&self, other: &Self) -> Option<Ordering> {
        Some(self.cmp(other))
    }
}
