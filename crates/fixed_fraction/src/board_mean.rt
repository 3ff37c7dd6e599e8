//! A mean of the whole board as a numerator over 36 ^ 33, in two parts.
ghost use Rattle.std.specs.Prelude.{◌≡◌, ℕ, ◌+◌, ◌*◌, ◌/◌, ◌%◌, ◌^◌, ◌<◌, ◌≤◌, ◌↔◌, IsTrue};
ghost use Rattle.std.specs.Prelude.{IsSome, IfSome};
ghost use Rattle.race_model.specs.Prelude.{IsThousandths, whole};
ghost use Rattle.fixed_fraction.specs.Board.{board_whole, part};

use crate::parts::{PART, are_parts};
use crate::scaled::{Scaled, WHOLE};
use crate::wide::Wide;
use std::marker::Model;

/// The upper part of 33 rolls, which no game takes more than (this project's profile).
const MOST: u128 = 33 * WHOLE;

/// A number of rolls from 0 to 33, as a numerator over 36 ^ 33. It has two parts: an upper one,
/// which alone is a numerator over 36 ^ 22, and a lower one of less than 36 ^ 11. By its order
/// fewer rolls come first.
#[derive(Clone, Copy, Debug, PartialEq, Eq, PartialOrd, Ord)]
pub struct BoardMean {
    upper: u128,
    lower: u64,
}

// Clauses see the numerator.
impl Model for BoardMean {
    ghost Value = { ℕ };

    ghost view = { λ mean. mean.upper * part + mean.lower };

    ghost invariant = { λ mean.
        (mean.lower < part) × (mean.upper * part + mean.lower ≤ 33 * board_whole) };

    ghost inverse = { λ numerator. record {
      upper = numerator / part;
      lower = numerator % part;
    } };
}

impl BoardMean {
    /// No roll.
    pub const ZERO: BoardMean = BoardMean { upper: 0, lower: 0 };

    /// The number with these parts; none exactly where the lower one is 36 ^ 11 or more, or the
    /// number is over 33 rolls.
    pub fn new(upper: u128, lower: u64) -> Option<Self>
        ensures some { IsSome result ↔
            ((lower < part) × (upper * part + lower ≤ 33 * board_whole)) }
        ensures value { IfSome result (λ mean. mean ≡ upper * part + lower) }
    {
        if are_parts(upper, lower, MOST) {
            Some(BoardMean { upper, lower })
        } else {
            None
        }
    }

    /// The number with these parts, which are known to be those of a number.
    #[inline(always)]
    pub fn of_parts(upper: u128, lower: u64) -> Self
        requires lower { lower < part }
        requires most { upper * part + lower ≤ 33 * board_whole }
        ensures { result ≡ upper * part + lower }
    {
        BoardMean { upper, lower }
    }

    /// A number over 36 ^ 22, which has no lower part.
    #[inline(always)]
    pub fn of(rolls: Scaled) -> Self
        ensures { result ≡ rolls * part }
    {
        BoardMean::of_parts(rolls.numerator(), 0)
    }

    /// The upper part, over 36 ^ 22.
    pub fn upper(self) -> u128
        ensures value { result ≡ self / part }
        ensures most { self ≤ 33 * board_whole }
    {
        self.upper
    }

    /// The lower part, over 36 ^ 33.
    pub fn lower(self) -> u64
        ensures { result ≡ self % part }
    {
        self.lower
    }

    /// The same number over 36 ^ 22; none exactly where its lower part isn't 0 or it is over 22
    /// rolls.
    pub fn scaled(self) -> Option<Scaled>
        ensures some { IsSome result ↔ ((self % part ≡ 0) × (self / part ≤ 22 * whole)) }
        ensures value { IfSome result (λ rolls. rolls * part ≡ self) }
    {
        if self.lower != 0 {
            return None;
        }
        Scaled::new(self.upper)
    }

    /// The numerator over 36 ^ 33.
    pub fn numerator(self) -> Wide
        ensures { result ≡ self }
    {
        Wide::of_parts(self.upper, self.lower)
    }

    /// Whether the number is less than another.
    pub fn is_less(self, other: BoardMean) -> bool
        ensures { IsTrue result ↔ (self < other) }
    {
        self.upper < other.upper || (self.upper == other.upper && self.lower < other.lower)
    }

    /// The number less another; none exactly where the other is greater.
    pub fn minus(self, other: BoardMean) -> Option<BoardMean>
        ensures some { IsSome result ↔ (other ≤ self) }
        ensures value { IfSome result (λ difference. difference + other ≡ self) }
    {
        if self.is_less(other) {
            return None;
        }
        let (upper, lower) = if self.lower < other.lower {
            (
                self.upper - other.upper - 1,
                self.lower + PART - other.lower,
            )
        } else {
            (self.upper - other.upper, self.lower - other.lower)
        };
        Some(BoardMean { upper, lower })
    }

    /// The number in thousandths of a roll, rounded half up.
    pub fn thousandths(self) -> u64
        ensures { IsThousandths self board_whole result }
    {
        rounded(self.upper, self.lower, WHOLE)
    }

    /// Its effective pip count, 49/6 of it, in thousandths, rounded the same way.
    pub fn effective_thousandths(self) -> u64
        ensures { IsThousandths (49 * self) (6 * board_whole) result }
    {
        let lower = 49 * self.lower;
        rounded(
            49 * self.upper + u128::from(lower / PART),
            lower % PART,
            6 * WHOLE,
        )
    }
}

/// Two parts over `whole` times 36 ^ 22, in thousandths, rounded half up.
fn rounded(upper: u128, lower: u64, whole: u128) -> u64
    requires positive { 0 < whole }
    requires short { whole ≤ 6 * 36 ^ 22 }
    requires within { upper ≤ 500 * whole }
    requires lower { lower < part }
    ensures { IsThousandths (upper * part + lower) (whole * part) result }
{
    let units = upper / whole;
    let rest = upper - units * whole;
    let carry = 2000 * u128::from(lower) / u128::from(PART);
    (1000 * units + (2000 * rest + carry + whole) / (2 * whole)) as u64
}
