//! Sums over the 21 rolls of numbers of the whole board. Weights add up to at most 36, and
//! 36 * 36 ^ 11 has room in 64 bits, so both parts are added up apart, with no carry.
ghost use Rattle.std.specs.Prelude.{◌≡◌, ℕ, ◌+◌, ◌*◌, ◌/◌, ◌%◌, ◌^◌, ◌<◌, ◌≤◌, ◌↔◌, map, slice_index};
ghost use Rattle.std.specs.Prelude.{IsTrue, IsSome, IfSome};
ghost use Rattle.race_model.specs.Prelude.{roll_index, weighted};
ghost use Rattle.fixed_fraction.specs.Board.{board_whole, part, WeightedSum};

use crate::board_mean::BoardMean;
use crate::parts::PART;
use crate::scaled::WHOLE;
use crate::sums::WEIGHTS;
use std::marker::Model;

/// A number of which those that the rolls lead to are added up, each with a weight.
pub trait Summand: Copy {
    /// Sums of such numbers.
    type Sum: Drop;

    /// The number.
    ghost value: { Self → ℕ };

    /// A sum, and the weights that it was added up with.
    ghost total: { Self.Sum → WeightedSum };

    /// The sum of no number.
    fn none() -> Self::Sum
        ensures { total result ≡ record { weight = 0; sum = 0 } };

    /// A sum and a number with its weight. All weights are at most 36.
    fn plus(sum: Self::Sum, weight: u8, number: Self) -> Self::Sum
        requires { (total sum).weight + weight ≤ 36 }
        ensures { total result ≡ record {
          weight = (total sum).weight + weight;
          sum = (total sum).sum + weight * value number;
        } };
}

/// The weighted sum over the 21 rolls, given by index: 1 for a double, else 2 (the rules of
/// backgammon: 36 throws count equally).
#[inline(always)]
pub fn sum_of<N: Summand>(numbers: &[N; 21]) -> N::Sum
    ensures weight { (N.total result).weight ≡ 36 }
    ensures sum { (N.total result).sum
        ≡ weighted (λ v. slice_index (map N.value numbers.now) (roll_index v)) }
{
    let mut total = N::none();
    for index in 0..21 {
        total = N::plus(total, WEIGHTS[index], numbers[index]);
    }
    total
}

/// The sum of means, or of long counts, with their weights.
#[derive(Drop)]
pub struct LongSum {
    upper: u128,
    lower: u64,
    weight: u8,
}

// Clauses see the sum and the weight.
impl Model for LongSum {
    ghost Value = { WeightedSum };

    ghost view = { λ long. record {
      weight = long.weight;
      sum = long.upper * part + long.lower;
    } };

    ghost invariant = { λ long.
        (long.lower ≤ long.weight * part)
        × (long.upper ≤ long.weight * (33 * 36 ^ 22))
        × (long.weight ≤ 36) };
}

impl Summand for BoardMean {
    type Sum = LongSum;

    ghost value = { λ mean. mean };

    ghost total = { λ sum. sum };

    #[inline(always)]
    fn none() -> LongSum {
        LongSum::none()
    }

    #[inline(always)]
    fn plus(sum: LongSum, weight: u8, number: BoardMean) -> LongSum {
        sum.plus(weight, number.upper(), number.lower())
    }
}

impl LongSum {
    /// The sum of no number.
    #[inline(always)]
    pub(crate) fn none() -> LongSum
        ensures { result ≡ record { weight = 0; sum = 0 } }
    {
        LongSum {
            upper: 0,
            lower: 0,
            weight: 0,
        }
    }

    /// The sum and a number of two parts with its weight.
    #[inline(always)]
    #[tactic(auto, using(crate::proofs::TwoParts::sum_added))]
    pub(crate) fn plus(self, weight: u8, upper: u128, lower: u64) -> LongSum
        requires light { self.weight + weight ≤ 36 }
        requires upper { upper ≤ 33 * 36 ^ 22 }
        requires lower { lower < part }
        ensures { result ≡ record {
          weight = self.weight + weight;
          sum = self.sum + weight * (upper * part + lower);
        } }
    {
        LongSum {
            upper: self.upper + u128::from(weight) * upper,
            lower: self.lower + u64::from(weight) * lower,
            weight: self.weight + weight,
        }
    }

    /// The sum in two parts, of which the lower one is less than 36 ^ 11.
    pub(crate) fn carried(&self) -> (u128, u64)
        ensures upper { result.0 ≡ self.now.sum / part }
        ensures lower { result.1 ≡ self.now.sum % part }
    {
        (
            self.upper + u128::from(self.lower / PART),
            self.lower % PART,
        )
    }

    /// One roll and a 36th of the sum. None exactly where that is no whole numerator over
    /// 36 ^ 33, or over 33 rolls.
    pub fn mean(&self) -> Option<BoardMean>
        ensures value { IfSome result (λ mean. 36 * mean ≡ 36 * board_whole + self.now.sum) }
        ensures some { IsSome result ↔
            ((mean : ℕ) × (mean ≤ 33 * board_whole)
            × (36 * mean ≡ 36 * board_whole + self.now.sum)) }
    {
        if self.lower % 36 != 0 {
            return None;
        }
        let lower = (self.upper % 36) as u64 * (PART / 36) + self.lower / 36;
        let upper = WHOLE + self.upper / 36 + u128::from(lower / PART);
        BoardMean::new(upper, lower % PART)
    }

    /// Whether a number is one roll and a 36th of the sum. It is compared without a division of
    /// the upper part.
    pub fn is_mean(&self, mean: BoardMean) -> bool
        ensures { IsTrue result ↔ (36 * mean ≡ 36 * board_whole + self.now.sum) }
    {
        let lower = 36 * mean.lower();
        36 * mean.upper() + u128::from(lower / PART)
            == 36 * WHOLE + self.upper + u128::from(self.lower / PART)
            && lower % PART == self.lower % PART
    }
}
