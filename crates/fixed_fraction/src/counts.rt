//! Counts of sequences of throws, in one word or in two parts. A count is no share: over 36 ^ 33
//! the share of k rolls is the count times 36 ^ (33 - k).
ghost use Rattle.std.specs.Prelude.{◌≡◌, ℕ, ◌+◌, ◌-◌, ◌*◌, ◌/◌, ◌%◌, ◌^◌, ◌<◌, ◌≤◌, ◌↔◌};
ghost use Rattle.std.specs.Prelude.{IsTrue, IsSome, IfSome};
ghost use Rattle.fixed_fraction.specs.Board.{part};

use crate::board_mean::BoardMean;
use crate::parts::{PART, are_count_parts, power_of_36};
use crate::roll_sum::{LongSum, Summand};
use crate::wide::Wide;
use std::marker::Model;

/// A count of sequences of k throws, 0 to 11, that end with the last throw: at most 36 ^ 11, in
/// one word.
#[derive(Clone, Copy, Debug, PartialEq, Eq)]
pub struct ShortCount {
    count: u64,
}

// Clauses see the count.
impl Model for ShortCount {
    ghost Value = { ℕ };

    ghost view = { λ short. short.count };

    ghost invariant = { λ short. short.count ≤ part };

    ghost inverse = { λ count. record { count = count } };
}

/// The same for k from 23 to 33: at most 36 ^ 33, in an upper part of two words and a lower part
/// of less than 36 ^ 11.
#[derive(Clone, Copy, Debug, PartialEq, Eq)]
pub struct LongCount {
    upper: u128,
    lower: u64,
}

// Clauses see the count.
impl Model for LongCount {
    ghost Value = { ℕ };

    ghost view = { λ long. long.upper * part + long.lower };

    ghost invariant = { λ long.
        (long.lower < part) × (long.upper * part + long.lower ≤ 36 ^ 33) };

    ghost inverse = { λ count. record { upper = count / part; lower = count % part } };
}

impl ShortCount {
    /// The count of sequences of `k` throws, k at most 11; none exactly where there are more than
    /// 36 ^ k.
    #[tactic(auto, using(crate::proofs::TwoParts::power_within))]
    pub fn new(k: u8, count: u64) -> Option<Self>
        requires { k ≤ 11 }
        ensures some { IsSome result ↔ (count ≤ 36 ^ k) }
        ensures value { IfSome result (λ short. short ≡ count) }
    {
        if u128::from(count) <= power_of_36(k) {
            Some(ShortCount { count })
        } else {
            None
        }
    }

    /// The same count in two parts.
    pub fn long(self) -> LongCount
        ensures { result ≡ self }
    {
        LongCount {
            upper: u128::from(self.count / PART),
            lower: self.count % PART,
        }
    }
}

impl LongCount {
    /// No sequence.
    pub const NONE: LongCount = LongCount { upper: 0, lower: 0 };

    /// The count of sequences of `k` throws, k from 23 to 33; none exactly where the lower part is
    /// 36 ^ 11 or more, or there are more than 36 ^ k.
    #[tactic(auto, using(crate::proofs::TwoParts::power_within))]
    pub fn new(k: u8, upper: u128, lower: u64) -> Option<Self>
        requires least { 23 ≤ k }
        requires most { k ≤ 33 }
        ensures some { IsSome result ↔ ((lower < part) × (upper * part + lower ≤ 36 ^ k)) }
        ensures value { IfSome result (λ long. long ≡ upper * part + lower) }
    {
        if are_count_parts(k, upper, lower) {
            Some(LongCount { upper, lower })
        } else {
            None
        }
    }

    /// The upper part.
    pub fn upper(self) -> u128
        ensures value { result ≡ self / part }
        ensures most { self ≤ 36 ^ 33 }
    {
        self.upper
    }

    /// The lower part.
    pub fn lower(self) -> u64
        ensures { result ≡ self % part }
    {
        self.lower
    }

    /// Whether no sequence is counted.
    pub fn is_none(self) -> bool
        ensures { IsTrue result ↔ (self ≡ 0) }
    {
        self.upper == 0 && self.lower == 0
    }

    /// The count as a number of 192 bits.
    pub fn number(self) -> Wide
        ensures { result ≡ self }
    {
        Wide::of_parts(self.upper, self.lower)
    }

    /// The share of exactly `k` rolls over 36 ^ 33: each of so many sequences of k throws goes on
    /// with any throws, to 33 of them.
    pub fn share(self, k: u8) -> BoardMean
        requires few { k ≤ 33 }
        requires within { self ≤ 36 ^ k }
        ensures { result ≡ self * 36 ^ (33 - k) }
    {
        if k <= 22 {
            return BoardMean::of_parts(joined(self.upper, self.lower) * power_of_36(22 - k), 0);
        }
        times(self.upper, self.lower, power_of_36(33 - k))
    }
}

/// The number that two parts are, of at most 36 ^ 22.
fn joined(upper: u128, lower: u64) -> u128
    requires { upper * part + lower ≤ 36 ^ 22 }
    ensures { result ≡ upper * part + lower }
{
    upper * u128::from(PART) + u128::from(lower)
}

/// Two parts times a number of at most 36 ^ 10, where the product is at most 36 ^ 33.
#[tactic(auto, using(crate::proofs::TwoParts::of_parts_times))]
fn times(upper: u128, lower: u64, factor: u128) -> BoardMean
    requires lower { lower < part }
    requires factor { factor ≤ 36 ^ 10 }
    requires most { (upper * part + lower) * factor ≤ 36 ^ 33 }
    ensures { result ≡ (upper * part + lower) * factor }
{
    let low = u128::from(lower) * factor;
    let high = upper * factor + low / u128::from(PART);
    BoardMean::of_parts(high, (low % u128::from(PART)) as u64)
}

impl Summand for LongCount {
    type Sum = LongSum;

    ghost value = { λ count. count };

    ghost total = { λ sum. sum };

    #[inline(always)]
    fn none() -> LongSum {
        LongSum::none()
    }

    #[inline(always)]
    fn plus(sum: LongSum, weight: u8, number: LongCount) -> LongSum {
        sum.plus(weight, number.upper(), number.lower())
    }
}

impl LongSum {
    /// The sum as a count of one throw more, to 33 throws; none exactly where it is more than
    /// 36 ^ 33.
    pub fn count(&self) -> Option<LongCount>
        ensures some { IsSome result ↔ (self.now.sum ≤ 36 ^ 33) }
        ensures value { IfSome result (λ count. count ≡ self.now.sum) }
    {
        let (upper, lower) = self.carried();
        LongCount::new(33, upper, lower)
    }
}
