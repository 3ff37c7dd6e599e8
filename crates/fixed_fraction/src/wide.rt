//! Numbers of 192 bits, as replies about the whole board print them.
ghost use Rattle.std.specs.Prelude.{◌≡◌, ℕ, ◌+◌, ◌*◌, ◌/◌, ◌%◌, ◌^◌, ◌<◌, ◌≤◌, ◌↔◌, IsTrue};
ghost use Rattle.fixed_fraction.specs.Board.{part};

use std::marker::Model;

/// 2 ^ 64.
const WORD: u128 = 1 << 64;

/// 10 ^ 18.
const DIGITS: u64 = 1_000_000_000_000_000_000;

/// A number below 2 ^ 192.
#[derive(Clone, Copy, Debug, PartialEq, Eq)]
pub struct Wide {
    high: u64,
    low: u128,
}

// Clauses see the number.
impl Model for Wide {
    ghost Value = { ℕ };

    ghost view = { λ wide. wide.high * 2 ^ 128 + wide.low };

    ghost invariant = { λ wide. wide.low < 2 ^ 128 };

    ghost inverse = { λ number. record { high = number / 2 ^ 128; low = number % 2 ^ 128 } };
}

impl Wide {
    /// A number of 128 bits.
    pub fn of(number: u128) -> Wide
        ensures { result ≡ number }
    {
        Wide {
            high: 0,
            low: number,
        }
    }

    /// The number with these bits from 128 on, and these below.
    pub fn of_words(high: u64, low: u128) -> Wide
        ensures { result ≡ high * 2 ^ 128 + low }
    {
        Wide { high, low }
    }

    /// Whether the number is less than another.
    pub fn is_less(self, other: Wide) -> bool
        ensures { IsTrue result ↔ (self < other) }
    {
        self.high < other.high || (self.high == other.high && self.low < other.low)
    }

    /// The number that two parts stand for.
    pub fn of_parts(upper: u128, lower: u64) -> Wide
        ensures { result ≡ upper * part + lower }
    {
        let fifth = Wide::of(upper).times(60466176);
        fifth.times(2176782336).plus(lower)
    }

    /// Its bits from 128 on.
    pub fn high(self) -> u64
        ensures { result ≡ self / 2 ^ 128 }
    {
        self.high
    }

    /// Its lower 128 bits.
    pub fn low(self) -> u128
        ensures { result ≡ self % 2 ^ 128 }
    {
        self.low
    }

    /// The number in three parts for its digits: so many times 10 ^ 36 and 10 ^ 18, and the rest.
    /// It has at most 58 digits.
    #[inline(always)]
    pub fn digits(self) -> (u128, u64, u64)
        ensures value { result.0 * 10 ^ 36 + result.1 * 10 ^ 18 + result.2 ≡ self }
        ensures first { result.0 < 10 ^ 22 }
        ensures second { result.1 < 10 ^ 18 }
        ensures third { result.2 < 10 ^ 18 }
        ensures short { self < 10 ^ 58 }
    {
        if self.high == 0 {
            return short_digits(self.low);
        }
        let (front, third) = self.divided(DIGITS);
        let (first, second) = front.divided(DIGITS);
        (first.low, second, third)
    }

    /// The number and another one, where the sum has room.
    pub(crate) fn plus(self, other: u64) -> Wide
        requires { self + other < 2 ^ 192 }
        ensures { result ≡ self + other }
    {
        let (low, carry) = self.low.overflowing_add(u128::from(other));
        Wide {
            high: self.high + u64::from(carry),
            low,
        }
    }

    /// The number times one of up to 32 bits, where the product has room.
    #[tactic(auto, using(crate::proofs::WideNumbers::of_times))]
    pub(crate) fn times(self, factor: u32) -> Wide
        requires { self * factor < 2 ^ 192 }
        ensures { result ≡ self * factor }
    {
        let factor = u128::from(factor);
        let first = (self.low % WORD) * factor;
        let second = (self.low / WORD) * factor + first / WORD;
        let third = u128::from(self.high) * factor + second / WORD;
        Wide {
            high: third as u64,
            low: (second % WORD) * WORD + first % WORD,
        }
    }

    /// A number of 128 bits times so many twos, where the product has room.
    #[tactic(auto, using(crate::proofs::WideNumbers::of_doubled))]
    pub(crate) fn doubled(number: u128, twos: u32) -> Wide
        requires few { twos ≤ 127 }
        requires room { number * 2 ^ twos < 2 ^ 192 }
        ensures { result ≡ number * 2 ^ twos }
    {
        Wide {
            high: (number >> 1 >> (127 - twos)) as u64,
            low: number << twos,
        }
    }

    /// The quotient by a number of up to 64 bits, and the rest.
    #[tactic(auto, using(crate::proofs::WideNumbers::of_divided))]
    pub fn divided(self, by: u64) -> (Wide, u64)
        requires { 0 < by }
        ensures quotient { result.0 ≡ self / by }
        ensures rest { result.1 ≡ self % by }
    {
        let by = u128::from(by);
        if self.high == 0 {
            let quotient = self.low / by;
            return (Wide::of(quotient), (self.low - quotient * by) as u64);
        }
        let high = u128::from(self.high);
        let middle = (high % by) * WORD + self.low / WORD;
        let last = (middle % by) * WORD + self.low % WORD;
        (
            Wide {
                high: (high / by) as u64,
                low: (middle / by) * WORD + last / by,
            },
            (last % by) as u64,
        )
    }
}

/// The three parts of a number of 128 bits, whose first is at most 340.
#[inline(always)]
fn short_digits(number: u128) -> (u128, u64, u64)
    ensures value { result.0 * 10 ^ 36 + result.1 * 10 ^ 18 + result.2 ≡ number }
    ensures first { result.0 < 10 ^ 22 }
    ensures second { result.1 < 10 ^ 18 }
    ensures third { result.2 < 10 ^ 18 }
{
    let digits = u128::from(DIGITS);
    if number < digits {
        return (0, 0, number as u64);
    }
    let front = number / digits;
    let third = (number - front * digits) as u64;
    if front < digits {
        return (0, front as u64, third);
    }
    let first = front / digits;
    (first, (front - first * digits) as u64, third)
}
