//! Numbers of the whole board as C has them.
ghost use Rattle.std.specs.Prelude.{◌≡◌, ◌+◌, ◌*◌, ◌^◌, ◌<◌, ◌↔◌, IsSome, IfSome};
ghost use Rattle.bearoff_c.specs.Longs.{long_number_of};

use epc_query::Rounded;
use fixed_fraction::{Wide, WideFraction};

/// 2 ^ 64.
const WORD: u128 = 18_446_744_073_709_551_616;

/// A number of 192 bits in three words, since C has no such number.
#[repr(C)]
#[derive(Clone, Copy, Debug, PartialEq, Eq)]
pub struct Long {
    /// Its 64-bit words, the greatest first.
    pub words: [u64; 3],
}

impl Long {
    /// No number of rolls, and no share.
    pub const ZERO: Long = Long { words: [0; 3] };

    /// The number that the words stand for.
    pub(crate) fn number(self) -> Wide
        ensures { result ≡ long_number_of self }
    {
        let low = u128::from(self.words[1]) * WORD + u128::from(self.words[2]);
        Wide::of_words(self.words[0], low)
    }

    /// A number in three words.
    pub fn of(number: Wide) -> Long
        ensures { long_number_of result ≡ number }
    {
        let low = number.low();
        Long {
            words: [number.high(), (low / WORD) as u64, (low % WORD) as u64],
        }
    }

    /// The number and another one; none exactly where the sum has more than 192 bits.
    pub fn plus(self, other: Long) -> Option<Long>
        ensures some { IsSome result ↔ (long_number_of self + long_number_of other < 2 ^ 192) }
        ensures value { IfSome result (λ sum.
            long_number_of sum ≡ long_number_of self + long_number_of other) }
    {
        let low = u128::from(self.words[2]) + u128::from(other.words[2]);
        let middle = u128::from(self.words[1]) + u128::from(other.words[1]) + low / WORD;
        let high = u128::from(self.words[0]) + u128::from(other.words[0]) + middle / WORD;
        if high >= WORD {
            return None;
        }
        Some(Long {
            words: [high as u64, (middle % WORD) as u64, (low % WORD) as u64],
        })
    }
}

/// A fraction in lowest terms.
#[repr(C)]
#[derive(Clone, Copy, Debug, PartialEq, Eq)]
pub struct LongFraction {
    pub numerator: Long,
    pub denominator: Long,
}

impl LongFraction {
    /// A fraction, its numbers in three words each.
    pub fn of(fraction: WideFraction) -> LongFraction
        ensures numerator { long_number_of result.numerator ≡ fraction.numerator }
        ensures denominator { long_number_of result.denominator ≡ fraction.denominator }
    {
        LongFraction {
            numerator: Long::of(fraction.numerator()),
            denominator: Long::of(fraction.denominator()),
        }
    }
}

/// A number of rolls or of pips, exact and rounded.
#[repr(C)]
#[derive(Clone, Copy, Debug, PartialEq, Eq)]
pub struct RoundedLong {
    /// In lowest terms.
    pub exact: LongFraction,

    /// In thousandths, rounded to the nearest, and a half upward.
    pub thousandths: u64,
}

impl RoundedLong {
    /// A number, exact and rounded, its numbers in three words each.
    pub fn of(told: Rounded) -> RoundedLong
        ensures numerator { long_number_of result.exact.numerator ≡ told.exact.numerator }
        ensures denominator { long_number_of result.exact.denominator ≡ told.exact.denominator }
        ensures thousandths { result.thousandths ≡ told.thousandths }
    {
        RoundedLong {
            exact: LongFraction::of(told.exact),
            thousandths: told.thousandths,
        }
    }
}
