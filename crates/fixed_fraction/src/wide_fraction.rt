//! Fractions of the whole board in lowest terms, by twos and threes alone.
ghost use Prim.Native.Nat.{◌∣◌};
ghost use Rattle.std.specs.Prelude.{◌≡◌, ℕ, ◌+◌, ◌-◌, ◌*◌, ◌%◌, ◌^◌, ◌<◌, ◌≤◌, ◌↔◌};
ghost use Rattle.std.specs.Prelude.{IsSome, IfSome};
ghost use Rattle.std.specs.Int.{IsGcd};
ghost use Rattle.race_model.specs.Prelude.{IsFraction, IsThousandths};
ghost use Rattle.fixed_fraction.specs.Board.{board_whole};
ghost use Rattle.fixed_fraction.specs.Ratios.{Ratio, IsDivided, AreApart};

use crate::board_mean::BoardMean;
use crate::counts::LongCount;
use crate::fraction::{Fraction, mean, mean_and_epc, power_of_three};
use crate::scaled::WHOLE;
use crate::terms::{Terms, without_common};
use crate::wide::Wide;
use std::marker::Model;

/// A fraction in lowest terms, as replies about the whole board print it: its numerator and its
/// denominator have at most 192 bits.
#[derive(Clone, Copy, Debug, PartialEq, Eq)]
pub struct WideFraction {
    numerator: Wide,
    denominator: Wide,
}

// Clauses see the numerator and the denominator.
impl Model for WideFraction {
    ghost Value = { Ratio };

    ghost view = { λ fraction. record {
      numerator = fraction.numerator;
      denominator = fraction.denominator;
    } };

    ghost invariant = { λ fraction.
        (0 < fraction.denominator) × IsGcd fraction.numerator fraction.denominator 1 };

    ghost inverse = { λ ratio. record {
      numerator = ratio.numerator;
      denominator = ratio.denominator;
    } };
}

impl WideFraction {
    /// The numerator in lowest terms.
    pub fn numerator(self) -> Wide
        ensures { result ≡ self.numerator }
    {
        self.numerator
    }

    /// The denominator in lowest terms, not 0.
    pub fn denominator(self) -> Wide
        ensures value { result ≡ self.denominator }
        ensures positive { 0 < self.denominator }
    {
        self.denominator
    }

    /// A fraction of 128 bits.
    pub fn of(fraction: Fraction) -> WideFraction
        ensures numerator { result.numerator ≡ fraction.numerator }
        ensures denominator { result.denominator ≡ fraction.denominator }
    {
        WideFraction {
            numerator: Wide::of(fraction.numerator()),
            denominator: Wide::of(fraction.denominator()),
        }
    }
}

/// A numerator over a product of so many threes and so many twos.
#[derive(Clone, Copy)]
struct WideTerms {
    numerator: Wide,
    threes: u32,
    twos: u32,
}

/// The mean number of rolls as a fraction, and its effective pip count: 49/6 of it, since an
/// average roll is worth 49/6 pips with doubles counted fourfold (the GNU Backgammon manual).
pub fn board_mean_and_epc(mean: BoardMean) -> (WideFraction, WideFraction)
    ensures mean { IsFraction mean board_whole result.0.numerator result.0.denominator }
    ensures epc { IsFraction (49 * mean) (6 * board_whole)
        result.1.numerator result.1.denominator }
{
    if let Some(rolls) = mean.scaled() {
        let (mean, epc) = mean_and_epc(rolls);
        return (WideFraction::of(mean), WideFraction::of(epc));
    }
    let lowest_mean = lowest_mean(mean);
    let lowest_epc = lowest(WideTerms {
        numerator: lowest_mean.numerator.times(49),
        threes: lowest_mean.threes + 1,
        twos: lowest_mean.twos + 1,
    });
    (fraction_of(lowest_mean), fraction_of(lowest_epc))
}

/// The mean number of rolls as a fraction, with no effective pip count.
pub fn board_mean_fraction(rolls: BoardMean) -> WideFraction
    ensures { IsFraction rolls board_whole result.numerator result.denominator }
{
    match rolls.scaled() {
        Some(rolls) => WideFraction::of(mean(rolls)),
        None => fraction_of(lowest_mean(rolls)),
    }
}

/// The share of exactly `k` rolls as a fraction, by its count: so many of all sequences of `k`
/// throws.
pub fn board_share(count: LongCount, k: u8) -> WideFraction
    requires { k ≤ 33 }
    ensures { IsFraction (count * 36 ^ (33 - k)) board_whole
        result.numerator result.denominator }
{
    let factors = 2 * u32::from(k);
    fraction_of(lowest(WideTerms {
        numerator: count.number(),
        threes: factors,
        twos: factors,
    }))
}

/// A fraction in thousandths, rounded half up; none exactly where the denominator is 0 or over 6 *
/// 36 ^ 33, or the fraction is over 180. They need not be in lowest terms.
pub fn wide_thousandths(numerator: Wide, denominator: Wide) -> Option<u64>
    ensures some { IsSome result ↔ ((0 < denominator) × (denominator ≤ 6 * board_whole)
        × (numerator ≤ 180 * denominator)) }
    ensures value { IfSome result (λ told. IsThousandths numerator denominator told) }
{
    let most = Wide::of_parts(6 * WHOLE, 0);
    if !Wide::of(0).is_less(denominator) || most.is_less(denominator) {
        return None;
    }
    if denominator.times(180).is_less(numerator) {
        return None;
    }
    Some(wide_thousandths_of(numerator, denominator))
}

/// The thousandths of a fraction that has some: they are searched between 0 and 180,000, by whether
/// half a thousandth less than those in the middle is over the fraction.
fn wide_thousandths_of(numerator: Wide, denominator: Wide) -> u64
    requires positive { 0 < denominator }
    requires short { denominator ≤ 6 * board_whole }
    requires within { numerator ≤ 180 * denominator }
    ensures { IsThousandths numerator denominator result }
{
    let total = numerator.times(2000);
    let mut least: u32 = 0;
    let mut over: u32 = 180_001;
    while over - least > 1 {
        let middle = least + (over - least) / 2;
        if total.is_less(denominator.times(2 * middle - 1)) {
            over = middle;
        } else {
            least = middle;
        }
    }
    u64::from(least)
}

/// The mean number of rolls in lowest terms.
fn lowest_mean(mean: BoardMean) -> WideTerms
    ensures divided { IsDivided mean board_whole result.numerator
        (3 ^ result.threes * 2 ^ result.twos) }
    ensures threes { result.threes ≤ 66 }
    ensures twos { result.twos ≤ 66 }
    ensures lowest { IsGcd result.numerator (3 ^ result.threes * 2 ^ result.twos) 1 }
{
    lowest(WideTerms {
        numerator: mean.numerator(),
        threes: 66,
        twos: 66,
    })
}

/// The terms without the threes and the twos that both have.
fn lowest(terms: WideTerms) -> WideTerms
    requires threes { terms.threes ≤ 67 }
    requires twos { terms.twos ≤ 67 }
    ensures divided { IsDivided terms.numerator (3 ^ terms.threes * 2 ^ terms.twos)
        result.numerator (3 ^ result.threes * 2 ^ result.twos) }
    ensures threes { result.threes ≤ terms.threes }
    ensures twos { result.twos ≤ terms.twos }
    ensures lowest { IsGcd result.numerator (3 ^ result.threes * 2 ^ result.twos) 1 }
{
    if terms.numerator.high() == 0 {
        let less = without_common(Terms {
            numerator: terms.numerator.low(),
            threes: terms.threes,
            twos: terms.twos,
        });
        return WideTerms {
            numerator: Wide::of(less.numerator),
            threes: less.threes,
            twos: less.twos,
        };
    }
    let (odd, threes) = without(terms.numerator, 3, terms.threes);
    let (numerator, twos) = without(odd, 2, terms.twos);
    WideTerms {
        numerator,
        threes,
        twos,
    }
}

/// A number and a power of another one without what they have of that in common: the number, and
/// the exponent that is left.
#[tactic(auto, using(crate::proofs::CommonFactors::by_steps))]
fn without(number: Wide, factor: u64, exponent: u32) -> (Wide, u32)
    requires { 2 ≤ factor }
    ensures divided { IsDivided number (factor ^ exponent) result.0 (factor ^ result.1) }
    ensures few { result.1 ≤ exponent }
    ensures apart { AreApart factor result.0 (factor ^ result.1) }
{
    let mut less = number;
    let mut left = exponent;
    while left > 0 {
        let (quotient, rest) = less.divided(factor);
        if rest != 0 {
            return (less, left);
        }
        less = quotient;
        left -= 1;
    }
    (less, left)
}

/// Lowest terms as a fraction.
fn fraction_of(terms: WideTerms) -> WideFraction
    requires threes { terms.threes ≤ 67 }
    requires twos { terms.twos ≤ 67 }
    requires lowest { IsGcd terms.numerator (3 ^ terms.threes * 2 ^ terms.twos) 1 }
    ensures numerator { result.numerator ≡ terms.numerator }
    ensures denominator { result.denominator ≡ 3 ^ terms.threes * 2 ^ terms.twos }
{
    WideFraction {
        numerator: terms.numerator,
        denominator: Wide::doubled(power_of_three(terms.threes), terms.twos),
    }
}
