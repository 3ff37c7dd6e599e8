//! Fractions in lowest terms, by twos and threes alone.
ghost use Rattle.std.specs.Prelude.{◌≡◌, ◌*◌, ◌^◌, ◌<◌, ◌≤◌, slice_index};
ghost use Rattle.std.specs.Int.{IsGcd};
ghost use Rattle.race_model.specs.Prelude.{whole, IsFraction, IsMean, IsEffectivePips, IsThousandths};
ghost use Rattle.fixed_fraction.specs.Ratios.{Ratio, IsSmallRatio};

use crate::scaled::Scaled;
use crate::spread::Spread;
use crate::terms::{Terms, lowest, without_common};
use std::marker::Model;

/// Three to the power of 0 to 67.
const POWERS_OF_THREE: [u128; 68] = [
    1,
    3,
    9,
    27,
    81,
    243,
    729,
    2187,
    6561,
    19683,
    59049,
    177147,
    531441,
    1594323,
    4782969,
    14348907,
    43046721,
    129140163,
    387420489,
    1162261467,
    3486784401,
    10460353203,
    31381059609,
    94143178827,
    282429536481,
    847288609443,
    2541865828329,
    7625597484987,
    22876792454961,
    68630377364883,
    205891132094649,
    617673396283947,
    1853020188851841,
    5559060566555523,
    16677181699666569,
    50031545098999707,
    150094635296999121,
    450283905890997363,
    1350851717672992089,
    4052555153018976267,
    12157665459056928801,
    36472996377170786403,
    109418989131512359209,
    328256967394537077627,
    984770902183611232881,
    2954312706550833698643,
    8862938119652501095929,
    26588814358957503287787,
    79766443076872509863361,
    239299329230617529590083,
    717897987691852588770249,
    2153693963075557766310747,
    6461081889226673298932241,
    19383245667680019896796723,
    58149737003040059690390169,
    174449211009120179071170507,
    523347633027360537213511521,
    1570042899082081611640534563,
    4710128697246244834921603689,
    14130386091738734504764811067,
    42391158275216203514294433201,
    127173474825648610542883299603,
    381520424476945831628649898809,
    1144561273430837494885949696427,
    3433683820292512484657849089281,
    10301051460877537453973547267843,
    30903154382632612361920641803529,
    92709463147897837085761925410587,
];

/// A fraction in lowest terms, as replies print it: its denominator is 1
/// to 6 * 36 ^ 22, and its value at most 180.
#[derive(Clone, Copy, Debug, PartialEq, Eq)]
pub struct Fraction {
    numerator: u128,
    denominator: u128,
}

// Clauses see the numerator and the denominator.
impl Model for Fraction {
    ghost Value = { Ratio };

    ghost view = { λ fraction. record {
      numerator = fraction.numerator;
      denominator = fraction.denominator;
    } };

    ghost invariant = { λ fraction.
        IsSmallRatio
        (record { numerator = fraction.numerator; denominator = fraction.denominator }) };

    ghost inverse = { λ ratio. record {
      numerator = ratio.numerator;
      denominator = ratio.denominator;
    } };
}

impl Fraction {
    /// The numerator in lowest terms, at most 180 times the denominator.
    pub fn numerator(self) -> u128
        ensures value { result ≡ self.numerator }
        ensures ratio { IsSmallRatio self }
    {
        self.numerator
    }

    /// The denominator in lowest terms, 1 to 6 * 36 ^ 22.
    pub fn denominator(self) -> u128
        ensures value { result ≡ self.denominator }
        ensures ratio { IsSmallRatio self }
    {
        self.denominator
    }
}

/// The mean number of rolls as a fraction.
#[tactic(auto, unfolding(race_model::specs::LocalEquations::whole))]
pub fn mean(rolls: Scaled) -> Fraction
    ensures value { IsMean rolls result.numerator result.denominator }
    ensures ratio { IsSmallRatio result }
{
    reduced(rolls.numerator())
}

/// The effective pip count of a mean number of rolls: 49/6 of it, since an average
/// roll is worth 49/6 pips with doubles counted fourfold (the GNU Backgammon manual).
pub fn epc(rolls: Scaled) -> Fraction
    ensures value { IsEffectivePips rolls result.numerator result.denominator }
    ensures ratio { IsSmallRatio result }
{
    mean_and_epc(rolls).1
}

/// The mean as a fraction, and its effective pip count. The second takes little more time once the
/// mean is in lowest terms.
pub fn mean_and_epc(rolls: Scaled) -> (Fraction, Fraction)
    ensures mean { IsMean rolls result.0.numerator result.0.denominator }
    ensures epc { IsEffectivePips rolls result.1.numerator result.1.denominator }
    ensures mean_ratio { IsSmallRatio result.0 }
    ensures epc_ratio { IsSmallRatio result.1 }
{
    let mean = lowest(rolls.numerator());
    let epc = without_common(Terms {
        numerator: 49 * mean.numerator,
        threes: mean.threes + 1,
        twos: mean.twos + 1,
    });
    (fraction_of(mean), fraction_of(epc))
}

/// The share of exactly `k` rolls as a fraction; 0 from 23 rolls on.
#[tactic(auto, unfolding(race_model::specs::LocalEquations::whole))]
pub fn share(spread: &Spread, k: u8) -> Fraction
    ensures value { IsFraction (slice_index spread.now k) whole result.numerator
        result.denominator }
    ensures ratio { IsSmallRatio result }
{
    reduced(spread.at(k))
}

/// The fraction in thousandths, rounded to the nearest, and
/// a half upward.
#[tactic(auto, unfolding(race_model::specs::LocalEquations::whole))]
pub fn thousandths(fraction: &Fraction) -> u128
    ensures { IsThousandths fraction.now.numerator fraction.now.denominator result }
{
    u128::from(thousandths_of(fraction.numerator, fraction.denominator))
}

/// A numerator over a denominator, at most 180 of them, in thousandths, rounded the same way. They
/// need not be in lowest terms.
#[tactic(auto, unfolding(race_model::specs::LocalEquations::whole))]
pub fn thousandths_of(numerator: u128, denominator: u128) -> u64
    requires positive { 0 < denominator }
    requires short { denominator ≤ 6 * whole }
    requires within { numerator ≤ 180 * denominator }
    ensures { IsThousandths numerator denominator result }
{
    let units = numerator / denominator;
    let rest = numerator - units * denominator;
    (1000 * units + (2000 * rest + denominator) / (2 * denominator)) as u64
}

/// A numerator over 36 ^ 22 in lowest terms.
fn reduced(numerator: u128) -> Fraction
    requires { numerator ≤ 180 * whole }
    ensures value { IsFraction numerator whole result.numerator result.denominator }
    ensures ratio { IsSmallRatio result }
{
    let lowest = lowest(numerator);
    fraction_of(lowest)
}

/// Lowest terms as a fraction.
fn fraction_of(terms: Terms) -> Fraction
    requires threes { terms.threes ≤ 45 }
    requires twos { terms.twos ≤ 45 }
    requires within { terms.numerator ≤ 180 * (3 ^ terms.threes * 2 ^ terms.twos) }
    requires lowest { IsGcd terms.numerator (3 ^ terms.threes * 2 ^ terms.twos) 1 }
    ensures numerator { result.numerator ≡ terms.numerator }
    ensures denominator { result.denominator ≡ 3 ^ terms.threes * 2 ^ terms.twos }
    ensures ratio { IsSmallRatio result }
{
    Fraction {
        numerator: terms.numerator,
        denominator: power_of_three(terms.threes) << terms.twos,
    }
}

/// Three to the power of up to 67.
#[tactic(auto, using(crate::proofs::Fractions::at_power))]
pub(crate) fn power_of_three(exponent: u32) -> u128
    requires { exponent ≤ 67 }
    ensures { result ≡ 3 ^ exponent }
{
    POWERS_OF_THREE[exponent as usize]
}
