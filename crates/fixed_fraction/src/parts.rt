//! The parts of numbers in two parts, and powers of 36.
ghost use Rattle.std.specs.Prelude.{◌≡◌, ◌+◌, ◌*◌, ◌^◌, ◌<◌, ◌≤◌, ◌↔◌, IsTrue};
ghost use Rattle.fixed_fraction.specs.Board.{part};

/// How many lower parts make one upper part: 36 ^ 11.
pub const PART: u64 = 131621703842267136;

/// 36 to the power of 0 to 22.
const POWERS_OF_36: [u128; 23] = [
    1,
    36,
    1296,
    46656,
    1679616,
    60466176,
    2176782336,
    78364164096,
    2821109907456,
    101559956668416,
    3656158440062976,
    131621703842267136,
    4738381338321616896,
    170581728179578208256,
    6140942214464815497216,
    221073919720733357899776,
    7958661109946400884391936,
    286511799958070431838109696,
    10314424798490535546171949056,
    371319292745659279662190166016,
    13367494538843734067838845976576,
    481229803398374426442198455156736,
    17324272922341479351919144385642496,
];

/// 36 to the power of up to 22.
pub(crate) fn power_of_36(exponent: u8) -> u128
    requires { exponent ≤ 22 }
    ensures { result ≡ 36 ^ exponent }
{
    POWERS_OF_36[usize::from(exponent)]
}

/// Whether two parts are a number's: the lower one is less than 36 ^ 11, and the number at most so
/// many of 36 ^ 11.
#[inline(always)]
pub(crate) fn are_parts(upper: u128, lower: u64, most: u128) -> bool
    ensures { IsTrue result ↔ ((lower < part) × (upper * part + lower ≤ most * part)) }
{
    lower < PART && (upper < most || (upper == most && lower == 0))
}

/// Whether two parts are those of a count of `k` throws, k from 12 to 33: the lower one is less
/// than 36 ^ 11, and the count at most 36 ^ k.
#[inline(always)]
pub(crate) fn are_count_parts(k: u8, upper: u128, lower: u64) -> bool
    requires least { 12 ≤ k }
    requires most { k ≤ 33 }
    ensures { IsTrue result ↔ ((lower < part) × (upper * part + lower ≤ 36 ^ k)) }
{
    are_parts(upper, lower, power_of_36(k - 11))
}
