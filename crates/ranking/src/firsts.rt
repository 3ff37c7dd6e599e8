//! How many positions have fewer pips: numbers that no table has to be counted for.
ghost use Rattle.std.specs.Prelude.{◌≡◌, ◌+◌, ◌<◌, ◌≤◌};
ghost use Rattle.race_model.specs.Prelude.{first_of, count_to};

/// How many positions have fewer pips, for each pip count from 0 to 91.
pub const FIRSTS: [u16; 92] = [
    0, 1, 2, 4, 7, 12, 19, 30, 44, 64, 90, 125, 169, 227, 298, 388, 498, 633, 794, 989, 1217, 1487,
    1799, 2161, 2573, 3045, 3574, 4170, 4831, 5565, 6368, 7250, 8202, 9233, 10335, 11513, 12757,
    14073, 15446, 16881, 18364, 19896, 21461, 23062, 24679, 26314, 27950, 29585, 31202, 32803,
    34368, 35900, 37383, 38818, 40191, 41507, 42751, 43929, 45031, 46062, 47014, 47896, 48699,
    49433, 50094, 50690, 51219, 51691, 52103, 52465, 52777, 53047, 53275, 53470, 53631, 53766,
    53876, 53966, 54037, 54095, 54139, 54174, 54200, 54220, 54234, 54245, 54252, 54257, 54260,
    54262, 54263, 54264,
];

/// The pip count of the position of each 256th rank, from rank 0 on.
const LEVELS: [u8; 212] = [
    0, 13, 16, 17, 19, 20, 21, 21, 22, 23, 23, 24, 25, 25, 26, 26, 26, 27, 27, 28, 28, 28, 29, 29,
    29, 30, 30, 30, 30, 31, 31, 31, 31, 32, 32, 32, 32, 33, 33, 33, 33, 34, 34, 34, 34, 35, 35, 35,
    35, 35, 36, 36, 36, 36, 36, 37, 37, 37, 37, 37, 37, 38, 38, 38, 38, 38, 39, 39, 39, 39, 39, 39,
    40, 40, 40, 40, 40, 40, 41, 41, 41, 41, 41, 41, 42, 42, 42, 42, 42, 42, 42, 43, 43, 43, 43, 43,
    43, 44, 44, 44, 44, 44, 44, 45, 45, 45, 45, 45, 45, 45, 46, 46, 46, 46, 46, 46, 47, 47, 47, 47,
    47, 47, 48, 48, 48, 48, 48, 48, 48, 49, 49, 49, 49, 49, 49, 50, 50, 50, 50, 50, 50, 51, 51, 51,
    51, 51, 51, 52, 52, 52, 52, 52, 53, 53, 53, 53, 53, 54, 54, 54, 54, 54, 54, 55, 55, 55, 55, 56,
    56, 56, 56, 56, 57, 57, 57, 57, 58, 58, 58, 58, 59, 59, 59, 59, 60, 60, 60, 60, 61, 61, 61, 62,
    62, 62, 63, 63, 64, 64, 64, 65, 65, 66, 67, 67, 68, 69, 69, 70, 71, 73, 74, 77,
];

/// How many positions have fewer than so many pips: the rank of the first position of so many
/// pips, and 54,264 above 90 pips.
pub fn first_of(pips: u8) -> u16
    ensures { result ≡ first_of pips }
{
    FIRSTS[usize::from(pips.min(91))]
}

/// How many positions have at most so many pips; 54,264 from 90 pips on.
pub fn count_to(pips: u8) -> u16
    ensures { result ≡ count_to pips }
{
    FIRSTS[usize::from(pips.min(90)) + 1]
}

/// The pip count of the position of a rank.
pub fn pips_of(rank: u16) -> u8
    requires { rank < 54264 }
    ensures from { first_of result ≤ rank }
    ensures to { rank < first_of (result + 1) }
    ensures range { result ≤ 90 }
{
    let mut pips = LEVELS[usize::from(rank / 256)];
    while FIRSTS[usize::from(pips) + 1] <= rank {
        pips += 1;
    }
    pips
}
