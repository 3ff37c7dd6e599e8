//! The rank of a position, by counting.
ghost use Rattle.std.specs.Prelude.{◌≡◌, ◌-◌, ◌^◌, ◌≤◌, take};
ghost use Rattle.race_model.specs.Prelude.{checkers, pips, comes_first, is_before, rank};
ghost use Rattle.plain_model.specs.Counting.{is_position_before, positions_before};

use home_board::Position;

// How many checkers there are.
fn checkers_of(counts: [u8; 6]) -> u16
    ensures { result ≡ checkers counts }
{
    let [ones, twos, threes, fours, fives, sixes] = counts;
    u16::from(ones)
        + u16::from(twos)
        + u16::from(threes)
        + u16::from(fours)
        + u16::from(fives)
        + u16::from(sixes)
}

// How many pips they have.
fn pips_of(counts: [u8; 6]) -> u16
    ensures { result ≡ pips counts }
{
    let [ones, twos, threes, fours, fives, sixes] = counts.map(u16::from);
    ones + 2 * twos + 3 * threes + 4 * fours + 5 * fives + 6 * sixes
}

// Whether the counts are smaller than the others where they first differ.
fn is_smaller(counts: [u8; 6], others: [u8; 6]) -> bool
    ensures { result ≡ comes_first counts others }
{
    for place in 0..6 {
        if counts[place] != others[place] {
            return counts[place] < others[place];
        }
    }
    false
}

// Whether the counts are those of a position, and it comes
// before the position with the other counts.
fn is_earlier_position(counts: [u8; 6], others: [u8; 6]) -> bool
    ensures { result ≡ is_position_before counts others }
{
    if checkers_of(counts) > 15 {
        return false;
    }
    let (pips, others_pips) = (pips_of(counts), pips_of(others));
    if pips == others_pips {
        return is_smaller(counts, others);
    }
    pips < others_pips
}

// How many positions come before the one with the other counts, of those whose
// first counts are given: the last `left` counts are tried from 0 to 15.
fn count_earlier(counts: [u8; 6], left: usize, others: [u8; 6]) -> u32
    requires { left ≤ 6 }
    ensures value { result ≡ positions_before (take (6 - left) counts) left others }
    ensures range { result ≤ 16 ^ left }
{
    if left == 0 {
        return u32::from(is_earlier_position(counts, others));
    }
    let mut found = 0;
    for checkers in 0..16 {
        let mut longer = counts;
        longer[6 - left] = checkers;
        found += count_earlier(longer, left - 1, others);
    }
    found
}

// The counts of the points 1 to 6.
fn counts_of(position: &Position) -> [u8; 6]
    ensures { result ≡ position.now }
{
    [1, 2, 3, 4, 5, 6].map(|point| position.count(point))
}

/// The rank of a position: how many positions are before it, counted among all lists
/// of six counts of 0 to 15. (This project's profile.) It goes over 16^6 lists.
pub fn rank_by_counting(position: &Position) -> u32
    ensures { result ≡ rank position.now }
{
    count_earlier([0; 6], 6, counts_of(position))
}

// The ranks are those of an independent program.
