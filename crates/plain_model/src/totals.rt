//! The rolls of a strategy over all sequences of two throws.
ghost use Rattle.std.specs.Prelude.{◌≡◌, ◌*◌, ◌==◌, if◌then◌else◌, length};
ghost use Rattle.race_model.specs.Prelude.{Board, Throw, Strategy, total_over, count_over};
ghost use Rattle.plain_model.specs.TwoTurns.{begins_with, rolls_of_two};

use home_board::Position;

// How many of two rolls are needed, where the first leads from the start to `after`.
fn rolls_of_two(start: &Position, after: &Position) -> u32
    ensures { result ≡ rolls_of_two start.now after.now }
{
    if start.is_finished() {
        return 0;
    }
    if after.is_finished() {
        return 1;
    }
    2
}

// These rolls, added up over the 36 throws that may come second.
fn over_second_throws(start: &Position, after: &Position) -> u32
    ensures { result ≡ 36 * rolls_of_two start.now after.now }
{
    let mut total = 0;
    for _one in 0..6u8 {
        for _other in 0..6u8 {
            total += rolls_of_two(start, after);
        }
    }
    total
}

/// The rolls that a strategy needs, added up over all 36 * 36 sequences of two throws. It starts
/// from a position and plays the first throw as the list says: the 36 positions after it, by the
/// number of the first die and then by that of the second. How it plays the second throw makes no
/// difference to the rolls of two throws.
pub fn total_over_two(start: &Position, plays: &[Position]) -> u32
    requires { length plays.now ≡ 36 }
    ensures { (second : Throw → Throw → Board) (later : Throw → Throw → Strategy) →
        result ≡ total_over 2 (begins_with start.now plays.now second later) }
{
    let mut total = 0;
    for first in 0..6 {
        for second in 0..6 {
            total += over_second_throws(start, &plays[6 * first + second]);
        }
    }
    total
}

// After how many of the 36 throws that may come second exactly so many rolls were needed.
fn second_throws_with(start: &Position, after: &Position, rolls: u32) -> u32
    ensures { result ≡ (if rolls_of_two start.now after.now == rolls then 36 else 0) }
{
    let mut count = 0;
    for _one in 0..6u8 {
        for _other in 0..6u8 {
            if rolls_of_two(start, after) == rolls {
                count += 1;
            }
        }
    }
    count
}

/// In how many of all 36 * 36 sequences of two throws a strategy needs
/// exactly so many rolls. It starts and plays as in `total_over_two`.
pub fn sequences_of_two(start: &Position, plays: &[Position], rolls: u32) -> u32
    requires { length plays.now ≡ 36 }
    ensures { (second : Throw → Throw → Board) (later : Throw → Throw → Strategy) →
        result ≡ count_over 2 (begins_with start.now plays.now second later) rolls }
{
    let mut count = 0;
    for one in 0..6 {
        for other in 0..6 {
            count += second_throws_with(start, &plays[6 * one + other], rolls);
        }
    }
    count
}

// The numbers are those of a count by hand: 9 of the 36
// throws don't bear a checker off from point 6.
