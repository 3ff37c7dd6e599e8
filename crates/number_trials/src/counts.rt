//! What is computed of counts.
ghost use Rattle.std.specs.Prelude.{◌^◌, ◌≤◌, IfSome};

use crate::numbers::Numbers;
use fixed_fraction::{LongCount, board_mean_fraction, sum_of};

/// Which of three numbers each roll leads to.
fn of_rolls<N: Copy>(given: &Numbers, numbers: [N; 3]) -> [N; 21] {
    let choices = given.choices();
    let mut rolls = [numbers[0]; 21];
    for index in 0..21 {
        rolls[index] = numbers[usize::from(choices[index]).min(2)];
    }
    rolls
}

/// The count of `k` throws whose parts are two of the numbers.
fn long_at(given: &Numbers, k: u8, index: usize) -> Option<LongCount>
    requires least { 23 ≤ k }
    requires most { k ≤ 33 }
    ensures { IfSome result (λ count. count ≤ 36 ^ k) }
{
    LongCount::new(k, given.at(index), given.word(index.saturating_add(1)))
}

/// The sum of counts of 33 throws, as a count of so many.
pub(crate) fn long_sum(given: &Numbers) -> Option<Numbers> {
    let sum = sum_of(&of_rolls(
        given,
        [
            long_at(given, 33, 1)?,
            long_at(given, 33, 3)?,
            long_at(given, 33, 5)?,
        ],
    ));
    Some(parts_of(sum.count()?))
}

/// The share of so many rolls, from 23 to 33, over 36 ^ 33 and in lowest terms.
pub(crate) fn share(given: &Numbers) -> Option<Numbers> {
    let k = given.byte(0);
    if k < 23 || k > 33 {
        return None;
    }
    let count = long_at(given, k, 1)?;
    let share = count.share(k);
    let fraction = board_mean_fraction(share);
    let mut told = Numbers::none();
    told.add_wide(share.numerator());
    told.add_wide(fraction.numerator());
    told.add_wide(fraction.denominator());
    Some(told)
}

/// The parts of a count.
fn parts_of(count: LongCount) -> Numbers {
    let mut told = Numbers::none();
    told.add_parts(count.upper(), count.lower());
    told
}
