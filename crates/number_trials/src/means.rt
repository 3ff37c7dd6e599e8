//! What is computed of means.
use crate::numbers::Numbers;
use fixed_fraction::{BoardMean, LongSum, board_mean_and_epc, sum_of};

/// The mean whose parts are two of the numbers.
fn mean_at(given: &Numbers, index: usize) -> Option<BoardMean> {
    BoardMean::new(given.at(index), given.word(index.saturating_add(1)))
}

/// The sum of three means, by the rolls that lead to them.
fn sum(given: &Numbers) -> Option<LongSum> {
    let means = [mean_at(given, 1)?, mean_at(given, 3)?, mean_at(given, 5)?];
    let mut rolls = [BoardMean::ZERO; 21];
    let choices = given.choices();
    for index in 0..21 {
        rolls[index] = means[usize::from(choices[index]).min(2)];
    }
    Some(sum_of(&rolls))
}

/// One roll and the mean of what the rolls lead to.
pub(crate) fn mean_of_sum(given: &Numbers) -> Option<Numbers> {
    let mean = sum(given)?.mean()?;
    Some(parts_of(mean))
}

/// Whether another number is that mean.
pub(crate) fn is_mean_of_sum(given: &Numbers) -> Option<Numbers> {
    let mut told = Numbers::none();
    told.add(u128::from(sum(given)?.is_mean(mean_at(given, 7)?)));
    Some(told)
}

/// Whether a number is less than another one, and the other one less than it, and whether the
/// order of values says the same.
pub(crate) fn order(given: &Numbers) -> Option<Numbers> {
    let first = mean_at(given, 0)?;
    let second = mean_at(given, 2)?;
    let mut told = Numbers::none();
    told.add(u128::from(first.is_less(second)));
    told.add(u128::from(second.is_less(first)));
    told.add(u128::from(first < second));
    Some(told)
}

/// The difference of two numbers.
pub(crate) fn minus(given: &Numbers) -> Option<Numbers> {
    let difference = mean_at(given, 0)?.minus(mean_at(given, 2)?)?;
    Some(parts_of(difference))
}

/// A number, and 49/6 of it, in thousandths.
pub(crate) fn rounded(given: &Numbers) -> Option<Numbers> {
    let mean = mean_at(given, 0)?;
    let mut told = Numbers::none();
    told.add(u128::from(mean.thousandths()));
    told.add(u128::from(mean.effective_thousandths()));
    Some(told)
}

/// A number, and 49/6 of it, in lowest terms.
pub(crate) fn fractions(given: &Numbers) -> Option<Numbers> {
    let (mean, epc) = board_mean_and_epc(mean_at(given, 0)?);
    let mut told = Numbers::none();
    told.add_wide(mean.numerator());
    told.add_wide(mean.denominator());
    told.add_wide(epc.numerator());
    told.add_wide(epc.denominator());
    Some(told)
}

/// The parts of a number.
fn parts_of(mean: BoardMean) -> Numbers {
    let mut told = Numbers::none();
    told.add_parts(mean.upper(), mean.lower());
    told
}
