//! Ranks, results, means and texts, compared with the plain programs.
use crate::difference::Difference;
use crate::random::{Random, damage};
use certificate::Checked;
use db_reader::Whole;
use fixed_fraction::WHOLE;
use home_board::{Position, parse_position, write_position};
use legal_plays::{Die, Roll, results};
use plain_model::{legal_positions, rank_by_counting};
use ranking::Ranks;
use std::alloc::Global;

/// Compares one position of each kind, chosen by the numbers.
pub(crate) fn compare_positions(
    alloc: Global,
    random: &mut Random,
    ranks: &Ranks,
    checked: &mut Checked<Whole<'_>>,
) -> Result<(), Difference> {
    let low = position(random, ranks, 64);
    compare_rank(random, ranks, &low)?;
    compare_means(alloc, checked, &low)?;
    let high = position(random, ranks, 54_264);
    for roll in Roll::from_index(random.below(21).min(20) as u8) {
        compare_results(alloc, &high, roll)?;
    }
    compare_text(random, &high)
}

fn position(random: &mut Random, ranks: &Ranks, limit: usize) -> Position {
    let rank = random.below(limit).min(65_535) as u16;
    ranks.unrank(rank).unwrap_or(Position::EMPTY)
}

/// Once in 64 times, since the plain program goes over all lists of six counts: the rank is that
/// of the plain program.
fn compare_rank(random: &mut Random, ranks: &Ranks, position: &Position) -> Result<(), Difference> {
    if !random.one_in(64) {
        return Ok(());
    }
    let plain = rank_by_counting(position);
    Difference::Ranks.unless(u32::from(ranks.rank(position)) == plain)
}

/// The results of a roll are those of the plain program.
fn compare_results(alloc: Global, position: &Position, roll: Roll) -> Result<(), Difference> {
    let found = results(position, roll);
    let plain = legal_positions(alloc, position, roll.low(), roll.high())?;
    for result in found.as_slice() {
        Difference::Results.unless(plain.as_slice().contains(result))?;
    }
    for result in plain.as_slice() {
        Difference::Results.unless(found.as_slice().contains(result))?;
    }
    Ok(())
}

/// The mean is one roll and the mean of the best results over all 36 throws.
fn compare_means(
    alloc: Global,
    checked: &mut Checked<Whole<'_>>,
    position: &Position,
) -> Result<(), Difference> {
    let mean = checked.scaled(position)?.numerator();
    if position.is_finished() {
        return Difference::Means.unless(mean == 0);
    }
    let mut sum: u128 = 36 * WHOLE;
    for one in (1..7).filter_map(Die::new) {
        for other in (1..7).filter_map(Die::new) {
            let plain = legal_positions(alloc, position, one, other)?;
            let least = least_mean(checked, plain.as_slice())?;
            sum = sum.saturating_add(least);
        }
    }
    Difference::Means.unless(mean.saturating_mul(36) == sum)
}

fn least_mean(checked: &mut Checked<Whole<'_>>, found: &[Position]) -> Result<u128, Difference> {
    let mut least = u128::MAX;
    for result in found {
        least = least.min(checked.scaled(result)?.numerator());
    }
    Ok(least)
}

/// The text of a position is read as that position, and where it is read after one byte was
/// changed, then as the position that has the changed text.
fn compare_text(random: &mut Random, position: &Position) -> Result<(), Difference> {
    let text = write_position(position);
    let is_read = parse_position(text.as_str().as_bytes()) == Ok(*position);
    Difference::Texts.unless(is_read)?;
    let mut changed = [0; 12];
    for (new, old) in changed.iter_mut().zip(text.as_str().as_bytes()) {
        *new = *old;
    }
    let length = text.len().min(12);
    damage(random, &mut changed[..length], 0, 1);
    match parse_position(&changed[..length]) {
        Ok(other) => {
            let text = write_position(&other);
            Difference::Texts.unless(text.as_str().as_bytes() == &changed[..length])
        }
        Err(_) => Ok(()),
    }
}
