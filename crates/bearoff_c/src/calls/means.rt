//! The least mean number of rolls of a position by a file of any version, its effective pip count,
//! and its wastage.
ghost use Rattle.std.specs.Prelude.{◌≡◌, ◌*◌, ◌<◌, ◌≤◌, ◌↔◌, IsTrue, IfOk};
ghost use Rattle.race_model.specs.Prelude.{IsThousandths};
ghost use Rattle.fixed_fraction.specs.Board.{board_whole};
ghost use Rattle.epc_query.specs.Kinds.{file_book};
ghost use Rattle.bearoff_c.specs.Longs.{long_number_of};
ghost use Rattle.bearoff_c.specs.Refusals.{position_refusal, refusal_in, status_of};
ghost use Rattle.bearoff_c.specs.Told.{SaysMean, SaysRolls, SaysEpc, SaysWastage};

use crate::calls::positions::Counts;
use crate::calls::ranks::find_in;
use crate::kept::File;
use crate::numbers::{Long, LongFraction, RoundedLong};
use crate::questions::{Epc, Mean, ask};
use crate::statuses::{Refusal, put};
use fixed_fraction::wide_thousandths;

/// How much more than its pip count a position takes, in thousandths of a pip.
#[repr(C)]
#[derive(Clone, Copy, Debug, PartialEq, Eq)]
pub struct Wastage {
    /// The effective pip count, rounded, less the pip count; or the pip count less it.
    pub thousandths: u64,

    /// Whether the pip count is the greater of the two.
    pub is_below: bool,
}

/// The least mean number of rolls of a position over all strategies, also those that look at the
/// history, as a numerator over 36 to the power of the file's most rolls. Refused as `NotOpen`,
/// `TooMany` or `OverBound`, and as `Changed` only where the bytes were changed since they were
/// checked, of which no clause speaks; then `mean` stays as it was.
#[unsafe(no_mangle)]
pub extern "C" fn bearoff_mean(file: &File<'_>, position: &Counts, mean: &mut Long) -> u32
    ensures status { result ≡ status_of
        (position_refusal file.now.is_open file.now.bound position.now.points) }
    ensures mean { result ≡ 0 →
        SaysMean (file_book file.now.bytes.now) position.now.points mean.new }
    ensures left { ¬ (result ≡ 0) → mean.new ≡ mean.old }
{
    put(ask::<Mean>(file, position), mean)
}

/// The least mean number of rolls of a position over all strategies, as a fraction and in
/// thousandths. Refused as `bearoff_mean` is; then `rolls` stays as it was.
#[unsafe(no_mangle)]
pub extern "C" fn bearoff_rounded_mean(
    file: &File<'_>,
    position: &Counts,
    rolls: &mut RoundedLong,
) -> u32
    ensures status { result ≡ status_of
        (position_refusal file.now.is_open file.now.bound position.now.points) }
    ensures rolls { result ≡ 0 →
        SaysRolls (file_book file.now.bytes.now) position.now.points rolls.new }
    ensures left { ¬ (result ≡ 0) → rolls.new ≡ rolls.old }
{
    put(rolls_of(file, position), rolls)
}

/// The effective pip count of a position: 49/6 of the least mean number of rolls (the GNU
/// Backgammon manual). Refused as `bearoff_mean` is; then `pips` stays as it was.
#[unsafe(no_mangle)]
pub extern "C" fn bearoff_epc(file: &File<'_>, position: &Counts, pips: &mut RoundedLong) -> u32
    ensures status { result ≡ status_of
        (position_refusal file.now.is_open file.now.bound position.now.points) }
    ensures pips { result ≡ 0 →
        SaysEpc (file_book file.now.bytes.now) position.now.points pips.new }
    ensures left { ¬ (result ≡ 0) → pips.new ≡ pips.old }
{
    put(ask::<Epc>(file, position), pips)
}

/// The wastage of a position: its effective pip count, in thousandths, less its pip count. Refused
/// as `bearoff_mean` is; then `wastage` stays as it was.
#[unsafe(no_mangle)]
pub extern "C" fn bearoff_wastage(file: &File<'_>, position: &Counts, wastage: &mut Wastage) -> u32
    ensures status { result ≡ status_of
        (position_refusal file.now.is_open file.now.bound position.now.points) }
    ensures wastage { result ≡ 0 →
        SaysWastage (file_book file.now.bytes.now) position.now.points wastage.new }
    ensures left { ¬ (result ≡ 0) → wastage.new ≡ wastage.old }
{
    put(wastage_of(file, position), wastage)
}

/// The mean of a position as a fraction and in thousandths. Refused as `bearoff_mean` is.
fn rolls_of(file: &File<'_>, position: &Counts) -> Result<RoundedLong, Refusal>
    ensures refusal { refusal_in result
        ≡ position_refusal file.now.is_open file.now.bound position.now.points }
    ensures rolls { IfOk result (SaysRolls (file_book file.now.bytes.now) position.now.points) }
{
    let opened = file.opened()?;
    let found = find_in(&opened, position)?;
    let _bound = opened.bound();
    match opened.rolls(opened.rank(&found)) {
        Some(told) => Ok(RoundedLong::of(told)),
        None => Err(Refusal::Changed),
    }
}

/// The wastage of a position. Refused as `bearoff_mean` is.
fn wastage_of(file: &File<'_>, position: &Counts) -> Result<Wastage, Refusal>
    ensures refusal { refusal_in result
        ≡ position_refusal file.now.is_open file.now.bound position.now.points }
    ensures wastage { IfOk result
        (SaysWastage (file_book file.now.bytes.now) position.now.points) }
{
    let opened = file.opened()?;
    let found = find_in(&opened, position)?;
    let Some(told) = opened.epc(opened.rank(&found)) else {
        return Err(Refusal::Changed);
    };
    let pips = 1000 * u64::from(found.pips());
    Ok(Wastage {
        thousandths: told.thousandths.abs_diff(pips),
        is_below: told.thousandths < pips,
    })
}

/// A fraction in thousandths, rounded to the nearest, and a half upward, as of what another call
/// has answered. Whether it could be told: so it is where the denominator is not 0
/// and at most 6 * 36 ^ 33, and the fraction at most 180; else `thousandths` stays as it was.
#[unsafe(no_mangle)]
pub extern "C" fn bearoff_thousandths(fraction: &LongFraction, thousandths: &mut u64) -> bool
    ensures value { IsTrue result → IsThousandths (long_number_of fraction.now.numerator)
        (long_number_of fraction.now.denominator) thousandths.new }
    ensures told { IsTrue result ↔ ((0 < long_number_of fraction.now.denominator)
        × (long_number_of fraction.now.denominator ≤ 6 * board_whole)
        × (long_number_of fraction.now.numerator
        ≤ 180 * long_number_of fraction.now.denominator)) }
    ensures left { ¬ IsTrue result → thousandths.new ≡ thousandths.old }
{
    match wide_thousandths(fraction.numerator.number(), fraction.denominator.number()) {
        Some(told) => {
            *thousandths = told;
            true
        }
        None => false,
    }
}
