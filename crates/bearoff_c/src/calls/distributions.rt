//! How the number of rolls of a position is spread by a file of any version, and the chance to be
//! off within so many.
ghost use Rattle.std.specs.Prelude.{◌≡◌, ℕ, ◌+◌, ◌-◌, ◌*◌, ◌^◌, ◌<◌, ◌≤◌, sum_by, map, slice_index};
ghost use Rattle.std.specs.Prelude.{IfOk, IfSome, IfNone};
ghost use Rattle.std.specs.List.{range_with_len};
ghost use Rattle.epc_query.specs.Kinds.{file_book};
ghost use Rattle.bearoff_c.specs.Longs.{long_number_of};
ghost use Rattle.bearoff_c.specs.Refusals.{position_refusal, refusal_in, status_of};
ghost use Rattle.bearoff_c.specs.Told.{SaysShares, SaysChance};

use crate::calls::positions::Counts;
use crate::calls::ranks::find_in;
use crate::kept::File;
use crate::numbers::Long;
use crate::questions::{Shares, ask};
use crate::statuses::{Refusal, put};
use fixed_fraction::{Wide, wide_thousandths};
use race_model::laws;

/// How the number of rolls is spread.
#[repr(C)]
#[derive(Clone, Copy, Debug, PartialEq, Eq)]
pub struct Distribution {
    /// The chances of exactly 0 to 33 rolls, as numerators over 36 to the power of the most rolls
    /// of the file, and 0 beyond these.
    pub shares: [Long; 34],
}

/// How the number of rolls is spread where each play is the recorded one: the chance of exactly k
/// rolls for each k from 0 to the file's most rolls, as a numerator over 36 to that power, and 0
/// beyond. Refused as `bearoff_mean` is; then `distribution` stays as it was.
#[unsafe(no_mangle)]
pub extern "C" fn bearoff_distribution(
    file: &File<'_>,
    position: &Counts,
    distribution: &mut Distribution,
) -> u32
    ensures status { result ≡ status_of
        (position_refusal file.now.is_open file.now.bound position.now.points) }
    ensures shares { result ≡ 0 →
        SaysShares (file_book file.now.bytes.now) position.now.points distribution.new }
    ensures left { ¬ (result ≡ 0) → distribution.new ≡ distribution.old }
{
    put(ask::<Shares>(file, position), distribution)
}

/// A chance.
#[repr(C)]
#[derive(Clone, Copy, Debug, PartialEq, Eq)]
pub struct Chance {
    /// As a numerator over 36 to the power of the file's most rolls.
    pub numerator: Long,

    /// In thousandths, rounded to the nearest, and a half upward.
    pub thousandths: u64,
}

/// The chance that all checkers of a position are off within a number of rolls. Refused as
/// `bearoff_mean` is.
fn chance_within(file: &File<'_>, position: &Counts, rolls: u8) -> Result<Chance, Refusal>
    ensures refusal { refusal_in result
        ≡ position_refusal file.now.is_open file.now.bound position.now.points }
    ensures chance { IfOk result
        (SaysChance (file_book file.now.bytes.now) position.now.points rolls) }
{
    laws::law_spread();
    let opened = file.opened()?;
    let found = find_in(&opened, position)?;
    let _bound = opened.bound();
    let Some(shares) = opened.shares(opened.rank(&found)) else {
        return Err(Refusal::Changed);
    };
    let shares = longs(&shares);
    let most = opened.most_rolls();
    let Some(numerator) = shares_to(&shares, rolls.min(most), most) else {
        return Err(Refusal::Changed);
    };
    match wide_thousandths(numerator.number(), opened.whole()) {
        Some(thousandths) => Ok(Chance {
            numerator,
            thousandths,
        }),
        None => Err(Refusal::Changed),
    }
}

/// The chance that all checkers are off within a number of rolls where each play is the recorded
/// one; from the file's most rolls on it is 1. Refused as `bearoff_mean` is; then `chance`
/// stays as it was.
#[unsafe(no_mangle)]
pub extern "C" fn bearoff_within(
    file: &File<'_>,
    position: &Counts,
    rolls: u8,
    chance: &mut Chance,
) -> u32
    ensures status { result ≡ status_of
        (position_refusal file.now.is_open file.now.bound position.now.points) }
    ensures chance { result ≡ 0 →
        SaysChance (file_book file.now.bytes.now) position.now.points rolls chance.new }
    ensures left { ¬ (result ≡ 0) → chance.new ≡ chance.old }
{
    put(chance_within(file, position, rolls), chance)
}

/// The shares up to a number of rolls, of at most so many, added up; none only where the shares of
/// all of these have a sum of more than 192 bits.
fn shares_to(shares: &[Long; 34], rolls: u8, most: u8) -> Option<Long>
    requires few { rolls ≤ most }
    requires range { most ≤ 33 }
    ensures value { IfSome result (λ total. long_number_of total
        ≡ sum_by (slice_index (map long_number_of shares.now)) (range_with_len 0 (rolls + 1))) }
    ensures none { IfNone result (2 ^ 192
        ≤ sum_by (slice_index (map long_number_of shares.now)) (range_with_len 0 (most + 1))) }
{
    let mut total = Long::ZERO;
    for k in 0..rolls + 1 {
        total = total.plus(shares[usize::from(k)])?;
    }
    Some(total)
}

/// Shares, in three words each.
pub fn longs(shares: &[Wide; 34]) -> [Long; 34]
    ensures { map long_number_of result ≡ shares.now }
{
    let mut longs = [Long::ZERO; 34];
    for k in 0..34 {
        longs[k] = Long::of(shares[k]);
    }
    longs
}
