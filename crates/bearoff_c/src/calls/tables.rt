//! Whole tables in one call: what a file of any version says of each position, from a rank on.
ghost use Rattle.std.specs.Prelude.{◌≡◌, length};
ghost use Rattle.epc_query.specs.Kinds.{file_book};
ghost use Rattle.bearoff_c.specs.Told.{SaysByRank, SaysMean, SaysEpc, SaysShares};
ghost use Rattle.bearoff_c.specs.Refusals.{rank_refusal, status_of};

use crate::calls::distributions::Distribution;
use crate::calls::positions::Counts;
use crate::kept::File;
use crate::numbers::{Long, RoundedLong};
use crate::questions::{Epc, Mean, Points, Shares, ask_by_rank};
use crate::statuses::OK;

/// The positions of as many ranks from one on as `positions` has room for, by rising rank. Refused
/// as `NotOpen`, and as `NoRank` exactly where the file has fewer from there on; then `positions`
/// stays as it was.
#[unsafe(no_mangle)]
pub extern "C" fn bearoff_listed_positions(
    file: &File<'_>,
    first: u16,
    positions: &mut [Counts],
) -> u32
    ensures status { result ≡ status_of
        (rank_refusal file.now.is_open file.now.bound first (length positions.old)) }
    ensures positions { result ≡ 0 → SaysByRank first positions.new
        (λ x counts. counts.points ≡ x) }
    ensures left { ¬ (result ≡ 0) → positions.new ≡ positions.old }
{
    match ask_by_rank::<Points>(file, first, positions) {
        Ok(()) => OK,
        Err(refusal) => refusal.status(),
    }
}

/// The least mean numbers of rolls of the positions of as many ranks from one on as `means` has
/// room for, by rising rank, each as that of `bearoff_mean`. Refused as `bearoff_listed_positions`
/// is, and as `Changed` only where the bytes were changed since they were checked, of which no
/// clause speaks; then `means` stays as it was.
#[unsafe(no_mangle)]
pub extern "C" fn bearoff_listed_means(file: &File<'_>, first: u16, means: &mut [Long]) -> u32
    ensures status { result ≡ status_of
        (rank_refusal file.now.is_open file.now.bound first (length means.old)) }
    ensures means { result ≡ 0 → SaysByRank first means.new
        (SaysMean (file_book file.now.bytes.now)) }
    ensures left { ¬ (result ≡ 0) → means.new ≡ means.old }
{
    match ask_by_rank::<Mean>(file, first, means) {
        Ok(()) => OK,
        Err(refusal) => refusal.status(),
    }
}

/// The effective pip counts of the positions of as many ranks from one on as `epcs` has room for,
/// by rising rank, each as that of `bearoff_epc`. Refused as `bearoff_listed_means` is; then `epcs`
/// stays as it was.
#[unsafe(no_mangle)]
pub extern "C" fn bearoff_listed_epcs(file: &File<'_>, first: u16, epcs: &mut [RoundedLong]) -> u32
    ensures status { result ≡ status_of
        (rank_refusal file.now.is_open file.now.bound first (length epcs.old)) }
    ensures pips { result ≡ 0 → SaysByRank first epcs.new
        (SaysEpc (file_book file.now.bytes.now)) }
    ensures left { ¬ (result ≡ 0) → epcs.new ≡ epcs.old }
{
    match ask_by_rank::<Epc>(file, first, epcs) {
        Ok(()) => OK,
        Err(refusal) => refusal.status(),
    }
}

/// How the numbers of rolls are spread for the positions of as many ranks from one on as
/// `distributions` has room for, by rising rank, each as that of `bearoff_distribution`. Refused as
/// `bearoff_listed_means` is; then `distributions` stays as it was.
#[unsafe(no_mangle)]
pub extern "C" fn bearoff_listed_distributions(
    file: &File<'_>,
    first: u16,
    distributions: &mut [Distribution],
) -> u32
    ensures status { result ≡ status_of
        (rank_refusal file.now.is_open file.now.bound first (length distributions.old)) }
    ensures shares { result ≡ 0 → SaysByRank first distributions.new
        (SaysShares (file_book file.now.bytes.now)) }
    ensures left { ¬ (result ≡ 0) → distributions.new ≡ distributions.old }
{
    match ask_by_rank::<Shares>(file, first, distributions) {
        Ok(()) => OK,
        Err(refusal) => refusal.status(),
    }
}
