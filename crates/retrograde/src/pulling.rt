//! The record of a position from the records of lower rank.
ghost use Rattle.std.specs.Prelude.{◌≡◌, ℕ, suc, ◌<◌, ◌≤◌, length, slice_index};
ghost use Rattle.race_model.specs.Prelude.{IsPosition, pips, roll_at, rank as rank_of, whole, IsBestPlay};
ghost use Rattle.retrograde.specs.AllRecords.{AllRecords, shares_of_rank};
ghost use Rattle.retrograde.specs.BuiltRecords.{sum_of_means, sum_of_shares};
ghost use Rattle.retrograde.specs.KeptRecords.{AreKept, IsRecordOfRank};

use crate::kept_shares::KeptRecords;
use db_layout::most_rolls;
use fixed_fraction::{Scaled, Spread, Sums};
use home_board::Position;
use least_plays::LeastPlays;
use ranking::Ranks;

/// The mean of the position of the next rank, whose best plays these are. Its shares are put where
/// they are read, and the sums where the last ones were, since large results are copied.
#[inline(always)]
pub(crate) fn next_record(
    position: &Position,
    plays: &[u16; 21],
    records: &KeptRecords<'_>,
    sums: &mut Sums,
    spread: &mut Spread,
) -> Scaled
    requires position { IsPosition position.now }
    requires low { pips position.now ≤ 58 }
    requires lower { AreKept (length records.now.means.now) records.now.means.now
        records.now.places.now records.now.room.now }
    requires next { rank_of position.now ≡ length records.now.means.now }
    requires best { (i : ℕ) → i < 21 →
        IsBestPlay (slice_index records.now.means.now) position.now (roll_at i)
        (slice_index plays.now i) }
    ensures { (full : AllRecords) →
        IsRecordOfRank full (rank_of position.now) result plays.now spread.new }
{
    if position.is_finished() {
        *spread = Spread::finished();
        return Scaled::ZERO;
    }
    add_plays(sums, records, plays, most_rolls(position.pips()));
    // bytes that another thread changes all the same have sums of any kind
    let _is_exact = sums.put_spread(spread);
    let _start = spread.at(0);
    sums.mean().unwrap_or(Scaled::ZERO)
}

/// Adds up the means and shares after the 21 plays. There is no share of so many rolls or more.
#[inline(always)]
fn add_plays(sums: &mut Sums, records: &KeptRecords<'_>, plays: &[u16; 21], rolls: u8)
    requires lower { AreKept (length records.now.means.now) records.now.means.now
        records.now.places.now records.now.room.now }
    requires made { (i : ℕ) → i < 21 → slice_index plays.now i < length records.now.means.now }
    requires few { rolls ≤ 23 }
    requires beyond { (full : AllRecords) (i k : ℕ) → i < 21 → rolls ≤ k →
        slice_index (shares_of_rank full (slice_index plays.now i)) k ≡ 0 }
    ensures mean { (full : AllRecords) → sums.new.mean ≡ sum_of_means full.means plays.now }
    ensures shares { (full : AllRecords) (k : ℕ) → k < 23 →
        slice_index sums.new.shares k ≡ sum_of_shares full.spreads plays.now k }
{
    let mut means = [Scaled::ZERO; 21];
    let mut spreads = [records.spread(plays[0]); 21];
    for index in 0..21 {
        means[index] = records.mean(plays[index]);
        spreads[index] = records.spread(plays[index]);
    }
    sums.add_up(&means, &spreads, 0, rolls);
}
