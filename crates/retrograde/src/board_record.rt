//! The record of a position, written by the records of lower rank.
ghost use Rattle.std.specs.Prelude.{◌≡◌, ◌+◌, ◌≤◌, min, length, slice_index};
ghost use Rattle.race_model.specs.Prelude.{pips, rank, most_rolls, board_length, count_place};
ghost use Rattle.db_layout.specs.BoardRecords.{KeepsBefore};
ghost use Rattle.db_layout.specs.LowerRecords.{AreBelow, board_mean};
ghost use Rattle.db_layout.specs.BoardWords.{AreWordSums};
ghost use Rattle.retrograde.specs.NextBoardRecord.{AreBestPlays, AreCountsBy, IsRecordBy};

use db_layout::{
    LowerRecords, WORDS, count_of, mean_of, most_rolls, put_count, put_mean, put_plays, word_sums,
};
use fixed_fraction::BoardMean;
use home_board::Position;

/// Writes the next record at the start of the bytes. These are its best plays.
pub fn put_record(
    bytes: &mut [u8],
    lower: &LowerRecords<'_>,
    position: &Position,
    plays: &[u16; 21],
)
    requires long { board_length (pips position.now) ≤ length bytes.old }
    requires next { rank position.now ≡ lower.now.count }
    requires plays { AreBestPlays (board_mean lower.now.bytes) position.now plays.now }
    ensures len { length bytes.new ≡ length bytes.old }
    ensures says { IsRecordBy lower.now.bytes position.now plays.now bytes.new }
{
    if position.is_finished() {
        put_mean(bytes, BoardMean::ZERO);
        put_plays(bytes, plays);
        return;
    }
    put_mean(bytes, mean_of(lower, position, plays));
    put_plays(bytes, plays);
    put_counts(bytes, lower, position.pips(), plays);
}

/// Writes the counts of a record with these plays. The bytes begin with the record of a position
/// of `pips` pips.
fn put_counts(bytes: &mut [u8], lower: &LowerRecords<'_>, pips: u8, plays: &[u16; 21])
    requires low { pips ≤ 90 }
    requires long { board_length pips ≤ length bytes.old }
    requires below { AreBelow (slice_index plays.now) lower.now.count }
    ensures before { KeepsBefore 66 bytes.old bytes.new }
    ensures counts { AreCountsBy lower.now.bytes (most_rolls pips) plays.now bytes.new }
{
    let words = word_sums(lower, plays);
    let rolls = most_rolls(pips);
    put_between(bytes, lower, plays, &words, 0, rolls.min(11));
    put_between(bytes, lower, plays, &words, 11, rolls.min(22));
    put_between(bytes, lower, plays, &words, 22, rolls);
}

/// Writes the counts of more than `from` throws, up to `to`. Those of fewer are written.
// by ranges, which decide how a count is made and where it stands
#[inline(always)]
fn put_between(
    bytes: &mut [u8],
    lower: &LowerRecords<'_>,
    plays: &[u16; 21],
    words: &[u64; WORDS],
    from: u8,
    to: u8,
)
    requires few { to ≤ 33 }
    requires long { count_place (to + 1) ≤ length bytes.old }
    requires below { AreBelow (slice_index plays.now) lower.now.count }
    requires words { AreWordSums lower.now.bytes (slice_index plays.now) words.now }
    requires fewer { AreCountsBy lower.now.bytes (min from to) plays.now bytes.old }
    ensures before { KeepsBefore 66 bytes.old bytes.new }
    ensures counts { AreCountsBy lower.now.bytes to plays.now bytes.new }
{
    for k in from..to {
        put_count(bytes, k + 1, count_of(lower, plays, words, k));
    }
}
