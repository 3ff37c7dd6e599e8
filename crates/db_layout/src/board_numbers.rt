//! The mean and the counts of a position, by the records that its plays lead to.
ghost use Rattle.std.specs.Prelude.{◌≡◌, ℕ, ◌+◌, ◌*◌, ◌/◌, ◌^◌, ◌<◌, ◌≤◌, List, slice_index};
ghost use Rattle.race_model.specs.Prelude.{IsPosition, IsFinished, roll_index, weighted, count_at, count_place};
ghost use Rattle.fixed_fraction.specs.Board.{part};
ghost use Rattle.db_layout.specs.LowerRecords.{AreBelow, AreResults, board_mean};
ghost use Rattle.db_layout.specs.BoardWords.{AreWordSums};

use crate::board_places::count_place;
use crate::board_record::Parts;
use crate::board_words::WORDS;
use crate::lower_records::LowerRecords;
use crate::record::{read_long, read_wide};
use fixed_fraction::{BoardMean, LongCount, LongSum, PART, Summand, WEIGHTS, sum_of};
use home_board::Position;

/// One roll and the mean of what 21 plays lead to, from a position that isn't finished.
pub fn mean_of(lower: &LowerRecords<'_>, position: &Position, plays: &[u16; 21]) -> BoardMean
    requires position { IsPosition position.now }
    requires unfinished { ¬ IsFinished position.now }
    requires below { AreBelow (slice_index plays.now) lower.now.count }
    requires results { AreResults position.now (slice_index plays.now) }
    ensures { 36 * result ≡ 36 * 36 ^ 33
        + weighted (λ v. board_mean lower.now.bytes (slice_index plays.now (roll_index v))) }
{
    let _count = lower.count();
    sum_of_means(lower, plays).mean().unwrap_or(BoardMean::ZERO)
}

/// The sum of the means of what 21 plays lead to.
fn sum_of_means(lower: &LowerRecords<'_>, plays: &[u16; 21]) -> LongSum
    requires below { AreBelow (slice_index plays.now) lower.now.count }
    ensures { result.sum
        ≡ weighted (λ v. board_mean lower.now.bytes (slice_index plays.now (roll_index v))) }
{
    let mut sum = BoardMean::none();
    for index in 0..21 {
        sum = BoardMean::plus(sum, WEIGHTS[index], lower.mean_at(plays[index]));
    }
    sum
}

/// Counts the sequences of k + 1 throws that end with the last one. They begin with one of the 21
/// plays: the counts of what they lead to at k throws, added up; to 22 throws these sums are
/// given, word by word. To 11 throws the upper part is 0, to 22 it has one word, and from 12
/// throws on the lower part is less than 36 ^ 11.
#[inline(always)]
pub fn count_of(lower: &LowerRecords<'_>, plays: &[u16; 21], words: &[u64; WORDS], k: u8) -> Parts
    requires few { k < 33 }
    requires below { AreBelow (slice_index plays.now) lower.now.count }
    requires words { AreWordSums lower.now.bytes (slice_index plays.now) words.now }
    ensures value { result.upper * 36 ^ 11 + result.lower
        ≡ weighted (λ v. count_at lower.now.bytes (slice_index plays.now (roll_index v)) k) }
    ensures one { k < 11 → result.upper ≡ 0 }
    ensures word { k < 22 → result.upper < 2 ^ 64 }
    ensures lower { 11 ≤ k → result.lower < 36 ^ 11 }
{
    let _count = lower.count();
    let word = usize::from(k);
    if k < 11 {
        return Parts {
            upper: 0,
            lower: words[word],
        };
    }
    if k == 11 {
        return carried(0, words[word]);
    }
    if k <= 22 {
        return carried(words[2 * word - 12], words[2 * word - 11]);
    }
    parts_of_long(
        sum_of_long(lower, plays, k)
            .count()
            .unwrap_or(LongCount::NONE),
    )
}

/// A number in two parts, the lower one less than 36 ^ 11.
// no sum of 128 bits, whose bytes the compiler would write one by one
#[inline(always)]
fn carried(upper: u64, lower: u64) -> Parts
    requires { upper + lower / part < 2 ^ 64 }
    ensures value { result.upper * 36 ^ 11 + result.lower ≡ upper * 36 ^ 11 + lower }
    ensures lower { result.lower < 36 ^ 11 }
{
    Parts {
        upper: u128::from(upper + lower / PART),
        lower: lower % PART,
    }
}

/// The parts of a count of 23 to 33 throws.
fn parts_of_long(count: LongCount) -> Parts
    ensures value { result.upper * 36 ^ 11 + result.lower ≡ count }
    ensures lower { result.lower < 36 ^ 11 }
{
    Parts {
        upper: count.upper(),
        lower: count.lower(),
    }
}

/// The sum of the counts of 23 to 33 throws.
fn sum_of_long(lower: &LowerRecords<'_>, plays: &[u16; 21], k: u8) -> LongSum
    requires many { 23 ≤ k }
    requires few { k ≤ 33 }
    requires below { AreBelow (slice_index plays.now) lower.now.count }
    ensures { result.sum
        ≡ weighted (λ v. count_at lower.now.bytes (slice_index plays.now (roll_index v)) k) }
{
    let place = count_place(k);
    let mut counts = [LongCount::NONE; 21];
    for index in 0..21 {
        counts[index] = long(lower, plays[index], k, place);
    }
    sum_of(&counts)
}

/// The count of k throws, 23 to 33, at a place in a record. It is 0 for more throws than a game
/// from there can take.
#[inline(always)]
fn long(lower: &LowerRecords<'_>, rank: u16, k: u8, place: usize) -> LongCount
    requires many { 23 ≤ k }
    requires few { k ≤ 33 }
    requires place { place ≡ count_place k }
    requires rank { rank < lower.now.count }
    ensures { result ≡ count_at lower.now.bytes rank k }
{
    let _count = lower.count();
    let record = lower.record(rank);
    if record.len() < place + 24 {
        return LongCount::NONE;
    }
    let upper = read_wide(record, place);
    LongCount::new(k, upper, read_long(record, place + 16)).unwrap_or(LongCount::NONE)
}
