//! Sums of the words of the counts in accepted records, over the 21 rolls. A count of at most 11
//! throws is one word of 64 bits, and one of 12 to 22 throws two. Each is at most 36 ^ 11, so those
//! of all 36 throws have room, and none is tested. Where six records have a word, their words are
//! added up first, so that the sum is read and written once for all of them.
ghost use Rattle.std.specs.Prelude.{◌≡◌, ℕ, ◌+◌, ◌*◌, ◌^◌, ◌<◌, ◌≤◌, length, slice_index};
ghost use Rattle.fixed_fraction.specs.Board.{part};
ghost use Rattle.db_layout.specs.LowerRecords.{AreBelow};
ghost use Rattle.db_layout.specs.BoardWords.{word_at, word_of, six, AreWordSums};

use crate::lower_records::LowerRecords;
use crate::record::read_long;

/// How many words the counts of 0 to 22 throws have: one each to 11 throws, and two beyond.
pub const WORDS: usize = 34;

/// Groups of rolls that leave similar pip counts, by index: five other rolls and a double.
const GROUPS: [[u8; 6]; 3] = [
    [1, 3, 4, 6, 7, 0],
    [8, 10, 11, 12, 15, 2],
    [13, 16, 17, 18, 19, 5],
];

/// The other doubles, by their indices.
const OTHERS: [u8; 3] = [9, 14, 20];

/// The weighted sums of the words of the counts after 21 plays.
pub fn word_sums(lower: &LowerRecords<'_>, plays: &[u16; 21]) -> [u64; WORDS]
    requires { AreBelow (slice_index plays.now) lower.now.count }
    ensures sums { AreWordSums lower.now.bytes (slice_index plays.now) result }
    ensures len { length result ≡ 34 }
{
    let mut sums = [0; WORDS];
    for group in 0..3 {
        add_six(&mut sums, lower, plays, &GROUPS[group]);
    }
    for index in 0..3 {
        let words = words_in(lower, plays[usize::from(OTHERS[index])]);
        add(&mut sums, words, 0, 1);
    }
    sums
}

/// Adds the words of what the plays of six rolls lead to: those of five rolls twice, and those of a
/// double once. It is fastest where they lead to nearly as many words.
#[inline(always)]
fn add_six(sums: &mut [u64; WORDS], lower: &LowerRecords<'_>, plays: &[u16; 21], rolls: &[u8; 6])
    requires rolls { (j : ℕ) → j < 6 → slice_index rolls.now j < 21 }
    requires below { AreBelow (slice_index plays.now) lower.now.count }
    requires room { (i : ℕ) → i < 34 → slice_index sums.old i + 11 * part < 2 ^ 64 }
    ensures len { length sums.new ≡ 34 }
    ensures added { (i : ℕ) → i < 34 → slice_index sums.new i ≡ slice_index sums.old i
        + six (λ j. word_at lower.now.bytes (slice_index plays.now (slice_index rolls.now j)) i) }
    ensures most { (i : ℕ) → i < 34 →
        slice_index sums.new i ≤ slice_index sums.old i + 11 * part }
{
    let one = words_in(lower, plays[usize::from(rolls[0])]);
    let two = words_in(lower, plays[usize::from(rolls[1])]);
    let three = words_in(lower, plays[usize::from(rolls[2])]);
    let four = words_in(lower, plays[usize::from(rolls[3])]);
    let five = words_in(lower, plays[usize::from(rolls[4])]);
    let double = words_in(lower, plays[usize::from(rolls[5])]);
    let least = one.len().min(two.len()).min(three.len());
    let common = least.min(four.len()).min(five.len()).min(double.len()) / 8;
    for index in 0..common {
        let sum = word(one, index)
            + word(two, index)
            + word(three, index)
            + word(four, index)
            + word(five, index);
        sums[index + 1] += 2 * sum + word(double, index);
    }
    add(sums, one, common, 2);
    add(sums, two, common, 2);
    add(sums, three, common, 2);
    add(sums, four, common, 2);
    add(sums, five, common, 2);
    add(sums, double, common, 1);
}

/// A word of some bytes.
#[inline(always)]
fn word(bytes: &[u8], index: usize) -> u64
    requires { 8 * index + 8 ≤ length bytes.now }
    ensures { result ≡ word_of bytes.now (index + 1) }
{
    read_long(bytes, 8 * index)
}

/// The bytes of the counts of 1 to 22 throws in the record of a rank.
#[inline(always)]
fn words_in<'a>(lower: &LowerRecords<'a>, rank: u16) -> &'a [u8]
    requires { rank < lower.now.count }
    ensures few { length result.now ≤ 264 }
    ensures words { (i : ℕ) → i < 34 → word_of result.now i ≡ word_at lower.now.bytes rank i }
    ensures small { (i : ℕ) → i < 34 → word_of result.now i ≤ part }
{
    let _count = lower.count();
    let bytes = lower.record(rank);
    &bytes[66..bytes.len().min(330)]
}

/// Adds the words in some bytes, weighted. It leaves out the first ones, and adds that of no
/// throw.
#[inline(always)]
fn add(sums: &mut [u64; WORDS], words: &[u8], first: usize, times: u64)
    requires few { length words.now ≤ 264 }
    requires start { slice_index sums.old 0 + times < 2 ^ 64 }
    requires room { (i : ℕ) → first < i → i < 34 →
        slice_index sums.old i + times * word_of words.now i < 2 ^ 64 }
    ensures len { length sums.new ≡ 34 }
    ensures start { slice_index sums.new 0
        ≡ slice_index sums.old 0 + times * word_of words.now 0 }
    ensures added { (i : ℕ) → first < i → i < 34 → slice_index sums.new i
        ≡ slice_index sums.old i + times * word_of words.now i }
    ensures kept { (i : ℕ) → 0 < i → i ≤ first → slice_index sums.new i ≡ slice_index sums.old i }
{
    sums[0] += times * u64::from(words.is_empty());
    for index in first..words.len() / 8 {
        sums[index + 1] += times * word(words, index);
    }
}
