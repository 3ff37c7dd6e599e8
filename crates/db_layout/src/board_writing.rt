//! The records of a board file, written: each number so that it reads back.
ghost use Rattle.std.specs.Prelude.{◌≡◌, ℕ, ◌+◌, ◌*◌, ◌/◌, ◌%◌, ◌^◌, ◌<◌, ◌≤◌, length, drop, slice_index};
ghost use Rattle.std.specs.Int.{w16, w64, w128, from_be_bytes};
ghost use Rattle.race_model.specs.Prelude.{bytes_at, count_place, mean_parts, board_play_of, count_parts};
ghost use Rattle.fixed_fraction.specs.Board.{part};
ghost use Rattle.db_layout.specs.BoardRecords.{KeepsBefore};

use crate::board_places::count_place;
use crate::board_record::Parts;
use fixed_fraction::BoardMean;

/// Writes a mean where it stands in the bytes of a record; all other bytes stay.
pub fn put_mean(bytes: &mut [u8], mean: BoardMean)
    requires { 66 ≤ length bytes.old }
    ensures before { KeepsBefore 0 bytes.old bytes.new }
    ensures after { drop 24 bytes.new ≡ drop 24 bytes.old }
    ensures mean { mean_parts bytes.new
        ≡ record { upper = mean / part; lower = mean % part } }
{
    put_wide(bytes, 0, mean.upper());
    put_long(bytes, 16, mean.lower());
}

/// Writes the ranks after the plays of rolls 0 to 20 into a record; all other bytes stay.
pub fn put_plays(bytes: &mut [u8], plays: &[u16; 21])
    requires { 66 ≤ length bytes.old }
    ensures before { KeepsBefore 24 bytes.old bytes.new }
    ensures after { drop 66 bytes.new ≡ drop 66 bytes.old }
    ensures plays { (roll : ℕ) → roll < 21 →
        board_play_of bytes.new roll ≡ slice_index plays.now roll }
{
    for roll in 0..21 {
        put_short(bytes, 24 + 2 * roll, plays[roll]);
    }
}

/// Writes the count of sequences of k throws where it stands in the bytes of a record; all other
/// bytes stay. To 11 throws a count is its lower part alone, and to 22 throws its upper part has
/// 64 bits.
#[inline(always)]
pub fn put_count(bytes: &mut [u8], k: u8, count: Parts)
    requires some { 1 ≤ k }
    requires few { k ≤ 33 }
    requires long { count_place (k + 1) ≤ length bytes.old }
    requires short { k ≤ 11 → count.upper ≡ 0 }
    requires middle { k ≤ 22 → count.upper < 2 ^ 64 }
    ensures before { KeepsBefore (count_place k) bytes.old bytes.new }
    ensures after { drop (count_place (k + 1)) bytes.new ≡ drop (count_place (k + 1)) bytes.old }
    ensures count { count_parts bytes.new k
        ≡ record { upper = count.upper; lower = count.lower } }
{
    let place = count_place(k);
    if k <= 11 {
        put_long(bytes, place, count.lower);
    } else if k <= 22 {
        put_long(bytes, place, count.upper as u64);
        put_long(bytes, place + 8, count.lower);
    } else {
        put_wide(bytes, place, count.upper);
        put_long(bytes, place + 16, count.lower);
    }
}

/// Writes a number of 128 bits, greatest byte first.
fn put_wide(bytes: &mut [u8], place: usize, number: u128)
    requires { place + 16 ≤ length bytes.old }
    ensures before { KeepsBefore place bytes.old bytes.new }
    ensures after { drop (place + 16) bytes.new ≡ drop (place + 16) bytes.old }
    ensures number { from_be_bytes w128 (bytes_at bytes.new place 16) ≡ number }
{
    bytes[place..place + 16].copy_from_slice(&number.to_be_bytes());
}

/// Writes a number of 64 bits, greatest byte first.
fn put_long(bytes: &mut [u8], place: usize, number: u64)
    requires { place + 8 ≤ length bytes.old }
    ensures before { KeepsBefore place bytes.old bytes.new }
    ensures after { drop (place + 8) bytes.new ≡ drop (place + 8) bytes.old }
    ensures number { from_be_bytes w64 (bytes_at bytes.new place 8) ≡ number }
{
    bytes[place..place + 8].copy_from_slice(&number.to_be_bytes());
}

/// Writes a number of 16 bits, greatest byte first.
fn put_short(bytes: &mut [u8], place: usize, number: u16)
    requires { place + 2 ≤ length bytes.old }
    ensures before { KeepsBefore place bytes.old bytes.new }
    ensures after { drop (place + 2) bytes.new ≡ drop (place + 2) bytes.old }
    ensures number { from_be_bytes w16 (bytes_at bytes.new place 2) ≡ number }
{
    bytes[place..place + 2].copy_from_slice(&number.to_be_bytes());
}
