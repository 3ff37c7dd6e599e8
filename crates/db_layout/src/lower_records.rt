//! The records of lower rank, in bytes that begin as a board file does.
ghost use Rattle.std.specs.Prelude.{◌≡◌, ℕ, ◌+◌, ◌<◌, ◌≤◌, List, length, slice_index};
ghost use Rattle.race_model.specs.Prelude.{pips, at_rank, bytes_at, board_length, board_place, board_record};
ghost use Rattle.race_model.specs.Prelude.{IsLocalOnBoard};
ghost use Rattle.db_layout.specs.LowerRecords.{Lower, AreRecords, AreLocalTo, board_mean, leading_at};

use crate::board_places::board_length;
use crate::record::{read_long, read_wide};
use fixed_fraction::BoardMean;
use least_plays::RankedMeans;
use ranking::pips_of;
use std::marker::Model;

/// The offsets of a board file's first records and the leading bits of their means. There are
/// `count` of them, at most `COUNT`, by rank. What stands beyond these says nothing.
#[derive(Drop)]
pub struct RecordStarts<const COUNT: usize> {
    pub offsets: [u32; COUNT],
    pub leading: [u32; COUNT],
    pub count: u16,
}

impl<const COUNT: usize> RecordStarts<COUNT> {
    /// No record yet.
    // so that it is made where it lies
    #[inline(always)]
    pub fn new() -> Self
        ensures count { result.count ≡ 0 }
        ensures records { (bytes : List ℕ) → 32 ≤ length bytes →
            AreRecords bytes 0 result.offsets result.leading }
    {
        RecordStarts {
            offsets: [0; COUNT],
            leading: [0; COUNT],
            count: 0,
        }
    }

    /// The records that begin there.
    #[inline(always)]
    pub fn lower<'a>(&'a self, bytes: &'a [u8]) -> LowerRecords<'a>
        requires { AreRecords bytes.now self.now.count self.now.offsets self.now.leading }
        ensures { result ≡ record { bytes = bytes.now; count = self.now.count } }
    {
        LowerRecords {
            bytes,
            offsets: &self.offsets,
            leading: &self.leading,
            count: self.count,
        }
    }

    /// One record more, which meets its equations and begins behind the others.
    #[inline(always)]
    pub fn push(&mut self, bytes: &[u8], offset: u64)
        requires room { self.old.count < COUNT }
        requires few { COUNT ≤ 54264 }
        requires place { offset ≡ board_place self.old.count }
        requires long { board_place (self.old.count + 1) ≤ length bytes.now }
        requires records { AreRecords bytes.now self.old.count self.old.offsets self.old.leading }
        requires local { IsLocalOnBoard bytes.now (at_rank self.old.count) }
        ensures count { self.new.count ≡ self.old.count + 1 }
        ensures records { AreRecords bytes.now self.new.count self.new.offsets self.new.leading }
    {
        let index = usize::from(self.count);
        self.offsets[index] = offset as u32;
        self.leading[index] = leading_bits(bytes, offset as usize);
        self.count += 1;
    }
}

/// A board file's lowest records, which meet their equations. Each has its offset and the leading
/// bits of its mean (`leading_bits`). No other number is copied, so each is read anew. Where
/// another thread changes the bytes all the same, a number is of any kind, and the sums of such
/// numbers are: no call ends the program then.
#[derive(Drop)]
pub struct LowerRecords<'a> {
    bytes: &'a [u8],
    offsets: &'a [u32],
    leading: &'a [u32],
    count: u16,
}

// Clauses see the bytes, and how many records they hold.
impl<'a> Model for LowerRecords<'a> {
    ghost use Rattle.db_layout.specs.LowerRecords.{Lower, AreRecords};

    ghost Value = { Lower };

    ghost view = { λ lower. record { bytes = lower.bytes.now; count = lower.count } };

    ghost invariant = { λ lower.
        AreRecords lower.bytes.now lower.count lower.offsets.now lower.leading.now };
}

impl<'a> LowerRecords<'a> {
    /// How many they are. They meet their equations.
    pub fn count(&self) -> u16
        ensures count { result ≡ self.now.count }
        ensures few { self.now.count ≤ 54264 }
        ensures local { AreLocalTo self.now.bytes self.now.count }
    {
        self.count
    }

    /// Where the record of a rank ends.
    #[inline(always)]
    fn end_of(&self, rank: u16) -> usize
        requires { rank < self.now.count }
        ensures { result ≡ board_place (rank + 1) }
    {
        let place = usize::from(rank);
        if place + 1 < usize::from(self.count) {
            return self.offsets[place + 1] as usize;
        }
        self.offsets[place] as usize + board_length(pips_of(rank))
    }

    /// The bytes of the record of a rank.
    #[inline(always)]
    pub(crate) fn record(&self, rank: u16) -> &'a [u8]
        requires { rank < self.now.count }
        ensures bytes { result.now ≡ board_record self.now.bytes rank }
        ensures len { length result.now ≡ board_length (pips (at_rank rank)) }
    {
        let first = self.offsets[usize::from(rank)] as usize;
        part_of(self.bytes, first, self.end_of(rank) - first)
    }

    /// The mean of a rank.
    pub fn mean_at(&self, rank: u16) -> BoardMean
        requires { rank < self.now.count }
        ensures { result ≡ board_mean self.now.bytes rank }
    {
        let offset = self.offsets[usize::from(rank)] as usize;
        let upper = read_wide(self.bytes, offset);
        let lower = read_long(self.bytes, offset + 16);
        BoardMean::of_parts(upper, lower)
    }
}

/// The leading bits of the mean of the record that begins at a place: of two means the one with
/// lower ones is less. As many as fit, of a number of at most 33 rolls.
fn leading_bits(bytes: &[u8], place: usize) -> u32
    requires { place + 16 ≤ length bytes.now }
    ensures { result ≡ leading_at bytes.now place }
{
    (read_wide(bytes, place) >> 87).min(u128::from(u32::MAX)) as u32
}

/// So many bytes from a place on.
#[inline(always)]
fn part_of(bytes: &[u8], place: usize, count: usize) -> &[u8]
    requires { place + count ≤ length bytes.now }
    ensures bytes { result.now ≡ bytes_at bytes.now place count }
    ensures len { length result.now ≡ count }
{
    &bytes[place..place + count]
}

/// They are what the best plays go by.
impl<'a> RankedMeans for LowerRecords<'a> {
    ghost mean = { λ lower. board_mean lower.bytes };

    ghost leading = { λ lower rank. leading_at lower.bytes (board_place rank) };

    ghost count = { λ lower. lower.count };

    fn is_less(&self, one: u16, other: u16) -> bool {
        self.mean_at(one).is_less(self.mean_at(other))
    }

    #[inline(always)]
    fn leading_bits(&self, rank: u16) -> u64 {
        u64::from(self.leading[usize::from(rank)])
    }
}
