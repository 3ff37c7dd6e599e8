//! The bytes of a record of a board file, and a view that reads its mean, its plays and its counts.
ghost use Rattle.std.specs.Prelude.{◌≡◌, ◌+◌, ◌<◌, ◌≤◌, ◌↔◌, length, IsSome, IfSome};
ghost use Rattle.race_model.specs.Prelude.{roll_index, most_rolls, count_place, board_length, mean_parts};
ghost use Rattle.race_model.specs.Prelude.{board_play_of, count_parts};
ghost use Rattle.db_layout.specs.BoardRecords.{Stored};

use crate::board_places::{board_length, count_place};
use crate::record::{read_long, read_short, read_wide};
use legal_plays::Roll;
use std::marker::Model;

/// A number in two parts, as it stands in a record: `upper * 36 ^ 11 + lower`. Any numbers may
/// stand there.
#[derive(Clone, Copy, Debug, PartialEq, Eq)]
pub struct Parts {
    pub upper: u128,
    pub lower: u64,
}

/// A record of a board file, in bytes that it borrows: nothing is copied.
#[derive(Drop)]
pub struct BoardRecord<'a> {
    bytes: &'a [u8],
    pips: u8,
}

// Clauses see the pip count of the position, and the bytes.
impl<'a> Model for BoardRecord<'a> {
    ghost Value = { Stored };

    ghost view = { λ seen. record { pips = seen.pips; bytes = seen.bytes.now } };

    ghost invariant = { λ seen.
        (seen.pips ≤ 90) × (length seen.bytes.now ≡ board_length seen.pips) };
}

impl<'a> BoardRecord<'a> {
    /// The record of a position of so many pips in these bytes; none exactly where there are not
    /// as many bytes as such a record has.
    pub fn new(bytes: &'a [u8], pips: u8) -> Option<Self>
        requires { pips ≤ 90 }
        ensures some { IsSome result ↔ (length bytes.now ≡ board_length pips) }
        ensures value { IfSome result
            (λ seen. seen ≡ record { pips = pips; bytes = bytes.now }) }
    {
        if bytes.len() == board_length(pips) {
            Some(BoardRecord { bytes, pips })
        } else {
            None
        }
    }

    /// The mean number of rolls as a numerator over 36 ^ 33. Any numbers may stand there.
    pub fn mean(&self) -> Parts
        ensures upper { result.upper ≡ (mean_parts self.now.bytes).upper }
        ensures lower { result.lower ≡ (mean_parts self.now.bytes).lower }
    {
        read_mean(self.bytes)
    }

    /// The rank that is recorded for a roll. Any number of 16 bits may stand there.
    pub fn play(&self, roll: Roll) -> u16
        ensures { result ≡ board_play_of self.now.bytes (roll_index roll) }
    {
        read_play(self.bytes, roll.index())
    }

    /// The count of sequences of k throws, k from 1 to the most rolls. Any numbers may stand
    /// there; to 11 throws the upper part is 0, and the lower one any number of 64 bits.
    pub fn count(&self, k: u8) -> Parts
        requires some { 1 ≤ k }
        requires few { k ≤ most_rolls self.now.pips }
        ensures upper { result.upper ≡ (count_parts self.now.bytes k).upper }
        ensures lower { result.lower ≡ (count_parts self.now.bytes k).lower }
    {
        read_count(self.bytes, k)
    }
}

/// The mean in the bytes of a record.
#[tactic(auto, unfolding(race_model::specs::BoardFiles::mean_parts))]
fn read_mean(bytes: &[u8]) -> Parts
    requires { 66 ≤ length bytes.now }
    ensures upper { result.upper ≡ (mean_parts bytes.now).upper }
    ensures lower { result.lower ≡ (mean_parts bytes.now).lower }
{
    Parts {
        upper: read_wide(bytes, 0),
        lower: read_long(bytes, 16),
    }
}

/// The rank for a roll in the bytes of a record.
#[tactic(auto, unfolding(race_model::specs::BoardFiles::board_play_of))]
fn read_play(bytes: &[u8], roll: u8) -> u16
    requires long { 66 ≤ length bytes.now }
    requires roll { roll < 21 }
    ensures { result ≡ board_play_of bytes.now roll }
{
    read_short(bytes, 24 + 2 * usize::from(roll))
}

/// The count of sequences of k throws in the bytes of a record.
#[tactic(auto, unfolding(race_model::specs::BoardFiles::count_parts))]
fn read_count(bytes: &[u8], k: u8) -> Parts
    requires some { 1 ≤ k }
    requires few { k ≤ 33 }
    requires long { count_place (k + 1) ≤ length bytes.now }
    ensures upper { result.upper ≡ (count_parts bytes.now k).upper }
    ensures lower { result.lower ≡ (count_parts bytes.now k).lower }
{
    let place = count_place(k);
    if k <= 11 {
        Parts {
            upper: 0,
            lower: read_long(bytes, place),
        }
    } else if k <= 22 {
        Parts {
            upper: u128::from(read_long(bytes, place)),
            lower: read_long(bytes, place + 8),
        }
    } else {
        Parts {
            upper: read_wide(bytes, place),
            lower: read_long(bytes, place + 16),
        }
    }
}
