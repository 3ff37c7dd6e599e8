//! The bytes of a record, and a view that reads its mean, its plays and its shares.
ghost use Rattle.std.specs.Prelude.{◌≡◌, ℕ, ◌+◌, ◌-◌, ◌*◌, ◌^◌, ◌<◌, ◌≤◌, ◌↔◌, List, length, IsSome, IfSome};
ghost use Rattle.race_model.specs.Prelude.{roll_index, version_by, first_share, record_length, bytes_at, told_record};
ghost use Rattle.race_model.specs.Prelude.{mean_of, play_of, share_of};
ghost use Rattle.std.specs.Int.{w16, w32, w64, w128, from_be_bytes};
ghost use Rattle.db_layout.specs.StoredShares.{share_by};

use crate::header::Header;
use crate::places::{first_share, record_length};
use crate::stored_shares::StoredShares;
use legal_plays::Roll;
use std::marker::Model;

/// How many bytes a header has.
pub const HEADER_BYTES: usize = 32;

/// How many bytes a full record has, the most that any has.
pub const RECORD_BYTES: usize = 426;

/// A record of the database, in bytes that it borrows: nothing is copied.
#[derive(Drop)]
pub struct RecordView<'a> {
    bytes: &'a [u8],
    version: u16,
    pips: u8,
}

// Clauses see the full record that the bytes tell.
impl<'a> Model for RecordView<'a> {
    ghost Value = { List ℕ };

    ghost view = { λ seen. told_record (version_by seen.version) seen.pips seen.bytes.now };

    ghost invariant = { λ seen. (length seen.bytes.now
        ≡ record_length (version_by seen.version) seen.pips) × (seen.pips ≤ 58) };
}

impl<'a> RecordView<'a> {
    /// Views bytes as the record of a position of `pips` pips. They are from a file with this
    /// header; none exactly where the pips are over its bound or there are not as many bytes as
    /// such a record has.
    pub fn of(bytes: &'a [u8], header: &Header, pips: u8) -> Option<Self>
        ensures some { IsSome result
            ↔ ((pips ≤ header.now.bound)
            × (length bytes.now ≡ record_length (version_by header.now.version) pips)) }
        ensures value { IfSome result
            (λ seen. seen ≡ told_record (version_by header.now.version) pips bytes.now) }
    {
        if pips > header.bound {
            return None;
        }
        RecordView::of_version(bytes, header.version, pips)
    }

    /// Views bytes as the record of a position of at most 58 pips; none exactly where there are
    /// not as many bytes as such a record has.
    pub fn of_version(bytes: &'a [u8], version: u16, pips: u8) -> Option<Self>
        requires { pips ≤ 58 }
        ensures some { IsSome result
            ↔ (length bytes.now ≡ record_length (version_by version) pips) }
        ensures value { IfSome result
            (λ seen. seen ≡ told_record (version_by version) pips bytes.now) }
    {
        if bytes.len() == record_length(version, pips) as usize {
            Some(RecordView {
                bytes,
                version,
                pips,
            })
        } else {
            None
        }
    }

    /// The numerator over 36 ^ 22 of the mean number of
    /// rolls. Any number of 128 bits may stand there.
    pub fn mean(&self) -> u128
        ensures { result ≡ mean_of self.now }
    {
        read_mean(self.bytes)
    }

    /// The rank that is recorded for a roll. Any number of 16 bits may stand there.
    pub fn play(&self, roll: Roll) -> u16
        ensures { result ≡ play_of self.now (roll_index roll) }
    {
        read_play(self.bytes, roll.index())
    }

    /// The share of exactly `k` rolls, as a numerator over 36 ^ 22; 0 from 23 on. Any number of
    /// 128 bits may stand there, where it is stored; a share that a record of version 2 leaves out
    /// is the known one: the whole for no roll of the finished position, else 0.
    pub fn spread(&self, k: u8) -> u128
        ensures share { k ≤ 22 → result ≡ share_of self.now k }
        ensures beyond { 22 < k → result ≡ 0 }
    {
        let shares = self.stored_shares();
        if k < shares.end() { shares.at(k) } else { 0 }
    }

    /// The shares that it tells.
    #[inline(always)]
    pub fn stored_shares(&self) -> StoredShares<'a>
        ensures { (k : ℕ) → k ≤ 22 → share_by result k ≡ share_of self.now k }
    {
        let first = first_share(self.version);
        StoredShares {
            bytes: &self.bytes[58 - 16 * usize::from(first)..],
            version: self.version,
            pips: self.pips,
            end: first + ((self.bytes.len() - 58) / 16) as u8,
        }
    }
}

/// The mean in the bytes of a record.
#[tactic(auto, unfolding(race_model::specs::Files::mean_of))]
fn read_mean(bytes: &[u8]) -> u128
    requires { 58 ≤ length bytes.now }
    ensures { result ≡ mean_of bytes.now }
{
    read_wide(bytes, 0)
}

/// The rank for a roll in the bytes of a record.
#[tactic(auto, unfolding(race_model::specs::Files::play_of))]
fn read_play(bytes: &[u8], roll: u8) -> u16
    requires long { 58 ≤ length bytes.now }
    requires roll { roll < 21 }
    ensures { result ≡ play_of bytes.now roll }
{
    read_short(bytes, 16 + 2 * usize::from(roll))
}

/// The number in the 16 bytes from a place on, high byte first.
pub(crate) fn read_wide(bytes: &[u8], place: usize) -> u128
    requires { place + 16 ≤ length bytes.now }
    ensures { result ≡ from_be_bytes w128 (bytes_at bytes.now place 16) }
{
    match bytes[place..place + 16].try_into() {
        Ok(number) => u128::from_be_bytes(number),
        Err(_) => unreachable!(),
    }
}

/// The number in the 2 bytes from a place on, high byte first.
pub fn read_short(bytes: &[u8], place: usize) -> u16
    requires { place + 2 ≤ length bytes.now }
    ensures { result ≡ from_be_bytes w16 (bytes_at bytes.now place 2) }
{
    match bytes[place..place + 2].try_into() {
        Ok(number) => u16::from_be_bytes(number),
        Err(_) => unreachable!(),
    }
}

/// The number in the 4 bytes from a place on, high byte first.
pub(crate) fn read_word(bytes: &[u8], place: usize) -> u32
    requires { place + 4 ≤ length bytes.now }
    ensures { result ≡ from_be_bytes w32 (bytes_at bytes.now place 4) }
{
    match bytes[place..place + 4].try_into() {
        Ok(number) => u32::from_be_bytes(number),
        Err(_) => unreachable!(),
    }
}

/// The number in the 8 bytes from a place on, high byte first.
pub(crate) fn read_long(bytes: &[u8], place: usize) -> u64
    requires { place + 8 ≤ length bytes.now }
    ensures { result ≡ from_be_bytes w64 (bytes_at bytes.now place 8) }
{
    match bytes[place..place + 8].try_into() {
        Ok(number) => u64::from_be_bytes(number),
        Err(_) => unreachable!(),
    }
}
