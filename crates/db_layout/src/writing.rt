//! The database file, written: its header and its records.
ghost use Rattle.std.specs.Prelude.{◌≡◌, ℕ, ◌+◌, ◌*◌, ◌<◌, ◌≤◌, List, ◌++◌, length, OnOk, OnErr};
ghost use Rattle.arrayvec.specs.ArrayVec.{array_vec_len};
ghost use Rattle.std.specs.Io.KnownBytes.{Appends};
ghost use Rattle.race_model.specs.Prelude.{Version, version_by, header as header_of};
ghost use Rattle.db_layout.specs.Records.{record_of, IsHeld, IsRecordOf};
ghost use Rattle.db_layout.specs.Writes.{AppendsPart};
ghost use Rattle.std.specs.Int.{w128, to_be_bytes};

use crate::header::Header;
use crate::places::{first_share, share_count};
use crate::record::{HEADER_BYTES, RECORD_BYTES};
use crate::stated::{Kind, header_with};
use crate::write_fault::WriteFault;
use arrayvec::ArrayVec;
use fixed_fraction::{Scaled, Spread};
use std::io::Write;

/// Writes a header: 32 bytes. Refused only where a `write` fails
/// or takes no byte; then a prefix of the header was written.
pub fn write_header<W: Write>(header: &Header, writer: &mut W) -> Result<(), WriteFault>
    ensures all { OnOk result (Appends (W.contents writer.old) (W.contents writer.new)
        (header_of (version_by header.now.version) header.now.bound)) }
    ensures part { OnErr result (AppendsPart (W.contents writer.old) (W.contents writer.new)
        (header_of (version_by header.now.version) header.now.bound)) }
{
    write_bytes(&header_bytes(header), writer)
}

/// Writes the record of a position of so many pips: the mean, the ranks that are played to with
/// the rolls 0 to 20, and the shares of 0 to 22 rolls that such a record stores, which have to tell
/// the others. Refused only where a `write` fails or takes no byte; then a prefix of the record was
/// written.
pub fn write_record<W: Write>(
    header: &Header,
    pips: u8,
    mean: Scaled,
    plays: &[u16; 21],
    spread: &Spread,
    writer: &mut W,
) -> Result<(), WriteFault>
    requires low { pips ≤ header.now.bound }
    requires held { IsHeld (version_by header.now.version) pips spread.now }
    ensures all { OnOk result (Appends (W.contents writer.old) (W.contents writer.new)
        (record_of (version_by header.now.version) pips mean plays.now spread.now)) }
    ensures part { OnErr result (AppendsPart (W.contents writer.old) (W.contents writer.new)
        (record_of (version_by header.now.version) pips mean plays.now spread.now)) }
    ensures reads { IsRecordOf (version_by header.now.version) pips
        (record_of (version_by header.now.version) pips mean plays.now spread.now)
        mean plays.now spread.now }
{
    law_record(mean, plays, spread);
    let mut bytes = ArrayVec::new();
    put_record_bytes(&mut bytes, header, pips, mean, plays, spread);
    write_bytes(bytes.as_slice(), writer)
}

/// A record that is written and read again keeps its numbers. They are the mean, the ranks and the
/// shares, if the version can store all of these.
fn law_record(mean: Scaled, plays: &[u16; 21], spread: &Spread)
    ensures { (version : Version) (p : ℕ) → p ≤ 58 → IsHeld version p spread.now →
        IsRecordOf version p (record_of version p mean plays.now spread.now)
        mean plays.now spread.now }
{
    let _mean = mean.numerator();
    let _none = spread.at(0);
}

/// Writes all of these bytes, however many a `write` takes. Refused only
/// where a `write` fails or takes no byte; then a prefix of them was written.
pub fn write_bytes<W: Write>(bytes: &[u8], writer: &mut W) -> Result<(), WriteFault>
    ensures all { OnOk result (Appends (W.contents writer.old) (W.contents writer.new) bytes.now) }
    ensures part { OnErr result
        (AppendsPart (W.contents writer.old) (W.contents writer.new) bytes.now) }
{
    let mut written = 0;
    while written < bytes.len() {
        match writer.write(&bytes[written..]) {
            Ok(0) | Err(_) => return Err(WriteFault),
            Ok(count) => written += count,
        }
    }
    Ok(())
}

/// The 32 bytes of a header.
pub fn header_bytes(header: &Header) -> [u8; HEADER_BYTES]
    ensures { result ≡ header_of (version_by header.now.version) header.now.bound }
{
    header_with(Kind::Database, header.version, header.bound)
}

/// The bytes of the record of a position of so many pips: the mean, the ranks that are played to
/// with the rolls 0 to 20, and the shares of 0 to 22 rolls that such a record stores.
pub fn put_record_bytes(
    bytes: &mut ArrayVec<u8, RECORD_BYTES>,
    header: &Header,
    pips: u8,
    mean: Scaled,
    plays: &[u16; 21],
    spread: &Spread,
)
    requires low { pips ≤ header.now.bound }
    ensures { bytes.new.items
        ≡ record_of (version_by header.now.version) pips mean plays.now spread.now }
{
    bytes.clear();
    add_bytes(bytes, &be_bytes(mean.numerator()));
    for play in plays {
        add_bytes(bytes, &play.to_be_bytes());
    }
    let first = first_share(header.version);
    for place in 0..share_count(header.version, pips) {
        add_bytes(bytes, &be_bytes(spread.at(first + place)));
    }
}

/// The 16 bytes of a number, high byte first, by two of 64 bits: a compiler turns those round at
/// once, and one of 128 bits byte by byte; the upper half too, unless it is turned round as a
/// number before its bytes are taken.
#[inline]
fn be_bytes(number: u128) -> [u8; 16]
    ensures { result ≡ to_be_bytes w128 number }
{
    let mut bytes = [0; 16];
    bytes[..8].copy_from_slice(&((number >> 64) as u64).swap_bytes().to_le_bytes());
    bytes[8..].copy_from_slice(&((number % (1 << 64)) as u64).to_be_bytes());
    bytes
}

/// Adds bytes to those that stand before them.
fn add_bytes<const CAP: usize>(bytes: &mut ArrayVec<u8, CAP>, more: &[u8])
    requires { array_vec_len bytes.old + length more.now ≤ CAP }
    ensures items { bytes.new.items ≡ bytes.old.items ++ more.now }
    ensures len { array_vec_len bytes.new ≡ array_vec_len bytes.old + length more.now }
{
    bytes.try_extend_from_slice(more).unwrap();
}
