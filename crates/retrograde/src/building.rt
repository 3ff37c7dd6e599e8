//! The records of a bound, made and written level by level: a level is the positions of one pip
//! count.
ghost use Rattle.std.specs.Prelude.{◌≡◌, ◌≤◌, ◌⊎◌};
ghost use Rattle.race_model.specs.Prelude.{compact, version_by};
ghost use Rattle.db_layout.specs.Records.{IsVersion};
ghost use Rattle.retrograde.specs.BuiltBytes.{Builds};
ghost use Rattle.retrograde.specs.UsualVersion.{usual_version};

use crate::build_fault::BuildFault;
use crate::level::add_level;
use crate::records::Records;
use db_layout::{COMPACT_VERSION, Header, VERSION, write_bytes, write_header};
use home_board::OLD_BOUND;
use least_plays::{LeastPlays, ROWS_TO_8, ROWS_TO_90};
use ranking::Ranks;
use std::alloc::Global;
use std::io::Write;

/// Writes the database of a pip bound: for each position of at most so many pips the least mean
/// number of rolls, for each roll the lowest rank of the results that reach it, and how the
/// number of rolls is spread. It is a file of version 1 for bounds to 44 pips, and of version 2
/// for those of 45 to 58. Each level of pips is written as soon as it is made, and the growths of
/// memory for it come before its first byte. `OverBound` where the bound is over 58: nothing was
/// written. `Memory` where a growth was refused, and `Write` where a `write` failed or took no
/// byte: a prefix of the database was written. (What is counted is that of a one-sided database
/// of the GNU Backgammon manual; the exact numbers, the file and the tie rule are this project's
/// profile.)
pub fn build<W: Write>(alloc: Global, bound: u8, writer: &mut W) -> Result<(), BuildFault>
    ensures built { Builds (usual_version bound) bound (W.contents writer.old)
        (W.contents writer.new) result }
{
    let Some(header) = Header::new(usual_version(bound), bound) else {
        return Err(BuildFault::OverBound);
    };
    build_database(alloc, header, writer)
}

/// Writes the database of a bound up to 58 as a file of version 2. Its records leave out the
/// shares that are known without being stored. It tells the same means, plays and shares as the
/// file that `build` writes, and the faults are those of `build`.
pub fn build_compact<W: Write>(alloc: Global, bound: u8, writer: &mut W) -> Result<(), BuildFault>
    ensures built { Builds compact bound (W.contents writer.old) (W.contents writer.new) result }
{
    let Some(header) = Header::new(COMPACT_VERSION, bound) else {
        return Err(BuildFault::OverBound);
    };
    build_database(alloc, header, writer)
}

/// The version of the file that `build` writes for a bound: 1 to 44 pips, and 2 beyond.
pub fn usual_version(bound: u8) -> u16
    ensures known { IsVersion result }
    ensures version { version_by result ≡ usual_version bound }
{
    if bound > OLD_BOUND {
        COMPACT_VERSION
    } else {
        VERSION
    }
}

/// Writes the database of a header. Refused only for want of memory, or where a `write` failed or
/// took no byte.
fn build_database<W: Write>(alloc: Global, header: Header, writer: &mut W) -> Result<(), BuildFault>
    ensures built { Builds (version_by header.version) header.bound (W.contents writer.old)
        (W.contents writer.new) result }
{
    if usize::from(header.count) <= ROWS_TO_8 {
        build_with_rows::<W, ROWS_TO_8>(alloc, header, writer)
    } else {
        build_with_rows::<W, ROWS_TO_90>(alloc, header, writer)
    }
}

/// The same, with so many rows for the best plays.
// so that no more rows are on the stack than are needed
#[inline(never)]
fn build_with_rows<W: Write, const ROWS: usize>(
    alloc: Global,
    header: Header,
    writer: &mut W,
) -> Result<(), BuildFault>
    requires few { ROWS ≤ 11452 }
    requires rows { (header.count ≤ ROWS) ⊎ (ROWS ≡ 11452) }
    ensures built { Builds (version_by header.version) header.bound (W.contents writer.old)
        (W.contents writer.new) result }
{
    let ranks = Ranks::new();
    let mut least: LeastPlays<ROWS> = LeastPlays::new();
    let mut records = Records::new(alloc);
    records.grow(&header, &ranks, 0)?;
    write_header(&header, writer)?;
    for pips in 0..header.bound + 1 {
        records.grow(&header, &ranks, pips)?;
        add_level(
            &header,
            pips,
            &ranks,
            &mut least,
            records.means.as_mut_slice(),
            records.places.as_mut_slice(),
            records.shares.as_mut_slice(),
            records.level.as_mut_slice(),
        );
        write_bytes(records.level.as_slice(), writer)?;
    }
    Ok(())
}
