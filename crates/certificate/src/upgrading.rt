//! An accepted database, written again as a file of version 2.
ghost use Rattle.std.specs.Prelude.{◌≡◌, ℕ, ◌*◌, ◌<◌, ◌≤◌, ◌↔◌, Some, Err, IsSome, IfSome, IfErr, OnOk, OnErr, sum};
ghost use Rattle.std.specs.Io.KnownBytes.{Appends};
ghost use Rattle.race_model.specs.Prelude.{pips, at_rank, count_to, version_by, compact, bound_of, mean_of, whole};
ghost use Rattle.race_model.specs.Prelude.{IsLocalDatabase};
ghost use Rattle.db_layout.specs.Writes.{AppendsPart};
ghost use Rattle.db_reader.specs.Telling.{WhereTold};
ghost use Rattle.db_reader.specs.TableStays.{TableStays};
ghost use Rattle.db_reader.specs.Reads.{HasRecord};
ghost use Rattle.certificate.specs.RecordNumbers.{plays_of, shares_of};
ghost use Rattle.certificate.specs.Upgrades.{compact_record, WritesUpgrade, IsUpgradeRefused};
ghost use Rattle.certificate.specs.Upgrades.{IsLater};

use crate::numbers::{mean_in, plays_in, spread_in};
use crate::upgrade_fault::UpgradeFault;
use db_layout::{COMPACT_VERSION, Header, RecordView, write_header, write_record};
use db_reader::{Record, Table};
use fixed_fraction::{Scaled, Spread};
use ranking::Ranks;
use std::io::Write;

/// The numbers of a record: the mean, the ranks that are played to with the rolls 0 to 20, and the
/// shares.
#[derive(Clone, Copy)]
struct Numbers {
    mean: Scaled,
    plays: [u16; 21],
    spread: Spread,
}

/// The numbers of a record; none exactly where no accepted record can hold its mean or its shares.
fn numbers_in(view: &RecordView<'_>) -> Option<Numbers>
    ensures some { IsSome result
        ↔ ((mean_of view.now ≤ 22 * whole) × (sum (shares_of view.now) ≡ whole)) }
    ensures mean { IfSome result (λ numbers. numbers.mean ≡ mean_of view.now) }
    ensures plays { IfSome result (λ numbers. numbers.plays ≡ plays_of view.now) }
    ensures spread { IfSome result (λ numbers. numbers.spread ≡ shares_of view.now) }
{
    Some(Numbers {
        mean: mean_in(view)?,
        plays: plays_in(view),
        spread: spread_in(view)?,
    })
}

/// Writes the record of a rank as a file of version 2 stores it. Refused as `Read` where it can't
/// be read, or holds what no accepted record can hold, and as `Write`; then a prefix was written.
fn write_compact<T: Table, W: Write>(
    table: &mut T,
    ranks: &Ranks,
    header: &Header,
    rank: u16,
    writer: &mut W,
) -> Result<(), UpgradeFault>
    requires compact { version_by header.now.version ≡ compact }
    requires rank { rank < header.now.count }
    requires has { HasRecord (T.accepted table.old) rank }
    requires local { WhereTold (T.tells table.old)
        (λ file. IsLocalDatabase file × (header.now.bound ≡ bound_of file)) }
    ensures all { WhereTold (T.tells table.old) (λ file. OnOk result
        (Appends (W.contents writer.old) (W.contents writer.new) (compact_record file rank))) }
    ensures part { WhereTold (T.tells table.old) (λ file. OnErr result
        (AppendsPart (W.contents writer.old) (W.contents writer.new)
        (compact_record file rank))) }
    ensures later { IfErr result IsLater }
    ensures stays { TableStays ⟦<T as Table>⟧ table.old table.new
        (result ≡ Err UpgradeFault.Read) }
{
    let mut room = Record::new();
    table.load(rank, &mut room)?;
    let Some(numbers) = numbers_in(&table.lend(rank, &room)) else {
        return Err(UpgradeFault::Read);
    };
    let pips = ranks.unrank(rank).unwrap().pips();
    if !header.holds(pips, &numbers.spread) {
        return Err(UpgradeFault::Read);
    }
    write_record(
        header,
        pips,
        numbers.mean,
        &numbers.plays,
        &numbers.spread,
        writer,
    )?;
    Ok(())
}

/// Writes the upgrade of the accepted database in a table, whose header this is. Refused as `Read`
/// or as `Write`; then a prefix of the upgrade was written.
pub fn write_upgrade<T: Table, W: Write>(
    table: &mut T,
    ranks: &Ranks,
    old: &Header,
    writer: &mut W,
) -> Result<(), UpgradeFault>
    requires header { T.accepted table.old ≡ Some old.now }
    requires local { WhereTold (T.tells table.old)
        (λ file. IsLocalDatabase file × (old.now.bound ≡ bound_of file)) }
    ensures upgraded { WhereTold (T.tells table.old) (λ file. OnOk result
        (WritesUpgrade file (W.contents writer.old) (W.contents writer.new))) }
    ensures refused { WhereTold (T.tells table.old) (λ file. IfErr result
        (IsUpgradeRefused file (W.contents writer.old) (W.contents writer.new))) }
    ensures later { IfErr result IsLater }
    ensures stays { TableStays ⟦<T as Table>⟧ table.old table.new
        (result ≡ Err UpgradeFault.Read) }
{
    let header = Header::new(COMPACT_VERSION, old.bound).unwrap();
    write_header(&header, writer)?;
    for rank in 0..old.count {
        write_compact(table, ranks, &header, rank, writer)?;
    }
    Ok(())
}
