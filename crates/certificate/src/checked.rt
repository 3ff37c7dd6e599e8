//! The checker's verdict, and an accepted table with its answers.
ghost use Rattle.std.specs.Prelude.{◌≡◌, ℕ, ◌<◌, ◌≤◌, ◌↔◌, Err, slice_index, IsOk, IfOk, IfErr, IsTrue, OnOk};
ghost use Rattle.race_model.specs.Prelude.{IsPosition, IsFinished, pips, Legal, rank as rank_of, count_to, compact};
ghost use Rattle.race_model.specs.Prelude.{version_number, version_of, bound_of, mean as mean_of, spread as share_of};
ghost use Rattle.race_model.specs.Prelude.{recorded, IsLocalDatabase, IsRight, IsRightBoard, IsRightDatabase, follow};
ghost use Rattle.race_model.specs.Prelude.{IsMean, IsEffectivePips, IsLeast, count_of, IsFirstPlay};
ghost use Rattle.legal_plays.specs.MoveLists.{moves_of};
ghost use Rattle.db_layout.specs.Records.{IsVersion};
ghost use Rattle.db_reader.specs.Telling.{WhereTold, RoseWhere};
ghost use Rattle.db_reader.specs.TableStays.{TableStays};
ghost use Rattle.certificate.specs.Accepted.{HasAccepted};
ghost use Rattle.certificate.specs.Databases.{Stays};
ghost use Rattle.certificate.specs.CheckFaults.{IsFirst, IsFirstOnBoard};
ghost use Rattle.certificate.specs.QueryFaults.{RefusesNumbers, RefusesPlays};
ghost use Rattle.certificate.specs.Upgrades.{WritesUpgrade, IsUpgradeRefused};
ghost use Rattle.std.specs.Io.KnownBytes.{Keeps};

use crate::check_fault::CheckFault;
use crate::checker::{check_board_records, check_records};
use crate::numbers::{mean_in, spread_in};
use crate::query_fault::QueryFault;
use crate::upgrade_fault::UpgradeFault;
use crate::upgrading::write_upgrade;
use db_layout::{BoardHeader, COMPACT_VERSION, Header, parse_board_header};
use db_reader::{Record, Table, Whole};
use fixed_fraction::{Fraction, Scaled, Spread, epc, mean};
use home_board::Position;
use legal_plays::{Play, Roll, play_to};
use race_model::laws;
use ranking::Ranks;
use std::io::Write;
use std::marker::Model;

/// A table that was accepted. Where it tells its bytes they are a right database: for each
/// position of at most its bound the recorded mean is the least mean number of rolls over all
/// strategies, also those that look at the history; the recorded plays are legal and reach it;
/// and the recorded shares are those of these plays. It is made by `check` alone.
///
/// Each query keeps the bytes that the table tells and the header that it accepted. A query
/// answers `Read` where a record could not be read, or holds what no accepted record can hold, so
/// that it was changed since the check; where the table tells its bytes, that is exactly where a
/// read failed in this call.
#[derive(Drop)]
pub struct Checked<T: Table> {
    table: T,
    header: Header,
    ranks: Ranks,
}

// Clauses see its bytes, its bound and version, and how often a read has failed.
impl<T: Table> Model for Checked<T> {
    ghost use Rattle.race_model.specs.Prelude.{version_by};
    ghost use Rattle.certificate.specs.Databases.{Database};
    ghost use Rattle.certificate.specs.Accepted.{HasAccepted};

    ghost Value = { Database };

    ghost view = { λ checked. record {
      told = T.tells checked.table;
      bound = checked.header.bound;
      version = version_by checked.header.version;
      failures = T.failures checked.table;
    } };

    ghost invariant = { λ checked.
        HasAccepted (T.tells checked.table) (T.accepted checked.table) checked.header };
}

/// Checks a table. Where it tells its bytes and no read fails, it is accepted exactly where they
/// are a right database of at most 58 pips, and else refused with the first fault of the bytes;
/// it is refused as `Read` exactly where a read failed. The table is handed back with the fault
/// and tells the same bytes. It takes no memory, and adds a stored number to others only where it
/// was accepted before.
// so that its result and the table of ranks have one room
#[inline(always)]
pub fn check<T: Table>(mut table: T) -> Result<Checked<T>, (T, CheckFault)>
    ensures told { IfOk result (λ checked. checked.told ≡ T.tells table) }
    ensures back { IfErr result (λ refused. T.tells refused.0 ≡ T.tells table) }
    ensures right { WhereTold (T.tells table) (λ file. OnOk result (IsRightDatabase file)) }
    ensures exactly { WhereTold (T.tells table) (λ file.
        IfErr result (λ refused. T.failures refused.0 ≡ T.failures table) →
        IsOk result ↔ IsRightDatabase file) }
    ensures first { WhereTold (T.tells table)
        (λ file. IfErr result (λ refused. IsFirst file refused.1)) }
    ensures ok_cause { WhereTold (T.tells table)
        (λ _. IfOk result (λ checked. checked.failures ≡ T.failures table)) }
    ensures err_cause { WhereTold (T.tells table) (λ _. IfErr result (λ refused. RoseWhere
        (refused.1 ≡ CheckFault.Read) (T.failures table) (T.failures refused.0))) }
{
    laws::law_right();
    let ranks = Ranks::new();
    let header = match check_records(&mut table, &ranks) {
        Ok(header) => header,
        Err(fault) => return Err((table, fault)),
    };
    // a `match` with this result would have room for a second one on the stack
    Ok(Checked {
        table,
        header,
        ranks,
    })
}

impl<T: Table> Checked<T> {
    /// The pip bound of the accepted header, 0 to 58. Where the table tells its bytes, they are a
    /// right database and it is their bound.
    pub fn bound(&self) -> u8
        ensures bound { result ≡ self.now.bound }
        ensures right { WhereTold self.now.told
            (λ file. IsRightDatabase file × (self.now.bound ≡ bound_of file)) }
        ensures range { result ≤ 58 }
    {
        laws::law_right();
        self.header.bound
    }

    /// The version of the accepted header, 1 or 2. Where the table tells its bytes, it is theirs.
    pub fn version(&self) -> u16
        ensures known { IsVersion result }
        ensures accepted { result ≡ version_number (self.now.version) }
        ensures version { WhereTold self.now.told
            (λ file. result ≡ version_number (version_of file)) }
    {
        self.header.version
    }

    /// How many positions the database has: those of at most the bound.
    pub fn positions(&self) -> u16
        ensures { result ≡ count_to (self.now.bound) }
    {
        self.header.count
    }

    /// The ranks of all positions, by the table that the check counted.
    pub fn ranks(&self) -> &Ranks {
        &self.ranks
    }

    /// The table again, with the same bytes.
    pub fn into_table(self) -> T
        ensures tells { T.tells result ≡ self.told }
        ensures failures { T.failures result ≡ self.failures }
    {
        let Checked { table, .. } = self;
        table
    }

    /// The minimum expected number of rolls, as a numerator over 36 ^ 22. It is the minimum over
    /// all strategies, including history-dependent ones. Refused as `OverBound` exactly where the
    /// position has more pips than the bound, or as `Read`.
    pub fn scaled(&mut self, position: &Position) -> Result<Scaled, QueryFault>
        ensures over_bound { (result ≡ Err QueryFault.OverBound) ↔
            (self.old.bound < pips position.now) }
        ensures least { WhereTold self.old.told (λ _. IfOk result (IsLeast position.now)) }
        ensures recorded { WhereTold self.old.told
            (λ file. IfOk result (λ t. t ≡ mean_of file position.now)) }
        ensures stays { Stays self.old self.new (result ≡ Err QueryFault.Read) }
        ensures fault { IfErr result RefusesNumbers }
    {
        let mut room = Record::new();
        let rank = load(
            &mut self.table,
            self.header,
            &self.ranks,
            position,
            &mut room,
        )?;
        let Some(mean) = mean_in(&self.table.lend(rank, &room)) else {
            return Err(QueryFault::Read);
        };
        Ok(mean)
    }

    /// The minimum expected number of rolls over all strategies, in lowest terms. Refused as
    /// `scaled` is.
    pub fn mean(&mut self, position: &Position) -> Result<Fraction, QueryFault>
        ensures over_bound { (result ≡ Err QueryFault.OverBound) ↔
            (self.old.bound < pips position.now) }
        ensures least { WhereTold self.old.told (λ file. IfOk result (λ fraction.
            IsLeast position.now (mean_of file position.now)
            × IsMean (mean_of file position.now)
            fraction.numerator fraction.denominator)) }
        ensures stays { Stays self.old self.new (result ≡ Err QueryFault.Read) }
        ensures fault { IfErr result RefusesNumbers }
    {
        let rolls = self.scaled(position)?;
        Ok(mean(rolls))
    }

    /// The effective pip count of a position: 49/6 of the least mean number of rolls, in lowest
    /// terms (the GNU Backgammon manual). Refused as `scaled` is.
    pub fn epc(&mut self, position: &Position) -> Result<Fraction, QueryFault>
        ensures over_bound { (result ≡ Err QueryFault.OverBound) ↔
            (self.old.bound < pips position.now) }
        ensures pips { WhereTold self.old.told (λ file. IfOk result (λ fraction.
            IsLeast position.now (mean_of file position.now)
            × IsEffectivePips (mean_of file position.now)
            fraction.numerator fraction.denominator)) }
        ensures stays { Stays self.old self.new (result ≡ Err QueryFault.Read) }
        ensures fault { IfErr result RefusesNumbers }
    {
        let rolls = self.scaled(position)?;
        Ok(epc(rolls))
    }

    /// How the number of rolls is spread where each play is the recorded one. Refused as `scaled`
    /// is.
    pub fn spread(&mut self, position: &Position) -> Result<Spread, QueryFault>
        ensures over_bound { (result ≡ Err QueryFault.OverBound) ↔
            (self.old.bound < pips position.now) }
        ensures shares { WhereTold self.old.told (λ file. IfOk result (λ spread.
            (k : ℕ) → k ≤ 22 →
            slice_index spread k ≡ count_of (follow file 22 position.now) k)) }
        ensures recorded { WhereTold self.old.told (λ file. IfOk result (λ spread.
            (k : ℕ) → k ≤ 22 → slice_index spread k ≡ share_of file position.now k)) }
        ensures stays { Stays self.old self.new (result ≡ Err QueryFault.Read) }
        ensures fault { IfErr result RefusesNumbers }
    {
        let mut room = Record::new();
        let rank = load(
            &mut self.table,
            self.header,
            &self.ranks,
            position,
            &mut room,
        )?;
        let Some(spread) = spread_in(&self.table.lend(rank, &room)) else {
            return Err(QueryFault::Read);
        };
        Ok(spread)
    }

    /// The recorded play of a roll: the position that it leads to, and the first play to it.
    /// Refused as `OverBound` exactly where the position has more pips than the bound, else as
    /// `Finished` exactly where no checker is left, or as `Read`.
    pub fn play(&mut self, position: &Position, roll: Roll) -> Result<(Play, Position), QueryFault>
        ensures over_bound { (result ≡ Err QueryFault.OverBound) ↔
            (self.old.bound < pips position.now) }
        ensures finished { (result ≡ Err QueryFault.Finished) ↔
            ((pips position.now ≤ self.old.bound) × IsFinished position.now) }
        ensures recorded { WhereTold self.old.told
            (λ file. IfOk result (λ answer. answer.1 ≡ recorded file position.now roll)) }
        ensures first { IfOk result
            (λ answer. IsFirstPlay position.now roll answer.1 (moves_of answer.0.items)) }
        ensures legal { IfOk result (λ answer. Legal position.now roll answer.1) }
        ensures stays { Stays self.old self.new (result ≡ Err QueryFault.Read) }
        ensures fault { IfErr result RefusesPlays }
    {
        if position.pips() <= self.header.bound && position.is_finished() {
            return Err(QueryFault::Finished);
        }
        let mut room = Record::new();
        let rank = load(
            &mut self.table,
            self.header,
            &self.ranks,
            position,
            &mut room,
        )?;
        let recorded = self.table.lend(rank, &room).play(roll);
        if recorded >= self.header.count {
            return Err(QueryFault::Read);
        }
        let to = self.ranks.unrank(recorded).unwrap();
        let Some(play) = play_to(position, roll, &to) else {
            return Err(QueryFault::Read);
        };
        Ok((play, to))
    }

    /// Writes the database as a file of version 2. The file has the same bound, means, plays and
    /// shares, and so the same reply to each line (`law_upgrade`). The plays are the recorded
    /// ones, also where the builder would record others. Refused as `NotOld` exactly where the
    /// file is of version 2: nothing was written; else as `Read`, or as `Write` where a `write`
    /// failed or took no byte: a prefix of the new file was written. It takes no memory. (This
    /// project's profile.)
    pub fn upgrade<W: Write>(&mut self, writer: &mut W) -> Result<(), UpgradeFault>
        ensures not_old { (result ≡ Err UpgradeFault.NotOld)
            ↔ (self.old.version ≡ compact) }
        ensures version { WhereTold self.old.told
            (λ file. self.old.version ≡ version_of file) }
        ensures nothing { result ≡ Err UpgradeFault.NotOld →
            Keeps (W.contents writer.old) (W.contents writer.new) }
        ensures upgraded { WhereTold self.old.told (λ file. OnOk result
            (WritesUpgrade file (W.contents writer.old) (W.contents writer.new))) }
        ensures refused { WhereTold self.old.told (λ file. IfErr result
            (IsUpgradeRefused file (W.contents writer.old) (W.contents writer.new))) }
        ensures stays { Stays self.old self.new (result ≡ Err UpgradeFault.Read) }
    {
        if self.header.version == COMPACT_VERSION {
            return Err(UpgradeFault::NotOld);
        }
        write_upgrade(&mut self.table, &self.ranks, &self.header, writer)
    }
}

/// Checks bytes: they are accepted exactly where they are a right board file, of at most 90 pips,
/// and else refused with their first fault. Its header is given. It takes no memory but its own
/// stack, some 870 KB. (What is checked is a one-sided database of the GNU Backgammon manual; the
/// file is this project's profile.)
// so that its room is not part of its caller's
#[inline(never)]
pub fn check_board(bytes: &[u8]) -> Result<BoardHeader, CheckFault>
    ensures right { IsOk result ↔ IsRightBoard bytes.now }
    ensures bound { IfOk result (λ header. header.bound ≡ bound_of bytes.now) }
    ensures fault { IfErr result (IsFirstOnBoard bytes.now) }
{
    laws::law_boards();
    laws::law_header();
    let header = match parse_board_header(bytes) {
        Ok(header) => header,
        Err(fault) => return Err(CheckFault::Header(fault)),
    };
    match check_board_records(bytes, header) {
        Ok(()) => Ok(header),
        Err(fault) => Err(fault),
    }
}

/// Whether some bytes are a right file, of whichever version their header states: whether they have
/// its form, every mean in them is the least over all strategies, also those that look at the
/// history, the recorded plays reach it, and the recorded shares are those of these plays. (What is
/// checked is a one-sided database of the GNU Backgammon manual; the file is this project's
/// profile.)
pub fn is_right(bytes: &[u8]) -> bool
    ensures { IsTrue result ↔ IsRight bytes.now }
{
    laws::law_versions();
    check(Whole::new(bytes)).is_ok() || check_board(bytes).is_ok()
}

/// Makes the record of a position of an accepted table ready to be lent with this room.
fn load<T: Table>(
    table: &mut T,
    header: Header,
    ranks: &Ranks,
    position: &Position,
    room: &mut Record,
) -> Result<u16, QueryFault>
    requires { HasAccepted (T.tells table.old) (T.accepted table.old) header }
    ensures over_bound { (result ≡ Err QueryFault.OverBound) ↔ (header.bound < pips position.now) }
    ensures position { IsPosition position.now }
    ensures rank { IfOk result (λ rank. rank ≡ rank_of position.now) }
    ensures ready { IfOk result (λ rank. T.ready table.new room.new rank) }
    ensures local { WhereTold (T.tells table.old) (λ file. OnOk result
        (IsLocalDatabase file × (pips position.now ≤ bound_of file))) }
    ensures fault { IfErr result RefusesNumbers }
    ensures stays { TableStays ⟦<T as Table>⟧ table.old table.new (result ≡ Err QueryFault.Read) }
{
    if position.pips() > header.bound {
        return Err(QueryFault::OverBound);
    }
    let rank = ranks.rank(position);
    match table.load(rank, room) {
        Ok(()) => Ok(rank),
        Err(_) => Err(QueryFault::Read),
    }
}
