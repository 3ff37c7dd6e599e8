//! The check of all records of a table, or of a board file, by rising rank.
ghost use Rattle.std.specs.Prelude.{◌≡◌, ℕ, ◌+◌, ◌<◌, ◌≤◌, List, Some, Err, IfOk, IfErr, OnOk};
ghost use Rattle.race_model.specs.Prelude.{version_by, version_of, bound_of, IsBoardFile, IsLocalDatabase};
ghost use Rattle.race_model.specs.Prelude.{IsLocalBoard};
ghost use Rattle.least_plays.specs.Known.{HasRows};
ghost use Rattle.db_reader.specs.Telling.{WhereTold, RoseWhere};
ghost use Rattle.db_reader.specs.TableStays.{TableStays};
ghost use Rattle.db_reader.specs.Reads.{HasHeader};
ghost use Rattle.certificate.specs.CheckFaults.{IsFirst, IsFirstOnBoard};
ghost use Rattle.certificate.specs.KeptMeans.{HasRoom};

use crate::check_fault::{CheckFault, fault_at};
use crate::kept::LowerRecords;
use crate::record_check::{check_board_record, check_record};
use db_layout::{BOARD_VERSION, BoardHeader, BoardRecord, Header, Kind, RecordStarts};
use db_reader::{Record, Table, TableFault};
use fixed_fraction::Sums;
use least_plays::{LeastPlays, ROWS_TO_8, ROWS_TO_90};
use ranking::Ranks;
use std::array;

/// How many means are kept to 8 pips: those of all positions.
const ROOM_TO_8: usize = 64;

/// How many means are kept to 44 pips: those of all positions.
const ROOM_TO_44: usize = 26314;

/// How many means are kept to 58 pips: a throw takes at most 24 pips, and no 25 pip counts in a
/// row have more positions.
const ROOM_TO_58: usize = 35798;

/// How many positions there are.
const POSITIONS: usize = 54264;

/// The header of a table whose records meet the local equations, or the first fault. It takes no
/// memory, and adds a stored number to others only where it was accepted before.
// so that the room of `check` is no larger than its result
#[inline(never)]
pub fn check_records<T: Table>(table: &mut T, ranks: &Ranks) -> Result<Header, CheckFault>
    ensures stays { T.tells table.new ≡ T.tells table.old }
    ensures accepted { IfOk result (λ header. T.accepted table.new ≡ Some header) }
    ensures local { WhereTold (T.tells table.old) (λ file. OnOk result (IsLocalDatabase file)) }
    ensures bound { WhereTold (T.tells table.old)
        (λ file. IfOk result (λ header. header.bound ≡ bound_of file)) }
    ensures version { WhereTold (T.tells table.old)
        (λ file. IfOk result (λ header. version_by header.version ≡ version_of file)) }
    ensures first { WhereTold (T.tells table.old) (λ file. IfErr result (IsFirst file)) }
    ensures cause { WhereTold (T.tells table.old) (λ _. RoseWhere (result ≡ Err CheckFault.Read)
        (T.failures table.old) (T.failures table.new)) }
{
    let header = match table.header() {
        Ok(header) => header,
        Err(TableFault::Bad(fault)) => return Err(CheckFault::Header(fault)),
        Err(TableFault::Read) => return Err(CheckFault::Read),
    };
    let count = usize::from(header.count);
    if count <= ROOM_TO_8 {
        check_with_room::<T, ROOM_TO_8, ROWS_TO_8>(table, ranks, header)
    } else if count <= ROOM_TO_44 {
        check_with_room::<T, ROOM_TO_44, ROWS_TO_90>(table, ranks, header)
    } else {
        check_with_room::<T, ROOM_TO_58, ROWS_TO_90>(table, ranks, header)
    }
}

/// Checks the records of a table that has accepted this header. There is room for the means of
/// `ROOM` ranks, and `ROWS` rows for the best plays.
// so that its room is on the stack while it checks, and not while the header is read or its
// caller goes on
#[inline(never)]
fn check_with_room<T: Table, const ROOM: usize, const ROWS: usize>(
    table: &mut T,
    ranks: &Ranks,
    header: Header,
) -> Result<Header, CheckFault>
    requires header { T.accepted table.old ≡ Some header }
    requires room { header.count ≤ ROOM + ROOM }
    requires near { (r : ℕ) → r < header.count → HasRoom ROOM r }
    requires rows { (r : ℕ) → r < header.count → HasRows ROWS r }
    requires small { ROOM ≤ 46062 }
    requires few { ROWS ≤ 11452 }
    requires file { WhereTold (T.tells table.old)
        (λ file. HasHeader file header) }
    ensures header { IfOk result (λ same. same ≡ header) }
    ensures local { WhereTold (T.tells table.old) (λ file. OnOk result (IsLocalDatabase file)) }
    ensures first { WhereTold (T.tells table.old) (λ file. IfErr result (IsFirst file)) }
    ensures stays { TableStays ⟦<T as Table>⟧ table.old table.new (result ≡ Err CheckFault.Read) }
{
    let mut lower: LowerRecords<ROOM, ROWS> = LowerRecords::new();
    let mut own = Record::new();
    let mut rooms = array::from_fn(|_| Record::new());
    let mut sums = Sums::finished();
    for rank in 0..header.count {
        if let Err(fault) = check_record(
            table, ranks, header, rank, &mut lower, &mut own, &mut rooms, &mut sums,
        ) {
            return Err(fault_at(rank, fault));
        }
    }
    Ok(header)
}

/// Tests the records of a board file with this header. It takes no memory.
#[inline(never)]
pub fn check_board_records(bytes: &[u8], header: BoardHeader) -> Result<(), CheckFault>
    requires file { IsBoardFile bytes.now }
    requires bound { header.bound ≡ bound_of bytes.now }
    ensures local { OnOk result (IsLocalBoard bytes.now) }
    ensures first { IfErr result (IsFirstOnBoard bytes.now) }
{
    let ranks = Ranks::new();
    let mut plays: LeastPlays<ROWS_TO_90> = LeastPlays::new();
    let mut starts: RecordStarts<POSITIONS> = RecordStarts::new();
    for rank in 0..header.count {
        let place = Kind::Board.find(BOARD_VERSION, header.bound, rank);
        let start = place.offset as usize;
        let lower = starts.lower(bytes);
        let stored = &bytes[start..start + place.length as usize];
        let record = BoardRecord::new(stored, place.pips).unwrap();
        if let Err(fault) = check_board_record(&lower, &record, &ranks, &mut plays) {
            return Err(fault_at(rank, fault));
        }
        starts.push(bytes, place.offset);
    }
    Ok(())
}
