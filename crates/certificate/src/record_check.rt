//! The check of one record, with records of lower rank that were accepted.
ghost use Rattle.std.specs.Prelude.{◌≡◌, ℕ, ◌+◌, ◌*◌, ◌<◌, ◌≤◌, List, [], IsTrue, Some, Err};
ghost use Rattle.std.specs.Prelude.{slice_index, slice_index_or};
ghost use Rattle.std.specs.Prelude.{IsErr, IsErrAnd, IfOk, IfErr, OnOk};
ghost use Rattle.race_model.specs.Prelude.{Board, IsPosition, IsFinished, checkers, pips, roll_at, rank as rank_of};
ghost use Rattle.race_model.specs.Prelude.{at_rank, count_to, bound_of, record_at, mean_at, spread_at, play};
ghost use Rattle.race_model.specs.Prelude.{board_record, Legal, IsBestPlay, IsPlayed, IsBest, IsLocalAt};
ghost use Rattle.race_model.specs.Prelude.{IsLocalOnBoard, most_rolls};
ghost use Rattle.least_plays.specs.Known.{HasRows, Knows};
ghost use Rattle.db_layout.specs.LowerRecords.{board_mean};
ghost use Rattle.db_reader.specs.Telling.{WhereTold};
ghost use Rattle.db_reader.specs.TableStays.{TableStays};
ghost use Rattle.db_reader.specs.Reads.{HasHeader, HasRecord};
ghost use Rattle.certificate.specs.KeptMeans.{HasRoom};
ghost use Rattle.certificate.specs.LowerRecords.{IsLower};
ghost use Rattle.certificate.specs.RecordNumbers.{AreSumsOf, sums_if};
ghost use Rattle.certificate.specs.RecordFaults.{IsFirstFaultAt, IsFirstFaultOnBoardAt};

use crate::check_fault::{RecordFault, of_refused};
use crate::equations::{PlayedRecord, SummedRecord, check_numbers};
use crate::kept::LowerRecords;
use crate::numbers::{plays_by, plays_in};
use crate::play_sums::add_plays;
use db_layout::{BoardRecord, Header, WORDS, most_rolls, word_sums};
use db_reader::{ReadFault, Record, Table};
use fixed_fraction::Sums;
use home_board::Position;
use least_plays::{LeastPlays, ROWS_TO_90, check_plays};
use race_model::laws;
use ranking::Ranks;

/// Loads the records after the 21 plays, each into a buffer of its own.
#[inline(always)]
fn load_plays<T: Table>(
    table: &mut T,
    plays: &[u16; 21],
    rooms: &mut [Record; 21],
) -> Result<(), ReadFault>
    requires have { (i : ℕ) → i < 21 → HasRecord (T.accepted table.old) (slice_index plays.now i) }
    ensures ready { OnOk result ((i : ℕ) → i < 21 →
        T.ready table.new (slice_index_or rooms.new i []) (slice_index plays.now i)) }
    ensures others { (bytes : List ℕ) (other : ℕ) →
        T.ready table.old bytes other → T.ready table.new bytes other }
    ensures stays { TableStays ⟦<T as Table>⟧ table.old table.new (IsErr result) }
{
    for index in 0..21 {
        table.load(plays[index], &mut rooms[index])?;
    }
    Ok(())
}

/// The numbers of rolls at which a play from a position can have a share: from one on, since a roll
/// takes at most four checkers off, and before another, the most that the position itself can need;
/// and all of them, where the records are not known to be accepted.
fn range_of(position: &Position, is_known: bool) -> (u8, u8)
    requires { pips position.now ≤ 58 }
    ensures order { result.0 ≤ result.1 }
    ensures few { result.1 ≤ 23 }
    ensures known { IsTrue is_known → result.1 ≡ most_rolls (pips position.now) }
    ensures before { IsTrue is_known →
        (k : ℕ) → k < result.0 → 4 * k + 4 < checkers position.now }
    ensures unknown { ¬ IsTrue is_known → (result.0 ≡ 0) × (result.1 ≡ 23) }
{
    if !is_known {
        return (0, 23);
    }
    let end = most_rolls(position.pips());
    let first = (position.checkers().saturating_sub(1) / 4).min(end);
    (first, end)
}

/// Adds up the records after the 21 plays, which are legal; false at the finished position, which
/// has no lower records.
#[inline(always)]
fn sum_plays<T: Table>(
    table: &mut T,
    position: &Position,
    recorded: &[u16; 21],
    rooms: &mut [Record; 21],
    sums: &mut Sums,
) -> Result<bool, ReadFault>
    requires position { IsPosition position.now }
    requires short { pips position.now ≤ 58 }
    requires recorded { WhereTold (T.tells table.old) (λ file. (i : ℕ) → i < 21 →
        slice_index recorded.now i ≡ play file position.now (roll_at i)) }
    requires have { (i : ℕ) → i < 21 →
        HasRecord (T.accepted table.old) (slice_index recorded.now i) }
    requires lower { WhereTold (T.tells table.old)
        (λ file. (z : Board) → IsPosition z → rank_of z < rank_of position.now →
        IsLocalAt file z) }
    requires played { WhereTold (T.tells table.old)
        (λ file. (i : ℕ) → i < 21 → IsPlayed file position.now (roll_at i)) }
    ensures others { (bytes : List ℕ) (other : ℕ) →
        T.ready table.old bytes other → T.ready table.new bytes other }
    ensures totals { WhereTold (T.tells table.old)
        (λ file. IfOk result (λ some. AreSumsOf file position.now (sums_if some sums.new))) }
    ensures stays { TableStays ⟦<T as Table>⟧ table.old table.new (IsErr result) }
{
    if position.is_finished() {
        return Ok(false);
    }
    load_plays(table, recorded, rooms)?;
    let is_known = table.is_told();
    let (first, rolls) = range_of(position, is_known);
    if !add_plays(table, recorded, rooms, first, rolls, is_known, sums) {
        return Err(ReadFault);
    }
    Ok(true)
}

/// Tests the record of a rank after all lower ones were accepted. Keeps what the tests of higher
/// ranks need, with room for the means of `ROOM` ranks. The records that the 21 rolls lead to are
/// lent at once, each from a room of its own. Their sums stand where the last ones did.
// a function of its own, since a browser makes a function fast only between two calls of it
#[inline(never)]
pub fn check_record<T: Table, const ROOM: usize, const ROWS: usize>(
    table: &mut T,
    ranks: &Ranks,
    header: Header,
    rank: u16,
    lower: &mut LowerRecords<ROOM, ROWS>,
    own: &mut Record,
    rooms: &mut [Record; 21],
    sums: &mut Sums,
) -> Result<(), RecordFault>
    requires header { T.accepted table.old ≡ Some header }
    requires rank { rank < header.count }
    requires room { header.count ≤ ROOM + ROOM }
    requires near { HasRoom ROOM rank }
    requires rows { HasRows ROWS rank }
    requires small { ROOM ≤ 46062 }
    requires file { WhereTold (T.tells table.old)
        (λ file. HasHeader file header) }
    requires lower { WhereTold (T.tells table.old)
        (λ file. (z : Board) → IsPosition z → rank_of z < rank → IsLocalAt file z) }
    requires kept { IsLower (T.tells table.old) lower.old rank }
    ensures kept { OnOk result (IsLower (T.tells table.old) lower.new (rank + 1)) }
    ensures local { WhereTold (T.tells table.old)
        (λ file. OnOk result (IsLocalAt file (at_rank rank))) }
    ensures first { WhereTold (T.tells table.old)
        (λ file. IfErr result (IsFirstFaultAt file rank)) }
    ensures stays { TableStays ⟦<T as Table>⟧ table.old table.new (result ≡ Err RecordFault.Read) }
{
    laws::law_counts();
    laws::law_rank();
    laws::law_at_rank();
    if let Err(_) = table.load(rank, own) {
        return Err(RecordFault::Read);
    }
    let position = ranks.unrank(rank).unwrap();
    let best = lower.best_plays(ranks, &position);
    let recorded = plays_in(&table.lend(rank, own));
    if let Err(refused) = check_plays(&lower.means, ranks, &position, &recorded, &best) {
        return Err(of_refused(refused));
    }
    let has_sums = match sum_plays(table, &position, &recorded, rooms, sums) {
        Ok(has_sums) => has_sums,
        Err(_) => return Err(RecordFault::Read),
    };
    let view = table.lend(rank, own);
    let record = SummedRecord {
        view: &view,
        sums,
        has_sums,
    };
    if let Err(fault) = check_numbers(&record) {
        return Err(fault);
    }
    lower.accept(rank, view.mean());
    Ok(())
}

/// Tests a board file's next record after all lower ones were accepted. The plays of the position
/// after it can be found then.
#[inline(never)]
pub fn check_board_record(
    lower: &db_layout::LowerRecords<'_>,
    stored: &BoardRecord<'_>,
    ranks: &Ranks,
    plays: &mut LeastPlays<ROWS_TO_90>,
) -> Result<(), RecordFault>
    requires below { lower.now.count < 54264 }
    requires pips { stored.now.pips ≡ pips (at_rank lower.now.count) }
    requires bytes { stored.now.bytes ≡ board_record lower.now.bytes lower.now.count }
    requires known { Knows (board_mean lower.now.bytes) plays.old lower.now.count }
    ensures known { Knows (board_mean lower.now.bytes) plays.new (lower.now.count + 1) }
    ensures local { OnOk result (IsLocalOnBoard lower.now.bytes (at_rank lower.now.count)) }
    ensures first { lower.now.count < count_to (bound_of lower.now.bytes) →
        IfErr result (IsFirstFaultOnBoardAt lower.now.bytes lower.now.count) }
{
    let position = ranks.unrank(lower.count()).unwrap();
    let best = plays.advance(ranks, &position, lower);
    let recorded = plays_by(|roll| stored.play(roll));
    if let Err(refused) = check_plays(lower, ranks, &position, &recorded, &best) {
        return Err(of_refused(refused));
    }
    let words = if position.is_finished() {
        [0; WORDS]
    } else {
        word_sums(lower, &recorded)
    };
    let rolls = most_rolls(position.pips());
    let record = PlayedRecord {
        lower,
        stored,
        position: &position,
        plays: &recorded,
        words: &words,
        rolls,
    };
    match check_numbers(&record) {
        Ok(()) => Ok(()),
        Err(fault) => Err(fault),
    }
}
