//! The database of a header and the board file of a bound, built in bytes that are lent: each
//! record is written in its place, by those that stand before it.
ghost use Rattle.std.specs.Prelude.{◌≡◌, ℕ, ◌+◌, ◌<◌, ◌≤◌, ◌↔◌, ◌⊎◌, ◌++◌, length, take, drop};
ghost use Rattle.std.specs.Prelude.{IsSome, IfSome, IfNone, IfOk, IfErr};
ghost use Rattle.race_model.specs.Prelude.{version_by, IsBytes, record_place, board_place, IsBuilt};
ghost use Rattle.retrograde.specs.BuiltBoards.{IsBuiltBoard, IsBoardRefusedBy};

use crate::board_build_fault::BoardBuildFault;
use crate::board_record::put_record;
use crate::level::{add_level, level_place, put_bytes};
use db_layout::{BOARD_VERSION, BoardHeader, Header, Kind, RecordStarts, header_bytes};
use fixed_fraction::Scaled;
use least_plays::{LeastPlays, ROWS_TO_8, ROWS_TO_90};
use ranking::Ranks;

/// One more than how many positions have at most 8 pips.
const PLACES_TO_8: usize = ROWS_TO_8 + 1;

/// One more than how many have at most 58.
const PLACES_TO_58: usize = 46063;

/// How many there are, to 90 pips.
const POSITIONS: usize = 54264;

/// How many bytes a record of a board file has at most.
const BOARD_RECORD_BYTES: usize = 594;

/// Builds the database of a header at the start of a buffer, and returns its size; none exactly
/// where one of the two rooms is smaller than the file, and then `room` is as it was. While it
/// builds, `work` holds the shares as numbers that are read without being turned round. It takes
/// no memory but the stack, of which it needs less than 1.5 MB, and less than 128 KB to 8 pips.
pub fn build_in_room(header: &Header, work: &mut [u8], room: &mut [u8]) -> Option<usize>
    ensures some { IsSome result
        ↔ ((record_place (version_by header.now.version) header.now.count ≤ length work.old)
        × (record_place (version_by header.now.version) header.now.count ≤ length room.old)) }
    ensures count { IfSome result
        (λ count. count ≡ record_place (version_by header.now.version) header.now.count) }
    ensures built { IfSome result (λ count.
        IsBuilt (version_by header.now.version) header.now.bound (take count room.new)) }
    ensures rest { IfSome result (λ count. drop count room.new ≡ drop count room.old) }
    ensures len { length room.new ≡ length room.old }
    ensures kept { IfNone result (room.new ≡ room.old) }
{
    let count = header.end() as usize;
    if work.len() < count || room.len() < count {
        return None;
    }
    if usize::from(header.count) <= ROWS_TO_8 {
        fill::<ROWS_TO_8, PLACES_TO_8>(header, work, room);
    } else {
        fill::<ROWS_TO_90, PLACES_TO_58>(header, work, room);
    }
    Some(count)
}

/// Builds the file with this header in a buffer that is large enough. There are `ROWS` rows for
/// the best plays, and fewer means than places.
// so that no more of them are on the stack than are needed
#[inline(never)]
fn fill<const ROWS: usize, const PLACES: usize>(header: &Header, work: &mut [u8], room: &mut [u8])
    requires few { ROWS ≤ 11452 }
    requires rows { (header.now.count ≤ ROWS) ⊎ (ROWS ≡ 11452) }
    requires places { header.now.count < PLACES }
    requires positions { PLACES ≤ 46063 }
    requires work { record_place (version_by header.now.version) header.now.count
        ≤ length work.old }
    requires room { record_place (version_by header.now.version) header.now.count
        ≤ length room.old }
    ensures len { length room.new ≡ length room.old }
    ensures built { IsBuilt (version_by header.now.version) header.now.bound
        (take (record_place (version_by header.now.version) header.now.count) room.new) }
    ensures rest { drop (record_place (version_by header.now.version) header.now.count) room.new
        ≡ drop (record_place (version_by header.now.version) header.now.count) room.old }
{
    put_bytes(room, 0, &header_bytes(header));
    let ranks = Ranks::new();
    let mut least: LeastPlays<ROWS> = LeastPlays::new();
    let mut means = [Scaled::ZERO; PLACES];
    let mut places = [0; PLACES];
    for pips in 0..header.bound + 1 {
        let (start, end) = level_place(header, &ranks, pips);
        add_level(
            header,
            pips,
            &ranks,
            &mut least,
            &mut means,
            &mut places,
            work,
            &mut room[start..end],
        );
    }
}

/// Builds a board file at the start of a buffer, and returns its size: for each position of at
/// most so many pips the least mean number of rolls, for each roll the lowest rank of the results
/// that reach it, and for each number of throws how many sequences of so many end the game with
/// the last one. No other bytes are the built file of that bound (`law_built_boards`). It takes no
/// memory but the stack, of which it needs some 0.9 MB. `OverBound` where the bound is over 90,
/// and else `Room` where the room is smaller than the file; then the room is as it was. (What is
/// counted is that of a one-sided database of the GNU Backgammon manual; the exact numbers, the
/// file and the tie rule are this project's profile.)
pub fn build_board(bound: u8, room: &mut [u8]) -> Result<usize, BoardBuildFault>
    ensures built { IfOk result (λ count. IsBuiltBoard bound (take count room.new)) }
    ensures room { IfOk result (λ count. count ≤ length room.old) }
    ensures rest { IfOk result (λ count. drop count room.new ≡ drop count room.old) }
    ensures len { length room.new ≡ length room.old }
    ensures fault { IfErr result (λ fault. IsBoardRefusedBy bound (length room.old) fault) }
    ensures kept { IfErr result (λ _. room.new ≡ room.old) }
{
    let Some(header) = BoardHeader::new(bound) else {
        return Err(BoardBuildFault::OverBound);
    };
    let count = header.end();
    if room.len() < count {
        return Err(BoardBuildFault::Room);
    }
    if usize::from(header.count) <= ROWS_TO_8 {
        fill_board::<ROWS_TO_8, ROWS_TO_8>(&header, room);
    } else {
        fill_board::<ROWS_TO_90, POSITIONS>(&header, room);
    }
    Ok(count)
}

/// Builds the board file with this header in a buffer that is large enough. There are `ROWS` rows
/// for the best plays, and `COUNT` starts of records.
// so that no more rows are on the stack than are needed
#[inline(never)]
fn fill_board<const ROWS: usize, const COUNT: usize>(header: &BoardHeader, room: &mut [u8])
    requires few { ROWS ≤ 11452 }
    requires rows { (header.now.count ≤ ROWS) ⊎ (ROWS ≡ 11452) }
    requires offsets { header.now.count ≤ COUNT }
    requires positions { COUNT ≤ 54264 }
    requires room { board_place header.now.count ≤ length room.old }
    ensures len { length room.new ≡ length room.old }
    ensures built { IsBytes room.new →
        IsBuiltBoard header.now.bound (take (board_place header.now.count) room.new) }
    ensures rest { drop (board_place header.now.count) room.new
        ≡ drop (board_place header.now.count) room.old }
{
    put_bytes(room, 0, &header.to_bytes());
    let ranks = Ranks::new();
    let mut least: LeastPlays<ROWS> = LeastPlays::new();
    let mut starts: RecordStarts<COUNT> = RecordStarts::new();
    for rank in 0..header.count {
        let place = Kind::Board.find(BOARD_VERSION, header.bound, rank);
        let start = place.offset as usize;
        let position = ranks.unrank(rank).unwrap();
        let lower = starts.lower(room);
        let plays = least.advance(&ranks, &position, &lower);
        let mut bytes = [0; BOARD_RECORD_BYTES];
        put_record(&mut bytes, &lower, &position, &plays);
        put_bytes(room, start, &bytes[..place.length as usize]);
        starts.push(room, place.offset);
    }
}
