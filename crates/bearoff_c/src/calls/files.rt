//! Files that are made in rooms that the caller lends: a build, and an upgrade.
ghost use Rattle.std.specs.Prelude.{◌≡◌, ◌+◌, ◌<◌, ◌≤◌, ◌↔◌, ◌⊎◌, ◌++◌, Some, length, take, drop};
ghost use Rattle.std.specs.Prelude.{if◌then◌else◌, nat_le};
ghost use Rattle.race_model.specs.Prelude.{IsBuilt, compact, version_by, greatest_bound, count_to, version_of};
ghost use Rattle.race_model.specs.Prelude.{record_place, board_place, IsRightDatabase, IsUpgrade};
ghost use Rattle.db_layout.specs.Records.{IsVersion};
ghost use Rattle.retrograde.specs.BuiltBoards.{IsBuiltBoard};
ghost use Rattle.certificate.specs.declared.check_fault.CheckFault.{CheckFault as Fault};
ghost use Rattle.certificate.specs.CheckFaults.{IsFirst};
ghost use Rattle.bearoff_c.specs.Opening.{fault_status as status_of_fault};

use crate::statuses::{BUFFER_TOO_SMALL, OK, Refusal, fault_status};
use certificate::{UpgradeFault, check};
use db_layout::{BOARD_VERSION, Header};
use db_reader::Whole;
use retrograde::{BoardBuildFault, build_board, build_in_room};
use std::io;
use std::io::Write;

/// Where an upgrade writes: a room that is lent, of which the front is written.
#[derive(Drop)]
struct Room<'a> {
    bytes: &'a mut [u8],
    written: usize,
    ghost within: { written ≤ length bytes.now },
}

impl<'a> Room<'a> {
    /// What was written.
    fn front(&self) -> &[u8]
        ensures { result.now ≡ take self.now.written self.now.bytes.now }
    {
        &self.bytes[..self.written]
    }
}

impl<'a> Write for Room<'a> {
    ghost contents = { λ room. Some (take room.written room.bytes.now) };

    /// Takes as many bytes as there is room for.
    fn write(&mut self, buf: &[u8]) -> io::Result<usize> {
        let count = buf.len().min(self.bytes.len() - self.written);
        let end = self.written + count;
        self.bytes[self.written..end].copy_from_slice(&buf[..count]);
        self.written = end;
        Ok(count)
    }

    fn flush(&mut self) -> io::Result<()> {
        Ok(())
    }
}

/// Copies the bytes of a file into the front of a room, and tells how many they are: the status 0.
/// With the status 8, exactly where they have no room there, the room and the count stay as they
/// were.
fn hand_over(bytes: &[u8], room: &mut [u8], filled: &mut usize) -> u32
    ensures status { result
        ≡ (if nat_le (length bytes.now) (length room.old) then 0 else 8) }
    ensures done { result ≡ 0 → (filled.new ≡ length bytes.now)
        × (room.new ≡ bytes.now ++ drop (length bytes.now) room.old) }
    ensures left { ¬ (result ≡ 0) → room.new ≡ room.old }
    ensures untold { ¬ (result ≡ 0) → filled.new ≡ filled.old }
{
    let count = bytes.len();
    if count > room.len() {
        return BUFFER_TOO_SMALL;
    }
    room[..count].copy_from_slice(bytes);
    *filled = count;
    OK
}

/// Builds the file of a version and a pip bound into the front of a room; `filled` is how many
/// bytes it has. A database, of version 1 or 2, needs a second room of at least as many bytes,
/// `work`, which the build uses as it likes: 11,209,796 for 44 pips of version 1 and 15,060,844 for
/// 58 of version 2. A board file, of version 3, needs none, and has 14,643,664 bytes for 90 pips.
/// It needs less than 1.5 MB of stack, and a database to 8 pips less than 128 KB. Refused as
/// `OverBound` exactly where no file of that version has that bound, and else with the status 8
/// exactly where a room that is needed is smaller than the file; then `room` and `filled` stay as
/// they were.
#[unsafe(no_mangle)]
pub extern "C" fn bearoff_build(
    version: u16,
    bound: u8,
    work: &mut [u8],
    room: &mut [u8],
    filled: &mut usize,
) -> u32
    ensures database { result ≡ 0 → ¬ (version ≡ 3)
        → IsBuilt (version_by version) bound (take filled.new room.new) }
    ensures board { result ≡ 0 → version ≡ 3 → IsBuiltBoard bound (take filled.new room.new) }
    ensures fits { result ≡ 0 → filled.new ≤ length room.old }
    ensures rest { result ≡ 0 → drop filled.new room.new ≡ drop filled.new room.old }
    ensures over { ¬ (version ≡ 3) → (result ≡ 4)
        ↔ (¬ (IsVersion version × (bound ≤ greatest_bound (version_by version)))) }
    ensures short { ¬ (version ≡ 3) → (result ≡ 8)
        ↔ ((IsVersion version × (bound ≤ greatest_bound (version_by version)))
        × ((length work.old < record_place (version_by version) (count_to bound))
        ⊎ (length room.old < record_place (version_by version) (count_to bound)))) }
    ensures over_board { version ≡ 3 → (result ≡ 4) ↔ (90 < bound) }
    ensures short_board { version ≡ 3 → (result ≡ 8) ↔
        ((bound ≤ 90) × (length room.old < board_place (count_to bound))) }
    ensures read { ¬ (result ≡ 0) → ¬ (result ≡ 4) → result ≡ 8 }
    ensures left { ¬ (result ≡ 0) → room.new ≡ room.old }
    ensures untold { ¬ (result ≡ 0) → filled.new ≡ filled.old }
{
    if version == BOARD_VERSION {
        return match build_board(bound, room) {
            Ok(count) => {
                *filled = count;
                OK
            }
            Err(BoardBuildFault::OverBound) => Refusal::OverBound.status(),
            Err(BoardBuildFault::Room) => BUFFER_TOO_SMALL,
        };
    }
    let Some(header) = Header::new(version, bound) else {
        return Refusal::OverBound.status();
    };
    match build_in_room(&header, work, room) {
        Some(count) => {
            *filled = count;
            OK
        }
        None => BUFFER_TOO_SMALL,
    }
}

/// The status of a file that is to be upgraded and is of version 2 already.
const NOT_OLD: u32 = 9;

/// Writes the database in the bytes of a file of version 1 into the front of a room as a file of
/// version 2, which has the same bound, means, plays and shares, and so the same reply to each
/// line; `filled` is how many bytes it has. `work` is a room of at least as many bytes, which the
/// call uses as it likes; both need 7,608,420 bytes for 44 pips. The bytes are checked first: a
/// status of 16 to 27 names their first fault. Refused with the status 9 exactly where they are a
/// right database of version 2, and with 8 where a room is too small. Where the status is not 0
/// `room` and `filled` stay as they were. (That a work room which is too small has the status 8,
/// and one that isn't never has it, is tested: no clause says when a writer takes no more.)
#[unsafe(no_mangle)]
pub extern "C" fn bearoff_upgrade(
    bytes: &[u8],
    work: &mut [u8],
    room: &mut [u8],
    filled: &mut usize,
) -> u32
    ensures upgraded { result ≡ 0 → IsUpgrade bytes.now (take filled.new room.new) }
    ensures fits { result ≡ 0 → filled.new ≤ length room.old }
    ensures rest { result ≡ 0 → drop filled.new room.new ≡ drop filled.new room.old }
    ensures right { (result < 10) ↔ IsRightDatabase bytes.now }
    ensures not_old { (result ≡ 9)
        ↔ (IsRightDatabase bytes.now × (version_of bytes.now ≡ compact)) }
    ensures fault { 9 < result → (fault : Fault) × IsFirst bytes.now fault
        × (result ≡ status_of_fault fault) }
    ensures read { result < 28 }
    ensures short { 0 < result → result < 9 → result ≡ 8 }
    ensures left { ¬ (result ≡ 0) → room.new ≡ room.old }
    ensures untold { ¬ (result ≡ 0) → filled.new ≡ filled.old }
{
    match check(Whole::new(bytes)) {
        Ok(mut checked) => {
            let mut new = Room {
                bytes: work,
                written: 0,
            };
            match checked.upgrade(&mut new) {
                Ok(()) => hand_over(new.front(), room, filled),
                Err(UpgradeFault::NotOld) => NOT_OLD,
                Err(_) => BUFFER_TOO_SMALL,
            }
        }
        Err((_, fault)) => fault_status(&fault),
    }
}
