//! The opening of a file of any version, and what it says of itself.
ghost use Rattle.std.specs.Prelude.{◌≡◌, ◌<◌, ◌≤◌, ◌↔◌, IsTrue};
ghost use Rattle.race_model.specs.Prelude.{count_to, bound_of, IsRight};
ghost use Rattle.certificate.specs.declared.check_fault.CheckFault.{CheckFault as Fault};
ghost use Rattle.certificate.specs.CheckFaults.{line_of};
ghost use Rattle.epc_query.specs.Kinds.{file_book, rolls_in, version_in, stated_kind, IsFirstAs};
ghost use Rattle.bearoff_c.specs.Opening.{fault_status as status_of_fault, IsElseSameFile};
ghost use Rattle.bearoff_c.specs.StatusTexts.{HasText};
ghost use Rattle.bearoff_c.specs.Refusals.{open_refusal, status_of};

use crate::calls::lines::put_text;
use crate::kept::File;
use crate::statuses::{OK, fault_status};
use certificate::fault_line;
use epc_query::accept_stated;
use ranking::RankTable;

/// Checks the bytes of a file and opens it. The status is 0 exactly where they are a right file, of
/// whichever version their header states: a database of at most 58 pips or a board file of at most
/// 90. Then the file answers for as long as neither it nor the bytes are changed. Any other status,
/// 16 to 27, names the first fault of the bytes, which is that of a board file where their version
/// is 3 and else that of a database, and the file is not open, and else as it was; the line of the
/// fault, without a line feed, stands in `line` where there is room for all of it, and else `line`
/// stays as it was. `needed` is how many bytes the line has, at most 32, and 0 where there is no
/// fault.
#[unsafe(no_mangle)]
pub extern "C" fn bearoff_open<'a>(
    file: &mut File<'a>,
    bytes: &'a [u8],
    line: &mut [u8],
    needed: &mut usize,
) -> u32
    ensures right { (result ≡ 0) ↔ IsRight bytes.now }
    ensures opened { IsTrue file.new.is_open ↔ (result ≡ 0) }
    ensures bytes { result ≡ 0 → file.new.bytes.now ≡ bytes.now }
    ensures bound { result ≡ 0 → file.new.bound ≡ bound_of bytes.now }
    ensures fault { ¬ (result ≡ 0) → (fault : Fault)
        × IsFirstAs (stated_kind bytes.now) bytes.now fault
        × (result ≡ status_of_fault fault) × HasText (line_of fault) line.old line.new needed.new }
    ensures read { result < 28 }
    ensures none { result ≡ 0 → (needed.new ≡ 0) × (line.new ≡ line.old) }
    ensures most { needed.new ≤ 32 }
    ensures left { ¬ (result ≡ 0) → IsElseSameFile file.old file.new }
{
    match accept_stated(bytes) {
        Ok(accepted) => {
            *file = File {
                bytes,
                is_open: true,
                bound: accepted.bound,
                version: accepted.version,
                ranks: RankTable::new(),
            };
            *needed = 0;
            OK
        }
        Err(fault) => {
            file.is_open = false;
            put_text(fault_line(&fault).as_str().as_bytes(), line, needed);
            fault_status(&fault)
        }
    }
}

/// What a file says of itself.
#[repr(C)]
#[derive(Clone, Copy, Debug, PartialEq, Eq)]
pub struct About {
    /// The version: 1 or 2 of a database, 3 of a board file.
    pub version: u16,

    /// The pip bound.
    pub bound: u8,

    /// The most rolls that have a share, 22 or 33; numerators are over 36 to that power.
    pub rolls: u8,

    /// How many positions there are: those of at most the bound.
    pub positions: u32,
}

/// What a file says of itself. Refused as `NotOpen`; then `about` stays as it was.
#[unsafe(no_mangle)]
pub extern "C" fn bearoff_about(file: &File<'_>, about: &mut About) -> u32
    ensures status { result ≡ status_of (open_refusal file.now.is_open) }
    ensures version { result ≡ 0 → about.new.version ≡ version_in file.now.bytes.now }
    ensures bound { result ≡ 0 → about.new.bound ≡ (file_book file.now.bytes.now).bound }
    ensures rolls { result ≡ 0 → about.new.rolls ≡ rolls_in (file_book file.now.bytes.now) }
    ensures positions { result ≡ 0 →
        about.new.positions ≡ count_to (file_book file.now.bytes.now).bound }
    ensures left { ¬ (result ≡ 0) → about.new ≡ about.old }
{
    match file.opened() {
        Ok(opened) => {
            *about = About {
                version: file.version,
                bound: opened.bound(),
                rolls: opened.most_rolls(),
                positions: u32::from(opened.positions()),
            };
            OK
        }
        Err(refusal) => refusal.status(),
    }
}
