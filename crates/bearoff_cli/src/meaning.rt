//! What a fault means of a file, in words.
ghost use Rattle.std.specs.Prelude.{◌≡◌, ◌≤◌, ◌++◌, codes, length, IfOk, OnOk};
ghost use Rattle.std.specs.Io.KnownBytes.{Appends};
ghost use Rattle.std.specs.String.{string_bytes};
ghost use Rattle.db_layout.specs.Writes.{AppendsPart};
ghost use Rattle.bearoff_cli.specs.Meanings.{after_colon, header_meaning, meaning_line, meaning_of, refusal_meaning};
ghost use Rattle.bearoff_cli.specs.Meanings.{shown, shown_letter};

use crate::fault::Fault;
use arrayvec::ArrayString;
use certificate::CheckFault;
use db_layout::{HeaderFault, WriteFault, write_bytes};
use std::alloc::{AllocError, Global};
use std::io::Write;

/// What the system says of a file, and no letter where it says nothing.
pub type Reason = ArrayString<256>;

/// A text with a question mark for each character that a terminal doesn't print.
pub fn shown(alloc: Global, text: &str) -> Result<String, AllocError>
    ensures { IfOk result (λ t. string_bytes t ≡ shown text.now) }
{
    text.chars()
        .map(|letter| shown_letter(letter))
        .collect(alloc)
}

/// A character, or a question mark for one that a terminal doesn't print as itself.
fn shown_letter(letter: char) -> char
    ensures { result ≡ shown_letter letter }
{
    match letter {
        '\0'..='\u{1f}'
        | '\u{7f}'..='\u{9f}'
        | '\u{200b}'..='\u{200f}'
        | '\u{2028}'..='\u{202e}'
        | '\u{2060}'..='\u{206f}' => '?',
        _ => letter,
    }
}

/// Writes a line of the path as it is shown, the meaning of its fault, and what the system says of
/// it. Refused only where a `write` fails or takes no byte; then a prefix of it was written.
pub fn write_meaning<E: Write>(
    fault: &Fault,
    path: &str,
    reason: &Reason,
    errors: &mut E,
) -> Result<(), WriteFault>
    ensures all { OnOk result (Appends (E.contents errors.old) (E.contents errors.new)
        (meaning_line path.now fault.now reason.now.bytes)) }
    ensures part { AppendsPart (E.contents errors.old) (E.contents errors.new)
        (meaning_line path.now fault.now reason.now.bytes) }
{
    write_bytes(path.as_bytes(), errors)?;
    write_bytes(said(fault, reason).as_str().as_bytes(), errors)
}

/// What stands behind the path.
fn said(fault: &Fault, reason: &Reason) -> ArrayString<384>
    ensures { result.bytes ≡ codes ": " ++ (meaning_of fault.now
        ++ (after_colon reason.now.bytes ++ codes "\n")) }
{
    let mut text = ArrayString::new();
    text.push_str(": ");
    text.push_str(meaning(fault));
    if !reason.is_empty() {
        text.push_str(": ");
        text.push_str(reason.as_str());
    }
    text.push_str("\n");
    text
}

/// What a fault means of a file; nothing where it is not the file's.
fn meaning(fault: &Fault) -> &'static str
    ensures is { result.now ≡ meaning_of fault.now }
    ensures short { length result.now ≤ 64 }
{
    match fault {
        Fault::Open => "cannot be opened",
        Fault::File => "cannot be read",
        Fault::Refused(refused) => refusal_meaning(refused),
        _ => "",
    }
}

/// What the first fault of a file means.
fn refusal_meaning(fault: &CheckFault) -> &'static str
    ensures is { result.now ≡ refusal_meaning fault.now }
    ensures short { length result.now ≤ 64 }
{
    match fault {
        CheckFault::Header(fault) => header_meaning(fault),
        CheckFault::Play { .. } => "records a play that the rules do not allow",
        CheckFault::NotLeast { .. } => "records a play that is not the best one",
        CheckFault::Mean { .. } => "records a mean that is not that of its plays",
        CheckFault::Spread { .. } => "records a chance that is not that of its plays",
        CheckFault::Read => "cannot be read",
    }
}

/// What the first fault of a header means.
fn header_meaning(fault: &HeaderFault) -> &'static str
    ensures is { result.now ≡ header_meaning fault.now }
    ensures short { length result.now ≤ 64 }
{
    match fault {
        HeaderFault::TooShort => "is shorter than a header, which has 32 bytes",
        HeaderFault::BadMagic => "does not begin as a database or a board file does",
        HeaderFault::BadVersion => "states a version other than 1, 2 and 3",
        HeaderFault::BadBound => "states more pips than a file of its version has",
        HeaderFault::BadCount => "states another number of positions than its pips have",
        HeaderFault::BadRecordBytes => "states records of another length than its version has",
        HeaderFault::BadReserved => "has a reserved byte in its header that is not 0",
        HeaderFault::BadLength => "is shorter or longer than its header and its records",
    }
}
