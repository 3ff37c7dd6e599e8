//! `show`: what a file, or the whole board, says of positions in any notation.
ghost use Rattle.std.specs.Prelude.{◌≡◌, ◌⊎◌, ◌<◌, ℕ, true, List, [], ◌∷◌, length, IfOk, IfErr, IfSome};
ghost use Rattle.std.specs.Prelude.{OnOk, OnErr, MatchOption};
ghost use Rattle.std.specs.Io.KnownBytes.{Appends};
ghost use Rattle.db_layout.specs.Writes.{AppendsPart};
ghost use Rattle.epc_query.specs.Kinds.{IsAcceptedAs, stated_kind};
ghost use Rattle.command_line.specs.Asked.{show};
ghost use Rattle.bearoff_cli.specs.Faults.{IsAmong, IsFaultIn, IsFaultOf, ask_faults, status_of};
ghost use Rattle.bearoff_cli.specs.FileAnswers.{IsReadFrom};
ghost use Rattle.bearoff_cli.specs.declared.fault.Fault.TheVariants.{Write};
ghost use Rattle.bearoff_cli.specs.PutFiles.{KeepsIfRefused};
ghost use Rattle.bearoff_cli.specs.Shows.{LeavesLines, ShowsLines, ShowsTexts, ShowsWords, form_of, parts_of, unended};
ghost use Rattle.race_summary.specs.Shown.{IsShown, IsShownFirst};

use crate::fault::{Fault, Hint};
use crate::files::{MOST_BYTES, Unread, built_file, flush, read_bytes, read_file};
use db_layout::{BOARD_BOUND, Kind};
use epc_query::{Accepted, Opened, Text, accept_stated, stated_kind};
use legal_plays::Roll;
use race_summary::{Form, split, write_summary};
use ranking::RankTable;
use std::alloc::Global;
use std::io::{Read, Write};
use whole_file::Disk;

/// The word for positions on standard input.
const INPUT: &[u8] = b"-";

/// Writes what a file, or the whole board, says of positions: `Unanswered` where no text is one.
#[inline(never)]
pub fn show<D: Disk, I: Read, O: Write>(
    disk: &mut D,
    alloc: Global,
    words: &str,
    is_json: bool,
    input: &mut I,
    output: &mut O,
) -> Result<(), Fault>
    ensures refused { KeepsIfRefused result (O.contents output.old) (O.contents output.new) }
    ensures cause { IfErr result (IsAmong ask_faults) }
    ensures fault { IfErr result (IsFaultOf
        (IsReadFrom D.Reader.remaining (D.paths disk.old) (D.told disk.old))
        (show is_json words.now)) }
    ensures shown { OnOk result (ShowsTexts
        (ShowsLines true (O.contents output.old) (O.contents output.new))
        (IsReadFrom D.Reader.remaining (D.paths disk.old) (D.told disk.old)) is_json words.now
        (I.remaining input.old) (I.remaining input.new)) }
    ensures left { IfErr result (λ fault. (O.contents output.new ≡ O.contents output.old)
        ⊎ ShowsTexts (LeavesLines (O.contents output.old) (O.contents output.new) fault)
        (IsReadFrom D.Reader.remaining (D.paths disk.old) (D.told disk.old)) is_json words.now
        (I.remaining input.old) (I.remaining input.new)) }
    ensures stays { D.told disk.new ≡ D.told disk.old }
{
    let given = split(words);
    let wish = &Wish {
        roll: given.roll,
        form: form_of(is_json),
    };
    match given.file {
        Some(path) => {
            let file = read_file(disk, alloc, path)?;
            show_file(alloc, file.as_slice(), given.lines, wish, input, output)
        }
        None => {
            let file = built_file(alloc, Kind::Board, BOARD_BOUND)?;
            show_file(alloc, file.as_slice(), given.lines, wish, input, output)
        }
    }
}

/// JSON is written where it is asked for.
fn form_of(is_json: bool) -> Form
    ensures { result ≡ form_of is_json }
{
    if is_json { Form::Json } else { Form::Plain }
}

/// What is shown of each position.
#[derive(Clone, Copy)]
struct Wish {
    roll: Option<Roll>,
    form: Form,
}

/// Checks bytes, and writes what they say of positions: `Turns` where the input is too long.
fn show_file<I: Read, O: Write>(
    alloc: Global,
    file: &[u8],
    lines: &[u8],
    wish: &Wish,
    input: &mut I,
    output: &mut O,
) -> Result<(), Fault>
    ensures refused { KeepsIfRefused result (O.contents output.old) (O.contents output.new) }
    ensures cause { IfErr result (IsAmong ask_faults) }
    ensures fault { IfErr result (λ fault. (status_of fault ≡ 1)
        ⊎ IsFaultIn (stated_kind file.now) file.now fault) }
    ensures shown { OnOk result (ShowsWords
        (ShowsLines true (O.contents output.old) (O.contents output.new)) file.now
        wish.now.roll wish.now.form lines.now (I.remaining input.old) (I.remaining input.new)) }
    ensures left { IfErr result (λ fault. (O.contents output.new ≡ O.contents output.old)
        ⊎ ShowsWords (LeavesLines (O.contents output.old) (O.contents output.new) fault) file.now
        wish.now.roll wish.now.form lines.now (I.remaining input.old) (I.remaining input.new)) }
{
    let kind = stated_kind(file);
    let accepted = accept_stated(file)?;
    if lines.trim_ascii() == INPUT {
        let read = match read_bytes(alloc, input) {
            Ok(read) => read,
            Err(Unread::Memory) => return Err(Fault::Memory),
            Err(_) => return Err(Fault::Read),
        };
        if read.len() >= MOST_BYTES {
            return Err(Fault::Turns);
        }
        show_accepted(kind, accepted, file, read.as_slice(), wish, output)
    } else {
        show_accepted(kind, accepted, file, lines, wish, output)
    }
}

/// Writes what bytes that were accepted say of positions.
// so that its room is not on the stack while the bytes are checked
#[inline(never)]
fn show_accepted<O: Write>(
    kind: Kind,
    accepted: Accepted,
    file: &[u8],
    lines: &[u8],
    wish: &Wish,
    output: &mut O,
) -> Result<(), Fault>
    requires { IsAcceptedAs kind file.now accepted }
    ensures cause { IfErr result (IsAmong ask_faults) }
    ensures status { IfErr result (λ fault. status_of fault ≡ 1) }
    ensures shown { OnOk result (ShowsLines true (O.contents output.old) (O.contents output.new)
        (kind, file.now) wish.now.roll wish.now.form lines.now) }
    ensures left { IfErr result (λ fault. LeavesLines (O.contents output.old)
        (O.contents output.new) fault (kind, file.now) wish.now.roll wish.now.form lines.now) }
{
    let ranks = RankTable::new();
    let opened = Opened::kept(kind, file, accepted, &ranks);
    show_lines(&opened, lines, wish, output)
}

/// Writes what a file says of the position on each line.
fn show_lines<O: Write>(
    opened: &Opened<'_>,
    lines: &[u8],
    wish: &Wish,
    output: &mut O,
) -> Result<(), Fault>
    ensures cause { IfErr result (IsAmong ask_faults) }
    ensures status { IfErr result (λ fault. status_of fault ≡ 1) }
    ensures shown { OnOk result (ShowsLines true (O.contents output.old) (O.contents output.new)
        opened.now wish.now.roll wish.now.form lines.now) }
    ensures left { IfErr result (λ fault. LeavesLines (O.contents output.old)
        (O.contents output.new) fault opened.now wish.now.roll wish.now.form lines.now) }
{
    let mut text = Text::new();
    let mut is_answered = false;
    let mut rest = Some(unended(lines));
    while let Some(bytes) = rest {
        let (line, after) = first_line(bytes);
        let is_shown = show_line(opened, line, wish, &mut text, output)?;
        is_answered |= is_shown;
        rest = after;
    }
    flush(output)?;
    if is_answered {
        Ok(())
    } else {
        Err(Fault::Unanswered(Hint::Position))
    }
}

/// A text without the line feed at its end, if it has one.
fn unended(text: &[u8]) -> &[u8]
    ensures { result.now ≡ unended text.now }
{
    match text {
        [before @ .., b'\n'] => before,
        _ => text,
    }
}

/// The first line of a text without its line feed, and what stands after that, if it has one.
fn first_line(text: &[u8]) -> (&[u8], Option<&[u8]>)
    ensures lines { MatchOption result.1 (parts_of text.now ≡ result.0.now ∷ [])
        (λ rest. parts_of text.now ≡ result.0.now ∷ parts_of rest.now) }
    ensures shorter { IfSome result.1 (λ rest. length rest.now < length text.now) }
{
    for (at, byte) in text.iter().enumerate() {
        if *byte == b'\n' {
            return (&text[..at], Some(&text[at + 1..]));
        }
    }
    (text, None)
}

/// Writes what a file says of the position on a line, or why it says nothing. Returns whether it
/// says something.
fn show_line<O: Write>(
    opened: &Opened<'_>,
    line: &[u8],
    wish: &Wish,
    text: &mut Text,
    output: &mut O,
) -> Result<bool, Fault>
    ensures cause { IfErr result (λ fault. fault ≡ Write) }
    ensures shown { IfOk result (λ has_summary. (text : List ℕ)
        × IsShown opened.now line.now wish.now.roll wish.now.form has_summary text
        × Appends (O.contents output.old) (O.contents output.new) text) }
    ensures left { OnErr result ((text : List ℕ)
        × IsShownFirst opened.now line.now wish.now.roll wish.now.form text
        × AppendsPart (O.contents output.old) (O.contents output.new) text) }
{
    write_summary(opened, line, wish.roll, wish.form, text, output).map_err(|_| Fault::Write)
}
