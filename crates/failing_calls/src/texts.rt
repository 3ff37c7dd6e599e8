//! Writers that refuse one call, under each call that writes.
use crate::inputs::{INPUT, REPLIES};
use crate::wrong::{Wrong, database};
use certificate::Checked;
use db_layout::{Header, write_header, write_record};
use db_reader::refused_writes::{RefuseAt, WriteRefusal};
use db_reader::{Table, Whole};
use epc_query::{Choice, Reply, answer_line, audit_level, run, write_level, write_reply};
use fixed_fraction::{Scaled, Spread, WHOLE, mean};
use home_board::Position;
use retrograde::{build, build_compact};
use std::alloc::Global;

/// What is written.
#[derive(Clone, Copy)]
pub enum Text {
    /// The header of 44 pips.
    Header,

    /// A record of the greatest mean.
    Record,

    /// A reply of each kind.
    Replies,

    /// The reply of a list of 300 moves, which has more bytes than are written at once.
    Moves,

    /// The line of a level.
    Level,

    /// The database of 3 pips.
    Build,

    /// The same as a file of version 2.
    BuildCompact,

    /// The database that was checked, as a file of version 2.
    Upgrade,

    /// The replies to an input.
    Run,
}

/// Refuses each call of `write` in turn, as one that fails and as one that takes nothing: want of
/// the writer has to be told at once, a prefix has to be written and no more asked of the writer;
/// and the whole text where no call is refused. It gives the number of calls.
pub(crate) fn fail_writes(
    alloc: Global,
    file: &[u8],
    text: Text,
    takes: usize,
) -> Result<u64, Wrong> {
    let mut checked = database(file)?;
    let mut whole = RefuseAt::never(alloc, usize::MAX);
    if !write_text(alloc, &mut checked, text, &mut whole) {
        return Err(Wrong::At(0));
    }
    for call in 1..10_000 {
        let failing = RefuseAt::new(alloc, takes, call, WriteRefusal::Fails);
        let has_ended = refuse(alloc, &mut checked, text, failing, whole.written.as_slice())?;
        let idle = RefuseAt::new(alloc, takes, call, WriteRefusal::TakesNothing);
        if refuse(alloc, &mut checked, text, idle, whole.written.as_slice())? != has_ended {
            return Err(Wrong::At(call));
        }
        if has_ended {
            return Ok(call - 1);
        }
    }
    Err(Wrong::At(10_000))
}

/// Writes a text to a writer that refuses a call, and tells whether the text was whole before
/// that call came.
fn refuse<T: Table>(
    alloc: Global,
    checked: &mut Checked<T>,
    text: Text,
    writer: RefuseAt,
    whole: &[u8],
) -> Result<bool, Wrong> {
    let mut writer = writer;
    let is_done = write_text(alloc, checked, text, &mut writer);
    let written = writer.written.as_slice();
    let is_right = if is_done {
        writer.calls < writer.refused && written == whole
    } else {
        writer.calls == writer.refused && written != whole && whole.starts_with(written)
    };
    if is_right {
        Ok(is_done)
    } else {
        Err(Wrong::At(writer.refused))
    }
}

/// Writes a text to a writer whose flush fails. Where nobody asks for a flush the whole text has
/// to be written and no fault told; under `run` the fault has to be told after the replies. It
/// gives the number of calls that were refused.
pub(crate) fn fail_flush(alloc: Global, file: &[u8], text: Text) -> Result<u64, Wrong> {
    let mut checked = database(file)?;
    let mut whole = RefuseAt::never(alloc, usize::MAX);
    let is_written = write_text(alloc, &mut checked, text, &mut whole);
    let mut writer = RefuseAt::never(alloc, usize::MAX);
    writer.flush_fails = true;
    let is_done = write_text(alloc, &mut checked, text, &mut writer);
    let is_right = match text {
        Text::Run => !is_done && whole.written.starts_with(writer.written.as_slice()),
        _ => is_done && writer.written.as_slice() == whole.written.as_slice(),
    };
    if is_written && is_right {
        Ok(u64::from(!is_done))
    } else {
        Err(Wrong::At(1))
    }
}

/// Writes a text, and tells whether no fault was told.
fn write_text<T: Table>(
    alloc: Global,
    checked: &mut Checked<T>,
    text: Text,
    writer: &mut RefuseAt,
) -> bool {
    match text {
        Text::Header => write_a_header(writer),
        Text::Record => write_a_record(writer),
        Text::Replies => write_replies(alloc, checked, writer),
        Text::Moves => write_moves(alloc, writer),
        Text::Level => match audit_level(checked, 3) {
            Ok(level) => write_level(&level, writer).is_ok(),
            Err(_) => false,
        },
        Text::Build => build(alloc, 3, writer).is_ok(),
        Text::BuildCompact => build_compact(alloc, 3, writer).is_ok(),
        Text::Upgrade => checked.upgrade(writer).is_ok(),
        Text::Run => {
            let mut reader = INPUT.as_bytes();
            run(alloc, checked, &mut reader, writer, 1 << 40).is_ok()
        }
    }
}

fn write_a_header(writer: &mut RefuseAt) -> bool {
    match Header::new(1, 44) {
        Some(header) => write_header(&header, writer).is_ok(),
        None => false,
    }
}

fn write_a_record(writer: &mut RefuseAt) -> bool {
    let Some(header) = Header::new(1, 44) else {
        return false;
    };
    let spread = Spread::finished();
    match Scaled::new(22 * WHOLE) {
        Some(mean) if header.holds(0, &spread) => {
            write_record(&header, 0, mean, &[258; 21], &spread, writer).is_ok()
        }
        _ => false,
    }
}

/// One line of each kind, over 3 pips.
const KINDS: [&str; 7] = [
    "mean 3,0,0,0,0,0",
    "dist 3,0,0,0,0,0",
    "play 1,1,0,0,0,0 21",
    "loss 1,1,0,0,0,0 21 1,0,0,0,0,0",
    "moves 1,1,0,0,0,0 21",
    "rank 3,0,0,0,0,0",
    "rank 4,0,0,0,0,0",
];

fn write_replies<T: Table>(alloc: Global, checked: &mut Checked<T>, writer: &mut RefuseAt) -> bool {
    for line in KINDS {
        let is_done = match answer_line(alloc, checked, line.as_bytes()) {
            Ok(reply) => write_reply(&reply, writer).is_ok(),
            Err(_) => false,
        };
        if !is_done {
            return false;
        }
    }
    true
}

fn write_moves(alloc: Global, writer: &mut RefuseAt) -> bool {
    let Ok(choices) = three_hundred(alloc) else {
        return false;
    };
    write_reply(&Reply::Moves(choices), writer).is_ok()
}

/// A list of 300 moves.
fn three_hundred(alloc: Global) -> Result<Vec<Choice>, Wrong> {
    let mut choices = Vec::new(alloc);
    let Some(part) = Scaled::new(WHOLE / 36 * 35) else {
        return Err(Wrong::At(0));
    };
    for _ in 0..300 {
        let choice = Choice {
            to: Position::EMPTY,
            loss: mean(part),
        };
        if choices.push(choice).is_err() {
            return Err(Wrong::Memory);
        }
    }
    Ok(choices)
}
