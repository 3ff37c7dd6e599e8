//! Calls that take memory, while a growth of memory is refused from outside, and a few short
//! trials by a word.
use crate::inputs::{answer_endless, answer_many, fail_reads};
use crate::texts::{Text, fail_flush};
use crate::wrong::{accepted, database};
use certificate::{Checked, QueryFault, check};
use db_reader::{Paged, PagedFault, SliceSource, Source, Table};
use epc_query::{RunFault, moves, run};
use fixed_fraction::{Scaled, WHOLE};
use home_board::Position;
use legal_plays::Roll;
use retrograde::{BuildFault, Means, build};
use std::alloc::Global;
use std::io::{self, Write};

/// What came of a trial.
#[derive(Clone, Copy, Debug, PartialEq, Eq)]
pub enum Outcome {
    /// No want of memory was answered.
    Whole,

    /// It was answered as it has to be, before anything was written, and the same call was
    /// answered at once afterwards.
    Memory,

    /// The same, after something was written: what has to be.
    Later,

    /// The memory of the trial itself was refused.
    Own,

    /// Anything else.
    Wrong,
}

impl Outcome {
    /// Its word, as it is printed.
    pub(crate) fn name(self) -> &'static str {
        match self {
            Outcome::Whole => "whole",
            Outcome::Memory => "memory",
            Outcome::Later => "later",
            Outcome::Own => "own",
            Outcome::Wrong => "wrong",
        }
    }

    /// It where what has to hold does, and else `Wrong`.
    fn or_wrong(self, is_right: bool) -> Self {
        if is_right { self } else { Outcome::Wrong }
    }
}

/// Does what a word says.
pub(crate) fn try_growths(alloc: Global, word: &str) -> Outcome {
    match word {
        "build" => try_build(alloc),
        "push" => try_push(alloc),
        other => {
            let mut file = Vec::new(alloc);
            if build(alloc, 3, &mut file).is_err() {
                return Outcome::Own;
            }
            match other {
                "moves" => try_moves(alloc, file.as_slice()),
                "run" => try_run(alloc, file.as_slice()),
                "pages" => try_pages(alloc, file.as_slice()),
                "puts" => try_puts(alloc, file.as_slice()),
                "flushes" => try_flushes(alloc, file.as_slice()),
                "turns" => try_turns(alloc, file.as_slice()),
                "reads" => try_reads(alloc, file.as_slice()),
                _ => Outcome::Wrong,
            }
        }
    }
}

/// A writer that counts its bytes and keeps none.
#[derive(Drop)]
struct Counter {
    bytes: u64,
}

impl Write for Counter {
    fn write(&mut self, bytes: &[u8]) -> io::Result<usize> {
        self.bytes = self.bytes.saturating_add(bytes.len() as u64);
        Ok(bytes.len())
    }

    fn flush(&mut self) -> io::Result<()> {
        Ok(())
    }
}

/// A build of 3 pips: want of memory comes before the header or after whole levels, and a build
/// after it is whole.
fn try_build(alloc: Global) -> Outcome {
    let mut counter = Counter { bytes: 0 };
    let outcome = match (build(alloc, 3, &mut counter), counter.bytes) {
        (Ok(()), 3014) => return Outcome::Whole,
        (Err(BuildFault::Memory), 0) => Outcome::Memory,
        (Err(BuildFault::Memory), 458 | 884 | 1736) => Outcome::Later,
        _ => Outcome::Wrong,
    };
    let mut counter = Counter { bytes: 0 };
    let is_whole = build(alloc, 3, &mut counter).is_ok() && counter.bytes == 3014;
    outcome.or_wrong(is_whole)
}

/// 3,000 means, pushed: want of memory adds none, and the next push adds it.
fn try_push(alloc: Global) -> Outcome {
    let mut means = Means::new(alloc);
    let mut outcome = Outcome::Whole;
    let Some(mean) = Scaled::new(WHOLE) else {
        return Outcome::Wrong;
    };
    for count in 0..3000 {
        if means.len() != count {
            return Outcome::Wrong;
        }
        if means.push(mean).is_err() {
            outcome = if count == 0 {
                Outcome::Memory
            } else {
                Outcome::Later
            };
            if means.len() != count || means.get(count).is_some() {
                return Outcome::Wrong;
            }
            if means.len() >= 3000 || means.push(mean).is_err() {
                return Outcome::Wrong;
            }
        }
    }
    outcome.or_wrong(means.len() == 3000)
}

/// A list of moves: want of memory, and then the list.
fn try_moves(alloc: Global, file: &[u8]) -> Outcome {
    let Ok(mut checked) = database(file) else {
        return Outcome::Wrong;
    };
    let Ok(pair) = Position::new([1, 1, 0, 0, 0, 0]) else {
        return Outcome::Wrong;
    };
    let Some(roll) = Roll::from_index(1) else {
        return Outcome::Wrong;
    };
    match moves(alloc, &mut checked, &pair, roll) {
        Ok(choices) => return Outcome::Whole.or_wrong(choices.len() == 2),
        Err(QueryFault::Memory) => {}
        Err(_) => return Outcome::Wrong,
    }
    match moves(alloc, &mut checked, &pair, roll) {
        Ok(choices) => Outcome::Memory.or_wrong(choices.len() == 2),
        Err(_) => Outcome::Wrong,
    }
}

/// A writer that takes the bytes that it expects, and no others. It takes no memory.
#[derive(Drop)]
struct Expecting<'a> {
    left: &'a [u8],
}

impl<'a> Write for Expecting<'a> {
    fn write(&mut self, bytes: &[u8]) -> io::Result<usize> {
        match self.left.strip_prefix(bytes) {
            Some(rest) => {
                self.left = rest;
                Ok(bytes.len())
            }
            None => Err(io::Error::from(io::ErrorKind::Other)),
        }
    }

    fn flush(&mut self) -> io::Result<()> {
        Ok(())
    }
}

/// Answers a line that asks for a list of moves, between two others: want of memory comes after
/// the reply before it, and the lines are answered at once afterwards.
fn try_run(alloc: Global, file: &[u8]) -> Outcome {
    let Ok(mut checked) = database(file) else {
        return Outcome::Wrong;
    };
    let lines = "rank 1,0,0,0,0,0\nmoves 1,1,0,0,0,0 21\nrank 0,1,0,0,0,0\n";
    let replies = "rank 1\nmoves 0,0,0,0,0,0:0/1 1,0,0,0,0,0:1/1\nrank 2\n";
    let mut reader = lines.as_bytes();
    let mut writer = Expecting {
        left: replies.as_bytes(),
    };
    let outcome = match run(alloc, &mut checked, &mut reader, &mut writer, 1 << 40) {
        Ok(3) => return Outcome::Whole.or_wrong(writer.left.is_empty()),
        Err(RunFault::Memory) => {
            Outcome::Later.or_wrong(writer.left.len().saturating_add(7) == replies.len())
        }
        _ => Outcome::Wrong,
    };
    outcome.or_wrong(is_answered(alloc, &mut checked, lines, replies))
}

/// The lines are answered with these replies.
fn is_answered<T: Table>(
    alloc: Global,
    checked: &mut Checked<T>,
    lines: &str,
    replies: &str,
) -> bool {
    let mut reader = lines.as_bytes();
    let mut writer = Expecting {
        left: replies.as_bytes(),
    };
    run(alloc, checked, &mut reader, &mut writer, 1 << 40).is_ok() && writer.left.is_empty()
}

/// A table over pages: want of memory hands the source back, and the table is made of it at once
/// afterwards, and accepted.
fn try_pages(alloc: Global, file: &[u8]) -> Outcome {
    match Paged::new(alloc, SliceSource::new(file), 7) {
        Ok(pages) => Outcome::Whole.or_wrong(check(pages).is_ok()),
        Err((source, PagedFault::Memory)) => {
            let mut source = source;
            let is_back = source.length() == Ok(file.len() as u64);
            match Paged::new(alloc, source, 7) {
                Ok(pages) => Outcome::Memory.or_wrong(is_back && check(pages).is_ok()),
                Err(_) => Outcome::Wrong,
            }
        }
        Err(_) => Outcome::Wrong,
    }
}

/// Lines over pages of one record: a record that is not kept for want of memory changes no reply.
fn try_puts(alloc: Global, file: &[u8]) -> Outcome {
    let Ok(pages) = Paged::new(alloc, SliceSource::new(file), 1) else {
        return Outcome::Own;
    };
    let Ok(mut checked) = accepted(pages, 0) else {
        return Outcome::Wrong;
    };
    let lines = "mean 0,0,1,0,0,0\r\n\nrank 1,0,0,0,0,0\nmean 3,0,0,0,0,0";
    let replies = "mean 1/1 epc 49/6 8.167\nerror bad-line\nrank 1\n\
        mean 11/6 epc 539/36 14.972\n";
    Outcome::Whole.or_wrong(is_answered(alloc, &mut checked, lines, replies))
}

/// Texts to writers whose flush fails: nobody but `run` asks for it.
fn try_flushes(alloc: Global, file: &[u8]) -> Outcome {
    for text in [
        Text::Header,
        Text::Record,
        Text::Replies,
        Text::Level,
        Text::Build,
        Text::BuildCompact,
        Text::Upgrade,
    ] {
        if fail_flush(alloc, file, text) != Ok(0) {
            return Outcome::Wrong;
        }
    }
    Outcome::Whole.or_wrong(fail_flush(alloc, file, Text::Run) == Ok(1))
}

/// An input in parts of 17 bytes: each read that fails is told as such, and where the reads run
/// out before it that is told.
fn try_reads(alloc: Global, file: &[u8]) -> Outcome {
    Outcome::Whole.or_wrong(fail_reads(alloc, file, 17) == Ok(21))
}

/// An input that never ends: as many reads as turns; and one of many lines, each by a read of its
/// own.
fn try_turns(alloc: Global, file: &[u8]) -> Outcome {
    let is_right = answer_endless(alloc, file) == Ok(1000)
        && answer_many(alloc, file) == Ok(100_000);
    Outcome::Whole.or_wrong(is_right)
}
