//! A program that lets one call fail at each place in turn, the first, then the second and so on
//! until none fails: each read of a source, each write, each read of an input; and that damages a
//! database at each of its bytes. For each place it prints how many calls failed and were answered
//! as they have to be, or where one was not. With a word it does one thing alone, while a growth
//! of memory is refused from outside, and prints what came of it: `tests/test_refused_calls.py`
//! starts it so. It rests on `epc_query` and `retrograde`; nothing stands on it.
#![tactic(auto)]

use crate::damage::report_damage;
use crate::growths::try_growths;
use crate::inputs::{answer_each_byte, answer_endless, answer_many, fail_reads};
use crate::sources::{Query, fail_check, fail_query, fail_run};
use crate::texts::{Text, fail_flush, fail_writes};
use crate::wrong::Wrong;
use db_layout::{COMPACT_VERSION, Header, VERSION};
use retrograde::{build, build_compact};
use std::alloc::Global;
use std::{env, io};

mod damage;
mod growths;
mod inputs;
mod sources;
mod texts;
mod wrong;

fn main(rt: HostRuntime) -> io::Result<()> {
    if let Some(word) = env::args(&rt)?.nth(1) {
        let outcome = try_growths(rt.alloc(), word.as_str());
        return println!(rt; "{}", outcome.name());
    }
    let mut file = Vec::new(rt.alloc());
    if build(rt.alloc(), 3, &mut file).is_err() {
        return println!(rt; "no database");
    }
    let mut compact = Vec::new(rt.alloc());
    if build_compact(rt.alloc(), 3, &mut compact).is_err() {
        return println!(rt; "no database");
    }
    if let Some(header) = Header::new(VERSION, 3) {
        report_damage(&rt, rt.alloc(), file.as_slice(), &header)?;
    }
    println!(rt; "version 2")?;
    if let Some(header) = Header::new(COMPACT_VERSION, 3) {
        report_damage(&rt, rt.alloc(), compact.as_slice(), &header)?;
    }
    report_sources(&rt, rt.alloc(), file.as_slice())?;
    report_writers(&rt, rt.alloc(), file.as_slice())?;
    report_inputs(&rt, rt.alloc(), file.as_slice())
}

/// Prints how many calls failed at a place, or that one was not answered as it has to be.
fn report(rt: &impl Print, place: &str, told: Result<u64, Wrong>) -> io::Result<()> {
    match told {
        Ok(count) => println!(rt; "{place}: {count} calls"),
        Err(Wrong::Memory) => println!(rt; "{place}: no memory"),
        Err(Wrong::At(call)) => println!(rt; "{place}: wrong at call {call}"),
    }
}

/// The queries, each with its name.
const QUERIES: [(&str, Query); 8] = [
    ("scaled", Query::Scaled),
    ("mean", Query::Mean),
    ("epc", Query::Epc),
    ("spread", Query::Spread),
    ("play", Query::Play),
    ("loss", Query::Loss),
    ("moves", Query::Moves),
    ("audit_level", Query::Level),
];

/// The reads of a source, over pages of one, two and seven records.
fn report_sources(rt: &impl Print, alloc: Global, file: &[u8]) -> io::Result<()> {
    for records in [1, 2, 7] {
        println!(rt; "pages of {records} records")?;
        report(rt, "check", fail_check(alloc, file, records))?;
        for (name, query) in QUERIES {
            report(rt, name, fail_query(alloc, file, records, query))?;
        }
        report(rt, "run", fail_run(alloc, file, records))?;
    }
    Ok(())
}

/// What is written, each with the name of the call.
const TEXTS: [(&str, Text); 8] = [
    ("write_header", Text::Header),
    ("write_record", Text::Record),
    ("write_reply", Text::Replies),
    ("write_level", Text::Level),
    ("build", Text::Build),
    ("build_compact", Text::BuildCompact),
    ("upgrade", Text::Upgrade),
    ("run", Text::Run),
];

/// The writes of each text, by writers that take one byte a call, 100, and all that they are
/// given.
fn report_writers(rt: &impl Print, alloc: Global, file: &[u8]) -> io::Result<()> {
    for takes in [1, 100, 1_000_000] {
        println!(rt; "writers of at most {takes} bytes a call")?;
        for (name, text) in TEXTS {
            report(rt, name, fail_writes(alloc, file, text, takes))?;
        }
    }
    println!(rt; "a list of 300 moves to a writer of at most 100 bytes a call")?;
    report(
        rt,
        "write_reply",
        fail_writes(alloc, file, Text::Moves, 100),
    )?;
    println!(rt; "writers whose flush fails")?;
    for (name, text) in TEXTS {
        report(rt, name, fail_flush(alloc, file, text))?;
    }
    Ok(())
}

/// The reads of an input that comes in parts of one byte, of two, and so on.
fn report_inputs(rt: &impl Print, alloc: Global, file: &[u8]) -> io::Result<()> {
    println!(rt; "inputs")?;
    for size in 1..=300 {
        if let Err(wrong) = fail_reads(alloc, file, size) {
            println!(rt; "in parts of {size} bytes")?;
            report(rt, "run", Err(wrong))?;
        }
    }
    for size in [1, 17, 128, 129, 300] {
        println!(rt; "in parts of {size} bytes")?;
        report(rt, "run", fail_reads(alloc, file, size))?;
    }
    println!(rt; "each byte before a line and after it")?;
    report(rt, "run", answer_each_byte(alloc, file))?;
    println!(rt; "that never ends")?;
    report(rt, "run", answer_endless(alloc, file))?;
    println!(rt; "a line a read")?;
    report(rt, "run", answer_many(alloc, file))
}
