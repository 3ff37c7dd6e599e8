//! The speed of the crates. It rests on `epc_query`, `certificate` and `retrograde`; nothing
//! stands on it. Its words:
//!
//! - none, or `results`: it turns each rank into its position and back, and then takes the results
//!   of all 21 rolls from every position, and the rank of each. It prints how many ranks came
//!   back, how many results there are, and how many of these have a lower rank than the position:
//!   all but those of the finished position.
//! - `build`, `check`: it builds the database in memory and prints how many bytes it has, and
//!   checks it.
//! - `ties`: it checks the database in which each tied play is recorded the other way: as the
//!   result of the highest rank of those with the least mean. It prints how many plays are others
//!   than those that are built.
//! - `mean`, `dist`, `play`, `moves`: it answers so many lines of that kind, from memory into a
//!   writer that only counts, and prints how many a second.
//! - `text` and one of these: it writes the lines themselves.
//!
//! A number after a `-` is how many lines, any other one how many pips the positions have at most
//! (else 44). After `pages` the database is read by pages that hold every record, and after
//! `sorted` the lines come in the order of the ranks. Times are in microseconds; they and the
//! rates differ from run to run.
#![tactic(auto)]

use certificate::check;
use db_reader::{Paged, SliceSource, Table};
use epc_query::{Answers, Opened, Text, run_lines};
use home_board::OLD_BOUND;
use legal_plays::{Roll, results};
use lines::{Counter, Order, Question, lines_of};
use ranking::{RankTable, Ranks};
use retrograde::build;
use std::alloc::Global;
use std::io::Write;
use std::time::{Clock, Instant};
use std::{env, io};
use ties::play_other_ties;

mod lines;
mod ties;

/// What is measured.
#[derive(Clone, Copy)]
enum Work {
    Results,
    Build,
    Check,
    Ties,
    Answer(Question),
    Text(Question),
}

/// What the words ask for.
#[derive(Clone, Copy)]
struct Request {
    work: Work,
    bound: u8,
    count: u32,
    order: Order,
    is_paged: bool,
}

/// How many results there are, and how many of them have a lower rank than the position.
#[derive(Drop)]
struct Tally {
    results: usize,
    lower: usize,
}

fn main(rt: HostRuntime) -> io::Result<()> {
    let mut request = Request {
        work: Work::Results,
        bound: OLD_BOUND,
        count: 100_000,
        order: Order::Random,
        is_paged: false,
    };
    for word in env::args(&rt)?.skip(1) {
        read_word(&mut request, word.as_str());
    }
    match request.work {
        Work::Results => report_results(&rt, request.bound),
        Work::Text(kind) => write_lines(&rt, rt.alloc(), kind, request),
        _ => report_database(&rt, rt.alloc(), request),
    }
}

/// Takes a word into the request; one that says nothing is left out.
fn read_word(request: &mut Request, word: &str) {
    match word {
        "results" => request.work = Work::Results,
        "build" => request.work = Work::Build,
        "check" => request.work = Work::Check,
        "ties" => request.work = Work::Ties,
        "text" => request.work = Work::Text(Question::Mean),
        "pages" => request.is_paged = true,
        "sorted" => request.order = Order::Sorted,
        word => read_kind_or_number(request, word),
    }
}

/// Takes a word that names a kind of line, or a number.
fn read_kind_or_number(request: &mut Request, word: &str) {
    if let Some(kind) = Question::of(word) {
        request.work = match request.work {
            Work::Text(_) => Work::Text(kind),
            _ => Work::Answer(kind),
        };
        return;
    }
    match word.strip_prefix('-') {
        Some(count) => request.count = count.parse().unwrap_or(request.count),
        None => request.bound = word.parse().unwrap_or(request.bound),
    }
}

fn report_results(rt: &impl Print, bound: u8) -> io::Result<()> {
    let ranks = Ranks::new();
    let returned = count_returned(&ranks);
    println!(rt; "ranks returned {returned}")?;
    let tally = tally_results(&ranks, bound);
    println!(rt;
        "pips {bound} results {} lower {}",
        tally.results, tally.lower
    )
}

fn write_lines(rt: &impl Print, alloc: Global, kind: Question, request: Request) -> io::Result<()> {
    let lines = lines_of(alloc, kind, request.order, request.count, request.bound)?;
    io::writer(rt).write_all(lines.as_slice())
}

/// Builds the database, and does what is asked for with it.
fn report_database<R: Print + Clock>(rt: &R, alloc: Global, request: Request) -> io::Result<()> {
    let mut bytes = Vec::new(alloc);
    let start = Instant::now(rt)?;
    if let Err(fault) = build(alloc, request.bound, &mut bytes) {
        return println!(rt; "{fault}");
    }
    let built = start.elapsed(rt)?.as_micros();
    if let Work::Build = request.work {
        println!(rt; "pips {} bytes {}", request.bound, bytes.len())?;
        return println!(rt; "build {built} us");
    }
    if let Work::Ties = request.work {
        let Some(other) = play_other_ties(alloc, request.bound, bytes.as_slice()) else {
            return println!(rt; "no database");
        };
        println!(rt; "other plays {}", other.count)?;
        bytes = other.bytes;
    }
    if !request.is_paged {
        return report_bytes(rt, alloc, request, bytes.as_slice());
    }
    let positions = Ranks::new().count_to(request.bound);
    match Paged::new(alloc, SliceSource::new(bytes.as_slice()), positions) {
        Ok(pages) => report_table(rt, alloc, request, pages),
        Err((_, fault)) => println!(rt; "{fault}"),
    }
}

/// Checks bytes, and does what is asked for with the database in them.
fn report_bytes<R: Print + Clock>(
    rt: &R,
    alloc: Global,
    request: Request,
    bytes: &[u8],
) -> io::Result<()> {
    let ranks = RankTable::new();
    let start = Instant::now(rt)?;
    match Opened::open(bytes, &ranks) {
        Ok(mut database) => {
            let taken = start.elapsed(rt)?.as_micros();
            match request.work {
                Work::Answer(kind) => report_lines(rt, alloc, request, kind, &mut database),
                _ => println!(rt; "positions {}\ncheck {taken} us", database.positions()),
            }
        }
        Err(fault) => println!(rt; "{fault}"),
    }
}

/// Checks a table, and does what is asked for with it.
fn report_table<R: Print + Clock, T: Table + Drop>(
    rt: &R,
    alloc: Global,
    request: Request,
    table: T,
) -> io::Result<()> {
    let start = Instant::now(rt)?;
    match check(table) {
        Ok(mut checked) => {
            let taken = start.elapsed(rt)?.as_micros();
            match request.work {
                Work::Answer(kind) => report_lines(rt, alloc, request, kind, &mut checked),
                _ => println!(rt; "positions {}\ncheck {taken} us", checked.positions()),
            }
        }
        Err((_, fault)) => println!(rt; "{fault}"),
    }
}

/// Answers lines five times, and says how many a second in the fastest run.
fn report_lines<R: Print + Clock, A: Answers>(
    rt: &R,
    alloc: Global,
    request: Request,
    kind: Question,
    answers: &mut A,
) -> io::Result<()> {
    let lines = lines_of(alloc, kind, request.order, request.count, request.bound)?;
    let mut text = Text::new();
    let mut fastest = u128::MAX;
    for _ in 0..5 {
        let mut reader = lines.as_slice();
        let mut counter = Counter { calls: 0, bytes: 0 };
        let start = Instant::now(rt)?;
        let told = run_lines(
            alloc,
            answers,
            &mut text,
            &mut reader,
            &mut counter,
            u64::MAX,
        );
        let taken = start.elapsed(rt)?.as_micros();
        match told {
            Ok(_) => fastest = fastest.min(taken),
            Err(fault) => return println!(rt; "{fault}"),
        }
    }
    let rate = u128::from(request.count) * 1_000_000 / fastest.max(1);
    println!(rt; "{rate} lines a second")
}

/// How many numbers are the rank of the position that they lead to.
fn count_returned(ranks: &Ranks) -> usize {
    (0..u16::MAX)
        .filter(|index| {
            ranks
                .unrank(*index)
                .is_some_and(|position| ranks.rank(&position) == *index)
        })
        .count()
}

/// The results of all rolls from the positions of at most so many pips.
fn tally_results(ranks: &Ranks, pips: u8) -> Tally {
    let mut tally = Tally {
        results: 0,
        lower: 0,
    };
    for index in 0..ranks.count_to(pips) {
        if let Some(position) = ranks.unrank(index) {
            for roll in (0..21).filter_map(Roll::from_index) {
                let found = results(&position, roll);
                let lower = found
                    .as_slice()
                    .iter()
                    .filter(|reached| ranks.rank(reached) < index)
                    .count();
                tally.results = tally.results.saturating_add(found.len());
                tally.lower = tally.lower.saturating_add(lower);
            }
        }
    }
    tally
}
