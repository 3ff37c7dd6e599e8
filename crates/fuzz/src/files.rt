//! Files and lines, answered in memory and by pages of which some reads fail.
use crate::difference::Difference;
use crate::random::{Parts, Random, Takes, add_lines, damage};
use certificate::{CheckFault, Checked, check};
use db_reader::trial::FailAt;
use db_reader::{Paged, SliceSource, Table, Whole};
use epc_query::{Opened, RunFault, Text, run, run_lines};
use ranking::{RankTable, Ranks};
use std::alloc::Global;

/// Bytes in memory, of which up to three reads fail.
type Source<'a> = FailAt<FailAt<FailAt<SliceSource<'a>>>>;

/// How often a call may fail.
const FAILURES: usize = 3;

/// Damages the file, or leaves it as it is, and compares what the checker says of it in memory
/// and by pages; where it is accepted, the replies to some lines.
pub(crate) fn compare_files(
    alloc: Global,
    random: &mut Random,
    ranks: &Ranks,
    file: &[u8],
) -> Result<(), Difference> {
    let mut bytes = Vec::new(alloc);
    bytes.extend_from_slice(file)?;
    if random.one_in(2) {
        let start = random.below(bytes.len());
        let count = random.below(3).saturating_add(1);
        damage(random, &mut bytes, start, count);
    }
    if random.one_in(9) {
        bytes.truncate(random.below(file.len()));
    }
    let pages = checked_by_pages(alloc, random, bytes.as_slice())?;
    match (check(Whole::new(bytes.as_slice())), pages) {
        (Ok(whole), Ok(pages)) => {
            compare_replies(alloc, random, ranks, bytes.as_slice(), whole, pages)
        }
        (Err((_, fault)), Err(other)) => Difference::Verdicts.unless(fault == other),
        _ => Err(Difference::Verdicts),
    }
}

/// The check of a file by pages, asked again where a read fails.
fn checked_by_pages<'a>(
    alloc: Global,
    random: &mut Random,
    file: &'a [u8],
) -> Result<Result<Checked<Paged<Source<'a>>>, CheckFault>, Difference> {
    let first = FailAt::new(SliceSource::new(file), random.below(2000) as u64);
    let second = FailAt::new(first, random.below(2000) as u64);
    let third = FailAt::new(second, random.below(2000) as u64);
    let records = random.below(70).saturating_add(1).min(70) as u16;
    let Ok(mut table) = Paged::new(alloc, third, records) else {
        return Err(Difference::Memory);
    };
    for _ in 0..=FAILURES {
        match check(table) {
            Ok(checked) => return Ok(Ok(checked)),
            Err((back, CheckFault::Read)) => table = back,
            Err((_, fault)) => return Ok(Err(fault)),
        }
    }
    Err(Difference::Verdicts)
}

/// Compares the replies to some lines in memory with those of an opened database, and with those by
/// pages, where the lines come in parts, a writer takes them in parts, and reads of a record fail.
fn compare_replies<T: Table + Drop, U: Table + Drop>(
    alloc: Global,
    random: &mut Random,
    ranks: &Ranks,
    file: &[u8],
    whole: Checked<T>,
    pages: Checked<U>,
) -> Result<(), Difference> {
    let (mut whole, mut pages) = (whole, pages);
    let mut input = Vec::new(alloc);
    add_lines(random, ranks, 12, &mut input)?;
    let mut replies = Vec::new(alloc);
    let mut reader = input.as_slice();
    let told = run(alloc, &mut whole, &mut reader, &mut replies, 1 << 40);
    Difference::Replies.unless(told.is_ok())?;
    compare_opened(alloc, file, input.as_slice(), replies.as_slice())?;
    let mut writer = Takes {
        written: Vec::new(alloc),
        random: Random::new(random.next()),
    };
    for _ in 0..=FAILURES {
        let rest = lines_after(input.as_slice(), count_lines(writer.written.as_slice()));
        let mut reader = Parts::new(rest, random.next());
        match run(alloc, &mut pages, &mut reader, &mut writer, 1 << 40) {
            Ok(_) => {
                let is_same = writer.written.as_slice() == replies.as_slice();
                return Difference::Replies.unless(is_same);
            }
            Err(RunFault::Table) => {}
            Err(_) => return Err(Difference::Replies),
        }
    }
    Err(Difference::Replies)
}

/// Compares replies with those of the database that is opened in the bytes of a file.
fn compare_opened(
    alloc: Global,
    file: &[u8],
    input: &[u8],
    replies: &[u8],
) -> Result<(), Difference> {
    let ranks = RankTable::new();
    let Ok(mut database) = Opened::open(file, &ranks) else {
        return Err(Difference::Verdicts);
    };
    let mut written = Vec::new(alloc);
    let mut reader = input;
    let mut text = Text::new();
    let told = run_lines(
        alloc,
        &mut database,
        &mut text,
        &mut reader,
        &mut written,
        1 << 40,
    );
    Difference::Replies.unless(told.is_ok() && written.as_slice() == replies)
}

/// How many line feeds there are.
fn count_lines(text: &[u8]) -> usize {
    text.iter().filter(|byte| **byte == b'\n').count()
}

/// What stands after the first lines of a text.
fn lines_after(text: &[u8], count: usize) -> &[u8] {
    let mut left = count;
    for (place, byte) in text.iter().enumerate() {
        if left == 0 {
            return &text[place..];
        }
        if *byte == b'\n' {
            left -= 1;
        }
    }
    b""
}
