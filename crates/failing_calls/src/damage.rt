//! A database that is cut short or changed, and what the checker says of it.
use arrayvec::ArrayString;
use certificate::{check, fault_line};
use db_layout::Header;
use db_reader::{Paged, SliceSource, Table, Whole};
use std::alloc::Global;
use std::io;

/// The text of what the checker says.
type Line = ArrayString<64>;

/// Prints a line for each run of damaged places that are refused alike.
#[derive(Drop)]
struct Runs {
    first: usize,
    next: usize,
    line: Line,
}

impl Runs {
    fn new() -> Self {
        Runs {
            first: 0,
            next: 0,
            line: Line::new(),
        }
    }

    /// Takes what is said of the next place, and prints the places before it that are over.
    fn add(&mut self, rt: &impl Print, line: Line) -> io::Result<()> {
        if line.as_str() != self.line.as_str() {
            self.end(rt)?;
            self.first = self.next;
            self.line = line;
        }
        self.next = self.next.saturating_add(1);
        Ok(())
    }

    /// Prints the places that are not printed yet.
    fn end(&self, rt: &impl Print) -> io::Result<()> {
        if self.first == self.next {
            return Ok(());
        }
        let last = self.next.saturating_sub(1);
        println!(rt; "{} to {last}: {}", self.first, self.line.as_str())
    }
}

/// What the checker says of a table.
fn verdict<T: Table + Drop>(table: T) -> Line {
    match check(table) {
        Ok(_) => Line::new(),
        Err((_, fault)) => fault_line(&fault),
    }
}

/// What the checker says of these bytes, in memory and by pages of one record, which has to be
/// the same.
fn verdict_of(alloc: Global, file: &[u8]) -> Line {
    let line = verdict(Whole::new(file));
    let by_pages = match Paged::new(alloc, SliceSource::new(file), 1) {
        Ok(pages) => verdict(pages),
        Err(_) => Line::new(),
    };
    if line.as_str() == by_pages.as_str() {
        line
    } else {
        Line::new()
    }
}

/// What is damaged in a record of a database.
#[derive(Clone, Copy)]
enum Part {
    All,
    Mean,
    Spread,
}

impl Part {
    /// The name of the part, its offset in the record, and how many of so many bytes it has.
    fn place(self, length: usize) -> (&'static str, usize, usize) {
        match self {
            Part::All => ("record", 0, length),
            Part::Mean => ("mean", 0, 16),
            Part::Spread => ("spread", 58, length.saturating_sub(58)),
        }
    }
}

/// Damages a database with this header in each way, and prints what the checker says.
pub(crate) fn report_damage(
    rt: &impl Print,
    alloc: Global,
    file: &[u8],
    header: &Header,
) -> io::Result<()> {
    println!(rt; "cut after so many bytes")?;
    let mut runs = Runs::new();
    for length in 0..file.len() {
        runs.add(rt, verdict_of(alloc, &file[..length]))?;
    }
    runs.end(rt)?;
    println!(rt; "the lowest bit of a byte changed")?;
    let mut damaged = Vec::new(alloc);
    damaged.extend_from_slice(file)?;
    let mut runs = Runs::new();
    for place in 0..damaged.len() {
        damaged[place] ^= 1;
        runs.add(rt, verdict_of(alloc, damaged.as_slice()))?;
        damaged[place] ^= 1;
    }
    runs.end(rt)?;
    println!(rt; "all bits set in a part of a record")?;
    for rank in 0..header.count {
        for part in [Part::All, Part::Mean, Part::Spread] {
            report_part(rt, alloc, file, rank, header.place(rank), part)?;
        }
    }
    println!(rt; "all means zero")?;
    let mut damaged = Vec::new(alloc);
    damaged.extend_from_slice(file)?;
    for rank in 0..header.count {
        let (offset, _) = header.place(rank);
        put(&mut damaged, offset as usize, 16, 0);
    }
    let line = verdict_of(alloc, damaged.as_slice());
    println!(rt; "{}", line.as_str())
}

/// Sets all bits of a part of a record, and prints what the checker says.
fn report_part(
    rt: &impl Print,
    alloc: Global,
    file: &[u8],
    rank: u16,
    (offset, length): (u64, u32),
    part: Part,
) -> io::Result<()> {
    let (name, place, count) = part.place(length as usize);
    let mut damaged = Vec::new(alloc);
    damaged.extend_from_slice(file)?;
    let start = (offset as usize).saturating_add(place);
    put(&mut damaged, start, count, 0xff);
    let line = verdict_of(alloc, damaged.as_slice());
    println!(rt; "{name} {rank}: {}", line.as_str())
}

/// Writes a byte into so many places, as far as there are so many.
fn put(bytes: &mut [u8], place: usize, count: usize, byte: u8) {
    for old in bytes.iter_mut().skip(place).take(count) {
        *old = byte;
    }
}
