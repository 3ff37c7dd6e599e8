//! What several of the tests are given: databases in memory, tables that are accepted, lines with
//! their replies.
use certificate::{Checked, check};
use db_reader::trial::FailAt;
use db_reader::{Paged, SliceSource, Source, Table};
use epc_query::{RunFault, run};
use retrograde::{build, build_compact};
use std::alloc::Global;
use std::process::Abort;
use std::test::Fail;

/// 36 ^ 22 in 16 bytes.
pub const WHOLE_BYTES: [u8; 16] = [
    0x00, 0x03, 0x56, 0x27, 0x10, 0xdf, 0xf0, 0x31, 0x87, 0x27, 0x10, 0, 0, 0, 0, 0,
];

/// The database that the builder makes of a bound.
pub fn database(alloc: Global, bound: u8) -> Result<Vec<u8>, Fail> {
    let mut file = Vec::new(alloc);
    build(alloc, bound, &mut file)?;
    Ok(file)
}

/// The same as a file of version 2.
pub fn compact_database(alloc: Global, bound: u8) -> Result<Vec<u8>, Fail> {
    let mut file = Vec::new(alloc);
    build_compact(alloc, bound, &mut file)?;
    Ok(file)
}

/// A table that the checker accepts.
pub fn accepted<T: Table + Drop>(table: T) -> Result<Checked<T>, Fail> {
    match check(table) {
        Ok(checked) => Ok(checked),
        Err((_, fault)) => Err(Fail::from(fault)),
    }
}

/// A table over pages that keeps so many records.
pub fn pages<S: Source + Drop>(alloc: Global, source: S, records: u16) -> Result<Paged<S>, Fail> {
    match Paged::new(alloc, source, records) {
        Ok(pages) => Ok(pages),
        Err((_, fault)) => Err(Fail::from(fault)),
    }
}

/// The same over bytes in memory, where the source fails once, at this call.
pub fn failing(
    alloc: Global,
    file: &[u8],
    records: u16,
    call: u64,
) -> Result<Paged<FailAt<SliceSource<'_>>>, Fail> {
    pages(alloc, FailAt::new(SliceSource::new(file), call), records)
}

/// What is written of the lines of an input over a table, and what `run` gives.
pub fn answers<T: Table>(
    alloc: Global,
    checked: &mut Checked<T>,
    input: &[u8],
) -> (Vec<u8>, Result<u64, RunFault>) {
    let mut reader = input;
    let mut written = Vec::new(alloc);
    let told = run(alloc, checked, &mut reader, &mut written, 1 << 40);
    (written, told)
}

/// Lines of each kind, a bad one and a refused one; the last has no line feed.
const LINES: &str = "mean 0,0,0,0,0,0\ndist 0,0,0,0,0,0\nmean 0,0,1,0,0,0\r\n\
    mean 0,0,0,0,0,1\ndist 0,0,0,0,0,1\nmean 0,2,0,0,0,0\nmean 5,0,0,0,0,0\n\
    dist 5,0,0,0,0,0\ndist 3,0,1,0,0,0\nplay 0,0,0,2,0,0 21\n\
    loss 0,0,0,2,0,0 21 0,1,1,0,0,0\nplay 0,0,1,0,0,0 13\nplay 0,0,0,0,0,1 11\n\
    moves 0,0,0,2,0,0 21\nplay 0,0,0,0,0,0 66\n\nmean 0,0,0,0,0,15\nrank 1,0,0,0,0,0";

const REPLIES: &str = "mean 0/1 epc 0/1 0.000\ndist 0:1/1\nmean 1/1 epc 49/6 8.167\n\
    mean 5/4 epc 245/24 10.208\ndist 1:3/4 2:1/4\nmean 23/18 epc 1127/108 10.435\n\
    mean 97/36 epc 4753/216 22.005\ndist 2:11/36 3:25/36\ndist 1:1/9 2:91/108 3:5/108\n\
    play 4/2 2/1 to 1,0,0,1,0,0\nloss 1/9\nplay 3/off to 0,0,0,0,0,0\n\
    play 6/5 5/4 4/3 3/2 to 0,1,0,0,0,0\nmoves 1,0,0,1,0,0:0/1 0,1,1,0,0,0:1/9\n\
    error finished\nerror bad-line\nerror over-bound\nrank 1\n";

/// Asserts the replies to these lines over a table of 8 pips.
pub fn assert_replies<T: Table>(rt: &(impl Abort + AllocGlobal), checked: &mut Checked<T>) {
    let (written, told) = answers(rt.alloc(), checked, LINES.as_bytes());
    assert_eq!(rt; told, Ok(18));
    assert!(rt; written.as_slice() == REPLIES.as_bytes());
}

/// Writes these bytes into a file's, as far as they reach.
pub fn put(file: &mut [u8], place: usize, bytes: &[u8]) {
    for (byte, new) in file.iter_mut().skip(place).zip(bytes) {
        *byte = *new;
    }
}
