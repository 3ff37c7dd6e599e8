//! Readers that give an input in parts, and that fail at one read, under `run`.
use crate::wrong::{Wrong, count_lines, database, first_lines};
use certificate::Checked;
use db_reader::Table;
use epc_query::{RunFault, run};
use std::alloc::Global;
use std::io::{self, Read};

/// Lines with one carriage return and with two, of 128 bytes and of 129, an empty one, and a last
/// one without a line feed.
pub const INPUT: &str = "rank 1,0,0,0,0,0\r\n\
    xxxxxxxxxxxxxxxxxxxxxxxxxxxxxxxxxxxxxxxxxxxxxxxxxxxxxxxxxxxxxxxx\
    xxxxxxxxxxxxxxxxxxxxxxxxxxxxxxxxxxxxxxxxxxxxxxxxxxxxxxxxxxxxxxxx\r\n\
    rank 0,1,0,0,0,0\r\r\n\n\
    moves 1,1,0,0,0,0 21\n\
    xxxxxxxxxxxxxxxxxxxxxxxxxxxxxxxxxxxxxxxxxxxxxxxxxxxxxxxxxxxxxxxx\
    xxxxxxxxxxxxxxxxxxxxxxxxxxxxxxxxxxxxxxxxxxxxxxxxxxxxxxxxxxxxxxxxx\n\
    rank 1,0,0,0,0,0";

/// The replies to them over 3 pips.
pub const REPLIES: &str = "rank 1\nerror bad-line\nerror bad-line\nerror bad-line\n\
    moves 0,0,0,0,0,0:0/1 1,0,0,0,0,0:1/1\nerror bad-line\nrank 1\n";

/// How many lines there are.
const LINES: u64 = 7;

/// A reader that gives so many bytes a call, and fails at one. It counts its calls.
#[derive(Drop)]
struct Parts<'a> {
    left: &'a [u8],
    size: usize,
    refused: u64,
    reads: u64,
}

impl<'a> Parts<'a> {
    /// A reader that fails at its read of this number, counted from 1, and at none where it is 0.
    fn new(input: &'a [u8], size: usize, refused: u64) -> Self {
        Parts {
            left: input,
            size,
            refused,
            reads: 0,
        }
    }
}

impl<'a> Read for Parts<'a> {
    fn read(&mut self, buf: &mut [u8]) -> io::Result<usize> {
        self.reads = self.reads.saturating_add(1);
        if self.reads == self.refused {
            return Err(io::Error::from(io::ErrorKind::Other));
        }
        let count = self.left.len().min(self.size).min(buf.len());
        let (part, rest) = self.left.split_at(count);
        buf[..count].copy_from_slice(part);
        self.left = rest;
        Ok(count)
    }
}

/// A reader that gives the letter x for ever.
#[derive(Drop)]
struct Endless {
    reads: u64,
}

impl Read for Endless {
    fn read(&mut self, buf: &mut [u8]) -> io::Result<usize> {
        self.reads = self.reads.saturating_add(1);
        buf.fill(b'x');
        Ok(buf.len())
    }
}

/// A reader that gives a line feed a read, so many times.
#[derive(Drop)]
struct Feeds {
    left: u64,
}

impl Read for Feeds {
    fn read(&mut self, buf: &mut [u8]) -> io::Result<usize> {
        if self.left == 0 || buf.is_empty() {
            return Ok(0);
        }
        self.left -= 1;
        buf[0] = b'\n';
        Ok(1)
    }
}

/// Fails each read of an input in turn, which comes in parts of so many bytes, and lets the reads
/// run out there: the replies to all whole lines so far have to be written, and all where no read
/// fails. It gives the number of reads.
pub(crate) fn fail_reads(alloc: Global, file: &[u8], size: usize) -> Result<u64, Wrong> {
    let mut checked = database(file)?;
    let mut given = 0;
    for call in 1..10_000 {
        let whole = count_lines(&INPUT.as_bytes()[..INPUT.len().min(given)]);
        let replies = first_lines(REPLIES.as_bytes(), whole);
        if fail_read(alloc, &mut checked, size, call, replies)? {
            return Ok(call - 1);
        }
        given = given.saturating_add(size);
    }
    Err(Wrong::At(10_000))
}

/// Fails one read, and lets the reads run out before it. Tells whether the input was answered
/// before that read came.
fn fail_read<T: Table>(
    alloc: Global,
    checked: &mut Checked<T>,
    size: usize,
    call: u64,
    replies: &[u8],
) -> Result<bool, Wrong> {
    let mut reader = Parts::new(INPUT.as_bytes(), size, call);
    let mut written = Vec::new(alloc);
    let told = run(alloc, checked, &mut reader, &mut written, 1 << 40);
    if told == Ok(LINES) && reader.reads < call && written.as_slice() == REPLIES.as_bytes() {
        return Ok(true);
    }
    if told != Err(RunFault::Read) || reader.reads != call || written.as_slice() != replies {
        return Err(Wrong::At(call));
    }
    let turns = call.saturating_sub(1);
    let mut reader = Parts::new(INPUT.as_bytes(), size, 0);
    let mut written = Vec::new(alloc);
    let told = run(alloc, checked, &mut reader, &mut written, turns);
    if told != Err(RunFault::Turns) || reader.reads != turns || written.as_slice() != replies {
        return Err(Wrong::At(call));
    }
    Ok(false)
}

/// Answers an input that never ends: there are no more reads than turns. It gives the number of
/// reads.
pub(crate) fn answer_endless(alloc: Global, file: &[u8]) -> Result<u64, Wrong> {
    let mut checked = database(file)?;
    let mut reader = Endless { reads: 0 };
    let mut written = Vec::new(alloc);
    for turns in [0, 1, 999] {
        let told = run(alloc, &mut checked, &mut reader, &mut written, turns);
        if told != Err(RunFault::Turns) {
            return Err(Wrong::At(turns));
        }
    }
    if written.is_empty() {
        Ok(reader.reads)
    } else {
        Err(Wrong::At(0))
    }
}

/// Answers an input of 100,000 lines, each of which comes by a read of its own. It gives how many
/// were answered.
pub(crate) fn answer_many(alloc: Global, file: &[u8]) -> Result<u64, Wrong> {
    let mut checked = database(file)?;
    let mut reader = Feeds { left: 100_000 };
    let mut written = Vec::new(alloc);
    match run(alloc, &mut checked, &mut reader, &mut written, 1 << 40) {
        Ok(count) if written.len() == 100_000 * "error bad-line\n".len() => Ok(count),
        _ => Err(Wrong::At(0)),
    }
}

/// Puts each byte before a line and after it, and asks another line after that one. It gives the
/// number of inputs.
pub(crate) fn answer_each_byte(alloc: Global, file: &[u8]) -> Result<u64, Wrong> {
    let mut checked = database(file)?;
    for byte in 0..=255 {
        let one = [byte];
        let (before, after) = match byte {
            b'\n' => (
                "error bad-line\nrank 1\nrank 1\n",
                "rank 1\nerror bad-line\nrank 1\n",
            ),
            b'\r' => ("error bad-line\nrank 1\n", "rank 1\nrank 1\n"),
            _ => ("error bad-line\nrank 1\n", "error bad-line\nrank 1\n"),
        };
        let is_right = is_answered(alloc, &mut checked, &one, LINE, before)?
            && is_answered(alloc, &mut checked, LINE, &one, after)?;
        if !is_right {
            return Err(Wrong::At(u64::from(byte)));
        }
    }
    Ok(512)
}

/// A line, without a line feed.
const LINE: &[u8] = b"rank 1,0,0,0,0,0";

/// A line of two parts and then another line are answered with these replies.
fn is_answered<T: Table>(
    alloc: Global,
    checked: &mut Checked<T>,
    first: &[u8],
    second: &[u8],
    replies: &str,
) -> Result<bool, Wrong> {
    let mut input = Vec::new(alloc);
    for part in [first, second, b"\n".as_slice(), LINE, b"\n".as_slice()] {
        input.extend_from_slice(part)?;
    }
    let mut reader = input.as_slice();
    let mut written = Vec::new(alloc);
    let told = run(alloc, checked, &mut reader, &mut written, 1 << 40);
    Ok(told.is_ok() && written.as_slice() == replies.as_bytes())
}
