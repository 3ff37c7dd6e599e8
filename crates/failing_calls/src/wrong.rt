//! How a trial can go wrong.
use certificate::{Checked, check};
use db_reader::{Table, Whole};
use std::alloc::AllocError;

/// Why a trial ends before its last call.
#[derive(Clone, Copy, Debug, PartialEq, Eq)]
pub enum Wrong {
    /// There was no memory for the trial itself.
    Memory,

    /// Where this call failed, something else was answered than what has to be.
    At(u64),
}

impl From<AllocError> for Wrong {
    fn from(_error: AllocError) -> Self {
        Wrong::Memory
    }
}

/// The database of a table that has to be accepted.
pub(crate) fn accepted<T: Table + Drop>(table: T, call: u64) -> Result<Checked<T>, Wrong> {
    match check(table) {
        Ok(checked) => Ok(checked),
        Err(_) => Err(Wrong::At(call)),
    }
}

/// The database in these bytes.
pub(crate) fn database(file: &[u8]) -> Result<Checked<Whole<'_>>, Wrong> {
    accepted(Whole::new(file), 0)
}

/// As much of a text as its first lines, each with its line feed.
pub(crate) fn first_lines(text: &[u8], count: usize) -> &[u8] {
    let mut left = count;
    for (place, byte) in text.iter().enumerate() {
        if left == 0 {
            return &text[..place];
        }
        if *byte == b'\n' {
            left -= 1;
        }
    }
    text
}

/// What stands after the first lines of a text.
pub(crate) fn lines_after(text: &[u8], count: usize) -> &[u8] {
    let first = first_lines(text, count).len();
    text.get(first..).unwrap_or(b"")
}

/// How many line feeds there are.
pub(crate) fn count_lines(text: &[u8]) -> usize {
    text.iter().filter(|byte| **byte == b'\n').count()
}
