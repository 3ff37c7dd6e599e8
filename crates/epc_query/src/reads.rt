//! The reads of an input: so many at most, and none behind one that gave no byte or failed.
ghost use Rattle.std.specs.Prelude.{◌≡◌, ℕ, ◌+◌, ◌<◌, IsTrue, true, false, Ok, Err, IsErr};
ghost use Rattle.std.specs.Io.{ReadsAtMost};
ghost use Rattle.std.specs.Io.KnownBytes.{ReadConsumes};

use std::io;
use std::io::Read;

/// A reader that is read so many times at most, and not again once it gave no byte or failed. What
/// is lent it can't be read in another way meanwhile.
#[derive(Drop)]
pub struct Reads<'a, R> {
    reader: &'a mut R,
    left: u64,
    is_over: bool,
}

impl<'a, R: Read> Reads<'a, R> {
    /// So many reads of a reader.
    pub fn new(reader: &'a mut R, left: u64) -> Self
        ensures reader { result.reader.now ≡ reader.old }
        ensures same_reference { result.reader.ghost_name ≡ reader.entry.ghost_name }
        ensures left { result.left ≡ left }
        ensures going { result.is_over ≡ false }
    {
        Reads {
            reader,
            left,
            is_over: false,
        }
    }

    /// The next bytes.
    pub fn next(&mut self, buf: &mut [u8]) -> io::Result<usize>
        requires left { 0 < self.old.left }
        requires going { self.old.is_over ≡ false }
        ensures same_reference { self.new.reader.ghost_name ≡ self.old.reader.ghost_name }
        ensures bound { ReadsAtMost result buf.new }
        ensures bytes { ReadConsumes (R.remaining self.old.reader.now)
            (R.remaining self.new.reader.now) result buf.new }
        ensures left { self.old.left ≡ self.new.left + 1 }
        ensures going { (n : ℕ) → result ≡ Ok n → 0 < n → self.new.is_over ≡ false }
    {
        self.left -= 1;
        let result = self.reader.read(buf);
        self.is_over = !matches!(result, Ok(taken) if taken > 0);
        result
    }
}
