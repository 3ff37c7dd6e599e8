//! A writer for tests of what writes.
ghost use Rattle.std.specs.Prelude.{◌≡◌, [], Some};

use std::alloc::Global;
use std::io;
use std::io::Write;

/// What a writer does at a call of `write` that it refuses.
#[derive(Clone, Copy)]
pub enum WriteRefusal {
    /// It fails.
    Fails,

    /// It takes no byte.
    TakesNothing,
}

/// A writer for tests that refuses one call of `write`. It keeps what it is given, and takes a
/// limited number of bytes per call: for tests of what happens where one write fails or takes
/// nothing (this project's profile).
#[derive(Drop)]
pub struct RefuseAt {
    /// What it took.
    pub written: Vec<u8>,

    /// How often `write` was called.
    pub calls: u64,

    /// The number of the call of `write` that it refuses, counted from 1; 0 where it refuses none.
    pub refused: u64,

    /// How many bytes it held when it was last flushed.
    pub flushed: usize,

    /// Whether its flushes fail.
    pub flush_fails: bool,

    takes: usize,
    refusal: WriteRefusal,
}

impl RefuseAt {
    /// A writer that takes at most `takes` bytes per call and refuses call number `refused`. Calls
    /// are counted from 1; 0 refuses none.
    pub fn new(alloc: Global, takes: usize, refused: u64, refusal: WriteRefusal) -> Self
        ensures { ⟦<RefuseAt as Write>⟧.contents result ≡ Some [] }
    {
        RefuseAt {
            written: Vec::new(alloc),
            calls: 0,
            refused,
            flushed: 0,
            flush_fails: false,
            takes,
            refusal,
        }
    }

    /// A writer that takes at most so many bytes a call, and refuses none.
    pub fn never(alloc: Global, takes: usize) -> Self
        ensures { ⟦<RefuseAt as Write>⟧.contents result ≡ Some [] }
    {
        RefuseAt::new(alloc, takes, 0, WriteRefusal::Fails)
    }
}

impl Write for RefuseAt {
    ghost contents = { λ trial. Some trial.written.items };

    fn write(&mut self, buf: &[u8]) -> io::Result<usize> {
        self.calls = self.calls.saturating_add(1);
        if self.calls == self.refused {
            return match self.refusal {
                WriteRefusal::Fails => Err(io::Error::from(io::ErrorKind::Other)),
                WriteRefusal::TakesNothing => Ok(0),
            };
        }
        let taken = &buf[..buf.len().min(self.takes)];
        self.written.extend_from_slice(taken)?;
        Ok(taken.len())
    }

    fn flush(&mut self) -> io::Result<()> {
        if self.flush_fails {
            return Err(io::Error::from(io::ErrorKind::Other));
        }
        self.flushed = self.written.len();
        Ok(())
    }
}
