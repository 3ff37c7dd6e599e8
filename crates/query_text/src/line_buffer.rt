//! The line that is being read.
ghost use Rattle.std.specs.Prelude.{◌≡◌, ℕ, ◌≤◌, List, [], ◌∷◌, ◌++◌, take, length};
ghost use Rattle.race_model.specs.Prelude.{without_return};

use arrayvec::ArrayVec;
use std::marker::Model;

/// How many bytes of a line are kept. No query has more than 55, so a line of which 130 are kept
/// is none, whatever its other bytes are, and also without a carriage return at its end. (Lines
/// of more than 128 bytes are refused: this project's profile.)
const KEPT: usize = 130;

/// The bytes that were read after the last line feed, of which the first 130 are kept.
#[derive(Drop)]
pub struct LineBuffer {
    bytes: ArrayVec<u8, KEPT>,
}

// Clauses see the bytes that are kept.
impl Model for LineBuffer {
    ghost use Rattle.std.specs.Prelude.{List, ℕ};

    ghost Value = { List ℕ };

    ghost view = { λ buffer. buffer.bytes.items };
}

impl LineBuffer {
    /// No bytes.
    pub fn new() -> Self
        ensures { result ≡ [] }
    {
        LineBuffer {
            bytes: ArrayVec::new(),
        }
    }

    /// Adds bytes, of which as many are kept as make 130.
    pub fn extend(&mut self, bytes: &[u8])
        ensures { self.new ≡ take 130 (self.old ++ bytes.now) }
    {
        let room = KEPT - self.bytes.len();
        let kept = room.min(bytes.len());
        self.bytes.try_extend_from_slice(&bytes[..kept]).unwrap();
    }

    /// Forgets the bytes.
    pub fn clear(&mut self)
        ensures { self.new ≡ [] }
    {
        self.bytes.clear();
    }

    /// The bytes that are kept.
    pub fn rest(&self) -> &[u8]
        ensures { result.now ≡ self.now }
    {
        self.bytes.as_slice()
    }

    /// The bytes that are kept, without the carriage return at their end, if there is one.
    pub fn line(&self) -> &[u8]
        ensures { result.now ≡ without_return self.now }
    {
        without_return(self.bytes.as_slice())
    }
}

/// The bytes of a line that are looked at: the first 130, without the carriage return at their
/// end, if there is one.
#[tactic(auto, using(std::proofs::lemmas::List::take_min))]
pub fn whole_line(bytes: &[u8]) -> &[u8]
    ensures { result.now ≡ without_return (take 130 bytes.now) }
{
    let kept = KEPT.min(bytes.len());
    without_return(&bytes[..kept])
}

/// Some bytes without the carriage return at their end, if there is one.
fn without_return(bytes: &[u8]) -> &[u8]
    ensures { result.now ≡ without_return bytes.now }
{
    match bytes {
        [line @ .., b'\r'] => line,
        line => line,
    }
}
