//! The prompt that stands before each line of standard input where it is typed at a terminal.
ghost use Rattle.std.specs.Prelude.{◌≡◌, [], take, MatchResult};
ghost use Rattle.std.specs.Io.KnownBytes.{ReadConsumes};
ghost use Rattle.std.specs.Io.{ReadsAtMost};
ghost use Rattle.bearoff_cli.specs.TypedLines.{HandsOn, IsTyped, handed_on, is_help};

use std::io;
use std::io::{Read, Write};

const PROMPT: &str = "> ";

const HELP: &str =
    "Lines: mean, dist or rank and a position; play or moves, a position and a roll; loss, a
position, a roll and a position. A position is six counts, that of the ace point first, of
at most 8 pips where no file is named: mean 0,0,0,0,0,1. A roll is two digits:
play 0,0,0,2,0,0 21. An empty line or help shows this, and quit or Ctrl-D ends the input.
";

/// How many helps there are at most before one line.
const MOST_HELPS: u64 = 1 << 40;

/// An input of lines. Where they are typed, a help stands before the first and a prompt before
/// each; a read of an empty line or `help` alone is answered here, and `quit` alone ends it.
#[derive(Drop)]
pub struct Prompted<'a, I, T> {
    input: &'a mut I,
    terminal: Option<&'a mut T>,
    is_begun: bool,
}

impl<'a, I, T> Prompted<'a, I, T> {
    /// An input, and the terminal at which its lines are typed, if they are.
    pub fn new(input: &'a mut I, terminal: Option<&'a mut T>) -> Self
        ensures input { result.input.now ≡ input.old }
        ensures terminal { result.terminal ≡ terminal.entry }
    {
        Prompted {
            input,
            terminal,
            is_begun: false,
        }
    }
}

impl<I: Read, T: Write> Read for Prompted<'_, I, T> {
    ghost remaining = { λ prompted. handed_on (I.remaining prompted.input.now) prompted.terminal };

    fn read(&mut self, buf: &mut [u8]) -> io::Result<usize>
        ensures bound { ReadsAtMost result buf.new }
        ensures bytes { ReadConsumes (handed_on (I.remaining self.old.input.now) self.old.terminal)
            (handed_on (I.remaining self.new.input.now) self.new.terminal) result buf.new }
        ensures typed { MatchResult result
            (λ count. IsTyped (I.remaining self.old.input.now) (I.remaining self.new.input.now)
            (take count buf.new))
            (λ _. HandsOn (I.remaining self.old.input.now) (I.remaining self.new.input.now) []) }
    {
        let Some(terminal) = &mut self.terminal else {
            return self.input.read(buf);
        };
        if !self.is_begun {
            self.is_begun = true;
            let _ = terminal.write_all(HELP.as_bytes());
        }
        for _help in 0..MOST_HELPS {
            let _ = terminal.write_all(PROMPT.as_bytes());
            let count = self.input.read(buf)?;
            let line = &buf[..count];
            if line == b"quit\n".as_slice() {
                return Ok(0);
            }
            if !is_help(line) {
                return Ok(count);
            }
            let _ = terminal.write_all(HELP.as_bytes());
        }
        self.input.read(buf)
    }
}

/// Whether a line asks for the help: it is empty, or `help`.
fn is_help(line: &[u8]) -> bool
    ensures { result ≡ is_help line.now }
{
    line == b"\n".as_slice() || line == b"help\n".as_slice()
}
