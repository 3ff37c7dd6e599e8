//! Why the program ends with another status than 0, and the line that it then writes.
ghost use Rattle.std.specs.Prelude.{◌≡◌, ◌≤◌, length, OnOk};
ghost use Rattle.std.specs.Io.KnownBytes.{Appends};
ghost use Rattle.db_layout.specs.Writes.{AppendsPart};
ghost use Rattle.bearoff_cli.specs.Faults.{of_check, of_build, of_upgrade, of_run, word_of, error_line, status_of};
ghost use Rattle.bearoff_cli.specs.declared.fault.Fault.TheVariants.{Memory, Refused};

use arrayvec::ArrayString;
use certificate::{CheckFault, UpgradeFault, fault_line};
use db_layout::{WriteFault, write_bytes};
use epc_query::RunFault;
use retrograde::BuildFault;
use std::alloc::{AllocError, AllocFailed};
use std::io::Write;
use thiserror::Error;

/// Why the program ends with another status than 0.
#[derive(Clone, Copy, Debug, PartialEq, Eq, Error)]
pub enum Fault {
    /// A file can't be opened or made.
    #[error("a file can't be opened or made")]
    Open,

    /// A file can't be read.
    #[error("a file can't be read")]
    File,

    /// Standard input failed.
    #[error("standard input failed")]
    Read,

    /// Standard output, or a file that is written, failed.
    #[error("an output failed")]
    Write,

    /// A growth of memory was refused.
    #[error("out of memory")]
    Memory,

    /// The input did not end within so many reads.
    #[error("the input did not end")]
    Turns,

    /// The pip bound is over the greatest one.
    #[error("over the greatest bound")]
    OverBound,

    /// The database was refused.
    #[error("the database was refused")]
    Refused(CheckFault),

    /// The database that is to be upgraded is of version 2 already.
    #[error("not an old database")]
    NotOld,

    /// No line of `ask` was answered.
    #[error("no line was answered")]
    Unanswered(Hint),
}

/// What may bring an answer where no line of `ask` has one: a larger file, quotes, or a query; and
/// for `show` a position.
#[derive(Clone, Copy, Debug, PartialEq, Eq)]
pub enum Hint {
    Board,
    Quotes,
    Query,
    Position,
}

impl Fault {
    /// The exit status: 1 a failure, 2 too large a bound, 3 a refused database or no old one.
    pub fn status(&self) -> u8
        ensures { result ≡ status_of self.now }
    {
        match self {
            Fault::OverBound => 2,
            Fault::Refused(_) | Fault::NotOld => 3,
            _ => 1,
        }
    }
}

impl From<AllocError> for Fault {
    ghost from_gives = { λ _ fault. fault ≡ Memory };

    fn from(_error: AllocError) -> Self {
        Fault::Memory
    }
}

impl<T: Drop> From<AllocFailed<T>> for Fault {
    ghost from_gives = { λ _ fault. fault ≡ Memory };

    fn from(_error: AllocFailed<T>) -> Self {
        Fault::Memory
    }
}

impl From<BuildFault> for Fault {
    ghost from_gives = { λ cause fault. fault ≡ of_build cause };

    fn from(fault: BuildFault) -> Self {
        match fault {
            BuildFault::OverBound => Fault::OverBound,
            BuildFault::Memory => Fault::Memory,
            BuildFault::Write => Fault::Write,
        }
    }
}

impl From<CheckFault> for Fault {
    ghost from_gives = { λ cause fault. fault ≡ of_check cause };

    fn from(fault: CheckFault) -> Self {
        match fault {
            CheckFault::Read => Fault::File,
            refused => Fault::Refused(refused),
        }
    }
}

impl From<UpgradeFault> for Fault {
    ghost from_gives = { λ cause fault. fault ≡ of_upgrade cause };

    fn from(fault: UpgradeFault) -> Self {
        match fault {
            UpgradeFault::NotOld => Fault::NotOld,
            UpgradeFault::Read => Fault::File,
            UpgradeFault::Write => Fault::Write,
        }
    }
}

impl From<RunFault> for Fault {
    ghost from_gives = { λ cause fault. fault ≡ of_run cause };

    fn from(fault: RunFault) -> Self {
        match fault {
            RunFault::Read => Fault::Read,
            RunFault::Write => Fault::Write,
            RunFault::Table => Fault::File,
            RunFault::Memory => Fault::Memory,
            RunFault::Turns => Fault::Turns,
        }
    }
}

/// Writes the line of a fault, or where a `write` fails or takes no byte, a prefix of it.
pub fn write_fault<E: Write>(fault: &Fault, errors: &mut E) -> Result<(), WriteFault>
    ensures all { OnOk result
        (Appends (E.contents errors.old) (E.contents errors.new) (error_line fault.now)) }
    ensures part { AppendsPart (E.contents errors.old) (E.contents errors.new)
        (error_line fault.now) }
{
    write_bytes(line(fault).as_str().as_bytes(), errors)
}

/// The line of a fault.
fn line(fault: &Fault) -> ArrayString<96>
    ensures { result.bytes ≡ error_line fault.now }
{
    let mut line = ArrayString::new();
    line.push_str("bearoff: ");
    line.push_str(word(fault).as_str());
    line.push_str("\n");
    line
}

/// The word of a fault.
fn word(fault: &Fault) -> ArrayString<80>
    ensures { result.bytes ≡ word_of fault.now }
{
    match fault {
        Fault::Open => text("open"),
        Fault::File => text("file"),
        Fault::Read => text("read"),
        Fault::Write => text("write"),
        Fault::Memory => text("memory"),
        Fault::Turns => text("turns"),
        Fault::OverBound => text("over-bound"),
        Fault::NotOld => text("not-old"),
        Fault::Unanswered(Hint::Board) => text("unanswered (a board file has all positions)"),
        Fault::Unanswered(Hint::Quotes) => text("unanswered (quote a LINE: 'mean 0,0,0,0,0,1')"),
        Fault::Unanswered(Hint::Query) => {
            text("unanswered (queries: play 0,0,0,2,0,0 21, or mean, dist, loss, moves, rank)")
        }
        Fault::Unanswered(Hint::Position) => text("unanswered (positions: XGID, ID or six counts)"),
        Fault::Refused(refused) => {
            let mut word = text("refused ");
            word.push_str(fault_line(refused).as_str());
            word
        }
    }
}

/// A text.
fn text(text: &str) -> ArrayString<80>
    requires { length text.now ≤ 80 }
    ensures { result.bytes ≡ text.now }
{
    let mut word = ArrayString::new();
    word.push_str(text);
    word
}
