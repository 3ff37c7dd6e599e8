//! Statuses: why a call gives no answer.
ghost use Rattle.std.specs.Prelude.{◌≡◌, ◌<◌, Some, Ok};
ghost use Rattle.bearoff_c.specs.Opening.{fault_status};
ghost use Rattle.bearoff_c.specs.Refusals.{refusal_in, status_of};

use certificate::CheckFault;
use db_layout::HeaderFault;

/// The status of a call that has answered.
pub const OK: u32 = 0;

/// The status of a call whose answer has no room in what the caller lends.
pub const BUFFER_TOO_SMALL: u32 = 8;

/// Why a call gives no answer, in the order of the tests.
#[derive(Clone, Copy, Debug, PartialEq, Eq)]
pub enum Refusal {
    /// The database is not open: it was never opened, or what it was opened with was refused.
    NotOpen,

    /// A die doesn't show a number from 1 to 6.
    BadRoll,

    /// A position has more than 15 checkers.
    TooMany,

    /// The position has more pips than the bound of the database.
    OverBound,

    /// A play was asked for where no checker is left.
    Finished,

    /// The roll doesn't lead to the position whose loss is asked.
    NotLegal,

    /// A record holds what no accepted record can hold: the bytes were changed since the check.
    Changed,

    /// The database has no position of the rank, or fewer than asked from there on.
    NoRank,

    /// The text is no position.
    BadText,
}

impl Refusal {
    /// The status of the refusal: 1 to 7, 10 or 11.
    pub fn status(self) -> u32
        ensures value { result ≡ status_of (Some self) }
        ensures positive { 0 < result }
    {
        match self {
            Refusal::NotOpen => 1,
            Refusal::BadRoll => 2,
            Refusal::TooMany => 3,
            Refusal::OverBound => 4,
            Refusal::Finished => 5,
            Refusal::NotLegal => 6,
            Refusal::Changed => 7,
            Refusal::NoRank => 10,
            Refusal::BadText => 11,
        }
    }
}

/// Writes what was found to the caller's variable, and returns the status of the call. A refusal
/// has a status of its own, and writes nothing.
pub fn put<T: Copy>(found: Result<T, Refusal>, to: &mut T) -> u32
    ensures status { result ≡ status_of (refusal_in found) }
    ensures found { result ≡ 0 → found ≡ Ok to.new }
    ensures left { ¬ (result ≡ 0) → to.new ≡ to.old }
{
    match found {
        Ok(found) => {
            *to = found;
            OK
        }
        Err(refusal) => refusal.status(),
    }
}

/// The status of a fault of a file: 16 to 27, and 28 for a read that failed, which bytes in memory
/// never do.
pub fn fault_status(fault: &CheckFault) -> u32
    ensures { result ≡ fault_status fault.now }
{
    match *fault {
        CheckFault::Header(HeaderFault::TooShort) => 16,
        CheckFault::Header(HeaderFault::BadMagic) => 17,
        CheckFault::Header(HeaderFault::BadVersion) => 18,
        CheckFault::Header(HeaderFault::BadBound) => 19,
        CheckFault::Header(HeaderFault::BadCount) => 20,
        CheckFault::Header(HeaderFault::BadRecordBytes) => 21,
        CheckFault::Header(HeaderFault::BadReserved) => 22,
        CheckFault::Header(HeaderFault::BadLength) => 23,
        CheckFault::Play { .. } => 24,
        CheckFault::NotLeast { .. } => 25,
        CheckFault::Mean { .. } => 26,
        CheckFault::Spread { .. } => 27,
        CheckFault::Read => 28,
    }
}
