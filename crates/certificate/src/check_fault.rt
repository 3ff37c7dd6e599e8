//! Why a file is refused: the faults of a record behind those of the header.
ghost use Rattle.std.specs.Prelude.{◌≡◌};
ghost use Rattle.certificate.specs.RecordFaults.{of_refused};
ghost use Rattle.certificate.specs.CheckFaults.{of_record_at};

use db_layout::HeaderFault;
use least_plays::{PlayFault, RefusedPlay};
use thiserror::Error;

/// Why a table, or a board file, is refused: the first fault, in this order, by rising rank. (This
/// project's profile.)
#[derive(Clone, Copy, Debug, PartialEq, Eq, Error)]
pub enum CheckFault {
    /// The bytes are no database, or no board file: the first fault of the header.
    #[error("the header has a fault")]
    Header(HeaderFault),

    /// The roll can't lead to the recorded rank. The position is given by its rank, the roll by
    /// its index.
    #[error("rank {rank}, roll {roll}: no legal play")]
    Play { rank: u16, roll: u8 },

    /// The roll leads to a position with a smaller recorded mean than the recorded one.
    #[error("rank {rank}, roll {roll}: not the least mean")]
    NotLeast { rank: u16, roll: u8 },

    /// The recorded mean is wrong: not one roll plus the weighted mean after the recorded plays,
    /// or not 0 for the finished position; or that of a board file is not written in the one way.
    #[error("rank {rank}: the mean")]
    Mean { rank: u16 },

    /// The recorded share of exactly `k` rolls is not that of what is recorded, one roll later; or
    /// the count that tells it in a board file is not written in the one way.
    #[error("rank {rank}, {k} rolls: the share")]
    Spread { rank: u16, k: u8 },

    /// The table could not be read. Also if a record that is read again holds what no accepted
    /// record can hold. A board file lies in memory, and has no such fault.
    #[error("the table could not be read")]
    Read,
}

/// The first fault of a record.
#[derive(Clone, Copy, Debug, PartialEq, Eq, Error)]
pub enum RecordFault {
    /// What is recorded for this roll, by its index, is no legal result.
    #[error("roll {roll}: no legal play")]
    Play { roll: u8 },

    /// A legal result of this roll has a smaller mean than the recorded one.
    #[error("roll {roll}: not the least mean")]
    NotLeast { roll: u8 },

    /// The mean is not the expected one.
    #[error("the mean")]
    Mean,

    /// The share of exactly `k` rolls is not the expected one.
    #[error("{k} rolls: the share")]
    Spread { k: u8 },

    /// A record could not be read.
    #[error("a record could not be read")]
    Read,
}

/// A refused play as a fault of the record.
pub(crate) fn of_refused(refused: RefusedPlay) -> RecordFault
    ensures { result ≡ of_refused refused.roll refused.fault }
{
    match refused.fault {
        PlayFault::NotLegal => RecordFault::Play { roll: refused.roll },
        PlayFault::NotLeast => RecordFault::NotLeast { roll: refused.roll },
    }
}

/// The fault of the record of a rank, as a fault of the file.
pub(crate) fn fault_at(rank: u16, fault: RecordFault) -> CheckFault
    ensures { result ≡ of_record_at rank fault }
{
    match fault {
        RecordFault::Play { roll } => CheckFault::Play { rank, roll },
        RecordFault::NotLeast { roll } => CheckFault::NotLeast { rank, roll },
        RecordFault::Mean => CheckFault::Mean { rank },
        RecordFault::Spread { k } => CheckFault::Spread { rank, k },
        RecordFault::Read => CheckFault::Read,
    }
}
