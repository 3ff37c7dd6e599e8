//! Why a run over the lines of an input stops before its end.
use thiserror::Error;

/// Why the answers to the lines of an input stopped.
#[derive(Clone, Copy, Debug, PartialEq, Eq, Error)]
pub enum RunFault {
    /// The reader failed.
    #[error("the input could not be read")]
    Read,

    /// The writer failed, or took no byte.
    #[error("the replies could not be written")]
    Write,

    /// A record of the database could not be read, or holds numbers that no accepted record can
    /// hold.
    #[error("the table could not be read")]
    Table,

    /// There was no memory for a list of moves.
    #[error("no memory")]
    Memory,

    /// The input had no end after so many reads.
    #[error("too many reads")]
    Turns,
}
