//! Why an accepted table has no answer to a question.
use thiserror::Error;

/// Why a query is refused, in the order of the tests.
#[derive(Clone, Copy, Debug, PartialEq, Eq, Error)]
pub enum QueryFault {
    /// The position has more pips than the bound of the database.
    #[error("more pips than the bound")]
    OverBound,

    /// A play was asked for where no checker is left.
    #[error("no checker is left")]
    Finished,

    /// The roll doesn't lead to the position that was asked for.
    #[error("no legal play")]
    NotLegal,

    /// There was no memory for the answer.
    #[error("no memory")]
    Memory,

    /// A record could not be read, or holds what no accepted record can hold: it was changed
    /// since the check.
    #[error("the table could not be read")]
    Read,
}
