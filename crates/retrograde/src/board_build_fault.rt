//! Why a board file is not built.
use thiserror::Error;

/// Why a board file is not built.
#[derive(Clone, Copy, Debug, PartialEq, Eq, Error)]
pub enum BoardBuildFault {
    /// The pip bound is over 90.
    #[error("over the greatest bound")]
    OverBound,

    /// The room is smaller than the file.
    #[error("too little room")]
    Room,
}
