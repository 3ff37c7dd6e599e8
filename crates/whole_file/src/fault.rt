//! Why a file was not written.
ghost use Rattle.std.specs.Prelude.{◌≡◌};
ghost use Rattle.whole_file.specs.declared.fault.DraftFault.TheVariants.{Memory};

use std::alloc::AllocError;
use thiserror::Error;

/// Why a file was not written.
#[derive(Clone, Copy, Debug, PartialEq, Eq, Error)]
pub enum DraftFault {
    /// It can't be opened or made.
    #[error("the file can't be opened or made")]
    Open,

    /// Its bytes can't be written, or it can't be put in its place.
    #[error("the file can't be written or put in its place")]
    Write,

    /// A growth of memory was refused.
    #[error("out of memory")]
    Memory,
}

impl From<AllocError> for DraftFault {
    ghost from_gives = { λ _ fault. fault ≡ Memory };

    fn from(_error: AllocError) -> Self {
        DraftFault::Memory
    }
}
