//! Why a build is refused.
ghost use Rattle.std.specs.Prelude.{◌≡◌};
ghost use Rattle.retrograde.specs.declared.build_fault.BuildFault.TheVariants.{Memory, Write};

use db_layout::WriteFault;
use std::alloc::AllocError;
use thiserror::Error;

/// Why a build is refused.
#[derive(Clone, Copy, Debug, PartialEq, Eq, Error)]
pub enum BuildFault {
    /// The pip bound is over 58.
    #[error("over the greatest bound")]
    OverBound,

    /// There was not enough memory.
    #[error("out of memory")]
    Memory,

    /// A `write` failed, or took no byte.
    #[error("the write failed")]
    Write,
}

impl From<WriteFault> for BuildFault {
    ghost from_gives = { λ _ fault. fault ≡ Write };

    fn from(_fault: WriteFault) -> Self {
        BuildFault::Write
    }
}

impl From<AllocError> for BuildFault {
    ghost from_gives = { λ _ fault. fault ≡ Memory };

    fn from(_error: AllocError) -> Self {
        BuildFault::Memory
    }
}
