//! Why a file of version 1 is not written again as one of version 2.
ghost use Rattle.std.specs.Prelude.{◌≡◌};
ghost use Rattle.certificate.specs.declared.upgrade_fault.UpgradeFault.TheVariants.{Read, Write};

use db_layout::WriteFault;
use db_reader::ReadFault;
use thiserror::Error;

/// Why an old file is not written as a new one, in the order of the tests. (This project's
/// profile.)
#[derive(Clone, Copy, Debug, PartialEq, Eq, Error)]
pub enum UpgradeFault {
    /// The file is of version 2 already.
    #[error("not an old file")]
    NotOld,

    /// A record could not be read, or holds what no accepted record can hold: it was changed
    /// since the check.
    #[error("the table could not be read")]
    Read,

    /// A `write` failed, or took no byte.
    #[error("the write failed")]
    Write,
}

impl From<ReadFault> for UpgradeFault {
    ghost from_gives = { λ _ fault. fault ≡ Read };

    fn from(_fault: ReadFault) -> Self {
        UpgradeFault::Read
    }
}

impl From<WriteFault> for UpgradeFault {
    ghost from_gives = { λ _ fault. fault ≡ Write };

    fn from(_fault: WriteFault) -> Self {
        UpgradeFault::Write
    }
}
