//! A file that is written as a whole, on a disk that may crash at any moment.
#![tactic(auto)]

mod disk;
mod draft;
mod fault;
mod paths;
mod system;

pub use disk::{Disk, DiskFault, FileFacts, Link, Made};
pub use draft::{Draft, begin};
pub use fault::DraftFault;
pub use paths::name_of;
pub use system::{SystemDisk, SystemFile};
