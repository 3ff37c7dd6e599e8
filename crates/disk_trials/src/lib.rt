//! A disk in memory that tells its moments, for tests of what is written on a disk that may crash.
//! Its impl shows that the clauses of `Disk` can be met together by a disk whose calls succeed.
#![tactic(auto)]

#[cfg(test)]
mod crashing;
mod disk;
mod events;

pub use disk::{MemoryDisk, MemoryFile};
