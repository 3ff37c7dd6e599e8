//! The refusal of a writer.
use thiserror::Error;

/// The refusal of a writer: a `write` failed, or took no byte. What
/// was written before it is a prefix of what was to be written.
#[derive(Clone, Copy, Debug, PartialEq, Eq, Error)]
#[error("the write failed")]
pub struct WriteFault;
