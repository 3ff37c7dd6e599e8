//! Answers over a table whose records are read page by page, by what a check of it has kept.

pub(crate) mod answers;
pub(crate) mod levels;
pub(crate) mod losses;
pub(crate) mod moves;
