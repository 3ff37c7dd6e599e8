//! The command line of `bearoff`: what its words ask for, and its help. (The words are this
//! project's profile.)
#![tactic(auto)]

mod commands;
mod words;

pub use words::{Request, WordsError, read_words};
