//! What a file says of a race, in decimals and exact: for people, and for other programs. It rests
//! on `notation` for what a text tells, on `epc_query` for what the file says, and on `query_text`
//! for the texts of numbers; the crates above may use that each number of a summary is that of the
//! file's book, rounded as it says.
#![tactic(auto)]

pub use crate::lines::{Form, write_summary};
pub use crate::sides::Side;
pub use crate::words::{Given, read_roll, split};

mod json;
mod lines;
mod plain;
mod refusals;
mod sides;
mod values;
mod words;
mod writing;
