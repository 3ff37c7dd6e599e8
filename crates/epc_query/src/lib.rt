//! Questions about positions in lines of text, and the replies: what a play costs, all results of
//! a roll by what they cost, the levels of an audit, the answer to a line, and the answers to all
//! lines of an input; from a table, and from bytes that somebody lends, a database or a board file.
//! It rests on `certificate` for the check of files and the answers of an accepted table, whatever
//! table that is, on `db_layout` for the records of lent bytes, on `legal_plays` for plays and
//! results, on `fixed_fraction` for exact numbers, on `query_text` for what a line asks and the
//! texts of replies, and on `race_model` for what each answer is and how an input is cut into
//! lines.
//!
//! The crates above may use that a loss is the least mean after a result less the least such mean
//! among all results, that a list of moves has every result once, in order, that lent bytes are
//! opened exactly where they are a right file, that each answer is what the definitions say of such
//! a file, and that `run` writes the replies to the lines that it read and nothing else. What lent
//! bytes say is a book over 33 throws, whatever their kind, and all that is asked of it is here
//! once, with no memory of its own and no state: `database` and `whole_board` find a record and
//! read its mean, its plays and its shares. Where somebody changes the bytes meanwhile no call
//! reads outside them: what reads them, `lent_records` and `lent_board`, knows how many they are,
//! and nothing of what they are.
#![tactic(auto)]

mod answers;
mod choices;
mod database;
pub mod laws;
mod lent_board;
mod lent_records;
mod levels;
mod lines;
mod losses;
mod move_lists;
mod opened;
mod pages;
mod reads;
mod run_fault;
mod running;
mod whole_board;

pub use answers::Answers;
pub use choices::{MOST_RESULTS, RankedChoice, include_choice};
pub use database::Database;
pub use opened::{Accepted, Opened, Rounded, accept_as, accept_stated, stated_kind};
pub use pages::answers::{Stop, answer_line};
pub use pages::levels::audit_level;
pub use pages::losses::loss;
pub use pages::moves::moves;
pub use query_text::{Choice, Level, Refusal, Reply, Text, write_level, write_reply};
pub use run_fault::RunFault;
pub use running::{run, run_lines};
pub use whole_board::MOST_ROLLS;
