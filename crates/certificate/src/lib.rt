//! The checkers: whether a table has a right database, with the first fault where it hasn't, and
//! the answers of one that has; whether bytes are a right board file, with their first fault where
//! they aren't; and whether they are a right file of any version. They rest on `db_reader` for the
//! records of a table, on `db_layout` for bytes, on `least_plays` for the best plays, on
//! `legal_plays` and `ranking` for whether another number is the rank of a result, on
//! `fixed_fraction` for exact sums, and on `race_model` for the theorem that the local equations,
//! which test each record against records of lower rank alone, hold exactly where a file is right.
//! The crates above may use that an accepted table or board file has the least mean over all
//! strategies; whoever built a file is not trusted.
#![tactic(auto)]

mod check_fault;
mod checked;
mod checker;
mod equations;
mod kept;
mod lines;
mod numbers;
mod play_sums;
mod query_fault;
mod record_check;
mod upgrade_fault;
mod upgrading;

pub use check_fault::CheckFault;
pub use checked::{Checked, check, check_board, is_right};
pub use lines::fault_line;
pub use numbers::spread_in;
pub use query_fault::QueryFault;
pub use upgrade_fault::UpgradeFault;
