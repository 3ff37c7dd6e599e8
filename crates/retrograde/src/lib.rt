//! The builders of a bearoff database and of the board file: from the finished position up, each
//! position's record comes from the records of the positions that its rolls lead to, by the least
//! mean. They rest on `db_layout` for the bytes, `least_plays` for the best play of each roll,
//! `legal_plays` for all results of one, `ranking` for their ranks and `fixed_fraction` for the
//! exact numbers; the crates above may use that a build without a fault writes the built file of
//! its version and its bound, and nothing else, and that there is one such file.
#![tactic(auto)]

pub use board_build_fault::BoardBuildFault;
pub use build_fault::BuildFault;
pub use building::{build, build_compact, usual_version};
pub use in_room::{build_board, build_in_room};
pub use laws::law_built_boards;
pub use means::Means;
pub use plays::best_play;

pub mod board_build_fault;
mod board_record;
pub mod build_fault;
pub mod building;
pub mod in_room;
mod kept_shares;
pub mod laws;
mod level;
pub mod means;
pub mod plays;
mod pulling;
mod records;
