//! The best plays of a position, die by die: of the results of each roll the one of least mean
//! and, of equal means, of the lowest rank. A result of a roll is what the rest of its dice lead
//! to from a position one step on; so with a few numbers kept of each position of the last levels
//! of pips, the 21 best plays of the next one need its steps alone, and no list of results. The
//! crate rests on `legal_plays` for steps and on `ranking` for ranks; the crates above may use
//! that `advance` answers the best play of each roll. No contract says how the numbers are kept.
#![tactic(auto)]

pub use means::RankedMeans;
pub use recorded::{PlayFault, RefusedPlay, check_plays};
pub use room::{LeastPlays, ROWS_TO_8, ROWS_TO_90};

pub mod means;
pub mod recorded;
pub mod room;
mod starts;
