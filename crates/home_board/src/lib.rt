//! Positions of one player's checkers in the home board, and their text. It rests on `race_model`
//! for what a position is; the crates above may use that each `Position` is one, and that its text
//! is read exactly where it is one.
#![tactic(auto)]

pub use position::{MAX_BOUND, OLD_BOUND, Position, TooMany};
pub use text::{PositionFault, parse_position, write_position};

pub mod position;
pub mod text;
