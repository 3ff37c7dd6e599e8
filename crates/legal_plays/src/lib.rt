//! Dice, and what a roll can do with a position: the steps of a die, the positions that a roll can
//! reach, and the play that reaches one of them. It rests on `home_board` for positions and on
//! `race_model` for the rules; the crates above may use that `results` has exactly the legal
//! positions, each once and by rising rank, and that `play_to` is the first play to its target,
//! which exists exactly where the target is legal.
//!
//! A legal play goes on until the dice are used or no checker is left, and nothing asks that the
//! most dice be used: by `race_model`'s law of the most dice that would reach the same positions.
#![tactic(auto)]

pub use die::Die;
pub use moves::Move;
pub use plays::{Play, play_to};
pub use reach::results;
pub use roll::Roll;
pub use steps::step;
pub use text::{parse_roll, write_play};

pub mod die;
pub mod moves;
pub mod plays;
pub mod reach;
pub mod roll;
pub mod steps;
pub mod text;
