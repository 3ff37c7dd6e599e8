//! The definitions of `race_model`, computed on small inputs by plain slow programs. What each
//! returns is the definition itself, so that its tests compare the definitions, and not only the
//! program, with values from outside. It rests on `race_model` for the definitions, on
//! `home_board` and `legal_plays` for positions and dice, and in its tests on what `legal_plays`
//! and `ranking` compute fast; no crate stands above it.
#![tactic(auto)]

pub use plays::legal_positions;
pub use ranks::rank_by_counting;
pub use totals::{sequences_of_two, total_over_two};

pub mod plays;
pub mod ranks;
pub mod totals;
