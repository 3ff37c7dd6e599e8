//! What a bearoff database is, in definitions alone: positions, dice and plays, ranks, the
//! database file and the equations that its records meet. The definitions stand in `specs/`, a
//! module per subject, and nothing here computes: the crates above cite these words in their
//! contracts. The module `laws` has the facts about the definitions that the crates above may use.
//! It stands on `std` alone.
//!
//! Each file of definitions names its source: the rules of backgammon, the manual of GNU
//! Backgammon, or this project's profile, which is what this project chose where these leave it
//! open: the file with its faults, the order of ranks and of rolls, the texts of positions, rolls,
//! moves and replies, the order in which a play is looked for, and which of equal plays is
//! recorded.
#![tactic(auto)]

pub mod laws;
