//! Ranks of positions: how many positions come before one. A table that is counted once, and takes
//! no memory, answers both ways with a few look-ups. The crate rests on `home_board` for
//! positions; the crates above may use that `rank` is the number of positions before one, that
//! `unrank` gives the position of each number below 54,264, that `chain` gives the ranks to which
//! one checker goes from a point, and what `first_of` and `count_to` count. These two, and
//! `pips_of`, are functions over constants too, and need no table. `Ranks` is the table with the
//! fact that it is the right one, so none of its contracts speaks of the table; `RankTable` is the
//! table alone, for a struct of C.
#![tactic(auto)]

pub use firsts::{FIRSTS, count_to, first_of, pips_of};
pub use rank_table::RankTable;
pub use ranks::Ranks;

pub mod firsts;
mod left;
mod point_table;
pub mod rank_table;
pub mod ranks;
mod row;
