//! Positions as players have them: XGIDs, Position IDs and Match IDs of GNU Backgammon, and six
//! counts. It rests on `home_board` and `legal_plays` for positions, rolls and their texts, and on
//! `race_model` for what these are; the crates above may use that what is read is what the text
//! tells, that no text tells two races, and that a text is refused for the first fault that holds.
#![tactic(auto)]

pub use law::{law_one_reading, law_written};
pub use read::read_race;
pub use told::{NoRace, Player, Race, Side, Told};

mod ids;
mod law;
mod letters;
mod parts;
mod read;
mod sides;
mod told;
mod xgid;
