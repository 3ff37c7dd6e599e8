//! Positions as players have them, for C.
ghost use Rattle.std.specs.Prelude.{◌≡◌, Result};
ghost use Rattle.notation.specs.Readings.{IsReading};
ghost use Rattle.notation.specs.declared.told.NoRace.{NoRace as Fault};
ghost use Rattle.notation.specs.declared.told.Race.{Race as Told};
ghost use Rattle.bearoff_c.specs.Notations.{Shows, IsAnswer, no_race_status, place_of};

use crate::calls::positions::Counts;
use crate::statuses::{OK, Refusal};
use home_board::Position;
use notation::{NoRace, Player, Race, Side, read_race};

/// What a text tells of a race, with zeros for what it doesn't tell.
#[repr(C)]
#[derive(Clone, Copy, Debug, PartialEq, Eq)]
pub struct ReadRace {
    /// The checkers of the player on roll.
    pub mine: Counts,

    /// Those of the other player.
    pub theirs: Counts,

    /// Whether the text tells the other player's.
    pub has_theirs: bool,

    /// The greater die, 1 to 6.
    pub high: u8,

    /// The smaller die, 1 to 6.
    pub low: u8,

    /// The player on roll: 1 is the one at the bottom, and 2 the one at the top.
    pub on_roll: u8,
}

impl ReadRace {
    fn of(race: &Race) -> ReadRace
        ensures { Shows race.now result }
    {
        let theirs = race.theirs.unwrap_or(Position::EMPTY);
        let (high, low) = match race.roll {
            Some(roll) => (roll.high().number(), roll.low().number()),
            None => (0, 0),
        };
        ReadRace {
            mine: Counts::of(&race.mine),
            theirs: Counts::of(&theirs),
            has_theirs: race.theirs.is_some(),
            high,
            low,
            on_roll: match race.on_roll {
                Some(Player::Bottom) => 1,
                Some(Player::Top) => 2,
                None => 0,
            },
        }
    }
}

/// The status of a text that is no race: 11, 3, or 32 to 36.
fn no_race_status(fault: NoRace) -> u32
    ensures { result ≡ no_race_status fault }
{
    match fault {
        NoRace::BadText => Refusal::BadText.status(),
        NoRace::TooMany(_) => Refusal::TooMany.status(),
        NoRace::SamePoint(_) => 32,
        NoRace::OnBar(_) => 33,
        NoRace::Outside(_) => 34,
        NoRace::Contact(_) => 35,
        NoRace::OtherOutside(_) => 36,
    }
}

/// Where it is none: a point, or whose checkers, 1 for those of the player on roll.
fn place_of(fault: NoRace) -> u8
    ensures { result ≡ place_of fault }
{
    match fault {
        NoRace::BadText => 0,
        NoRace::TooMany(Side::Mine) | NoRace::OnBar(Side::Mine) => 1,
        NoRace::TooMany(Side::Theirs) | NoRace::OnBar(Side::Theirs) => 2,
        NoRace::SamePoint(point)
        | NoRace::Outside(point)
        | NoRace::Contact(point)
        | NoRace::OtherOutside(point) => point,
    }
}

/// The race of a text: an XGID, a Position ID of GNU Backgammon with or without a Match ID, or six
/// counts. Refused as `BadText`, `TooMany`, or by a status from 32 on, with the place of that;
/// then `race` stays as it was.
#[unsafe(no_mangle)]
pub extern "C" fn bearoff_read_position(text: &[u8], race: &mut ReadRace, place: &mut u8) -> u32
    ensures { (r : Result Told Fault) × IsReading text.now r
        × IsAnswer r result race.old race.new place.new }
{
    match read_race(text) {
        Ok(read) => {
            *race = ReadRace::of(&read);
            *place = 0;
            OK
        }
        Err(fault) => {
            *place = place_of(fault);
            no_race_status(fault)
        }
    }
}
