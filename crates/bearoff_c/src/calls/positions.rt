//! Positions as C has them, with their pips and checkers.
ghost use Rattle.std.specs.Prelude.{◌≡◌, ◌+◌};
ghost use Rattle.race_model.specs.Prelude.{pips as pips_of, checkers as checkers_of};
ghost use Rattle.bearoff_c.specs.Refusals.{many_refusal, status_of};

use crate::statuses::{OK, Refusal};
use home_board::Position;

/// How many checkers stand on the points 1 to 6 of the home board, as the caller says. Each is 0
/// to 255; they are a position where they add up to at most 15.
#[repr(C)]
#[derive(Clone, Copy, Debug, PartialEq, Eq)]
pub struct Counts {
    /// The six counts, that of point 1 first.
    pub points: [u8; 6],
}

impl Counts {
    /// The counts of a position.
    pub fn of(position: &Position) -> Counts
        ensures { result.points ≡ position.now }
    {
        Counts {
            points: [
                position.count(1),
                position.count(2),
                position.count(3),
                position.count(4),
                position.count(5),
                position.count(6),
            ],
        }
    }
}

/// How many checkers a player has.
const ALL_CHECKERS: u8 = 15;

/// The pips and the checkers of a position.
#[repr(C)]
#[derive(Clone, Copy, Debug, PartialEq, Eq)]
pub struct Info {
    /// The pip count, 0 to 90.
    pub pips: u8,

    /// How many checkers are on the board, 0 to 15.
    pub checkers: u8,

    /// How many are borne off: the others of 15.
    pub off: u8,
}

/// The pips and the checkers of a position. Refused as `TooMany`; then `info` is unchanged.
#[unsafe(no_mangle)]
pub extern "C" fn bearoff_position_info(position: &Counts, info: &mut Info) -> u32
    ensures status { result ≡ status_of (many_refusal position.now.points) }
    ensures pips { result ≡ 0 → info.new.pips ≡ pips_of position.now.points }
    ensures checkers { result ≡ 0 → info.new.checkers ≡ checkers_of position.now.points }
    ensures off { result ≡ 0 → info.new.checkers + info.new.off ≡ 15 }
    ensures left { ¬ (result ≡ 0) → info.new ≡ info.old }
{
    let Ok(found) = Position::new(position.points) else {
        return Refusal::TooMany.status();
    };
    let checkers = found.checkers();
    *info = Info {
        pips: found.pips(),
        checkers,
        off: ALL_CHECKERS - checkers,
    };
    OK
}
