//! What a roll is played with: the recorded play, and the play to a position.
ghost use Rattle.std.specs.Prelude.{◌≡◌, ◌<◌, ◌≤◌, IfOk, map, take, length};
ghost use Rattle.race_model.specs.Prelude.{Legal};
ghost use Rattle.legal_plays.specs.Faces.{face, roll_of};
ghost use Rattle.legal_plays.specs.MoveLists.{moves_of};
ghost use Rattle.bearoff_c.specs.ChoiceLists.{AreZerosAfter};
ghost use Rattle.bearoff_c.specs.Refusals.{IsStatusOr, lead_refusal, roll_refusal, refusal_in, status_of};
ghost use Rattle.bearoff_c.specs.Told.{SaysPlayTo};

use crate::calls::positions::Counts;
use crate::statuses::{Refusal, put};
use home_board::Position;
use legal_plays::{Die, Play, Roll, play_to};

/// One checker's move.
#[repr(C)]
#[derive(Clone, Copy, Debug, PartialEq, Eq)]
pub struct Move {
    /// The point that the checker leaves, 1 to 6.
    pub from: u8,

    /// The point that it comes to, below `from`; 0 for a checker that is borne off.
    pub to: u8,
}

/// A play, and the position that it leads to.
#[repr(C)]
#[derive(Clone, Copy, Debug, PartialEq, Eq)]
pub struct RecordedPlay {
    /// The moves in the order in which they are made, and zeros after the last.
    pub moves: [Move; 4],

    /// How many moves there are, 1 to 4.
    pub count: u8,

    /// The position that the play leads to.
    pub to: Counts,
}

/// The roll of two dice. Refused as `BadRoll` where one doesn't show a number from 1 to 6.
pub fn read_roll(one: u8, other: u8) -> Result<Roll, Refusal>
    ensures refusal { refusal_in result ≡ roll_refusal one other }
    ensures value { IfOk result (λ roll. roll ≡ roll_of (face one) (face other)) }
{
    match (Die::new(one), Die::new(other)) {
        (Some(one), Some(other)) => Ok(Roll::new(one, other)),
        _ => Err(Refusal::BadRoll),
    }
}

/// A roll, and the positions before and after a play of it.
#[derive(Clone, Copy)]
pub struct Ends {
    pub roll: Roll,
    pub before: Position,
    pub after: Position,
}

/// A roll, given by its two dice in either order, and two positions. Refused exactly as
/// `lead_refusal` says.
pub fn read_ends(position: &Counts, one: u8, other: u8, to: &Counts) -> Result<Ends, Refusal>
    ensures refusal { refusal_in result
        ≡ lead_refusal position.now.points one other to.now.points }
    ensures roll { IfOk result (λ ends. ends.roll ≡ roll_of (face one) (face other)) }
    ensures before { IfOk result (λ ends. ends.before ≡ position.now.points) }
    ensures after { IfOk result (λ ends. ends.after ≡ to.now.points) }
{
    let roll = read_roll(one, other)?;
    match (Position::new(position.points), Position::new(to.points)) {
        (Ok(before), Ok(after)) => Ok(Ends {
            roll,
            before,
            after,
        }),
        _ => Err(Refusal::TooMany),
    }
}

/// The moves of a play, and zeros after the last.
pub fn listed(play: &Play) -> [Move; 4]
    ensures moves { map (λ m. (m.from, m.to)) (take (length play.now.items) result)
        ≡ moves_of play.now.items }
    ensures zeros { AreZerosAfter (length play.now.items) result }
    ensures few { length play.now.items ≤ 4 }
{
    let mut moves = [Move { from: 0, to: 0 }; 4];
    for (index, one) in play.as_slice().iter().enumerate() {
        moves[index] = Move {
            from: one.from,
            to: one.to,
        };
    }
    moves
}

/// The first play of a roll that leads from a position to another. Refused as `bearoff_play_to` is.
fn first_play(position: &Counts, one: u8, other: u8, to: &Counts) -> Result<RecordedPlay, Refusal>
    ensures refusal { IsStatusOr 6
        (¬ Legal position.now.points (roll_of (face one) (face other)) to.now.points)
        (lead_refusal position.now.points one other to.now.points)
        (status_of (refusal_in result)) }
    ensures play { IfOk result (SaysPlayTo
        position.now.points (roll_of (face one) (face other)) to.now.points) }
{
    let ends = read_ends(position, one, other, to)?;
    let Some(found) = play_to(&ends.before, ends.roll, &ends.after) else {
        return Err(Refusal::NotLegal);
    };
    Ok(RecordedPlay {
        moves: listed(&found),
        count: found.len() as u8,
        to: Counts::of(&ends.after),
    })
}

/// The first play of a roll, given by its two dice in either order, that leads from a position to
/// another. Refused as `BadRoll` where a die isn't 1 to 6, else as `TooMany` where one of the
/// positions has more than 15 checkers, and else as `NotLegal` where the roll doesn't lead there;
/// then `play` stays as it was.
#[unsafe(no_mangle)]
pub extern "C" fn bearoff_play_to(
    position: &Counts,
    one: u8,
    other: u8,
    to: &Counts,
    play: &mut RecordedPlay,
) -> u32
    ensures status { IsStatusOr 6
        (¬ Legal position.now.points (roll_of (face one) (face other)) to.now.points)
        (lead_refusal position.now.points one other to.now.points) result }
    ensures play { result ≡ 0 → SaysPlayTo
        position.now.points (roll_of (face one) (face other)) to.now.points play.new }
    ensures left { ¬ (result ≡ 0) → play.new ≡ play.old }
{
    put(first_play(position, one, other, to), play)
}
