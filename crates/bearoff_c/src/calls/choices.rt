//! What a roll is played with by a file of any version, and what plays cost.
ghost use Rattle.std.specs.Prelude.{◌≡◌, ℕ, ◌<◌, ◌≤◌, true, IsSome, IfSome, IfOk, All, length, map, take, drop};
ghost use Rattle.std.specs.Prelude.{nat_le, if◌then◌else◌};
ghost use Rattle.race_model.specs.Prelude.{Board as Place, pips, Legal, Throw, Book, whole_in, loss_in};
ghost use Rattle.legal_plays.specs.Faces.{face, roll_of};
ghost use Rattle.epc_query.specs.Choices.{result_of, IsCost};
ghost use Rattle.epc_query.specs.Kinds.{file_book, book_by};
ghost use Rattle.bearoff_c.specs.ChoiceLists.{places_of, HasCost, IsChoiceList, IsChoiceCount, TellsMoves};
ghost use Rattle.bearoff_c.specs.Refusals.{IsStatusOr, loss_refusal, play_refusal, refusal_in, status_of};
ghost use Rattle.bearoff_c.specs.Told.{SaysPlay, SaysLoss};

use crate::calls::plays::{RecordedPlay, listed, read_ends, read_roll};
use crate::calls::positions::Counts;
use crate::calls::ranks::find_in;
use crate::kept::File;
use crate::numbers::LongFraction;
use crate::statuses::{BUFFER_TOO_SMALL, OK, Refusal, put};
use arrayvec::ArrayVec;
use epc_query::{Opened, RankedChoice};
use fixed_fraction::board_mean_fraction;
use home_board::Position;
use legal_plays::{Roll, play_to};

/// A position that is to be played, and a roll.
#[derive(Clone, Copy)]
pub struct Turn {
    pub position: Position,
    pub roll: Roll,
}

/// The position that is to be played with a roll, which is given by its two dice in either order.
/// Refused exactly as `play_refusal` says of a file that is open.
fn find_turn_in(opened: &Opened<'_>, counts: &Counts, one: u8, other: u8) -> Result<Turn, Refusal>
    ensures refusal { refusal_in result ≡ play_refusal
        true (book_by opened.now).bound counts.now.points one other }
    ensures position { IfOk result (λ turn. turn.position ≡ counts.now.points) }
    ensures roll { IfOk result (λ turn. turn.roll ≡ roll_of (face one) (face other)) }
    ensures within { IfOk result (λ turn. pips turn.position ≤ (book_by opened.now).bound) }
{
    let roll = read_roll(one, other)?;
    let position = find_in(opened, counts)?;
    if position.is_finished() {
        return Err(Refusal::Finished);
    }
    Ok(Turn { position, roll })
}

/// The recorded play of a roll. Refused as `bearoff_play` is.
fn recorded_play(
    file: &File<'_>,
    position: &Counts,
    one: u8,
    other: u8,
) -> Result<RecordedPlay, Refusal>
    ensures refusal { refusal_in result ≡ play_refusal
        file.now.is_open file.now.bound position.now.points one other }
    ensures play { IfOk result (SaysPlay (file_book file.now.bytes.now)
        position.now.points (roll_of (face one) (face other))) }
{
    let opened = file.opened()?;
    let turn = find_turn_in(&opened, position, one, other)?;
    let Some((found, to)) = opened.play(&turn.position, turn.roll) else {
        return Err(Refusal::Changed);
    };
    Ok(RecordedPlay {
        moves: listed(&found),
        count: found.len() as u8,
        to: Counts::of(&to),
    })
}

/// What a result of a roll costs. Refused as `bearoff_loss` is.
fn result_cost(
    file: &File<'_>,
    position: &Counts,
    one: u8,
    other: u8,
    to: &Counts,
) -> Result<LongFraction, Refusal>
    ensures refusal { IsStatusOr 6
        (¬ Legal position.now.points (roll_of (face one) (face other)) to.now.points)
        (loss_refusal file.now.is_open file.now.bound
        position.now.points one other to.now.points) (status_of (refusal_in result)) }
    ensures loss { IfOk result (SaysLoss (file_book file.now.bytes.now)
        position.now.points (roll_of (face one) (face other)) to.now.points) }
{
    let opened = file.opened()?;
    let ends = read_ends(position, one, other, to)?;
    let turn = find_turn_in(&opened, position, one, other)?;
    if play_to(&turn.position, turn.roll, &ends.after).is_none() {
        return Err(Refusal::NotLegal);
    }
    let Some(lost) = opened.loss(&turn.position, turn.roll, &ends.after) else {
        return Err(Refusal::Changed);
    };
    Ok(LongFraction::of(lost))
}

/// Tells every position that a roll can lead to, by rising loss and then by rising rank, with what
/// it costs. Refused as `bearoff_play` is, when all stays as it was; and with the status 8 where
/// they have no room, when `count` is told and the room stays as it was.
fn tell_moves(
    opened: &Opened<'_>,
    position: &Counts,
    one: u8,
    other: u8,
    room: &mut [Choice],
    count: &mut usize,
) -> u32
    ensures status { IsStatusOr 8 (length room.old < count.new)
        (play_refusal true (book_by opened.now).bound position.now.points one other) result }
    ensures moves { TellsMoves (book_by opened.now)
        position.now.points (roll_of (face one) (face other)) room.old room.new count.new result }
    ensures untold { ¬ (result ≡ 0) → ¬ (result ≡ 8) → count.new ≡ count.old }
{
    let turn = match find_turn_in(opened, position, one, other) {
        Ok(turn) => turn,
        Err(refusal) => return refusal.status(),
    };
    match tell_results(opened, &turn, room, count) {
        Some(status) => status,
        None => Refusal::Changed.status(),
    }
}

/// Tells every result of a turn, as `tell_moves` does.
fn tell_results(
    opened: &Opened<'_>,
    turn: &Turn,
    room: &mut [Choice],
    count: &mut usize,
) -> Option<u32>
    requires { pips turn.now.position ≤ (book_by opened.now).bound }
    ensures some { IsSome result }
    ensures status { IfSome result (λ status.
        status ≡ (if nat_le count.new (length room.old) then 0 else 8)) }
    ensures listed { IfSome result (λ status. status ≡ 0 → IsChoiceList (book_by opened.now)
        turn.now.position turn.now.roll (take count.new room.new)) }
    ensures told { IsChoiceCount (book_by opened.now)
        turn.now.position turn.now.roll count.new }
    ensures most { count.new ≤ 127 }
    ensures rest { IfSome result (λ status. status ≡ 0 →
        drop count.new room.new ≡ drop count.new room.old) }
    ensures left { IfSome result (λ status. ¬ (status ≡ 0) → room.new ≡ room.old) }
{
    let mut choices = ArrayVec::new();
    opened.moves(&turn.position, turn.roll, &mut choices)?;
    Some(tell_choices(choices.as_slice(), room, count))
}

/// A position that a roll can lead to, and what it costs.
#[repr(C)]
#[derive(Clone, Copy, Debug, PartialEq, Eq)]
pub struct Choice {
    /// The position.
    pub to: Counts,

    /// The least mean number of rolls after it less the least such mean among all results of the
    /// roll, in rolls.
    pub loss: LongFraction,
}

/// Tells how many choices there are, and writes them to the front of a room: the status 0. With
/// the status 8, exactly where they have no room, only their number is told. It reads no byte of a
/// file.
fn tell_choices(found: &[RankedChoice], room: &mut [Choice], count: &mut usize) -> u32
    ensures status { result ≡ (if nat_le (length found.now) (length room.old) then 0 else 8) }
    ensures told { count.new ≡ length found.now }
    ensures places { result ≡ 0 →
        places_of (take (length found.now) room.new) ≡ map result_of found.now }
    ensures costs { result ≡ 0 → (b : Book) (x : Place) (v : Throw) → All (IsCost b x v) found.now
        → All (HasCost (whole_in b) (loss_in b x v)) (take (length found.now) room.new) }
    ensures rest { result ≡ 0 →
        drop (length found.now) room.new ≡ drop (length found.now) room.old }
    ensures left { ¬ (result ≡ 0) → room.new ≡ room.old }
{
    *count = found.len();
    if found.len() > room.len() {
        return BUFFER_TOO_SMALL;
    }
    for (index, choice) in found.iter().enumerate() {
        room[index] = Choice {
            to: Counts::of(&choice.to),
            loss: LongFraction::of(board_mean_fraction(choice.loss)),
        };
    }
    OK
}

/// The recorded play of a roll, given by its two dice in either order: no play has a smaller mean.
/// Refused as `NotOpen`, else as `BadRoll` where a die isn't 1 to 6, else as `TooMany` or
/// `OverBound`, and else as `Finished` where no checker is left, and as `Changed` only where the
/// bytes were changed since they were checked; then `play` stays as it was.
#[unsafe(no_mangle)]
pub extern "C" fn bearoff_play(
    file: &File<'_>,
    position: &Counts,
    one: u8,
    other: u8,
    play: &mut RecordedPlay,
) -> u32
    ensures status { result ≡ status_of (play_refusal
        file.now.is_open file.now.bound position.now.points one other) }
    ensures play { result ≡ 0 → SaysPlay (file_book file.now.bytes.now)
        position.now.points (roll_of (face one) (face other)) play.new }
    ensures left { ¬ (result ≡ 0) → play.new ≡ play.old }
{
    put(recorded_play(file, position, one, other), play)
}

/// What a result of a roll costs, in rolls: the least mean after it less the least such mean among
/// all results. Refused as `NotOpen`, else as `bearoff_play_to` is but for `NotLegal`, so as
/// `TooMany` where either position has more than 15 checkers, else as `bearoff_play` is, and
/// else as `NotLegal` where the roll doesn't lead there; then `loss` stays as it was.
#[unsafe(no_mangle)]
pub extern "C" fn bearoff_loss(
    file: &File<'_>,
    position: &Counts,
    one: u8,
    other: u8,
    to: &Counts,
    loss: &mut LongFraction,
) -> u32
    ensures status { IsStatusOr 6
        (¬ Legal position.now.points (roll_of (face one) (face other)) to.now.points)
        (loss_refusal file.now.is_open file.now.bound
        position.now.points one other to.now.points) result }
    ensures loss { result ≡ 0 → SaysLoss (file_book file.now.bytes.now)
        position.now.points (roll_of (face one) (face other)) to.now.points loss.new }
    ensures left { ¬ (result ≡ 0) → loss.new ≡ loss.old }
{
    put(result_cost(file, position, one, other, to), loss)
}

/// Every position that a roll can lead to, once, by rising loss and then by rising rank, with what
/// it costs. They stand in front of the room that the caller lends, and `count` is how many there
/// are, at most 127; the rest of the room stays as it was. Refused as `bearoff_play` is, when
/// all stays as it was; and with the status 8 where they have no room, when `count` is told and
/// the room stays as it was.
#[unsafe(no_mangle)]
pub extern "C" fn bearoff_moves(
    file: &File<'_>,
    position: &Counts,
    one: u8,
    other: u8,
    room: &mut [Choice],
    count: &mut usize,
) -> u32
    ensures status { IsStatusOr 8 (length room.old < count.new)
        (play_refusal file.now.is_open file.now.bound position.now.points one other) result }
    ensures moves { TellsMoves (file_book file.now.bytes.now)
        position.now.points (roll_of (face one) (face other)) room.old room.new count.new result }
    ensures untold { ¬ (result ≡ 0) → ¬ (result ≡ 8) → count.new ≡ count.old }
{
    match file.opened() {
        Ok(opened) => tell_moves(&opened, position, one, other, room, count),
        Err(refusal) => refusal.status(),
    }
}
