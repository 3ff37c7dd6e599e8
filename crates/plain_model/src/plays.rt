//! The results of a throw, by trying each die at each point.
ghost use Rattle.std.specs.Prelude.{◌≡◌, ◌<◌, ◌≤◌, ◌↔◌, List, [], ◌∷◌, ◌++◌, length, drop, sum};
ghost use Rattle.std.specs.Prelude.{Contains, IfOk, OnOk, IfSome, IfNone};
ghost use Rattle.race_model.specs.Prelude.{Board, IsPosition, fewer, more, number, Legal, step_from, all_runs};
ghost use Rattle.race_model.specs.Prelude.{all_results};
ghost use Rattle.race_model.specs.Positions.{count};

use home_board::Position;
use legal_plays::Die;
use std::alloc::{AllocError, Global};

// The position with one checker fewer on `source`, and one more on `target`; 0 is off the board.
fn moved(position: &Position, source: u8, target: u8) -> Position
    requires occupied { 0 < count position.now source }
    requires down { target < source }
    ensures { result ≡ more (fewer position.now source) target }
{
    let mut counts = [1, 2, 3, 4, 5, 6].map(|point| position.count(point));
    counts[usize::from(source) - 1] -= 1;
    if target > 0 {
        counts[usize::from(target) - 1] += 1;
    }
    Position::new(counts).unwrap()
}

// How many checkers stand on the points above this one.
fn checkers_above(position: &Position, point: u8) -> u8
    requires { IsPosition position.now }
    ensures { result ≡ sum (drop point position.now) }
{
    let mut checkers = 0;
    for below in point..6 {
        checkers += position.count(below + 1);
    }
    checkers
}

// What the die makes of the position by moving a checker from this point; none where it can't.
fn step(position: &Position, die: Die, source: u8) -> Option<Position>
    requires { source ≤ 6 }
    ensures some { IfSome result (λ y. step_from position.now (number die) source ≡ y ∷ []) }
    ensures none { IfNone result (step_from position.now (number die) source ≡ []) }
{
    let distance = die.number();
    if position.count(source) == 0 {
        return None;
    }
    if distance < source {
        return Some(moved(position, source, source - distance));
    }
    if source == distance {
        return Some(moved(position, source, 0));
    }
    if checkers_above(position, source) == 0 {
        return Some(moved(position, source, 0));
    }
    None
}

// Adds what the dice, played one after another, make of the
// position, as often as there are ways to it.
fn add_runs(found: &mut Vec<Position>, position: &Position, dice: &[Die]) -> Result<(), AllocError>
    ensures { OnOk result (found.new.items ≡ found.old.items ++ all_runs dice.now position.now) }
{
    if dice.is_empty() || position.is_finished() {
        found.push(*position)?;
        return Ok(());
    }
    let (die, rest) = (dice[0], &dice[1..]);
    for source in 1..7 {
        if let Some(after) = step(position, die, source) {
            add_runs(found, &after, rest)?;
        }
    }
    Ok(())
}

/// The positions to which a throw of these two dice leads: by trying each die at each point, in
/// either order of the dice, or a double four times (the bearing-off rules of backgammon). A
/// position stands there as often as there are ways to it. Refused only for want of memory.
pub fn legal_positions(
    alloc: Global,
    position: &Position,
    one: Die,
    other: Die,
) -> Result<Vec<Position>, AllocError>
    ensures members { IfOk result (λ found. (y : Board) →
        Contains found.items y ↔ Legal position.now (record { first = one; second = other }) y) }
    ensures ways { IfOk result
        (λ found.
        found.items ≡ all_results position.now (record { first = one; second = other })) }
{
    let mut found = Vec::new(alloc);
    if one.number() == other.number() {
        add_runs(&mut found, position, &[one; 4])?;
    } else {
        add_runs(&mut found, position, &[one, other])?;
        add_runs(&mut found, position, &[other, one])?;
    }
    race_model::laws::law_enumerated();
    Ok(found)
}

// The number of different results is that of an independent
// program, and the rows were counted by hand.
