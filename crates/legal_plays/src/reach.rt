//! The positions that a roll can reach.
ghost use Rattle.std.specs.Prelude.{◌≡◌, ℕ, ◌+◌, ◌*◌, ◌<◌, ◌≤◌, ◌↔◌, ◌⊎◌, List, [], ◌∷◌, length, Contains};
ghost use Rattle.arrayvec.specs.ArrayVec.{array_vec_len};
ghost use Rattle.race_model.specs.Prelude.{IsFinished, Step, Run, Legal};
ghost use Rattle.legal_plays.specs.RankOrder.{IsInRankOrder, IsAscending};
ghost use Rattle.legal_plays.specs.MoveLists.{PlaysDie};

use crate::{Die, Roll, step};
use arrayvec::ArrayVec;
use home_board::Position;

// Adds a position to those found, which stay in order, unless it is there.
fn include<const CAP: usize>(found: &mut ArrayVec<Position, CAP>, position: Position)
    requires room { array_vec_len found.old < CAP }
    requires ordered { IsAscending found.old.items }
    ensures members { (y : List ℕ) →
        Contains found.new.items y ↔ (Contains found.old.items y ⊎ (y ≡ position)) }
    ensures ordered { IsAscending found.new.items }
    ensures len { array_vec_len found.new ≤ array_vec_len found.old + 1 }
{
    if let Err(place) = found.as_slice().binary_search(&position) {
        found.insert(place, position);
    }
}

// Adds positions to those found, which stay in order, unless they are there.
fn include_all<const CAP: usize>(found: &mut ArrayVec<Position, CAP>, others: &[Position])
    requires room { array_vec_len found.old + length others.now ≤ CAP }
    requires ordered { IsAscending found.old.items }
    ensures members { (y : List ℕ) →
        Contains found.new.items y ↔ (Contains found.old.items y ⊎ Contains others.now y) }
    ensures ordered { IsAscending found.new.items }
    ensures len { array_vec_len found.new ≤ array_vec_len found.old + length others.now }
{
    for other in others {
        include(found, *other);
    }
}

// Adds the positions that a step with the die leads to.
fn include_steps<const CAP: usize>(
    found: &mut ArrayVec<Position, CAP>,
    position: &Position,
    die: Die,
)
    requires room { array_vec_len found.old + 6 ≤ CAP }
    requires ordered { IsAscending found.old.items }
    ensures members { (y : List ℕ) →
        Contains found.new.items y ↔ (Contains found.old.items y ⊎ Step position.now die y) }
    ensures ordered { IsAscending found.new.items }
    ensures len { array_vec_len found.new ≤ array_vec_len found.old + 6 }
{
    for source in 1..=position.highest() {
        if let Some(after) = step(position, die, source) {
            include(found, after);
        }
    }
}

// The positions that one die leads to from these: a finished position stays.
fn after_die<const CAP: usize>(positions: &[Position], die: Die) -> ArrayVec<Position, CAP>
    requires { 6 * length positions.now ≤ CAP }
    ensures members { (y : List ℕ) →
        Contains result.items y ↔ ((x : List ℕ) × (Contains positions.now x × PlaysDie x die y)) }
    ensures ordered { IsAscending result.items }
    ensures len { array_vec_len result ≤ 6 * length positions.now }
{
    let mut found = ArrayVec::new();
    for position in positions {
        if position.is_finished() {
            include(&mut found, *position);
        } else {
            include_steps(&mut found, position, die);
        }
    }
    found
}

// The positions that two dice lead to, one after the other.
fn after_two<const CAP: usize>(
    position: &Position,
    first: Die,
    second: Die,
) -> ArrayVec<Position, CAP>
    requires { 36 ≤ CAP }
    ensures members { (y : List ℕ) →
        Contains result.items y ↔ Run position.now (first ∷ second ∷ []) y }
    ensures ordered { IsAscending result.items }
    ensures len { array_vec_len result ≤ 36 }
{
    let positions: ArrayVec<Position, 6> = after_die(&[*position], first);
    after_die(positions.as_slice(), second)
}

// The positions that a double leads to: the die is played four times. There is room for six steps
// of each die, and never more than 127 positions.
fn after_four(position: &Position, die: Die) -> ArrayVec<Position, 1296>
    ensures members { (y : List ℕ) →
        Contains result.items y ↔ Run position.now (die ∷ die ∷ die ∷ die ∷ []) y }
    ensures ordered { IsAscending result.items }
    ensures len { array_vec_len result ≤ 127 }
{
    let _checkers = position.checkers();
    let two: ArrayVec<Position, 36> = after_two(position, die, die);
    let three: ArrayVec<Position, 216> = after_die(two.as_slice(), die);
    after_die(three.as_slice(), die)
}

/// The positions that the roll can reach, each once and by rising rank: by its two dice in either
/// order, or by a double four times (the bearing-off rules of backgammon). There is at least one,
/// and at most 127: two different dice have at most 36 in each order, and where a double leads, if
/// not to the finished position, goes by how often each point was a source of its four moves, for
/// which there are 126 ways. From the finished position it is the finished position alone.
pub fn results(position: &Position, roll: Roll) -> ArrayVec<Position, 1296>
    ensures members { (y : List ℕ) → Contains result.items y ↔ Legal position.now roll y }
    ensures ordered { IsInRankOrder result.items }
    ensures ascending { IsAscending result.items }
    ensures some { 0 < array_vec_len result }
    ensures few { array_vec_len result ≤ 127 }
{
    let (high, low) = (roll.high(), roll.low());
    if high == low {
        return after_four(position, high);
    }
    let mut found = after_two(position, high, low);
    let others: ArrayVec<Position, 36> = after_two(position, low, high);
    include_all(&mut found, others.as_slice());
    found
}
