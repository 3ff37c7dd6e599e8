//! One die and one checker: the step of a die from a point.
ghost use Rattle.std.specs.Prelude.{◌≡◌, ℕ, ◌<◌, List, IfSome, IfNone};
ghost use Rattle.race_model.specs.Prelude.{fewer, more, number, StepFrom};
ghost use Rattle.race_model.specs.Positions.{count};

use crate::Die;
use home_board::Position;

/// Moves one checker from the point `source` by a die. By the bearing-off rules of backgammon:
/// from the die's own point it is borne off, from a higher point it moves down, and from a lower
/// one it is borne off only where that is the highest point with a checker. None where the rules
/// allow no such move.
#[inline(always)]
pub fn step(position: &Position, die: Die, source: u8) -> Option<Position>
    ensures moved { IfSome result (λ y. StepFrom position.now (number die) source y) }
    ensures none { IfNone result ((y : List ℕ) → ¬ StepFrom position.now (number die) source y) }
{
    let distance = die.number();
    if position.count(source) == 0 || (source < distance && source != position.highest()) {
        return None;
    }
    Some(moved(position, source, source.saturating_sub(distance)))
}

// The position with one checker fewer on `source`, and one more on `target`; 0 is off the board.
fn moved(position: &Position, source: u8, target: u8) -> Position
    requires occupied { 0 < count position.now source }
    requires down { target < source }
    ensures { result ≡ more (fewer position.now source) target }
{
    let mut counts = [1, 2, 3, 4, 5, 6].map(|point| position.count(point));
    counts[usize::from(source) - 1] -= 1;
    if target > 0 {
        counts[usize::from(target) - 1] += 1;
    }
    Position::new(counts).unwrap()
}
