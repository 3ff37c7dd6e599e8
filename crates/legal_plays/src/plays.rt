//! The play that reaches a position.
ghost use Rattle.std.specs.Prelude.{◌≡◌, ℕ, ◌≤◌, ◌↔◌, length, IsSome, IfSome, IfNone};
ghost use Rattle.arrayvec.specs.ArrayVec.{array_vec_len};
ghost use Rattle.race_model.specs.Prelude.{Run, Legal, IsFirstOf, IsFirstPlay};
ghost use Rattle.legal_plays.specs.MoveLists.{moves_of};

use crate::{Die, Move, Roll, step};
use arrayvec::ArrayVec;
use home_board::Position;

/// The moves of one roll, in the order in which they are
/// made: one for each die until no checker is left.
pub type Play = ArrayVec<Move, 4>;

// The first play of the dice, in this order, that leads to the target: depth first, and from the
// highest point down.
fn search(position: &Position, dice: &[Die], target: &Position) -> Option<Play>
    requires { length dice.now ≤ 4 }
    ensures first { IfSome result (λ play.
        IsFirstOf position.now dice.now target.now (moves_of play.items)) }
    ensures len { IfSome result (λ play. array_vec_len play ≤ length dice.now) }
    ensures none { IfNone result (¬ Run position.now dice.now target.now) }
{
    if dice.is_empty() || position.is_finished() {
        return if position == target {
            Some(Play::new())
        } else {
            None
        };
    }
    let (die, rest) = (dice[0], &dice[1..]);
    for source in (1..=position.highest()).rev() {
        let Some(after) = step(position, die, source) else {
            continue;
        };
        if let Some(mut play) = search(&after, rest, target) {
            let to = source.saturating_sub(die.number());
            play.insert(0, Move { from: source, to });
            return Some(play);
        }
    }
    None
}

/// The first play of the roll from the position to the target, in the order of search. The greater
/// die is played first, and the smaller one first only where that doesn't lead to the target; for
/// each die the points are tried from 6 down to 1, depth first. None exactly where the target
/// isn't one of the roll's results.
pub fn play_to(position: &Position, roll: Roll, target: &Position) -> Option<Play>
    ensures first { IfSome result (λ play.
        IsFirstPlay position.now roll target.now (moves_of play.items)) }
    ensures legal { IsSome result ↔ Legal position.now roll target.now }
{
    let (high, low) = (roll.high(), roll.low());
    if high == low {
        return search(position, &[high; 4], target);
    }
    if let Some(play) = search(position, &[high, low], target) {
        return Some(play);
    }
    search(position, &[low, high], target)
}
