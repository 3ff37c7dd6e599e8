//! Position IDs and Match IDs of GNU Backgammon.
ghost use Rattle.std.specs.Prelude.{◌≡◌, ◌≢◌, ◌<◌, ◌≤◌, ◌^◌, ℕ, List, length, Option, Some, None, MatchOption};
ghost use Rattle.notation.specs.Ids.{ones, key, AreThrown, player_of, IsPositionId, IsMatchId, unpadded};
ghost use Rattle.notation.specs.declared.told.Player.{Player};
ghost use Rattle.legal_plays.specs.declared.roll.Roll.{Roll};

use crate::letters::{are_letters, field, place_of};
use crate::sides::checkers;
use crate::told::Player;
use legal_plays::{Die, Roll};

/// What a Position ID tells: the checkers of the other player and those of the one on roll, each
/// on the points 1 to 24 and on the bar. `==` may stand behind it.
pub(crate) fn read_position_id(text: &[u8]) -> Option<([u8; 25], [u8; 25])>
    ensures { MatchOption result ((theirs mine : List ℕ) → ¬ IsPositionId text.now theirs mine)
        (λ sides. IsPositionId text.now sides.0 sides.1) }
{
    let letters = unpadded(text);
    if letters.len() != 14 {
        return None;
    }
    if !are_letters(letters) || place_of(letters[13]) % 16 != 0 {
        return None;
    }
    let (theirs, rest) = read_side(field(letters, 0, 80));
    let (mine, rest) = read_side(rest);
    if rest != 0 {
        return None;
    }
    if u32::from(checkers(&theirs)) + u32::from(checkers(&mine)) > 30 {
        return None;
    }
    Some((theirs, mine))
}

fn unpadded(text: &[u8]) -> &[u8]
    ensures { result.now ≡ unpadded text.now }
{
    if text.len() == 16 && text[14] == b'=' && text[15] == b'=' {
        return &text[..14];
    }
    text
}

/// The counts of the 25 places that the lowest bits spell, and the number of the bits above.
fn read_side(bits: u128) -> ([u8; 25], u128)
    requires { bits < 2 ^ 80 }
    ensures long { length result.0 ≡ 25 }
    ensures key { bits ≡ key result.0 result.1 }
    ensures less { result.1 < 2 ^ 80 }
{
    let mut side = [0; 25];
    let mut rest = bits;
    for place in 0..25 {
        let (count, above) = read_ones(rest, 80);
        side[place] = count;
        rest = above;
    }
    (side, rest)
}

/// How many ones stand below the lowest zero, and the number of the bits above that one.
fn read_ones(bits: u128, width: u8) -> (u8, u128)
    requires { bits < 2 ^ width }
    ensures value { bits ≡ ones result.0 result.1 }
    ensures fewer { result.0 ≤ width }
    ensures less { result.1 ≤ bits }
{
    if bits % 2 == 0 {
        return (0, bits / 2);
    }
    let (count, above) = read_ones(bits / 2, width - 1);
    (count + 1, above)
}

/// The player on roll and the dice that a Match ID tells.
pub(crate) fn read_match_id(text: &[u8]) -> Option<(Player, Option<Roll>)>
    ensures { MatchOption result
        ((player : Player) → (roll : Option Roll) → ¬ IsMatchId text.now player roll)
        (λ told. IsMatchId text.now told.0 told.1) }
{
    if text.len() != 12 {
        return None;
    }
    if !are_letters(text) {
        return None;
    }
    let roll = thrown(field(text, 15, 3), field(text, 18, 3))?;
    Some((player_of(field(text, 6, 1)), roll))
}

/// The dice that are thrown; none within where both are 0, and none where one of them is no die.
fn thrown(one: u128, other: u128) -> Option<Option<Roll>>
    requires { (one < 8) × (other < 8) }
    ensures { MatchOption result ((roll : Option Roll) → ¬ AreThrown one other roll)
        (AreThrown one other) }
{
    if one == 0 && other == 0 {
        return Some(None);
    }
    let Some(first) = Die::new(one as u8) else {
        return None;
    };
    let Some(second) = Die::new(other as u8) else {
        return None;
    };
    Some(Some(Roll::new(first, second)))
}

fn player_of(on_roll: u128) -> Player
    ensures { result ≡ player_of on_roll }
{
    if on_roll == 1 {
        Player::Bottom
    } else {
        Player::Top
    }
}
