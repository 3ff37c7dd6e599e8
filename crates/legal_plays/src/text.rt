//! The texts of rolls and plays.
ghost use Rattle.std.specs.Prelude.{◌≡◌, ◌+◌, ◌≤◌, ◌<◌, ◌++◌, ◌↔◌, IsSome, IfSome};
ghost use Rattle.arrayvec.specs.ArrayString.{array_string_len};
ghost use Rattle.race_model.specs.Prelude.{Die as Face, number, IsRoll, point_text, move_text};
ghost use Rattle.legal_plays.specs.Faces.{roll_of};
ghost use Rattle.legal_plays.specs.MoveLists.{move_of, moves_of};
ghost use Rattle.legal_plays.specs.Texts.{roll_text, play_text};

use crate::{Die, Move, Play, Roll};
use arrayvec::ArrayString;
use itoa::Buffer;

/// The roll of a text of two digits from 1 to 6, in either order; None for any other text. (This
/// project's profile.)
pub fn parse_roll(text: &[u8]) -> Option<Roll>
    ensures valid { IsSome result ↔ ((a : Face) × (b : Face) × (text.now ≡ roll_text a b)) }
    ensures value { (a b : Face) →
        text.now ≡ roll_text a b → IfSome result (λ roll. roll ≡ roll_of a b) }
    ensures roll { IfSome result (λ roll. IsRoll roll) }
{
    let [one, other] = text else {
        return None;
    };
    Some(Roll::new(parse_die(*one)?, parse_die(*other)?))
}

// The die that a digit shows.
fn parse_die(digit: u8) -> Option<Die>
    ensures valid { IsSome result ↔ ((49 ≤ digit) × (digit ≤ 54)) }
    ensures value { IfSome result (λ die. digit ≡ 48 + number die) }
{
    Die::new(digit.checked_sub(b'0')?)
}

/// Writes a play as text, such as `6/5 3/off`. The play without moves has the empty text.
pub fn write_play(play: &Play) -> ArrayString<23>
    ensures { result.bytes ≡ play_text (moves_of play.now.items) }
{
    let mut text = ArrayString::new();
    for (index, one) in play.as_slice().iter().enumerate() {
        if index > 0 {
            text.push_str(" ");
        }
        push_move(&mut text, *one);
    }
    text
}

// Adds the text of one move.
#[tactic(auto, using(crate::proofs::TextLemmas::one_digit))]
fn push_move(text: &mut ArrayString<23>, one: Move)
    requires { array_string_len text.old + 5 ≤ 23 }
    ensures bytes { text.new.bytes ≡ text.old.bytes ++ move_text (move_of one) }
    ensures len { array_string_len text.new ≤ array_string_len text.old + 5 }
{
    text.push_str(Buffer::new().format(one.from));
    text.push_str("/");
    if one.to == 0 {
        text.push_str("off");
    } else {
        text.push_str(Buffer::new().format(one.to));
    }
}
