//! The numbers of a summary, and the words around them, added to a text.
ghost use Rattle.std.specs.Prelude.{◌≡◌, ◌+◌, ◌≤◌, [], ◌∷◌, ◌++◌, true, length};
ghost use Rattle.arrayvec.specs.ArrayString.{array_string_len};
ghost use Rattle.race_summary.specs.Printed.{percent_text, width, are_words, Adds};

use fixed_fraction::{BoardMean, WideFraction, board_mean_fraction};
use home_board::Position;
use itoa::Buffer;
use legal_plays::{Roll, play_to, write_play};
use query_text::{TEXT_ROOM, Text, push_fraction, push_position, push_thousandths};

/// A number of a summary, as it is printed.
#[derive(Clone, Copy)]
pub(crate) enum Value {
    /// In decimal.
    Whole(u8),

    /// So many thousandths, as 10.208.
    Thousandths(u64),

    /// A fraction, as 5/4.
    Exact(WideFraction),

    /// A number of rolls over 36 ^ 33, in thousandths.
    Rolls(BoardMean),

    /// A number of rolls over 36 ^ 33, as a fraction in lowest terms.
    ExactRolls(BoardMean),

    /// A share over 36 ^ 33, as 12.5 %.
    Percent(BoardMean),

    /// The six counts of a position, as 1,2,3,0,0,4.
    Counts(Position),

    /// Two dice, as 21.
    Dice(Roll),

    /// The first play of a roll from a position to another one, as 4/2 2/1.
    Play(Position, Roll, Position),
}

/// Adds words, which have no digit.
#[tactic(auto, using(crate::proofs::Printed::adds_words))]
pub(crate) fn push_words(text: &mut Text, words: &str)
    requires words { are_words words.now ≡ true }
    requires room { array_string_len text.old + length words.now ≤ TEXT_ROOM }
    ensures values { Adds [] text.old.bytes text.new.bytes }
    ensures len { array_string_len text.new ≡ array_string_len text.old + length words.now }
{
    text.push_str(words);
}

/// Adds a number.
pub(crate) fn push_value(text: &mut Text, value: Value)
    requires { array_string_len text.old + 117 ≤ TEXT_ROOM }
    ensures values { Adds (value ∷ []) text.old.bytes text.new.bytes }
    ensures len { array_string_len text.new ≤ array_string_len text.old + width value }
{
    match value {
        Value::Whole(number) => text.push_str(Buffer::new().format(number)),
        Value::Thousandths(number) => push_thousandths(text, number),
        Value::Exact(fraction) => push_fraction(text, fraction),
        Value::Rolls(rolls) => push_thousandths(text, rolls.thousandths()),
        Value::ExactRolls(rolls) => push_fraction(text, board_mean_fraction(rolls)),
        Value::Percent(share) => push_percent(text, share.thousandths()),
        Value::Counts(position) => push_position(text, &position),
        Value::Dice(roll) => {
            text.push_str(Buffer::new().format(roll.high().number()));
            text.push_str(Buffer::new().format(roll.low().number()));
        }
        Value::Play(position, roll, to) => {
            if let Some(play) = play_to(&position, roll, &to) {
                text.push_str(write_play(&play).as_str());
            }
        }
    }
}

/// Adds words, and a number behind them.
#[tactic(auto, using(crate::proofs::Printed::adds_then))]
pub(crate) fn push_field(text: &mut Text, words: &str, value: Value)
    requires words { are_words words.now ≡ true }
    requires room { array_string_len text.old + length words.now + 117 ≤ TEXT_ROOM }
    ensures values { Adds (value ∷ []) text.old.bytes text.new.bytes }
    ensures len { array_string_len text.new
        ≤ array_string_len text.old + length words.now + width value }
{
    push_words(text, words);
    push_value(text, value);
}

/// Adds a share of thousandths in percent, as 12.5 %.
fn push_percent(text: &mut Text, share: u64)
    requires { array_string_len text.old + 39 ≤ TEXT_ROOM }
    ensures bytes { text.new.bytes ≡ text.old.bytes ++ percent_text share }
    ensures len { array_string_len text.new ≤ array_string_len text.old + 39 }
{
    text.push_str(Buffer::new().format(share / 10));
    text.push_str(".");
    text.push_str(Buffer::new().format((share % 10) as u8));
    text.push_str(" %");
}
