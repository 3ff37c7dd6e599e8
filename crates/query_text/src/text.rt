//! The texts of replies and levels.
ghost use Rattle.std.specs.Prelude.{◌≡◌, ◌+◌, ◌^◌, ◌≤◌, ◌<◌, ◌++◌, drop, flat_map, decimal, codes, slice_index};
ghost use Rattle.arrayvec.specs.ArrayString.{array_string_len};
ghost use Rattle.race_model.specs.Prelude.{move_text, fraction_text, thousandths_text, refusal_text, IsDistReply};
ghost use Rattle.query_text.specs.Texts.{position_text, result_text, share_text, why};
ghost use Rattle.legal_plays.specs.MoveLists.{moves_of};

use crate::reply::Refusal;
use arrayvec::ArrayString;
use fixed_fraction::{Spread, Wide, WideFraction, share};
use home_board::{Position, write_position};
use itoa::Buffer;
use legal_plays::{Play, write_play};

/// How many bytes a text has room for: a list of 127 results has at most 16,642.
pub const TEXT_ROOM: usize = 16896;

/// Room for the text of any reply.
pub type Text = ArrayString<TEXT_ROOM>;

/// 10 ^ 18.
const DIGITS: u64 = 1_000_000_000_000_000_000;

/// Adds a number in decimal.
#[inline(always)]
fn push_number(text: &mut Text, number: Wide)
    requires { array_string_len text.old + 58 ≤ TEXT_ROOM }
    ensures bytes { text.new.bytes ≡ text.old.bytes ++ decimal number }
    ensures len { array_string_len text.new ≤ array_string_len text.old + 58 }
{
    let (first, second, third) = number.digits();
    if first > 0 {
        text.push_str(Buffer::new().format(first));
        push_last_digits(text, DIGITS, second);
        push_last_digits(text, DIGITS, third);
    } else if second > 0 {
        text.push_str(Buffer::new().format(second));
        push_last_digits(text, DIGITS, third);
    } else {
        text.push_str(Buffer::new().format(third));
    }
}

/// Adds the last digits of a number, given as their value, with the zeros in front: as many as a
/// power of ten has zeros, 18 at most.
fn push_last_digits(text: &mut Text, power: u64, rest: u64)
    requires short { power ≤ 10 ^ 18 }
    requires few { rest < power }
    requires room { array_string_len text.old + 18 ≤ TEXT_ROOM }
    ensures bytes { text.new.bytes ≡ text.old.bytes ++ drop 1 (decimal (power + rest)) }
    ensures len { array_string_len text.new ≤ array_string_len text.old + 18 }
{
    let mut buffer = Buffer::new();
    let digits = buffer.format(power + rest);
    text.push_str(&digits[1..]);
}

/// Adds a fraction, as 5/4.
pub fn push_fraction(text: &mut Text, fraction: WideFraction)
    requires { array_string_len text.old + 117 ≤ TEXT_ROOM }
    ensures bytes { text.new.bytes
        ≡ text.old.bytes ++ fraction_text fraction.numerator fraction.denominator }
    ensures len { array_string_len text.new ≤ array_string_len text.old + 117 }
{
    push_number(text, fraction.numerator());
    text.push_str("/");
    push_number(text, fraction.denominator());
}

/// Adds a number of thousandths, as 10.208.
#[tactic(auto, using(crate::proofs::Decimals::three_digits, crate::proofs::Texts::digits_added))]
pub fn push_thousandths(text: &mut Text, number: u64)
    requires { array_string_len text.old + 39 ≤ TEXT_ROOM }
    ensures bytes { text.new.bytes ≡ text.old.bytes ++ thousandths_text number }
    ensures len { array_string_len text.new ≤ array_string_len text.old + 39 }
{
    text.push_str(Buffer::new().format(number / 1000));
    text.push_str(".");
    push_last_digits(text, 1000, number % 1000);
}

/// Adds the text of a position, at most 12 bytes.
#[tactic(auto, using(crate::proofs::Texts::position_text_is))]
pub fn push_position(text: &mut Text, position: &Position)
    requires { array_string_len text.old + 12 ≤ TEXT_ROOM }
    ensures bytes { text.new.bytes ≡ text.old.bytes ++ position_text position.now }
    ensures len { array_string_len text.new ≤ array_string_len text.old + 12 }
{
    let _checkers = position.checkers();
    text.push_str(write_position(position).as_str());
}

/// Adds the share of exactly `k` rolls: a space, `k`, a colon, and the share.
#[tactic(auto, using(crate::proofs::Parts::pair_added))]
pub fn push_share(text: &mut Text, share: WideFraction, k: u8)
    requires few { k ≤ 33 }
    requires room { array_string_len text.old + 122 ≤ TEXT_ROOM }
    ensures bytes { text.new.bytes ≡ text.old.bytes ++ share_text k share }
    ensures len { array_string_len text.new ≤ array_string_len text.old + 122 }
{
    text.push_str(" ");
    text.push_str(Buffer::new().format(k));
    text.push_str(":");
    push_fraction(text, share);
}

/// Adds the moves of a play, each after a space.
pub fn push_play(text: &mut Text, play: &Play)
    requires { array_string_len text.old + 24 ≤ TEXT_ROOM }
    ensures bytes { text.new.bytes
        ≡ text.old.bytes ++ flat_map (λ m. codes " " ++ move_text m) (moves_of play.now.items) }
    ensures len { array_string_len text.new ≤ array_string_len text.old + 24 }
{
    if play.is_empty() {
        return;
    }
    text.push_str(" ");
    text.push_str(write_play(play).as_str());
}

/// Adds a result and its loss in rolls to a list of moves: a space, the position, a colon, and the
/// loss.
pub fn push_choice(text: &mut Text, to: &Position, loss: WideFraction)
    requires { array_string_len text.old + 131 ≤ TEXT_ROOM }
    ensures bytes { text.new.bytes
        ≡ text.old.bytes ++ result_text to.now loss.numerator loss.denominator }
    ensures len { array_string_len text.new ≤ array_string_len text.old + 131 }
{
    text.push_str(" ");
    push_position(text, to);
    text.push_str(":");
    push_fraction(text, loss);
}

/// Makes a text the word with which a list of moves begins.
pub fn put_moves(text: &mut Text)
    ensures text { text.new.bytes ≡ codes "moves" }
    ensures len { array_string_len text.new ≤ 5 }
{
    text.clear();
    text.push_str("moves");
}

/// Writes the text of a mean and an EPC, the latter also in thousandths.
pub fn put_mean(text: &mut Text, mean: WideFraction, epc: WideFraction, thousandths: u64)
    ensures text { text.new.bytes ≡ codes "mean " ++ fraction_text mean.numerator mean.denominator
        ++ codes " epc " ++ fraction_text epc.numerator epc.denominator ++ codes " "
        ++ thousandths_text thousandths }
    ensures len { array_string_len text.new ≤ 284 }
{
    text.clear();
    text.push_str("mean ");
    push_fraction(text, mean);
    text.push_str(" epc ");
    push_fraction(text, epc);
    text.push_str(" ");
    push_thousandths(text, thousandths);
}

/// Makes a text the word with which a distribution begins.
pub fn put_dist_word(text: &mut Text)
    ensures text { text.new.bytes ≡ codes "dist" }
    ensures len { array_string_len text.new ≤ 4 }
{
    text.clear();
    text.push_str("dist");
}

/// Makes a text that of the shares of 0 to 22 rolls.
pub fn put_dist(text: &mut Text, spread: &Spread)
    ensures text { IsDistReply (slice_index spread.now) text.new.bytes }
    ensures len { array_string_len text.new ≤ 2810 }
{
    put_dist_word(text);
    for k in 0..23 {
        if spread.at(k) > 0 {
            push_share(text, WideFraction::of(share(spread, k)), k);
        }
    }
}

/// Writes the text of a play and its result, at most 44 bytes.
pub fn put_play(text: &mut Text, play: &Play, to: &Position)
    ensures text { text.new.bytes ≡ codes "play"
        ++ flat_map (λ m. codes " " ++ move_text m)
        (moves_of play.now.items) ++ codes " to " ++ position_text to.now }
    ensures len { array_string_len text.new ≤ 44 }
{
    text.clear();
    text.push_str("play");
    push_play(text, play);
    text.push_str(" to ");
    push_position(text, to);
}

/// Makes a text that of a loss.
pub fn put_loss(text: &mut Text, loss: WideFraction)
    ensures text { text.new.bytes
        ≡ codes "loss " ++ fraction_text loss.numerator loss.denominator }
    ensures len { array_string_len text.new ≤ 122 }
{
    text.clear();
    text.push_str("loss ");
    push_fraction(text, loss);
}

/// Makes a text that of a rank, at most 10 bytes.
pub fn put_rank(text: &mut Text, rank: u16)
    ensures text { text.new.bytes ≡ codes "rank " ++ decimal rank }
    ensures len { array_string_len text.new ≤ 10 }
{
    text.clear();
    text.push_str("rank ");
    text.push_str(Buffer::new().format(rank));
}

/// Makes a text that of a refusal, at most 16 bytes.
pub fn put_refusal(text: &mut Text, refusal: Refusal)
    ensures text { text.new.bytes ≡ refusal_text (why refusal) }
    ensures len { array_string_len text.new ≤ 16 }
{
    text.clear();
    text.push_str(match refusal {
        Refusal::BadLine => "error bad-line",
        Refusal::TooMany => "error too-many",
        Refusal::OverBound => "error over-bound",
        Refusal::Finished => "error finished",
        Refusal::NotLegal => "error not-legal",
    });
}

/// Writes the line of a level with its least and greatest mean.
pub fn put_level(
    text: &mut Text,
    pips: u8,
    positions: u16,
    least: WideFraction,
    greatest: WideFraction,
)
    ensures text { text.new.bytes ≡ codes "pips " ++ decimal pips ++ codes " positions "
        ++ decimal positions ++ codes " least "
        ++ fraction_text least.numerator least.denominator ++ codes " greatest "
        ++ fraction_text greatest.numerator greatest.denominator }
    ensures len { array_string_len text.new ≤ 282 }
{
    text.clear();
    text.push_str("pips ");
    text.push_str(Buffer::new().format(pips));
    text.push_str(" positions ");
    text.push_str(Buffer::new().format(positions));
    text.push_str(" least ");
    push_fraction(text, least);
    text.push_str(" greatest ");
    push_fraction(text, greatest);
}
