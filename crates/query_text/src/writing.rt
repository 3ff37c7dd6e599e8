//! Replies and levels as lines, written.
ghost use Rattle.std.specs.Prelude.{◌≡◌, ℕ, ◌+◌, ◌≤◌, List, [], ◌∷◌, ◌++◌, OnOk, OnErr};
ghost use Rattle.std.specs.Io.KnownBytes.{Appends};
ghost use Rattle.arrayvec.specs.ArrayString.{array_string_len};
ghost use Rattle.db_layout.specs.Writes.{AppendsPart};
ghost use Rattle.query_text.specs.Texts.{choice_text, list_text, level_text, IsMeanText, IsTextOf};
ghost use Rattle.query_text.specs.Held.{Takes};

use crate::reply::{Choice, Level, Reply};
use crate::text::{
    TEXT_ROOM, Text, push_choice, put_dist, put_level, put_loss, put_mean, put_moves, put_play,
    put_rank, put_refusal,
};
use db_layout::{WriteFault, write_bytes};
use fixed_fraction::{Fraction, WideFraction, thousandths_of};
use std::io::Write;

/// Writes a reply and a line feed. It takes one call of `write` if the writer takes all of it,
/// except for a long list of moves. Refused only where a `write` fails or takes no byte; then a
/// prefix of the line was written.
pub fn write_reply<W: Write>(reply: &Reply, writer: &mut W) -> Result<(), WriteFault>
    ensures all { OnOk result ((text : List ℕ) × IsTextOf reply.now text
        × Appends (W.contents writer.old) (W.contents writer.new) (text ++ 10 ∷ [])) }
    ensures part { OnErr result ((text : List ℕ) × IsTextOf reply.now text
        × AppendsPart (W.contents writer.old) (W.contents writer.new) (text ++ 10 ∷ [])) }
{
    write_reply_by(&mut Text::new(), reply, writer)
}

/// Writes a reply and a line feed, by way of a text, which any replies can share.
pub fn write_reply_by<W: Write>(
    text: &mut Text,
    reply: &Reply,
    writer: &mut W,
) -> Result<(), WriteFault>
    ensures all { OnOk result ((text : List ℕ) × IsTextOf reply.now text
        × Appends (W.contents writer.old) (W.contents writer.new) (text ++ 10 ∷ [])) }
    ensures part { OnErr result ((text : List ℕ) × IsTextOf reply.now text
        × AppendsPart (W.contents writer.old) (W.contents writer.new) (text ++ 10 ∷ [])) }
{
    match reply {
        Reply::Mean { mean, epc } => put_fractions(text, *mean, *epc),
        Reply::Dist(spread) => put_dist(text, spread),
        Reply::Play { play, to } => put_play(text, play, to),
        Reply::Loss(loss) => put_loss(text, WideFraction::of(*loss)),
        Reply::Moves(choices) => return write_moves(text, choices.as_slice(), writer),
        Reply::Rank(rank) => put_rank(text, *rank),
        Reply::Refused(refusal) => put_refusal(text, *refusal),
    }
    write_line(text, writer)
}

/// Makes a text that of a mean and an effective pip count, as fractions.
fn put_fractions(text: &mut Text, mean: Fraction, epc: Fraction)
    ensures text { IsMeanText mean epc text.new.bytes }
    ensures len { array_string_len text.new ≤ 4036 }
{
    let told = thousandths_of(epc.numerator(), epc.denominator());
    put_mean(text, WideFraction::of(mean), WideFraction::of(epc), told);
}

/// Writes the line of a level and a line feed. Refused as `write_reply` is.
pub fn write_level<W: Write>(level: &Level, writer: &mut W) -> Result<(), WriteFault>
    ensures all { OnOk result
        (Appends (W.contents writer.old) (W.contents writer.new)
        (level_text level.now ++ 10 ∷ [])) }
    ensures part { OnErr result
        (AppendsPart (W.contents writer.old) (W.contents writer.new)
        (level_text level.now ++ 10 ∷ [])) }
{
    let mut text = Text::new();
    put_level(
        &mut text,
        level.pips,
        level.positions,
        WideFraction::of(level.least),
        WideFraction::of(level.greatest),
    );
    write_line(&mut text, writer)
}

/// Writes a text and a line feed, which the text has room for.
pub fn write_line<W: Write>(text: &mut Text, writer: &mut W) -> Result<(), WriteFault>
    requires { array_string_len text.old + 1 ≤ TEXT_ROOM }
    ensures all { OnOk result
        (Appends (W.contents writer.old) (W.contents writer.new) (text.old.bytes ++ 10 ∷ [])) }
    ensures part { OnErr result
        (AppendsPart (W.contents writer.old) (W.contents writer.new) (text.old.bytes ++ 10 ∷ [])) }
{
    text.push_str("\n");
    write_bytes(text.as_str().as_bytes(), writer)
}

/// Writes a list of moves and a line feed.
fn write_moves<W: Write>(
    text: &mut Text,
    choices: &[Choice],
    writer: &mut W,
) -> Result<(), WriteFault>
    ensures all { OnOk result (Appends (W.contents writer.old) (W.contents writer.new)
        (list_text choices.now ++ 10 ∷ [])) }
    ensures part { OnErr result (AppendsPart (W.contents writer.old) (W.contents writer.new)
        (list_text choices.now ++ 10 ∷ [])) }
{
    put_moves(text);
    for choice in choices {
        write_choice(text, choice, writer)?;
    }
    write_line(text, writer)
}

/// Adds a choice to the buffered text, which is written first if it is full.
fn write_choice<W: Write>(
    text: &mut Text,
    choice: &Choice,
    writer: &mut W,
) -> Result<(), WriteFault>
    ensures all { OnOk result (Takes (W.contents writer.old) (W.contents writer.new)
        text.old.bytes text.new.bytes (choice_text choice.now)) }
    ensures len { OnOk result (array_string_len text.new ≤ 4036) }
    ensures part { OnErr result (AppendsPart (W.contents writer.old)
        (W.contents writer.new) text.old.bytes) }
{
    make_room(text, writer)?;
    push_choice(text, &choice.to, WideFraction::of(choice.loss));
    Ok(())
}

/// Writes the text that waits where it leaves no room for another choice.
fn make_room<W: Write>(text: &mut Text, writer: &mut W) -> Result<(), WriteFault>
    ensures all { OnOk result (Takes (W.contents writer.old)
        (W.contents writer.new) text.old.bytes text.new.bytes []) }
    ensures len { OnOk result (array_string_len text.new + 131 ≤ 4036) }
    ensures part { OnErr result (AppendsPart (W.contents writer.old)
        (W.contents writer.new) text.old.bytes) }
{
    if text.len() + 131 <= 4036 {
        return Ok(());
    }
    write_bytes(text.as_str().as_bytes(), writer)?;
    text.clear();
    Ok(())
}
