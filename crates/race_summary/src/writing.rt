//! The writing of a summary, in either form.
ghost use Rattle.std.specs.Prelude.{◌≡◌, ◌+◌, ◌≤◌, [], ◌++◌, ℕ, List, OnOk, OnErr};
ghost use Rattle.std.specs.Io.KnownBytes.{Appends};
ghost use Rattle.arrayvec.specs.ArrayString.{array_string_len};
ghost use Rattle.db_layout.specs.Writes.{AppendsPart};
ghost use Rattle.race_summary.specs.Printed.{Adds, Prints};
ghost use Rattle.race_summary.specs.Values.{choice_values, player_values, roll_values, values};
ghost use Rattle.race_summary.specs.declared.values.Value.{Value};

use crate::lines::{Form, Summary};
use crate::values::push_words;
use crate::{json, plain};
use db_layout::{WriteFault, write_bytes};
use epc_query::RankedChoice;
use legal_plays::Roll;
use query_text::{TEXT_ROOM, Text};
use std::io::Write;

/// Writes a summary.
pub(crate) fn write<W: Write>(
    summary: &Summary,
    form: Form,
    text: &mut Text,
    writer: &mut W,
) -> Result<(), WriteFault>
    ensures all { OnOk result ((text : List ℕ) × Prints (values form summary.now) text
        × Appends (W.contents writer.old) (W.contents writer.new) text) }
    ensures part { OnErr result ((text : List ℕ) × ((first rest : List Value)
        × (values form summary.now ≡ first ++ rest) × Prints first text)
        × AppendsPart (W.contents writer.old) (W.contents writer.new) text) }
{
    text.clear();
    push_players(form, summary, text);
    push_roll(form, summary.roll, text);
    let mut is_first = true;
    for choice in summary.choices.as_slice() {
        write_waiting(text, writer)?;
        push_choice(form, summary, choice, is_first, text);
        is_first = false;
    }
    push_end(form, summary.roll, text);
    write_waiting(text, writer)
}

/// Writes the text that waits, and empties it.
fn write_waiting<W: Write>(text: &mut Text, writer: &mut W) -> Result<(), WriteFault>
    ensures all { OnOk result
        (Appends (W.contents writer.old) (W.contents writer.new) text.old.bytes) }
    ensures empty { OnOk result (text.new.bytes ≡ []) }
    ensures part { OnErr result
        (AppendsPart (W.contents writer.old) (W.contents writer.new) text.old.bytes) }
{
    write_bytes(text.as_str().as_bytes(), writer)?;
    text.clear();
    Ok(())
}

fn push_players(form: Form, summary: &Summary, text: &mut Text)
    requires { array_string_len text.old + 16500 ≤ TEXT_ROOM }
    ensures values { Adds (player_values form summary.now) text.old.bytes text.new.bytes }
    ensures len { array_string_len text.new ≤ array_string_len text.old + 16350 }
{
    match form {
        Form::Plain => plain::push_players(summary, text),
        Form::Json => json::push_players(summary, text),
    }
}

fn push_roll(form: Form, roll: Option<Roll>, text: &mut Text)
    requires { array_string_len text.old + 200 ≤ TEXT_ROOM }
    ensures values { Adds (roll_values roll) text.old.bytes text.new.bytes }
    ensures len { array_string_len text.new ≤ array_string_len text.old + 100 }
{
    match form {
        Form::Plain => plain::push_roll(roll, text),
        Form::Json => json::push_roll(roll, text),
    }
}

fn push_choice(
    form: Form,
    summary: &Summary,
    choice: &RankedChoice,
    is_first: bool,
    text: &mut Text,
)
    requires { array_string_len text.old + 500 ≤ TEXT_ROOM }
    ensures values { Adds (choice_values form summary.now.mine.position summary.now.roll choice.now)
        text.old.bytes text.new.bytes }
    ensures len { array_string_len text.new ≤ array_string_len text.old + 400 }
{
    let Some(roll) = summary.roll else {
        return;
    };
    match form {
        Form::Plain => plain::push_choice(&summary.mine, roll, choice, text),
        Form::Json => json::push_choice(&summary.mine, roll, choice, is_first, text),
    }
}

fn push_end(form: Form, roll: Option<Roll>, text: &mut Text)
    requires { array_string_len text.old + 3 ≤ TEXT_ROOM }
    ensures values { Adds [] text.old.bytes text.new.bytes }
    ensures len { array_string_len text.new ≤ array_string_len text.old + 3 }
{
    match form {
        Form::Plain => push_words(text, "\n"),
        Form::Json => json::push_end(roll, text),
    }
}
