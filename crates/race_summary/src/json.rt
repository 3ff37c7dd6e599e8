//! A summary for programs: an object of JSON on one line.
ghost use Rattle.std.specs.Prelude.{◌≡◌, ◌+◌, ◌*◌, ◌<◌, ◌≤◌, [], ◌∷◌, flat_map, true, length, Some};
ghost use Rattle.arrayvec.specs.ArrayString.{array_string_len};
ghost use Rattle.race_summary.specs.Printed.{width, are_words, below, Adds};
ghost use Rattle.race_summary.specs.Values.{choice_values, others, player_values, roll_values};
ghost use Rattle.race_summary.specs.Values.{share_values, side_values};
ghost use Rattle.race_summary.specs.declared.lines.Form.TheVariants.{Json};

use crate::lines::Summary;
use crate::sides::Side;
use crate::values::{Value, push_field, push_value, push_words};
use epc_query::{RankedChoice, Rounded};
use fixed_fraction::BoardMean;
use legal_plays::Roll;
use query_text::{TEXT_ROOM, Text};

/// Adds what the summary says of the players.
pub(crate) fn push_players(summary: &Summary, text: &mut Text)
    requires { array_string_len text.old + 16500 ≤ TEXT_ROOM }
    ensures values { Adds (player_values Json summary.now) text.old.bytes text.new.bytes }
    ensures len { array_string_len text.new ≤ array_string_len text.old + 16350 }
{
    push_words(text, "{\"on_roll\":");
    push_side(&summary.mine, text);
    push_other(summary, text);
}

/// Adds what is said of the other player, where there is one.
fn push_other(summary: &Summary, text: &mut Text)
    requires { array_string_len text.old + 8300 ≤ TEXT_ROOM }
    ensures values { Adds (flat_map side_values (others summary.now.theirs))
        text.old.bytes text.new.bytes }
    ensures len { array_string_len text.new ≤ array_string_len text.old + 8170 }
{
    if let Some(side) = &summary.theirs {
        push_words(text, ",\"other\":");
        push_side(side, text);
    }
}

/// Adds what is said of a player.
fn push_side(side: &Side, text: &mut Text)
    requires { array_string_len text.old + 8280 ≤ TEXT_ROOM }
    ensures values { Adds (side_values side.now) text.old.bytes text.new.bytes }
    ensures len { array_string_len text.new ≤ array_string_len text.old + 8160 }
{
    push_field(text, "{\"position\":\"", Value::Counts(side.position));
    push_field(text, "\",\"pips\":", Value::Whole(side.position.pips()));
    push_words(text, ",\"epc\":");
    push_rounded(text, side.epc);
    push_field(text, ",\"wastage\":", Value::Thousandths(side.wastage));
    push_words(text, ",\"rolls\":");
    push_rounded(text, side.rolls);
    push_field(
        text,
        ",\"standard_deviation\":",
        Value::Thousandths(side.deviation),
    );
    push_words(text, ",\"shares\":{");
    push_shares(side, text);
    push_words(text, "}}");
}

/// Adds the shares of a player that are not zero.
fn push_shares(side: &Side, text: &mut Text)
    requires { array_string_len text.old + 7640 ≤ TEXT_ROOM }
    ensures values { Adds (below (share_values side.now) 34) text.old.bytes text.new.bytes }
    ensures len { array_string_len text.new ≤ array_string_len text.old + 7548 }
{
    let mut is_first = true;
    for k in 0..34u8 {
        let share = side.share(k);
        if BoardMean::ZERO.is_less(share) {
            push_words(text, separator(is_first));
            push_field(text, "\"", Value::Whole(k));
            push_words(text, "\":");
            push_number(text, Value::Rolls(share), Value::ExactRolls(share));
            is_first = false;
        }
    }
}

/// What stands before an item: a comma unless it is the first one.
fn separator(is_first: bool) -> &'static str
    ensures words { are_words result.now ≡ true }
    ensures len { length result.now ≤ 1 }
{
    if is_first { "" } else { "," }
}

/// Adds a number in decimals and exact.
fn push_rounded(text: &mut Text, number: Rounded)
    requires { array_string_len text.old + 260 ≤ TEXT_ROOM }
    ensures values { Adds (Value.Thousandths number.thousandths ∷ Value.Exact number.exact ∷ [])
        text.old.bytes text.new.bytes }
    ensures len { array_string_len text.new ≤ array_string_len text.old + 179 }
{
    push_number(
        text,
        Value::Thousandths(number.thousandths),
        Value::Exact(number.exact),
    );
}

/// Adds a number in two ways: in decimals and exact.
fn push_number(text: &mut Text, decimal: Value, exact: Value)
    requires { array_string_len text.old + 260 ≤ TEXT_ROOM }
    ensures values { Adds (decimal ∷ exact ∷ []) text.old.bytes text.new.bytes }
    ensures len { array_string_len text.new
        ≤ array_string_len text.old + 23 + width decimal + width exact }
{
    push_field(text, "{\"decimal\":", decimal);
    push_field(text, ",\"exact\":\"", exact);
    push_words(text, "\"}");
}

/// Adds a roll, where there is one, before its plays.
pub(crate) fn push_roll(roll: Option<Roll>, text: &mut Text)
    requires { array_string_len text.old + 200 ≤ TEXT_ROOM }
    ensures values { Adds (roll_values roll) text.old.bytes text.new.bytes }
    ensures len { array_string_len text.new ≤ array_string_len text.old + 100 }
{
    if let Some(roll) = roll {
        push_field(text, ",\"roll\":\"", Value::Dice(roll));
        push_words(text, "\",\"plays\":[");
    }
}

/// Adds a play of a roll with its cost.
pub(crate) fn push_choice(
    side: &Side,
    roll: Roll,
    choice: &RankedChoice,
    is_first: bool,
    text: &mut Text,
)
    requires { array_string_len text.old + 500 ≤ TEXT_ROOM }
    ensures values { Adds (choice_values Json side.now.position (Some roll) choice.now)
        text.old.bytes text.new.bytes }
    ensures len { array_string_len text.new ≤ array_string_len text.old + 400 }
{
    push_words(text, separator(is_first));
    push_field(text, "{\"to\":\"", Value::Counts(choice.to));
    push_field(
        text,
        "\",\"moves\":\"",
        Value::Play(side.position, roll, choice.to),
    );
    push_words(text, "\",\"cost\":");
    push_number(
        text,
        Value::Rolls(choice.loss),
        Value::ExactRolls(choice.loss),
    );
    push_words(text, "}");
}

/// Adds what stands behind the plays, where there is a roll, and at the end.
pub(crate) fn push_end(roll: Option<Roll>, text: &mut Text)
    requires { array_string_len text.old + 3 ≤ TEXT_ROOM }
    ensures values { Adds [] text.old.bytes text.new.bytes }
    ensures len { array_string_len text.new ≤ array_string_len text.old + 3 }
{
    push_words(text, if roll.is_some() { "]}\n" } else { "}\n" });
}
