//! A summary for people: a line for each number, and a column for each player.
ghost use Rattle.std.specs.Prelude.{◌≡◌, ◌+◌, ◌*◌, ◌<◌, ◌≤◌, [], map, slice_index, Some};
ghost use Rattle.std.specs.List.{list_any};
ghost use Rattle.arrayvec.specs.ArrayString.{array_string_len};
ghost use Rattle.race_summary.specs.Printed.{below, Adds};
ghost use Rattle.race_summary.specs.Values.{choice_values, is_seen, label_values, others, player_values};
ghost use Rattle.race_summary.specs.Values.{players, roll_values, row_value, row_values, share_row};
ghost use Rattle.race_summary.specs.declared.lines.Form.TheVariants.{Plain};

use crate::lines::Summary;
use crate::sides::Side;
use crate::values::{Value, push_field, push_value, push_words};
use epc_query::RankedChoice;
use fixed_fraction::BoardMean;
use legal_plays::Roll;
use query_text::{TEXT_ROOM, Text};

/// The column of the player on roll.
const FIRST: usize = 20;

/// The column of the other player.
const SECOND: usize = 34;

/// A number that is told of each player.
#[derive(Clone, Copy)]
pub(crate) enum Row {
    Position,
    Pips,
    Epc,
    Wastage,
    Rolls,
    Deviation,

    /// The share of this number of rolls.
    Share(u8),
}

/// Adds what the summary says of the players.
pub(crate) fn push_players(summary: &Summary, text: &mut Text)
    requires { array_string_len text.old + 8200 ≤ TEXT_ROOM }
    ensures values { Adds (player_values Plain summary.now) text.old.bytes text.new.bytes }
    ensures len { array_string_len text.new ≤ array_string_len text.old + 8100 }
{
    push_title(summary, text);
    push_row(Row::Position, summary, text);
    push_row(Row::Pips, summary, text);
    push_row(Row::Epc, summary, text);
    push_row(Row::Wastage, summary, text);
    push_row(Row::Rolls, summary, text);
    push_row(Row::Deviation, summary, text);
    push_shares(summary, text);
}

/// Adds the line above the columns.
fn push_title(summary: &Summary, text: &mut Text)
    requires { array_string_len text.old + 50 ≤ TEXT_ROOM }
    ensures values { Adds [] text.old.bytes text.new.bytes }
    ensures len { array_string_len text.new ≤ array_string_len text.old + 50 }
{
    push_words(text, "                    on roll");
    push_words(
        text,
        if summary.theirs.is_some() {
            "       other player\n"
        } else {
            "\n"
        },
    );
}

/// Adds a row for each number of rolls of which a player has a share.
fn push_shares(summary: &Summary, text: &mut Text)
    requires { array_string_len text.old + 6900 ≤ TEXT_ROOM }
    ensures values { Adds (below (share_row summary.now) 34) text.old.bytes text.new.bytes }
    ensures len { array_string_len text.new ≤ array_string_len text.old + 6800 }
{
    for rolls in 0..34u8 {
        if has_share(summary, rolls) {
            push_row(Row::Share(rolls), summary, text);
        }
    }
}

/// Whether a player's share of a number of rolls is a thousandth at least.
fn has_share(summary: &Summary, rolls: u8) -> bool
    ensures { result ≡ list_any (λ side. is_seen (slice_index side.shares rolls))
        (players summary.now) }
{
    let theirs = match &summary.theirs {
        Some(side) => is_seen(side.share(rolls)),
        None => false,
    };
    is_seen(summary.mine.share(rolls)) || theirs
}

/// Whether a share is a thousandth at least, rounded.
fn is_seen(share: BoardMean) -> bool
    ensures { result ≡ is_seen share }
{
    share.thousandths() > 0
}

/// Adds a row with a number of each player.
fn push_row(row: Row, summary: &Summary, text: &mut Text)
    requires { array_string_len text.old + 300 ≤ TEXT_ROOM }
    ensures values { Adds (row_values summary.now row) text.old.bytes text.new.bytes }
    ensures len { array_string_len text.new ≤ array_string_len text.old + 200 }
{
    let start = text.len();
    push_label(row, text);
    indent(start + FIRST, text);
    push_value(text, value_of(row, &summary.mine));
    push_other(row, start, summary, text);
    push_words(text, "\n");
}

/// Adds the number of a row of the other player, where there is one.
fn push_other(row: Row, start: usize, summary: &Summary, text: &mut Text)
    requires start { start ≤ TEXT_ROOM }
    requires room { array_string_len text.old + 160 ≤ TEXT_ROOM }
    ensures values { Adds (map (row_value row) (others summary.now.theirs))
        text.old.bytes text.new.bytes }
    ensures len { array_string_len text.new ≤ array_string_len text.old + 73 }
{
    if let Some(side) = &summary.theirs {
        indent(start + SECOND, text);
        push_value(text, value_of(row, side));
    }
}

/// Adds what a row tells.
fn push_label(row: Row, text: &mut Text)
    requires { array_string_len text.old + 130 ≤ TEXT_ROOM }
    ensures values { Adds (label_values row) text.old.bytes text.new.bytes }
    ensures len { array_string_len text.new ≤ array_string_len text.old + 48 }
{
    match row {
        Row::Position => push_words(text, "position"),
        Row::Pips => push_words(text, "pips"),
        Row::Epc => push_words(text, "EPC"),
        Row::Wastage => push_words(text, "wastage"),
        Row::Rolls => push_words(text, "expected rolls"),
        Row::Deviation => push_words(text, "standard deviation"),
        Row::Share(rolls) => {
            push_field(text, "in ", Value::Whole(rolls));
            push_words(text, if rolls == 1 { " roll" } else { " rolls" });
        }
    }
}

/// Adds spaces up to a length of the text, at most 34.
fn indent(end: usize, text: &mut Text)
    requires { array_string_len text.old + 34 ≤ TEXT_ROOM }
    ensures values { Adds [] text.old.bytes text.new.bytes }
    ensures len { array_string_len text.new ≤ array_string_len text.old + 34 }
{
    for space in 0..end.saturating_sub(text.len()).min(34) {
        push_words(text, " ");
    }
}

/// The number of a row of one player.
fn value_of(row: Row, side: &Side) -> Value
    ensures { result ≡ row_value row side.now }
{
    match row {
        Row::Position => Value::Counts(side.position),
        Row::Pips => Value::Whole(side.position.pips()),
        Row::Epc => Value::Thousandths(side.epc.thousandths),
        Row::Wastage => Value::Thousandths(side.wastage),
        Row::Rolls => Value::Thousandths(side.rolls.thousandths),
        Row::Deviation => Value::Thousandths(side.deviation),
        Row::Share(rolls) => Value::Percent(side.share(rolls)),
    }
}

/// Adds the line above the plays of a roll, where there is one.
pub(crate) fn push_roll(roll: Option<Roll>, text: &mut Text)
    requires { array_string_len text.old + 200 ≤ TEXT_ROOM }
    ensures values { Adds (roll_values roll) text.old.bytes text.new.bytes }
    ensures len { array_string_len text.new ≤ array_string_len text.old + 100 }
{
    if let Some(roll) = roll {
        let start = text.len();
        push_field(text, "plays of ", Value::Dice(roll));
        indent(start + FIRST, text);
        push_words(text, "cost in rolls\n");
    }
}

/// Adds a play of a roll with its cost.
pub(crate) fn push_choice(side: &Side, roll: Roll, choice: &RankedChoice, text: &mut Text)
    requires { array_string_len text.old + 500 ≤ TEXT_ROOM }
    ensures values { Adds (choice_values Plain side.now.position (Some roll) choice.now)
        text.old.bytes text.new.bytes }
    ensures len { array_string_len text.new ≤ array_string_len text.old + 400 }
{
    let start = text.len();
    push_field(text, " ", Value::Play(side.position, roll, choice.to));
    indent(start + FIRST - 1, text);
    push_words(text, " ");
    push_value(text, Value::Rolls(choice.loss));
    indent(start + SECOND, text);
    push_value(text, Value::Counts(choice.to));
    push_words(text, "\n");
}
