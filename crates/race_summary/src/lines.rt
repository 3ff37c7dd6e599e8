//! The summary of a line.
ghost use Rattle.std.specs.Prelude.{◌≡◌, ◌≤◌, ℕ, List, [], MatchResult, IfOk, OnErr, IsSome};
ghost use Rattle.std.specs.Io.KnownBytes.{Appends};
ghost use Rattle.db_layout.specs.Writes.{AppendsPart};
ghost use Rattle.race_model.specs.Prelude.{pips};
ghost use Rattle.epc_query.specs.Kinds.{book_by};
ghost use Rattle.race_summary.specs.Shown.{IsShown, IsShownFirst};
ghost use Rattle.race_summary.specs.Summaries.{IsSummary, IsNoSummary, Says, SaysNothing, AreChoices};

use crate::sides::Side;
use crate::{refusals, writing};
use arrayvec::ArrayVec;
use db_layout::{WriteFault, write_bytes};
use epc_query::{Opened, RankedChoice};
use home_board::Position;
use legal_plays::Roll;
use notation::{NoRace, read_race};
use query_text::Text;
use std::io::Write;

/// How a summary is written.
#[derive(Clone, Copy, Debug, PartialEq, Eq)]
pub enum Form {
    /// For people: a number a line.
    Plain,

    /// For programs: an object of JSON on one line.
    Json,
}

/// A race in numbers.
#[derive(Drop)]
pub(crate) struct Summary {
    pub mine: Side,
    pub theirs: Option<Side>,
    pub roll: Option<Roll>,
    pub choices: ArrayVec<RankedChoice, 127>,
}

/// Why a line has no summary.
#[derive(Clone, Copy)]
pub(crate) enum NoSummary {
    Text(NoRace),

    /// An XGID in small letters, whose case would tell whose checkers they are.
    SmallXgid,

    /// A position has more pips than the file, whose bound this is.
    OverBound(u8),

    /// The bytes of the file were changed since they were accepted.
    Changed,
}

/// Writes the summary of a line, a position in any notation, over a file; a roll that is given
/// takes the place of one that the line tells. Where the line has no summary, why is written in its
/// place. Returns whether there was one.
pub fn write_summary<W: Write>(
    opened: &Opened<'_>,
    line: &[u8],
    roll: Option<Roll>,
    form: Form,
    text: &mut Text,
    writer: &mut W,
) -> Result<bool, WriteFault>
    ensures all { IfOk result (λ has_summary. (text : List ℕ)
        × IsShown opened.now line.now roll form has_summary text
        × Appends (W.contents writer.old) (W.contents writer.new) text) }
    ensures part { OnErr result ((text : List ℕ)
        × IsShownFirst opened.now line.now roll form text
        × AppendsPart (W.contents writer.old) (W.contents writer.new) text) }
{
    match summary_of(opened, line, roll) {
        Ok(summary) => {
            writing::write(&summary, form, text, writer)?;
            Ok(true)
        }
        Err(why) => {
            refusals::put(form, &why, text);
            write_bytes(text.as_str().as_bytes(), writer)?;
            Ok(false)
        }
    }
}

/// The summary of a line.
fn summary_of(opened: &Opened<'_>, line: &[u8], given: Option<Roll>) -> Result<Summary, NoSummary>
    ensures { MatchResult result (IsSummary opened.now line.now given)
        (IsNoSummary opened.now line.now) }
{
    let race = match read_race(line) {
        Ok(race) => race,
        Err(_) if line.trim_ascii().starts_with(b"xgid=") => return Err(NoSummary::SmallXgid),
        Err(why) => return Err(NoSummary::Text(why)),
    };
    let mine = side_of(opened, race.mine)?;
    let theirs = match race.theirs {
        Some(position) => Some(side_of(opened, position)?),
        None => None,
    };
    let roll = given.or(race.roll);
    let mut choices = ArrayVec::new();
    if list(opened, &race.mine, roll, &mut choices).is_none() {
        return Err(NoSummary::Changed);
    }
    Ok(Summary {
        mine,
        theirs,
        roll,
        choices,
    })
}

/// What the file says of one player's checkers.
fn side_of(opened: &Opened<'_>, position: Position) -> Result<Side, NoSummary>
    ensures { MatchResult result (Says opened.now position) (SaysNothing opened.now position) }
{
    if position.pips() > opened.bound() {
        return Err(NoSummary::OverBound(opened.bound()));
    }
    match Side::of(opened, position) {
        Some(side) => Ok(side),
        None => Err(NoSummary::Changed),
    }
}

/// Puts every result of a roll, where there is one, into an empty list.
fn list(
    opened: &Opened<'_>,
    position: &Position,
    roll: Option<Roll>,
    choices: &mut ArrayVec<RankedChoice, 127>,
) -> Option<()>
    requires within { pips position.now ≤ (book_by opened.now).bound }
    requires none { choices.old.items ≡ [] }
    ensures some { IsSome result }
    ensures choices { AreChoices opened.now position.now roll choices.new.items }
{
    match roll {
        Some(roll) => opened.moves(position, roll, choices),
        None => Some(()),
    }
}
