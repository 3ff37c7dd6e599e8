//! What words ask about: a file, positions and a roll.
ghost use Rattle.std.specs.Prelude.{◌≡◌, Err, IsTrue, IfSome};
ghost use Rattle.std.specs.Option.{option_map};
ghost use Rattle.notation.specs.Readings.{IsReading};
ghost use Rattle.race_summary.specs.Words.{HasFile, HasRoll, IsRollWord, IsSplit};

use legal_plays::{Roll, parse_roll};
use notation::{NoRace, read_race};

/// What words ask about.
#[derive(Clone, Copy, Debug)]
pub struct Given<'a> {
    /// The file, where one is named.
    pub file: Option<&'a str>,

    /// A line for each position.
    pub lines: &'a [u8],

    /// The roll, where one is given.
    pub roll: Option<Roll>,
}

/// What lines ask about that are words, each with a line feed behind it: the last one is a roll
/// where it is the text of one and others stand before it, and the first one is a file where it is
/// no notation and a position follows.
pub fn split(words: &str) -> Given<'_>
    ensures { IsSplit words.now (option_map (λ file. file.now) result.file) result.lines.now
        result.roll }
{
    let (lines, roll) = without_roll(words);
    let (file, lines) = without_file(lines);
    Given {
        file,
        lines: lines.as_bytes(),
        roll,
    }
}

/// The lines, and the roll that the last of several is.
fn without_roll(lines: &str) -> (&str, Option<Roll>)
    ensures { HasRoll lines.now result.0.now result.1 }
{
    let Some((before, last)) = lines.trim_end().rsplit_once("\n") else {
        return (lines, None);
    };
    match read_roll(last.as_bytes()) {
        Some(roll) => (before, Some(roll)),
        None => (lines, None),
    }
}

/// The lines, and the file that the first of several is.
fn without_file(lines: &str) -> (Option<&str>, &str)
    ensures { HasFile lines.now (option_map (λ file. file.now) result.0) result.1.now }
{
    match lines.trim_end().split_once("\n") {
        Some((first, rest)) if is_no_notation(first) => (Some(first), rest),
        _ => (None, lines),
    }
}

fn is_no_notation(word: &str) -> bool
    ensures { IsTrue result → IsReading word.now (Err NoRace.BadText) }
{
    word != "-" && matches!(read_race(word.as_bytes()), Err(NoRace::BadText))
}

/// The roll of a text: two digits from 1 to 6, in either order, also with a hyphen between.
pub fn read_roll(text: &[u8]) -> Option<Roll>
    ensures { IfSome result (IsRollWord text.now) }
{
    match text {
        [one, between, other] if *between == b'-' => parse_roll(&[*one, *other]),
        _ => parse_roll(text),
    }
}
