//! A text that is any of the notations.
ghost use Rattle.std.specs.Prelude.{◌≡◌, map, MatchOption, IfOk, IfErr};
ghost use Rattle.std.specs.List.{list_any};
ghost use Rattle.notation.specs.Readings.{bare, has_comma, AreIds, Tells, IsRace, IsOfCounts, IsReading};
ghost use Rattle.notation.specs.Sides.{IsFault};
ghost use Rattle.notation.specs.declared.told.Told.{Told};

use crate::ids::{read_match_id, read_position_id};
use crate::parts::parts;
use crate::sides::{fault, home};
use crate::told::{NoRace, Race, Side, Told};
use crate::xgid::read_xgid;
use home_board::{PositionFault, parse_position};

/// The race of a text, around which blanks may stand: with commas it is six counts, those of the
/// player on roll; with nine colons an XGID, before which `XGID=` may stand; else a Position ID of
/// GNU Backgammon, alone or with a Match ID behind blanks or a colon, with or without the labels
/// that it prints before them. What an XGID or a Match ID says of the cube, the score and the match
/// is not asked. Refused as `BadText` where it is none of these, and else by the first reason that
/// holds.
pub fn read_race(text: &[u8]) -> Result<Race, NoRace>
    ensures { IsReading text.now result }
{
    if has_comma(text) {
        return read_counts(text.trim_ascii());
    }
    match read_told(text) {
        Some(told) => race(&told),
        None => Err(NoRace::BadText),
    }
}

fn has_comma(text: &[u8]) -> bool
    ensures { result ≡ has_comma text.now }
{
    text.iter().any(|byte| *byte == b',')
}

/// The race of six counts, which tell the player on roll's checkers alone.
fn read_counts(text: &[u8]) -> Result<Race, NoRace>
    ensures { IsOfCounts text.now result }
{
    match parse_position(text) {
        Ok(position) => Ok(Race {
            mine: position,
            theirs: None,
            roll: None,
            on_roll: None,
        }),
        Err(PositionFault::TooMany) => Err(NoRace::TooMany(Side::Mine)),
        Err(PositionFault::BadText) => Err(NoRace::BadText),
    }
}

/// What an XGID or the IDs of GNU Backgammon tell.
fn read_told(text: &[u8]) -> Option<Told>
    ensures { MatchOption result ((told : Told) → ¬ Tells text.now told)
        (λ told. Tells text.now told) }
{
    let fields = parts(bare(text.trim_ascii()), false);
    if fields.len() == 10 {
        return read_xgid(fields.as_slice());
    }
    let words = parts(text, true);
    read_ids(words.as_slice())
}

/// An XGID without what may stand before it.
fn bare(text: &[u8]) -> &[u8]
    ensures { result.now ≡ bare text.now }
{
    text.strip_prefix(b"XGID=").unwrap_or(text)
}

/// What a Position ID tells, alone or with a Match ID.
fn read_ids(words: &[&[u8]]) -> Option<Told>
    ensures { MatchOption result ((told : Told) → ¬ AreIds (map (λ word. word.now) words.now) told)
        (λ told. AreIds (map (λ word. word.now) words.now) told) }
{
    if words.len() != 1 && words.len() != 2 {
        return None;
    }
    let Some(sides) = read_position_id(words[0]) else {
        return None;
    };
    let (theirs, mine) = sides;
    if words.len() == 1 {
        return Some(Told {
            mine,
            theirs,
            roll: None,
            on_roll: None,
        });
    }
    let Some((player, roll)) = read_match_id(words[1]) else {
        return None;
    };
    Some(Told {
        mine,
        theirs,
        roll,
        on_roll: Some(player),
    })
}

/// The race that is told.
fn race(told: &Told) -> Result<Race, NoRace>
    ensures race { IfOk result (λ race. IsRace told.now race) }
    ensures fault { IfErr result (λ fault. IsFault told.now.mine told.now.theirs fault) }
{
    if let Some(fault) = fault(&told.mine, &told.theirs) {
        return Err(fault);
    }
    Ok(Race {
        mine: home(&told.mine),
        theirs: Some(home(&told.theirs)),
        roll: told.roll,
        on_roll: told.on_roll,
    })
}
