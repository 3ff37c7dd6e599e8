//! What a line of input asks.
ghost use Rattle.std.specs.Prelude.{◌≡◌, ◌≢◌, ℕ, ◌<◌, List, [], ◌∷◌, ◌++◌, ◌==◌, length, position, IfSome, MatchOption};
ghost use Rattle.race_model.specs.Prelude.{Throw, mean_query, IsQuery, HasTooMany, IsRollText, words};
ghost use Rattle.query_text.specs.Readings.{text_of_word, IsPositionReading, IsThrowReading};
ghost use Rattle.query_text.specs.Readings.{IsResultReading, IsRestReading, IsReading, both};

use home_board::{Position, PositionFault, parse_position};
use legal_plays::{Roll, parse_roll};
use race_model::laws;

/// What a line asks.
#[derive(Clone, Copy, Debug, PartialEq, Eq)]
pub enum Query {
    /// The mean number of rolls of a position, and its effective pip count.
    Mean(Position),

    /// How the number of rolls of a position is spread.
    Dist(Position),

    /// What is played with a roll.
    Play(Position, Roll),

    /// What a result of a roll costs.
    Loss(Position, Roll, Position),

    /// All results of a roll, and what each costs.
    Moves(Position, Roll),

    /// The rank of a position.
    Rank(Position),
}

/// Why a line asks nothing.
#[derive(Clone, Copy, Debug, PartialEq, Eq)]
pub(crate) enum LineFault {
    /// It is not of the form of a query.
    BadLine,

    /// A position of it has more than 15 checkers.
    TooMany,
}

/// The first word of a query, which says what is asked.
#[derive(Clone, Copy, Debug, PartialEq, Eq)]
enum Word {
    Mean,
    Dist,
    Play,
    Loss,
    Moves,
    Rank,
}

/// What a line asks, which comes without its line feed. Refused as `BadLine` where it isn't of the
/// form of a query, and else as `TooMany` where a position of it has more than 15 checkers (this
/// project's profile).
pub(crate) fn read_query(line: &[u8]) -> Result<Query, LineFault>
    ensures { IsReading line.now result }
{
    laws::law_lines();
    let Some((word, rest)) = cut(line) else {
        return Err(LineFault::BadLine);
    };
    match read_word(word) {
        Some(kind) => read_rest(kind, rest),
        None => Err(LineFault::BadLine),
    }
}

/// The position of a `mean` line, if the line is one and well formed: what `read_query` tells too,
/// without a look at the words of other kinds.
pub fn read_mean_query(line: &[u8]) -> Option<Position>
    ensures { IfSome result (λ position. IsQuery line.now (mean_query position)
        × (¬ HasTooMany (mean_query position))) }
{
    let [b'm', b'e', b'a', b'n', b' ', rest @ ..] = line else {
        return None;
    };
    match read_position(rest) {
        Ok(position) => Some(position),
        Err(_) => None,
    }
}

/// What a line of a kind asks, of which this is what stands after the first word.
fn read_rest(kind: Word, rest: &[u8]) -> Result<Query, LineFault>
    ensures { IsRestReading kind rest.now result }
{
    match kind {
        Word::Mean => read_position(rest).map(Query::Mean),
        Word::Dist => read_position(rest).map(Query::Dist),
        Word::Play => read_throw(rest).map(|(position, roll)| Query::Play(position, roll)),
        Word::Loss => read_result(rest).map(|(position, roll, to)| Query::Loss(position, roll, to)),
        Word::Moves => read_throw(rest).map(|(position, roll)| Query::Moves(position, roll)),
        Word::Rank => read_position(rest).map(Query::Rank),
    }
}

/// The kind of query that a word names.
fn read_word(word: &[u8]) -> Option<Word>
    ensures { MatchOption result ((kind : Word) → word.now ≢ text_of_word kind)
        (λ kind. word.now ≡ text_of_word kind) }
{
    match word {
        b"mean" => Some(Word::Mean),
        b"dist" => Some(Word::Dist),
        b"play" => Some(Word::Play),
        b"loss" => Some(Word::Loss),
        b"moves" => Some(Word::Moves),
        b"rank" => Some(Word::Rank),
        _ => None,
    }
}

/// The part of a text before its first space, and the part after it; none where there is no
/// space.
fn cut(text: &[u8]) -> Option<(&[u8], &[u8])>
    ensures { MatchOption result (words text.now ≡ text.now ∷ [])
        (λ parts. (text.now ≡ parts.0.now ++ (32 ∷ parts.1.now))
        × (words text.now ≡ parts.0.now ∷ words parts.1.now)) }
{
    match first_space(text) {
        Some(place) => Some((&text[..place], &text[place + 1..])),
        None => None,
    }
}

/// Where the first space of a text stands.
fn first_space(text: &[u8]) -> Option<usize>
    ensures place { result ≡ position (λ c. c == 32) text.now }
    ensures within { IfSome result (λ place. place < length text.now) }
{
    text.iter().position(|byte| *byte == b' ')
}

/// The position that a text states.
fn read_position(text: &[u8]) -> Result<Position, LineFault>
    ensures { IsPositionReading text.now result }
{
    match parse_position(text) {
        Ok(position) => {
            let _checkers = position.checkers();
            Ok(position)
        }
        Err(PositionFault::BadText) => Err(LineFault::BadLine),
        Err(PositionFault::TooMany) => Err(LineFault::TooMany),
    }
}

/// The roll that a text states.
fn read_roll(text: &[u8]) -> Option<Roll>
    ensures { MatchOption result ((v : Throw) → ¬ IsRollText text.now v) (IsRollText text.now) }
{
    parse_roll(text)
}

/// The position and the roll that a text states, with a space between.
fn read_throw(text: &[u8]) -> Result<(Position, Roll), LineFault>
    ensures { IsThrowReading text.now result }
{
    let Some((position, roll)) = cut(text) else {
        return Err(LineFault::BadLine);
    };
    let Some(roll) = read_roll(roll) else {
        return Err(LineFault::BadLine);
    };
    match read_position(position) {
        Ok(position) => Ok((position, roll)),
        Err(fault) => Err(fault),
    }
}

/// The position, the roll and the result that a text states, with a space between each two.
fn read_result(text: &[u8]) -> Result<(Position, Roll, Position), LineFault>
    ensures { IsResultReading text.now result }
{
    let Some((position, rest)) = cut(text) else {
        return Err(LineFault::BadLine);
    };
    let Some((roll, to)) = cut(rest) else {
        return Err(LineFault::BadLine);
    };
    let Some(roll) = read_roll(roll) else {
        return Err(LineFault::BadLine);
    };
    both(read_position(position), roll, read_position(to))
}

/// Two positions and a roll, where both could be read: a text that states none comes before one
/// with too many checkers.
fn both(
    position: Result<Position, LineFault>,
    roll: Roll,
    to: Result<Position, LineFault>,
) -> Result<(Position, Roll, Position), LineFault>
    ensures { result ≡ both position roll to }
{
    match (position, to) {
        (Ok(position), Ok(to)) => Ok((position, roll, to)),
        (Err(LineFault::BadLine), _) | (_, Err(LineFault::BadLine)) => Err(LineFault::BadLine),
        _ => Err(LineFault::TooMany),
    }
}
