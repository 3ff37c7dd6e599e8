//! What a line asks, or why it is refused, by whatever answers it, as its bound says.
ghost use Rattle.std.specs.Prelude.{◌≡◌, ℕ, ◌↔◌, List, IsTrue, IfOk, IfErr, MatchOption};
ghost use Rattle.race_model.specs.Prelude.{subject, AsksOfFinished, HasResult, IsQuery, HasTooMany, IsRefused};
ghost use Rattle.race_model.specs.Prelude.{IsAccepted};
ghost use Rattle.query_text.specs.Readings.{asked, IsAnswerable};
ghost use Rattle.query_text.specs.Texts.{why};

use crate::query::{LineFault, Query, read_query};
use crate::reply::Refusal;
use home_board::Position;
use legal_plays::play_to;

/// The position that a query is about.
fn subject(query: &Query) -> Position
    ensures { result ≡ subject (asked query.now) }
{
    match query {
        Query::Mean(position)
        | Query::Dist(position)
        | Query::Play(position, _)
        | Query::Loss(position, _, _)
        | Query::Moves(position, _)
        | Query::Rank(position) => *position,
    }
}

/// Whether a play is asked of the finished position.
fn asks_of_finished(query: &Query) -> bool
    ensures { IsTrue result ↔ AsksOfFinished (asked query.now) }
{
    match query {
        Query::Play(position, _) | Query::Loss(position, _, _) | Query::Moves(position, _) => {
            position.is_finished()
        }
        Query::Mean(_) | Query::Dist(_) | Query::Rank(_) => false,
    }
}

/// Whether the roll leads to the position whose loss is asked, where one is asked.
fn has_result(query: &Query) -> bool
    ensures { IsTrue result ↔ HasResult (asked query.now) }
{
    match query {
        Query::Loss(position, roll, to) => play_to(position, *roll, to).is_some(),
        Query::Mean(_) | Query::Dist(_) | Query::Play(_, _) | Query::Moves(_, _) | Query::Rank(_) =>
            true,
    }
}

/// Why a query is refused within a bound. All its positions have at most 15 checkers; none exactly
/// where it is answered. A position over the bound comes first, then a play that is asked of the
/// finished position, and then a result that the roll doesn't lead to.
fn refusal(query: &Query, bound: u8) -> Option<Refusal>
    ensures { MatchOption result (IsAnswerable bound (asked query.now))
        (λ refusal. (line : List ℕ) → IsQuery line (asked query.now)
        → ¬ HasTooMany (asked query.now)
        → IsRefused bound line (why refusal)) }
{
    if subject(query).pips() > bound {
        return Some(Refusal::OverBound);
    }
    if asks_of_finished(query) {
        return Some(Refusal::Finished);
    }
    if !has_result(query) {
        return Some(Refusal::NotLegal);
    }
    None
}

/// Reads a line within a bound, or finds the first reason to refuse it. The line comes without its
/// line feed.
pub fn accepted_query(line: &[u8], bound: u8) -> Result<Query, Refusal>
    ensures accepted { IfOk result (λ query. IsAccepted bound line.now (asked query)) }
    ensures refused { IfErr result (λ refusal. IsRefused bound line.now (why refusal)) }
{
    match read_query(line) {
        Ok(query) => match refusal(&query, bound) {
            None => Ok(query),
            Some(refusal) => Err(refusal),
        },
        Err(LineFault::BadLine) => Err(Refusal::BadLine),
        Err(LineFault::TooMany) => Err(Refusal::TooMany),
    }
}
