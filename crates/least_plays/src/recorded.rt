//! What is recorded for the rolls of a position, tested by the best plays.
ghost use Rattle.std.specs.Prelude.{◌≡◌, ℕ, ◌<◌, ◌≤◌, ◌↔◌, slice_index, IsTrue, IfErr, OnOk};
ghost use Rattle.race_model.specs.Prelude.{IsPosition, roll_at, rank as rank_of, IsBestPlay};
ghost use Rattle.least_plays.specs.Recorded.{IsResult, IsLeastPlay, IsRefused, IsFirstRefused};

use crate::RankedMeans;
use home_board::Position;
use legal_plays::{Roll, play_to};
use ranking::Ranks;
use thiserror::Error;

/// Why what is recorded for a roll is refused.
#[derive(Clone, Copy, Debug, PartialEq, Eq, Error)]
pub enum PlayFault {
    /// It is no rank of a position that the roll leads to.
    #[error("no legal play")]
    NotLegal,

    /// Another result has a smaller mean.
    #[error("not the least mean")]
    NotLeast,
}

/// A play that is refused: the index of its roll, and why.
#[derive(Clone, Copy, Debug, PartialEq, Eq, Error)]
#[error("roll {roll}: {fault}")]
pub struct RefusedPlay {
    pub roll: u8,
    pub fault: PlayFault,
}

/// Tests the recorded plays of the 21 rolls against known best plays. In the order of the rolls'
/// indices: each is the rank of a result of its roll with the least mean. Else the first that
/// isn't.
pub fn check_plays<M: RankedMeans>(
    means: &M,
    ranks: &Ranks,
    position: &Position,
    recorded: &[u16; 21],
    best: &[u16; 21],
) -> Result<(), RefusedPlay>
    requires position { IsPosition position.now }
    requires next { rank_of position.now ≤ M.count means.now }
    requires best { (i : ℕ) → i < 21 →
        IsBestPlay (M.mean means.now) position.now (roll_at i) (slice_index best.now i) }
    ensures least { OnOk result ((i : ℕ) → i < 21 →
        IsLeastPlay (M.mean means.now) position.now (roll_at i) (slice_index recorded.now i)) }
    ensures fault { IfErr result
        (IsFirstRefused (M.mean means.now) (slice_index recorded.now) position.now) }
{
    for index in 0..21 {
        let place = usize::from(index);
        let (recorded, best) = (recorded[place], best[place]);
        if let Err(fault) = check_play(means, ranks, position, index, recorded, best) {
            return Err(RefusedPlay { roll: index, fault });
        }
    }
    Ok(())
}

/// Tests the recorded play of a roll, by its index, against the best result: it is that one, at
/// which nothing more is looked, or the rank of another result of no greater mean.
#[inline(always)]
fn check_play<M: RankedMeans>(
    means: &M,
    ranks: &Ranks,
    position: &Position,
    index: u8,
    recorded: u16,
    best: u16,
) -> Result<(), PlayFault>
    requires position { IsPosition position.now }
    requires next { rank_of position.now ≤ M.count means.now }
    requires index { index < 21 }
    requires best { IsBestPlay (M.mean means.now) position.now (roll_at index) best }
    ensures least { OnOk result
        (IsLeastPlay (M.mean means.now) position.now (roll_at index) recorded) }
    ensures fault { IfErr result
        (IsRefused (M.mean means.now) position.now (roll_at index) recorded) }
{
    if recorded == best {
        return Ok(());
    }
    check_other(means, ranks, position, index, recorded, best)
}

/// The same, where what is recorded is not the best.
#[inline(never)]
fn check_other<M: RankedMeans>(
    means: &M,
    ranks: &Ranks,
    position: &Position,
    index: u8,
    recorded: u16,
    best: u16,
) -> Result<(), PlayFault>
    requires position { IsPosition position.now }
    requires next { rank_of position.now ≤ M.count means.now }
    requires index { index < 21 }
    requires best { IsBestPlay (M.mean means.now) position.now (roll_at index) best }
    requires apart { ¬ (recorded ≡ best) }
    ensures least { OnOk result
        (IsLeastPlay (M.mean means.now) position.now (roll_at index) recorded) }
    ensures fault { IfErr result
        (IsRefused (M.mean means.now) position.now (roll_at index) recorded) }
{
    if !is_result(ranks, position, Roll::from_index(index).unwrap(), recorded) {
        return Err(PlayFault::NotLegal);
    }
    if means.is_less(best, recorded) {
        return Err(PlayFault::NotLeast);
    }
    Ok(())
}

/// Whether a number is the rank of a result of a roll.
fn is_result(ranks: &Ranks, position: &Position, roll: Roll, number: u16) -> bool
    ensures { IsTrue result ↔ IsResult position.now roll number }
{
    match ranks.unrank(number) {
        Some(to) => play_to(position, roll, &to).is_some(),
        None => false,
    }
}
