//! What a position takes, what a roll is played with, and what plays cost.
ghost use Rattle.std.specs.Prelude.{◌≡◌, ◌≤◌, IsSome, IfSome};
ghost use Rattle.race_model.specs.Prelude.{pips, Legal, rank as rank_of, IsFirstPlay, play_in, recorded_in, loss_in};
ghost use Rattle.legal_plays.specs.MoveLists.{moves_of};
ghost use Rattle.epc_query.specs.Kinds.{long_by};

use crate::opened::Opened;
use fixed_fraction::BoardMean;
use home_board::Position;
use legal_plays::{Play, Roll, play_to};
use race_model::laws;

/// The recorded play of a roll from a position of at most the bound, and the position that it leads
/// to.
pub(crate) fn play(opened: &Opened<'_>, position: &Position, roll: Roll) -> Option<(Play, Position)>
    requires { pips position.now ≤ (long_by opened.now).bound }
    ensures some { IsSome result }
    ensures recorded { IfSome result (λ answer.
        answer.1 ≡ recorded_in (long_by opened.now) position.now roll) }
    ensures first { IfSome result (λ answer.
        IsFirstPlay position.now roll answer.1 (moves_of answer.0.items)) }
    ensures legal { IfSome result (λ answer. Legal position.now roll answer.1) }
{
    let _bound = opened.long_bound();
    let _pips = position.pips();
    let recorded = opened.recorded(position, roll)?;
    let to = opened.ranks().unrank(recorded)?;
    let play = play_to(position, roll, &to)?;
    Some((play, to))
}

/// The least mean after a roll from a position of at most the bound: that after the recorded play.
pub(crate) fn least_mean(opened: &Opened<'_>, position: &Position, roll: Roll) -> Option<BoardMean>
    requires { pips position.now ≤ (long_by opened.now).bound }
    ensures some { IsSome result }
    ensures recorded { IfSome result (λ least. least
        ≡ (long_by opened.now).means (play_in (long_by opened.now) position.now roll)) }
{
    laws::law_results();
    let _bound = opened.long_bound();
    let _pips = position.pips();
    let recorded = opened.recorded(position, roll)?;
    let to = opened.ranks().unrank(recorded)?;
    // so that nothing is told by bytes that were changed to where the roll doesn't lead
    let _play = play_to(position, roll, &to)?;
    opened.long_mean(to.pips(), recorded)
}

/// What a result of a roll, whose rank is known, costs beside the least mean, in rolls.
pub(crate) fn lost(
    opened: &Opened<'_>,
    position: &Position,
    roll: Roll,
    least: BoardMean,
    to: &Position,
    rank: u16,
) -> Option<BoardMean>
    requires within { pips position.now ≤ (long_by opened.now).bound }
    requires legal { Legal position.now roll to.now }
    requires least { least
        ≡ (long_by opened.now).means (play_in (long_by opened.now) position.now roll) }
    requires rank { rank ≡ rank_of to.now }
    ensures some { IsSome result }
    ensures recorded { IfSome result (λ lost.
        lost ≡ loss_in (long_by opened.now) position.now roll to.now) }
{
    laws::law_results();
    laws::law_loss();
    let _bound = opened.long_bound();
    let _pips = position.pips();
    opened.long_mean(to.pips(), rank)?.minus(least)
}

/// What a result of a roll costs, in rolls: the mean after it less the least such mean among all
/// results.
pub(crate) fn loss(
    opened: &Opened<'_>,
    position: &Position,
    roll: Roll,
    to: &Position,
) -> Option<BoardMean>
    requires within { pips position.now ≤ (long_by opened.now).bound }
    requires legal { Legal position.now roll to.now }
    ensures some { IsSome result }
    ensures recorded { IfSome result (λ lost.
        lost ≡ loss_in (long_by opened.now) position.now roll to.now) }
{
    let least = least_mean(opened, position, roll)?;
    let rank = opened.ranks().rank(to);
    lost(opened, position, roll, least, to, rank)
}
