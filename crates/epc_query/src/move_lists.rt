//! Every result of a roll by what it costs.
ghost use Rattle.std.specs.Prelude.{◌≡◌, ℕ, ◌+◌, ◌*◌, ◌≤◌, List, [], ◌++◌, IsSome, length, map, All};
ghost use Rattle.arrayvec.specs.ArrayString.{array_string_len};
ghost use Rattle.race_model.specs.Prelude.{pips, rank as rank_of, loss_in, IsMoveListIn, IsMovesReplyOver};
ghost use Rattle.fixed_fraction.specs.Board.{board_whole};
ghost use Rattle.epc_query.specs.Kinds.{long_by};
ghost use Rattle.epc_query.specs.Choices.{result_of};
ghost use Rattle.epc_query.specs.Lists.{IsPartOf, IsListText};

use crate::choices::{MOST_RESULTS, RankedChoice, include_choice};
use crate::losses::{least_mean, lost};
use crate::opened::Opened;
use arrayvec::ArrayVec;
use fixed_fraction::board_mean_fraction;
use home_board::Position;
use legal_plays::{Roll, results};
use query_text::{TEXT_ROOM, Text, push_choice, put_moves};
use race_model::laws;

/// Puts every result of a roll from a position of at most the bound into an empty list, by rising
/// loss and then by rising rank, each with its rank and its loss.
pub(crate) fn list(
    opened: &Opened<'_>,
    position: &Position,
    roll: Roll,
    choices: &mut ArrayVec<RankedChoice, MOST_RESULTS>,
) -> Option<()>
    requires within { pips position.now ≤ (long_by opened.now).bound }
    requires none { choices.old.items ≡ [] }
    ensures some { IsSome result }
    ensures listed { IsMoveListIn (long_by opened.now)
        position.now roll (map result_of choices.new.items) }
    ensures losses { All (λ choice. choice.loss
        ≡ loss_in (long_by opened.now) position.now roll choice.to) choices.new.items }
    ensures ranks { All (λ choice. choice.rank ≡ rank_of choice.to) choices.new.items }
{
    laws::law_results();
    let _bound = opened.long_bound();
    let _pips = position.pips();
    let found = results(position, roll);
    let least = least_mean(opened, position, roll)?;
    for to in found.as_slice() {
        let rank = opened.ranks().rank(to);
        let loss = lost(opened, position, roll, least, to, rank)?;
        include_choice(
            choices,
            RankedChoice {
                to: *to,
                rank,
                loss,
            },
        );
    }
    Some(())
}

/// Makes a text every result of a roll from a position of at most the bound, by way of an empty
/// list.
pub(crate) fn put_list(
    opened: &Opened<'_>,
    position: &Position,
    roll: Roll,
    choices: &mut ArrayVec<RankedChoice, MOST_RESULTS>,
    text: &mut Text,
) -> Option<()>
    requires within { pips position.now ≤ (long_by opened.now).bound }
    requires none { choices.old.items ≡ [] }
    ensures some { IsSome result }
    ensures answer { IsMovesReplyOver board_whole (long_by opened.now) position.now roll
        text.new.bytes }
    ensures len { array_string_len text.new ≤ 16642 }
{
    list(opened, position, roll, choices)?;
    put_choices(choices.as_slice(), text);
    Some(())
}

/// Makes a text the list of moves of up to 127 results with their losses, in their order.
fn put_choices(choices: &[RankedChoice], text: &mut Text)
    requires few { length choices.now ≤ 127 }
    ensures text { IsListText choices.now text.new.bytes }
    ensures len { array_string_len text.new ≤ 16642 }
{
    put_moves(text);
    for choice in choices {
        put_next(text, choice);
    }
}

/// Adds a result and its loss, as they stand in a list of moves after what is before them.
fn put_next(text: &mut Text, choice: &RankedChoice)
    requires { array_string_len text.old + 131 ≤ TEXT_ROOM }
    ensures part { (part : List ℕ) × IsPartOf choice.now part
        × (text.new.bytes ≡ text.old.bytes ++ part) }
    ensures len { array_string_len text.new ≤ array_string_len text.old + 131 }
{
    let _checkers = choice.to.checkers();
    push_choice(text, &choice.to, board_mean_fraction(choice.loss));
}
