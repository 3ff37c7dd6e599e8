//! The positions of one pip count, and the line that an audit writes of them.
ghost use Rattle.std.specs.Prelude.{◌≡◌, ◌+◌, ◌*◌, ◌<◌, ◌≤◌, min, max, IsSome, IfSome, OnSome};
ghost use Rattle.arrayvec.specs.ArrayString.{array_string_len};
ghost use Rattle.race_model.specs.Prelude.{IsLevelLineOver, count_to};
ghost use Rattle.fixed_fraction.specs.Board.{board_whole};
ghost use Rattle.epc_query.specs.Kinds.{long_by};
ghost use Rattle.epc_query.specs.BookLevels.{HasLevelIn};

use crate::opened::Opened;
use fixed_fraction::{BoardMean, board_mean_fraction};
use query_text::{Text, put_level};
use race_model::laws;
use ranking::{count_to, first_of};

/// Makes a text the line that an audit writes of the positions of a pip count of at most the bound.
/// Nothing is missing unless the bytes were changed since they were checked.
pub(crate) fn put_level_line(opened: &Opened<'_>, pips: u8, text: &mut Text) -> Option<()>
    requires { pips ≤ (long_by opened.now).bound }
    ensures some { IsSome result }
    ensures line { OnSome result
        (IsLevelLineOver board_whole (long_by opened.now) pips text.new.bytes) }
    ensures len { OnSome result (array_string_len text.new ≤ 282) }
{
    let level = find_level(opened, pips)?;
    let least = board_mean_fraction(level.least);
    let greatest = board_mean_fraction(level.greatest);
    put_level(text, level.pips, level.positions, least, greatest);
    Some(())
}

/// The positions of one pip count.
#[derive(Clone, Copy, Debug, PartialEq, Eq)]
struct BookLevel {
    /// The pip count.
    pub pips: u8,

    /// How many positions have it.
    pub positions: u16,

    /// The least mean number of rolls of these positions.
    pub least: BoardMean,

    /// The greatest mean number of rolls of these positions.
    pub greatest: BoardMean,
}

/// How many positions have a pip count of at most the bound, and the least and the greatest of
/// their means.
fn find_level(opened: &Opened<'_>, pips: u8) -> Option<BookLevel>
    requires { pips ≤ (long_by opened.now).bound }
    ensures some { IsSome result }
    ensures level { IfSome result (HasLevelIn (long_by opened.now) pips) }
{
    laws::law_rank();
    laws::law_at_rank();
    laws::law_counts();
    let _bound = opened.long_bound();
    let first = first_of(pips);
    let end = count_to(pips);
    let mut least = opened.long_mean(opened.pips_at(first), first)?;
    let mut greatest = least;
    for rank in first + 1..end {
        let mean = opened.long_mean(opened.pips_at(rank), rank)?;
        least = lesser(least, mean);
        greatest = greater(greatest, mean);
    }
    Some(BookLevel {
        pips,
        positions: end - first,
        least,
        greatest,
    })
}

/// The lesser of two means.
fn lesser(one: BoardMean, other: BoardMean) -> BoardMean
    ensures { result ≡ min one other }
{
    if other.is_less(one) { other } else { one }
}

/// The greater of two means.
fn greater(one: BoardMean, other: BoardMean) -> BoardMean
    ensures { result ≡ max one other }
{
    if one.is_less(other) { other } else { one }
}
