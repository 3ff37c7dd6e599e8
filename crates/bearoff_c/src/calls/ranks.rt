//! Positions that a file of any version has, and their ranks.
ghost use Rattle.std.specs.Prelude.{◌≡◌, ◌+◌, ◌<◌, ◌≤◌, true, IfOk, OnOk};
ghost use Rattle.race_model.specs.Prelude.{IsPosition, pips as pips_of, rank as rank_of, count_to};
ghost use Rattle.epc_query.specs.Kinds.{book_by};
ghost use Rattle.bearoff_c.specs.Refusals.{position_refusal, rank_refusal, refusal_in, status_of};

use crate::calls::positions::Counts;
use crate::kept::File;
use crate::statuses::{Refusal, put};
use epc_query::Opened;
use home_board::Position;

/// The position that counts state, where a file has a record of it. Refused as `TooMany` or
/// `OverBound`, exactly as `position_refusal` says of a file that is open.
pub fn find_in(opened: &Opened<'_>, counts: &Counts) -> Result<Position, Refusal>
    ensures refusal { refusal_in result
        ≡ position_refusal true (book_by opened.now).bound counts.now.points }
    ensures value { IfOk result (λ position. position ≡ counts.now.points) }
    ensures position { OnOk result (IsPosition counts.now.points) }
    ensures within { OnOk result (pips_of counts.now.points ≤ (book_by opened.now).bound) }
{
    let Ok(position) = Position::new(counts.points) else {
        return Err(Refusal::TooMany);
    };
    if position.pips() > opened.bound() {
        return Err(Refusal::OverBound);
    }
    Ok(position)
}

/// Whether a file has so many positions from a rank on. Refused exactly as `rank_refusal` says of
/// a file that is open.
pub fn find_ranks_in(opened: &Opened<'_>, first: u16, count: usize) -> Result<(), Refusal>
    ensures refusal { refusal_in result
        ≡ rank_refusal true (book_by opened.now).bound first count }
    ensures within { OnOk result (first + count ≤ count_to (book_by opened.now).bound) }
{
    match opened.positions().checked_sub(first) {
        Some(left) if count <= usize::from(left) => Ok(()),
        _ => Err(Refusal::NoRank),
    }
}

/// The rank of a position in a file. Refused as `bearoff_rank` is.
fn rank_in(file: &File<'_>, position: &Counts) -> Result<u16, Refusal>
    ensures refusal { refusal_in result
        ≡ position_refusal file.now.is_open file.now.bound position.now.points }
    ensures rank { IfOk result (λ rank. rank ≡ rank_of position.now.points) }
{
    let opened = file.opened()?;
    let found = find_in(&opened, position)?;
    Ok(opened.ranks().rank(&found))
}

/// The position of a rank in a file. Refused as `bearoff_position_of` is.
fn position_at(file: &File<'_>, rank: u16) -> Result<Counts, Refusal>
    ensures refusal { refusal_in result ≡ rank_refusal file.now.is_open file.now.bound rank 1 }
    ensures ranked { IfOk result (λ position. rank_of position.points ≡ rank) }
    ensures position { IfOk result (λ position. IsPosition position.points) }
{
    let opened = file.opened()?;
    find_ranks_in(&opened, rank, 1)?;
    Ok(Counts::of(&opened.position_at(rank)))
}

/// The rank of a position: how many positions are before it, which are those of fewer pips, and of
/// as many pips those with the smaller counts, that of point 1 first. Refused as `NotOpen`,
/// `TooMany` or `OverBound`; then `rank` stays as it was.
#[unsafe(no_mangle)]
pub extern "C" fn bearoff_rank(file: &File<'_>, position: &Counts, rank: &mut u16) -> u32
    ensures status { result ≡ status_of
        (position_refusal file.now.is_open file.now.bound position.now.points) }
    ensures rank { result ≡ 0 → rank.new ≡ rank_of position.now.points }
    ensures left { ¬ (result ≡ 0) → rank.new ≡ rank.old }
{
    put(rank_in(file, position), rank)
}

/// The position of a rank. Refused as `NotOpen`, and as `NoRank` exactly where the rank is not
/// below the number of positions; then `position` stays as it was.
#[unsafe(no_mangle)]
pub extern "C" fn bearoff_position_of(file: &File<'_>, rank: u16, position: &mut Counts) -> u32
    ensures status { result ≡ status_of
        (rank_refusal file.now.is_open file.now.bound rank 1) }
    ensures ranked { result ≡ 0 → rank_of position.new.points ≡ rank }
    ensures position { result ≡ 0 → IsPosition position.new.points }
    ensures left { ¬ (result ≡ 0) → position.new ≡ position.old }
{
    put(position_at(file, rank), position)
}
