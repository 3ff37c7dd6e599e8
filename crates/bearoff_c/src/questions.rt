//! What a file of any version is asked about a position, alone or in whole tables.
ghost use Rattle.std.specs.Prelude.{◌≡◌, ◌+◌, ◌<◌, ◌≤◌, IsTrue, IsSome, IfSome, IfOk, OnOk, OnErr, length};
ghost use Rattle.race_model.specs.Prelude.{Board as Place, IsPosition, rank as rank_of, count_to, Book};
ghost use Rattle.epc_query.specs.Kinds.{file_book, book_by};
ghost use Rattle.bearoff_c.specs.Told.{SaysByRank, SaysMean, SaysEpc, SaysShares};
ghost use Rattle.bearoff_c.specs.Refusals.{position_refusal, rank_refusal, refusal_in};

use crate::calls::distributions::{Distribution, longs};
use crate::calls::positions::Counts;
use crate::calls::ranks::{find_in, find_ranks_in};
use crate::kept::File;
use crate::numbers::{Long, RoundedLong};
use crate::statuses::Refusal;
use epc_query::Opened;

/// What a file is asked about a position.
pub trait Question {
    type Answer: Copy;

    // that it is what a book says of a position
    ghost says: { Book → Place → Self.Answer → Type 0 };

    /// Whether the file has an answer for the position of this rank, which it has unless its bytes
    /// were changed after the check.
    fn stands(opened: &Opened<'_>, rank: u16) -> bool
        requires { rank < count_to (book_by opened.now).bound }
        ensures { IsTrue result };

    /// The answer for the position of this rank, one that the file has.
    fn answer(opened: &Opened<'_>, rank: u16) -> Option<Self::Answer>
        requires { rank < count_to (book_by opened.now).bound }
        ensures some { IsSome result }
        ensures value { IfSome result (λ told. (x : Place) → IsPosition x → rank_of x ≡ rank
            → says (book_by opened.now) x told) };
}

/// The position itself.
pub struct Points;

impl Question for Points {
    type Answer = Counts;

    ghost says = { λ b x counts. counts.points ≡ x };

    fn stands(_opened: &Opened<'_>, _rank: u16) -> bool {
        true
    }

    fn answer(opened: &Opened<'_>, rank: u16) -> Option<Counts> {
        Some(Counts::of(&opened.position_at(rank)))
    }
}

/// The mean number of rolls as a numerator.
pub struct Mean;

impl Question for Mean {
    type Answer = Long;

    ghost says = { SaysMean };

    fn stands(opened: &Opened<'_>, rank: u16) -> bool {
        opened.mean(rank).is_some()
    }

    fn answer(opened: &Opened<'_>, rank: u16) -> Option<Long> {
        let _bound = opened.bound();
        Some(Long::of(opened.mean(rank)?))
    }
}

/// The effective pip count.
pub struct Epc;

impl Question for Epc {
    type Answer = RoundedLong;

    ghost says = { SaysEpc };

    fn stands(opened: &Opened<'_>, rank: u16) -> bool {
        opened.mean(rank).is_some()
    }

    fn answer(opened: &Opened<'_>, rank: u16) -> Option<RoundedLong> {
        let _bound = opened.bound();
        Some(RoundedLong::of(opened.epc(rank)?))
    }
}

/// The chance of each number of rolls.
pub struct Shares;

impl Question for Shares {
    type Answer = Distribution;

    ghost says = { SaysShares };

    fn stands(opened: &Opened<'_>, rank: u16) -> bool {
        opened.shares(rank).is_some()
    }

    fn answer(opened: &Opened<'_>, rank: u16) -> Option<Distribution> {
        let _bound = opened.bound();
        Some(Distribution {
            shares: longs(&opened.shares(rank)?),
        })
    }
}

/// The answer about a position. Refused as `find_in` is, and as `Changed` only where the bytes were
/// changed since they were checked.
pub fn ask<Q: Question>(file: &File<'_>, position: &Counts) -> Result<Q::Answer, Refusal>
    ensures refusal { refusal_in result
        ≡ position_refusal file.now.is_open file.now.bound position.now.points }
    ensures value { IfOk result (Q.says (file_book file.now.bytes.now) position.now.points) }
{
    let opened = file.opened()?;
    let found = find_in(&opened, position)?;
    Q::answer(&opened, opened.rank(&found)).ok_or(Refusal::Changed)
}

/// The answers about the positions of the ranks from one on. Refused as `find_ranks_in` is, and as
/// `Changed` only where the bytes were changed since they were checked; then `items` stays as it
/// was.
pub fn ask_by_rank<Q: Question>(
    file: &File<'_>,
    first: u16,
    items: &mut [Q::Answer],
) -> Result<(), Refusal>
    ensures refusal { refusal_in result
        ≡ rank_refusal file.now.is_open file.now.bound first (length items.old) }
    ensures value { OnOk result
        (SaysByRank first items.new (Q.says (file_book file.now.bytes.now))) }
    ensures left { OnErr result (items.new ≡ items.old) }
{
    let opened = file.opened()?;
    find_ranks_in(&opened, first, items.len())?;
    if !stand::<Q>(&opened, first, items.len()) {
        return Err(Refusal::Changed);
    }
    put_by_rank::<Q>(&opened, first, items).ok_or(Refusal::Changed)
}

/// The rank that comes so many after another.
fn rank_after(opened: &Opened<'_>, first: u16, index: usize) -> u16
    requires { first + index < count_to (book_by opened.now).bound }
    ensures { result ≡ first + index }
{
    let _positions = opened.positions();
    first + index as u16
}

/// Whether the file has an answer for each of so many positions from a rank on.
fn stand<Q: Question>(opened: &Opened<'_>, first: u16, count: usize) -> bool
    requires { first + count ≤ count_to (book_by opened.now).bound }
    ensures { IsTrue result }
{
    for index in 0..count {
        if !Q::stands(opened, rank_after(opened, first, index)) {
            return false;
        }
    }
    true
}

/// Writes the answers for the positions of the ranks from one on.
fn put_by_rank<Q: Question>(opened: &Opened<'_>, first: u16, items: &mut [Q::Answer]) -> Option<()>
    requires { first + length items.old ≤ count_to (book_by opened.now).bound }
    ensures some { IsSome result }
    ensures value { SaysByRank first items.new (Q.says (book_by opened.now)) }
{
    for index in 0..items.len() {
        let told = Q::answer(opened, rank_after(opened, first, index))?;
        items[index] = told;
    }
    Some(())
}
