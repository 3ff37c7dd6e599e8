//! The records of a board file in bytes that somebody lends, and what they say.
ghost use Rattle.std.specs.Prelude.{◌≡◌, ℕ, ◌+◌, ◌-◌, ◌*◌, ◌^◌, ◌<◌, ◌≤◌, ◌↔◌, IsTrue, IsSome, IfSome};
ghost use Rattle.std.specs.Prelude.{slice_index, length};
ghost use Rattle.arrayvec.specs.ArrayString.{array_string_len};
ghost use Rattle.race_model.specs.Prelude.{pips as pips_of, roll_index, at_rank, count_to, most_rolls, bound_of};
ghost use Rattle.race_model.specs.Prelude.{board_book, board_record, count_parts, told_count, IsDistReplyOver};
ghost use Rattle.race_model.specs.Prelude.{IsRightBoard};
ghost use Rattle.fixed_fraction.specs.Board.{board_whole, part};
ghost use Rattle.epc_query.specs.Opened.{IsOpenedBoard};

use crate::lent_board::LentBoard;
use crate::opened::Accepted;
use db_layout::{BoardHeader, BoardRecord, Parts, most_rolls};
use fixed_fraction::{BoardMean, LongCount, ShortCount, Wide, board_share};
use legal_plays::Roll;
use query_text::{Text, push_share, put_dist_word};
use std::marker::Model;

/// The most rolls that any game takes.
pub const MOST_ROLLS: u8 = 33;

/// The records of a board file in bytes that somebody lends, which are a right one.
///
/// What may be missing of an answer is missing only where the bytes were changed since they were
/// checked, as another program may do; no clause speaks of that.
#[derive(Drop)]
pub struct Board<'a> {
    bytes: &'a [u8],
    header: BoardHeader,
}

// Clauses see the bytes.
impl<'a> Model for Board<'a> {
    ghost use Rattle.std.specs.Prelude.{ℕ, List};
    ghost use Rattle.epc_query.specs.Opened.{IsOpenedBoard};

    ghost Value = { List ℕ };

    ghost view = { λ board. board.bytes.now };

    ghost invariant = { λ board.
        IsOpenedBoard board.bytes.now board.header };
}

impl<'a> Board<'a> {
    /// The board file of bytes that were accepted before, by what was kept of that.
    pub(crate) fn kept(bytes: &'a [u8], accepted: Accepted) -> Board<'a>
        requires right { IsRightBoard bytes.now }
        requires bound { accepted.bound ≡ bound_of bytes.now }
        ensures { result ≡ bytes.now }
    {
        Board {
            bytes,
            header: BoardHeader::new(accepted.bound).unwrap(),
        }
    }

    /// The pip bound, 0 to 90.
    pub fn bound(&self) -> u8
        ensures bound { result ≡ bound_of self.now }
        ensures right { IsRightBoard self.now }
        ensures range { result ≤ 90 }
    {
        self.header.bound
    }

    /// The bytes, with what places in them are found by.
    fn lent(&self) -> LentBoard<'a>
        ensures bytes { result.bytes.now ≡ self.now }
        ensures count { result.header.count ≡ count_to (bound_of self.now) }
    {
        LentBoard {
            bytes: self.bytes,
            header: self.header,
        }
    }

    /// The record of a rank that the file has.
    fn record_at(&self, rank: u16) -> Option<BoardRecord<'a>>
        requires { rank < count_to (bound_of self.now) }
        ensures some { IsSome result }
        ensures record { IfSome result (λ seen. seen ≡ record {
          pips = pips_of (at_rank rank);
          bytes = board_record self.now rank;
        }) }
    {
        self.lent().record_at(rank)
    }

    /// The mean of the position of a rank that the file has.
    pub fn mean(&self, rank: u16) -> Option<BoardMean>
        requires { rank < count_to (bound_of self.now) }
        ensures some { IsSome result }
        ensures recorded { IfSome result (λ mean. mean ≡ (board_book self.now).means rank) }
    {
        let _bound = self.bound();
        let mean = self.record_at(rank)?.mean();
        BoardMean::new(mean.upper, mean.lower)
    }

    /// The rank to which the recorded play of a roll leads from the position of a rank.
    pub fn play(&self, rank: u16, roll: Roll) -> Option<u16>
        requires { rank < count_to (bound_of self.now) }
        ensures some { IsSome result }
        ensures recorded { IfSome result (λ to.
            to ≡ (board_book self.now).plays rank (roll_index roll)) }
    {
        Some(self.record_at(rank)?.play(roll))
    }

    /// The shares of 0 to 33 rolls of the position of a rank that the file has: of the sequences of
    /// k throws those that end the game with the last one, each of which goes on with any throws.
    pub fn shares(&self, rank: u16) -> Option<[Wide; 34]>
        requires { rank < count_to (bound_of self.now) }
        ensures some { IsSome result }
        ensures len { IfSome result (λ shares. length shares ≡ 34) }
        ensures recorded { IfSome result (λ shares. (k : ℕ) → k ≤ 33
            → slice_index shares k ≡ (board_book self.now).shares rank k) }
    {
        let _bound = self.bound();
        let stored = self.record_at(rank)?;
        let pips = self.lent().pips_at(rank);
        let mut shares = [Wide::of(0); 34];
        for k in 0..34 {
            shares[usize::from(k)] = count_in(&stored, pips, k)?.share(k).numerator();
        }
        Some(shares)
    }

    /// Makes a text the shares of the position of a rank that the file has.
    pub fn put_dist(&self, rank: u16, text: &mut Text) -> Option<()>
        requires { rank < count_to (bound_of self.now) }
        ensures some { IsSome result }
        ensures text { IsDistReplyOver board_whole 33 ((board_book self.now).shares rank)
            text.new.bytes }
        ensures len { array_string_len text.new ≤ 4152 }
    {
        let _bound = self.bound();
        let stored = self.record_at(rank)?;
        let pips = self.lent().pips_at(rank);
        put_dist_word(text);
        for k in 0..34 {
            let count = count_in(&stored, pips, k)?;
            if !count.is_none() {
                push_share(text, board_share(count, k), k);
            }
        }
        Some(())
    }
}

/// The count of k throws that a record of a position of so many pips tells; none only where there
/// are more than 36 ^ k, or it is not written in the one way that is allowed.
fn count_in(stored: &BoardRecord, pips: u8, k: u8) -> Option<LongCount>
    requires few { k ≤ 33 }
    requires pips { pips ≡ stored.now.pips }
    requires low { pips ≤ 90 }
    ensures some { told_count pips stored.now.bytes k ≤ 36 ^ k → (11 < k → k ≤ most_rolls pips
        → (count_parts stored.now.bytes k).lower < part) → IsSome result }
    ensures within { IfSome result (λ count. count ≤ 36 ^ k) }
    ensures value { IfSome result (λ count. count ≡ told_count pips stored.now.bytes k) }
{
    if k == 0 {
        return Some(ShortCount::new(0, u64::from(pips == 0))?.long());
    }
    if k > most_rolls(pips) {
        return Some(LongCount::NONE);
    }
    let parts = stored.count(k);
    if k <= 11 {
        Some(ShortCount::new(k, parts.lower)?.long())
    } else if is_within(&parts, k) {
        LongCount::new(MOST_ROLLS, parts.upper, parts.lower)
    } else {
        None
    }
}

/// Whether a count in two parts is at most 36 ^ k, k from 12 to 33.
#[tactic(auto, using(crate::proofs::Counts::power_of_upper))]
fn is_within(count: &Parts, k: u8) -> bool
    requires many { 12 ≤ k }
    requires few { k ≤ 33 }
    ensures { count.now.lower < part
        → IsTrue result ↔ (count.now.upper * part + count.now.lower ≤ 36 ^ k) }
{
    let most = 36u128.pow(u32::from(k - 11));
    count.upper < most || (count.upper == most && count.lower == 0)
}
