//! The records of a database in bytes that somebody lends, and what they say over 36 ^ 33.
ghost use Rattle.std.specs.Prelude.{◌≡◌, ℕ, ◌*◌, ◌<◌, ◌≤◌, IsSome, IfSome, slice_index};
ghost use Rattle.arrayvec.specs.ArrayString.{array_string_len};
ghost use Rattle.race_model.specs.Prelude.{roll_index, pips as pips_of, at_rank, count_to, version_by, version_of};
ghost use Rattle.race_model.specs.Prelude.{bound_of, book_of, record_at, mean_at, play_at, spread_at, further_by};
ghost use Rattle.race_model.specs.Prelude.{IsDistReplyOver, IsRightDatabase};
ghost use Rattle.fixed_fraction.specs.Board.{board_whole, part};
ghost use Rattle.epc_query.specs.Opened.{IsOpened};

use crate::lent_records::LentRecords;
use crate::opened::Accepted;
use certificate::spread_in;
use db_layout::RecordView;
use fixed_fraction::{BoardMean, Scaled, Spread, Wide};
use legal_plays::Roll;
use query_text::{Text, put_dist};
use std::marker::Model;

/// The records of a database in bytes that somebody lends, which are a right file.
///
/// What may be missing of an answer is missing only where the bytes were changed since they were
/// checked, as another program may do; no clause speaks of that.
#[derive(Drop)]
pub struct Database<'a> {
    bytes: &'a [u8],
    version: u16,
    bound: u8,
}

// Clauses see the bytes.
impl<'a> Model for Database<'a> {
    ghost use Rattle.std.specs.Prelude.{ℕ, List};
    ghost use Rattle.epc_query.specs.Opened.{IsOpened};

    ghost Value = { List ℕ };

    ghost view = { λ database. database.bytes.now };

    ghost invariant = { λ database.
        IsOpened database.bytes.now database.version database.bound };
}

impl<'a> Database<'a> {
    /// The database over bytes that were accepted before, by what was kept of that.
    pub(crate) fn kept(bytes: &'a [u8], accepted: Accepted) -> Database<'a>
        requires { IsOpened bytes.now accepted.version accepted.bound }
        ensures { result ≡ bytes.now }
    {
        Database {
            bytes,
            version: accepted.version,
            bound: accepted.bound,
        }
    }

    /// The pip bound, 0 to 58.
    pub fn bound(&self) -> u8
        ensures bound { result ≡ bound_of self.now }
        ensures right { IsRightDatabase self.now }
        ensures range { result ≤ 58 }
    {
        self.bound
    }

    /// The bytes, with what places in them are found by.
    fn lent(&self) -> LentRecords<'a>
        ensures bytes { result.bytes.now ≡ self.now }
        ensures version { version_by result.version ≡ version_of self.now }
        ensures bound { result.bound ≡ bound_of self.now }
    {
        LentRecords {
            bytes: self.bytes,
            version: self.version,
            bound: self.bound,
        }
    }

    /// The record of a rank that the file has, whose pip count is known.
    fn record_at(&self, pips: u8, rank: u16) -> RecordView<'a>
        requires pips { pips ≡ pips_of (at_rank rank) }
        requires rank { rank < count_to (bound_of self.now) }
        ensures { result ≡ record_at self.now rank }
    {
        let _bound = self.bound();
        self.lent().record_at(pips, rank)
    }

    /// The mean of the position of a rank that the file has.
    #[inline(always)]
    pub fn mean(&self, pips: u8, rank: u16) -> Option<BoardMean>
        requires pips { pips ≡ pips_of (at_rank rank) }
        requires rank { rank < count_to (bound_of self.now) }
        ensures some { IsSome result }
        ensures recorded { IfSome result (λ mean. mean ≡ part * mean_at self.now rank) }
    {
        let _bound = self.bound();
        let mean = Scaled::new(self.record_at(pips, rank).mean())?;
        Some(BoardMean::of(mean))
    }

    /// The rank to which the recorded play of a roll leads from the position of a rank.
    pub fn play(&self, pips: u8, rank: u16, roll: Roll) -> u16
        requires pips { pips ≡ pips_of (at_rank rank) }
        requires rank { rank < count_to (bound_of self.now) }
        ensures { result ≡ play_at self.now rank (roll_index roll) }
    {
        self.record_at(pips, rank).play(roll)
    }

    /// The shares of 0 to 22 rolls of the position of a rank that the file has.
    fn spread(&self, pips: u8, rank: u16) -> Option<Spread>
        requires pips { pips ≡ pips_of (at_rank rank) }
        requires rank { rank < count_to (bound_of self.now) }
        ensures some { IsSome result }
        ensures recorded { IfSome result (λ spread. (k : ℕ) → k ≤ 22
            → slice_index spread k ≡ spread_at self.now rank k) }
    {
        let _bound = self.bound();
        spread_in(&self.record_at(pips, rank))
    }

    /// The shares of 0 to 22 rolls of the position of a rank that the file has, over 36 ^ 22, and
    /// none of more.
    pub fn shares(&self, pips: u8, rank: u16) -> Option<[Wide; 34]>
        requires pips { pips ≡ pips_of (at_rank rank) }
        requires rank { rank < count_to (bound_of self.now) }
        ensures some { IsSome result }
        ensures recorded { IfSome result (λ shares. (k : ℕ) → k ≤ 22
            → slice_index shares k ≡ spread_at self.now rank k) }
        ensures beyond { IfSome result (λ shares. (k : ℕ) → 22 < k → slice_index shares k ≡ 0) }
    {
        let spread = self.spread(pips, rank)?;
        let mut shares = [Wide::of(0); 34];
        for k in 0..23 {
            shares[usize::from(k)] = Wide::of(spread.at(k));
        }
        Some(shares)
    }

    /// Makes a text the shares of the position of a rank that the file has.
    pub fn put_dist(&self, pips: u8, rank: u16, text: &mut Text) -> Option<()>
        requires pips { pips ≡ pips_of (at_rank rank) }
        requires rank { rank < count_to (bound_of self.now) }
        ensures some { IsSome result }
        ensures text { IsDistReplyOver board_whole 33
            ((further_by 11 (book_of self.now)).shares rank) text.new.bytes }
        ensures len { array_string_len text.new ≤ 4152 }
    {
        let spread = self.spread(pips, rank)?;
        put_dist(text, &spread);
        Some(())
    }
}
