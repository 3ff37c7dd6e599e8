//! The numbers of a record, tested one after another: those of a database by the sums of what is
//! recorded for the rolls, and those of a board file by what the plays lead to.
ghost use Rattle.std.specs.Prelude.{◌≡◌, ℕ, ◌+◌, ◌<◌, ◌≤◌, ◌↔◌, slice_index, IsTrue, IfErr, OnOk};
ghost use Rattle.race_model.specs.Prelude.{IsFinished, pips, most_rolls, mean_of, share_of};
ghost use Rattle.db_layout.specs.BoardWords.{AreWordSums};
ghost use Rattle.certificate.specs.BoardTests.{IsTested, MeanHolds, CountHolds};
ghost use Rattle.certificate.specs.RecordNumbers.{IsMeanOf, IsShareOf, sums_if};
ghost use Rattle.certificate.specs.RecordFaults.{IsNumberFault};

use crate::check_fault::RecordFault;
use db_layout::{BoardRecord, LowerRecords, Parts, RecordView, WORDS, count_of, mean_of};
use fixed_fraction::{Sums, WHOLE};
use home_board::Position;

/// The numbers of a record, of either kind of file: its mean, and one for each number of throws.
pub trait Numbers {
    // it is known what the numbers are tested by
    ghost IsReady: { Self → Type 0 };

    // the most throws
    ghost most: { ℕ };

    // the mean holds
    ghost IsMean: { Self → Type 0 };

    // the number of exactly so many throws holds
    ghost IsNumber: { Self → ℕ → Type 0 };

    /// From so many throws on each number holds.
    fn end(&self) -> u8
        requires { IsReady self.now }
        ensures few { result ≤ most + 1 }
        ensures beyond { (k : ℕ) → result ≤ k → k ≤ most → IsNumber self.now k };

    /// Whether the mean holds.
    fn has_mean(&self) -> bool
        requires { IsReady self.now }
        ensures { IsTrue result ↔ IsMean self.now };

    /// Whether the number of exactly `k` throws does.
    fn has_number(&self, k: u8) -> bool
        requires ready { IsReady self.now }
        requires few { k ≤ most }
        ensures { IsTrue result ↔ IsNumber self.now k };
}

/// Tests the mean of a record, and then the others by their number of throws.
#[inline(always)]
pub fn check_numbers<N: Numbers>(numbers: &N) -> Result<(), RecordFault>
    requires { N.IsReady numbers.now }
    ensures mean { OnOk result (N.IsMean numbers.now) }
    ensures each { OnOk result ((k : ℕ) → k ≤ N.most → N.IsNumber numbers.now k) }
    ensures fault { IfErr result
        (IsNumberFault (N.IsMean numbers.now) (N.IsNumber numbers.now) N.most) }
{
    if !numbers.has_mean() {
        return Err(RecordFault::Mean);
    }
    let end = numbers.end();
    check_between(numbers, 0, end.min(12))?;
    check_between(numbers, 12, end.min(23))?;
    check_between(numbers, 23, end)
}

/// Tests the numbers from `from` throws on, before `to`. Those of fewer hold.
// by ranges, which decide how a count is made and where it stands
#[inline(always)]
fn check_between<N: Numbers>(numbers: &N, from: u8, to: u8) -> Result<(), RecordFault>
    requires ready { N.IsReady numbers.now }
    requires mean { N.IsMean numbers.now }
    requires few { to ≤ N.most + 1 }
    requires fewer { (k : ℕ) → k < from → k < to → N.IsNumber numbers.now k }
    ensures each { OnOk result ((k : ℕ) → k < to → N.IsNumber numbers.now k) }
    ensures fault { IfErr result
        (IsNumberFault (N.IsMean numbers.now) (N.IsNumber numbers.now) N.most) }
{
    for k in from..to {
        if !numbers.has_number(k) {
            return Err(RecordFault::Spread { k });
        }
    }
    Ok(())
}

/// A database record with the sums after its recorded plays, unless it is that of the finished
/// position, which has none.
#[derive(Drop)]
pub struct SummedRecord<'a> {
    pub view: &'a RecordView<'a>,
    pub sums: &'a Sums,
    pub has_sums: bool,
}

impl<'a> Numbers for SummedRecord<'a> {
    ghost IsReady = { λ _. Unit {0} };

    ghost most = { 22 };

    ghost IsMean = { λ numbers.
        IsMeanOf (mean_of numbers.view.now) (sums_if numbers.has_sums numbers.sums.now) };

    ghost IsNumber = { λ numbers.
        IsShareOf (share_of numbers.view.now) (sums_if numbers.has_sums numbers.sums.now) };

    fn end(&self) -> u8 {
        23
    }

    fn has_mean(&self) -> bool {
        let stored = self.view.mean();
        if self.has_sums {
            self.sums.is_mean(stored)
        } else {
            stored == 0
        }
    }

    #[tactic(auto, unfolding(race_model::specs::LocalEquations::whole))]
    fn has_number(&self, k: u8) -> bool {
        let stored = self.view.spread(k);
        match k {
            0 if self.has_sums => stored == 0,
            0 => stored == WHOLE,
            _ if self.has_sums => self.sums.is_later_share(k - 1, stored),
            _ => stored == 0,
        }
    }
}

/// A board file's record with correct plays, and the sums after them.
#[derive(Drop)]
pub struct PlayedRecord<'a> {
    pub lower: &'a LowerRecords<'a>,
    pub stored: &'a BoardRecord<'a>,
    pub position: &'a Position,
    pub plays: &'a [u16; 21],
    pub words: &'a [u64; WORDS],
    pub rolls: u8,
}

impl<'a> Numbers for PlayedRecord<'a> {
    ghost IsReady = { λ numbers.
        (IsTested numbers.lower.now numbers.position.now numbers.stored.now
        (slice_index numbers.plays.now))
        × (¬ IsFinished numbers.position.now → AreWordSums numbers.lower.now.bytes
        (slice_index numbers.plays.now) numbers.words.now)
        × (numbers.rolls ≡ most_rolls (pips numbers.position.now)) };

    ghost most = { 33 };

    ghost IsMean = { λ numbers. MeanHolds numbers.lower.now.bytes numbers.position.now };

    ghost IsNumber = { λ numbers. CountHolds numbers.lower.now.bytes numbers.position.now };

    fn end(&self) -> u8 {
        self.rolls + 1
    }

    fn has_mean(&self) -> bool {
        let stored = self.stored.mean();
        if self.position.is_finished() {
            return are_equal(&stored, 0, 0);
        }
        let mean = mean_of(self.lower, self.position, self.plays);
        are_equal(&stored, mean.upper(), mean.lower())
    }

    #[inline(always)]
    fn has_number(&self, k: u8) -> bool {
        if k == 0 || k > self.rolls {
            return true;
        }
        let count = count_of(self.lower, self.plays, self.words, k - 1);
        are_equal(&self.stored.count(k), count.upper, count.lower)
    }
}

/// Whether a number has these parts.
#[inline(always)]
fn are_equal(stored: &Parts, upper: u128, lower: u64) -> bool
    ensures { IsTrue result ↔ ((stored.now.upper ≡ upper) × (stored.now.lower ≡ lower)) }
{
    stored.upper == upper && stored.lower == lower
}
