//! The sums of what is recorded for the 21 rolls, by the records that they lead to.
ghost use Rattle.std.specs.Prelude.{◌≡◌, ℕ, ◌<◌, ◌≤◌, ◌↔◌, [], IsTrue, IsSome, IfSome};
ghost use Rattle.std.specs.Prelude.{slice_index, slice_index_or, sum};
ghost use Rattle.race_model.specs.Prelude.{mean_of, record_at, spread_at, whole};
ghost use Rattle.db_reader.specs.Telling.{WhereTold};
ghost use Rattle.certificate.specs.PlaySums.{AreTotalsOf, IsAccepted, told_by};
ghost use Rattle.certificate.specs.RecordNumbers.{shares_of};

use crate::numbers::{mean_in, spread_in};
use db_layout::{RecordView, StoredShares};
use db_reader::{Record, Table};
use fixed_fraction::{Distribution, Scaled, Sums};

/// The shares of a record that was accepted, which add up to the whole. They are read where they
/// stand.
#[derive(Clone, Copy)]
struct AcceptedShares<'a> {
    stored: StoredShares<'a>,
    ghost all: { sum (told_by stored) ≡ whole },
}

impl<'a> Distribution for AcceptedShares<'a> {
    ghost shares = { λ accepted. told_by accepted.stored };

    ghost end = { λ accepted. accepted.stored.end };

    #[inline(always)]
    fn end(self) -> u8 {
        self.stored.end()
    }

    #[inline(always)]
    fn share(self, k: u8) -> u128 {
        self.stored.at(k)
    }
}

/// The mean and the shares of a record that was accepted.
#[derive(Clone, Copy)]
struct AcceptedRecord<'a> {
    mean: Scaled,
    shares: AcceptedShares<'a>,
}

/// Those of a record; none exactly where its mean is over 22 rolls, or its shares don't add up to
/// the whole. That is tested where it isn't known.
#[inline(always)]
fn accepted<'a>(view: &RecordView<'a>, is_known: bool) -> Option<AcceptedRecord<'a>>
    requires { IsTrue is_known → IsAccepted view.now }
    ensures some { IsSome result ↔ IsAccepted view.now }
    ensures mean { IfSome result (λ found. found.mean ≡ mean_of view.now) }
    ensures shares { IfSome result
        (λ found. told_by found.shares.stored ≡ shares_of view.now) }
{
    let mean = mean_in(view)?;
    if !is_known && spread_in(view).is_none() {
        return None;
    }
    let stored = view.stored_shares();
    Some(AcceptedRecord {
        mean,
        shares: AcceptedShares { stored },
    })
}

/// Adds up the records that the 21 rolls lead to, which were loaded with these rooms; none of them
/// has a share of fewer than `first` rolls, or of so many as `rolls` or more. False where a mean is
/// over 22 rolls, or the shares of a record don't add up to the whole, so that it was not accepted.
/// That is tested where the table is not known to tell its bytes.
// so that its room isn't on the stack while records are read
#[inline(never)]
pub fn add_plays<'a, T: Table>(
    table: &'a T,
    plays: &[u16; 21],
    rooms: &'a [Record; 21],
    first: u8,
    rolls: u8,
    is_known: bool,
    sums: &mut Sums,
) -> bool
    requires ready { (i : ℕ) → i < 21 →
        T.ready table.now (slice_index_or rooms.now i []) (slice_index plays.now i) }
    requires order { first ≤ rolls }
    requires few { rolls ≤ 23 }
    requires known { IsTrue is_known → IsSome (T.tells table.now) }
    requires unknown { ¬ IsTrue is_known → (first ≡ 0) × (rolls ≡ 23) }
    requires accepted { WhereTold (T.tells table.now) (λ file. (i : ℕ) → i < 21 →
        IsAccepted (record_at file (slice_index plays.now i))) }
    requires before { WhereTold (T.tells table.now) (λ file. (i k : ℕ) → i < 21 → k < first →
        spread_at file (slice_index plays.now i) k ≡ 0) }
    requires beyond { WhereTold (T.tells table.now) (λ file. (i k : ℕ) → i < 21 → rolls ≤ k →
        k < 23 → spread_at file (slice_index plays.now i) k ≡ 0) }
    ensures some { WhereTold (T.tells table.now) (λ _. IsTrue result) }
    ensures sums { WhereTold (T.tells table.now)
        (λ file. IsTrue result → AreTotalsOf file plays.now sums.new) }
{
    let first_view = table.lend(plays[0], &rooms[0]);
    let Some(found) = accepted(&first_view, is_known) else {
        return false;
    };
    let mut means = [found.mean; 21];
    let mut shares = [found.shares; 21];
    for index in 1..21 {
        let view = table.lend(plays[index], &rooms[index]);
        let Some(found) = accepted(&view, is_known) else {
            return false;
        };
        means[index] = found.mean;
        shares[index] = found.shares;
    }
    sums.add_up(&means, &shares, first, rolls);
    true
}
