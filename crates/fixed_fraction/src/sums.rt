//! Weighted sums over the 21 rolls.
ghost use Rattle.std.specs.Prelude.{◌≡◌, ◌≢◌, ℕ, suc, ◌+◌, ◌*◌, ◌%◌, ◌^◌, ◌<◌, ◌≤◌, ◌↔◌};
ghost use Rattle.std.specs.Prelude.{List, [], length, map, slice_index, slice_index_or, sum};
ghost use Rattle.std.specs.Prelude.{IsTrue, IsSome, IfSome, All};
ghost use Rattle.race_model.specs.Prelude.{roll_index, weighted, whole};
ghost use Rattle.fixed_fraction.specs.Totals.{weighted_at, sum_at};

use crate::scaled::{MOST, Scaled, WHOLE};
use crate::spread::Spread;
use std::marker::Model;

/// By which 9 is to be multiplied to come to 1 modulo 2 ^ 128.
const INVERSE_OF_NINE: u128 = 75618303760208547436305468318170713657;

/// How many of the 36 throws are each roll, by its index: one for a double, else two (the rules of
/// backgammon: 36 throws count equally).
pub const WEIGHTS: [u8; 21] = [
    1, 2, 1, 2, 2, 1, 2, 2, 2, 1, 2, 2, 2, 2, 1, 2, 2, 2, 2, 2, 1,
];

/// The rolls that are no doubles, by their indices.
const OTHERS: [u8; 15] = [1, 3, 4, 6, 7, 8, 10, 11, 12, 13, 15, 16, 17, 18, 19];

/// The doubles, by their indices.
const DOUBLES: [u8; 6] = [0, 2, 5, 9, 14, 20];

/// How the number of rolls is spread, wherever the shares lie, for whoever adds them up.
pub trait Distribution: Copy {
    // the 23 shares, that of 0 rolls first
    ghost shares: { Self → List ℕ };

    // there is none of so many rolls or more
    ghost end: { Self → ℕ };

    /// A number of rolls from which on there is no share. All shares add up to the whole.
    fn end(self) -> u8
        ensures end { result ≡ end self }
        ensures few { end self ≤ 23 }
        ensures none { (k : ℕ) → end self ≤ k → slice_index (shares self) k ≡ 0 }
        ensures total { sum (shares self) ≡ whole }
        ensures len { length (shares self) ≡ 23 };

    /// The share of exactly `k` rolls, as a numerator over 36 ^ 22.
    fn share(self, k: u8) -> u128
        requires stored { k < end self }
        requires few { k ≤ 22 }
        ensures { result ≡ slice_index (shares self) k };
}

impl<'a> Distribution for &'a Spread {
    ghost shares = { λ spread. spread.now };

    ghost end = { λ _. 23 };

    #[inline(always)]
    fn end(self) -> u8 {
        let _start = self.at(0);
        23
    }

    #[inline(always)]
    fn share(self, k: u8) -> u128 {
        self.at(k)
    }
}

/// The weighted sums of the means and shares after the 21 rolls: 1 for a double, else 2 (the rules
/// of backgammon: 36 throws count equally). The weights add up to 36, so that the record of a
/// position is one roll and a 36th of these sums, its shares moved on by one roll.
#[derive(Drop)]
pub struct Sums {
    mean: u128,
    shares: [u128; 23],
    // no roll leads to a share of so many rolls or more
    rolls: u8,
}

// Clauses see the sums of the means, and of the shares of 0 to 22 rolls.
impl Model for Sums {
    ghost use Rattle.std.specs.Prelude.{◌≡◌, ℕ, ◌≤◌, slice_index};
    ghost use Rattle.fixed_fraction.specs.Totals.{Totals, AreSmall};

    ghost Value = { Totals };

    ghost view = { λ sums. record { mean = sums.mean; shares = sums.shares } };

    ghost invariant = { λ sums. AreSmall (record { mean = sums.mean; shares = sums.shares })
        × ((k : ℕ) → sums.rolls ≤ k → slice_index sums.shares k ≡ 0) };
}

impl Sums {
    /// The sums where each roll ends the game.
    #[tactic(auto, unfolding(race_model::specs::LocalEquations::whole))]
    pub fn finished() -> Self {
        let mut shares = [0; 23];
        shares[0] = 36 * WHOLE;
        Sums {
            mean: 0,
            shares,
            rolls: 1,
        }
    }

    /// Adds up the means and shares after the 21 rolls, given by index, and forgets what was added
    /// up before. None of them has a share of fewer than `first` rolls, or of so many as `rolls` or
    /// more.
    #[inline(always)]
    pub fn add_up<S: Distribution>(
        &mut self,
        means: &[Scaled; 21],
        spreads: &[S; 21],
        first: u8,
        rolls: u8,
    )
        requires order { first ≤ rolls }
        requires few { rolls ≤ 23 }
        requires before { (i k : ℕ) → i < 21 → k < first →
            slice_index (slice_index_or (map S.shares spreads.now) i []) k ≡ 0 }
        requires beyond { (i k : ℕ) → i < 21 → rolls ≤ k →
            slice_index (slice_index_or (map S.shares spreads.now) i []) k ≡ 0 }
        ensures mean { self.new.mean ≡ weighted (λ v. slice_index means.now (roll_index v)) }
        ensures shares { (k : ℕ) → k < 23 → slice_index self.new.shares k
            ≡ weighted_at (map S.shares spreads.now) k }
    {
        law_spreads(spreads);
        self.mean = sum_of_means(means);
        self.rolls = rolls;
        self.shares = [0; 23];
        add_plays(&mut self.shares, spreads, &OTHERS, first, rolls);
        double(&mut self.shares);
        add_plays(&mut self.shares, spreads, &DOUBLES, first, rolls);
    }

    /// Whether a number is one roll plus 1/36 of the means, at most 22 rolls. It is compared
    /// without a division.
    #[inline(always)]
    #[tactic(auto, unfolding(race_model::specs::LocalEquations::whole))]
    pub fn is_mean(&self, number: u128) -> bool
        ensures { IsTrue result ↔
            ((number ≤ 22 * whole) × (36 * number ≡ 36 * whole + self.now.mean)) }
    {
        number <= MOST && number >= WHOLE && 36 * (number - WHOLE) == self.mean
    }

    /// Whether a number is 1/36 of the shares of exactly `k` rolls. That is the share of one roll
    /// more; none is from 23 rolls on. It is compared without a division.
    #[inline(always)]
    pub fn is_later_share(&self, k: u8, number: u128) -> bool
        requires { k ≤ 22 }
        ensures { IsTrue result ↔ (36 * number ≡ slice_index self.now.shares k) }
    {
        let sum = self.shares[usize::from(k)];
        number <= u128::MAX / 36 && 36 * number == sum
    }

    /// One roll and a 36th of the means. None exactly where that is no whole numerator or over 22
    /// rolls.
    #[tactic(auto, unfolding(race_model::specs::LocalEquations::whole))]
    pub fn mean(&self) -> Option<Scaled>
        ensures value { IfSome result (λ mean. 36 * mean ≡ 36 * whole + self.now.mean) }
        ensures some { IsSome result ↔
            ((mean : ℕ) × (mean ≤ 22 * whole) × (36 * mean ≡ 36 * whole + self.now.mean)) }
    {
        let total = 36 * WHOLE + self.mean;
        Scaled::new(part_of_36(total)?)
    }

    /// Puts a 36th of the shares there, each moved on by one roll. False exactly where one is no
    /// whole numerator, or there is a share at 22 rolls, which one roll more would move past the
    /// last share; then nothing is put.
    #[tactic(auto, unfolding(race_model::specs::LocalEquations::whole))]
    pub fn put_spread(&self, spread: &mut Spread) -> bool
        ensures start { IsTrue result → slice_index spread.new 0 ≡ 0 }
        ensures moved { IsTrue result → (k : ℕ) → k < 22 →
            36 * slice_index spread.new (suc k) ≡ slice_index self.now.shares k }
        ensures all { IsTrue result ↔
            ((slice_index self.now.shares 22 ≡ 0)
            × ((k : ℕ) → k < 22 → slice_index self.now.shares k % 36 ≡ 0)) }
        ensures kept { ¬ IsTrue result → spread.new ≡ spread.old }
    {
        if self.shares[22] != 0 {
            return false;
        }
        let mut shares = [0; 23];
        for k in 0..self.rolls.min(22) {
            let place = usize::from(k);
            let Some(part) = part_of_36(self.shares[place]) else {
                return false;
            };
            shares[place + 1] = part;
        }
        *spread = Spread::of_whole(shares);
        true
    }
}

/// A 36th of a number; none exactly where it is no multiple of 36. There is no division: modulo
/// 2 ^ 128 nine has an inverse, by which its multiples, and they alone, become numbers small
/// enough.
fn part_of_36(total: u128) -> Option<u128>
    ensures value { IfSome result (λ part. 36 * part ≡ total) }
    ensures some { IsSome result ↔ (total % 36 ≡ 0) }
{
    let ninth = (total >> 2).wrapping_mul(INVERSE_OF_NINE);
    if total % 4 == 0 && ninth <= u128::MAX / 9 {
        Some(ninth)
    } else {
        None
    }
}

/// What is known of each of these spreads: it has 23 shares, which add up to the whole.
#[inline(always)]
fn law_spreads<S: Distribution>(spreads: &[S; 21])
    ensures wholes { (i : ℕ) → i < 21 →
        sum (slice_index_or (map S.shares spreads.now) i []) ≡ whole }
    ensures lengths { (i : ℕ) → i < 21 →
        length (slice_index_or (map S.shares spreads.now) i []) ≡ 23 }
{
    for spread in spreads {
        let _end = spread.end();
    }
}

/// The weighted sum of the means after the 21 rolls, given by index.
#[inline(always)]
#[tactic(auto, unfolding(race_model::specs::LocalEquations::whole))]
fn sum_of_means(means: &[Scaled; 21]) -> u128
    ensures value { result ≡ weighted (λ v. slice_index means.now (roll_index v)) }
    ensures bound { result ≤ 36 * (22 * whole) }
{
    let mut total = 0;
    for index in 0..21 {
        total += u128::from(WEIGHTS[index]) * means[index].numerator();
    }
    total
}

/// Adds the shares after the plays of these rolls, given by index. All shares are of `first` to
/// `rolls` - 1 rolls. As long as all of them may have one, those of one number of rolls are added
/// up after the other, so that each sum is read and written once.
#[inline(always)]
fn add_plays<S: Distribution>(
    shares: &mut [u128; 23],
    spreads: &[S; 21],
    indices: &[u8],
    first: u8,
    rolls: u8,
)
    requires indices { All (λ i. i < 21) indices.now }
    requires order { first ≤ rolls }
    requires few { rolls ≤ 23 }
    requires before { (i k : ℕ) → i < 21 → k < first →
        slice_index (slice_index_or (map S.shares spreads.now) i []) k ≡ 0 }
    requires beyond { (i k : ℕ) → i < 21 → rolls ≤ k →
        slice_index (slice_index_or (map S.shares spreads.now) i []) k ≡ 0 }
    requires room { (k : ℕ) → k < 23 →
        slice_index shares.old k + length indices.now * whole < 2 ^ 128 }
    ensures len { length shares.new ≡ 23 }
    ensures added { (k : ℕ) → k < 23 → slice_index shares.new k
        ≡ slice_index shares.old k + sum_at (map S.shares spreads.now) indices.now k }
    ensures small { (k : ℕ) → k < 23 → slice_index shares.new k
        ≤ slice_index shares.old k + length indices.now * whole }
{
    let from = first.max(1);
    let end = least_end(spreads, indices, rolls).max(from);
    add_each(shares, spreads, indices, first, from);
    add_common(shares, spreads, indices, from, end);
    add_each(shares, spreads, indices, end, rolls);
}

/// Adds the shares of `from` to `end` - 1 rolls, which all these plays may have.
// the loop begins at 0, since the compiler moves a pointer for each play where it may begin later,
// and a share of one roll or more may be read with no test for that of none
#[inline(always)]
fn add_common<S: Distribution>(
    shares: &mut [u128; 23],
    spreads: &[S; 21],
    indices: &[u8],
    from: u8,
    end: u8,
)
    requires indices { All (λ i. i < 21) indices.now }
    requires few { end ≤ 23 }
    requires stored { (k : ℕ) → from ≤ k → k < end → (j : ℕ) → j < length indices.now →
        k < slice_index (map S.end spreads.now) (slice_index indices.now j) }
    requires room { (k : ℕ) → from ≤ k → k < end →
        slice_index shares.old k + length indices.now * whole < 2 ^ 128 }
    ensures len { length shares.new ≡ 23 }
    ensures added { (k : ℕ) → from ≤ k → k < end → slice_index shares.new k
        ≡ slice_index shares.old k + sum_at (map S.shares spreads.now) indices.now k }
    ensures small { (k : ℕ) → from ≤ k → k < end → slice_index shares.new k
        ≤ slice_index shares.old k + length indices.now * whole }
    ensures before { (k : ℕ) → k < from → slice_index shares.new k ≡ slice_index shares.old k }
    ensures beyond { (k : ℕ) → end ≤ k → slice_index shares.new k ≡ slice_index shares.old k }
{
    law_spreads(spreads);
    for k in 0..end {
        if k >= from {
            shares[usize::from(k)] += sum_of_shares(spreads, indices, k);
        }
    }
}

/// Adds the shares of `from` to `to` - 1 rolls, one play after another.
#[inline(always)]
fn add_each<S: Distribution>(
    shares: &mut [u128; 23],
    spreads: &[S; 21],
    indices: &[u8],
    from: u8,
    to: u8,
)
    requires indices { All (λ i. i < 21) indices.now }
    requires few { to ≤ 23 }
    requires room { (k : ℕ) → from ≤ k → k < to →
        slice_index shares.old k + length indices.now * whole < 2 ^ 128 }
    ensures len { length shares.new ≡ 23 }
    ensures added { (k : ℕ) → from ≤ k → k < to → slice_index shares.new k
        ≡ slice_index shares.old k + sum_at (map S.shares spreads.now) indices.now k }
    ensures small { (k : ℕ) → from ≤ k → k < to → slice_index shares.new k
        ≤ slice_index shares.old k + length indices.now * whole }
    ensures before { (k : ℕ) → k < from → slice_index shares.new k ≡ slice_index shares.old k }
    ensures beyond { (k : ℕ) → to ≤ k → slice_index shares.new k ≡ slice_index shares.old k }
{
    if to <= from {
        return;
    }
    law_spreads(spreads);
    for place in 0..indices.len() {
        add_shares(shares, spreads[usize::from(indices[place])], from, to);
    }
}

/// A number of rolls up to which each of these plays may have shares.
#[inline(always)]
fn least_end<S: Distribution>(spreads: &[S; 21], indices: &[u8], rolls: u8) -> u8
    requires indices { All (λ i. i < 21) indices.now }
    ensures few { result ≤ rolls }
    ensures least { (j : ℕ) → j < length indices.now →
        result ≤ slice_index (map S.end spreads.now) (slice_index indices.now j) }
{
    let mut least = rolls;
    for place in 0..indices.len() {
        least = least.min(spreads[usize::from(indices[place])].end());
    }
    least
}

/// The sum of the shares of exactly `k` rolls of the plays of these rolls. The loop has no test, so
/// that the compiler makes a straight line of it.
#[inline(always)]
fn sum_of_shares<S: Distribution>(spreads: &[S; 21], indices: &[u8], k: u8) -> u128
    requires indices { All (λ i. i < 21) indices.now }
    requires few { k ≤ 22 }
    requires stored { (j : ℕ) → j < length indices.now →
        k < slice_index (map S.end spreads.now) (slice_index indices.now j) }
    requires room { length indices.now * whole < 2 ^ 128 }
    requires wholes { (i : ℕ) → i < 21 →
        sum (slice_index_or (map S.shares spreads.now) i []) ≡ whole }
    ensures sum { result ≡ sum_at (map S.shares spreads.now) indices.now k }
    ensures small { result ≤ length indices.now * whole }
{
    let mut total = 0;
    for place in 0..indices.len() {
        total += spreads[usize::from(indices[place])].share(k);
    }
    total
}

/// Doubles all sums.
#[inline(always)]
fn double(shares: &mut [u128; 23])
    requires room { (k : ℕ) → k < 23 → 2 * slice_index shares.old k < 2 ^ 128 }
    ensures len { length shares.new ≡ 23 }
    ensures doubled { (k : ℕ) → k < 23 → slice_index shares.new k
        ≡ 2 * slice_index shares.old k }
{
    for k in 0..23 {
        shares[k] *= 2;
    }
}

/// Adds the shares of one play of `from` to one before `to` rolls.
#[inline(always)]
fn add_shares<S: Distribution>(shares: &mut [u128; 23], spread: S, from: u8, to: u8)
    requires few { to ≤ 23 }
    requires room { (k : ℕ) → from ≤ k → k < to →
        slice_index shares.old k + slice_index (S.shares spread) k < 2 ^ 128 }
    ensures len { length shares.new ≡ 23 }
    ensures added { (k : ℕ) → from ≤ k → k < to → slice_index shares.new k
        ≡ slice_index shares.old k + slice_index (S.shares spread) k }
    ensures before { (k : ℕ) → k < from → slice_index shares.new k ≡ slice_index shares.old k }
    ensures beyond { (k : ℕ) → to ≤ k → slice_index shares.new k ≡ slice_index shares.old k }
{
    for k in from..spread.end().min(to) {
        shares[usize::from(k)] += spread.share(k);
    }
}
