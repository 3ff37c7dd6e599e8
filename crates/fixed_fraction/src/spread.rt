//! The shares of 0 to 22 rolls as numerators over 36 ^ 22, and those of a turn before.
ghost use Rattle.std.specs.Prelude.{◌≡◌, ℕ, suc, ◌+◌, ◌*◌, ◌%◌, ◌<◌, ◌≤◌, ◌↔◌, List, ◌∷◌, length};
ghost use Rattle.std.specs.Prelude.{replicate, slice_index, IsTrue, IsSome, IfSome, All, sum};
ghost use Rattle.std.specs.Prelude.{sum_by};
ghost use Rattle.race_model.specs.Prelude.{whole};
ghost use Rattle.fixed_fraction.specs.Totals.{weighted_share};

use crate::scaled::WHOLE;
use std::marker::Model;

/// How the number of rolls is spread: for each of 0 to 22 rolls the share of exactly that many, as
/// a numerator over 36 ^ 22. The shares add up to the whole. (The GNU Backgammon manual has such a
/// distribution for each position; that it is exact, and over 36 ^ 22, is this project's profile.)
#[derive(Clone, Copy, Debug, PartialEq, Eq)]
pub struct Spread {
    shares: [u128; 23],
}

// Clauses see the 23 shares, that of 0 rolls first.
impl Model for Spread {
    ghost Value = { List ℕ };

    ghost view = { λ spread. spread.shares };

    ghost invariant = { λ spread. (length spread.shares ≡ 23) × (sum spread.shares ≡ whole) };

    ghost inverse = { λ shares. record { shares = shares } };
}

impl Spread {
    /// The spread with these shares of 0 to 22 rolls; none
    /// exactly where they don't add up to 36 ^ 22.
    #[tactic(auto, unfolding(race_model::specs::LocalEquations::whole))]
    pub fn new(shares: [u128; 23]) -> Option<Self>
        ensures some { IsSome result ↔ (sum shares ≡ whole) }
        ensures value { IfSome result (λ spread. spread ≡ shares) }
    {
        let mut total: u128 = 0;
        for share in shares {
            total = total.checked_add(share)?;
        }
        if total == WHOLE {
            Some(Spread { shares })
        } else {
            None
        }
    }

    /// The spread with these shares, which add up to 36 ^ 22.
    pub(crate) fn of_whole(shares: [u128; 23]) -> Self
        requires { sum shares ≡ whole }
        ensures { result ≡ shares }
    {
        Spread { shares }
    }

    /// The 23 shares, that of 0 rolls first, as numerators over 36 ^ 22.
    pub fn shares(&self) -> &[u128; 23]
        ensures value { result.now ≡ self.now }
        ensures total { sum self.now ≡ whole }
        ensures len { length self.now ≡ 23 }
    {
        &self.shares
    }

    /// The share of exactly `k` rolls, as a numerator over 36 ^ 22; 0 from 23 rolls on.
    pub fn at(&self, k: u8) -> u128
        ensures value { result ≡ slice_index self.now k }
        ensures total { sum self.now ≡ whole }
        ensures len { length self.now ≡ 23 }
    {
        let shares = &self.shares;
        match shares.get(usize::from(k)) {
            Some(share) => *share,
            None => 0,
        }
    }

    /// The spread of the finished position: the whole share at 0 rolls.
    #[tactic(auto, unfolding(race_model::specs::LocalEquations::whole))]
    pub fn finished() -> Spread
        ensures { result ≡ whole ∷ replicate 22 0 }
    {
        let mut shares = [0; 23];
        shares[0] = WHOLE;
        Spread { shares }
    }

    /// The weighted mean of the spreads that the 21 rolls lead to, moved on by one roll; the
    /// weights add up to 36. None exactly where a weighted sum is no multiple of 36 or a part has
    /// a share at 22 rolls.
    #[tactic(auto, using(crate::proofs::Shares::moved_whole))]
    pub fn pull(parts: &[(u8, Spread); 21]) -> Option<Spread>
        requires { sum_by (λ part. part.0) parts.now ≡ 36 }
        ensures start { IfSome result (λ spread. slice_index spread 0 ≡ 0) }
        ensures moved { IfSome result
            (λ spread.
            (k : ℕ) → k < 22 → 36 * slice_index spread (suc k) ≡ weighted_share parts.now k) }
        ensures some { IsSome result
            ↔ (All (λ part. slice_index part.1 22 ≡ 0) parts.now
            × ((k : ℕ) → k < 22 → weighted_share parts.now k % 36 ≡ 0)) }
    {
        if !leaves_room(parts) {
            return None;
        }
        let mut shares = [0; 23];
        for k in 0..22 {
            let total = weighted_share(parts, k);
            if total % 36 != 0 {
                return None;
            }
            shares[usize::from(k) + 1] = total / 36;
        }
        Some(Spread { shares })
    }
}

/// Whether no part has a share at 22 rolls. One roll more would move it past the last share.
fn leaves_room(parts: &[(u8, Spread); 21]) -> bool
    ensures room { IsTrue result ↔ All (λ part. slice_index part.1 22 ≡ 0) parts.now }
    ensures wholes { IsTrue result →
        All (λ part. (sum part.1 ≡ whole) × (length part.1 ≡ 23)) parts.now }
{
    for (_, spread) in parts {
        if spread.at(22) != 0 {
            return false;
        }
    }
    true
}

/// The weighted sum of the shares of exactly `k` rolls.
fn weighted_share(parts: &[(u8, Spread); 21], k: u8) -> u128
    requires { sum_by (λ part. part.0) parts.now ≡ 36 }
    ensures { result ≡ weighted_share parts.now k }
{
    let mut total = 0;
    for (weight, spread) in parts {
        total += u128::from(*weight) * spread.at(k);
    }
    total
}
