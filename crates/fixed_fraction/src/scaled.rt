//! A mean as a numerator over 36 ^ 22, and the mean of the means after a roll.
ghost use Rattle.std.specs.Prelude.{◌≡◌, ℕ, ◌+◌, ◌*◌, ◌<◌, ◌≤◌, ◌↔◌, IsSome, IfSome, sum_by};
ghost use Rattle.race_model.specs.Prelude.{whole};

use std::marker::Model;

/// The denominator of every number in a database, 36 ^ 22:
/// 36 throws, and at most 22 rolls.
pub const WHOLE: u128 = 17324272922341479351919144385642496;

/// The greatest numerator of a mean, 22 rolls.
pub const MOST: u128 = 22 * WHOLE;

/// A number of rolls from 0 to 22, as a numerator over
/// 36 ^ 22. By its order fewer rolls come first.
#[derive(Clone, Copy, Debug, PartialEq, Eq, PartialOrd, Ord)]
pub struct Scaled {
    numerator: u128,
}

// Clauses see the numerator.
impl Model for Scaled {
    ghost Value = { ℕ };

    ghost view = { λ scaled. scaled.numerator };

    ghost invariant = { λ scaled. scaled.numerator ≤ 22 * whole };

    ghost inverse = { λ numerator. record { numerator = numerator } };
}

impl Scaled {
    /// No roll.
    pub const ZERO: Scaled = Scaled { numerator: 0 };

    /// The number with this numerator over 36 ^ 22; none exactly where it is over 22 rolls.
    #[tactic(auto, unfolding(race_model::specs::LocalEquations::whole))]
    pub fn new(numerator: u128) -> Option<Self>
        ensures some { IsSome result ↔ (numerator ≤ 22 * whole) }
        ensures value { IfSome result (λ scaled. scaled ≡ numerator) }
    {
        if numerator <= MOST {
            Some(Scaled { numerator })
        } else {
            None
        }
    }

    /// The numerator over 36 ^ 22, at most 22 * 36 ^ 22.
    pub fn numerator(self) -> u128
        ensures value { result ≡ self }
        ensures range { result ≤ 22 * whole }
    {
        self.numerator
    }

    /// The number less another; none exactly where the other is greater.
    pub fn minus(&self, other: Scaled) -> Option<Scaled>
        ensures some { IsSome result ↔ (other ≤ self.now) }
        ensures value { IfSome result (λ difference. difference + other ≡ self.now) }
    {
        if other.numerator <= self.numerator {
            Some(Scaled {
                numerator: self.numerator - other.numerator,
            })
        } else {
            None
        }
    }
}

/// One roll and the mean of what the 21 rolls lead to, each counted with its weight; the weights
/// add up to 36. None exactly where the weighted sum is no multiple of 36 or the result is over 22
/// rolls. (A mean is one roll more than the mean over the 36 throws, which count equally: the
/// rules of backgammon.)
pub fn pull(parts: &[(u8, Scaled); 21]) -> Option<Scaled>
    requires { sum_by (λ part. part.0) parts.now ≡ 36 }
    ensures value { IfSome result
        (λ mean. 36 * mean ≡ 36 * whole + sum_by (λ part. part.0 * part.1) parts.now) }
    ensures some { IsSome result
        ↔ ((mean : ℕ) × (mean ≤ 22 * whole)
        × (36 * mean ≡ 36 * whole + sum_by (λ part. part.0 * part.1) parts.now)) }
{
    let mut total = 36 * WHOLE;
    for (weight, mean) in parts {
        total += u128::from(*weight) * mean.numerator();
    }
    if total % 36 == 0 {
        Scaled::new(total / 36)
    } else {
        None
    }
}
