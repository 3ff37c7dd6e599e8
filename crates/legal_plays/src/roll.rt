//! A roll of two dice, and its index among the 21.
ghost use Rattle.std.specs.Prelude.{◌≡◌, ◌<◌, ◌↔◌, IsSome, IfSome};
ghost use Rattle.race_model.specs.Prelude.{IsRoll, roll_at, roll_index, weight};
ghost use Rattle.legal_plays.specs.Faces.{roll_of};

use crate::Die;
use std::marker::Model;

/// What two dice show, the greater first: one of 21 rolls. (The rules
/// of backgammon; the index of a roll is this project's profile.)
#[derive(Clone, Copy, Debug, PartialEq, Eq)]
pub struct Roll {
    high: Die,
    low: Die,
}

// Clauses see the throw whose first die is the greater one.
impl Model for Roll {
    ghost use Rattle.race_model.specs.Prelude.{Throw, IsRoll};

    ghost Value = { Throw };

    ghost view = { λ roll. record { first = roll.high; second = roll.low } };

    ghost invariant = { λ roll. IsRoll (record { first = roll.high; second = roll.low }) };

    ghost inverse = { λ v. record { high = v.first; low = v.second } };
}

impl Roll {
    /// The roll of these two dice, in either order.
    pub fn new(one: Die, other: Die) -> Self
        ensures value { result ≡ roll_of one other }
        ensures roll { IsRoll result }
    {
        if one.number() < other.number() {
            Roll {
                high: other,
                low: one,
            }
        } else {
            Roll {
                high: one,
                low: other,
            }
        }
    }

    /// The roll of an index: 0 is 11, 1 is 21, 2 is 22, 20 is 66; None from 21 on.
    pub fn from_index(index: u8) -> Option<Self>
        ensures valid { IsSome result ↔ (index < 21) }
        ensures value { IfSome result (λ roll. roll ≡ roll_at index) }
        ensures index { IfSome result (λ roll. roll_index roll ≡ index) }
        ensures roll { IfSome result (λ roll. IsRoll roll) }
    {
        let (high, first) = match index {
            0 => (1, 0),
            1..=2 => (2, 1),
            3..=5 => (3, 3),
            6..=9 => (4, 6),
            10..=14 => (5, 10),
            15..=20 => (6, 15),
            _ => return None,
        };
        Some(Roll {
            high: Die::new(high)?,
            low: Die::new(index - first + 1)?,
        })
    }

    /// The greater die, or either of a double.
    pub fn high(self) -> Die
        ensures value { result ≡ self.first }
        ensures roll { IsRoll self }
    {
        self.high
    }

    /// The smaller die, or either of a double.
    pub fn low(self) -> Die
        ensures value { result ≡ self.second }
        ensures roll { IsRoll self }
    {
        self.low
    }

    /// The place of the roll among the 21, 0 to 20.
    pub fn index(self) -> u8
        ensures value { result ≡ roll_index self }
        ensures range { result < 21 }
        ensures found { self ≡ roll_at result }
    {
        let high = self.high.number();
        high * (high - 1) / 2 + self.low.number() - 1
    }

    /// How many of the 36 throws are this roll: 1 for a double, else 2.
    pub fn weight(self) -> u8
        ensures value { result ≡ weight self }
    {
        if self.high == self.low { 1 } else { 2 }
    }
}
