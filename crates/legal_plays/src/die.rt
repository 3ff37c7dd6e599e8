//! One die.
ghost use Rattle.std.specs.Prelude.{◌≡◌, ◌<◌, ◌≤◌, ◌↔◌, IsSome, IfSome};
ghost use Rattle.race_model.specs.Prelude.{number};

use std::marker::Model;

/// What one die shows, 1 to 6. (The rules of backgammon.)
#[derive(Clone, Copy, Debug, PartialEq, Eq)]
pub struct Die {
    shown: u8,
}

// Clauses see one of the six dice.
impl Model for Die {
    ghost use Rattle.std.specs.Prelude.{◌≤◌};
    ghost use Rattle.race_model.specs.Prelude.{Die as Face, number};
    ghost use Rattle.legal_plays.specs.Faces.{face, number-face};
    ghost use Rattle.std.proofs.Common.{ap};

    ghost Value = { Face };

    ghost view = { λ die. face die.shown };

    ghost invariant = { λ die. (1 ≤ die.shown) × (die.shown ≤ 6) };

    ghost inverse = { λ v. record { shown = number v } };

    ghost inverse_ok = { λ die valid.
        ap (λ n. record { shown = n }) (number-face die.shown valid.0 valid.1) };
}

impl Die {
    /// The die that shows this number; None where it isn't 1 to 6.
    pub fn new(shown: u8) -> Option<Self>
        ensures valid { IsSome result ↔ ((1 ≤ shown) × (shown ≤ 6)) }
        ensures value { IfSome result (λ die. number die ≡ shown) }
    {
        if 1 <= shown && shown <= 6 {
            Some(Die { shown })
        } else {
            None
        }
    }

    /// The number that the die shows, 1 to 6.
    pub fn number(self) -> u8
        ensures value { result ≡ number self }
        ensures range { (1 ≤ result) × (result ≤ 6) }
    {
        self.shown
    }
}
