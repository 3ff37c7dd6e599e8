//! Facts about the definitions, each on a function with an empty body.
ghost use Rattle.std.specs.Prelude.{◌≡◌, ◌≤◌, ◌+◌, ℕ, List, length, sum, Ok};
ghost use Rattle.notation.specs.Readings.{IsReading};
ghost use Rattle.notation.specs.Ids.{IsPositionId};
ghost use Rattle.notation.specs.Written.{position_id};
ghost use Rattle.notation.specs.declared.told.Race.{Race};

/// A text tells at most one race.
pub fn law_one_reading()
    ensures { (text : List ℕ) → (a b : Race) → IsReading text (Ok a) → IsReading text (Ok b) →
        a ≡ b }
{}

/// A Position ID that is written of both players' checkers is one of these.
pub fn law_written()
    ensures { (theirs mine : List ℕ) → length theirs ≡ 25 → length mine ≡ 25 →
        50 + (sum theirs + sum mine) ≤ 80 → IsPositionId (position_id theirs mine) theirs mine }
{}
