//! Laws of dice and plays: the 21 rolls, steps, throws and results, and the rule as rule books have
//! it.
ghost use Rattle.std.specs.Prelude.{◌≡◌, ℕ, ◌<◌, ◌≤◌, ◌↔◌, List, [], ◌∷◌, Contains, ◌⊎◌};
ghost use Rattle.race_model.specs.Prelude.{Board, IsPosition, IsFinished, finished, pips, Die, one, four, six, Throw};
ghost use Rattle.race_model.specs.Prelude.{reversed, IsRoll, roll_at, roll_index, Step, Legal, all_results, MostDice};
ghost use Rattle.race_model.specs.Prelude.{IsPlayed, IsBest};

/// An unfinished position has a step for every die (the bearing-off rules of backgammon).
#[tactic(auto, using(crate::proofs::WhyLaws::law_playable))]
pub fn law_playable()
    ensures { (x : Board) (d : Die) → IsPosition x → ¬ IsFinished x → (y : Board) × Step x d y }
{}

/// A throw leads where the throw that shows the same dice the other way round leads. So plays that
/// are recorded for the 21 rolls are recorded for the 36 throws, and are least there if they are
/// for the rolls (the bearing-off rules of backgammon).
pub fn law_reversed()
    ensures legal { (x : Board) (v : Throw) (y : Board) → Legal x v y ↔ Legal x (reversed v) y }
    ensures played { (f : List ℕ) (x : Board) → ((i : ℕ) → i < 21 → IsPlayed f x (roll_at i)) →
        (v : Throw) → IsPlayed f x v }
    ensures best { (f : List ℕ) (x : Board) → ((i : ℕ) → i < 21 → IsBest f x (roll_at i)) →
        (v : Throw) → IsBest f x v }
{}

/// What a throw may lead to from a position: always somewhere, to a position, with no more pips,
/// and with fewer where a checker was left. From the finished position, which is the one with six
/// empty points, it leads to that one alone (the bearing-off rules of backgammon).
pub fn law_results()
    ensures some { (x : Board) (v : Throw) → (y : Board) × Legal x v y }
    ensures position { (x : Board) (v : Throw) (y : Board) → IsPosition x → Legal x v y →
        IsPosition y }
    ensures pips { (x : Board) (v : Throw) (y : Board) → Legal x v y → pips y ≤ pips x }
    ensures fewer_pips { (x : Board) (v : Throw) (y : Board) → ¬ IsFinished x → Legal x v y →
        pips y < pips x }
    ensures at_end { (x : Board) (v : Throw) (y : Board) → IsFinished x → Legal x v y ↔ (y ≡ x) }
    ensures end { (x : Board) → IsPosition x → IsFinished x → x ≡ finished }
{}

/// The rule of the most dice, that as many of the numbers thrown must be used as is legally
/// possible, and the greater one where only one can be, leads to exactly the positions to which a
/// legal play leads, which goes on until the dice are used or no checker is left (the rules of
/// backgammon).
pub fn law_most_dice()
    ensures { (x : Board) (v : Throw) (y : Board) → MostDice x v y ↔ Legal x v y }
{}

/// The plain list of results has the results as its members, so the rules can be tried out by
/// computation: 4-1 from one checker on point 3 and one on point 4 leaves one on point 2 or one on
/// point 3, the second by the ace first; 1-1 moves a checker from point 6 to point 2; and 6-6
/// leaves the finished position as it is.
pub fn law_enumerated()
    ensures members { (x : Board) (v : Throw) (y : Board) →
        Contains (all_results x v) y ↔ Legal x v y }
    ensures two_ways { all_results (0 ∷ 0 ∷ 1 ∷ 1 ∷ 0 ∷ 0 ∷ [])
        (record { first = four; second = one })
        ≡ (0 ∷ 1 ∷ 0 ∷ 0 ∷ 0 ∷ 0 ∷ []) ∷ (0 ∷ 1 ∷ 0 ∷ 0 ∷ 0 ∷ 0 ∷ [])
        ∷ (0 ∷ 0 ∷ 1 ∷ 0 ∷ 0 ∷ 0 ∷ []) ∷ [] }
    ensures double { all_results (0 ∷ 0 ∷ 0 ∷ 0 ∷ 0 ∷ 1 ∷ [])
        (record { first = one; second = one })
        ≡ (0 ∷ 1 ∷ 0 ∷ 0 ∷ 0 ∷ 0 ∷ []) ∷ [] }
    ensures end { all_results finished (record { first = six; second = six }) ≡ finished ∷ [] }
{}

/// Each roll has an index from 0 to 20, and each such index has a roll. A throw or its reverse is
/// a roll, and both have the index of that roll (the rules of backgammon; the index is this
/// project's profile).
#[tactic(auto, using(crate::proofs::WhyLaws::law_rolls))]
pub fn law_rolls()
    ensures index { (v : Throw) → IsRoll v → (roll_index v < 21) × (roll_at (roll_index v) ≡ v) }
    ensures roll { (i : ℕ) → i < 21 → IsRoll (roll_at i) × (roll_index (roll_at i) ≡ i) }
    ensures either { (v : Throw) → IsRoll v ⊎ IsRoll (reversed v) }
    ensures same_index { (v : Throw) → roll_index (reversed v) ≡ roll_index v }
{}
