//! Laws of ranks: the order of all positions, and how many there are.
ghost use Rattle.std.specs.Prelude.{◌≡◌, ℕ, ◌+◌, ◌<◌, ◌≤◌, ◌↔◌};
ghost use Rattle.race_model.specs.Prelude.{Board, IsPosition, pips, finished, rank, at_rank, count_to, first_of};
ghost use Rattle.race_model.specs.Prelude.{position_count};

/// The ranks of positions: each position is found by its rank and by no other, ranks rise with the
/// pips, so the positions of at most a number of pips have the ranks below their count, and the
/// finished position is the first of 54,264.
#[tactic(auto, using(crate::proofs::WhyLaws::law_rank))]
pub fn law_rank()
    ensures found { (x : Board) → IsPosition x → at_rank (rank x) ≡ x }
    ensures apart { (x y : Board) → IsPosition x → IsPosition y → rank x ≡ rank y → x ≡ y }
    ensures fewer { (x y : Board) → IsPosition x → IsPosition y → pips x < pips y →
        rank x < rank y }
    ensures within { (x : Board) (bound : ℕ) → IsPosition x →
        (rank x < count_to bound) ↔ (pips x ≤ bound) }
    ensures ranked { (x : Board) → IsPosition x → rank x < 54264 }
    ensures least { rank finished ≡ 0 }
{}

/// The positions of ranks: a number below 54,264 is the rank of one position, of at most so many
/// pips where it is below their count, and any other number stands for the finished position.
pub fn law_at_rank()
    ensures position { (r : ℕ) → IsPosition (at_rank r) }
    ensures reached { (r : ℕ) → r < 54264 → rank (at_rank r) ≡ r }
    ensures under { (bound r : ℕ) → r < count_to bound →
        (rank (at_rank r) ≡ r) × (pips (at_rank r) ≤ bound) }
    ensures beyond { (r : ℕ) → 54264 ≤ r → at_rank r ≡ finished }
{}

/// How many positions there are: 54,264 in all, and so many of at most 8, 44 and 58 pips. The
/// counts rise with the pips, up to 90 pips, the most of any position.
pub fn law_counts()
    ensures all { position_count ≡ 54264 }
    ensures to_8 { count_to 8 ≡ 64 }
    ensures to_44 { count_to 44 ≡ 26314 }
    ensures to_58 { count_to 58 ≡ 46062 }
    ensures most { (bound : ℕ) → count_to bound ≤ 54264 }
    ensures complete { (bound : ℕ) → 90 ≤ bound → count_to bound ≡ 54264 }
    ensures rising { (m n : ℕ) → m ≤ n → count_to m ≤ count_to n }
    ensures none { first_of 0 ≡ 0 }
    ensures next { (m : ℕ) → first_of (m + 1) ≡ count_to m }
{}
