//! Laws of numbers: how large recorded ones can be, and that lowest terms and thousandths leave no
//! choice.
ghost use Rattle.std.specs.Prelude.{ℕ, ◌*◌, ◌≤◌, List, ◌≡◌, ◌<◌};
ghost use Rattle.race_model.specs.Prelude.{Board, IsPosition, pips, rank, mean, spread, whole, HasLeastMean, IsLocalAt};
ghost use Rattle.race_model.specs.Prelude.{IsFraction, IsThousandths};

/// How large recorded numbers can be where the equations hold for all positions up to a rank: a
/// mean is at most 22 rolls from at most 58 pips, and a share is at most the whole. (This
/// project's profile.)
pub fn law_bounds()
    ensures mean { (f : List ℕ) (x : Board) → IsPosition x → pips x ≤ 58 →
        ((z : Board) → IsPosition z → rank z ≤ rank x → HasLeastMean f z) → mean f x ≤ 22 * whole }
    ensures share { (f : List ℕ) (x : Board) (k : ℕ) → k ≤ 22 → IsPosition x →
        ((z : Board) → IsPosition z → rank z ≤ rank x → IsLocalAt f z) → spread f x k ≤ whole }
{}

/// A number is one fraction in lowest terms, and a fraction has one
/// number of thousandths: there is no choice in what a reply prints.
#[tactic(auto, using(crate::proofs::WhyLaws::law_fractions))]
pub fn law_fractions()
    ensures one { (a b n d m e : ℕ) → 0 < b → IsFraction a b n d → IsFraction a b m e →
        (n ≡ m) × (d ≡ e) }
    ensures thousandths { (n d q r : ℕ) → 0 < d → IsThousandths n d q → IsThousandths n d r →
        q ≡ r }
{}
