//! Laws of strategies: turns, horizons, and least totals.
ghost use Rattle.std.specs.Prelude.{◌≡◌, ℕ, zero, suc, ◌+◌, ◌*◌, ◌^◌, ◌<◌, ◌≤◌, sum_by};
ghost use Rattle.race_model.specs.Prelude.{Board, IsPosition, pips, more, finished, Throw, throws, most_rolls, whole};
ghost use Rattle.race_model.specs.Prelude.{from_six_point, Strategy, turn, Fits, total_over, count_over, total};
ghost use Rattle.race_model.specs.Prelude.{count_of, IsLeastIn, IsLeast, IsWithin, EndsIn};

/// What a turn adds, for every m. Its rolls over all sequences of m + 1 throws are one for each of
/// these 36 ^ (m + 1) sequences and those of its branches over all sequences of m throws; and it
/// needs k + 1 rolls just where the branch of the first throw needs k, and never none.
#[tactic(auto, using(crate::proofs::WhyLaws::law_turn))]
pub fn law_turn()
    ensures total { (m : ℕ) (to : Throw → Board) (next : Throw → Strategy) →
        total_over (suc m) (turn to next)
        ≡ 36 ^ suc m + sum_by (λ v. total_over m (next v)) throws }
    ensures count { (m : ℕ) (to : Throw → Board) (next : Throw → Strategy) (k : ℕ) →
        count_over (suc m) (turn to next) (suc k) ≡ sum_by (λ v. count_over m (next v) k) throws }
    ensures none { (m : ℕ) (to : Throw → Board) (next : Throw → Strategy) →
        count_over (suc m) (turn to next) zero ≡ 0 }
{}

/// What a throw more does, for every m: a strategy of at most m turns has over all sequences of m
/// + 1 throws 36 times the rolls that it has over those of m throws, and 36 times the sequences
/// for each number of rolls.
#[tactic(auto, using(crate::proofs::WhyLaws::law_scale))]
pub fn law_scale()
    ensures total { (m : ℕ) (s : Strategy) → IsWithin m s →
        total_over (suc m) s ≡ 36 * total_over m s }
    ensures count { (m : ℕ) (s : Strategy) (k : ℕ) → IsWithin m s →
        count_over (suc m) s k ≡ 36 * count_over m s k }
{}

/// How long a game can take, however it is played. From at most 58 pips it is over within 22
/// rolls, so that the sequences of 22 throws cut no game short, and from any position within the
/// most rolls of its pip count, so that no strategy ever needs more: each turn after which a
/// checker remains takes at least 6 from 2 * pips + checkers, and 1 more where a checker stands
/// above point 1 (the bearing-off rules of backgammon).
pub fn law_horizon()
    ensures ends { (x : Board) → IsPosition x → pips x ≤ 58 → EndsIn 22 x }
    ensures turns { (x : Board) (s : Strategy) → IsPosition x → pips x ≤ 58 → Fits s x →
        IsWithin 22 s }
    ensures most { (x : Board) (s : Strategy) → IsPosition x → Fits s x →
        IsWithin (most_rolls (pips x)) s }
    ensures beyond { (x : Board) (s : Strategy) (k : ℕ) → IsPosition x → Fits s x →
        most_rolls (pips x) < k → count_of s k ≡ 0 }
    ensures limit { (p : ℕ) → p ≤ 58 → most_rolls p ≤ 22 }
{}

/// Each position of at most 58 pips has a least total over all sequences of 22 throws, and each
/// position has one over those of 33, whether or not a file records it; and over those of so many
/// throws it has one alone.
#[tactic(auto, using(crate::proofs::WhyLaws::law_least))]
pub fn law_least()
    ensures some { (x : Board) → IsPosition x → pips x ≤ 58 → (t : ℕ) × IsLeast x t }
    ensures board { (x : Board) → IsPosition x → (t : ℕ) × IsLeastIn 33 x t }
    ensures one { (m : ℕ) (x : Board) (t u : ℕ) → IsLeastIn m x t → IsLeastIn m x u → t ≡ u }
{}

/// One checker on point 6, counted by hand: 9 of the 36 throws don't bear it off. Over all
/// sequences of two throws it needs 1,620 rolls in 1,296 sequences; in 972 of them one roll is
/// enough, and in 324 two are needed. So over all sequences of 22 throws its mean is 5/4, one roll
/// has the share 3/4 and two have 1/4. No strategy has less.
#[tactic(auto, using(crate::proofs::WhyLaws::law_sample))]
pub fn law_sample()
    ensures fits { Fits from_six_point (more finished 6) }
    ensures total { total_over 2 from_six_point ≡ 1620 }
    ensures one { count_over 2 from_six_point 1 ≡ 972 }
    ensures two { count_over 2 from_six_point 2 ≡ 324 }
    ensures mean { 4 * total from_six_point ≡ 5 * whole }
    ensures least { IsLeast (more finished 6) (total from_six_point) }
    ensures share_of_one { 4 * count_of from_six_point 1 ≡ 3 * whole }
    ensures share_of_two { 4 * count_of from_six_point 2 ≡ whole }
{}
