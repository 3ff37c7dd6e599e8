//! Laws of files, the headline's among them: locally right is right, and nothing else is.
ghost use Rattle.std.specs.Prelude.{◌≡◌, ℕ, suc, ◌+◌, ◌*◌, ◌<◌, ◌≤◌, ◌⊎◌, List, sum_by, ◌↔◌};
ghost use Rattle.std.specs.List.{range_with_len};
ghost use Rattle.race_model.specs.Prelude.{Board, IsPosition, IsFinished, pips, Throw, rank, count_to, Version};
ghost use Rattle.race_model.specs.Prelude.{IsBytes, IsFile, version_of, bound_of, mean, play, spread, whole, recorded};
ghost use Rattle.race_model.specs.Prelude.{IsPlayed, IsLong, IsLocalDatabase, IsLocalAt, Strategy, Fits, total};
ghost use Rattle.race_model.specs.Prelude.{count_of, IsRight, IsRightDatabase, IsRightBoard, IsRightAt, IsBuilt};
ghost use Rattle.race_model.specs.Prelude.{HasSameNumbers, told_share, most_rolls, Book, mean_in, share_in, whole_in};
ghost use Rattle.race_model.specs.Prelude.{IsRightBook, IsReply, IsUpgrade};

/// The local equations, which test each record against records of lower rank alone, hold of a list
/// of bytes exactly where it is a right file: its means are the least over all strategies, also
/// those that look at the history, its plays reach them, and its shares are those of its plays.
pub fn law_right()
    ensures right { (f : List ℕ) → IsLocalDatabase f → IsRightDatabase f }
    ensures local { (f : List ℕ) → IsRightDatabase f → IsLocalDatabase f }
{}

/// A right file, of whichever version its header states, is a right database or a right board file.
#[tactic(auto, using(crate::proofs::WhyLaws::law_versions))]
pub fn law_versions()
    ensures either { (f : List ℕ) → IsRight f → IsRightDatabase f ⊎ IsRightBoard f }
    ensures database { (f : List ℕ) → IsRightDatabase f → IsRight f }
    ensures board { (f : List ℕ) → IsRightBoard f → IsRight f }
{}

/// What a recorded play leads to, where the recorded number is the rank of a position to which the
/// throw leads: a position with no more pips, so one of the records of the file, of lower rank
/// while a checker is left; and the finished position records its own rank, 0. A number that is no
/// rank of a position is never a recorded play of a right file.
pub fn law_recorded()
    ensures position { (f : List ℕ) (x : Board) (v : Throw) → IsPosition x → IsPlayed f x v →
        IsPosition (recorded f x v) × (pips (recorded f x v) ≤ pips x) }
    ensures under { (f : List ℕ) (x : Board) (v : Throw) (bound : ℕ) → IsPosition x →
        pips x ≤ bound → IsPlayed f x v → play f x v < count_to bound }
    ensures lower { (f : List ℕ) (x : Board) (v : Throw) → IsPosition x → ¬ IsFinished x →
        IsPlayed f x v → play f x v < rank x }
    ensures at_end { (f : List ℕ) (x : Board) (v : Throw) → IsPosition x → IsFinished x →
        IsPlayed f x v → play f x v ≡ 0 }
{}

/// Right files agree on the mean of each position of at most the bound of both. Built files of one
/// bound, whatever their versions, hold the same numbers, since the builder records of the plays
/// to the least mean the one to the lowest rank; and files of bytes and of one version that hold
/// the same numbers are byte for byte one, so there is one built file of a version and a bound.
pub fn law_agree()
    ensures right { (f g : List ℕ) → IsRightDatabase f → IsRightDatabase g → (x : Board) →
        IsPosition x → pips x ≤ bound_of f → pips x ≤ bound_of g → mean f x ≡ mean g x }
    ensures built { (one other : Version) (bound : ℕ) (f g : List ℕ) → IsBuilt one bound f →
        IsBuilt other bound g → HasSameNumbers f g }
    ensures same_bytes { (f g : List ℕ) → IsBytes f → IsBytes g → IsFile f → IsFile g →
        version_of f ≡ version_of g → HasSameNumbers f g → f ≡ g }
    ensures one_built { (version : Version) (bound : ℕ) (f g : List ℕ) → IsBuilt version bound f →
        IsBuilt version bound g → f ≡ g }
{}

/// The shares of a position. Those of a strategy from at most 58 pips add up to the whole, and
/// each times its number of rolls to the total; so do those of a right book whose sequences are
/// long enough, and it has no share beyond the most rolls of a pip count: a record that leaves
/// these out loses none, and a compact one tells them all.
#[tactic(auto, using(crate::proofs::WhyLaws::law_spread))]
pub fn law_spread()
    ensures strategy { (x : Board) (s : Strategy) → IsPosition x → pips x ≤ 58 → Fits s x →
        sum_by (count_of s) (range_with_len 0 23) ≡ whole }
    ensures mean { (x : Board) (s : Strategy) → IsPosition x → pips x ≤ 58 → Fits s x →
        sum_by (λ k. count_of s k * k) (range_with_len 0 23) ≡ total s }
    ensures recorded { (b : Book) → IsLong b → IsRightBook b → (x : Board) →
        IsPosition x → pips x ≤ b.bound →
        sum_by (share_in b x) (range_with_len 0 (suc (suc b.further))) ≡ whole_in b }
    ensures weighed { (b : Book) → IsLong b → IsRightBook b → (x : Board) →
        IsPosition x → pips x ≤ b.bound →
        sum_by (λ k. share_in b x k * k) (range_with_len 0 (suc (suc b.further))) ≡ mean_in b x }
    ensures beyond { (b : Book) → IsLong b → IsRightBook b → (x : Board) (k : ℕ) →
        IsPosition x → pips x ≤ b.bound → most_rolls (pips x) < k → k ≤ suc b.further →
        share_in b x k ≡ 0 }
    ensures told { (version : Version) (f : List ℕ) (x : Board) (k : ℕ) → IsPosition x →
        IsRightAt f x → k ≤ 22 → spread f x k ≡ told_share version (pips x) (spread f x) k }
{}

/// What an old file becomes. A file that holds the numbers of a right one is right, whatever its
/// version; a file has one upgrade; and a right file and its upgrade give the same reply to each
/// line.
pub fn law_upgrade()
    ensures right { (f g : List ℕ) → IsRightDatabase f → IsFile g → HasSameNumbers f g →
        IsRightDatabase g }
    ensures one { (f g h : List ℕ) → IsUpgrade f g → IsUpgrade f h → g ≡ h }
    ensures replies { (f g : List ℕ) → IsRightDatabase f → IsUpgrade f g →
        (line text : List ℕ) → IsReply f line text ↔ IsReply g line text }
{}
