//! Laws of faults: what a first fault means, and what the questions about a header mean.
ghost use Rattle.std.specs.Prelude.{◌≡◌, ℕ, ◌⊎◌, List, length, take};
ghost use Rattle.race_model.specs.Prelude.{IsBytes, IsFile, HeaderTest, IsHeader, IsFirstHeaderFault, IsBoardHeader};
ghost use Rattle.race_model.specs.Prelude.{IsLocalDatabase, IsBoardFile, HoldsOnBoard, AsksOnBoard, IsFirstBoardFault};
ghost use Rattle.race_model.specs.Prelude.{IsLocalBoard, Test, Holds, Asks, IsFirstFault};

/// What a first fault means. The questions about a file are the local equations of its positions:
/// in a locally right file each that is asked is answered yes, and a file of which each is
/// answered yes is locally right. So a file that has a first fault is not locally right; it has no
/// other first fault; and a file is locally right or has one.
pub fn law_first_fault()
    ensures answers { (f : List ℕ) → IsLocalDatabase f → (t : Test) → Asks f t →
        Holds f t }
    ensures local { (f : List ℕ) → IsFile f →
        ((t : Test) → Asks f t → Holds f t) → IsLocalDatabase f }
    ensures refused { (f : List ℕ) (t : Test) → IsFirstFault (Asks f) f t →
        ¬ IsLocalDatabase f }
    ensures either { (f : List ℕ) → IsFile f →
        IsLocalDatabase f ⊎ ((t : Test) × IsFirstFault (Asks f) f t) }
    ensures one { (f : List ℕ) (t u : Test) → IsFirstFault (Asks f) f t →
        IsFirstFault (Asks f) f u → t ≡ u }
{}

/// The same of a board file: the questions about it are the local equations of its book, and that
/// its numbers are written in the one way that is allowed.
pub fn law_first_board_fault()
    ensures answers { (f : List ℕ) → IsLocalBoard f → (t : Test) → AsksOnBoard f t →
        HoldsOnBoard f t }
    ensures local { (f : List ℕ) → IsBoardFile f →
        ((t : Test) → AsksOnBoard f t → HoldsOnBoard f t) → IsLocalBoard f }
    ensures refused { (f : List ℕ) (t : Test) → IsFirstBoardFault f t → ¬ IsLocalBoard f }
    ensures either { (f : List ℕ) → IsBoardFile f →
        IsLocalBoard f ⊎ ((t : Test) × IsFirstBoardFault f t) }
    ensures one { (f : List ℕ) (t u : Test) → IsFirstBoardFault f t → IsFirstBoardFault f u →
        t ≡ u }
{}

/// What the questions about a header mean, which the checker asks of the first 32 bytes and the
/// length: a list of bytes is a file of at most that bound exactly where each is answered yes. So
/// one that has a header fault is none. Of a board file they are asked of the file.
pub fn law_header()
    ensures file { (f : List ℕ) → IsBytes f → IsHeader (take 32 f) (length f) →
        IsFile f }
    ensures header { (f : List ℕ) → IsFile f →
        IsHeader (take 32 f) (length f) }
    ensures refused { (f : List ℕ) (t : HeaderTest) →
        IsFirstHeaderFault (take 32 f) (length f) t → ¬ IsFile f }
    ensures board { (f : List ℕ) → IsBytes f → IsBoardHeader f → IsBoardFile f }
    ensures board_header { (f : List ℕ) → IsBoardFile f → IsBoardHeader f }
{}
