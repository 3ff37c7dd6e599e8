//! Laws of lines and replies: how bytes fall into lines, and that each line has one reply, whatever
//! right file answers it.
ghost use Rattle.std.specs.Prelude.{◌≡◌, ℕ, ◌≤◌, ◌↔◌, List, length, ◌≢◌, [], ◌∷◌, ◌++◌};
ghost use Rattle.race_model.specs.Prelude.{IsRightDatabase, IsRightBoard, HasSamePlays, HasSameNumbers, Query, IsQuery};
ghost use Rattle.race_model.specs.Prelude.{HasWords, IsWithinAlike, IsReply, IsReplyIn, bound_of, book_of, Book};
ghost use Rattle.race_model.specs.Prelude.{further_by, board_book, pieces, rest_of, IsCut};

/// A line has one reply, by a file and by any book: the definition leaves no choice. Two right
/// files that hold the same bound, means, plays and shares give the same reply to each line,
/// whatever else their bytes are; so do a right database and a right board file with the same
/// plays to each line that asks of a position within the bounds of both, or of none, though the
/// one counts over 22 throws and the other over 33. The reply by a book is for the book of a file
/// that of the file.
pub fn law_replies()
    ensures one { (f line text other : List ℕ) → IsReply f line text → IsReply f line other →
        text ≡ other }
    ensures one_in { (b : Book) (line text other : List ℕ) → IsReplyIn b line text →
        IsReplyIn b line other → text ≡ other }
    ensures same { (f g : List ℕ) → IsRightDatabase f → IsRightDatabase g →
        HasSameNumbers f g → (line text : List ℕ) → IsReply f line text → IsReply g line text }
    ensures kinds { (f g : List ℕ) → IsRightDatabase f → IsRightBoard g →
        HasSamePlays (book_of f) (board_book g) → (line text : List ℕ) →
        IsWithinAlike (bound_of f) (bound_of g) line →
        IsReply f line text ↔ IsReplyIn (board_book g) line text }
    ensures book { (f line text : List ℕ) → IsReplyIn (book_of f) line text ↔ IsReply f line text }
    ensures further { (f line text : List ℕ) → IsRightDatabase f →
        IsReplyIn (further_by 11 (book_of f)) line text ↔ IsReply f line text }
{}

/// What a line asks is told by its words, the parts between spaces, and a line
/// asks one thing at most. None that asks something has more than 55 bytes.
#[tactic(auto, using(crate::proofs::WhyLaws::law_lines))]
pub fn law_lines()
    ensures words { (line : List ℕ) (q : Query) → IsQuery line q ↔ HasWords line q }
    ensures one { (line : List ℕ) (q r : Query) → IsQuery line q → IsQuery line r → q ≡ r }
    ensures short { (line : List ℕ) (q : Query) → IsQuery line q → length line ≤ 55 }
{}

/// An input is its pieces, each with a line feed after it, and its rest, and nothing else cuts it
/// so that no piece and not the rest holds a line feed. One line feed more makes the rest a
/// piece, any other byte more belongs to the rest, and whatever follows leaves the pieces that
/// stand before it.
pub fn law_input_lines()
    ensures cut { (input : List ℕ) → IsCut input (pieces input) (rest_of input) }
    ensures one { (input : List ℕ) (parts : List (List ℕ)) (rest : List ℕ) → IsCut input parts rest
        → (parts ≡ pieces input) × (rest ≡ rest_of input) }
    ensures feed { (input : List ℕ)
        → (pieces (input ++ 10 ∷ []) ≡ pieces input ++ rest_of input ∷ [])
        × (rest_of (input ++ 10 ∷ []) ≡ []) }
    ensures other { (input : List ℕ) (c : ℕ) → c ≢ 10 → (pieces (input ++ c ∷ []) ≡ pieces input)
        × (rest_of (input ++ c ∷ []) ≡ rest_of input ++ c ∷ []) }
    ensures more { (input more : List ℕ) → (later : List (List ℕ))
        × (pieces (input ++ more) ≡ pieces input ++ later) }
{}
