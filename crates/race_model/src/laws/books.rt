//! Laws of books: what holds of a database whatever its bytes, and whatever its number of throws;
//! what a play costs; and what a check of the whole home board establishes.
ghost use Rattle.std.specs.Prelude.{◌≡◌, ℕ, suc, ◌+◌, ◌*◌, ◌^◌, ◌≤◌, ◌↔◌, List, sum_by, ◌-◌};
ghost use Rattle.race_model.specs.Prelude.{Board, IsPosition, pips, IsFinished, Throw, throws, rank, numbers_from};
ghost use Rattle.race_model.specs.Prelude.{most_rolls, IsLocalAt, IsLocalIn, IsLocalBook, IsLong, HasShareIn, Strategy};
ghost use Rattle.race_model.specs.Prelude.{turn, IsWithin, EndsIn, count_over, Fits, total_over, IsLeastIn, Book};
ghost use Rattle.race_model.specs.Prelude.{IsRightBook, follow_in, mean_in, play_in, further_by, endings, IsCounted};
ghost use Rattle.race_model.specs.Prelude.{HasCountIn, IsFile, book_of, bound_of, Legal, loss_in, IsLossIn, BeginsWith};
ghost use Rattle.race_model.specs.Prelude.{board_book, count_at, count_place, count_width, board_length, IsRightBoard};
ghost use Rattle.race_model.specs.Prelude.{IsLocalBoard};

/// The theorem for any number of throws: the local equations hold of a book exactly where it is
/// right, if each game from a position of at most its bound is over within its sequences. So it is
/// of the book of a database. From any position a game is over within 33 rolls, the most of at most
/// 90 pips, so a book over 33 throws needs no condition on pips. The equations of a file are those
/// of its book.
pub fn law_books()
    ensures ends { (x : Board) → IsPosition x → EndsIn 33 x }
    ensures limit { (p : ℕ) → p ≤ 90 → most_rolls p ≤ 33 }
    ensures right { (f : Book) → IsLong f → IsLocalBook f → IsRightBook f }
    ensures local { (f : Book) → IsLong f → IsRightBook f → IsLocalBook f }
    ensures file { (f : List ℕ) → IsFile f → IsLong (book_of f) }
    ensures board { (f : Book) → f.further ≡ 32 → IsLong f }
    ensures file_local { (f : List ℕ) (x : Board) → IsLocalIn (book_of f) x ↔ IsLocalAt f x }
{}

/// A right book is right over any number of throws more, with the same plays and each number once
/// for each sequence of these throws: the games that it plays are over within its own throws, and
/// those of any other strategy count no fewer rolls over more throws. (That its own throws are
/// enough for each game, as `IsLong` says, is not needed; where they are, so are the more.) So the
/// book of a right database, over 22 throws, is a right book over 33, as many as a board file has.
pub fn law_further()
    ensures right { (f : Book) (d : ℕ) → IsRightBook f → IsRightBook (further_by d f) }
    ensures long { (f : Book) (d : ℕ) → IsLong f → IsLong (further_by d f) }
    ensures file { (f : List ℕ) → (further_by 11 (book_of f)).further ≡ (board_book f).further }
{}

/// Counts of sequences in place of shares. Where a strategy has at most as many turns as a
/// sequence has throws, the sequences in which it needs exactly k rolls are those that begin with
/// k throws of which the last ends the game: each such beginning counts 36 times for each further
/// throw. A turn adds up what its 36 branches count, at one throw fewer. So for a book whose
/// shares are told by counts the equation of counts, which has no division, is that of shares; and
/// where the book is right, the counts are those of the strategy that plays what it says.
pub fn law_endings()
    ensures strategy { (s : Strategy) (m k further : ℕ) → k + further ≡ m → IsWithin m s →
        count_over m s k ≡ endings s k * 36 ^ further }
    ensures added { (to : Throw → Board) (next : Throw → Strategy) (k : ℕ) →
        endings (turn to next) (suc k) ≡ sum_by (λ v. endings (next v) k) throws }
    ensures equation { (f : Book) (counts : ℕ → ℕ → ℕ) → IsCounted f counts →
        (x : Board) (k : ℕ) → k ≤ suc f.further → HasShareIn f x k ↔ HasCountIn f counts x k }
    ensures right { (f : Book) (counts : ℕ → ℕ → ℕ) → IsCounted f counts → IsRightBook f →
        (x : Board) → IsPosition x → pips x ≤ f.bound → (k : ℕ) → k ≤ suc f.further →
        counts (rank x) k ≡ endings (follow_in f (suc f.further) x) k }
{}

/// What a play costs, by a right book whose sequences are long enough: the mean after the result
/// less the mean after the recorded play, which is never greater, is the loss, the least mean after
/// that result less the least such mean among all results of the throw. It is 0 exactly where some
/// strategy of least mean begins with that play. (`law_books` says that the book of a database, and
/// one over 33 throws, is long enough.)
pub fn law_loss()
    ensures least { (b : Book) → IsLong b → IsRightBook b → (x : Board) →
        IsPosition x → pips x ≤ b.bound → (v : Throw) (y : Board) → Legal x v y →
        b.means (play_in b x v) ≤ mean_in b y }
    ensures loss { (b : Book) → IsLong b → IsRightBook b → (x : Board) →
        IsPosition x → pips x ≤ b.bound → (v : Throw) (y : Board) → Legal x v y →
        IsLossIn (suc b.further) x v y (loss_in b x v y) }
    ensures none { (b : Book) → IsLong b → IsRightBook b → (x : Board) →
        IsPosition x → pips x ≤ b.bound → ¬ IsFinished x → (v : Throw) (y : Board) →
        Legal x v y → (loss_in b x v y ≡ 0) ↔ ((s : Strategy) × Fits s x
        × IsLeastIn (suc b.further) x (total_over (suc b.further) s) × BeginsWith s v y) }
{}

/// A board file meets the equations of its records exactly where it is right: its means are the
/// least over all strategies, its plays reach them, and its shares are those of its plays, over
/// all sequences of 33 throws. Then a count of k throws is of the sequences of k throws how many
/// end the game of these plays with the last one.
#[tactic(auto, using(crate::proofs::WhyLaws::law_boards))]
pub fn law_boards()
    ensures right { (f : List ℕ) → IsLocalBoard f → IsRightBoard f }
    ensures local { (f : List ℕ) → IsRightBoard f → IsLocalBoard f }
    ensures counts { (f : List ℕ) → IsRightBoard f → (x : Board) → IsPosition x →
        pips x ≤ bound_of f → (k : ℕ) → k ≤ 33 →
        count_at f (rank x) k ≡ endings (follow_in (board_book f) 33 x) k }
{}

/// Where a count begins in a record: behind the mean, the plays and the counts of fewer throws. So
/// a record is as long as its parts.
#[tactic(auto, using(crate::proofs::WhyLaws::law_widths))]
pub fn law_widths()
    ensures place { (k : ℕ) → 1 ≤ k → k ≤ 34 →
        count_place k ≡ 66 + sum_by count_width (numbers_from 1 (k - 1)) }
    ensures length { (p : ℕ) → p ≤ 90 →
        board_length p ≡ 66 + sum_by count_width (numbers_from 1 (most_rolls p)) }
{}
