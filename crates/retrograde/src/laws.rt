//! The laws of built board files: there is one for each bound, and it says what a built database
//! does.
ghost use Rattle.std.specs.Prelude.{◌≡◌, ℕ, ◌↔◌, List};
ghost use Rattle.race_model.specs.Prelude.{Version, board_book, IsBuilt, IsWithinAlike, IsReply, IsReplyIn};
ghost use Rattle.retrograde.specs.BuiltBoards.{IsBuiltBoard};

use race_model::laws::law_replies;

/// The built board file of a bound is one list of bytes: its means are the least, its plays the
/// best of lowest rank, and its counts follow from these; and each number has one way of being
/// written. It gives the reply of a built database to each line that asks of a position within the
/// bounds of both, or of none.
pub fn law_built_boards()
    ensures one { (bound : ℕ) (one other : List ℕ) → IsBuiltBoard bound one →
        IsBuiltBoard bound other → one ≡ other }
    ensures kinds { (version : Version) (b c : ℕ) (f g : List ℕ) → IsBuilt version b f →
        IsBuiltBoard c g → (line text : List ℕ) → IsWithinAlike b c line →
        IsReply f line text ↔ IsReplyIn (board_book g) line text }
{
    law_replies();
}
