//! Facts about replies, each on a function with an empty body: a call brings the fact into the
//! caller's proof, and costs nothing when it runs.
ghost use Rattle.std.specs.Prelude.{ℕ, List, [], ◌∷◌, ◌++◌};
ghost use Rattle.race_model.specs.Prelude.{IsReply};
ghost use Rattle.query_text.specs.declared.reply.Reply.{Reply};
ghost use Rattle.query_text.specs.Texts.{IsTextOf};
ghost use Rattle.epc_query.specs.Answers.{IsReplyTo};

use race_model::laws::law_results;

/// The text of what a line is answered with, and a line feed, is the reply to the line as
/// `race_model` defines it.
pub fn law_reply_text()
    ensures { (f line : List ℕ) (reply : Reply) (text : List ℕ)
        → IsReplyTo f line reply → IsTextOf reply text → IsReply f line (text ++ 10 ∷ []) }
{
    law_results();
}
