//! Why a line has no summary, in words.
ghost use Rattle.std.specs.Prelude.{◌≡◌, ◌+◌, ◌≤◌, ◌++◌, ℕ, List, length};
ghost use Rattle.arrayvec.specs.ArrayString.{array_string_len};
ghost use Rattle.race_summary.specs.Shown.{error_start, IsErrorText};

use crate::lines::{Form, NoSummary};
use itoa::Buffer;
use notation::NoRace;
use query_text::{TEXT_ROOM, Text};

/// Makes a text why a line has no summary; no word needs an escape in JSON.
pub(crate) fn put(form: Form, why: &NoSummary, text: &mut Text)
    ensures { IsErrorText form text.new.bytes }
{
    text.clear();
    text.push_str(start(form));
    push_reason(why, text);
    text.push_str(match form {
        Form::Plain => "\n\n",
        Form::Json => "\"}\n",
    });
}

/// How a reason begins.
fn start(form: Form) -> &'static str
    ensures value { result.now ≡ error_start form }
    ensures len { length result.now ≤ 10 }
{
    match form {
        Form::Plain => "error: ",
        Form::Json => "{\"error\":\"",
    }
}

/// Adds the reason.
fn push_reason(why: &NoSummary, text: &mut Text)
    requires { array_string_len text.old + 200 ≤ TEXT_ROOM }
    ensures bytes { (rest : List ℕ) × (text.new.bytes ≡ text.old.bytes ++ rest) }
    ensures len { array_string_len text.new ≤ array_string_len text.old + 100 }
{
    match why {
        NoSummary::Text(why) => text.push_str(words_of(*why)),
        NoSummary::SmallXgid => text.push_str(
            "an XGID begins with XGID= in capitals, and its case tells whose checkers they are",
        ),
        NoSummary::OverBound(bound) => {
            text.push_str("more pips than the file, which has positions of up to ");
            text.push_str(Buffer::new().format(*bound));
        }
        NoSummary::Changed => text.push_str("the file was changed"),
    }
}

fn words_of(why: NoRace) -> &'static str
    ensures { length result.now ≤ 100 }
{
    match why {
        NoRace::BadText => "neither an XGID, a GNU Backgammon ID nor six counts, as 0,0,0,2,0,0",
        NoRace::TooMany(_) => "a player has more than 15 checkers",
        NoRace::SamePoint(_) => "both players have a checker on one point",
        NoRace::OnBar(_) => "a checker is on the bar",
        NoRace::Outside(_) => "the player on roll has a checker outside the home board",
        NoRace::Contact(_) => "the players are still in contact",
        NoRace::OtherOutside(_) => "the other player has a checker outside the home board",
    }
}
