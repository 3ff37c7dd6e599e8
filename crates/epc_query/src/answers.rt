//! What answers lines: the one place where lent bytes and a table of pages meet; and the reply to a
//! line by lent bytes.
ghost use Rattle.std.specs.Prelude.{◌≡◌, ℕ, List, [], ◌∷◌, Some, Err, MatchResult, IfErr, ◌+◌, ◌*◌, ◌≤◌, ◌++◌, IsSome};
ghost use Rattle.arrayvec.specs.ArrayString.{array_string_len};
ghost use Rattle.race_model.specs.Prelude.{Book, version_of, bound_of, pips, IsFraction, IsThousandths, Legal};
ghost use Rattle.race_model.specs.Prelude.{mean_query, dist_query, play_query, loss_query, moves_query, IsAnswerOver};
ghost use Rattle.race_model.specs.Prelude.{IsReplyOver};
ghost use Rattle.query_text.specs.Readings.{asked, IsAnswerable};
ghost use Rattle.db_reader.specs.Telling.{WhereTold};
ghost use Rattle.certificate.specs.Databases.{Database, Stays};
ghost use Rattle.fixed_fraction.specs.Board.{board_whole};
ghost use Rattle.epc_query.specs.Kinds.{file_book, long_by};
ghost use Rattle.epc_query.specs.Runs.{HasReplies, IsStoppedAt};
ghost use Rattle.epc_query.specs.UsedReads.{IsLineFault};

use crate::losses::{loss, play};
use crate::move_lists::put_list;
use crate::opened::Opened;
use crate::run_fault::RunFault;
use arrayvec::ArrayVec;
use db_layout::WriteFault;
use fixed_fraction::{
    BoardMean, WideFraction, board_mean_and_epc, board_mean_fraction, mean_and_epc, thousandths_of,
};
use home_board::Position;
use legal_plays::Roll;
use query_text::{
    Query, Text, accepted_query, put_loss, put_mean, put_play, put_rank, put_refusal,
    read_mean_query, write_line,
};
use std::alloc::Global;
use std::io::Write;

/// What answers lines, one after another, by way of a text. No line changes it, but for the count
/// of failed reads.
pub trait Answers {
    // what it answers from: its bytes, where they are told, their bound and version, and how often
    // a read has failed
    ghost seen: { Self → Database };

    // what these bytes say
    ghost book: { List ℕ → Book };

    /// Writes the reply to a line, which comes without its line feed, by way of a text that the
    /// lines share. Refused as `Table`, `Memory` and `Write`, as `run` is.
    fn write_answer<W: Write>(
        &mut self,
        alloc: Global,
        line: &[u8],
        text: &mut Text,
        writer: &mut W,
    ) -> Result<(), RunFault>
        ensures answered { WhereTold (seen self.old).told (λ file. MatchResult result
            (λ _. HasReplies (book file) (line.now ∷ [])
            (W.contents writer.old) (W.contents writer.new))
            (IsStoppedAt (book file) (line.now ∷ [])
            (W.contents writer.old) (W.contents writer.new))) }
        ensures cause { IfErr result IsLineFault }
        ensures stays { Stays (seen self.old) (seen self.new) (result ≡ Err RunFault.Table) };
}

/// A file of either kind answers lines by its texts.
impl<'a> Answers for Opened<'a> {
    ghost seen = { λ opened. record {
      told = Some opened.1;
      bound = bound_of opened.1;
      version = version_of opened.1;
      failures = 0;
    } };

    ghost book = { file_book };

    fn write_answer<W: Write>(
        &mut self,
        _alloc: Global,
        line: &[u8],
        text: &mut Text,
        writer: &mut W,
    ) -> Result<(), RunFault> {
        let _bound = self.long_bound();
        let Some(()) = answer(self, line, text) else {
            return Err(RunFault::Table);
        };
        match write_line(text, writer) {
            Ok(()) => Ok(()),
            Err(WriteFault) => Err(RunFault::Write),
        }
    }
}

/// Makes a text the reply to a line, which comes without its line feed, as the text does: what
/// bytes that were accepted say, or why the line is refused. A mean is read and written as it
/// stands, since a query has room for two positions and a roll.
pub(crate) fn answer(opened: &Opened<'_>, line: &[u8], text: &mut Text) -> Option<()>
    ensures some { IsSome result }
    ensures reply { IsReplyOver board_whole (long_by opened.now) line.now
        (text.new.bytes ++ 10 ∷ []) }
    ensures len { array_string_len text.new ≤ 16642 }
{
    match read_mean_query(line) {
        Some(position) if position.pips() <= opened.long_bound() => answer_mean(
            opened, &position, text,
        ),
        _ => answer_any(opened, line, text),
    }
}

/// Makes a text the reply to a line of any kind, as `answer` does.
#[inline(never)]
fn answer_any(opened: &Opened<'_>, line: &[u8], text: &mut Text) -> Option<()>
    ensures some { IsSome result }
    ensures reply { IsReplyOver board_whole (long_by opened.now) line.now
        (text.new.bytes ++ 10 ∷ []) }
    ensures len { array_string_len text.new ≤ 16642 }
{
    match accepted_query(line, opened.long_bound()) {
        Ok(query) => answer_query(opened, &query, text),
        Err(refusal) => {
            put_refusal(text, refusal);
            Some(())
        }
    }
}

/// Makes a text the answer to a query that is not refused.
fn answer_query(opened: &Opened<'_>, query: &Query, text: &mut Text) -> Option<()>
    requires { IsAnswerable (long_by opened.now).bound (asked query.now) }
    ensures some { IsSome result }
    ensures answer { IsAnswerOver board_whole (long_by opened.now) (asked query.now)
        text.new.bytes }
    ensures len { array_string_len text.new ≤ 16642 }
{
    match query {
        Query::Mean(position) => answer_mean(opened, position, text),
        Query::Dist(position) => answer_dist(opened, position, text),
        Query::Play(position, roll) => answer_play(opened, position, *roll, text),
        Query::Loss(position, roll, to) => answer_loss(opened, position, *roll, to, text),
        Query::Moves(position, roll) => answer_moves(opened, position, *roll, text),
        Query::Rank(position) => {
            put_rank(text, opened.ranks().rank(position));
            Some(())
        }
    }
}

/// Makes a text the mean of a position of at most the bound, and its effective pip count.
fn answer_mean(opened: &Opened<'_>, position: &Position, text: &mut Text) -> Option<()>
    requires within { pips position.now ≤ (long_by opened.now).bound }
    ensures some { IsSome result }
    ensures answer { IsAnswerOver board_whole (long_by opened.now) (mean_query position.now)
        text.new.bytes }
    ensures len { array_string_len text.new ≤ 284 }
{
    let _bound = opened.long_bound();
    let mean = opened.long_mean(position.pips(), opened.ranks().rank(position))?;
    let (rolls, pips, thousandths) = told_mean(mean);
    put_mean(text, rolls, pips, thousandths);
    Some(())
}

/// A mean in lowest terms, its effective pip count, and that in thousandths. A mean with no lower
/// part, as each of a database, takes numbers of 128 bits alone.
#[inline(always)]
fn told_mean(mean: BoardMean) -> (WideFraction, WideFraction, u64)
    ensures mean { IsFraction mean board_whole result.0.numerator result.0.denominator }
    ensures epc { IsFraction (49 * mean) (6 * board_whole)
        result.1.numerator result.1.denominator }
    ensures thousandths { IsThousandths result.1.numerator result.1.denominator result.2 }
{
    if let Some(short) = mean.scaled() {
        let (rolls, pips) = mean_and_epc(short);
        let told = thousandths_of(pips.numerator(), pips.denominator());
        return (WideFraction::of(rolls), WideFraction::of(pips), told);
    }
    let (rolls, pips) = board_mean_and_epc(mean);
    (rolls, pips, mean.effective_thousandths())
}

/// Makes a text how the number of rolls of a position of at most the bound is spread.
// so that its room is not part of its caller's
#[inline(never)]
fn answer_dist(opened: &Opened<'_>, position: &Position, text: &mut Text) -> Option<()>
    requires { pips position.now ≤ (long_by opened.now).bound }
    ensures some { IsSome result }
    ensures answer { IsAnswerOver board_whole (long_by opened.now) (dist_query position.now)
        text.new.bytes }
    ensures len { array_string_len text.new ≤ 4152 }
{
    let _bound = opened.long_bound();
    opened.put_dist(position.pips(), opened.ranks().rank(position), text)
}

/// Makes a text every result of a roll from a position of at most the bound, by rising loss and
/// then by rising rank, each with its loss.
// so that its room is not part of its caller's
#[inline(never)]
fn answer_moves(opened: &Opened<'_>, position: &Position, roll: Roll, text: &mut Text) -> Option<()>
    requires { pips position.now ≤ (long_by opened.now).bound }
    ensures some { IsSome result }
    ensures answer { IsAnswerOver board_whole (long_by opened.now)
        (moves_query position.now roll) text.new.bytes }
    ensures len { array_string_len text.new ≤ 16642 }
{
    put_list(opened, position, roll, &mut ArrayVec::new(), text)
}

/// Makes a text what a roll from a position of at most the bound is played with.
fn answer_play(opened: &Opened<'_>, position: &Position, roll: Roll, text: &mut Text) -> Option<()>
    requires within { pips position.now ≤ (long_by opened.now).bound }
    ensures some { IsSome result }
    ensures answer { IsAnswerOver board_whole (long_by opened.now) (play_query position.now roll)
        text.new.bytes }
    ensures len { array_string_len text.new ≤ 44 }
{
    let (play, to) = play(opened, position, roll)?;
    let _checkers = to.checkers();
    put_play(text, &play, &to);
    Some(())
}

/// Makes a text what a result of a roll from a position of at most the bound costs.
fn answer_loss(
    opened: &Opened<'_>,
    position: &Position,
    roll: Roll,
    to: &Position,
    text: &mut Text,
) -> Option<()>
    requires within { pips position.now ≤ (long_by opened.now).bound }
    requires legal { Legal position.now roll to.now }
    ensures some { IsSome result }
    ensures answer { IsAnswerOver board_whole (long_by opened.now)
        (loss_query position.now roll to.now) text.new.bytes }
    ensures len { array_string_len text.new ≤ 122 }
{
    let loss = loss(opened, position, roll, to)?;
    put_loss(text, board_mean_fraction(loss));
    Some(())
}
