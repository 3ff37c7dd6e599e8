//! The answers to a whole input.
ghost use Rattle.std.specs.Prelude.{◌≡◌, ℕ, ◌+◌, ◌^◌, ◌<◌, ◌≤◌, List, ◌++◌, length, Option};
ghost use Rattle.std.specs.Prelude.{Err, MatchResult, IfOk, IfErr, OnErr, false};
ghost use Rattle.std.specs.Io.KnownBytes.{Keeps, IsAtEnd};
ghost use Rattle.race_model.specs.Prelude.{book_of, whole_lines, lines_of};
ghost use Rattle.db_reader.specs.Telling.{WhereTold};
ghost use Rattle.certificate.specs.Databases.{Stays};
ghost use Rattle.epc_query.specs.Runs.{HasReplies, IsStoppedAt, IsAnswered, IsRunStopped};
ghost use Rattle.epc_query.specs.UsedReads.{HasUsed, IsLineFault};

use crate::answers::Answers;
use crate::lines::{answer_chunk, answer_last, flush};
use crate::reads::Reads;
use crate::run_fault::RunFault;
use certificate::Checked;
use db_reader::Table;
use query_text::{LineBuffer, Text};
use race_model::laws;
use std::alloc::Global;
use std::io::{Read, Write};

/// The most reads of one call of `run`, 2 ^ 40 (this project's profile).
const MOST_TURNS: u64 = 1 << 40;

/// Answers each line of an input as soon as it is whole, and gives the number of lines answered.
/// A line ends at a line feed, and a carriage return just before it is dropped; bytes after the
/// last line feed are a last line, from which nothing is dropped. Before the next read the
/// replies to all whole lines so far are with the writer, and it was flushed. There are at most
/// `turns` reads, and at most 2 ^ 40.
///
/// Refused as `Read` where the reader failed, as `Write` where the writer failed or took no byte,
/// as `Table` where a record could not be read at a line that asks for one, as `Memory` where
/// there was none for a list of moves, and as `Turns` where there were so many reads and no end
/// yet, each of which gave a byte. At each fault but `Write` the replies to all lines before it
/// were written in full, and at `Write` a prefix of the replies. A writer that keeps what it is
/// given, as a buffered one, may still keep it after a fault: whoever lent it flushes it then. It
/// takes no memory but at a line that asks for a list of moves.
pub fn run<T: Table, R: Read, W: Write>(
    alloc: Global,
    checked: &mut Checked<T>,
    reader: &mut R,
    writer: &mut W,
    turns: u64,
) -> Result<u64, RunFault>
    ensures done { WhereTold checked.old.told (λ file. WhereTold (R.remaining reader.old)
        (λ input. IfOk result
        (λ n. IsAtEnd (R.remaining reader.new) × (n ≡ length (lines_of input))
        × HasReplies (book_of file) (lines_of input)
        (W.contents writer.old) (W.contents writer.new)))) }
    ensures stopped { WhereTold checked.old.told (λ file. WhereTold (R.remaining reader.old)
        (λ input. IfErr result
        (IsRunStopped (book_of file) input (R.remaining reader.new) (W.contents writer.old)
        (W.contents writer.new)))) }
    ensures used { WhereTold (R.remaining reader.old)
        (λ input. IfErr result (HasUsed turns input (R.remaining reader.new))) }
    ensures stays { Stays checked.old checked.new (result ≡ Err RunFault.Table) }
{
    run_lines(alloc, checked, &mut Text::new(), reader, writer, turns)
}

/// Answers each line of an input from whatever answers lines, as `run` does from an accepted table:
/// with the same replies, reads and refusals. The lines share the text.
pub fn run_lines<A: Answers, R: Read, W: Write>(
    alloc: Global,
    answers: &mut A,
    text: &mut Text,
    reader: &mut R,
    writer: &mut W,
    turns: u64,
) -> Result<u64, RunFault>
    ensures done { WhereTold (A.seen answers.old).told (λ file. WhereTold (R.remaining reader.old)
        (λ input. IfOk result
        (λ n. IsAtEnd (R.remaining reader.new) × (n ≡ length (lines_of input))
        × HasReplies (A.book file) (lines_of input)
        (W.contents writer.old) (W.contents writer.new)))) }
    ensures stopped { WhereTold (A.seen answers.old).told (λ file.
        WhereTold (R.remaining reader.old) (λ input. IfErr result
        (IsRunStopped (A.book file) input (R.remaining reader.new) (W.contents writer.old)
        (W.contents writer.new)))) }
    ensures used { WhereTold (R.remaining reader.old)
        (λ input. IfErr result (HasUsed turns input (R.remaining reader.new))) }
    ensures stays { Stays (A.seen answers.old) (A.seen answers.new) (result ≡ Err RunFault.Table) }
{
    laws::law_input_lines();
    let most = turns.min(MOST_TURNS);
    let mut reads = Reads::new(reader, most);
    let mut held = LineBuffer::new();
    let mut chunk = [0; 4096];
    let mut count = 0;
    for _turn in 0..most {
        let Ok(taken) = reads.next(&mut chunk) else {
            return Err(RunFault::Read);
        };
        if taken == 0 {
            count += answer_end(alloc, answers, &held, text, writer)?;
            return Ok(count);
        }
        count += answer_chunk(alloc, answers, &mut held, &chunk[..taken], text, writer)?;
    }
    Err(RunFault::Turns)
}

/// Answers what stands after the last line feed, and flushes the reply.
fn answer_end<A: Answers, W: Write>(
    alloc: Global,
    answers: &mut A,
    held: &LineBuffer,
    text: &mut Text,
    writer: &mut W,
) -> Result<u64, RunFault>
    ensures answered { WhereTold (A.seen answers.old).told
        (λ file. (done : List ℕ) (start : Option (List ℕ))
        → IsAnswered (A.book file) done start (W.contents writer.old) held.now → MatchResult result
        (λ n. HasReplies (A.book file) (lines_of done) start (W.contents writer.new)
        × (length (lines_of done) ≡ length (whole_lines done) + n))
        (IsStoppedAt (A.book file) (lines_of done) start (W.contents writer.new))) }
    ensures few { IfOk result (λ n. n ≤ 1) }
    ensures cause { IfErr result IsLineFault }
    ensures stays { Stays (A.seen answers.old) (A.seen answers.new) (result ≡ Err RunFault.Table) }
{
    let count = answer_last(alloc, answers, held, text, writer)?;
    flush(writer)?;
    Ok(count)
}
