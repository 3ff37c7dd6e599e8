//! The lines of an input, answered as soon as they are whole.
ghost use Rattle.std.specs.Prelude.{◌≡◌, ℕ, ◌+◌, ◌^◌, ◌<◌, ◌≤◌, List, [], ◌∷◌, ◌++◌, length};
ghost use Rattle.std.specs.Prelude.{Option, Some, Err, MatchOption, MatchResult, IfOk, IfErr, OnErr};
ghost use Rattle.std.specs.Io.KnownBytes.{Keeps};
ghost use Rattle.race_model.specs.Prelude.{HasNoFeed, whole_lines, lines_of};
ghost use Rattle.db_reader.specs.Telling.{WhereTold};
ghost use Rattle.certificate.specs.Databases.{Stays};
ghost use Rattle.epc_query.specs.Runs.{HasReplies, IsStoppedAt, IsFirstFeed, IsAnswered};
ghost use Rattle.epc_query.specs.UsedReads.{IsLineFault};

use crate::answers::Answers;
use crate::run_fault::RunFault;
use query_text::{LineBuffer, Text, whole_line};
use race_model::laws;
use std::alloc::Global;
use std::io::Write;

/// Where the first line feed of some bytes stands.
fn first_feed(bytes: &[u8]) -> Option<usize>
    ensures { MatchOption result (HasNoFeed bytes.now) (IsFirstFeed bytes.now) }
{
    for (place, byte) in bytes.iter().enumerate() {
        if *byte == b'\n' {
            return Some(place);
        }
    }
    None
}

/// Takes the next bytes of the input: a line feed ends a line, which is answered, and what stands
/// after the last one is kept. The replies are flushed. It gives how many lines were answered.
pub(crate) fn answer_chunk<A: Answers, W: Write>(
    alloc: Global,
    answers: &mut A,
    held: &mut LineBuffer,
    chunk: &[u8],
    text: &mut Text,
    writer: &mut W,
) -> Result<u64, RunFault>
    requires { length chunk.now < 2 ^ 32 }
    ensures answered { WhereTold (A.seen answers.old).told
        (λ file. (done : List ℕ) (start : Option (List ℕ))
        → IsAnswered (A.book file) done start (W.contents writer.old) held.old → MatchResult result
        (λ n. IsAnswered (A.book file) (done ++ chunk.now) start (W.contents writer.new) held.new
        × (length (whole_lines (done ++ chunk.now)) ≡ length (whole_lines done) + n))
        (IsStoppedAt (A.book file) (whole_lines (done ++ chunk.now)) start
        (W.contents writer.new))) }
    ensures few { IfOk result (λ n. n ≤ length chunk.now) }
    ensures cause { IfErr result IsLineFault }
    ensures stays { Stays (A.seen answers.old) (A.seen answers.new) (result ≡ Err RunFault.Table) }
{
    laws::law_lines();
    laws::law_input_lines();
    let mut start = 0;
    let mut count = 0;
    while let Some(length) = first_feed(&chunk[start..]) {
        let rest = &chunk[start..];
        let piece = &rest[..length];
        if held.rest().is_empty() {
            answers.write_answer(alloc, whole_line(piece), text, writer)?;
        } else {
            held.extend(piece);
            answers.write_answer(alloc, held.line(), text, writer)?;
            held.clear();
        }
        start = start + length + 1;
        count += 1;
    }
    held.extend(&chunk[start..]);
    flush(writer)?;
    Ok(count)
}

/// Answers the line that stands after the last line feed, at the end of the input, unless it is
/// empty. It gives how many lines were answered, 0 or 1.
pub(crate) fn answer_last<A: Answers, W: Write>(
    alloc: Global,
    answers: &mut A,
    held: &LineBuffer,
    text: &mut Text,
    writer: &mut W,
) -> Result<u64, RunFault>
    ensures answered { WhereTold (A.seen answers.old).told
        (λ file. (done : List ℕ) (start : Option (List ℕ))
        → IsAnswered (A.book file) done start (W.contents writer.old) held.now → MatchResult result
        (λ n. HasReplies (A.book file) (lines_of done) start (W.contents writer.new)
        × (length (lines_of done) ≡ length (whole_lines done) + n))
        (IsStoppedAt (A.book file) (lines_of done) start (W.contents writer.new))) }
    ensures few { IfOk result (λ n. n ≤ 1) }
    ensures cause { IfErr result IsLineFault }
    ensures stays { Stays (A.seen answers.old) (A.seen answers.new) (result ≡ Err RunFault.Table) }
{
    laws::law_lines();
    let line = held.rest();
    if line.is_empty() {
        return Ok(0);
    }
    answers.write_answer(alloc, line, text, writer)?;
    Ok(1)
}

/// Flushes the writer.
pub(crate) fn flush<W: Write>(writer: &mut W) -> Result<(), RunFault>
    ensures kept { Keeps (W.contents writer.old) (W.contents writer.new) }
    ensures fault { OnErr result (result ≡ Err RunFault.Write) }
{
    writer.flush().map_err(|_| RunFault::Write)
}
