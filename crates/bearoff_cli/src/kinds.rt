//! The two kinds of file, a database and a board file, and what is done with the bytes of each.
ghost use Rattle.std.specs.Prelude.{◌≡◌, ◌↔◌, ℕ, suc, ◌≤◌, List, None, Option, IfOk, IfErr, OnOk, OnErr};
ghost use Rattle.std.specs.List.{IsAnyAnswer};
ghost use Rattle.ranking.specs.Tables.{IsRankTable};
ghost use Rattle.db_reader.specs.Telling.{WhereTold};
ghost use Rattle.certificate.specs.declared.check_fault.CheckFault.{CheckFault};
ghost use Rattle.race_model.specs.Prelude.{Book, bound_of, lines_of, IsRight};
ghost use Rattle.epc_query.specs.Runs.{IsRunStopped};
ghost use Rattle.epc_query.specs.UsedReads.{HasUsed};
ghost use Rattle.bearoff_cli.specs.Faults.{of_check, IsAmong, UsesTurns, answer_faults};
ghost use Rattle.bearoff_cli.specs.declared.fault.Fault.TheVariants.{Write};
ghost use Rattle.bearoff_cli.specs.FileAnswers.{IsAnsweredBy, IsHinted, IsOverBy, WritesLevel, WritesLevels};
ghost use Rattle.bearoff_cli.specs.FileAnswers.{AreAnswered};
ghost use Rattle.epc_query.specs.Kinds.{IsAcceptedAs, IsFirstAs, IsRightAs, book_as};
ghost use Rattle.bearoff_cli.specs.Kinds.{greatest, kind_as, taken_as};
ghost use Rattle.bearoff_cli.specs.Requests.{AreStopped, WritesLevelPart, WritesLevelsPart};

use crate::fault::{Fault, Hint};
use crate::files::flush;
use db_layout::{BOARD_BOUND, Kind};
use epc_query::{
    Accepted, Opened, RunFault, Text, accept_as, accept_stated, run_lines, stated_kind,
};
use home_board::MAX_BOUND;
use query_text::{Refusal, accepted_query, write_line};
use ranking::RankTable;
use std::alloc::Global;
use std::io::{Read, Write};

/// How many reads of standard input there are at most.
pub const TURNS: u64 = 1 << 40;

/// The greatest pip bound of a file of a kind.
pub fn greatest(kind: Kind) -> u8
    ensures { result ≡ greatest kind }
{
    match kind {
        Kind::Database => MAX_BOUND,
        Kind::Board => BOARD_BOUND,
    }
}

/// The kind as which a file is taken: the one that is asked for where that is a board file, and
/// else the one that its header states.
pub fn taken_kind(asked: Kind, bytes: &[u8]) -> Kind
    ensures { result ≡ taken_as asked bytes.now }
{
    match asked {
        Kind::Database => stated_kind(bytes),
        Kind::Board => Kind::Board,
    }
}

/// A file is right exactly where it is right as the kind that its header states.
pub fn law_right_as_stated()
    ensures { (f : List ℕ) → IsRight f ↔ IsRightAs (kind_as None f) f }
{}

/// What is kept of bytes that are a right file of the kind as which they are taken; else they are
/// refused with their first fault of the kind that is asked for.
pub fn accept_asked(asked: Kind, bytes: &[u8]) -> Result<Accepted, Fault>
    ensures accepted { IfOk result (IsAcceptedAs (taken_as asked bytes.now) bytes.now) }
    ensures fault { IfErr result (λ fault. (cause : CheckFault)
        × IsFirstAs asked bytes.now cause × (fault ≡ of_check cause)) }
    ensures wrong { IfErr result (λ _. ¬ IsRightAs (taken_as asked bytes.now) bytes.now) }
{
    match asked {
        Kind::Database => match accept_stated(bytes) {
            Ok(kept) => Ok(kept),
            Err(fault) => match stated_kind(bytes) {
                Kind::Database => Err(Fault::from(fault)),
                Kind::Board => Ok(accept_as(Kind::Database, bytes)?),
            },
        },
        Kind::Board => Ok(accept_as(Kind::Board, bytes)?),
    }
}

/// Answers each line of the input over bytes that were accepted.
// so that its room is not on the stack while the bytes are checked
#[inline(never)]
pub fn answer<I: Read, O: Write>(
    kind: Kind,
    kept: Accepted,
    alloc: Global,
    bytes: &[u8],
    input: &mut I,
    output: &mut O,
) -> Result<(), Fault>
    requires { IsAcceptedAs kind bytes.now kept }
    ensures cause { IfErr result (IsAmong answer_faults) }
    ensures turns { IfErr result (UsesTurns (I.remaining input.old) (I.remaining input.new)) }
    ensures left { WhereTold (I.remaining input.old) (λ given. IfErr result
        (AreStopped kind bytes.now given (I.remaining input.new) (O.contents output.old)
        (O.contents output.new))) }
    ensures answers { WhereTold (I.remaining input.old) (λ given. IfOk result
        (λ _. AreAnswered kind bytes.now given (I.remaining input.new)
        (O.contents output.old) (O.contents output.new))) }
{
    match run_kept(kind, kept, alloc, bytes, input, output) {
        Ok(_) => Ok(()),
        Err(cause) => Err(Fault::from(handed_on(cause, output))),
    }
}

/// The hint for the lines of a text where a file of a bound answers none of them.
pub fn hint(bound: u8, lines: &str) -> Option<Hint>
    ensures { IsHinted bound lines.now result }
{
    if has_answer(bound, lines) {
        return None;
    }
    if has_over_bound(bound, lines) {
        return Some(Hint::Board);
    }
    let bytes = lines.as_bytes();
    let feeds = bytes.iter().filter(|byte| **byte == b'\n').count();
    let spaces = bytes.iter().filter(|byte| **byte == b' ').count();
    Some(if feeds >= 2 && spaces == 0 {
        Hint::Quotes
    } else {
        Hint::Query
    })
}

/// Whether a file of a bound answers some of the lines of a text, and so refuses not each of them.
fn has_answer(bound: u8, lines: &str) -> bool
    ensures { IsAnyAnswer (IsAnsweredBy bound) (lines_of lines.now) result }
{
    lines.lines().any(|line| is_answered(bound, line))
}

/// Whether it answers a line.
fn is_answered(bound: u8, line: &str) -> bool
    ensures { IsAnsweredBy bound line.now result }
{
    accepted_query(line.as_bytes(), bound).is_ok()
}

/// Whether it refuses one since the position has more pips.
fn has_over_bound(bound: u8, lines: &str) -> bool
    ensures { IsAnyAnswer (IsOverBy bound) (lines_of lines.now) result }
{
    lines.lines().any(|line| is_over(bound, line))
}

/// Whether it refuses a line for that.
fn is_over(bound: u8, line: &str) -> bool
    ensures { IsOverBy bound line.now result }
{
    matches!(
        accepted_query(line.as_bytes(), bound),
        Err(Refusal::OverBound)
    )
}

/// Answers each line of the input over bytes that were accepted, as far as `run_lines` does.
fn run_kept<I: Read, O: Write>(
    kind: Kind,
    kept: Accepted,
    alloc: Global,
    bytes: &[u8],
    input: &mut I,
    output: &mut O,
) -> Result<u64, RunFault>
    requires { IsAcceptedAs kind bytes.now kept }
    ensures answers { WhereTold (I.remaining input.old) (λ given. IfOk result
        (λ _. AreAnswered kind bytes.now given (I.remaining input.new)
        (O.contents output.old) (O.contents output.new))) }
    ensures stopped { WhereTold (I.remaining input.old) (λ given. IfErr result
        (IsRunStopped (book_as kind bytes.now) given (I.remaining input.new)
        (O.contents output.old) (O.contents output.new))) }
    ensures used { WhereTold (I.remaining input.old) (λ given. IfErr result
        (HasUsed 1099511627776 given (I.remaining input.new))) }
{
    let ranks = RankTable::new();
    let mut opened = Opened::kept(kind, bytes, kept, &ranks);
    let mut text = Text::new();
    run_lines(alloc, &mut opened, &mut text, input, output, TURNS)
}

/// Why the answers to an input stopped, once the output handed on the replies that it still held,
/// or where it failed at that. After a failed write nothing more is written.
pub fn handed_on<O: Write>(cause: RunFault, output: &mut O) -> RunFault
    ensures stopped { (book : Book) (given : List ℕ) (left old : Option (List ℕ)) →
        IsRunStopped book given left old (O.contents output.old) cause →
        IsRunStopped book given left old (O.contents output.new) result }
    ensures used { (turns : ℕ) (given : List ℕ) (left : Option (List ℕ)) →
        HasUsed turns given left cause → HasUsed turns given left result }
{
    match cause {
        RunFault::Write => RunFault::Write,
        _ => match output.flush() {
            Ok(()) => cause,
            Err(_) => RunFault::Write,
        },
    }
}

/// Writes a line for each pip count of bytes that were accepted.
// so that its room is not on the stack while the bytes are checked
#[inline(never)]
pub fn write_levels<O: Write>(
    kind: Kind,
    kept: Accepted,
    bytes: &[u8],
    output: &mut O,
) -> Result<(), Fault>
    requires { IsAcceptedAs kind bytes.now kept }
    ensures cause { IfErr result (λ fault. fault ≡ Write) }
    ensures part { OnErr result (WritesLevelsPart kind bytes.now
        (O.contents output.old) (O.contents output.new)) }
    ensures levels { OnOk result (WritesLevels kind bytes.now
        (suc (bound_of bytes.now)) (O.contents output.old)
        (O.contents output.new)) }
{
    let ranks = RankTable::new();
    for pips in 0..=kept.bound {
        write_level(kind, kept, bytes, &ranks, pips, output)?;
    }
    flush(output)
}

/// Writes the line of a pip count of bytes that were accepted, by a table of ranks.
fn write_level<O: Write>(
    kind: Kind,
    kept: Accepted,
    bytes: &[u8],
    ranks: &RankTable,
    pips: u8,
    output: &mut O,
) -> Result<(), Fault>
    requires accepted { IsAcceptedAs kind bytes.now kept }
    requires table { IsRankTable ranks.now }
    requires within { pips ≤ kept.bound }
    ensures cause { IfErr result (λ fault. fault ≡ Write) }
    ensures part { OnErr result (WritesLevelPart kind bytes.now pips
        (O.contents output.old) (O.contents output.new)) }
    ensures level { OnOk result (WritesLevel kind bytes.now pips
        (O.contents output.old) (O.contents output.new)) }
{
    let opened = Opened::kept(kind, bytes, kept, ranks);
    let mut text = Text::new();
    opened.put_level(pips, &mut text).unwrap();
    write_line(&mut text, output).map_err(|_| Fault::Write)
}
