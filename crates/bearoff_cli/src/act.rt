//! The whole program, over the files of a system, a reader and two writers.
ghost use Rattle.std.specs.Prelude.{◌≡◌, ℕ, ◌<◌, ◌⊎◌, List, ◌++◌, map, Option, Some, None, Ok, Err, IfOk, IfErr, OnOk};
ghost use Rattle.race_model.specs.Prelude.{IsBuilt, count_to};
ghost use Rattle.db_layout.specs.declared.stated.Kind.{Kind};
ghost use Rattle.db_layout.specs.declared.stated.Kind.TheVariants.{Database};
ghost use Rattle.db_reader.specs.Telling.{WhereTold};
ghost use Rattle.db_layout.specs.Writes.{AppendsPart};
ghost use Rattle.bearoff_cli.specs.Faults.{of_check, error_line, IsAmong, IsFaultAsked, IsFaultIn, UsesTurns};
ghost use Rattle.bearoff_cli.specs.Faults.{answer_faults, check_faults, query_faults};
ghost use Rattle.bearoff_cli.specs.Meanings.{meaning_line, shown};
ghost use Rattle.command_line.specs.Asked.{Asked, Asks, IsAskedBy, about, ask, asked_by, build, query, upgrade};
ghost use Rattle.certificate.specs.CheckFaults.{IsFirst};
ghost use Rattle.bearoff_cli.specs.Tellings.{IsReasonOf, IsReported, IsToldBy, IsWritten};
ghost use Rattle.bearoff_cli.specs.FileAnswers.{AreAnswered, AreAnsweredOver, about_text, count_line};
ghost use Rattle.bearoff_cli.specs.PutFiles.{KeepsIfRefused, LeavesBy, LeavesFor, LeavesInput, PutsFor};
ghost use Rattle.retrograde.specs.UsualVersion.{usual_version};
ghost use Rattle.epc_query.specs.Kinds.{IsRightAs};
ghost use Rattle.bearoff_cli.specs.Kinds.{greatest, taken_as};
ghost use Rattle.bearoff_cli.specs.Requests.{Ends, EndsAny, EndsBy, as_failed, report_of, AreStopped, IsUnreadEnd};
ghost use Rattle.bearoff_cli.specs.Requests.{unobserved, world};

use crate::fault::{Fault, write_fault};
use crate::files::{
    Unread, affordable, build_file, built_file, read_file, stack_room, upgrade_file, write_flushed,
};
use crate::kinds::{
    TURNS, accept_asked, answer, greatest, handed_on, hint, taken_kind, write_levels,
};
use crate::meaning::{Reason, shown, write_meaning};
use crate::show::show;
use arrayvec::ArrayString;
use certificate::{CheckFault, Checked, check};
use command_line::{Request, WordsError, read_words};
use db_layout::{COMPACT_VERSION, Kind, WriteFault, write_bytes};
use db_reader::{FileSource, Paged, Table, Whole};
use epc_query::{accept_stated, run, stated_kind};
use itoa::Buffer;
use ranking::Ranks;
use std::alloc::{AllocError, Global};
use std::convert::AsStr;
use std::fmt::Write as _;
use std::io;
use std::io::{Read, Write};
use std::rt::Files;
use whole_file::{Disk, SystemDisk, SystemFile};

/// The pip bound of the database that is built where no word is given.
const DEFAULT_BOUND: u8 = 8;

/// The whole program: does what the arguments ask for, and returns the exit status: 0 success; 1 an
/// I/O error, out of memory, or no query answered; 2 invalid arguments or too large a bound; 3 a
/// file that failed verification, or is no old one. A fault writes a line to `errors`, for `about`
/// two, and invalid arguments write what is wrong. At 2 and 3 nothing is written to `output`.
pub fn act<R: Files, S: AsStr, I: Read, O: Write, E: Write>(
    rt: &R,
    alloc: Global,
    words: &[S],
    input: &mut I,
    output: &mut O,
    errors: &mut E,
) -> u8
where
    R::File: SystemFile,
    ensures silent { result ≡ 0 → E.contents errors.new ≡ E.contents errors.old }
    ensures told { 0 < result → ¬ (result ≡ 2) → IsReported (map S.text words.entry.now)
        (AppendsPart (E.contents errors.old) (E.contents errors.new)) result }
    ensures refused { 1 < result → O.contents output.new ≡ O.contents output.old }
    ensures ends { (asked : Asked) → Asks (map S.text words.entry.now) asked
        → EndsBy R.File.remaining R.File.contents
        (AppendsPart (E.contents errors.old) (E.contents errors.new)) result asked
        (unobserved (I.remaining input.old) (O.contents output.old))
        (unobserved (I.remaining input.new) (O.contents output.new)) }
    ensures other { (I.remaining input.new ≡ I.remaining input.old)
        ⊎ ((asked : Asked) × IsAskedBy (map S.text words.entry.now) asked
        × LeavesInput asked (I.remaining input.old) (I.remaining input.new)) }
{
    let told = act_on(
        &mut SystemDisk::new(rt),
        alloc,
        words,
        input,
        output,
        errors,
    );
    told.status
}

/// The same over any disk; [`act`] is that over the system's. On a disk that reports its moments,
/// the file to write is complete at 0, and at any status the old file or the whole new one.
pub fn act_on<D: Disk, S: AsStr, I: Read, O: Write, E: Write>(
    disk: &mut D,
    alloc: Global,
    words: &[S],
    input: &mut I,
    output: &mut O,
    errors: &mut E,
) -> Told
    ensures silent { result.status ≡ 0 → E.contents errors.new ≡ E.contents errors.old }
    ensures told { 0 < result.status → ¬ (result.status ≡ 2)
        → IsReported (map S.text words.entry.now)
        (IsWritten result.line (E.contents errors.old) (E.contents errors.new)) result.status }
    ensures refused { 1 < result.status → O.contents output.new ≡ O.contents output.old }
    ensures ends { (asked : Asked) → Asks (map S.text words.entry.now) asked
        → EndsBy D.Reader.remaining D.File.contents
        (IsWritten result.line (E.contents errors.old) (E.contents errors.new)) result.status asked
        (world ⟦<D as Disk>⟧ disk.old (I.remaining input.old) (O.contents output.old))
        (world ⟦<D as Disk>⟧ disk.new (I.remaining input.new) (O.contents output.new)) }
    ensures put { (asked : Asked) → Asks (map S.text words.entry.now) asked
        → result.status ≡ 0 → PutsFor D.Reader.remaining (D.paths disk.old) asked
        (D.told disk.old) (D.told disk.new) }
    ensures stays { 1 < result.status → D.told disk.new ≡ D.told disk.old }
    ensures leaves { (asked : Asked) → Asks (map S.text words.entry.now) asked
        → LeavesFor D.Reader.remaining (D.paths disk.old) asked (D.told disk.old)
        (D.told disk.new) (D.kept disk.new) }
    ensures other { LeavesBy D.Reader.remaining (D.paths disk.old) (map S.text words.entry.now)
        (D.told disk.old) (D.told disk.new) (D.kept disk.new)
        (I.remaining input.old) (I.remaining input.new) }
{
    tell(alloc, perform(disk, alloc, words, input, output), errors)
}

/// What the program told of its end.
#[derive(Drop)]
pub struct Told {
    /// The exit status.
    pub status: u8,

    /// Whether the text on the errors, where there is one, was written.
    pub line: Result<(), WriteFault>,
}

/// Writes why the program ends: nothing at 0, else a line or two, or what is wrong with the words.
fn tell<E: Write>(alloc: Global, ended: Result<(), ProgramFault<'_>>, errors: &mut E) -> Told
    ensures silent { OnOk ended.entry
        ((result.status ≡ 0) × (E.contents errors.new ≡ E.contents errors.old)) }
    ensures told { IfErr ended.entry (λ refusal. IsToldBy refusal result.status
        (IsWritten result.line (E.contents errors.old) (E.contents errors.new))) }
{
    match ended {
        Ok(()) => Told {
            status: 0,
            line: Ok(()),
        },
        Err(ProgramFault::Words(text)) => Told {
            status: 2,
            line: write_bytes(text.as_bytes(), errors),
        },
        Err(ProgramFault::Failed(fault)) => Told {
            status: fault.status(),
            line: write_fault(&fault, errors),
        },
        Err(ProgramFault::Explained(explained)) => Told {
            status: explained.fault.status(),
            line: write_explained(alloc, &explained, errors),
        },
    }
}

/// Writes the line of a file's fault, and after it, where memory suffices, a line of its meaning.
fn write_explained<E: Write>(
    alloc: Global,
    explained: &FileFault<'_>,
    errors: &mut E,
) -> Result<(), WriteFault>
    ensures { (reason : List ℕ) × IsReasonOf explained.now.reason reason
        × IsWritten result (E.contents errors.old) (E.contents errors.new)
        (error_line explained.now.fault
        ++ meaning_line (shown explained.now.path.now) explained.now.fault reason) }
{
    let reason = reason_text(&explained.reason);
    write_fault(&explained.fault, errors)?;
    match shown(alloc, explained.path) {
        Ok(path) => write_meaning(&explained.fault, path.as_str(), &reason, errors),
        Err(_) => Err(WriteFault),
    }
}

/// What the system says, as far as there is room for it.
fn reason_text(reason: &Option<io::Error>) -> Reason
    ensures { IsReasonOf reason.now result.bytes }
{
    let mut text = Reason::new();
    if let Some(error) = reason {
        let _ = write!(text, "{error}");
    }
    text
}

/// Why the program ends with another status than 0.
#[derive(Drop)]
enum ProgramFault<'a> {
    /// The words are wrong, as this text says.
    Words(String),

    /// What they ask for failed.
    Failed(Fault),

    /// What was to be told about a file failed, by a fault of the file.
    Explained(FileFault<'a>),
}

/// A fault of a file, with what is told beside its line.
#[derive(Drop)]
struct FileFault<'a> {
    fault: Fault,

    path: &'a str,

    /// What the system says of it, where it failed there.
    reason: Option<io::Error>,
}

/// Does what the words ask for. A help text that they ask for is written to the output.
fn perform<'a, D: Disk, S: AsStr, I: Read, O: Write>(
    disk: &mut D,
    alloc: Global,
    words: &'a [S],
    input: &mut I,
    output: &mut O,
) -> Result<(), ProgramFault<'a>>
    ensures ends { (asked : Asked) → Asks (map S.text words.entry.now) asked
        → Ends D.Reader.remaining D.File.contents asked
        (world ⟦<D as Disk>⟧ disk.old (I.remaining input.old) (O.contents output.old))
        (world ⟦<D as Disk>⟧ disk.new (I.remaining input.new) (O.contents output.new)) result }
    ensures any { EndsAny D.Reader.remaining (map S.text words.entry.now)
        (world ⟦<D as Disk>⟧ disk.old (I.remaining input.old) (O.contents output.old))
        (world ⟦<D as Disk>⟧ disk.new (I.remaining input.new) (O.contents output.new)) result }
{
    match read_words(alloc, words) {
        Ok(request) => fulfil(disk, alloc, request, input, output),
        Err(WordsError::OutOfMemory) => Err(ProgramFault::Failed(Fault::Memory)),
        Err(WordsError::Help(text)) => refused(write_flushed(text.as_bytes(), output)),
        Err(WordsError::Mistake(text)) => match text_of_shown(alloc, words, text) {
            Ok(text) => Err(ProgramFault::Words(text)),
            Err(_) => Err(ProgramFault::Failed(Fault::Memory)),
        },
    }
}

/// The text about wrong words, as it is told of what a terminal prints of them.
fn text_of_shown<S: AsStr>(alloc: Global, words: &[S], text: String) -> Result<String, AllocError> {
    let mut printed = Vec::new(alloc);
    for word in words {
        printed.push(shown(alloc, word.as_str())?)?;
    }
    match read_words(alloc, printed.as_slice()) {
        Ok(_request) => Ok(text),
        Err(WordsError::OutOfMemory) => Err(AllocError),
        Err(WordsError::Help(told) | WordsError::Mistake(told)) => Ok(told),
    }
}

/// A fault as a refusal.
fn refused<'a>(ended: Result<(), Fault>) -> Result<(), ProgramFault<'a>>
    ensures { result ≡ as_failed ended }
{
    match ended {
        Ok(()) => Ok(()),
        Err(fault) => Err(ProgramFault::Failed(fault)),
    }
}

/// Does what is asked for.
fn fulfil<'a, D: Disk, I: Read, O: Write>(
    disk: &mut D,
    alloc: Global,
    request: Request<'a>,
    input: &mut I,
    output: &mut O,
) -> Result<(), ProgramFault<'a>>
    ensures { Ends D.Reader.remaining D.File.contents (asked_by request.entry)
        (world ⟦<D as Disk>⟧ disk.old (I.remaining input.old) (O.contents output.old))
        (world ⟦<D as Disk>⟧ disk.new (I.remaining input.new) (O.contents output.new)) result }
{
    match request {
        Request::Default => refused(answer_default(alloc, input, output)),
        Request::Build { kind, pips, path } => {
            refused(write_built(disk, alloc, kind, pips, path, output))
        }
        Request::Check { kind, path } => {
            refused(report_file(disk, alloc, kind, path, Report::Count, output))
        }
        Request::Query {
            kind,
            path,
            cache: None,
        } => refused(answer_file(disk, alloc, kind, path, input, output)),
        Request::Query {
            path,
            cache: Some(records),
            ..
        } => refused(answer_pages(disk, alloc, path, records, input, output)),
        Request::Ask { path, lines } => {
            refused(answer_words(disk, alloc, path, lines.as_str(), output))
        }
        Request::Show { words, is_json } => {
            refused(show(disk, alloc, words.as_str(), is_json, input, output))
        }
        Request::About { path } => about_file(disk, alloc, path, output),
        Request::Audit { kind, path } => {
            refused(report_file(disk, alloc, kind, path, Report::Levels, output))
        }
        Request::Upgrade { old, new } => refused(upgrade_database(disk, alloc, old, new, output)),
    }
}

/// Answers each line of the input over the database of 8 pips.
#[inline(never)]
fn answer_default<I: Read, O: Write>(
    alloc: Global,
    input: &mut I,
    output: &mut O,
) -> Result<(), Fault>
    ensures cause { IfErr result (IsAmong answer_faults) }
    ensures turns { IfErr result (UsesTurns (I.remaining input.old) (I.remaining input.new)) }
    ensures left { WhereTold (I.remaining input.old) (λ given. IfErr result
        (λ fault. (O.contents output.new ≡ O.contents output.old)
        ⊎ ((file : List ℕ) × IsBuilt (usual_version 8) 8 file
        × AreStopped Database file given (I.remaining input.new)
        (O.contents output.old) (O.contents output.new) fault))) }
    ensures answers { WhereTold (I.remaining input.old)
        (λ given. IfOk result (λ _. AreAnsweredOver 8 given (I.remaining input.new)
        (O.contents output.old) (O.contents output.new))) }
{
    let file = built_file(alloc, Kind::Database, DEFAULT_BOUND)?;
    answer_asked(alloc, Kind::Database, file.as_slice(), input, output)
}

/// Answers each line of the input over a file of a kind, which is read whole.
#[inline(never)]
fn answer_file<D: Disk, I: Read, O: Write>(
    disk: &mut D,
    alloc: Global,
    kind: Kind,
    path: &str,
    input: &mut I,
    output: &mut O,
) -> Result<(), Fault>
    ensures { Ends D.Reader.remaining D.File.contents (query kind path.now None)
        (world ⟦<D as Disk>⟧ disk.old (I.remaining input.old) (O.contents output.old))
        (world ⟦<D as Disk>⟧ disk.new (I.remaining input.new) (O.contents output.new))
        (as_failed result) }
{
    let file = read_file(disk, alloc, path)?;
    answer_asked(alloc, kind, file.as_slice(), input, output)
}

/// Answers each line of a text over a file of any kind: `Unanswered` where all are refused.
#[inline(never)]
fn answer_words<D: Disk, O: Write>(
    disk: &mut D,
    alloc: Global,
    path: &str,
    lines: &str,
    output: &mut O,
) -> Result<(), Fault>
    ensures { (input : Option (List ℕ)) → Ends D.Reader.remaining D.File.contents
        (ask path.now lines.now) (world ⟦<D as Disk>⟧ disk.old input (O.contents output.old))
        (world ⟦<D as Disk>⟧ disk.new input (O.contents output.new)) (as_failed result) }
{
    let file = read_file(disk, alloc, path)?;
    let bytes = file.as_slice();
    let kind = stated_kind(bytes);
    let kept = accept_stated(bytes)?;
    let mut words = lines.as_bytes();
    answer(kind, kept, alloc, bytes, &mut words, output)?;
    match hint(kept.bound, lines) {
        Some(hint) => Err(Fault::Unanswered(hint)),
        None => Ok(()),
    }
}

/// Answers each line of the input over a database file, with at most so many records in memory.
fn answer_pages<D: Disk, I: Read, O: Write>(
    disk: &mut D,
    alloc: Global,
    path: &str,
    records: u16,
    input: &mut I,
    output: &mut O,
) -> Result<(), Fault>
    ensures { (kind : Kind) → Ends D.Reader.remaining D.File.contents
        (query kind path.now (Some records))
        (world ⟦<D as Disk>⟧ disk.old (I.remaining input.old) (O.contents output.old))
        (world ⟦<D as Disk>⟧ disk.new (I.remaining input.new) (O.contents output.new))
        (as_failed result) }
{
    let room = stack_room(alloc)?;
    let Ok(file) = disk.open_to_read(path) else {
        return Err(Fault::Open);
    };
    match Paged::new(alloc, FileSource::new(file), affordable(alloc, records)) {
        Ok(pages) => {
            drop(room);
            answer_table(alloc, pages, input, output)
        }
        Err(_) => Err(Fault::Memory),
    }
}

/// Answers each line of the input over the file in bytes, of the kind as which it is taken.
fn answer_asked<I: Read, O: Write>(
    alloc: Global,
    kind: Kind,
    bytes: &[u8],
    input: &mut I,
    output: &mut O,
) -> Result<(), Fault>
    ensures refused { KeepsIfRefused result (O.contents output.old) (O.contents output.new) }
    ensures cause { IfErr result (IsAmong query_faults) }
    ensures turns { IfErr result (UsesTurns (I.remaining input.old) (I.remaining input.new)) }
    ensures right { IsRightAs (taken_as kind bytes.now) bytes.now
        → IfErr result (IsAmong answer_faults) }
    ensures fault { IfErr result (λ fault. IsFaultAsked kind bytes.now fault) }
    ensures left { WhereTold (I.remaining input.old) (λ given. IfErr result
        (λ fault. (O.contents output.new ≡ O.contents output.old)
        ⊎ AreStopped (taken_as kind bytes.now) bytes.now given (I.remaining input.new)
        (O.contents output.old) (O.contents output.new) fault)) }
    ensures answers { WhereTold (I.remaining input.old) (λ given. IfOk result
        (λ _. AreAnswered (taken_as kind bytes.now) bytes.now given (I.remaining input.new)
        (O.contents output.old) (O.contents output.new))) }
{
    let kept = accept_asked(kind, bytes)?;
    answer(taken_kind(kind, bytes), kept, alloc, bytes, input, output)
}

/// Answers each line of the input over the database of a table that isn't in memory.
// so that the 18 KB of stack of a checked table are not its caller's
#[inline(never)]
fn answer_table<T: Table + Drop, I: Read, O: Write>(
    alloc: Global,
    table: T,
    input: &mut I,
    output: &mut O,
) -> Result<(), Fault>
    ensures refused { KeepsIfRefused result (O.contents output.old) (O.contents output.new) }
    ensures cause { IfErr result (IsAmong query_faults) }
    ensures turns { IfErr result (UsesTurns (I.remaining input.old) (I.remaining input.new)) }
{
    reply(alloc, check(table), input, output)
}

/// Answers each line of the input over the database of a table, where it was accepted.
// so that its room is not on the stack while the database is checked
#[inline(never)]
fn reply<T: Table + Drop, I: Read, O: Write>(
    alloc: Global,
    mut told: Result<Checked<T>, (T, CheckFault)>,
    input: &mut I,
    output: &mut O,
) -> Result<(), Fault>
    ensures refused { KeepsIfRefused result (O.contents output.old) (O.contents output.new) }
    ensures refusal { IfErr told (λ refused. result ≡ Err (of_check refused.1)) }
    ensures cause { OnOk told (IfErr result (IsAmong answer_faults)) }
    ensures turns { IfErr result (UsesTurns (I.remaining input.old) (I.remaining input.new)) }
{
    match &mut told {
        Ok(checked) => match run(alloc, checked, input, output, TURNS) {
            Ok(_) => Ok(()),
            Err(cause) => Err(Fault::from(handed_on(cause, output))),
        },
        Err((_, fault)) => Err(Fault::from(*fault)),
    }
}

/// The database that a check has accepted, lent since a move would copy it.
fn accepted<T: Table>(
    told: &mut Result<Checked<T>, (T, CheckFault)>,
) -> Result<&mut Checked<T>, Fault>
    ensures checked { IfOk result (λ checked. told.old ≡ Ok checked.now) }
    ensures refused { IfErr told.old (λ refused. result ≡ Err (of_check refused.1)) }
    ensures cause { IfErr result (IsAmong check_faults) }
    ensures fault { (file : List ℕ) → IfErr told.old (λ refused. IsFirst file refused.1)
        → IfErr result (λ fault. IsFaultIn Database file fault) }
{
    match told {
        Ok(checked) => Ok(checked),
        Err((_, refused)) => Err(Fault::from(*refused)),
    }
}

/// Writes the file of a kind and a pip bound, and says so.
#[inline(never)]
fn write_built<D: Disk, O: Write>(
    disk: &mut D,
    alloc: Global,
    kind: Kind,
    pips: u8,
    path: &str,
    output: &mut O,
) -> Result<(), Fault>
    ensures over { greatest kind < pips → result ≡ Err Fault.OverBound }
    ensures ends { (input : Option (List ℕ)) → Ends D.Reader.remaining D.File.contents
        (build kind pips path.now) (world ⟦<D as Disk>⟧ disk.old input (O.contents output.old))
        (world ⟦<D as Disk>⟧ disk.new input (O.contents output.new)) (as_failed result) }
{
    if pips > greatest(kind) {
        return Err(Fault::OverBound);
    }
    build_file(disk, alloc, kind, pips, path)?;
    let line = count_line(Done::Built, pips);
    write_flushed(line.as_str().as_bytes(), output)
}

/// What is told of a file that was accepted.
#[derive(Drop)]
enum Report {
    /// That it was, with its bound and its number of positions.
    Count,

    /// A line for each pip count.
    Levels,
}

/// Checks a file, and tells this of it.
#[inline(never)]
fn report_file<D: Disk, O: Write>(
    disk: &mut D,
    alloc: Global,
    kind: Kind,
    path: &str,
    report: Report,
    output: &mut O,
) -> Result<(), Fault>
    ensures { (input : Option (List ℕ)) → Ends D.Reader.remaining D.File.contents
        (report_of report kind path.now)
        (world ⟦<D as Disk>⟧ disk.old input (O.contents output.old))
        (world ⟦<D as Disk>⟧ disk.new input (O.contents output.new)) (as_failed result) }
{
    let file = read_file(disk, alloc, path)?;
    let bytes = file.as_slice();
    let kept = accept_asked(kind, bytes)?;
    match report {
        Report::Count => {
            let line = count_line(Done::Checked, kept.bound);
            write_flushed(line.as_str().as_bytes(), output)
        }
        Report::Levels => write_levels(taken_kind(kind, bytes), kept, bytes, output),
    }
}

/// Checks a file of any kind, and tells what it is, or what its fault means.
#[inline(never)]
fn about_file<'a, D: Disk, O: Write>(
    disk: &mut D,
    alloc: Global,
    path: &'a str,
    output: &mut O,
) -> Result<(), ProgramFault<'a>>
    ensures { (input : Option (List ℕ)) → Ends D.Reader.remaining D.File.contents
        (about path.now) (world ⟦<D as Disk>⟧ disk.old input (O.contents output.old))
        (world ⟦<D as Disk>⟧ disk.new input (O.contents output.new)) result }
{
    let file = match read_file(disk, alloc, path) {
        Ok(file) => file,
        Err(unread) => return Err(explained(path, unread)),
    };
    let bytes = file.as_slice();
    let kind = stated_kind(bytes);
    match accept_stated(bytes) {
        Ok(kept) => {
            let text = about_text(kind, kept.version, kept.bound);
            refused(write_flushed(text.as_str().as_bytes(), output))
        }
        Err(cause) => Err(ProgramFault::Explained(FileFault {
            fault: Fault::from(cause),
            path,
            reason: None,
        })),
    }
}

/// Why a file that was not read can't be told about.
fn explained<'a>(path: &'a str, unread: Unread) -> ProgramFault<'a>
    ensures { IsUnreadEnd path.now result }
{
    let (fault, error) = match unread {
        Unread::Memory => return ProgramFault::Failed(Fault::Memory),
        Unread::Open(error) => (Fault::Open, error),
        Unread::Read(error) => (Fault::File, error),
    };
    ProgramFault::Explained(FileFault {
        fault,
        path,
        reason: Some(error),
    })
}

/// A file's kind, version, pip bound and number of positions, each on a line.
// so that the room of the ranks is not part of its caller's
#[inline(never)]
fn about_text(kind: Kind, version: u16, pips: u8) -> ArrayString<96>
    ensures { result.bytes ≡ about_text kind version pips (count_to pips) }
{
    let mut text: ArrayString<96> = ArrayString::new();
    text.push_str("kind ");
    text.push_str(match kind {
        Kind::Database => "database",
        Kind::Board => "board file",
    });
    text.push_str("\nversion ");
    text.push_str(Buffer::new().format(version));
    text.push_str("\npips ");
    text.push_str(Buffer::new().format(pips));
    text.push_str("\npositions ");
    text.push_str(Buffer::new().format(Ranks::new().count_to(pips)));
    text.push_str("\n");
    text
}

/// Checks an old database file, and writes it as one of version 2, unless it is of that already.
#[inline(never)]
fn upgrade_database<D: Disk, O: Write>(
    disk: &mut D,
    alloc: Global,
    old: &str,
    new: &str,
    output: &mut O,
) -> Result<(), Fault>
    ensures { (input : Option (List ℕ)) → Ends D.Reader.remaining D.File.contents
        (upgrade old.now new.now) (world ⟦<D as Disk>⟧ disk.old input (O.contents output.old))
        (world ⟦<D as Disk>⟧ disk.new input (O.contents output.new)) (as_failed result) }
{
    let bytes = read_file(disk, alloc, old)?;
    let mut told = check(Whole::new(bytes.as_slice()));
    let checked = accepted(&mut told)?;
    if checked.version() == COMPACT_VERSION {
        return Err(Fault::NotOld);
    }
    upgrade_file(disk, alloc, checked, new)?;
    let line = count_line(Done::Upgraded, checked.bound());
    write_flushed(line.as_str().as_bytes(), output)
}

/// What was done with a database.
enum Done {
    Built,
    Checked,
    Upgraded,
}

/// The line of what was done, with the pip bound and the number of positions.
// so that the room of the ranks is not part of its caller's
#[inline(never)]
fn count_line(done: Done, pips: u8) -> ArrayString<64>
    ensures { result.bytes ≡ count_line done pips (count_to pips) }
{
    let mut line: ArrayString<64> = ArrayString::new();
    match done {
        Done::Built => line.push_str("built pips "),
        Done::Checked => line.push_str("ok pips "),
        Done::Upgraded => line.push_str("upgraded pips "),
    }
    line.push_str(Buffer::new().format(pips));
    line.push_str(" positions ");
    line.push_str(Buffer::new().format(Ranks::new().count_to(pips)));
    line.push_str("\n");
    line
}
