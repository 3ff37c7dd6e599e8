//! The commands with their help, and what `clap` reads of the words of each.
ghost use Rattle.std.specs.Prelude.{◌≡◌, ◌∷◌, [], ℕ, Bool, List, map, codes, IfErr, IfOk, IsErr, None, Some};
ghost use Rattle.std.specs.Prelude.{false, true, option_map};
ghost use Rattle.std.specs.List.{Contains};
ghost use Rattle.std.specs.String.{string_bytes};
ghost use Rattle.clap.specs.Words.{HasMatchesOf, app_of, first_value, found_of, matched_of, raw_values, rule_of, takes};
ghost use Rattle.clap.specs.Words.{with_rule};
ghost use Rattle.db_layout.specs.declared.stated.Kind.{Kind};
ghost use Rattle.db_layout.specs.declared.stated.Kind.TheVariants.{Database, Board};
ghost use Rattle.command_line.specs.declared.words.WordsError.TheVariants.{OutOfMemory};
ghost use Rattle.command_line.specs.Asked.{AreUsual, Gives, IsAskedBy, IsFor, as_input, asked_by};
ghost use Rattle.command_line.specs.Asked.{is_word, flagged, IsPlain, kind_in, build, query, ask, show, about, upgrade};
ghost use Rattle.command_line.specs.Commands.{about_app, ask_app, bare_app, build_app, file_app, query_app, show_app};
ghost use Rattle.command_line.specs.Commands.{upgrade_app, board_rule, cache_rule, pips_rule, word_rule};

use crate::words::{Request, WordsError};
use clap::error::ErrorKind;
use clap::{Arg, ArgAction, ArgMatches, Command, value_parser};
use db_layout::{BOARD_BOUND, Kind};
use std::alloc::{AllocError, Global};
use std::convert::AsStr;

// a command, if there is room for it, and what words ask for
type Made<'a> = Result<Command<'a>, AllocError>;

type Read<'a> = Result<Request<'a>, WordsError>;

const ABOUT: &str =
    "Exact, verified backgammon bearoff tables: expected number of rolls, effective pip count, best
plays and distributions, as exact fractions. Without a command it answers queries on standard
input over the positions of at most 8 pips.";

const EXAMPLES: &str = "Examples:
  echo 'mean 0,0,0,0,0,1' | bearoff      query up to 8 pips, without a file
  bearoff build --pips 44 race.db        write the database of 44 pips (11 MB; of 58, 15 MB)
  bearoff check race.db                  verify every number in it
  bearoff query race.db <lines           answer one query per line
  bearoff ask race.db 'mean 2,2,2,2,2,2' answer queries given as arguments, either format
  bearoff show 'XGID=-BBBB--------------bbbb---:0:0:1:21:0:0:0:0:10'    EPC and plays
  bearoff about race.db                  describe a file, or explain why it is refused
  bearoff audit race.db                  least and greatest mean of each pip count
  bearoff upgrade race.db new.db         convert to version 2, which is smaller (8 MB)
  bearoff build --board board.db         write the whole home board, 90 pips (15 MB)
  bearoff query board.db <lines          query a board file; check and audit likewise

Queries (a position is six counts, starting at the ace point; a roll is two digits):
  mean 0,0,0,0,0,1        expected number of rolls and effective pip count
  dist 5,0,0,0,0,0        probability of each number of rolls
  play 0,0,0,2,0,0 21     best play of a roll
  loss 0,0,0,2,0,0 21 0,1,1,0,0,0     cost of a play to that position, in rolls
  moves 0,0,0,2,0,0 21    every play of a roll and its cost
  rank 0,0,0,2,0,0        index of a position in the file

Exit status:
  0  success
  1  I/O error, out of memory, or `ask` could answer none of its queries
  2  invalid arguments
  3  the file failed verification, or is already in the current format";

const FILE_HELP: &str = "A file from `bearoff build` or any other source";

const BUILD_HELP: &str = "The file to write; an existing one is replaced";

const STATUSES: &str =
    "Exit status: 0 success; 1 I/O error or out of memory; 2 invalid arguments; 3 the file failed
verification, for the reason on standard error. With `--board` a database is refused with
`header bad-version`.";

const ASK_STATUSES: &str =
    "Exit status: 0 every query has its reply, and one at least was answered; 1 none was, I/O error
or out of memory; 2 invalid arguments; 3 FILE failed verification.";

const BUILD_STATUSES: &str =
    "Exit status: 0 FILE was written; 1 I/O error or out of memory (FILE is unchanged, or the whole
new file); 2 invalid arguments.";

const ABOUT_STATUSES: &str =
    "Exit status: 0 FILE is right; 1 I/O error or out of memory; 2 invalid arguments; 3 FILE failed
verification, for the reason on standard error, which is then explained in a second line.";

const UPGRADE_STATUSES: &str =
    "Exit status: 0 NEW was written; 1 I/O error or out of memory (NEW is unchanged, or the whole
new file); 2 invalid arguments; 3 OLD failed verification, or is already of version 2.";

const UPGRADE: &str = "Verify OLD and write the same numbers to NEW as version 2, which is smaller";

const OLD_HELP: &str = "A database of version 1, as `bearoff build` writes up to 44 pips";

const NEW_HELP: &str = "The file to write; an existing one is replaced, and may be OLD";

const BUILD_USAGE: &str = "bearoff build --pips <N> <FILE>\n       bearoff build --board <FILE>";

const BUILD: &str = "Write all positions of at most N pips, or of the whole home board, to FILE";

pub const CHECK: &str = "Verify every number in FILE, whoever built it";

const PIPS_AND_BOARD: &str = "the argument '--pips <N>' cannot be used with '--board'";

const CACHE_AND_BOARD: &str = "the argument '--cache <N>' cannot be used with '--board'";

const QUERY: &str = "Verify FILE and answer the queries on standard input, one per line";

const ASK: &str = "Verify FILE, of either format, and answer the queries given as arguments";

const SHOW: &str = "Show EPC, wastage, rolls and plays of positions in any notation";

const SHOW_USAGE: &str = "bearoff show [OPTIONS] [FILE] <POSITION>... [ROLL]";

const SHOW_HELP: &str = "An XGID, a GNU Backgammon ID or six counts, or `-` to read one per
line from standard input. ROLL, such as 21, is for all of them";

const SHOW_STATUSES: &str =
    "Without FILE the whole home board is built in memory. Exit status: 0 success; 1 no text was a
position, I/O error or out of memory; 2 invalid arguments; 3 FILE failed verification.";

const LINE_HELP: &str = "A query in quotes: 'mean 0,0,0,0,0,1'";

const ABOUT_FILE: &str = "Verify FILE, of either format, and describe it";

pub const AUDIT: &str = "Verify FILE and print the least and greatest mean of each pip count";

/// The file of a command of this name that takes one alone, and `--board`.
pub fn read_file<'a, S: AsStr>(
    alloc: Global,
    name: &'a str,
    about: &'a str,
    words: &'a [S],
) -> Result<&'a str, WordsError>
    ensures asked { IfOk result (λ path. Contains (map S.text words.entry.now) path.now) }
    ensures given { (kind : Kind) (path : List ℕ) → IsPlain path → map S.text words.entry.now ≡
        flagged kind (path ∷ []) → Gives result (λ r. r.now ≡ path) }
{
    let command = file_command(alloc, name, about, FILE_HELP, STATUSES)?;
    let matches = matches_in(alloc, command, words)?;
    value_of(alloc, words, &matches, "FILE")
}

/// What the words after `upgrade` ask for.
pub fn read_upgrade<'a, S: AsStr>(alloc: Global, words: &'a [S]) -> Read<'a>
    ensures asked { IfOk result
        (λ r. IsAskedBy (codes "upgrade" ∷ map S.text words.entry.now) (asked_by r)) }
    ensures usual { (old new : List ℕ) → AreUsual (upgrade old new) (map S.text words.entry.now)
        → Gives result (IsFor (upgrade old new)) }
{
    let matches = matches_in(alloc, upgrade_command(alloc)?, words)?;
    let old = value_of(alloc, words, &matches, "OLD")?;
    let new = value_of(alloc, words, &matches, "NEW")?;
    Ok(Request::Upgrade { old, new })
}

/// What the words after `build` ask for, which speak of a file of this kind.
pub fn read_build<'a, S: AsStr>(alloc: Global, kind: Kind, words: &'a [S]) -> Read<'a>
    requires { kind ≡ kind_in (map S.text words.now) }
    ensures asked { IfOk result
        (λ r. IsAskedBy (codes "build" ∷ map S.text words.entry.now) (asked_by r)) }
    ensures pips { (n : ℕ) (path : List ℕ) → AreUsual (build Database n path) (map S.text
        words.entry.now) → kind ≡ Database → Gives result (IsFor (build Database n path)) }
    ensures board { (n : ℕ) (path : List ℕ) → AreUsual (build Board n path) (map S.text
        words.entry.now) → kind ≡ Board → Gives result (IsFor (build Board n path)) }
{
    let matches = matches_in(alloc, build_command(alloc)?, words)?;
    let path = value_of(alloc, words, &matches, "FILE")?;
    match (kind, matches.get_one::<u8>("pips")) {
        (Kind::Database, Some(pips)) => Ok(Request::Build { kind, pips, path }),
        (Kind::Database, None) => mistake(alloc, build_command(alloc), "--pips is missing"),
        (Kind::Board, None) => Ok(Request::Build {
            kind,
            pips: BOARD_BOUND,
            path,
        }),
        (Kind::Board, Some(_)) => mistake(alloc, build_command(alloc), PIPS_AND_BOARD),
    }
}

/// What the words after `query` ask for, which speak of a file of this kind.
pub fn read_query<'a, S: AsStr>(alloc: Global, kind: Kind, words: &'a [S]) -> Read<'a>
    requires { kind ≡ kind_in (map S.text words.now) }
    ensures asked { IfOk result
        (λ r. IsAskedBy (codes "query" ∷ map S.text words.entry.now) (asked_by r)) }
    ensures file { (k : Kind) (path : List ℕ) → AreUsual (query k path None) (map S.text
        words.entry.now) → kind ≡ k → Gives result (IsFor (query k path None)) }
    ensures cache { (n : ℕ) (path : List ℕ) → AreUsual (query Database path (Some n)) (map S.text
        words.entry.now) → kind ≡ Database → Gives result (IsFor (query Database path (Some n))) }
{
    let matches = matches_in(alloc, query_command(alloc)?, words)?;
    let path = value_of(alloc, words, &matches, "FILE")?;
    let cache = matches.get_one::<u16>("cache");
    if kind == Kind::Board && cache.is_some() {
        return mistake(alloc, query_command(alloc), CACHE_AND_BOARD);
    }
    Ok(Request::Query { kind, path, cache })
}

/// What the words after `ask` ask for.
pub fn read_ask<'a, S: AsStr>(alloc: Global, words: &'a [S]) -> Read<'a>
    ensures asked { IfOk result
        (λ r. IsAskedBy (codes "ask" ∷ map S.text words.entry.now) (asked_by r)) }
    ensures usual { (path text : List ℕ) → AreUsual (ask path text) (map S.text words.entry.now)
        → Gives result (IsFor (ask path text)) }
{
    let matches = matches_in(alloc, ask_command(alloc)?, words)?;
    let path = value_of(alloc, words, &matches, "FILE")?;
    let lines = lines_in(alloc, &matches, "LINE")?;
    Ok(Request::Ask { path, lines })
}

/// What the words after `show` ask for.
pub fn read_show<'a, S: AsStr>(alloc: Global, words: &'a [S]) -> Read<'a>
    ensures asked { IfOk result
        (λ r. IsAskedBy (codes "show" ∷ map S.text words.entry.now) (asked_by r)) }
    ensures usual { (is_json : Bool) (text : List ℕ) → AreUsual (show is_json text)
        (map S.text words.entry.now) → Gives result (IsFor (show is_json text)) }
{
    let matches = matches_in(alloc, show_command(alloc)?, words)?;
    let is_json = matches.get_flag("json");
    let words = lines_in(alloc, &matches, "POSITION")?;
    Ok(Request::Show { words, is_json })
}

/// What the words after `about` ask for.
pub fn read_about<'a, S: AsStr>(alloc: Global, words: &'a [S]) -> Read<'a>
    ensures asked { IfOk result
        (λ r. IsAskedBy (codes "about" ∷ map S.text words.entry.now) (asked_by r)) }
    ensures usual { (path : List ℕ) → AreUsual (about path) (map S.text words.entry.now)
        → Gives result (IsFor (about path)) }
{
    let matches = matches_in(alloc, about_command(alloc)?, words)?;
    let path = value_of(alloc, words, &matches, "FILE")?;
    Ok(Request::About { path })
}

/// What is wrong with words that name no command, or the help that they ask for.
pub fn read_other<'a, S: AsStr>(alloc: Global, words: &'a [S]) -> Read<'a>
    ensures { IsErr result }
{
    matches_in(alloc, command(alloc)?, words)?;
    mistake(alloc, command(alloc), "a command is missing")
}

/// The values of an argument, each with a line feed at its end.
fn lines_in(alloc: Global, matches: &ArgMatches<'_>, id: &str) -> Result<String, AllocError>
    ensures { (lines : List (List ℕ)) → option_map raw_values (matched_of (found_of matches.now)
        id.now) ≡ Some lines → IfOk result (λ text. string_bytes text ≡ as_input lines) }
{
    match matches.get_strs(id) {
        Some(lines) => ended(alloc, lines),
        None => Ok(String::new(alloc)),
    }
}

/// Lines, each with a line feed at its end.
fn ended(alloc: Global, lines: &[&str]) -> Result<String, AllocError>
    ensures { IfOk result
        (λ text. string_bytes text ≡ as_input (map (λ line. line.now) lines.now)) }
{
    let mut text = String::new(alloc);
    for line in lines {
        text.push_str(line)?;
        text.push('\n')?;
    }
    Ok(text)
}

/// What `clap` reads of the words of a command.
fn matches_in<'a, S: AsStr>(
    alloc: Global,
    command: Command<'a>,
    words: &'a [S],
) -> Result<ArgMatches<'a>, WordsError>
    ensures matches { IfOk result (HasMatchesOf (app_of command.entry)
        (map S.text words.entry.now)) }
    ensures passes { takes (app_of command.entry) (map S.text words.entry.now) ≡ true
        → IfErr result (λ error. error ≡ OutOfMemory) }
{
    match command.try_get_matches_from(words) {
        Ok(matches) => Ok(matches),
        Err(error) => match error.kind() {
            ErrorKind::OutOfMemory => Err(WordsError::OutOfMemory),
            ErrorKind::DisplayHelp | ErrorKind::DisplayVersion => {
                Err(WordsError::Help(error.to_string(alloc)?))
            }
            _ => Err(WordsError::Mistake(without_tips(alloc, error.to_string(alloc)?.as_str())?)),
        },
    }
}

/// What `clap` says is wrong, without its tips: they name words that help in no command.
fn without_tips(alloc: Global, text: &str) -> Result<String, AllocError> {
    let mut kept = String::new(alloc);
    for part in text.split("\n\n") {
        if !part.starts_with("  tip: ") {
            kept.push_str(if kept.is_empty() { "" } else { "\n\n" })?;
            kept.push_str(part)?;
        }
    }
    Ok(kept)
}

/// The first value of an argument. A test here, and no proof, says that it is one of the words.
#[tactic(auto, using(crate::proofs::Contained::contained, crate::proofs::Contained::found))]
fn value_of<'a, S: AsStr>(
    alloc: Global,
    words: &[S],
    matches: &ArgMatches<'a>,
    id: &str,
) -> Result<&'a str, WordsError>
    ensures word { IfOk result (λ text. Contains (map S.text words.entry.now) text.now) }
    ensures some { (text : List ℕ) → first_value (found_of matches.now) id.now ≡ Some text
        → Contains (map S.text words.entry.now) text → Gives result (λ r. r.now ≡ text) }
{
    match matches.get_str(id) {
        Some(text) if is_word(words, text) => Ok(text),
        _ => Err(WordsError::Mistake(String::from_str(alloc, "error: a word is missing\n")?)),
    }
}

/// Whether a text is one of some words.
fn is_word<S: AsStr>(words: &[S], text: &str) -> bool
    ensures { result ≡ is_word (map S.text words.entry.now) text.now }
{
    let mut rest = words;
    while let Some((word, after)) = rest.split_first() {
        if word.as_str() == text {
            return true;
        }
        rest = after;
    }
    false
}

/// The mistake of words of a command.
fn mistake<'a, T>(alloc: Global, command: Made<'a>, message: &str) -> Result<T, WordsError>
    ensures { IsErr result }
{
    let error = command?.error(ErrorKind::MissingRequiredArgument, message)?;
    Err(WordsError::Mistake(error.to_string(alloc)?))
}

/// The program's commands and their help.
fn command<'a>(alloc: Global) -> Made<'a> {
    let command = Command::new(alloc, "bearoff")
        .bin_name("bearoff")?
        .version("1.0.0")
        .no_binary_name(true)
        .about(ABOUT)
        .after_long_help(EXAMPLES);
    let command = beside(Ok(command), build_command(alloc));
    let check = file_command(alloc, "check", CHECK, FILE_HELP, STATUSES);
    let command = beside(command, check);
    let command = beside(command, query_command(alloc));
    let command = beside(command, ask_command(alloc));
    let command = beside(command, show_command(alloc));
    let command = beside(command, about_command(alloc));
    let audit = file_command(alloc, "audit", AUDIT, FILE_HELP, STATUSES);
    let command = beside(command, audit);
    beside(command, upgrade_command(alloc))
}

/// A command with one more command below it.
fn beside<'a>(command: Made<'a>, below: Made<'a>) -> Made<'a> {
    command?.subcommand(below?)
}

/// `build --pips N FILE` or `build --board FILE`.
fn build_command<'a>(alloc: Global) -> Made<'a>
    ensures { IfOk result (λ c. app_of c ≡ build_app) }
{
    let command = file_command(alloc, "build", BUILD, BUILD_HELP, BUILD_STATUSES)?;
    Ok(with(command, pips(alloc))?.override_usage(BUILD_USAGE))
}

fn pips<'a>(alloc: Global) -> Arg<'a>
    ensures { (rule_of result ≡ pips_rule) × (result.global ≡ false) }
{
    Arg::new(alloc, "pips")
        .long("pips")
        .value_name("N")
        .value_parser(value_parser!(u8))
        .help("The largest pip count in the database, 0 to 58")
}

/// `query --cache N FILE` or `query --board FILE`.
fn query_command<'a>(alloc: Global) -> Made<'a>
    ensures { IfOk result (λ c. app_of c ≡ query_app) }
{
    let command = file_command(alloc, "query", QUERY, FILE_HELP, STATUSES)?;
    with(command, cache(alloc))
}

fn cache<'a>(alloc: Global) -> Arg<'a>
    ensures { (rule_of result ≡ cache_rule) × (result.global ≡ false) }
{
    Arg::new(alloc, "cache")
        .long("cache")
        .value_name("N")
        .value_parser(value_parser!(u16).range(1..65536))
        .help("Keep at most N records in memory, 1 to 65535; these answers are tested, not proved")
}

/// `ask FILE LINE..`.
fn ask_command<'a>(alloc: Global) -> Made<'a>
    ensures { IfOk result (λ c. app_of c ≡ ask_app) }
{
    let command = bare_command(alloc, "ask", ASK, ASK_STATUSES)?;
    let command = with(command, word(alloc, "FILE", FILE_HELP))?;
    with(
        command,
        word(alloc, "LINE", LINE_HELP).action(ArgAction::Append),
    )
}

/// `show --json POSITION..`.
fn show_command<'a>(alloc: Global) -> Made<'a>
    ensures { IfOk result (λ c. app_of c ≡ show_app) }
{
    let command = bare_command(alloc, "show", SHOW, SHOW_STATUSES)?;
    let json = Arg::new(alloc, "json")
        .long("json")
        .action(ArgAction::SetTrue)
        .help("Write an object of JSON a line, exact fractions included");
    let positions = word(alloc, "POSITION", SHOW_HELP).action(ArgAction::Append);
    Ok(with(with(command, json)?, positions)?.override_usage(SHOW_USAGE))
}

/// `about FILE`.
fn about_command<'a>(alloc: Global) -> Made<'a>
    ensures { IfOk result (λ c. app_of c ≡ about_app) }
{
    let command = bare_command(alloc, "about", ABOUT_FILE, ABOUT_STATUSES)?;
    with(command, word(alloc, "FILE", FILE_HELP))
}

/// `upgrade OLD NEW`.
fn upgrade_command<'a>(alloc: Global) -> Made<'a>
    ensures { IfOk result (λ c. app_of c ≡ upgrade_app) }
{
    let command = bare_command(alloc, "upgrade", UPGRADE, UPGRADE_STATUSES)?;
    let command = with(command, word(alloc, "OLD", OLD_HELP))?;
    with(command, word(alloc, "NEW", NEW_HELP))
}

/// A command whose words are a file and, of a board file, `--board`.
fn file_command<'a>(
    alloc: Global,
    name: &'a str,
    about: &'a str,
    file_help: &'a str,
    statuses: &'a str,
) -> Made<'a>
    ensures { IfOk result (λ c. app_of c ≡ file_app name.entry.now) }
{
    let command = with(bare_command(alloc, name, about, statuses)?, board(alloc))?;
    with(command, word(alloc, "FILE", file_help))
}

/// The flag `--board`.
fn board<'a>(alloc: Global) -> Arg<'a>
    ensures { (rule_of result ≡ board_rule) × (result.global ≡ false) }
{
    Arg::new(alloc, "board")
        .long("board")
        .action(ArgAction::SetTrue)
        .help("FILE is a board file: the whole home board, 90 pips")
}

/// A required word.
fn word<'a>(alloc: Global, id: &'a str, help: &'a str) -> Arg<'a>
    ensures { (rule_of result ≡ word_rule id.entry.now) × (result.global ≡ false) }
{
    Arg::new(alloc, id).required(true).help(help)
}

/// A command with one more argument.
fn with<'a>(command: Command<'a>, arg: Arg<'a>) -> Made<'a>
    requires { arg.global ≡ false }
    ensures { IfOk result (λ c. app_of c ≡ with_rule (app_of command.entry) (rule_of arg.entry)) }
{
    command.arg(arg)
}

/// A command with no arguments yet, which reads the words after its name.
fn bare_command<'a>(alloc: Global, name: &'a str, about: &'a str, statuses: &'a str) -> Made<'a>
    ensures { IfOk result (λ c. app_of c ≡ bare_app name.entry.now) }
{
    let mut usage = String::from_str(alloc, "bearoff ")?;
    usage.push_str(name)?;
    Ok(
        Command::new(alloc, name)
            .bin_name(usage.as_str())?
            .no_binary_name(true)
            .about(about)
            .after_help(statuses),
    )
}
