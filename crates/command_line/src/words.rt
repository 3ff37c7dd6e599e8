//! What the words of the command line ask for.
ghost use Rattle.std.specs.Prelude.{◌≡◌, ℕ, length, map, Ok, IfOk};
ghost use Rattle.command_line.specs.declared.words.Request.TheVariants.{Default};
ghost use Rattle.command_line.specs.declared.words.WordsError.TheVariants.{OutOfMemory};
ghost use Rattle.command_line.specs.Asked.{Asked, Asks, Gives, IsAskedBy, IsFor, asked_by, kind_in};

use crate::commands::{
    AUDIT, CHECK, read_about, read_ask, read_build, read_file, read_other, read_query, read_show,
    read_upgrade,
};
use db_layout::Kind;
use std::alloc::{AllocError, Global};
use std::convert::AsStr;

/// What the words of the command line ask for.
#[derive(Debug, Drop)]
pub enum Request<'a> {
    /// No word: answer standard input over the database of 8 pips, which is built in memory.
    Default,

    /// Write the positions of a pip bound into a file.
    Build {
        kind: Kind,
        pips: u8,
        path: &'a str,
    },

    /// Check a file.
    Check {
        kind: Kind,
        path: &'a str,
    },

    /// Verify a file and answer standard input, with all of it or a number of records in memory.
    Query {
        kind: Kind,
        path: &'a str,
        cache: Option<u16>,
    },

    /// Verify a file of any kind and answer lines. Each line ends with a line feed.
    Ask {
        path: &'a str,
        lines: String,
    },

    /// Show what a file, or the whole board, says of positions. Each word ends with a line feed.
    Show {
        words: String,
        is_json: bool,
    },

    /// Check a file of any kind, and tell what it is, or why it is refused.
    About {
        path: &'a str,
    },

    /// Check a file, and tell the least and the greatest mean of each pip count.
    Audit {
        kind: Kind,
        path: &'a str,
    },

    /// Verify an old database and write it to a new file of version 2.
    Upgrade {
        old: &'a str,
        new: &'a str,
    },
}

/// Why words make no request.
#[derive(Debug, Drop)]
pub enum WordsError {
    /// Memory ran out.
    OutOfMemory,

    /// The help or the version, which the words ask for: a text for standard output.
    Help(String),

    /// What is wrong with the words: a text for standard error.
    Mistake(String),
}

impl From<AllocError> for WordsError {
    ghost from_gives = { λ _ error. error ≡ OutOfMemory };

    fn from(_error: AllocError) -> WordsError {
        WordsError::OutOfMemory
    }
}

/// What the program's arguments ask for. Without arguments, or with `--` alone, it is `Default`.
// so that its room is not on the stack while the request is fulfilled
#[inline(never)]
pub fn read_words<'a, S: AsStr>(alloc: Global, words: &'a [S]) -> Result<Request<'a>, WordsError>
    ensures nothing { length words.now ≡ 0 → result ≡ Ok Default }
    ensures asked { IfOk result (λ r. IsAskedBy (map S.text words.entry.now) (asked_by r)) }
    ensures usual { (asked : Asked) → Asks (map S.text words.entry.now) asked
        → Gives result (IsFor asked) }
{
    let Some((first, rest)) = words.split_first() else {
        return Ok(Request::Default);
    };
    let kind = kind_in(rest);
    match first.as_str() {
        "build" => read_build(alloc, kind, rest),
        "check" => {
            let path = read_file(alloc, "check", CHECK, rest)?;
            Ok(Request::Check { kind, path })
        }
        "query" => read_query(alloc, kind, rest),
        "ask" => read_ask(alloc, rest),
        "show" => read_show(alloc, rest),
        "about" => read_about(alloc, rest),
        "audit" => {
            let path = read_file(alloc, "audit", AUDIT, rest)?;
            Ok(Request::Audit { kind, path })
        }
        "upgrade" => read_upgrade(alloc, rest),
        "--" if rest.is_empty() => Ok(Request::Default),
        _ => read_other(alloc, words),
    }
}

/// The kind of file: a board file where `--board` is one of the words, before any `--`.
fn kind_in<S: AsStr>(words: &[S]) -> Kind
    ensures { result ≡ kind_in (map S.text words.entry.now) }
{
    let mut rest = words;
    while let Some((word, after)) = rest.split_first() {
        match word.as_str() {
            "--board" => return Kind::Board,
            "--" => return Kind::Database,
            _ => rest = after,
        }
    }
    Kind::Database
}
