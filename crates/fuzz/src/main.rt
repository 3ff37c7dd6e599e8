//! A program that tries the crates on lines, files and failing calls that look random. The words
//! are a seed and a number of rounds; each round has a seed of its own, the first that of the
//! words and each later one the number after it, so that `fuzz SEED 1` tries one round again. A
//! third word is the pip bound of the board file that all rounds share, 90 where it is left out: a
//! smaller one lets `rt try`, which is slow, come to an end. A round compares positions with the
//! plain programs of `plain_model`, and what the checker and the queries say of a file by pages,
//! of which reads fail, with what they say of it in memory. Of board files it compares what the
//! checker says of a damaged one with what a plain checker says, records with what a plain program
//! wants there, and replies with those over a database of the same bound. It prints the seed of
//! the first difference, and ends with status 1. It rests on `epc_query`, `retrograde`,
//! `certificate` and `plain_model`; nothing stands on it.
#![tactic(auto)]

ghost use Rattle.ranking.specs.Tables.{IsRankTable};

use crate::boards::{built_board, compare_boards, compare_lines, compare_records};
use crate::difference::Difference;
use crate::files::compare_files;
use crate::plain::compare_positions;
use crate::plain_board::{Places, PlainBoard};
use crate::random::Random;
use certificate::{Checked, check};
use db_layout::Kind;
use db_reader::Whole;
use epc_query::Opened;
use ranking::{RankTable, Ranks};
use retrograde::build;
use std::alloc::Global;
use std::process::ExitCode;
use std::{env, io};

mod boards;
mod difference;
mod files;
mod plain;
mod plain_board;
mod random;

fn main(rt: HostRuntime) -> io::Result<ExitCode> {
    let mut words = env::args(&rt)?.skip(1);
    let seed = number(words.next(), 1);
    let rounds = number(words.next(), 100);
    let bound = number(words.next(), 90).min(90) as u8;
    let mut file = Vec::new(rt.alloc());
    if build(rt.alloc(), 8, &mut file).is_err() {
        println!(rt; "no database")?;
        return Ok(ExitCode::FAILURE);
    }
    let Ok(mut checked) = check(Whole::new(file.as_slice())) else {
        println!(rt; "the database was refused")?;
        return Ok(ExitCode::FAILURE);
    };
    match try_rounds(
        rt.alloc(),
        seed,
        rounds,
        bound,
        &mut checked,
        file.as_slice(),
    ) {
        Ok(()) => {
            println!(rt; "{rounds} rounds from seed {seed}: no difference")?;
            Ok(ExitCode::SUCCESS)
        }
        Err((seed, found)) => {
            println!(rt; "seed {seed}: a difference of {}", found.name())?;
            Ok(ExitCode::FAILURE)
        }
    }
}

/// The number that a word says, or another one.
fn number(word: Option<String>, other: u64) -> u64 {
    match word {
        Some(word) => word.as_str().parse().unwrap_or(other),
        None => other,
    }
}

/// All rounds from a seed on, over a database of 8 pips, the board file of 8 pips and that of a
/// bound; where one finds a difference, its seed.
fn try_rounds(
    alloc: Global,
    seed: u64,
    rounds: u64,
    bound: u8,
    checked: &mut Checked<Whole<'_>>,
    file: &[u8],
) -> Result<(), (u64, Difference)> {
    let ranks = Ranks::new();
    let table = RankTable::new();
    let Ok(places) = Places::new(alloc, &ranks) else {
        return Err((seed, Difference::Memory));
    };
    let small = match built_board(alloc, &places, &ranks, 8) {
        Ok(small) => small,
        Err(found) => return Err((seed, found)),
    };
    let Some(small) = opened(small.as_slice(), &table) else {
        return Err((seed, Difference::Boards));
    };
    let bytes = match built_board(alloc, &places, &ranks, bound) {
        Ok(bytes) => bytes,
        Err(found) => return Err((seed, found)),
    };
    let Some(board) = opened(bytes.as_slice(), &table) else {
        return Err((seed, Difference::Boards));
    };
    let whole = PlainBoard {
        bytes: bytes.as_slice(),
        places: &places,
        ranks: &ranks,
    };
    let mut small = small;
    for round in 0..rounds {
        let seed = seed.wrapping_add(round);
        let mut random = Random::new(seed);
        if let Err(found) = try_files(alloc, &mut random, &ranks, checked, file) {
            return Err((seed, found));
        }
        if let Err(found) = try_boards(alloc, &mut random, checked, &mut small, &board, &whole) {
            return Err((seed, found));
        }
    }
    Ok(())
}

/// The opened board file in bytes that the checker accepts.
fn opened<'a>(bytes: &'a [u8], table: &'a RankTable) -> Option<Opened<'a>>
    requires { IsRankTable table.now }
{
    let Ok(opened) = Opened::open(bytes, table) else {
        return None;
    };
    match opened.kind() {
        Kind::Board => Some(opened),
        Kind::Database => None,
    }
}

/// One round over databases.
fn try_files(
    alloc: Global,
    random: &mut Random,
    ranks: &Ranks,
    checked: &mut Checked<Whole<'_>>,
    file: &[u8],
) -> Result<(), Difference> {
    compare_positions(alloc, random, ranks, checked)?;
    compare_files(alloc, random, ranks, file)
}

/// One round over board files.
fn try_boards(
    alloc: Global,
    random: &mut Random,
    checked: &mut Checked<Whole<'_>>,
    small: &mut Opened<'_>,
    board: &Opened<'_>,
    whole: &PlainBoard<'_>,
) -> Result<(), Difference> {
    compare_lines(alloc, random, whole.ranks, checked, small)?;
    compare_boards(alloc, random, whole)?;
    compare_records(alloc, random, whole, board)
}
