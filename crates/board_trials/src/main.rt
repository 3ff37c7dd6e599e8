//! A program that builds board files of any bound and damages them, as its words say:
//!
//! - `build BOUND FILE`: it builds the file of a pip bound, and writes it;
//! - `damage FILE FIRST STEP`: for each STEPth rank from FIRST on it changes one byte of the
//!   record, checks the file, and prints how many were refused, and how many not;
//! - none: it builds the file of 15 pips, and damages each record of it.
//!
//! `tests/test_boards.py` compares what it writes and prints with what was counted outside. It
//! rests on `retrograde` and `certificate`; nothing stands on it.
#![tactic(auto)]

use certificate::check_board;
use db_layout::{BOARD_VERSION, BoardHeader, Kind};
use retrograde::{BoardBuildFault, build_board};
use std::alloc::{AllocError, Global};
use std::{env, fs, io};

/// The pip bound of the file that is built where no word is given.
const DEFAULT_BOUND: u8 = 15;

fn main(rt: HostRuntime) -> io::Result<()> {
    let mut words = env::args(&rt)?.skip(1);
    let Some(word) = words.next() else {
        let mut file = built(rt.alloc(), DEFAULT_BOUND)?;
        return damage(&rt, file.as_mut_slice(), 0, 1);
    };
    let Some(first) = words.next() else {
        return println!(rt; "wrong words");
    };
    match word.as_str() {
        "build" => {
            let Some(path) = words.next() else {
                return println!(rt; "wrong words");
            };
            let file = built(rt.alloc(), first.as_str().parse().unwrap_or(u8::MAX))?;
            fs::write(&rt, path.as_str(), file.as_slice())
        }
        "damage" => {
            let mut file = fs::read(&rt, first.as_str())?;
            let from = number(words.next());
            let step = number(words.next());
            damage(&rt, file.as_mut_slice(), from, step)
        }
        _ => println!(rt; "wrong words"),
    }
}

/// The number that a word states, 0 where it states none.
fn number(word: Option<String>) -> u16 {
    match word {
        Some(word) => word.as_str().parse().unwrap_or(0),
        None => 0,
    }
}

/// The board file of a bound; no byte where the bound is over 90.
fn built(alloc: Global, bound: u8) -> Result<Vec<u8>, AllocError> {
    let bytes = match BoardHeader::new(bound) {
        Some(header) => header.end(),
        None => 0,
    };
    let mut room = vec![in alloc; 0; bytes]?;
    match build_board(bound, room.as_mut_slice()) {
        Ok(_) | Err(BoardBuildFault::Room) | Err(BoardBuildFault::OverBound) => Ok(room),
    }
}

/// Changes a byte of each STEPth record from one on, and counts the files that are refused.
fn damage(rt: &impl Print, file: &mut [u8], from: u16, step: u16) -> io::Result<()> {
    let Ok(header) = check_board(file) else {
        return println!(rt; "no board file");
    };
    let mut refused = 0u32;
    let mut accepted = 0u32;
    for rank in from..header.count {
        if step == 0 || (rank - from) % step != 0 {
            continue;
        }
        let place = Kind::Board.find(BOARD_VERSION, header.bound, rank);
        let at = place
            .offset
            .wrapping_add(u64::from(rank) % u64::from(place.length)) as usize;
        if at < file.len() {
            file[at] ^= 1 << (rank % 8);
            match check_board(file) {
                Ok(_) => accepted = accepted.wrapping_add(1),
                Err(_) => refused = refused.wrapping_add(1),
            }
            file[at] ^= 1 << (rank % 8);
        }
    }
    println!(rt; "refused {refused} accepted {accepted}")
}
