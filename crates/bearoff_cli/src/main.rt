//! The program `bearoff`: hands `act`, the whole program, the words, the three standard streams
//! and the system's files.
#![tactic(auto)]

use act::act;
use fault::{Fault, write_fault};
use prompt::Prompted;
use std::env::{Env, FillError};
use std::fs::File;
use std::io::{BufWriter, IsTerminal};
use std::os::fd::{AsFd, AsRawFd, BorrowedFd};
use std::process::ExitCode;
use std::{env, fs, str};

pub mod act;
pub mod fault;
pub mod files;
pub mod kinds;
pub mod meaning;
pub mod prompt;
mod show;

/// What the system says of a number that is no open file's (`EBADF`).
const NOT_OPEN: i32 = 9;

fn main(rt: HostRuntime) -> ExitCode {
    match run(&rt) {
        Ok(status) => ExitCode::from(status),
        Err(fault) => {
            let _ = write_fault(&fault, &mut rt.stderr());
            ExitCode::from(fault.status())
        }
    }
}

/// Does what the words ask for, with the standard streams, and gives the exit status.
fn run(rt: &HostRuntime) -> Result<u8, Fault> {
    let _standing = stand_ins(rt)?;
    let words = words_of(rt)?;
    // a reply with no room beside others is written by itself, so each write ends with a whole one
    let Ok(mut output) = BufWriter::new(rt.alloc(), rt.stdout()) else {
        return Err(Fault::Memory);
    };
    let mut terminal = rt.stdout();
    let is_typed = rt.stdin().is_terminal() && terminal.is_terminal();
    let status = act(
        rt,
        rt.alloc(),
        words.as_slice(),
        &mut Prompted::new(&mut rt.stdin(), is_typed.then_some(&mut terminal)),
        &mut output,
        &mut rt.stderr(),
    );
    // what a failed write left is not tried again
    let _ = output.into_parts();
    Ok(status)
}

/// The root folder, once in the place of each closed standard stream, so that no file that is
/// opened later becomes that stream. `Open` where the root folder can't be opened for one.
fn stand_ins(rt: &HostRuntime) -> Result<[Option<File>; 3], Fault> {
    let mut standing = [None, None, None];
    for place in &mut standing {
        match fs::open(rt, "/") {
            Ok(folder) if folder.as_raw_fd() < 3 => *place = Some(folder),
            Err(_) if has_closed_stream(rt) => return Err(Fault::Open),
            _ => break,
        }
    }
    Ok(standing)
}

/// Whether a standard stream is closed.
fn has_closed_stream(rt: &HostRuntime) -> bool {
    is_closed(rt.stdin().as_fd())
        || is_closed(rt.stdout().as_fd())
        || is_closed(rt.stderr().as_fd())
}

/// Whether a number is no open file's: what the system says where it is to be doubled.
fn is_closed(stream: BorrowedFd<'_>) -> bool {
    match stream.try_clone_to_owned() {
        Ok(_) => false,
        Err(error) => error.raw_os_error() == Some(NOT_OPEN),
    }
}

/// The words after the program's own name. One that is no UTF-8 text names no file to open, and is
/// no LINE of `ask` that is answered.
fn words_of(rt: &(impl Env + AllocGlobal)) -> Result<Vec<String>, Fault> {
    let Ok(given) = env::args(&(Texts { rt }, rt.alloc())) else {
        return Err(Fault::Memory);
    };
    let mut words = Vec::new(rt.alloc());
    for word in given.skip(1) {
        words.push(word)?;
    }
    let is_ask = words.first().is_some_and(|word| word.as_str() == "ask");
    if !is_ask && words.iter().any(|word| word.as_str() == NO_TEXT) {
        return Err(Fault::Open);
    }
    Ok(words)
}

/// What stands for an argument that is no UTF-8 text: no path and no line is this.
const NO_TEXT: &str = "\0";

/// A system whose arguments are all UTF-8 texts.
#[derive(Drop)]
struct Texts<'a, R> {
    rt: &'a R,
}

impl<R: Env> Env for Texts<'_, R> {
    fn arg(&self, i: usize, buf: &mut [u8]) -> Result<usize, FillError> {
        let length = self.rt.arg(i, buf)?;
        if str::from_utf8(&buf[..length]).is_ok() {
            return Ok(length);
        }
        buf[..NO_TEXT.len()].copy_from_slice(NO_TEXT.as_bytes());
        Ok(NO_TEXT.len())
    }

    fn var(&self, name: &str, buf: &mut [u8]) -> Result<usize, FillError> {
        self.rt.var(name, buf)
    }

    fn var_at(&self, i: usize, buf: &mut [u8]) -> Result<usize, FillError> {
        self.rt.var_at(i, buf)
    }
}
