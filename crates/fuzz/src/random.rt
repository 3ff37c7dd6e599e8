//! Numbers, lines and streams that look random and depend on a seed alone.
use home_board::write_position;
use rand_core::{Rng, SeedableRng};
use rand_xoshiro::SplitMix64;
use ranking::Ranks;
use std::alloc::AllocError;
use std::io::{self, Read, Write};

/// A sequence of numbers that depends on its seed alone.
#[derive(Drop)]
pub struct Random {
    numbers: SplitMix64,
}

impl Random {
    /// The sequence of a seed.
    pub(crate) fn new(seed: u64) -> Self {
        Random {
            numbers: SplitMix64::seed_from_u64(seed),
        }
    }

    /// The next number.
    pub(crate) fn next(&mut self) -> u64 {
        self.numbers.next_u64()
    }

    /// A number under a limit, and 0 where that is 0.
    pub(crate) fn below(&mut self, limit: usize) -> usize {
        match self.next().checked_rem(limit as u64) {
            Some(rest) => rest as usize,
            None => 0,
        }
    }

    /// True once in so many times.
    pub(crate) fn one_in(&mut self, times: usize) -> bool {
        self.below(times) == 0
    }
}

/// The first words of the lines, and two that are none.
const KINDS: [&str; 8] = [
    "mean ", "dist ", "play ", "loss ", "moves ", "rank ", "Mean ", "",
];

/// Adds lines, most of which ask something.
pub(crate) fn add_lines(
    random: &mut Random,
    ranks: &Ranks,
    count: usize,
    input: &mut Vec<u8>,
) -> Result<(), AllocError> {
    for _ in 0..count {
        let start = input.len();
        add_query(random, ranks, input)?;
        if random.one_in(4) {
            damage(random, input, start, 1);
        }
        if random.one_in(5) {
            input.extend_from_slice(b"\r")?;
        }
        input.extend_from_slice(b"\n")?;
    }
    Ok(())
}

/// Adds a word, a position, mostly a roll, and sometimes a second position.
fn add_query(random: &mut Random, ranks: &Ranks, input: &mut Vec<u8>) -> Result<(), AllocError> {
    let kind = KINDS[random.below(8).min(7)];
    input.extend_from_slice(kind.as_bytes())?;
    add_position(random, ranks, input)?;
    if kind == "play " || kind == "loss " || kind == "moves " || random.one_in(9) {
        let high = b'1' + random.below(6).min(5) as u8;
        let low = b'1' + random.below(7).min(6) as u8;
        input.extend_from_slice(&[b' ', high, low])?;
    }
    if kind == "loss " || random.one_in(9) {
        input.extend_from_slice(b" ")?;
        add_position(random, ranks, input)?;
    }
    Ok(())
}

/// Adds a position, mostly of few pips, and sometimes one of too many checkers.
fn add_position(random: &mut Random, ranks: &Ranks, input: &mut Vec<u8>) -> Result<(), AllocError> {
    if random.one_in(20) {
        return input.extend_from_slice(b"0,3,0,999,1,0");
    }
    let limit = if random.one_in(10) { 60_000 } else { 70 };
    let rank = random.below(limit).min(65_535) as u16;
    match ranks.unrank(rank) {
        Some(position) => input.extend_from_slice(write_position(&position).as_str().as_bytes()),
        None => input.extend_from_slice(b"0,0,0,0,0,16"),
    }
}

/// Changes so many bytes from a place on.
pub(crate) fn damage(random: &mut Random, bytes: &mut [u8], start: usize, count: usize) {
    for _ in 0..count {
        let place = random
            .below(bytes.len().saturating_sub(start))
            .saturating_add(start);
        let byte = random.below(256).min(255) as u8;
        if let Some(old) = bytes.get_mut(place) {
            *old = byte;
        }
    }
}

/// A reader that gives an input in parts of any length.
#[derive(Drop)]
pub struct Parts<'a> {
    left: &'a [u8],
    random: Random,
}

impl<'a> Parts<'a> {
    /// The reader of an input, whose parts depend on a seed.
    pub(crate) fn new(input: &'a [u8], seed: u64) -> Self {
        Parts {
            left: input,
            random: Random::new(seed),
        }
    }
}

impl<'a> Read for Parts<'a> {
    fn read(&mut self, buf: &mut [u8]) -> io::Result<usize> {
        let size = self.random.below(200).saturating_add(1);
        let count = self.left.len().min(size).min(buf.len());
        let (part, rest) = self.left.split_at(count);
        buf[..count].copy_from_slice(part);
        self.left = rest;
        Ok(count)
    }
}

/// A writer that takes any number of bytes a call.
#[derive(Drop)]
pub struct Takes {
    /// What was taken.
    pub written: Vec<u8>,

    /// How many bytes are taken depends on these numbers.
    pub random: Random,
}

impl Write for Takes {
    fn write(&mut self, buf: &[u8]) -> io::Result<usize> {
        let count = buf.len().min(self.random.below(50).saturating_add(1));
        self.written.extend_from_slice(&buf[..count])?;
        Ok(count)
    }

    fn flush(&mut self) -> io::Result<()> {
        Ok(())
    }
}
