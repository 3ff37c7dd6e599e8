//! Lines to be answered, and a writer that only counts.
use home_board::write_position;
use legal_plays::Roll;
use ranking::Ranks;
use std::alloc::{AllocError, Global};
use std::io::{self, Write};

/// What the lines ask.
#[derive(Clone, Copy)]
pub(crate) enum Question {
    Mean,
    Dist,
    Play,
    Moves,
}

impl Question {
    /// The kind of line that a word names.
    pub(crate) fn of(word: &str) -> Option<Self> {
        match word {
            "mean" => Some(Question::Mean),
            "dist" => Some(Question::Dist),
            "play" => Some(Question::Play),
            "moves" => Some(Question::Moves),
            _ => None,
        }
    }

    /// The first word of the line.
    fn word(self) -> &'static str {
        match self {
            Question::Mean => "mean ",
            Question::Dist => "dist ",
            Question::Play => "play ",
            Question::Moves => "moves ",
        }
    }

    /// Whether the line names a roll.
    fn has_roll(self) -> bool {
        match self {
            Question::Mean | Question::Dist => false,
            Question::Play | Question::Moves => true,
        }
    }
}

/// In which order the positions are asked for.
#[derive(Clone, Copy)]
pub(crate) enum Order {
    Random,
    Sorted,
}

/// So many lines of a kind about positions of at most so many pips, none of them finished. The
/// positions of random lines come from a generator that begins alike each time.
pub(crate) fn lines_of(
    alloc: Global,
    kind: Question,
    order: Order,
    count: u32,
    pips: u8,
) -> Result<Vec<u8>, AllocError> {
    let ranks = Ranks::new();
    let unfinished = u64::from(ranks.count_to(pips).saturating_sub(1).max(1));
    let mut lines = Vec::new(alloc);
    let mut state: u64 = 44;
    for index in 0..count {
        state = state
            .wrapping_mul(6364136223846793005)
            .wrapping_add(1442695040888963407);
        let place = match order {
            Order::Random => (state >> 33) % unfinished,
            Order::Sorted => u64::from(index) * unfinished / u64::from(count.max(1)),
        };
        let rank = (place % 54263) as u16 + 1;
        let roll = (state >> 20) % 21;
        add_line(&mut lines, &ranks, kind, rank, roll as u8)?;
    }
    Ok(lines)
}

/// Adds a line about the position of a rank, and a roll by its index.
fn add_line(
    lines: &mut Vec<u8>,
    ranks: &Ranks,
    kind: Question,
    rank: u16,
    roll: u8,
) -> Result<(), AllocError> {
    let (Some(position), Some(roll)) = (ranks.unrank(rank), Roll::from_index(roll)) else {
        return Ok(());
    };
    lines.extend_from_slice(kind.word().as_bytes())?;
    lines.extend_from_slice(write_position(&position).as_str().as_bytes())?;
    if kind.has_roll() {
        lines.push(b' ')?;
        lines.push(b'0' + roll.high().number())?;
        lines.push(b'0' + roll.low().number())?;
    }
    lines.push(b'\n')?;
    Ok(())
}

/// A writer that counts what it is given, and keeps none of it.
#[derive(Drop)]
pub(crate) struct Counter {
    pub(crate) calls: u64,
    pub(crate) bytes: u64,
}

impl Write for Counter {
    fn write(&mut self, buf: &[u8]) -> io::Result<usize> {
        self.calls = self.calls.saturating_add(1);
        self.bytes = self.bytes.saturating_add(buf.len() as u64);
        Ok(buf.len())
    }

    fn flush(&mut self) -> io::Result<()> {
        Ok(())
    }
}
