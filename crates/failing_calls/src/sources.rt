//! Sources that fail at one read, under the checker and the queries over pages.
use crate::inputs::{INPUT, REPLIES};
use crate::wrong::{Wrong, accepted, count_lines, first_lines, lines_after};
use certificate::{CheckFault, Checked, QueryFault, check};
use db_reader::trial::FailAt;
use db_reader::{Paged, SliceSource, Table};
use epc_query::{RunFault, audit_level, loss, moves, run};
use fixed_fraction::{Fraction, WHOLE};
use home_board::Position;
use legal_plays::{Roll, write_play};
use std::alloc::Global;

/// A table over the pages of bytes in memory, of which one read fails.
type Pages<'a> = Paged<FailAt<SliceSource<'a>>>;

/// A table over pages of so many records, of whose reads the one of this number fails.
fn pages(alloc: Global, file: &[u8], records: u16, call: u64) -> Result<Pages<'_>, Wrong> {
    let source = FailAt::new(SliceSource::new(file), call);
    match Paged::new(alloc, source, records) {
        Ok(pages) => Ok(pages),
        Err(_) => Err(Wrong::Memory),
    }
}

/// Fails each read of a check in turn: it has to be told as such, and the table that is handed
/// back has to be accepted at once and to answer. It gives the number of reads.
pub(crate) fn fail_check(alloc: Global, file: &[u8], records: u16) -> Result<u64, Wrong> {
    answers_all(alloc, pages(alloc, file, records, 0)?, 0)?;
    for call in 1..10_000 {
        match check(pages(alloc, file, records, call)?) {
            Ok(_) => return Ok(call - 1),
            Err((table, CheckFault::Read)) => answers_all(alloc, table, call)?,
            Err(_) => return Err(Wrong::At(call)),
        }
    }
    Err(Wrong::At(10_000))
}

/// The table is accepted, and every query is answered rightly.
fn answers_all<T: Table + Drop>(alloc: Global, table: T, call: u64) -> Result<(), Wrong> {
    let mut checked = accepted(table, call)?;
    for query in QUERIES {
        if is_right(alloc, &mut checked, query) != Ok(true) {
            return Err(Wrong::At(call));
        }
    }
    Ok(())
}

/// What is asked.
#[derive(Clone, Copy)]
pub enum Query {
    /// The mean as a numerator.
    Scaled,

    /// The mean as a fraction.
    Mean,

    /// The effective pip count.
    Epc,

    /// The shares of the numbers of rolls.
    Spread,

    /// The recorded play of a roll.
    Play,

    /// What a play loses.
    Loss,

    /// Every result of a roll.
    Moves,

    /// The least and the greatest mean of a pip count.
    Level,
}

/// All of them.
const QUERIES: [Query; 8] = [
    Query::Scaled,
    Query::Mean,
    Query::Epc,
    Query::Spread,
    Query::Play,
    Query::Loss,
    Query::Moves,
    Query::Level,
];

/// Fails each read of a query in turn: it has to be told as such, and the same query asked again
/// has to be answered rightly. It gives the number of reads.
pub(crate) fn fail_query(
    alloc: Global,
    file: &[u8],
    records: u16,
    query: Query,
) -> Result<u64, Wrong> {
    let before = fail_check(alloc, file, records)?;
    for call in 1..10_000 {
        let table = pages(alloc, file, records, before.saturating_add(call))?;
        let mut checked = accepted(table, call)?;
        match is_right(alloc, &mut checked, query) {
            Ok(true) => return Ok(call - 1),
            Err(QueryFault::Read) => {}
            _ => return Err(Wrong::At(call)),
        }
        if is_right(alloc, &mut checked, query) != Ok(true) {
            return Err(Wrong::At(call));
        }
    }
    Err(Wrong::At(10_000))
}

/// Asks a query of the database of 3 pips, and tells whether the answer is the one that was
/// counted by hand: of three checkers on the ace point, or of one there and one on the point
/// above it, with 2-1.
fn is_right<T: Table>(
    alloc: Global,
    checked: &mut Checked<T>,
    query: Query,
) -> Result<bool, QueryFault> {
    let aces = position([3, 0, 0, 0, 0, 0]);
    match query {
        Query::Scaled => Ok(checked.scaled(&aces)?.numerator() == 11 * (WHOLE / 6)),
        Query::Mean => Ok(is_ratio(checked.mean(&aces)?, 11, 6)),
        Query::Epc => Ok(is_ratio(checked.epc(&aces)?, 539, 36)),
        Query::Spread => {
            let spread = checked.spread(&aces)?;
            Ok(spread.at(1) == WHOLE / 6 && spread.at(2) == 5 * (WHOLE / 6))
        }
        Query::Level => {
            let level = audit_level(checked, 3)?;
            Ok(level.positions == 3 && is_ratio(level.greatest, 11, 6))
        }
        Query::Play | Query::Loss | Query::Moves => is_play_right(alloc, checked, query),
    }
}

fn is_play_right<T: Table>(
    alloc: Global,
    checked: &mut Checked<T>,
    query: Query,
) -> Result<bool, QueryFault> {
    let pair = position([1, 1, 0, 0, 0, 0]);
    let ace = position([1, 0, 0, 0, 0, 0]);
    let Some(roll) = Roll::from_index(1) else {
        return Ok(false);
    };
    match query {
        Query::Play => {
            let (play, to) = checked.play(&pair, roll)?;
            Ok(to.is_finished() && write_play(&play).as_str() == "2/off 1/off")
        }
        Query::Loss => Ok(is_ratio(loss(checked, &pair, roll, &ace)?, 1, 1)),
        _ => {
            let choices = moves(alloc, checked, &pair, roll)?;
            match choices.as_slice() {
                [best, other] => Ok(best.to.is_finished() && other.to == ace),
                _ => Ok(false),
            }
        }
    }
}

/// The position of these counts.
fn position(counts: [u8; 6]) -> Position {
    Position::new(counts).unwrap_or(Position::EMPTY)
}

fn is_ratio(fraction: Fraction, numerator: u128, denominator: u128) -> bool {
    fraction.numerator() == numerator && fraction.denominator() == denominator
}

/// Fails each read of the answers to an input in turn: it has to be told as such after the
/// replies to the lines before it, and the rest of the input has to be answered at once. It gives
/// the number of reads.
pub(crate) fn fail_run(alloc: Global, file: &[u8], records: u16) -> Result<u64, Wrong> {
    let before = fail_check(alloc, file, records)?;
    for call in 1..10_000 {
        let table = pages(alloc, file, records, before.saturating_add(call))?;
        let mut checked = accepted(table, call)?;
        let mut reader = INPUT.as_bytes();
        let mut written = Vec::new(alloc);
        let told = run(alloc, &mut checked, &mut reader, &mut written, 1 << 40);
        if told == Ok(7) && written.as_slice() == REPLIES.as_bytes() {
            return Ok(call.saturating_sub(1));
        }
        let count = count_lines(written.as_slice());
        let is_prefix = written.as_slice() == first_lines(REPLIES.as_bytes(), count);
        if told != Err(RunFault::Table) || !is_prefix {
            return Err(Wrong::At(call));
        }
        let mut rest = lines_after(INPUT.as_bytes(), count);
        if run(alloc, &mut checked, &mut rest, &mut written, 1 << 40).is_err()
            || written.as_slice() != REPLIES.as_bytes()
        {
            return Err(Wrong::At(call));
        }
    }
    Err(Wrong::At(10_000))
}
