//! Board files: what the checker says of damaged ones, what is answered over them, and what the
//! whole board says of positions.
use crate::difference::Difference;
use crate::plain_board::{
    HEADER_BYTES, Number, PART, Places, PlainBoard, count_bytes, count_place, most_throws,
    number_at,
};
use crate::random::{Parts, Random, Takes, add_lines, damage};
use certificate::{Checked, check_board};
use db_reader::Whole;
use epc_query::{Opened, Text, run, run_lines};
use fixed_fraction::Wide;
use legal_plays::Roll;
use plain_model::legal_positions;
use ranking::Ranks;
use retrograde::build_board;
use std::alloc::{AllocError, Global};

/// The built board file of a bound, in a room of just as many bytes.
pub(crate) fn built_board(
    alloc: Global,
    places: &Places,
    ranks: &Ranks,
    bound: u8,
) -> Result<Vec<u8>, Difference> {
    let size = places.start(ranks.count_to(bound));
    let mut room = vec![in alloc; 0; size]?;
    let told = build_board(bound, room.as_mut_slice());
    Difference::Boards.unless(told == Ok(size))?;
    Ok(room)
}

/// Damages the built file of a bound, or leaves it as it is, and compares what the checker says of
/// it with what a plain one says, by the whole board, whose records are right.
pub(crate) fn compare_boards(
    alloc: Global,
    random: &mut Random,
    whole: &PlainBoard<'_>,
) -> Result<(), Difference> {
    let mut bytes = some_board(alloc, random, whole)?;
    if !random.one_in(8) {
        let rank = some_rank(random, whole.ranks, bytes.as_slice());
        for _ in 0..random.below(3).saturating_add(1) {
            change(alloc, random, whole, bytes.as_mut_slice(), rank)?;
        }
    }
    if random.one_in(12) {
        bytes.truncate(random.below(bytes.len()));
    } else if random.one_in(12) {
        bytes.extend_from_slice(&[random.below(256).min(255) as u8])?;
    }
    let damaged = PlainBoard {
        bytes: bytes.as_slice(),
        places: whole.places,
        ranks: whole.ranks,
    };
    let verdict = damaged.verdict(alloc, whole)?;
    match (check_board(bytes.as_slice()), verdict) {
        (Ok(header), Ok(bound)) => Difference::Boards.unless(header.bound == bound),
        (Err(fault), Err(other)) => Difference::Boards.unless(fault == other),
        _ => Err(Difference::Boards),
    }
}

/// The built file of a bound: mostly of few pips, seldom the whole board.
fn some_board(
    alloc: Global,
    random: &mut Random,
    whole: &PlainBoard<'_>,
) -> Result<Vec<u8>, Difference> {
    if random.one_in(64) {
        let mut bytes = Vec::new(alloc);
        bytes.extend_from_slice(whole.bytes)?;
        return Ok(bytes);
    }
    let most = if random.one_in(16) { 41 } else { 13 };
    let bound = random.below(most).min(90) as u8;
    let bound = bound.min(bound_of(whole.bytes));
    let bytes = built_board(alloc, whole.places, whole.ranks, bound)?;
    let records = whole.bytes.get(HEADER_BYTES..bytes.len());
    Difference::Boards.unless(bytes.as_slice().get(HEADER_BYTES..) == records)?;
    Ok(bytes)
}

/// The pip bound of a built file.
fn bound_of(file: &[u8]) -> u8 {
    number_at(file, 10, 2).min(90) as u8
}

/// A rank of a built file.
fn some_rank(random: &mut Random, ranks: &Ranks, file: &[u8]) -> u16 {
    let count = ranks.count_to(bound_of(file));
    random.below(usize::from(count)).min(65_535) as u16
}

/// Changes a byte anywhere, or of the header; or the record of a rank: a byte of it, what a roll is
/// played to, or how a number is written.
fn change(
    alloc: Global,
    random: &mut Random,
    whole: &PlainBoard<'_>,
    file: &mut [u8],
    rank: u16,
) -> Result<(), AllocError> {
    let start = whole.places.start(rank);
    match random.below(10) {
        0 => damage(random, file, 0, 1),
        1 => change_byte(random, file, 0, HEADER_BYTES),
        2 => change_byte(random, file, start, 24),
        3 => change_byte(random, file, start.saturating_add(24), 42),
        4 | 5 => change_byte(random, file, start, whole.record(rank).len()),
        6 | 7 => change_play(alloc, random, whole, file, rank)?,
        _ => change_writing(random, whole, file, rank),
    }
    Ok(())
}

/// Changes one of so many bytes from a place on, all of it or one bit.
fn change_byte(random: &mut Random, file: &mut [u8], start: usize, count: usize) {
    let place = start.saturating_add(random.below(count));
    let bit = 1 << (random.below(8).min(7) as u32);
    let byte = random.below(256).min(255) as u8;
    let is_bit = random.one_in(2);
    if let Some(old) = file.get_mut(place) {
        *old = if is_bit { *old ^ bit } else { byte };
    }
}

/// Records another result of a roll, of the first that has one from some roll on.
fn change_play(
    alloc: Global,
    random: &mut Random,
    whole: &PlainBoard<'_>,
    file: &mut [u8],
    rank: u16,
) -> Result<(), AllocError> {
    let first = random.below(21);
    for step in 0..21_usize {
        let index = first.saturating_add(step) % 21;
        if let Some(other) = other_result(alloc, random, whole, rank, index)? {
            let place = index.saturating_mul(2).saturating_add(24);
            let place = whole.places.start(rank).saturating_add(place);
            put(file, place, &other.to_be_bytes());
            return Ok(());
        }
    }
    Ok(())
}

/// The rank of some result of a roll, by its index, where that is not the recorded one.
fn other_result(
    alloc: Global,
    random: &mut Random,
    whole: &PlainBoard<'_>,
    rank: u16,
    index: usize,
) -> Result<Option<u16>, AllocError> {
    let Some(roll) = Roll::from_index(index.min(20) as u8) else {
        return Ok(None);
    };
    let results = legal_positions(alloc, &whole.position(rank), roll.low(), roll.high())?;
    let chosen = random.below(results.len());
    let Some(result) = results.as_slice().get(chosen) else {
        return Ok(None);
    };
    let other = whole.ranks.rank(result);
    if other == whole.play(rank, roll) {
        return Ok(None);
    }
    Ok(Some(other))
}

/// Writes the mean, or a count in two parts, in another way: with one less in its upper part, and
/// 36 ^ 11 more in its lower one.
fn change_writing(random: &mut Random, whole: &PlainBoard<'_>, file: &mut [u8], rank: u16) {
    let most = most_throws(whole.position(rank).pips());
    let throws = random.below(usize::from(most).saturating_add(1)).min(33) as u8;
    let start = whole.places.start(rank);
    if throws < 12 {
        rewrite(file, start, 16);
    } else {
        let upper_bytes = count_bytes(throws).saturating_sub(8);
        rewrite(file, start.saturating_add(count_place(throws)), upper_bytes);
    }
}

/// Writes a number whose upper part has so many bytes in another way.
fn rewrite(file: &mut [u8], place: usize, upper_bytes: usize) {
    let lower_place = place.saturating_add(upper_bytes);
    let upper = number_at(file, place, upper_bytes);
    let lower = number_at(file, lower_place, 8).saturating_add(PART);
    if upper == 0 || lower > u128::from(u64::MAX) {
        return;
    }
    let bytes = upper.saturating_sub(1).to_be_bytes();
    put(
        file,
        place,
        bytes
            .get(16_usize.saturating_sub(upper_bytes)..)
            .unwrap_or(b""),
    );
    put(
        file,
        lower_place,
        lower.to_be_bytes().get(8..).unwrap_or(b""),
    );
}

/// Writes bytes from a place on, where there are as many.
fn put(file: &mut [u8], place: usize, bytes: &[u8]) {
    for (index, byte) in bytes.iter().enumerate() {
        if let Some(old) = file.get_mut(place.saturating_add(index)) {
            *old = *byte;
        }
    }
}

/// Compares the replies to some lines over the database of 8 pips with those over the board of 8
/// pips, to which the lines come in parts, and which a writer takes in parts.
pub(crate) fn compare_lines(
    alloc: Global,
    random: &mut Random,
    ranks: &Ranks,
    checked: &mut Checked<Whole<'_>>,
    board: &mut Opened<'_>,
) -> Result<(), Difference> {
    let mut input = Vec::new(alloc);
    add_lines(random, ranks, 12, &mut input)?;
    let mut replies = Vec::new(alloc);
    let mut reader = input.as_slice();
    let told = run(alloc, checked, &mut reader, &mut replies, 1 << 40);
    Difference::Replies.unless(told.is_ok())?;
    let mut reader = Parts::new(input.as_slice(), random.next());
    let mut writer = Takes {
        written: Vec::new(alloc),
        random: Random::new(random.next()),
    };
    let told = run_lines(
        alloc,
        board,
        &mut Text::new(),
        &mut reader,
        &mut writer,
        1 << 40,
    );
    let is_same = writer.written.as_slice() == replies.as_slice();
    Difference::Replies.unless(told.is_ok() && is_same)
}

/// Compares the record of one position of the whole board with what a plain program wants there,
/// and the mean and the counts that the opened board says of it with that record.
pub(crate) fn compare_records(
    alloc: Global,
    random: &mut Random,
    whole: &PlainBoard<'_>,
    board: &Opened<'_>,
) -> Result<(), Difference> {
    let rank = some_rank(random, whole.ranks, whole.bytes);
    let fault = whole.record_fault(alloc, rank)?;
    Difference::Records.unless(fault.is_none())?;
    Difference::Means.unless(has_mean(board, rank, whole.mean(rank)))?;
    Difference::Counts.unless(has_shares(board, whole, rank))
}

/// Whether the mean that an opened board says of the position of a rank is this.
fn has_mean(opened: &Opened<'_>, rank: u16, mean: Number) -> bool {
    if rank >= opened.positions() {
        return false;
    }
    let Some(told) = opened.mean(rank) else {
        return false;
    };
    is_number(told, mean)
}

/// Whether the shares that an opened board says are those of the counts in the record of a rank:
/// each sequence of so many throws goes on with any throws, to 33 of them.
fn has_shares(opened: &Opened<'_>, whole: &PlainBoard<'_>, rank: u16) -> bool {
    if rank >= opened.positions() {
        return false;
    }
    let Some(shares) = opened.shares(rank) else {
        return false;
    };
    for throws in 0..34 {
        let mut share = whole.count(rank, throws);
        for _ in throws..33 {
            let lower = share.lower.wrapping_mul(36);
            share = Number {
                upper: share
                    .upper
                    .wrapping_mul(36)
                    .wrapping_add(lower / u128::from(PART)),
                lower: lower % u128::from(PART),
            };
        }
        if !is_number(shares[usize::from(throws)], share) {
            return false;
        }
    }
    true
}

/// Whether a number has these parts.
fn is_number(told: Wide, number: Number) -> bool {
    u64::try_from(number.lower).is_ok_and(|lower| told == Wide::of_parts(number.upper, lower))
}
