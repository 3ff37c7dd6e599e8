//! A database whose tied plays are recorded the other way.
use db_layout::{
    HEADER_BYTES, Header, RECORD_BYTES, RecordView, VERSION, write_header, write_record,
};
use fixed_fraction::{Scaled, Spread};
use home_board::Position;
use legal_plays::{Roll, results};
use ranking::Ranks;
use std::alloc::Global;

/// A right database, and how many of its plays are not those that are built.
#[derive(Drop)]
pub(crate) struct OtherPlays {
    pub(crate) bytes: Vec<u8>,
    pub(crate) count: u32,
}

/// The database of a bound where each roll is played to the result of the highest rank of those
/// with the least mean, by the means of the built one. None for want of memory, and where the
/// built bytes are no database.
pub(crate) fn play_other_ties(alloc: Global, bound: u8, built: &[u8]) -> Option<OtherPlays> {
    let header = Header::new(VERSION, bound)?;
    let ranks = Ranks::new();
    let mut other = OtherPlays {
        bytes: Vec::new(alloc),
        count: 0,
    };
    write_header(&header, &mut other.bytes).ok()?;
    for rank in 0..header.count {
        let position = ranks.unrank(rank)?;
        let record = record_in(built, rank)?;
        let mut plays = [0; 21];
        for index in 0..21 {
            let roll = Roll::from_index(index)?;
            let play = last_best(&ranks, &position, roll, built)?;
            if play != record.play(roll) {
                other.count = other.count.saturating_add(1);
            }
            plays[usize::from(index)] = play;
        }
        let spread = if position.is_finished() {
            Spread::finished()
        } else {
            spread_after(&plays, other.bytes.as_slice())?
        };
        let mean = Scaled::new(record.mean())?;
        let pips = position.pips();
        if pips > header.bound || !header.holds(pips, &spread) {
            return None;
        }
        write_record(&header, pips, mean, &plays, &spread, &mut other.bytes).ok()?;
    }
    Some(other)
}

/// The record of a rank in the bytes of a database of version 1.
fn record_in(bytes: &[u8], rank: u16) -> Option<RecordView<'_>> {
    let place = HEADER_BYTES + RECORD_BYTES * usize::from(rank);
    RecordView::of_version(bytes.get(place..place + RECORD_BYTES)?, VERSION, 0)
}

/// The highest rank of the results of a roll with the least recorded mean.
fn last_best(ranks: &Ranks, position: &Position, roll: Roll, bytes: &[u8]) -> Option<u16> {
    let mut best = 0;
    let mut least = u128::MAX;
    for result in results(position, roll).as_slice() {
        let rank = ranks.rank(result);
        let mean = record_in(bytes, rank)?.mean();
        if mean <= least {
            best = rank;
            least = mean;
        }
    }
    Some(best)
}

/// The shares of a position whose rolls are played to these ranks, by their records.
fn spread_after(plays: &[u16; 21], bytes: &[u8]) -> Option<Spread> {
    let mut totals: [u128; 23] = [0; 23];
    for index in 0..21 {
        let roll = Roll::from_index(index)?;
        let record = record_in(bytes, plays[usize::from(index)])?;
        let weight = u128::from(roll.weight());
        for k in 0..22 {
            let share = record.spread(k).wrapping_mul(weight);
            let total = &mut totals[usize::from(k) + 1];
            *total = total.wrapping_add(share);
        }
    }
    for total in &mut totals {
        *total /= 36;
    }
    Spread::new(totals)
}
