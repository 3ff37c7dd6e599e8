//! A plain checker of board files: where the records stand, and the first fault of a file.
use certificate::CheckFault;
use db_layout::HeaderFault;
use fixed_fraction::WHOLE;
use home_board::Position;
use legal_plays::Roll;
use plain_model::legal_positions;
use ranking::Ranks;
use std::alloc::{AllocError, Global};

/// How many positions there are.
const POSITIONS: u16 = 54_264;

/// The bytes of the header.
pub(crate) const HEADER_BYTES: usize = 32;

/// 36 ^ 11, the lower part's limit.
pub(crate) const PART: u128 = 131_621_703_842_267_136;

/// A number in two parts, `upper * 36 ^ 11 + lower`.
#[derive(Clone, Copy, Debug, PartialEq, Eq, PartialOrd, Ord)]
pub struct Number {
    pub(crate) upper: u128,
    pub(crate) lower: u128,
}

impl Number {
    /// 0.
    const NONE: Number = Number { upper: 0, lower: 0 };

    /// The number and so many times another one.
    fn plus(self, times: u8, other: Number) -> Number {
        let times = u128::from(times);
        Number {
            upper: self.upper.saturating_add(other.upper.saturating_mul(times)),
            lower: self.lower.saturating_add(other.lower.saturating_mul(times)),
        }
    }

    /// The same number with a lower part of less than 36 ^ 11.
    fn carried(self) -> Number {
        Number {
            upper: self.upper.saturating_add(self.lower / PART),
            lower: self.lower % PART,
        }
    }
}

/// The number of so many bytes from a place on, its greatest byte first; a byte that isn't there
/// counts as none.
pub(crate) fn number_at(bytes: &[u8], place: usize, size: usize) -> u128 {
    let mut number: u128 = 0;
    for index in 0..size {
        if let Some(byte) = bytes.get(place.saturating_add(index)) {
            number = number.wrapping_mul(256).wrapping_add(u128::from(*byte));
        }
    }
    number
}

/// How many throws the game of a position of so many pips can take at most.
pub(crate) fn most_throws(pips: u8) -> u8 {
    let pips = u16::from(pips);
    let sixths = if pips == 0 {
        0
    } else {
        pips.saturating_mul(2)
            .saturating_add(pips.min(15))
            .saturating_add(1)
    };
    sixths.div_ceil(6).min(33) as u8
}

/// How many bytes the count of so many throws has.
pub(crate) fn count_bytes(throws: u8) -> usize {
    match throws {
        0..=11 => 8,
        12..=22 => 16,
        _ => 24,
    }
}

/// Where in a record the count of so many throws begins.
pub(crate) fn count_place(throws: u8) -> usize {
    let mut place: usize = 66;
    for fewer in 1..throws {
        place = place.saturating_add(count_bytes(fewer));
    }
    place
}

/// Where the record of each rank begins in any board file that has it, and where the last one
/// ends.
#[derive(Drop)]
pub struct Places {
    starts: Vec<usize>,
}

impl Places {
    /// The places, one after another.
    pub(crate) fn new(alloc: Global, ranks: &Ranks) -> Result<Places, AllocError> {
        let mut starts = Vec::new(alloc);
        let mut start = HEADER_BYTES;
        starts.push(start)?;
        for position in (0..POSITIONS).filter_map(|rank| ranks.unrank(rank)) {
            let most = most_throws(position.pips());
            start = start.saturating_add(count_place(most.saturating_add(1)));
            starts.push(start)?;
        }
        Ok(Places { starts })
    }

    /// Where the record of a rank begins.
    pub(crate) fn start(&self, rank: u16) -> usize {
        self.starts.get(usize::from(rank)).copied().unwrap_or(0)
    }
}

/// The bytes of a board file, right or not, and what its records are found by.
#[derive(Clone, Copy)]
pub struct PlainBoard<'a> {
    pub(crate) bytes: &'a [u8],
    pub(crate) places: &'a Places,
    pub(crate) ranks: &'a Ranks,
}

impl<'a> PlainBoard<'a> {
    /// The record of a rank; no byte where there is none.
    pub(crate) fn record(&self, rank: u16) -> &'a [u8] {
        let end = self.places.start(rank.saturating_add(1));
        self.bytes.get(self.places.start(rank)..end).unwrap_or(b"")
    }

    /// The position of a rank.
    pub(crate) fn position(&self, rank: u16) -> Position {
        self.ranks.unrank(rank).unwrap_or(Position::EMPTY)
    }

    /// The mean of a rank, as it is written.
    pub(crate) fn mean(&self, rank: u16) -> Number {
        let record = self.record(rank);
        Number {
            upper: number_at(record, 0, 16),
            lower: number_at(record, 16, 8),
        }
    }

    /// What a roll is played to from the position of a rank.
    pub(crate) fn play(&self, rank: u16, roll: Roll) -> u16 {
        let place = usize::from(roll.index())
            .saturating_mul(2)
            .saturating_add(24);
        number_at(self.record(rank), place, 2).min(65_535) as u16
    }

    /// The count of so many throws of a rank. To 11 throws it has one number, and any number is
    /// carried there; from 12 throws on it is as it is written.
    pub(crate) fn count(&self, rank: u16, throws: u8) -> Number {
        let pips = self.position(rank).pips();
        if throws == 0 {
            return Number {
                upper: 0,
                lower: u128::from(pips == 0),
            };
        }
        if throws > most_throws(pips) {
            return Number::NONE;
        }
        let (record, place) = (self.record(rank), count_place(throws));
        let upper_bytes = count_bytes(throws).saturating_sub(8);
        let count = Number {
            upper: number_at(record, place, upper_bytes),
            lower: number_at(record, place.saturating_add(upper_bytes), 8),
        };
        if throws <= 11 { count.carried() } else { count }
    }

    /// The first fault of the file, of its header or of a record, or its bound. The records of
    /// another file are right; so is one that is the same here, as long as the counts of all before
    /// it are the same, too.
    pub(crate) fn verdict(
        &self,
        alloc: Global,
        right: &PlainBoard<'_>,
    ) -> Result<Result<u8, CheckFault>, AllocError> {
        let bound = match self.bound() {
            Ok(bound) => bound,
            Err(fault) => return Ok(Err(CheckFault::Header(fault))),
        };
        let mut is_same = true;
        for rank in 0..self.ranks.count_to(bound) {
            let (here, there) = (self.record(rank), right.record(rank));
            if is_same && here == there {
                continue;
            }
            if let Some(fault) = self.record_fault(alloc, rank)? {
                return Ok(Err(fault));
            }
            is_same = is_same && here.get(66..) == there.get(66..);
        }
        Ok(Ok(bound))
    }

    /// The bound that the header tells, or the first fault of the header.
    fn bound(&self) -> Result<u8, HeaderFault> {
        let bytes = self.bytes;
        if bytes.len() < HEADER_BYTES {
            return Err(HeaderFault::TooShort);
        }
        if bytes.get(..8) != Some(b"EPCTABLE".as_slice()) {
            return Err(HeaderFault::BadMagic);
        }
        if number_at(bytes, 8, 2) != 3 {
            return Err(HeaderFault::BadVersion);
        }
        let bound = number_at(bytes, 10, 2);
        if bound > 90 {
            return Err(HeaderFault::BadBound);
        }
        let bound = bound.min(90) as u8;
        let count = self.ranks.count_to(bound);
        if number_at(bytes, 12, 4) != u128::from(count) {
            return Err(HeaderFault::BadCount);
        }
        if number_at(bytes, 16, 4) != 0 {
            return Err(HeaderFault::BadRecordBytes);
        }
        if number_at(bytes, 20, 12) != 0 {
            return Err(HeaderFault::BadReserved);
        }
        if bytes.len() != self.places.start(count) {
            return Err(HeaderFault::BadLength);
        }
        Ok(bound)
    }

    /// The first fault of the record of a rank, where all before it are right.
    pub(crate) fn record_fault(
        &self,
        alloc: Global,
        rank: u16,
    ) -> Result<Option<CheckFault>, AllocError> {
        for roll in (0..21).filter_map(Roll::from_index) {
            if let Some(fault) = self.play_fault(alloc, rank, roll)? {
                return Ok(Some(fault));
            }
        }
        if !self.has_mean(rank) {
            return Ok(Some(CheckFault::Mean { rank }));
        }
        for k in 1..most_throws(self.position(rank).pips()).saturating_add(1) {
            if self.count(rank, k) != self.count_of_plays(rank, k.saturating_sub(1)) {
                return Ok(Some(CheckFault::Spread { rank, k }));
            }
        }
        Ok(None)
    }

    /// The fault of what is recorded for a roll, where it is no result, or not the least.
    fn play_fault(
        &self,
        alloc: Global,
        rank: u16,
        roll: Roll,
    ) -> Result<Option<CheckFault>, AllocError> {
        let play = self.play(rank, roll);
        let results = legal_positions(alloc, &self.position(rank), roll.low(), roll.high())?;
        let roll = roll.index();
        let is_result = match self.ranks.unrank(play) {
            Some(to) => results.as_slice().contains(&to),
            None => false,
        };
        if !is_result {
            return Ok(Some(CheckFault::Play { rank, roll }));
        }
        let mean = self.mean(play);
        for result in results.as_slice() {
            if self.mean(self.ranks.rank(result)) < mean {
                return Ok(Some(CheckFault::NotLeast { rank, roll }));
            }
        }
        Ok(None)
    }

    /// Whether the mean of a rank is written in the one way, and is one roll and that of what its
    /// plays lead to: 36 times it is 36 whole rolls and the means after all 36 throws.
    fn has_mean(&self, rank: u16) -> bool {
        let mean = self.mean(rank);
        if self.position(rank).is_finished() {
            return mean == Number::NONE;
        }
        let one = Number {
            upper: WHOLE,
            lower: 0,
        };
        let mut sum = Number::NONE.plus(36, one);
        for roll in (0..21).filter_map(Roll::from_index) {
            sum = sum.plus(roll.weight(), self.mean(self.play(rank, roll)));
        }
        mean.lower < PART && Number::NONE.plus(36, mean).carried() == sum.carried()
    }

    /// The counts of so many throws of what the plays of a rank lead to, over all 36 throws.
    fn count_of_plays(&self, rank: u16, throws: u8) -> Number {
        let mut sum = Number::NONE;
        for roll in (0..21).filter_map(Roll::from_index) {
            sum = sum.plus(roll.weight(), self.count(self.play(rank, roll), throws));
        }
        sum.carried()
    }
}
