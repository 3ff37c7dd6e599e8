//! A position as text, six counts with commas, read and written.
ghost use Rattle.std.specs.Prelude.{◌≡◌, ℕ, ◌<◌, ◌↔◌, List, map, min, IfOk, IfSome, IsNone};
ghost use Rattle.race_model.specs.Prelude.{checkers, count_value, IsPositionText};

use crate::position::{Position, TooMany};
use arrayvec::{ArrayString, ArrayVec};
use itoa::Buffer;
use thiserror::Error;

/// Why a text is refused as a position, in the order of the tests.
#[derive(Clone, Copy, Debug, PartialEq, Eq, Error)]
pub enum PositionFault {
    /// The bytes are no position text.
    #[error("not a position text")]
    BadText,

    /// The counts add up to more than 15.
    #[error("more than 15 checkers")]
    TooMany,
}

/// The number that one to three digits state, where the first of several is not 0.
fn parse_count(text: &[u8]) -> Option<u16>
    ensures { result ≡ count_value text.now }
{
    match text {
        [ones @ b'0'..=b'9'] => Some(u16::from(*ones - b'0')),
        [tens @ b'1'..=b'9', ones @ b'0'..=b'9'] => {
            Some(10 * u16::from(*tens - b'0') + u16::from(*ones - b'0'))
        }
        [
            hundreds @ b'1'..=b'9',
            tens @ b'0'..=b'9',
            ones @ b'0'..=b'9',
        ] => Some(
            100 * u16::from(*hundreds - b'0')
                + 10 * u16::from(*tens - b'0')
                + u16::from(*ones - b'0'),
        ),
        _ => None,
    }
}

/// A count as a byte: 255 where it is greater.
fn capped(count: u16) -> u8
    ensures { result ≡ min count 255 }
{
    count.min(255) as u8
}

/// The six counts that a text states, each of those over 255 as 255.
fn parse_counts(text: &[u8]) -> Option<[u8; 6]>
    ensures read { IfSome result (λ counts. (told : List ℕ) × IsPositionText text.now told
        × (counts ≡ map (λ count. min count 255) told)) }
    ensures none { IsNone result → (counts : List ℕ) → ¬ IsPositionText text.now counts }
{
    let mut counts: ArrayVec<u8, 6> = ArrayVec::new();
    for part in text.split(|byte| *byte == b',') {
        let count = parse_count(part)?;
        if counts.is_full() {
            return None;
        }
        counts.push(capped(count));
    }
    match counts.as_slice() {
        [ones, twos, threes, fours, fives, sixes] => {
            Some([*ones, *twos, *threes, *fours, *fives, *sixes])
        }
        _ => None,
    }
}

/// The position that a text states: six counts of one to three digits with commas between, that of
/// point 1 first. Refused as `BadText` where the bytes are no such text,
/// and as `TooMany` where the counts add up to more than 15.
pub fn parse_position(text: &[u8]) -> Result<Position, PositionFault>
    ensures read { IfOk result (λ position. IsPositionText text.now position) }
    ensures bad_text { (result ≡ Err PositionFault.BadText)
        ↔ ((counts : List ℕ) → ¬ IsPositionText text.now counts) }
    ensures too_many { (result ≡ Err PositionFault.TooMany)
        ↔ ((counts : List ℕ) × (IsPositionText text.now counts × (15 < checkers counts))) }
{
    let counts = parse_counts(text).ok_or(PositionFault::BadText)?;
    match Position::new(counts) {
        Ok(position) => Ok(position),
        Err(TooMany) => Err(PositionFault::TooMany),
    }
}

/// The text of a position: its six counts in decimal with commas between, that of point 1 first.
pub fn write_position(position: &Position) -> ArrayString<12>
    ensures { IsPositionText result.bytes position.now }
{
    let mut text = ArrayString::new();
    for written in 0..6 {
        let count = position.count(written + 1);
        if written > 0 {
            text.push_str(",");
        }
        let mut buffer = Buffer::new();
        text.push_str(buffer.format(count));
    }
    text
}
