//! Rolls, the results of each, and the text of a play.
use home_board::Position;
use legal_plays::{Play, Roll, parse_roll, play_to, results, write_play};
use std::process::Abort;
use std::test::Fail;

const ROLLS: [(&[u8], u8, u8); 6] = [
    (b"11", 0, 1),
    (b"12", 1, 2),
    (b"22", 2, 1),
    (b"31", 3, 2),
    (b"45", 13, 2),
    (b"66", 20, 1),
];

fn index_and_weight(text: &[u8]) -> Option<(u8, u8)> {
    let roll = parse_roll(text)?;
    Some((roll.index(), roll.weight()))
}

#[test]
fn indexes_and_weights(rt: HostRuntime) {
    for (text, index, weight) in ROLLS {
        assert_eq!(rt; index_and_weight(text), Some((index, weight)));
        assert_eq!(rt; Roll::from_index(index), parse_roll(text));
    }
    assert_eq!(rt; (parse_roll(b"70"), Roll::from_index(21)), (None, None));
}

/// That these are the positions with these counts.
pub fn assert_positions(rt: &impl Abort, found: &[Position], expected: &[[u8; 6]]) {
    assert_eq!(rt; found.len(), expected.len());
    for (position, counts) in found.iter().zip(expected) {
        assert_eq!(rt; Position::new(*counts), Ok(*position));
    }
}

/// A position, a roll, and the positions that it leads to.
const RESULTS: [([u8; 6], &[u8], &[[u8; 6]]); 5] = [
    (
        [0, 0, 1, 1, 0, 0],
        b"41",
        &[[0, 1, 0, 0, 0, 0], [0, 0, 1, 0, 0, 0]],
    ),
    ([0, 0, 0, 0, 0, 1], b"11", &[[0, 1, 0, 0, 0, 0]]),
    (
        [0, 0, 0, 2, 0, 0],
        b"12",
        &[[0, 1, 1, 0, 0, 0], [1, 0, 0, 1, 0, 0]],
    ),
    ([3, 0, 1, 0, 0, 0], b"21", &[[3, 0, 0, 0, 0, 0]]),
    ([0; 6], b"66", &[[0; 6]]),
];

#[test]
fn results_of_rolls(rt: HostRuntime) -> Result<(), Fail> {
    for (counts, roll, expected) in RESULTS {
        let roll = parse_roll(roll).ok_or("no roll")?;
        let found = results(&Position::new(counts)?, roll);
        assert_positions(&rt, found.as_slice(), expected);
    }
    Ok(())
}

/// A position, a roll, a position to be reached, and the text of the play to it.
const TEXTS: [([u8; 6], &[u8], [u8; 6], Option<&str>); 9] = [
    (
        [0, 0, 1, 1, 0, 0],
        b"41",
        [0, 0, 1, 0, 0, 0],
        Some("4/3 3/off"),
    ),
    (
        [0, 0, 1, 1, 0, 0],
        b"41",
        [0, 1, 0, 0, 0, 0],
        Some("4/off 3/2"),
    ),
    ([0; 6], b"66", [0; 6], Some("")),
    ([0, 0, 0, 0, 0, 1], b"11", [0, 0, 0, 1, 0, 0], None),
    (
        [0, 0, 0, 2, 0, 0],
        b"21",
        [1, 0, 0, 1, 0, 0],
        Some("4/2 2/1"),
    ),
    ([0, 0, 1, 0, 0, 0], b"13", [0; 6], Some("3/off")),
    (
        [0, 0, 0, 0, 0, 1],
        b"11",
        [0, 1, 0, 0, 0, 0],
        Some("6/5 5/4 4/3 3/2"),
    ),
    (
        [0, 1, 0, 1, 0, 0],
        b"21",
        [1, 1, 0, 0, 0, 0],
        Some("4/2 2/1"),
    ),
    (
        [0, 1, 0, 1, 0, 0],
        b"21",
        [0, 0, 1, 0, 0, 0],
        Some("2/off 4/3"),
    ),
];

fn find_play(from: [u8; 6], roll: &[u8], to: [u8; 6]) -> Result<Option<Play>, Fail> {
    let roll = parse_roll(roll).ok_or("no roll")?;
    Ok(play_to(&Position::new(from)?, roll, &Position::new(to)?))
}

#[test]
fn texts_of_plays(rt: HostRuntime) -> Result<(), Fail> {
    for (from, roll, to, expected) in TEXTS {
        match find_play(from, roll, to)? {
            Some(play) => assert_eq!(rt; Some(write_play(&play).as_str()), expected),
            None => assert_eq!(rt; None, expected),
        }
    }
    Ok(())
}
