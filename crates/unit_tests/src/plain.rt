//! What the plain programs of the rules give, and that the fast ones give the same.
use crate::plays::assert_positions;
use home_board::Position;
use legal_plays::{Die, Roll, results};
use plain_model::{legal_positions, sequences_of_two, total_over_two};
use ranking::Ranks;
use std::alloc::Global;
use std::process::Abort;
use std::test::Fail;

// How many different positions there are among these.
fn different(positions: &[Position]) -> usize {
    let mut count: usize = 0;
    for place in 0..positions.len() {
        if !positions[..place].contains(&positions[place]) {
            count += 1;
        }
    }
    count
}

// Whether each of the positions is among the others.
fn are_among(positions: &[Position], others: &[Position]) -> bool {
    for position in positions {
        if !others.contains(position) {
            return false;
        }
    }
    true
}

// That the plain program and the fast one find the same positions.
fn assert_same(rt: &impl Abort, plain: &[Position], fast: &[Position]) {
    assert!(rt; are_among(plain, fast));
    assert!(rt; are_among(fast, plain));
    assert_eq!(rt; different(plain), fast.len());
}

// The number of results of two dice, by both programs.
fn count_of_results(
    rt: &impl Abort,
    alloc: Global,
    position: &Position,
    (first, second): (u8, u8),
) -> Result<usize, Fail> {
    let one = Die::new(first).ok_or("no die")?;
    let other = Die::new(second).ok_or("no die")?;
    let plain = legal_positions(alloc, position, one, other)?;
    let fast = results(position, Roll::new(one, other));
    assert_same(rt, plain.as_slice(), fast.as_slice());
    Ok(different(plain.as_slice()))
}

#[test]
fn results_of_all_positions_to_eight_pips(rt: HostRuntime) -> Result<(), Fail> {
    let ranks = Ranks::new();
    assert_eq!(rt; ranks.count_to(8), 64);
    let mut count: usize = 0;
    for rank in 0..64 {
        let position = ranks.unrank(rank).ok_or("no position")?;
        for first in 1..7 {
            for second in 1..7 {
                let found = count_of_results(&rt, rt.alloc(), &position, (first, second))?;
                if second <= first {
                    count = count.saturating_add(found);
                }
            }
        }
    }
    assert_eq!(rt; count, 1855);
    Ok(())
}

// A position, two dice, and the positions that the plain steps find.
const RESULTS: [([u8; 6], (u8, u8), &[[u8; 6]]); 4] = [
    (
        [0, 0, 1, 1, 0, 0],
        (4, 1),
        &[[0, 1, 0, 0, 0, 0], [0, 1, 0, 0, 0, 0], [0, 0, 1, 0, 0, 0]],
    ),
    ([0, 0, 0, 0, 0, 1], (1, 1), &[[0, 1, 0, 0, 0, 0]]),
    ([3, 0, 1, 0, 0, 0], (2, 1), &[[3, 0, 0, 0, 0, 0]; 3]),
    ([0; 6], (6, 6), &[[0; 6]]),
];

// The positions after two dice, found by plain steps.
fn plain_results(
    alloc: Global,
    position: &Position,
    (first, second): (u8, u8),
) -> Result<Vec<Position>, Fail> {
    let one = Die::new(first).ok_or("no die")?;
    let other = Die::new(second).ok_or("no die")?;
    Ok(legal_positions(alloc, position, one, other)?)
}

#[test]
fn results_by_plain_steps(rt: HostRuntime) -> Result<(), Fail> {
    for (counts, dice, expected) in RESULTS {
        let found = plain_results(rt.alloc(), &Position::new(counts)?, dice)?;
        assert_positions(&rt, found.as_slice(), expected);
    }
    Ok(())
}

// The positions after each first throw, where the play
// is always one that leaves the fewest pips.
fn plays_to_fewest_pips(alloc: Global, start: &Position) -> Result<Vec<Position>, Fail> {
    let mut plays = Vec::new(alloc);
    for first in 1..7 {
        for second in 1..7 {
            let found = plain_results(alloc, start, (first, second))?;
            let least = found.iter().copied().min().ok_or("no play")?;
            plays.push(least)?;
        }
    }
    Ok(plays)
}

// The total of the rolls over two throws, and how many sequences end in none, one and two rolls.
fn totals(start: &Position, plays: &[Position]) -> Option<(u32, [u32; 3])> {
    if plays.len() != 36 {
        return None;
    }
    let sequences = [
        sequences_of_two(start, plays, 0),
        sequences_of_two(start, plays, 1),
        sequences_of_two(start, plays, 2),
    ];
    Some((total_over_two(start, plays), sequences))
}

#[test]
fn totals_by_hand(rt: HostRuntime) -> Result<(), Fail> {
    for (counts, total, sequences) in [
        ([0, 0, 0, 0, 0, 0], 0, [1296, 0, 0]),
        ([1, 0, 0, 0, 0, 0], 1296, [0, 1296, 0]),
        ([0, 0, 0, 0, 0, 1], 1620, [0, 972, 324]),
    ] {
        let start = Position::new(counts)?;
        let plays = plays_to_fewest_pips(rt.alloc(), &start)?;
        assert_eq!(rt; totals(&start, plays.as_slice()), Some((total, sequences)));
    }
    Ok(())
}
