//! Ranks of positions, by the tables and by counting.
use home_board::Position;
use plain_model::rank_by_counting;
use ranking::Ranks;
use std::test::Fail;

// counted outside
const RANKS: [([u8; 6], u16); 33] = [
    ([0, 0, 0, 0, 0, 0], 0),
    ([1, 0, 0, 0, 0, 0], 1),
    ([0, 1, 0, 0, 0, 0], 2),
    ([2, 0, 0, 0, 0, 0], 3),
    ([0, 0, 1, 0, 0, 0], 4),
    ([1, 1, 0, 0, 0, 0], 5),
    ([3, 0, 0, 0, 0, 0], 6),
    ([0, 0, 0, 1, 0, 0], 7),
    ([0, 2, 0, 0, 0, 0], 8),
    ([1, 0, 1, 0, 0, 0], 9),
    ([2, 1, 0, 0, 0, 0], 10),
    ([4, 0, 0, 0, 0, 0], 11),
    ([0, 0, 0, 0, 1, 0], 12),
    ([0, 1, 1, 0, 0, 0], 13),
    ([1, 0, 0, 1, 0, 0], 14),
    ([1, 2, 0, 0, 0, 0], 15),
    ([2, 0, 1, 0, 0, 0], 16),
    ([3, 1, 0, 0, 0, 0], 17),
    ([5, 0, 0, 0, 0, 0], 18),
    ([0, 0, 0, 0, 0, 1], 19),
    ([0, 0, 2, 0, 0, 0], 20),
    ([0, 1, 0, 1, 0, 0], 21),
    ([0, 3, 0, 0, 0, 0], 22),
    ([1, 0, 0, 0, 1, 0], 23),
    ([1, 1, 1, 0, 0, 0], 24),
    ([2, 0, 0, 1, 0, 0], 25),
    ([2, 2, 0, 0, 0, 0], 26),
    ([3, 0, 1, 0, 0, 0], 27),
    ([4, 1, 0, 0, 0, 0], 28),
    ([6, 0, 0, 0, 0, 0], 29),
    ([0, 0, 0, 0, 4, 4], 24679),
    ([9, 0, 0, 0, 1, 5], 26313),
    ([0, 0, 0, 0, 0, 15], 54263),
];

#[test]
fn counts(rt: HostRuntime) {
    let ranks = Ranks::new();
    for (pips, first) in [(0, 0), (44, 24679), (91, 54264), (255, 54264)] {
        assert_eq!(rt; ranks.first_of(pips), first, "fewer than {pips} pips");
    }
    for (pips, count) in [(0, 1), (44, 26314), (58, 46062), (90, 54264), (255, 54264)] {
        assert_eq!(rt; ranks.count_to(pips), count, "at most {pips} pips");
    }
}

#[test]
fn ranks_of_positions(rt: HostRuntime) -> Result<(), Fail> {
    let ranks = Ranks::new();
    for (counts, rank) in RANKS {
        let position = Position::new(counts)?;
        assert_eq!(rt;
            (ranks.rank(&position), rank_by_counting(&position)),
            (rank, u32::from(rank))
        );
        assert_eq!(rt; ranks.unrank(rank), Some(position), "rank {rank}");
    }
    assert_eq!(rt; (ranks.unrank(54264), ranks.unrank(65535)), (None, None));
    Ok(())
}

#[test]
fn ranks_of_all_positions_to_eight_pips(rt: HostRuntime) -> Result<(), Fail> {
    let ranks = Ranks::new();
    for rank in 0..64 {
        let position = ranks.unrank(rank).ok_or("no position")?;
        assert!(rt; position.pips() <= 8);
        assert_eq!(rt; rank_by_counting(&position), u32::from(rank));
    }
    Ok(())
}
