//! Least plays, over a table of means.
ghost use Rattle.std.specs.Prelude.{slice_index};

use least_plays::{LeastPlays, ROWS_TO_90, RankedMeans};
use ranking::Ranks;
use std::test::Fail;

/// The means of the ranks below 64.
#[derive(Drop)]
struct Table {
    means: [u16; 64],
}

impl RankedMeans for Table {
    ghost mean = { λ table. slice_index table.means };

    ghost leading = { λ table. slice_index table.means };

    ghost count = { λ table. 64 };

    fn is_less(&self, one: u16, other: u16) -> bool {
        self.means[usize::from(one)] < self.means[usize::from(other)]
    }

    fn leading_bits(&self, rank: u16) -> u64 {
        u64::from(self.means[usize::from(rank)])
    }
}

/// The least plays from some of the ranks.
fn expected_plays(rank: u16) -> Option<[u16; 21]> {
    match rank {
        19 => Some([
            2, 4, 0, 2, 1, 0, 1, 0, 0, 0, 0, 0, 0, 0, 0, 0, 0, 0, 0, 0, 0,
        ]),
        25 => Some([
            2, 5, 0, 3, 3, 0, 1, 1, 1, 0, 1, 1, 1, 1, 0, 1, 1, 1, 1, 1, 0,
        ]),
        44 => Some([
            7, 14, 0, 7, 5, 0, 4, 2, 1, 0, 4, 2, 1, 0, 0, 4, 2, 1, 0, 0, 0,
        ]),
        50 => Some([
            7, 14, 1, 7, 5, 0, 4, 3, 1, 0, 4, 3, 1, 1, 0, 4, 3, 1, 1, 1, 0,
        ]),
        _ => None,
    }
}

#[test]
fn plays_to_8_pips(rt: HostRuntime) -> Result<(), Fail> {
    let ranks = Ranks::new();
    let table = Table {
        means: [
            0, 648, 648, 648, 648, 648, 1188, 684, 828, 684, 1188, 1188, 738, 846, 774, 1206, 1206,
            1206, 1746, 810, 990, 882, 1206, 882, 1206, 1206, 1206, 1254, 1746, 1746, 992, 956,
            1208, 1028, 1226, 1208, 1256, 1226, 1226, 1332, 1746, 1746, 1746, 2301, 1108, 1052,
            1070, 1244, 1224, 1466, 1234, 1240, 1276, 1264, 1384, 1310, 1756, 1442, 1748, 1748,
            1756, 1793, 2301, 2301,
        ],
    };
    let mut known: LeastPlays<ROWS_TO_90> = LeastPlays::new();
    for rank in 0..64 {
        let position = ranks.unrank(rank).ok_or("no position")?;
        assert!(rt; position.pips() <= 8);
        let plays = known.advance(&ranks, &position, &table);
        if let Some(expected) = expected_plays(rank) {
            assert_eq!(rt; plays, expected);
        }
    }
    Ok(())
}
