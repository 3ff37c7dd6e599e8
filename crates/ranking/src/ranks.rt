//! Ranks of positions, by a table of counts that is made once.
ghost use Rattle.std.specs.Prelude.{◌≡◌, ◌<◌, ◌↔◌, IsSome, IfSome};
ghost use Rattle.race_model.specs.Prelude.{IsPosition, rank, at_rank, first_of, count_to};
ghost use Rattle.ranking.specs.Tables.{IsRankTable};
ghost use Rattle.ranking.specs.Chains.{AreChains};

use crate::firsts;
use crate::rank_table::RankTable;
use home_board::Position;

/// The ranks of all positions, by a table that is counted once. The rank of a position is the
/// number of positions before it: those of fewer pips, and of as many pips those with the smaller
/// list of counts. (This project's profile.)
#[derive(Drop)]
pub struct Ranks {
    table: RankTable,
    ghost counted: { IsRankTable table },
}

impl Ranks {
    /// The table, counted anew. It takes no memory but its own.
    pub fn new() -> Self {
        Ranks {
            table: RankTable::new(),
        }
    }

    /// How many positions have fewer than so many pips: the rank of
    /// the first position of so many pips, and 54,264 above 90 pips.
    pub fn first_of(&self, pips: u8) -> u16
        ensures { result ≡ first_of pips }
    {
        firsts::first_of(pips)
    }

    /// How many positions have at most so many pips; 54,264 from 90 pips on.
    pub fn count_to(&self, pips: u8) -> u16
        ensures { result ≡ count_to pips }
    {
        self.table.count_to(pips)
    }

    /// The rank of a position: how many positions are before it.
    pub fn rank(&self, position: &Position) -> u16
        ensures value { result ≡ rank position.now }
        ensures range { result < 54264 }
    {
        self.table.rank(position)
    }

    /// The ranks after one checker moves from each occupied point by 1, 2, .. pips.
    pub fn chains(&self, position: &Position) -> [[u16; 6]; 6]
        ensures { AreChains position.now result }
    {
        self.table.chains(position)
    }

    /// The position of a rank; none for 54,264 and above, which are no ranks.
    pub fn unrank(&self, index: u16) -> Option<Position>
        ensures some { IsSome result ↔ (index < 54264) }
        ensures ranked { IfSome result (λ position. rank position ≡ index) }
        ensures value { IfSome result (λ position. position ≡ at_rank index) }
        ensures position { IfSome result IsPosition }
    {
        self.table.unrank(index)
    }
}

// The values are those of an independent count of all positions.
