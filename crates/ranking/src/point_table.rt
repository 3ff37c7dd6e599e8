//! How many lists of counts there are, by checkers and pips.
ghost use Rattle.std.specs.Prelude.{◌≡◌, ℕ, ◌+◌, ◌<◌, ◌≤◌};
ghost use Rattle.ranking.specs.Tables.{ways, used, IsPointTable};

use crate::row::{PIP_COUNTS, Row};

/// How many numbers of checkers there are: 0 to 15.
pub const CHECKER_COUNTS: usize = 16;

/// A number of lists for each checker count, 0 to 15, and pip count, 0 to 90.
#[repr(C)]
#[derive(Clone, Copy)]
pub struct PointTable {
    pub rows: [Row; CHECKER_COUNTS],
}

impl PointTable {
    /// No list at all.
    pub const EMPTY: PointTable = PointTable {
        rows: [Row::EMPTY; CHECKER_COUNTS],
    };

    /// The lists on no points at all: one, which has no pips.
    #[tactic(auto, using(crate::proofs::Filling::table_end))]
    pub fn of_no_points() -> PointTable
        ensures { IsPointTable (ways 7) result }
    {
        let mut cells = [0; PIP_COUNTS];
        cells[0] = 1;
        PointTable {
            rows: [Row { cells }; CHECKER_COUNTS],
        }
    }

    /// Extends a table from the points above a point to that point. `occupied` becomes the table
    /// of the lists with a checker there.
    pub fn add_point(&mut self, point: u8, occupied: &mut PointTable)
        requires first { 1 ≤ point }
        requires last { point ≤ 6 }
        requires above { IsPointTable (ways (point + 1)) self.old }
        ensures ways { IsPointTable (ways point) self.new }
        ensures used { IsPointTable (used point) occupied.new }
    {
        occupied.rows[0] = Row::EMPTY;
        for checkers in 1..CHECKER_COUNTS {
            let more = self.rows[checkers - 1].shifted(point);
            self.rows[checkers] = self.rows[checkers].plus(&more);
            occupied.rows[checkers] = more;
        }
    }
}
