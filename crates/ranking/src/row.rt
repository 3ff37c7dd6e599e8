//! One number for each pip count.
ghost use Rattle.std.specs.Prelude.{◌≡◌, ℕ, ◌+◌, ◌-◌, ◌<◌, ◌^◌, nat_lt, slice_index, if◌then◌else◌};

/// How many pip counts there are: 0 to 90, for 15 checkers on point 6.
pub const PIP_COUNTS: usize = 91;

/// A number for each pip count from 0 to 90.
#[repr(C)]
#[derive(Clone, Copy)]
pub struct Row {
    pub cells: [u16; PIP_COUNTS],
}

impl Row {
    /// No pip count has any.
    pub const EMPTY: Row = Row {
        cells: [0; PIP_COUNTS],
    };

    /// Each number moved up by some pips, and zero below.
    pub fn shifted(&self, by: u8) -> Row
        ensures { (m : ℕ) → m < 91 →
            slice_index result.cells m
            ≡ (if nat_lt m by then 0 else slice_index self.now.cells (m - by)) }
    {
        let by = usize::from(by);
        let mut cells = [0; PIP_COUNTS];
        for pips in by..PIP_COUNTS {
            cells[pips] = self.cells[pips - by];
        }
        Row { cells }
    }

    /// The sums of the numbers of two rows.
    #[tactic(auto, using(crate::proofs::Cells::filled_more))]
    pub fn plus(&self, other: &Row) -> Row
        requires { (m : ℕ) → m < 91 →
            slice_index self.now.cells m + slice_index other.now.cells m < 2 ^ 16 }
        ensures { (m : ℕ) → m < 91 →
            slice_index result.cells m
            ≡ slice_index self.now.cells m + slice_index other.now.cells m }
    {
        let mut cells = [0; PIP_COUNTS];
        for pips in 0..PIP_COUNTS {
            cells[pips] = self.cells[pips] + other.cells[pips];
        }
        Row { cells }
    }
}
