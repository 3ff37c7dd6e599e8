//! The counts by which positions are ranked, as one table that can be copied.
ghost use Rattle.std.specs.Prelude.{◌≡◌, ℕ, ◌+◌, ◌-◌, ◌*◌, ◌<◌, ◌≤◌, ◌↔◌, List, IsSome, IfSome};
ghost use Rattle.std.specs.Prelude.{slice_index, slice_index_or};
ghost use Rattle.race_model.specs.Prelude.{IsPosition, fewer, more, rank, at_rank, first_of, count_to};
ghost use Rattle.race_model.specs.Positions.{count};
ghost use Rattle.ranking.specs.Tables.{ways, used, IsRankTable, IsRow};
ghost use Rattle.ranking.specs.Chains.{IsChain, AreChains, IsLeft, pips_left, checkers_left};
ghost use Rattle.ranking.specs.Chains.{sum_from, below, between, above};

use crate::firsts;
use crate::left::Left;
use crate::point_table::PointTable;
use crate::row::{PIP_COUNTS, Row};
use home_board::Position;

/// How many positions there are.
const POSITIONS: u16 = 54264;

/// The numbers by which ranks are found, in a form that C can hold. No fact is kept with them,
/// since C may hold any numbers here before the table is counted: each call asks for that fact,
/// and `Ranks` is a table that has it.
///
/// A rank is counted back from the last position of as many pips: those that come after it have a
/// checker more on some point than it has, and as many on each point below, which is one number of
/// the table a point.
#[repr(C)]
#[derive(Drop)]
pub struct RankTable {
    // for each point: how many lists on the points from it on have a checker there
    points: [PointTable; 6],
    // for each pip count, and one beyond: how many positions have fewer pips
    starts: [u16; 92],
}

impl RankTable {
    /// The table, counted anew. It takes no memory but its own.
    // so that it is counted where it is to stand, and not copied there
    #[inline(never)]
    pub fn new() -> Self
        ensures { IsRankTable result }
    {
        let mut ways = PointTable::of_no_points();
        let mut points = [PointTable::EMPTY; 6];
        for above in 0..6 {
            let point = 6 - above;
            ways.add_point(point, &mut points[usize::from(point) - 1]);
        }
        RankTable {
            points,
            starts: starts_of(&ways.rows[15]),
        }
    }

    /// How many positions have at most so many pips; 54,264 from 90 pips on.
    pub fn count_to(&self, pips: u8) -> u16
        ensures { result ≡ count_to pips }
    {
        firsts::count_to(pips)
    }

    /// The rank of a position: how many positions are before it.
    pub fn rank(&self, position: &Position) -> u16
        requires { IsRankTable self.now }
        ensures value { result ≡ rank position.now }
        ensures range { result < 54264 }
    {
        let pips = position.pips();
        let mut checkers_left = 15;
        let mut pips_left = pips;
        let mut later = 0;
        for point in 1..=6 {
            let count = position.count(point);
            checkers_left -= count;
            pips_left -= point * count;
            later += self.used(point, checkers_left, pips_left);
        }
        self.starts[usize::from(pips) + 1] - 1 - later
    }

    /// The ranks after one checker moves from each occupied point by 1, 2, .. pips.
    pub fn chains(&self, position: &Position) -> [[u16; 6]; 6]
        requires { IsRankTable self.now }
        ensures { AreChains position.now result }
    {
        let left = Left::of(position);
        [
            self.chain_of::<1>(&left),
            self.chain_of::<2>(&left),
            self.chain_of::<3>(&left),
            self.chain_of::<4>(&left),
            self.chain_of::<5>(&left),
            self.chain_of::<6>(&left),
        ]
    }

    // Those of one point, which the compiler knows; anything where no checker is there. Where one
    // function uses the table more than a hundred times, it is taken to keep it, and each caller
    // that counts one has room for two.
    #[inline(never)]
    fn chain_of<const SOURCE: usize>(&self, left: &Left) -> [u16; 6]
        requires table { IsRankTable self.now }
        requires left { IsLeft left.now }
        requires point { SOURCE ≤ 6 }
        ensures { 0 < count left.now.position SOURCE → IsChain left.now.position SOURCE result }
    {
        if left.position.count(SOURCE as u8) == 0 {
            return [0; 6];
        }
        self.chain_from(left, SOURCE)
    }

    // The same, by what is left of the position. Positions that come after one are counted in
    // three parts: those that differ first below the point to which the checker goes, from there
    // on below the point from which it goes, and from there on.
    #[inline(always)]
    fn chain_from(&self, left: &Left, source: usize) -> [u16; 6]
        requires table { IsRankTable self.now }
        requires left { IsLeft left.now }
        requires occupied { 0 < count left.now.position source }
        ensures { IsChain left.now.position source result }
    {
        let mut chain = [0; 6];
        let mut upper = self.sum_above(left, source, 0);
        for far in 1..source {
            let target = source - far;
            upper += self.cell(
                target,
                left.checkers[target] - 1,
                left.pips[target] - source,
            );
            chain[far - 1] = self.rank_down(left, source, target, upper);
        }
        chain[source - 1] = self.rank_off(left, source);
        chain
    }

    // The rank to which a checker goes down, by the sum over the points from there on.
    #[inline(always)]
    fn rank_down(&self, left: &Left, source: usize, target: usize, upper: u16) -> u16
        requires table { IsRankTable self.now }
        requires left { IsLeft left.now }
        requires occupied { 0 < count left.now.position source }
        requires first { 1 ≤ target }
        requires down { target < source }
        requires upper { upper
            ≡ sum_from (between left.now.position source) target (source - target)
            + sum_from (above left.now.position 0) source (7 - source) }
        ensures { result ≡ rank (more (fewer left.now.position source) target) }
    {
        let far = source - target;
        self.rank_before(
            left.pips[0] - far,
            self.sum_below(left, target, far) + upper,
        )
    }

    // The rank to which a checker is borne off.
    #[inline(always)]
    fn rank_off(&self, left: &Left, source: usize) -> u16
        requires table { IsRankTable self.now }
        requires left { IsLeft left.now }
        requires occupied { 0 < count left.now.position source }
        ensures { result ≡ rank (fewer left.now.position source) }
    {
        let later = self.sum_below(left, source, source) + self.sum_above(left, source, 1);
        self.rank_before(left.pips[0] - source, later)
    }

    // The rank of a position of so many pips, before so many of as many pips.
    #[inline(always)]
    fn rank_before(&self, pips: usize, later: u16) -> u16
        requires table { IsRankTable self.now }
        requires low { pips ≤ 90 }
        requires later { later < first_of (pips + 1) }
        ensures { result ≡ first_of (pips + 1) - 1 - later }
    {
        self.starts[pips + 1] - 1 - later
    }

    // The sum over the points below one, with so many pips fewer.
    #[inline(always)]
    fn sum_below(&self, left: &Left, target: usize, far: usize) -> u16
        requires table { IsRankTable self.now }
        requires left { IsLeft left.now }
        requires first { 1 ≤ target }
        requires last { target ≤ 6 }
        requires room { (p : ℕ) → p < target → far ≤ pips_left left.now.position p }
        requires few { sum_from (below left.now.position far) 1 (target - 1) < 54264 }
        ensures { result ≡ sum_from (below left.now.position far) 1 (target - 1) }
    {
        let mut later = 0;
        for point in 1..target {
            later += self.cell(point, left.checkers[point], left.pips[point] - far);
        }
        later
    }

    // The sum over the points from one on, with so many checkers more.
    #[inline(always)]
    fn sum_above(&self, left: &Left, source: usize, off: usize) -> u16
        requires table { IsRankTable self.now }
        requires left { IsLeft left.now }
        requires first { 1 ≤ source }
        requires last { source ≤ 6 }
        requires one { off ≤ 1 }
        requires room { (p : ℕ) → source ≤ p → checkers_left left.now.position p + off ≤ 15 }
        requires few { sum_from (above left.now.position off) source (7 - source) < 54264 }
        ensures { result ≡ sum_from (above left.now.position off) source (7 - source) }
    {
        let mut later = 0;
        for point in source..7 {
            later += self.cell(point, left.checkers[point] + off, left.pips[point]);
        }
        later
    }

    /// The position of a rank; none for 54,264 and above, which are no ranks.
    pub fn unrank(&self, index: u16) -> Option<Position>
        requires { IsRankTable self.now }
        ensures some { IsSome result ↔ (index < 54264) }
        ensures ranked { IfSome result (λ position. rank position ≡ index) }
        ensures value { IfSome result (λ position. position ≡ at_rank index) }
        ensures position { IfSome result IsPosition }
    {
        if index >= POSITIONS {
            return None;
        }
        let pips = firsts::pips_of(index);
        let mut later = self.starts[usize::from(pips) + 1] - 1 - index;
        let mut checkers_left = 15;
        let mut pips_left = pips;
        let mut counts = [0; 6];
        for point in 1..=6 {
            let count = self.count_at(point, checkers_left, pips_left, later);
            counts[usize::from(point) - 1] = count;
            checkers_left -= count;
            pips_left -= point * count;
            later -= self.used(point, checkers_left, pips_left);
        }
        Position::new(counts).ok()
    }

    // How many checkers stand on a point, where so many positions come later: the
    // least number for which no more come later with a checker more on that point.
    fn count_at(&self, point: u8, checkers: u8, pips: u8, later: u16) -> u8
        requires table { IsRankTable self.now }
        requires first { 1 ≤ point }
        requires last { point ≤ 6 }
        requires few { checkers ≤ 15 }
        requires low { pips ≤ 90 }
        ensures fits { result ≤ checkers }
        ensures weight { point * result ≤ pips }
        ensures enough { used point (checkers - result) (pips - point * result) ≤ later }
        ensures least { (j : ℕ) → j < result →
            later < used point (checkers - j) (pips - point * j) }
    {
        let mut count = 0;
        while later < self.used(point, checkers - count, pips - point * count) {
            count += 1;
        }
        count
    }

    // How many lists of counts on the points from one on have a
    // checker there, at most so many checkers, and so many pips.
    fn used(&self, point: u8, checkers: u8, pips: u8) -> u16
        requires table { IsRankTable self.now }
        requires first { 1 ≤ point }
        requires last { point ≤ 6 }
        requires few { checkers ≤ 15 }
        requires low { pips ≤ 90 }
        ensures { result ≡ used point checkers pips }
    {
        self.cell(usize::from(point), usize::from(checkers), usize::from(pips))
    }

    // The same, by numbers that are places.
    #[inline(always)]
    fn cell(&self, point: usize, checkers: usize, pips: usize) -> u16
        requires table { IsRankTable self.now }
        requires first { 1 ≤ point }
        requires last { point ≤ 6 }
        requires few { checkers ≤ 15 }
        requires low { pips ≤ 90 }
        ensures { result ≡ used point checkers pips }
    {
        self.points[point - 1].rows[checkers].cells[pips]
    }
}

/// How many positions have fewer pips, for each pip count from 0 to 91. They are counted where they
/// stand: copied from the constants, they took 16 KB more of the stack.
fn starts_of(row: &Row) -> [u16; 92]
    requires { IsRow (ways 1 15) row.now }
    ensures { (m : ℕ) → m < 92 → slice_index result m ≡ first_of m }
{
    let mut starts = [0; 92];
    for pips in 0..PIP_COUNTS {
        starts[pips + 1] = starts[pips] + row.cells[pips];
    }
    starts
}
