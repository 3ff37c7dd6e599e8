//! The best ranks of the latest positions, from which those of the next are found.
ghost use Rattle.std.specs.Prelude.{◌≡◌, ℕ, ◌+◌, ◌-◌, ◌<◌, ◌≤◌, [], length};
ghost use Rattle.std.specs.Prelude.{slice_index, slice_index_or};
ghost use Rattle.race_model.specs.Prelude.{Board, IsPosition, IsFinished, IsHighest, pips, Die, number, roll_at};
ghost use Rattle.race_model.specs.Prelude.{rank as rank_of, IsBestPlay};
ghost use Rattle.race_model.specs.Positions.{count};
ghost use Rattle.ranking.specs.Chains.{IsChain};
ghost use Rattle.least_plays.specs.Known.{HasRows, kept_in, start_of, Knows, IsNext, AreStarts};
ghost use Rattle.least_plays.specs.Firsts.{AreFirsts, AreBest};
ghost use Rattle.least_plays.specs.declared.starts.Start.{Start as StartValue};

use crate::means::{RankedMeans, better_of_each};
use crate::starts::{Start, Starts};
use home_board::Position;
use ranking::Ranks;

/// How many rows do for all positions, to 90 pips: no pip count has more than 1,636 of them, and a
/// step leads at most 6 pips down.
pub const ROWS_TO_90: usize = 7 * 1636;

/// How many rows do for positions of at most 8 pips: one for each of them.
pub const ROWS_TO_8: usize = 64;

/// What is kept of one position: for each die the best ranks after it is played once, twice and
/// three times.
#[derive(Clone, Copy)]
pub(crate) struct Row {
    pub after: [[u16; 3]; 6],
}

impl Row {
    /// The finished position, of rank 0, stays.
    const FINISHED: Row = Row { after: [[0; 3]; 6] };
}

/// What the best plays of the next position are found by. `ROWS` rows hold the positions of the
/// last levels of pips. It takes no memory but its own: 36 bytes for each row, of `ROWS_TO_90`
/// rows 412,272, which lie where the value lies, as on the stack of the function that makes it; so
/// lend it by `&mut`.
#[derive(Drop)]
pub struct LeastPlays<const ROWS: usize> {
    pub(crate) rows: [Row; ROWS],
}

impl<const ROWS: usize> LeastPlays<ROWS> {
    /// Nothing is known yet: the next position is that of rank 0.
    pub fn new() -> Self
        ensures { (mean : ℕ → ℕ) → Knows mean result 0 }
    {
        LeastPlays {
            rows: [Row::FINISHED; ROWS],
        }
    }

    /// The best plays of the 21 rolls from the next position, by rank: for each the rank of the
    /// result of least mean and, of equal means, the lowest rank. The position's rank is the next
    /// one, and the means of all lower ranks are there. There are `ROWS_TO_90` rows, or one for
    /// each rank so far. The position of the rank after it is the next then. (The tie rule is this
    /// project's profile.)
    pub fn advance<M: RankedMeans>(
        &mut self,
        ranks: &Ranks,
        position: &Position,
        means: &M,
    ) -> [u16; 21]
        requires rows { HasRows ROWS (rank_of position.now) }
        requires held { rank_of position.now ≤ M.count means.now }
        requires known { Knows (M.mean means.now) self.old (rank_of position.now) }
        ensures known { Knows (M.mean means.now) self.new (rank_of position.now + 1) }
        ensures best { (i : ℕ) → i < 21 →
            IsBestPlay (M.mean means.now) position.now (roll_at i) (slice_index result i) }
        ensures len { length result ≡ 21 }
    {
        let place = usize::from(ranks.rank(position)) % ROWS;
        if position.is_finished() {
            self.rows[place] = Row::FINISHED;
            return [0; 21];
        }
        let starts = self.starts(ranks, position, means);
        self.rows[place] = row_of(&starts);
        starts.best_plays(means)
    }

    /// The best ranks with each die first.
    #[inline(always)]
    fn starts<M: RankedMeans>(&self, ranks: &Ranks, position: &Position, means: &M) -> Starts
        requires next { IsNext (M.mean means.now) (M.count means.now) self.now position.now }
        requires rows { (0 < ROWS) × (ROWS ≤ 11452) }
        ensures position { result.position ≡ position.now }
        ensures starts { AreStarts (M.mean means.now) (M.count means.now) result }
    {
        let best = self.best_of(ranks, position, means);
        let mut dice = [Start::UNKNOWN; 6];
        for index in 0..6 {
            dice[index] = start_of(&best[index], index);
        }
        Starts {
            position: *position,
            dice,
        }
    }

    /// For each die the best of what is kept of its steps, for what may follow it.
    #[inline(always)]
    fn best_of<M: RankedMeans>(
        &self,
        ranks: &Ranks,
        position: &Position,
        means: &M,
    ) -> [[u16; 9]; 6]
        requires next { IsNext (M.mean means.now) (M.count means.now) self.now position.now }
        requires rows { (0 < ROWS) × (ROWS ≤ 11452) }
        ensures { AreBest (M.mean means.now) position.now self.now.rows result }
    {
        let highest = position.highest();
        let chains = ranks.chains(position);
        let mut best = self.first_best(&chains[usize::from(highest) - 1], highest);
        for point in 1..highest {
            let chain = &chains[usize::from(point) - 1];
            self.add(&mut best, chain, position, highest, point, means);
        }
        best
    }

    /// What is kept of the steps from the highest point, by its chain: each die has one.
    #[inline(always)]
    fn first_best(&self, chain: &[u16; 6], highest: u8) -> [[u16; 9]; 6]
        requires rows { (0 < ROWS) × (ROWS ≤ 11452) }
        requires some { 1 ≤ highest }
        requires range { highest ≤ 6 }
        ensures { (mean : ℕ → ℕ) (x : Board) → IsHighest x highest → IsChain x highest chain.now →
            AreFirsts mean x self.now.rows highest 1 result }
    {
        let mut best = [[0; 9]; 6];
        for index in 0..6 {
            best[index] = self.kept(chain[pips_less_one(index, highest)], index);
        }
        best
    }

    /// The better of these and of those with a step from one point more, by its chain.
    #[inline(always)]
    fn add<M: RankedMeans>(
        &self,
        best: &mut [[u16; 9]; 6],
        chain: &[u16; 6],
        position: &Position,
        highest: u8,
        point: u8,
        means: &M,
    )
        requires next { IsNext (M.mean means.now) (M.count means.now) self.now position.now }
        requires rows { (0 < ROWS) × (ROWS ≤ 11452) }
        requires highest { IsHighest position.now highest }
        requires range { highest ≤ 6 }
        requires point { point < highest }
        requires first { 1 ≤ point }
        requires chain { 0 < count position.now point → IsChain position.now point chain.now }
        requires before { AreFirsts (M.mean means.now) position.now self.now.rows highest point
            best.old }
        ensures { AreFirsts (M.mean means.now) position.now self.now.rows highest (point + 1)
            best.new }
    {
        if position.count(point) == 0 {
            return;
        }
        for index in 0..usize::from(point) {
            best[index] = better_of_each(&best[index], &self.kept(chain[index], index), means);
        }
    }

    /// What is kept of a rank for what may follow the die of an index.
    #[inline(always)]
    fn kept(&self, rank: u16, index: usize) -> [u16; 9]
        requires rows { (0 < ROWS) × (ROWS ≤ 11452) }
        requires index { index < 6 }
        ensures { (d : Die) → number d ≡ index + 1 → result ≡ kept_in self.now.rows rank d }
    {
        let after = &self.rows[usize::from(rank) % ROWS].after;
        let own = &after[index];
        [
            after[0][0],
            after[1][0],
            after[2][0],
            after[3][0],
            after[4][0],
            after[5][0],
            rank,
            own[1],
            own[2],
        ]
    }
}

/// The pips that a die moves a checker from the highest point, minus one.
#[inline(always)]
fn pips_less_one(index: usize, highest: u8) -> usize
    requires { 1 ≤ highest }
    ensures within { result < highest }
    ensures value { highest - (result + 1) ≡ highest - (index + 1) }
{
    let last = usize::from(highest) - 1;
    if index < last { index } else { last }
}

/// The best ranks with a die first, by the index of the die.
#[inline(always)]
fn start_of(best: &[u16; 9], own: usize) -> Start
    requires { own < 6 }
    ensures { result ≡ start_of best.now own }
{
    let mut plays = [best[0], best[1], best[2], best[3], best[4], best[5]];
    plays[own] = best[8];
    Start {
        after: [best[6], best[own], best[7]],
        plays,
    }
}

/// What is kept of a position.
fn row_of(starts: &Starts) -> Row
    ensures { (i : ℕ) (e : StartValue) → i < 6 →
        slice_index_or result.after i [] ≡ (slice_index_or starts.now.dice i e).after }
{
    let mut after = [[0; 3]; 6];
    for index in 0..6 {
        after[index] = starts.dice[index].after;
    }
    Row { after }
}

// The means and the plays are those of an independent search through all positions of at most 8
// pips; the means are parts of 648 to a roll.
