//! The best play of a roll, by the means of fewer pips.
ghost use Rattle.std.specs.Prelude.{◌≡◌, ℕ, ◌<◌, ◌≤◌, ◌⊎◌, ◌↔◌, List, length, slice_index, IsTrue, All, Any};
ghost use Rattle.race_model.specs.Prelude.{pips, Legal, rank as rank_of, first_of, IsBestPlay};

use crate::means::Means;
use home_board::Position;
use legal_plays::{Roll, results};
use ranking::Ranks;

/// The rank of a roll's best result; of equal means, the lowest rank. The means hold every rank of
/// fewer pips than the position has. (The tie rule is this project's profile.)
pub fn best_play(position: &Position, roll: Roll, means: &Means) -> u16
    requires { first_of (pips position.now) ≤ length means.now }
    ensures { IsBestPlay (slice_index means.now) position.now roll result }
{
    if position.is_finished() {
        return 0;
    }
    best_result(&Ranks::new(), position, roll, means)
}

/// The best play, where the means hold each result.
pub(crate) fn best_result(ranks: &Ranks, position: &Position, roll: Roll, means: &Means) -> u16
    requires { (z : List ℕ) → Legal position.now roll z → rank_of z < length means.now }
    ensures { IsBestPlay (slice_index means.now) position.now roll result }
{
    best_of(ranks, results(position, roll).as_slice(), means)
}

/// The rank of the position with the least mean and, of equal means, the lowest rank.
fn best_of(ranks: &Ranks, found: &[Position], means: &Means) -> u16
    requires some { 0 < length found.now }
    requires held { All (λ z. rank_of z < length means.now) found.now }
    ensures found { Any (λ z. rank_of z ≡ result) found.now }
    ensures least { All (λ z. slice_index means.now result ≤ slice_index means.now (rank_of z))
        found.now }
    ensures lowest { All
        (λ z.
        slice_index means.now (rank_of z) ≡ slice_index means.now result → result ≤ rank_of z)
        found.now }
{
    let mut best = ranks.rank(&found[0]);
    let mut least = means.get(best).unwrap().numerator();
    for position in found {
        let rank = ranks.rank(position);
        let mean = means.get(rank).unwrap().numerator();
        if is_better(mean, rank, least, best) {
            best = rank;
            least = mean;
        }
    }
    best
}

/// Whether a mean is smaller than another, or the same and the rank lower.
fn is_better(mean: u128, rank: u16, least: u128, best: u16) -> bool
    ensures { IsTrue result ↔ ((mean < least) ⊎ ((mean ≡ least) × (rank < best))) }
{
    mean < least || (mean == least && rank < best)
}
