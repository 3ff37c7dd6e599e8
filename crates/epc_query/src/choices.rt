//! Results of a roll in the order of what they cost.
ghost use Rattle.std.specs.Prelude.{◌≡◌, ◌≢◌, ℕ, ◌+◌, ◌<◌, ◌≤◌, ◌↔◌, ◌⊎◌, IsTrue};
ghost use Rattle.std.specs.Prelude.{length, All, Contains, slice_index_or};
ghost use Rattle.arrayvec.specs.ArrayVec.{array_vec_len};
ghost use Rattle.race_model.specs.Prelude.{finished};
ghost use Rattle.epc_query.specs.Choices.{ComesFirst, IsByLoss};

use arrayvec::ArrayVec;
use fixed_fraction::BoardMean;
use home_board::Position;

/// How many positions a roll leads to at most.
pub const MOST_RESULTS: usize = 127;

/// A result of a roll with its rank, and what it costs.
#[derive(Clone, Copy, Debug, PartialEq, Eq)]
pub struct RankedChoice {
    /// The position that the roll leads to.
    pub to: Position,

    /// Its rank.
    pub rank: u16,

    /// The mean number of rolls after it less the least mean after any result of the roll, over
    /// 36 ^ 33.
    pub loss: BoardMean,
}

/// What stands in a list where there is no choice: the finished position, at no loss.
impl Default for RankedChoice {
    ghost is_default = { λ choice.
        (choice.to ≡ finished) × (choice.rank ≡ 0) × (choice.loss ≡ 0) };

    fn default() -> Self {
        RankedChoice {
            to: Position::default(),
            rank: 0,
            loss: BoardMean::ZERO,
        }
    }
}

/// Puts a choice in its place among others, by rising loss and then by rising rank, which none of
/// them has.
pub fn include_choice(choices: &mut ArrayVec<RankedChoice, MOST_RESULTS>, choice: RankedChoice)
    requires room { array_vec_len choices.old < 127 }
    requires ordered { IsByLoss choices.old.items }
    requires fresh { All (λ other. other.rank ≢ choice.rank) choices.old.items }
    ensures members { (other : _)
        → Contains choices.new.items other ↔ (Contains choices.old.items other ⊎ (other ≡ choice)) }
    ensures ordered { IsByLoss choices.new.items }
    ensures len { array_vec_len choices.new ≡ array_vec_len choices.old + 1 }
{
    let place = place_of(choices.as_slice(), &choice);
    choices.insert(place, choice);
}

/// How many of the first choices come before one.
fn place_of(choices: &[RankedChoice], choice: &RankedChoice) -> usize
    ensures within { result ≤ length choices.now }
    ensures before { (k : ℕ) (d : _) → k < result
        → ComesFirst (slice_index_or choices.now k d) choice.now }
    ensures after { (d : _) → result < length choices.now
        → ¬ ComesFirst (slice_index_or choices.now result d) choice.now }
{
    for place in 0..choices.len() {
        if !comes_first(&choices[place], choice) {
            return place;
        }
    }
    choices.len()
}

/// Whether a choice comes before another: of smaller loss, or of equal loss and lower rank.
fn comes_first(choice: &RankedChoice, other: &RankedChoice) -> bool
    ensures { IsTrue result ↔ ComesFirst choice.now other.now }
{
    choice.loss.is_less(other.loss)
        || (!other.loss.is_less(choice.loss) && choice.rank < other.rank)
}
