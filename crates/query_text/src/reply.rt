//! What a line is answered with.
use fixed_fraction::{Fraction, Spread};
use home_board::Position;
use legal_plays::Play;

/// Why a line is refused, in the order of the tests.
#[derive(Clone, Copy, Debug, PartialEq, Eq)]
pub enum Refusal {
    /// It is not of the form of a query.
    BadLine,

    /// A position of it has more than 15 checkers.
    TooMany,

    /// Its first position has more pips than the bound of the database.
    OverBound,

    /// It asks for plays from the finished position.
    Finished,

    /// The roll doesn't lead to the position whose loss is asked.
    NotLegal,
}

/// A result of a roll, and what it costs.
#[derive(Clone, Copy, Debug, PartialEq, Eq)]
pub struct Choice {
    /// The position that the roll leads to.
    pub to: Position,

    /// The loss in rolls: the mean after it, minus the least mean after the roll.
    pub loss: Fraction,
}

/// The positions of one pip count.
#[derive(Clone, Copy, Debug, PartialEq, Eq)]
pub struct Level {
    /// The pip count.
    pub pips: u8,

    /// How many positions have it.
    pub positions: u16,

    /// The least mean number of rolls of these positions.
    pub least: Fraction,

    /// The greatest mean number of rolls of these positions.
    pub greatest: Fraction,
}

/// What a line is answered with.
#[derive(Debug, Drop)]
pub enum Reply {
    /// The mean number of rolls and the effective pip count.
    Mean { mean: Fraction, epc: Fraction },

    /// The shares of 0 to 22 rolls.
    Dist(Spread),

    /// What is played, and the position that it leads to.
    Play { play: Play, to: Position },

    /// What a result costs, in rolls.
    Loss(Fraction),

    /// Every result of the roll once, by rising loss and then by rising rank.
    Moves(Vec<Choice>),

    /// The rank.
    Rank(u16),

    /// Why the line is refused.
    Refused(Refusal),
}
