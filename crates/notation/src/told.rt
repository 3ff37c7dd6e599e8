//! What a text tells of a game.
use home_board::Position;
use legal_plays::Roll;
use thiserror::Error;

/// A player, by where that one sits.
#[derive(Clone, Copy, Debug, PartialEq, Eq)]
pub enum Player {
    Bottom,
    Top,
}

/// Whose checkers: those of the player on roll, or the other player's.
#[derive(Clone, Copy, Debug, PartialEq, Eq)]
pub enum Side {
    Mine,
    Theirs,
}

/// What a text tells of both players' checkers, of the dice and of who is on roll.
#[derive(Clone, Copy, Debug, PartialEq, Eq)]
pub struct Told {
    /// Those of the player on roll, on the points 1 to 24 as that player counts them, and the bar.
    pub mine: [u8; 25],

    /// Those of the other player, as that one counts them.
    pub theirs: [u8; 25],

    pub roll: Option<Roll>,
    pub on_roll: Option<Player>,
}

/// A race in the home boards, as far as a text tells it.
#[derive(Clone, Copy, Debug, PartialEq, Eq)]
pub struct Race {
    /// The checkers of the player on roll.
    pub mine: Position,
    pub theirs: Option<Position>,
    pub roll: Option<Roll>,
    pub on_roll: Option<Player>,
}

/// Why a text is refused and where, in the order of the tests. Points are 1 to 24.
#[derive(Clone, Copy, Debug, PartialEq, Eq, Error)]
pub enum NoRace {
    #[error("neither an XGID, an ID of GNU Backgammon nor six counts")]
    BadText,

    #[error("a player has more than 15 checkers")]
    TooMany(Side),

    /// The lowest such point, as the player on roll counts them.
    #[error("both players have a checker on one point")]
    SamePoint(u8),

    #[error("a checker is on the bar")]
    OnBar(Side),

    /// The farthest point on which that player has one.
    #[error("the player on roll has a checker outside the home board")]
    Outside(u8),

    /// The point of the other player's last checker, as the player on roll counts them.
    #[error("the other player has a checker behind one of the player on roll")]
    Contact(u8),

    /// The farthest one on which that player has one, as that player counts them.
    #[error("the other player has a checker outside the home board")]
    OtherOutside(u8),
}
