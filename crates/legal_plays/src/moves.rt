//! One checker's move.
ghost use Rattle.std.specs.Prelude.{◌≡◌, ◌<◌, ◌≤◌};

/// One checker's move from a point to a lower one, or off the board.
#[derive(Clone, Copy, Debug, PartialEq, Eq)]
pub struct Move {
    /// The point that the checker leaves, 1 to 6.
    pub from: u8,
    /// The point that it reaches, below `from`; 0 for a checker that is borne off.
    pub to: u8,
    pub ghost on_board: { from ≤ 6 },
    pub ghost down: { to < from },
}

/// A checker borne off from point 1. It fills the places of a play after its last move.
impl Default for Move {
    fn default() -> Self {
        Move { from: 1, to: 0 }
    }
}
