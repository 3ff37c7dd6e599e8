//! How long the records of a board file are, and where in them each count stands.
ghost use Rattle.std.specs.Prelude.{◌≡◌, ◌≤◌};
ghost use Rattle.race_model.specs.Prelude.{count_place, board_length};

use crate::places::most_rolls;

/// How many bytes the record of a position of so many pips has: 66 to 594.
pub fn board_length(pips: u8) -> usize
    requires { pips ≤ 90 }
    ensures { result ≡ board_length pips }
{
    count_place(most_rolls(pips) + 1)
}

/// Where in a record the count of sequences of k throws begins, for k from 1 on: after the mean,
/// the plays, and the counts of fewer throws, each of which has 8 bytes, from 12 throws on 16, and
/// from 23 on 24.
pub fn count_place(k: u8) -> usize
    requires range { k ≤ 34 }
    requires some { 1 ≤ k }
    ensures { result ≡ count_place k }
{
    let k = usize::from(k);
    66 + 8 * (k - 1) + 8 * k.saturating_sub(12) + 8 * k.saturating_sub(23)
}
