//! Both players' checkers, and when they are a race in the home boards.
ghost use Rattle.std.specs.Prelude.{◌≡◌, ◌<◌, ◌≤◌, ◌-◌, ℕ, List, length, sum, MatchOption};
ghost use Rattle.notation.specs.Sides.{home, Stands, IsFault, IsSound};
ghost use Rattle.notation.specs.declared.told.NoRace.{NoRace};

use crate::told::{NoRace, Side};
use home_board::Position;

pub(crate) fn checkers(side: &[u8]) -> u16
    requires { length side.now ≤ 25 }
    ensures { result ≡ sum side.now }
{
    side.iter().map(|count| u16::from(*count)).sum()
}

/// The farthest point on which a player has a checker; 0 where there is none.
fn farthest(side: &[u8; 25]) -> u8
    ensures stands { 0 < result → Stands side.now result }
    ensures farthest { (point : ℕ) → Stands side.now point → point ≤ result }
    ensures range { result ≤ 24 }
{
    let mut farthest = 0;
    for place in 0..24u8 {
        if side[usize::from(place)] > 0 {
            farthest = place + 1;
        }
    }
    farthest
}

/// The lowest point on which both have a checker, as one of them counts them; 0 where there is
/// none.
fn shared(mine: &[u8; 25], theirs: &[u8; 25]) -> u8
    ensures mine { 0 < result → Stands mine.now result }
    ensures theirs { 0 < result → Stands theirs.now (25 - result) }
    ensures lowest { (point : ℕ) → Stands mine.now point → Stands theirs.now (25 - point)
        → (0 < result) × (result ≤ point) }
{
    let mut shared = 0;
    for place in 0..24u8 {
        let here = usize::from(23 - place);
        if mine[here] > 0 && theirs[usize::from(place)] > 0 {
            shared = 24 - place;
        }
    }
    shared
}

/// Why two players' checkers are no race in the home boards.
pub(crate) fn fault(mine: &[u8; 25], theirs: &[u8; 25]) -> Option<NoRace>
    ensures { MatchOption result (IsSound mine.now theirs.now) (IsFault mine.now theirs.now) }
{
    if checkers(mine) > 15 {
        return Some(NoRace::TooMany(Side::Mine));
    }
    if checkers(theirs) > 15 {
        return Some(NoRace::TooMany(Side::Theirs));
    }
    let point = shared(mine, theirs);
    if point > 0 {
        return Some(NoRace::SamePoint(point));
    }
    if mine[24] > 0 {
        return Some(NoRace::OnBar(Side::Mine));
    }
    if theirs[24] > 0 {
        return Some(NoRace::OnBar(Side::Theirs));
    }
    let last = farthest(mine);
    if last > 6 {
        return Some(NoRace::Outside(last));
    }
    let their_last = farthest(theirs);
    if last + their_last > 25 {
        return Some(NoRace::Contact(25 - their_last));
    }
    if their_last > 6 {
        return Some(NoRace::OtherOutside(their_last));
    }
    None
}

/// The checkers in the home board of a player who has at most 15.
pub(crate) fn home(side: &[u8; 25]) -> Position
    requires { sum side.now ≤ 15 }
    ensures { result ≡ home side.now }
{
    let counts = [side[0], side[1], side[2], side[3], side[4], side[5]];
    match Position::new(counts) {
        Ok(position) => position,
        Err(_) => Position::EMPTY,
    }
}
