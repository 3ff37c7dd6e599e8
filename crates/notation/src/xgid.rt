//! XGIDs.
ghost use Rattle.std.specs.Prelude.{◌≡◌, ◌≢◌, ◌⊎◌, ◌↔◌, ◌+◌, ◌≤◌, [], ◌∷◌, ℕ, List, codes, drop, length, map};
ghost use Rattle.std.specs.Prelude.{slice_index, ◌<◌, IsTrue, Option, MatchOption};
ghost use Rattle.std.specs.List.{list_all};
ghost use Rattle.race_model.specs.Prelude.{is_digit};
ghost use Rattle.notation.specs.Xgids.{of_bottom, of_top, is_place, is_board, is_number, IsOwner};
ghost use Rattle.notation.specs.Xgids.{checkers_of, seen_by, side_of, opponent, turn_text, IsDiceText, IsXgid};
ghost use Rattle.notation.specs.declared.told.Told.{Told};
ghost use Rattle.notation.specs.declared.told.Player.{Player};
ghost use Rattle.legal_plays.specs.declared.roll.Roll.{Roll};

use crate::told::{Player, Told};
use legal_plays::{Roll, parse_roll};

/// What the ten fields of an XGID tell: the board, the cube and its owner, the turn, the dice, two
/// scores, Crawford and Jacoby, the match length and the greatest cube. None of fields that are
/// none, or that leave open who is on roll, where a double was turned back.
pub(crate) fn read_xgid(fields: &[&[u8]]) -> Option<Told>
    requires { length fields.now ≡ 10 }
    ensures { MatchOption result
        ((told : Told) → ¬ IsXgid (map (λ field. field.now) fields.now) told)
        (λ told. IsXgid (map (λ field. field.now) fields.now) told) }
{
    if !is_board(fields[0]) {
        return None;
    }
    if !is_owner(fields[2]) {
        return None;
    }
    if !are_numbers(
        fields[1], fields[5], fields[6], fields[7], fields[8], fields[9],
    ) {
        return None;
    }
    let Some(player) = read_turn(fields[3]) else {
        return None;
    };
    let Some(roll) = read_dice(fields[4]) else {
        return None;
    };
    Some(Told {
        mine: side_of(player, fields[0]),
        theirs: side_of(opponent(player), fields[0]),
        roll,
        on_roll: Some(player),
    })
}

/// The checkers of the player at the bottom that a letter stands for.
fn of_bottom(letter: u8) -> u8
    ensures { result ≡ of_bottom letter }
{
    match letter {
        b'A'..=b'O' => letter - 64,
        _ => 0,
    }
}

/// Those of the player at the top.
fn of_top(letter: u8) -> u8
    ensures { result ≡ of_top letter }
{
    match letter {
        b'a'..=b'o' => letter - 96,
        _ => 0,
    }
}

fn is_place(letter: u8) -> bool
    ensures { result ≡ is_place letter }
{
    matches!(letter, b'-' | b'A'..=b'O' | b'a'..=b'o')
}

fn is_board(board: &[u8]) -> bool
    ensures { result ≡ is_board board.now }
{
    if board.len() != 26 {
        return false;
    }
    let top_bar = of_bottom(board[0]);
    let bottom_bar = of_top(board[25]);
    are_places(board) && top_bar == 0 && bottom_bar == 0
}

fn are_places(board: &[u8]) -> bool
    ensures { result ≡ list_all is_place board.now }
{
    board.iter().all(|letter| is_place(*letter))
}

fn are_numbers(a: &[u8], b: &[u8], c: &[u8], d: &[u8], e: &[u8], f: &[u8]) -> bool
    ensures { result ≡ list_all is_number (a.now ∷ b.now ∷ c.now ∷ d.now ∷ e.now ∷ f.now ∷ []) }
{
    is_number(a) && is_number(b) && is_number(c) && is_number(d) && is_number(e) && is_number(f)
}

/// Whether a text is a number of one to four digits.
fn is_number(text: &[u8]) -> bool
    ensures { result ≡ is_number text.now }
{
    1 <= text.len() && text.len() <= 4 && are_digits(text)
}

fn are_digits(text: &[u8]) -> bool
    ensures { result ≡ list_all is_digit text.now }
{
    text.iter().all(|digit| digit.is_ascii_digit())
}

fn is_owner(text: &[u8]) -> bool
    ensures { IsTrue result ↔ IsOwner text.now }
{
    match text {
        b"-1" | b"0" | b"1" => true,
        _ => false,
    }
}

/// The player who is on roll, as the field of the turn tells it.
fn read_turn(text: &[u8]) -> Option<Player>
    ensures { MatchOption result ((player : Player) → text.now ≢ turn_text player)
        (λ player. text.now ≡ turn_text player) }
{
    match text {
        b"1" => Some(Player::Bottom),
        b"-1" => Some(Player::Top),
        _ => None,
    }
}

/// The dice, as their field tells them; none within where they aren't thrown.
fn read_dice(text: &[u8]) -> Option<Option<Roll>>
    ensures { MatchOption result ((roll : Option Roll) → ¬ IsDiceText text.now roll)
        (λ roll. IsDiceText text.now roll) }
{
    if has_no_dice(text) {
        return Some(None);
    }
    match parse_roll(text) {
        Some(roll) => Some(Some(roll)),
        None => None,
    }
}

/// Whether the field of the dice tells none: they are to be thrown, or a double is offered.
fn has_no_dice(text: &[u8]) -> bool
    ensures { IsTrue result ↔ ((text.now ≡ codes "00") ⊎ (text.now ≡ codes "D")) }
{
    match text {
        b"00" | b"D" => true,
        _ => false,
    }
}

fn opponent(player: Player) -> Player
    ensures { result ≡ opponent player }
{
    match player {
        Player::Bottom => Player::Top,
        Player::Top => Player::Bottom,
    }
}

fn checkers_of(player: Player, letter: u8) -> u8
    ensures { result ≡ checkers_of player letter }
{
    match player {
        Player::Bottom => of_bottom(letter),
        Player::Top => of_top(letter),
    }
}

/// A player's checkers on the points 1 to 24, and on the bar.
fn side_of(player: Player, board: &[u8]) -> [u8; 25]
    requires { length board.now ≡ 26 }
    ensures { result ≡ side_of player board.now }
{
    let mut side = [0; 25];
    for place in 0..25 {
        side[place] = checkers_of(player, letter_at(player, board, place));
    }
    side
}

/// The letter of a place, the points from 1 on as a player counts them and the bar.
fn letter_at(player: Player, board: &[u8], place: usize) -> u8
    requires long { length board.now ≡ 26 }
    requires within { place < 25 }
    ensures { result ≡ slice_index (drop 1 (seen_by player board.now)) place }
{
    match player {
        Player::Bottom => board[place + 1],
        Player::Top => board[24 - place],
    }
}
