//! Letters of base 64, and the numbers that their bits spell.
ghost use Rattle.std.specs.Prelude.{◌≡◌, ◌<◌, ◌≤◌, ◌^◌, ◌+◌, ◌*◌, ◌/◌, ◌%◌, ◌-◌, length};
ghost use Rattle.std.specs.List.{list_all};
ghost use Rattle.notation.specs.Letters.{is_letter, place_of, bit, field};

/// Whether all characters are letters of base 64.
pub(crate) fn are_letters(text: &[u8]) -> bool
    ensures { result ≡ list_all is_letter text.now }
{
    text.iter().all(|letter| is_letter(*letter))
}

fn is_letter(letter: u8) -> bool
    ensures { result ≡ is_letter letter }
{
    matches!(letter, b'A'..=b'Z' | b'a'..=b'z' | b'0'..=b'9' | b'+' | b'/')
}

/// The number that a letter stands for.
pub(crate) fn place_of(letter: u8) -> u8
    ensures value { result ≡ place_of letter }
    ensures range { result < 64 }
{
    match letter {
        b'A'..=b'Z' => letter - 65,
        b'a'..=b'z' => letter - 71,
        b'0'..=b'9' => letter + 4,
        b'+' => 62,
        _ => 63,
    }
}

/// A bit of the bytes that letters spell, the lowest one of each byte first.
fn bit(letters: &[u8], place: u8) -> u128
    requires { 8 * (place / 8) + 8 ≤ 6 * length letters.now }
    ensures value { result ≡ bit letters.now place }
    ensures range { result < 2 }
{
    let from_left = 8 * (place / 8) + (7 - place % 8);
    let letter = place_of(letters[usize::from(from_left / 6)]);
    u128::from((letter >> (5 - from_left % 6)) % 2)
}

/// The number of so many bits from one on, the lowest one first.
pub(crate) fn field(letters: &[u8], first: u8, count: u8) -> u128
    requires few { first + count ≤ 80 }
    requires within { 8 * ((first + count + 7) / 8) ≤ 6 * length letters.now }
    ensures value { result ≡ field letters.now first count }
    ensures range { result < 2 ^ count }
{
    if count == 0 {
        return 0;
    }
    bit(letters, first) + 2 * field(letters, first + 1, count - 1)
}
