//! The parts of a text: the fields of an XGID, or the words around and of IDs.
ghost use Rattle.std.specs.Prelude.{◌≡◌, ℕ, map, take};
ghost use Rattle.std.specs.Str.{bytes_eq};
ghost use Rattle.notation.specs.Parts.{is_gap, is_label, is_part, parts};

use arrayvec::ArrayVec;

/// The first eleven parts: those between colons, or between colons and blanks all but the words
/// of a label.
pub(crate) fn parts(text: &[u8], has_labels: bool) -> ArrayVec<&[u8], 11>
    ensures { map (λ part. part.now) result.items ≡ take 11 (parts has_labels text.now) }
{
    let mut parts = ArrayVec::new();
    for part in text.split(|byte| is_gap(has_labels, *byte)) {
        if is_part(has_labels, part) && !parts.is_full() {
            parts.push(part);
        }
    }
    parts
}

fn is_gap(has_labels: bool, byte: u8) -> bool
    ensures { result ≡ is_gap has_labels byte }
{
    byte == b':' || (has_labels && byte.is_ascii_whitespace())
}

fn is_part(has_labels: bool, part: &[u8]) -> bool
    ensures { result ≡ is_part has_labels part.now }
{
    !has_labels || !is_label(part)
}

/// Whether a word is empty or one that GNU Backgammon prints before its IDs.
fn is_label(word: &[u8]) -> bool
    ensures { result ≡ is_label word.now }
{
    are_equal(word, b"")
        || are_equal(word, b"GNU")
        || are_equal(word, b"Backgammon")
        || are_equal(word, b"Position")
        || are_equal(word, b"Match")
        || are_equal(word, b"ID")
}

fn are_equal(word: &[u8], other: &[u8]) -> bool
    ensures { result ≡ bytes_eq word.now other.now }
{
    word == other
}
