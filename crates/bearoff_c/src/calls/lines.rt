//! A line of the query language, answered by a file of any version into a buffer that the caller
//! lends.
ghost use Rattle.std.specs.Prelude.{◌≡◌, ℕ, ◌≤◌, ◌<◌, ◌↔◌, List, [], ◌∷◌, ◌++◌, IsTrue, length};
ghost use Rattle.race_model.specs.Prelude.{IsReplyIn};
ghost use Rattle.epc_query.specs.Kinds.{file_book, book_by};
ghost use Rattle.bearoff_c.specs.StatusTexts.{HasText};
ghost use Rattle.bearoff_c.specs.Refusals.{open_refusal, status_of};

use crate::kept::File;
use crate::statuses::{BUFFER_TOO_SMALL, OK, Refusal};
use epc_query::{Opened, Text};

/// Answers a line of the query language by a file of any version. The line is given without its
/// line ending: `text` has its reply in front, without the line feed, and the rest of it stays as
/// it was; `needed` is how many bytes that is, at most 16,642. A line that asks nothing, or is
/// refused, is answered too, by `error` and the refusal. Refused as `NotOpen`, and as `Changed`
/// only where the bytes were changed since they were checked, when all stays as it was; and with
/// the status 8 where the text has no room, when `needed` is told and `text` stays as it was.
#[unsafe(no_mangle)]
pub extern "C" fn bearoff_answer_line(
    file: &File<'_>,
    line: &[u8],
    text: &mut [u8],
    needed: &mut usize,
) -> u32
    ensures short { (result ≡ 8) ↔
        (IsTrue file.now.is_open × (length text.old < needed.new)) }
    ensures status { ¬ (result ≡ 8) → result ≡ status_of (open_refusal file.now.is_open) }
    ensures reply { IsTrue file.now.is_open → (reply : List ℕ)
        × HasText reply text.old text.new needed.new
        × IsReplyIn (file_book file.now.bytes.now) line.now (reply ++ 10 ∷ []) }
    ensures most { IsTrue file.now.is_open → needed.new ≤ 16642 }
    ensures left { result ≡ 1 → (text.new ≡ text.old) × (needed.new ≡ needed.old) }
{
    match file.opened() {
        Ok(opened) => tell_line(&opened, line, text, needed),
        Err(refusal) => refusal.status(),
    }
}

/// Tells the reply of a file to a line. Refused as `Changed` only where the bytes were changed
/// since they were checked, when all stays as it was; and with the status 8 where the text has no
/// room, when `needed` is told and `text` stays as it was.
// so that its room is not part of its caller's
#[inline(never)]
fn tell_line(opened: &Opened<'_>, line: &[u8], text: &mut [u8], needed: &mut usize) -> u32
    ensures short { (result ≡ 8) ↔ (length text.old < needed.new) }
    ensures status { ¬ (result ≡ 8) → result ≡ 0 }
    ensures reply { (reply : List ℕ) × HasText reply text.old text.new needed.new
        × IsReplyIn (book_by opened.now) line.now (reply ++ 10 ∷ []) }
    ensures most { needed.new ≤ 16642 }
{
    let mut reply = Text::new();
    match opened.answer(line, &mut reply) {
        Some(()) => put_text(reply.as_str().as_bytes(), text, needed),
        None => Refusal::Changed.status(),
    }
}

/// Writes a text into a buffer that the caller lends, where all of it has room, and says how many
/// bytes it has: the status 0. With the status 8, where it has no room, the buffer stays as it was.
pub fn put_text(text: &[u8], buffer: &mut [u8], needed: &mut usize) -> u32
    ensures text { HasText text.now buffer.old buffer.new needed.new }
    ensures short { (result ≡ 8) ↔ (length buffer.old < length text.now) }
    ensures status { ¬ (result ≡ 8) → result ≡ 0 }
{
    *needed = text.len();
    if text.len() > buffer.len() {
        return BUFFER_TOO_SMALL;
    }
    buffer[..text.len()].copy_from_slice(text);
    OK
}
