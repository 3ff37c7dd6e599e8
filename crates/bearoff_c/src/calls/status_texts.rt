//! What each status says, for a caller's own messages.
ghost use Rattle.std.specs.Prelude.{◌≡◌, ◌<◌, ◌≤◌, ◌↔◌, length};
ghost use Rattle.bearoff_c.specs.StatusTexts.{HasText, status_text};

use crate::calls::lines::put_text;

/// What a status says. Of a number that no call answers with, that it is unknown.
fn text_of(status: u32) -> &'static str
    ensures text { result.now ≡ status_text status }
    ensures most { length result.now ≤ 80 }
{
    match status {
        0 => "success",
        1 => "the file is not open",
        2 => "a die is not 1 to 6",
        3 => "a position has more than 15 checkers",
        4 => "the pips exceed the bound, or the bound exceeds the limit",
        5 => "no checker is left to move",
        6 => "the roll doesn't lead to that position",
        7 => "the bytes changed since they were verified",
        8 => "the buffer is too small",
        9 => "the file to upgrade already has version 2",
        10 => "no position has that rank, or the range is too long",
        11 => "the text is not a position",
        16 => "fewer than 32 bytes",
        17 => "the bytes don't begin with EPCTABLE",
        18 => "the version is not 1 or 2, or that of a board file not 3",
        19 => "the bound exceeds its version's limit of 44, 58 or 90",
        20 => "the count doesn't match the bound",
        21 => "the record size doesn't match the version, 426 or 0",
        22 => "a reserved byte is not zero",
        23 => "more or fewer bytes than the header says",
        24 => "a recorded play is not legal",
        25 => "a recorded play doesn't reach the least mean",
        26 => "a recorded mean is not that of the recorded plays",
        27 => "a share or count is not that of the recorded plays",
        28 => "the bytes changed while they were read",
        32 => "both players have a checker on one point",
        33 => "a checker is on the bar",
        34 => "the player on roll has a checker outside the home board",
        35 => "an opponent's checker is behind one of the player on roll",
        36 => "the opponent has a checker outside the home board",
        _ => "unknown status",
    }
}

/// The text of a status, any number: `text` has it in front, without a zero at its end, and the
/// rest of it stays as it was; `needed` is how many bytes it has, at most 80. The status is 0, and
/// 8 exactly where the text has no room; then `needed` is told and `text` stays as it was.
#[unsafe(no_mangle)]
pub extern "C" fn bearoff_status_text(status: u32, text: &mut [u8], needed: &mut usize) -> u32
    ensures short { (result ≡ 8) ↔ (length text.old < needed.new) }
    ensures status { ¬ (result ≡ 8) → result ≡ 0 }
    ensures text { HasText (status_text status) text.old text.new needed.new }
    ensures most { needed.new ≤ 80 }
{
    put_text(text_of(status).as_bytes(), text, needed)
}
