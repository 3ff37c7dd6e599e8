//! A fault as the line that tells it.
ghost use Rattle.std.specs.Prelude.{◌≡◌, ◌+◌, ◌≤◌, ◌++◌, List, ℕ, codes, decimal, length};
ghost use Rattle.arrayvec.specs.ArrayString.{array_string_len};
ghost use Rattle.race_model.specs.Prelude.{HeaderTest, header_line};
ghost use Rattle.db_layout.specs.HeaderFaults.{test_of};
ghost use Rattle.certificate.specs.CheckFaults.{line_of};

use crate::check_fault::CheckFault;
use arrayvec::ArrayString;
use db_layout::HeaderFault;
use itoa::Buffer;

/// The text of a fault, without a line feed: `header` and the fault of the header, `play rank R
/// roll I`, `not-least rank R roll I`, `mean rank R`, `spread rank R k K`, or `read` (this
/// project's profile).
pub fn fault_line(fault: &CheckFault) -> ArrayString<64>
    ensures text { result.bytes ≡ line_of fault.now }
    ensures len { array_string_len result ≤ 32 }
{
    match *fault {
        CheckFault::Header(fault) => header_line(fault),
        CheckFault::Play { rank, roll } => numbers_line("play rank ", rank, " roll ", roll),
        CheckFault::NotLeast { rank, roll } => {
            numbers_line("not-least rank ", rank, " roll ", roll)
        }
        CheckFault::Mean { rank } => rank_line("mean rank ", rank),
        CheckFault::Spread { rank, k } => numbers_line("spread rank ", rank, " k ", k),
        CheckFault::Read => text_line("read"),
    }
}

/// The text of a fault of the header.
fn header_line(fault: HeaderFault) -> ArrayString<64>
    ensures text { result.bytes ≡ header_line (test_of fault) }
    ensures len { array_string_len result ≤ 32 }
{
    text_line(match fault {
        HeaderFault::TooShort => "header too-short",
        HeaderFault::BadMagic => "header bad-magic",
        HeaderFault::BadVersion => "header bad-version",
        HeaderFault::BadBound => "header bad-bound",
        HeaderFault::BadCount => "header bad-count",
        HeaderFault::BadRecordBytes => "header bad-record-bytes",
        HeaderFault::BadReserved => "header bad-reserved",
        HeaderFault::BadLength => "header bad-length",
    })
}

/// A text.
fn text_line(text: &str) -> ArrayString<64>
    requires { length text.now ≤ 32 }
    ensures bytes { result.bytes ≡ text.now }
    ensures len { array_string_len result ≡ length text.now }
{
    let mut line = ArrayString::new();
    line.push_str(text);
    line
}

/// A text and a rank.
fn rank_line(text: &str, rank: u16) -> ArrayString<64>
    requires { length text.now ≤ 32 }
    ensures bytes { result.bytes ≡ text.now ++ decimal rank }
    ensures len { array_string_len result ≤ length text.now + 5 }
{
    let mut line = text_line(text);
    line.push_str(Buffer::new().format(rank));
    line
}

/// A text and a rank, and another text and a number.
fn numbers_line(text: &str, rank: u16, name: &str, number: u8) -> ArrayString<64>
    requires text { length text.now ≤ 32 }
    requires name { length name.now ≤ 8 }
    ensures bytes { result.bytes ≡ text.now ++ decimal rank ++ name.now ++ decimal number }
    ensures len { array_string_len result ≤ length text.now + length name.now + 8 }
{
    let mut line = rank_line(text, rank);
    line.push_str(name);
    line.push_str(Buffer::new().format(number));
    line
}
