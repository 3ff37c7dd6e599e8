//! A table over known bytes, and over pages of a source that fails once.
ghost use Rattle.std.specs.Prelude.{◌≡◌, length};

use crate::given::failing;
use db_layout::{Header, HeaderFault};
use db_reader::{Record, Table, TableFault, Whole};
use std::test::Fail;

/// The header of bound 0 and a record whose mean is one more than its last byte.
fn bound_zero() -> [u8; 458]
    ensures { length result ≡ 458 }
{
    let mut file = [0; 458];
    file[..12].copy_from_slice(b"EPCTABLE\x00\x01\x00\x00");
    file[12..20].copy_from_slice(b"\x00\x00\x00\x01\x00\x00\x01\xaa");
    file[47] = 8;
    file[457] = 7;
    file
}

/// The mean and the last share of the first record; none where the table answers no header, or
/// can't be read.
fn first_numbers<T: Table>(table: &mut T) -> Option<(u128, u128)> {
    let header = table.header().ok()?;
    if header.count == 0 {
        return None;
    }
    let mut room = Record::new();
    table.load(0, &mut room).ok()?;
    let view = table.lend(0, &room);
    Some((view.mean(), view.spread(22)))
}

/// The header of so many of the bytes.
fn header_of_front(count: usize) -> Result<Header, TableFault> {
    let file = bound_zero();
    Whole::new(&file[..count.min(458)]).header()
}

#[test]
fn headers_and_records(rt: HostRuntime) -> Result<(), Fail> {
    let file = bound_zero();
    let mut table = Whole::new(&file);
    assert_eq!(rt; first_numbers(&mut table), Some((8, 7)));
    let header = table.header()?;
    assert_eq!(rt; (header.bound, header.count), (0, 1));
    let fault = TableFault::Bad(HeaderFault::BadLength);
    assert_eq!(rt; header_of_front(457), Err(fault));
    assert_eq!(rt; header_of_front(458), Ok(header));
    Ok(())
}

#[test]
fn a_failure_at_each_call(rt: HostRuntime) -> Result<(), Fail> {
    let file = bound_zero();
    // the length, the header's bytes and those of the record, which are kept; and again
    for (call, first, second) in [
        (0, true, true),
        (1, false, true),
        (2, false, true),
        (3, false, true),
        (4, true, false),
        (5, true, false),
    ] {
        let mut table = failing(rt.alloc(), &file, 2, call)?;
        assert_eq!(rt; first_numbers(&mut table).is_some(), first, "call {call}");
        assert_eq!(rt; first_numbers(&mut table).is_some(), second, "call {call}");
        assert_eq!(rt; first_numbers(&mut table), Some((8, 7)), "call {call}");
    }
    Ok(())
}
