//! A board file in the first bytes of a room, and the refusals of its builder.
use retrograde::{BoardBuildFault, build_board};
use std::process::Abort;

/// The board file of bound 1: from the ace point one checker is off with the first of all 36
/// throws, so its mean is 36 ^ 33, of which the upper part is 36 ^ 22.
const ONE_PIP: [u8; 172] = *b"EPCTABLE\x00\x03\x00\x01\x00\x00\x00\x02\
    \0\0\0\0\0\0\0\0\0\0\0\0\0\0\0\0\0\0\0\0\0\0\0\0\0\0\0\0\0\0\0\0\0\0\0\0\0\0\0\0\0\
    \0\0\0\0\0\0\0\0\0\0\0\0\0\0\0\0\0\0\0\0\0\0\0\0\0\0\0\0\0\0\0\0\0\0\0\0\0\0\0\0\0\
    \x00\x03\x56\x27\x10\xdf\xf0\x31\x87\x27\x10\
    \0\0\0\0\0\0\0\0\0\0\0\0\0\0\0\0\0\0\0\0\0\0\0\0\0\0\0\0\0\0\0\
    \0\0\0\0\0\0\0\0\0\0\0\0\0\0\0\0\0\0\0\0\0\0\0\0\0\0\0\0\0\0\0\x24";

#[test]
fn the_file_of_one_pip_and_bytes_after_it(rt: HostRuntime) {
    let mut room = [7; 180];
    assert_eq!(rt; build_board(1, &mut room), Ok(172));
    assert!(rt; &room[..172] == ONE_PIP.as_slice());
    assert!(rt; &room[172..] == [7; 8].as_slice());
    let mut exact = [7; 172];
    assert_eq!(rt; build_board(1, &mut exact), Ok(172));
    assert!(rt; exact == ONE_PIP);
}

#[test]
fn a_refused_build_leaves_the_room(rt: HostRuntime) {
    let mut room = [7; 171];
    for (bound, fault) in [
        (1, BoardBuildFault::Room),
        (90, BoardBuildFault::Room),
        (91, BoardBuildFault::OverBound),
        (255, BoardBuildFault::OverBound),
    ] {
        assert_eq!(rt; build_board(bound, &mut room), Err(fault), "{bound} pips");
        assert!(rt; room == [7; 171]);
    }
}
