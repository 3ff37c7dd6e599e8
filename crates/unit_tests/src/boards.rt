//! Headers of board files, and where their records stand.
use db_layout::{
    BoardHeader, BoardRecord, HeaderFault, board_length, count_place, parse_board_header,
};
use std::process::Abort;

/// The board file of bound 0: its header, and the record of the finished position.
const FINISHED: [u8; 98] = *b"EPCTABLE\x00\x03\x00\x00\x00\x00\x00\x01\x00\x00\x00\x00\
    \0\0\0\0\0\0\0\0\0\0\0\0\0\0\0\0\0\0\0\0\0\0\0\0\0\0\0\0\0\0\0\0\0\0\0\0\0\0\0\0\0\0\0\0\
    \0\0\0\0\0\0\0\0\0\0\0\0\0\0\0\0\0\0\0\0\0\0\0\0\0\0\0\0\0\0\0\0\0\0";

/// The file with one byte changed.
fn damaged(mut file: [u8; 98], place: usize, byte: u8) -> [u8; 98] {
    file[place.min(97)] = byte;
    file
}

/// The fault of the header of the first bytes of a file.
fn fault_of(file: &[u8; 98], bytes: usize) -> Option<HeaderFault> {
    parse_board_header(&file[..bytes.min(98)]).err()
}

/// One byte to be changed, and the fault that this makes, from the fault that is looked for last
/// to the first.
const DAMAGES: [(usize, u8, HeaderFault); 6] = [
    (31, 1, HeaderFault::BadReserved),
    (19, 66, HeaderFault::BadRecordBytes),
    (15, 2, HeaderFault::BadCount),
    (11, 91, HeaderFault::BadBound),
    (9, 2, HeaderFault::BadVersion),
    (0, 0, HeaderFault::BadMagic),
];

#[test]
fn each_fault_alone_and_with_every_later_one(rt: HostRuntime) {
    let mut file = FINISHED;
    assert_eq!(rt; fault_of(&file, 98), None);
    for (place, byte, fault) in DAMAGES {
        file = damaged(file, place, byte);
        assert_eq!(rt; fault_of(&damaged(FINISHED, place, byte), 98), Some(fault));
        assert_eq!(rt; fault_of(&file, 97), Some(fault));
    }
    assert_eq!(rt; fault_of(&file, 31), Some(HeaderFault::TooShort));
    assert_eq!(rt; fault_of(&FINISHED, 97), Some(HeaderFault::BadLength));
}

/// A bound, how many positions it has, and how many bytes its file has.
const BOUNDS: [(u8, u16, usize); 10] = [
    (0, 1, 98),
    (1, 2, 172),
    (2, 4, 336),
    (3, 7, 582),
    (8, 64, 6232),
    (15, 498, 59732),
    (44, 26314, 5540428),
    (58, 46062, 11413012),
    (59, 47014, 11750020),
    (90, 54264, 14643664),
];

#[test]
fn sizes_of_files(rt: HostRuntime) {
    for (bound, count, bytes) in BOUNDS {
        let header = BoardHeader::new(bound);
        assert_eq!(rt;
            header.map(|header| header.count),
            Some(count),
            "{bound} pips"
        );
        assert_eq!(rt;
            header.map(|header| header.end()),
            Some(bytes),
            "{bound} pips"
        );
    }
    assert_eq!(rt; BoardHeader::new(91), None);
}

/// Whether so many bytes, at most 594, are a record of a position of so many pips.
fn is_record(bytes: usize, pips: u8) -> bool {
    let room = [0; 594];
    BoardRecord::new(&room[..bytes.min(594)], pips.min(90)).is_some()
}

#[test]
fn places_in_a_record(rt: HostRuntime) {
    let places: [(u8, usize); 7] = [
        (1, 66),
        (11, 146),
        (12, 154),
        (13, 170),
        (23, 330),
        (24, 354),
        (34, 594),
    ];
    for (k, place) in places {
        assert_eq!(rt; count_place(k), place, "{k} throws");
    }
    let lengths: [(u8, usize); 4] = [(0, 66), (44, 266), (58, 330), (90, 594)];
    for (pips, bytes) in lengths {
        assert_eq!(rt; board_length(pips), bytes, "{pips} pips");
        assert!(rt; is_record(bytes, pips));
        assert!(rt; !is_record(bytes - 1, pips));
    }
}
