//! Headers, places and the shares that a file leaves out.
use db_layout::{Header, HeaderFault, RecordView, parse_header};
use fixed_fraction::{Spread, WHOLE};
use std::process::Abort;

/// The header of version 1 and bound 1.
const FULL: [u8; 32] =
    *b"EPCTABLE\x00\x01\x00\x01\x00\x00\x00\x02\x00\x00\x01\xaa\0\0\0\0\0\0\0\0\0\0\0\0";

/// The header of version 2 and bound 1.
const COMPACT: [u8; 32] =
    *b"EPCTABLE\x00\x02\x00\x01\x00\x00\x00\x02\x00\x00\x00\x00\0\0\0\0\0\0\0\0\0\0\0\0";

/// The header with one byte changed.
fn damaged(mut header: [u8; 32], place: usize, byte: u8) -> [u8; 32] {
    header[place.min(31)] = byte;
    header
}

/// The fault of a header, and of a file of so many bytes.
fn fault_of(header: &[u8], length: u64) -> Option<HeaderFault> {
    parse_header(header, length).err()
}

/// One byte of the full header to be changed, and the fault that this makes,
/// from the fault that is looked for last to the first.
const DAMAGES: [(usize, u8, HeaderFault); 6] = [
    (31, 1, HeaderFault::BadReserved),
    (19, 0xab, HeaderFault::BadRecordBytes),
    (15, 3, HeaderFault::BadCount),
    (11, 45, HeaderFault::BadBound),
    (9, 3, HeaderFault::BadVersion),
    (0, 0, HeaderFault::BadMagic),
];

#[test]
fn each_fault_alone_and_with_every_later_one(rt: HostRuntime) {
    let mut header = FULL;
    for (place, byte, fault) in DAMAGES {
        header = damaged(header, place, byte);
        assert_eq!(rt; fault_of(&damaged(FULL, place, byte), 884), Some(fault));
        assert_eq!(rt; fault_of(&header, 883), Some(fault));
    }
    assert_eq!(rt; fault_of(&header, 31), Some(HeaderFault::TooShort));
}

#[test]
fn lengths_beside_headers(rt: HostRuntime) {
    let rows: [(&[u8], u64, Option<HeaderFault>); 9] = [
        (&FULL, 884, None),
        (&FULL, 883, Some(HeaderFault::BadLength)),
        (&FULL, 885, Some(HeaderFault::BadLength)),
        (&FULL, 31, Some(HeaderFault::TooShort)),
        (b"EPCTABLE", 884, Some(HeaderFault::TooShort)),
        (b"", 0, Some(HeaderFault::TooShort)),
        (&COMPACT, 164, None),
        (&COMPACT, 163, Some(HeaderFault::BadLength)),
        (&COMPACT, 884, Some(HeaderFault::BadLength)),
    ];
    for (header, length, fault) in rows {
        assert_eq!(rt; fault_of(header, length), fault, "{length} bytes");
    }
}

/// One byte of the compact header to be changed, and the fault that this makes.
const COMPACT_DAMAGES: [(usize, u8, HeaderFault); 7] = [
    (9, 0, HeaderFault::BadVersion),
    (9, 3, HeaderFault::BadVersion),
    (9, 1, HeaderFault::BadRecordBytes),
    (11, 59, HeaderFault::BadBound),
    (11, 58, HeaderFault::BadCount),
    (18, 1, HeaderFault::BadRecordBytes),
    (20, 1, HeaderFault::BadReserved),
];

#[test]
fn version_2(rt: HostRuntime) {
    for (place, byte, fault) in COMPACT_DAMAGES {
        let header = damaged(COMPACT, place, byte);
        assert_eq!(rt; fault_of(&header, 164), Some(fault), "{byte} at {place}");
    }
}

/// The number of records of a header and the bytes of each.
fn sizes(version: u16, bound: u8) -> Option<(u16, u32)> {
    let header = Header::new(version, bound)?;
    Some((header.count, header.record_bytes))
}

#[test]
fn headers_by_version(rt: HostRuntime) {
    for (version, bound, expected) in [
        (0, 1, None),
        (1, 45, None),
        (1, 58, None),
        (2, 59, None),
        (2, 255, None),
        (3, 1, None),
        (1, 44, Some((26314, 426))),
        (2, 58, Some((46062, 0))),
    ] {
        assert_eq!(rt; sizes(version, bound), expected);
    }
}

/// A version, a bound and a rank, and where the record of the rank lies: its offset and its length.
const PLACES: [(u16, u8, u16, (u64, u32)); 7] = [
    (1, 44, 0, (32, 426)),
    (1, 44, 26313, (11209370, 426)),
    (2, 58, 0, (32, 58)),
    (2, 58, 1, (90, 74)),
    (2, 58, 2, (164, 90)),
    (2, 58, 3, (254, 90)),
    (2, 58, 46061, (15060434, 410)),
];

/// Where the record of a rank below the count lies.
fn place_of(version: u16, bound: u8, rank: u16) -> Option<(u64, u32)> {
    let header = Header::new(version, bound)?;
    if rank < header.count {
        Some(header.place(rank))
    } else {
        None
    }
}

#[test]
fn places(rt: HostRuntime) {
    for (version, bound, rank, place) in PLACES {
        assert_eq!(rt; place_of(version, bound, rank), Some(place), "rank {rank}");
    }
}

/// A version, a bound, a number of bytes and a pip count, and whether these are a record.
const LENGTHS: [(u16, u8, usize, u8, bool); 6] = [
    (1, 44, 425, 44, false),
    (1, 44, 426, 44, true),
    (1, 44, 426, 45, false),
    (2, 58, 346, 44, true),
    (2, 58, 426, 44, false),
    (2, 58, 410, 59, false),
];

/// Whether so many bytes are a record of so many pips.
fn is_record(version: u16, bound: u8, length: usize, pips: u8) -> Option<bool> {
    let header = Header::new(version, bound)?;
    let bytes = [0; 426];
    let view = RecordView::of(&bytes[..length.min(426)], &header, pips);
    Some(view.is_some())
}

#[test]
fn lengths_of_records(rt: HostRuntime) {
    for (version, bound, length, pips, expected) in LENGTHS {
        let found = is_record(version, bound, length, pips);
        assert_eq!(rt; found, Some(expected), "{length} bytes to {pips} pips");
    }
}

// counted outside: the positions of each pip count by a program of loops, and the lengths of
// their records by hand
const FULL_LENGTHS: [u64; 45] = [
    458, 884, 1736, 3014, 5144, 8126, 12812, 18776, 27296, 38372, 53282, 72026, 96734, 126980,
    165320, 212180, 269690, 338276, 421346, 518474, 633494, 766406, 920618, 1096130, 1297202,
    1522556, 1776452, 2058038, 2370722, 2712800, 3088532, 3494084, 3933290, 4402742, 4904570,
    5434514, 5995130, 6580028, 7191338, 7823096, 8475728, 9142418, 9824444, 10513286, 11209796,
];

const COMPACT_LENGTHS: [u64; 59] = [
    90, 164, 344, 614, 1144, 1886, 3228, 4936, 7696, 11284, 16674, 23450, 33310, 45380, 62120,
    82580, 107690, 140212, 179602, 225658, 284518, 352534, 431450, 527858, 638306, 762092, 911092,
    1076342, 1259842, 1473440, 1708052, 1961284, 2252026, 2562790, 2894986, 3265698, 3657866,
    4067020, 4517610, 4983272, 5464320, 5980770, 6509100, 7042710, 7608420, 8174476, 8740186,
    9325540, 9905102, 10471632, 11050728, 11611302, 12153732, 12694694, 13213198, 13703334,
    14186314, 14638134, 15060844,
];

/// The length of a file.
fn length_of(version: u16, bound: u8) -> Option<u64> {
    let header = Header::new(version, bound)?;
    Some(header.end())
}

/// The lengths of the files of a version, from bound 0 on.
fn assert_lengths(rt: &impl Abort, version: u16, lengths: &[u64]) {
    let mut bound: u8 = 0;
    for length in lengths {
        assert_eq!(rt; length_of(version, bound), Some(*length), "bound {bound}");
        bound = bound.saturating_add(1);
    }
}

#[test]
fn lengths_of_files(rt: HostRuntime) {
    assert_lengths(&rt, 1, &FULL_LENGTHS);
    assert_lengths(&rt, 2, &COMPACT_LENGTHS);
}

/// The share of k rolls that a view of these bytes tells for so many pips.
fn share_of(bytes: &[u8], pips: u8, k: u8) -> Option<u128> {
    let header = Header::new(2, 58)?;
    let seen = RecordView::of(bytes, &header, pips)?;
    Some(seen.spread(k))
}

/// A record of 2 pips that stores the shares 5 and 7.
fn record_of_two_shares() -> [u8; 90] {
    let mut bytes = [0xff; 90];
    bytes[58..].copy_from_slice(
        b"\0\0\0\0\0\0\0\0\0\0\0\0\0\0\0\x05\0\0\0\0\0\0\0\0\0\0\0\0\0\0\0\x07",
    );
    bytes
}

#[test]
fn shares_that_are_stored(rt: HostRuntime) {
    let bytes = record_of_two_shares();
    for k in 0..25 {
        let expected = match k {
            1 => 5,
            2 => 7,
            _ => 0,
        };
        assert_eq!(rt; share_of(&bytes, 2, k), Some(expected), "at {k} rolls");
    }
}

#[test]
fn shares_that_are_not_stored(rt: HostRuntime) {
    for k in 0..25 {
        let expected = if k == 0 { WHOLE } else { 0 };
        assert_eq!(rt; share_of(&[0xff; 58], 0, k), Some(expected), "at {k} rolls");
    }
}

/// Whether a record of so many pips holds the spread of a finished race.
fn is_held(version: u16, pips: u8) -> Option<bool> {
    let header = Header::new(version, 44)?;
    if pips <= header.bound {
        Some(header.holds(pips, &Spread::finished()))
    } else {
        None
    }
}

#[test]
fn spreads_that_a_record_holds(rt: HostRuntime) {
    for (version, pips, holds) in [(2, 0, true), (2, 1, false), (1, 1, true)] {
        assert_eq!(rt; is_held(version, pips), Some(holds));
    }
}
