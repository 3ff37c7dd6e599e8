//! Files with known bytes, and what the checker says of them.
ghost use Rattle.std.specs.Prelude.{◌≡◌, length};

use crate::given::{WHOLE_BYTES, accepted};
use certificate::{CheckFault, QueryFault, check, fault_line, is_right};
use db_layout::HeaderFault;
use db_reader::{Table, Whole};
use home_board::Position;
use legal_plays::{Roll, write_play};
use retrograde::build_board;
use std::test::Fail;

/// The file of bound 1: the finished position, and one checker on the ace point, whose mean is
/// one roll.
fn bound_one() -> [u8; 884]
    ensures { length result ≡ 884 }
{
    let mut file = [0; 884];
    file[..12].copy_from_slice(b"EPCTABLE\x00\x01\x00\x01");
    file[12..20].copy_from_slice(b"\x00\x00\x00\x02\x00\x00\x01\xaa");
    file[90..106].copy_from_slice(&WHOLE_BYTES);
    file[458..474].copy_from_slice(&WHOLE_BYTES);
    file[532..548].copy_from_slice(&WHOLE_BYTES);
    file
}

/// The same as a file of version 2, whose records leave out the known shares.
fn compact_one() -> [u8; 164]
    ensures { length result ≡ 164 }
{
    let mut file = [0; 164];
    file[..12].copy_from_slice(b"EPCTABLE\x00\x02\x00\x01");
    file[12..16].copy_from_slice(b"\x00\x00\x00\x02");
    file[90..106].copy_from_slice(&WHOLE_BYTES);
    file[148..164].copy_from_slice(&WHOLE_BYTES);
    file
}

/// The fault of the file of version 2 of bound 1 with one byte changed.
fn compact_fault_with(place: usize, byte: u8) -> Option<CheckFault> {
    let mut file = compact_one();
    file[place.min(163)] = byte;
    fault_of(&file)
}

/// The fault of the file of version 2 of bound 1 cut down to a number of bytes.
fn compact_fault_of_front(count: usize) -> Option<CheckFault> {
    let file = compact_one();
    fault_of(&file[..count.min(164)])
}

/// The fault of a table, and none where it is accepted.
fn fault_of(file: &[u8]) -> Option<CheckFault> {
    match check(Whole::new(file)) {
        Ok(_) => None,
        Err((_, fault)) => Some(fault),
    }
}

/// The fault of the file of bound 1 with one byte changed.
fn fault_with(place: usize, byte: u8) -> Option<CheckFault> {
    let mut file = bound_one();
    file[place.min(883)] = byte;
    fault_of(&file)
}

/// The fault of the file of bound 1 cut down to a number of bytes.
fn fault_of_front(count: usize) -> Option<CheckFault> {
    let file = bound_one();
    fault_of(&file[..count.min(884)])
}

/// The ace point, with so many checkers there.
fn aces(count: u8) -> Result<Position, Fail> {
    Ok(Position::new([count, 0, 0, 0, 0, 0])?)
}

/// The same with a second record of ones alone.
fn record_of_ones() -> [u8; 884]
    ensures { length result ≡ 884 }
{
    let mut file = [0xff; 884];
    file[..12].copy_from_slice(b"EPCTABLE\x00\x01\x00\x01");
    file[12..20].copy_from_slice(b"\x00\x00\x00\x02\x00\x00\x01\xaa");
    file[20..458].copy_from_slice(&[0; 438]);
    file[90..106].copy_from_slice(&WHOLE_BYTES);
    file
}

#[test]
fn damaged_files(rt: HostRuntime) {
    for (count, fault) in [
        (884, None),
        (883, Some(CheckFault::Header(HeaderFault::BadLength))),
        (32, Some(CheckFault::Header(HeaderFault::BadLength))),
        (31, Some(CheckFault::Header(HeaderFault::TooShort))),
        (0, Some(CheckFault::Header(HeaderFault::TooShort))),
    ] {
        assert_eq!(rt; fault_of_front(count), fault, "{count} bytes");
    }
    for (place, byte, fault, line) in [
        (
            0,
            0,
            CheckFault::Header(HeaderFault::BadMagic),
            "header bad-magic",
        ),
        (
            9,
            3,
            CheckFault::Header(HeaderFault::BadVersion),
            "header bad-version",
        ),
        (
            9,
            2,
            CheckFault::Header(HeaderFault::BadRecordBytes),
            "header bad-record-bytes",
        ),
        (
            11,
            45,
            CheckFault::Header(HeaderFault::BadBound),
            "header bad-bound",
        ),
        (
            15,
            3,
            CheckFault::Header(HeaderFault::BadCount),
            "header bad-count",
        ),
        (
            19,
            0xab,
            CheckFault::Header(HeaderFault::BadRecordBytes),
            "header bad-record-bytes",
        ),
        (
            31,
            1,
            CheckFault::Header(HeaderFault::BadReserved),
            "header bad-reserved",
        ),
        (473, 1, CheckFault::Mean { rank: 1 }, "mean rank 1"),
        (
            475,
            1,
            CheckFault::Play { rank: 1, roll: 0 },
            "play rank 1 roll 0",
        ),
        (
            474,
            0xff,
            CheckFault::Play { rank: 1, roll: 0 },
            "play rank 1 roll 0",
        ),
        (
            515,
            1,
            CheckFault::Play { rank: 1, roll: 20 },
            "play rank 1 roll 20",
        ),
        (
            883,
            1,
            CheckFault::Spread { rank: 1, k: 22 },
            "spread rank 1 k 22",
        ),
        (
            105,
            1,
            CheckFault::Spread { rank: 0, k: 0 },
            "spread rank 0 k 0",
        ),
        (47, 1, CheckFault::Mean { rank: 0 }, "mean rank 0"),
    ] {
        assert_eq!(rt; fault_with(place, byte), Some(fault), "byte {place}");
        assert_eq!(rt; fault_line(&fault).as_str(), line);
    }
    assert_eq!(rt; fault_line(&CheckFault::Read).as_str(), "read");
    assert_eq!(rt;
        fault_line(&CheckFault::NotLeast {
            rank: 65535,
            roll: 255
        })
        .as_str(),
        "not-least rank 65535 roll 255"
    );
}

#[test]
fn damaged_files_of_version_2(rt: HostRuntime) {
    assert_eq!(rt; compact_fault_of_front(164), None);
    for count in 0..164 {
        let fault = if count < 32 {
            HeaderFault::TooShort
        } else {
            HeaderFault::BadLength
        };
        let expected = Some(CheckFault::Header(fault));
        assert_eq!(rt; compact_fault_of_front(count), expected, "{count} bytes");
    }
    for (place, byte, fault) in [
        (9, 3, CheckFault::Header(HeaderFault::BadVersion)),
        (9, 1, CheckFault::Header(HeaderFault::BadRecordBytes)),
        (11, 59, CheckFault::Header(HeaderFault::BadBound)),
        (15, 3, CheckFault::Header(HeaderFault::BadCount)),
        (18, 1, CheckFault::Header(HeaderFault::BadRecordBytes)),
        (31, 1, CheckFault::Header(HeaderFault::BadReserved)),
        (47, 1, CheckFault::Mean { rank: 0 }),
        (49, 1, CheckFault::Play { rank: 0, roll: 0 }),
        (105, 1, CheckFault::Mean { rank: 1 }),
        (107, 1, CheckFault::Play { rank: 1, roll: 0 }),
        (147, 1, CheckFault::Play { rank: 1, roll: 20 }),
        (163, 1, CheckFault::Spread { rank: 1, k: 1 }),
    ] {
        assert_eq!(rt;
            compact_fault_with(place, byte),
            Some(fault),
            "byte {place}"
        );
    }
}

#[test]
fn the_version_and_the_answers_of_version_2(rt: HostRuntime) -> Result<(), Fail> {
    let (file, old) = (compact_one(), bound_one());
    let mut checked = accepted(Whole::new(&file))?;
    assert_eq!(rt;
        (checked.version(), checked.bound(), checked.positions()),
        (2, 1, 2)
    );
    let ace = aces(1)?;
    assert_eq!(rt; checked.scaled(&ace)?.numerator(), fixed_fraction::WHOLE);
    assert_eq!(rt; checked.spread(&ace)?.at(1), fixed_fraction::WHOLE);
    assert_eq!(rt; checked.spread(&aces(0)?)?.at(0), fixed_fraction::WHOLE);
    let checked = accepted(Whole::new(&old))?;
    assert_eq!(rt; checked.version(), 1);
    Ok(())
}

#[test]
fn a_record_of_ones(rt: HostRuntime) {
    let file = record_of_ones();
    let fault = CheckFault::Play { rank: 1, roll: 0 };
    assert_eq!(rt; fault_of(&file), Some(fault));
    assert_eq!(rt; (is_right(&file), is_right(&bound_one())), (false, true));
}

/// The board file of three pips, its bytes, and one with another version in its header: what is
/// right goes by the version that is stated.
#[test]
fn files_of_each_version(rt: HostRuntime) -> Result<(), Fail> {
    let mut room = [0; 2048];
    let count = build_board(3, &mut room).map_err(|_| "no board file")?;
    assert_eq!(rt; is_right(&room[..count]), true);
    assert_eq!(rt; is_right(&room[..count - 1]), false);
    room[9] = 2;
    assert_eq!(rt; is_right(&room[..count]), false);
    room[9] = 3;
    room[count - 1] ^= 1;
    assert_eq!(rt; is_right(&room[..count]), false);
    let mut file = bound_one();
    file[9] = 3;
    assert_eq!(rt; is_right(&file), false);
    Ok(())
}

#[test]
fn answers_of_bound_one(rt: HostRuntime) -> Result<(), Fail> {
    let file = bound_one();
    let mut checked = accepted(Whole::new(&file))?;
    assert_eq!(rt; (checked.bound(), checked.positions()), (1, 2));
    let (end, ace, two) = (aces(0)?, aces(1)?, aces(2)?);
    let roll = Roll::from_index(4).ok_or("no roll")?;
    assert_eq!(rt; checked.scaled(&ace)?.numerator(), fixed_fraction::WHOLE);
    let mean = checked.mean(&ace)?;
    assert_eq!(rt; (mean.numerator(), mean.denominator()), (1, 1));
    let pips = checked.epc(&ace)?;
    assert_eq!(rt; (pips.numerator(), pips.denominator()), (49, 6));
    assert_eq!(rt; checked.spread(&ace)?.at(1), fixed_fraction::WHOLE);
    let (play, to) = checked.play(&ace, roll)?;
    assert_eq!(rt; (write_play(&play).as_str(), to), ("1/off", end));
    assert_eq!(rt; checked.play(&end, roll).err(), Some(QueryFault::Finished));
    assert_eq!(rt; checked.play(&two, roll).err(), Some(QueryFault::OverBound));
    assert_eq!(rt; checked.scaled(&two).err(), Some(QueryFault::OverBound));
    let mut table = checked.into_table();
    assert_eq!(rt; table.header().map(|header| header.bound), Ok(1));
    Ok(())
}
