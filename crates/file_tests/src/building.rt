//! What the builder writes: the bytes and the means are those of an independent count with exact
//! numbers. Writers that stop are those of `failing_calls`.
use crate::given::{WHOLE_BYTES, compact_database, database};
use db_layout::{COMPACT_VERSION, Header, Kind, RecordView, VERSION};
use db_reader::refused_writes::RefuseAt;
use fixed_fraction::{Scaled, WHOLE};
use home_board::Position;
use legal_plays::parse_roll;
use ranking::Ranks;
use retrograde::{BuildFault, Means, best_play, build, build_compact, build_in_room};
use std::alloc::{AllocError, Global};
use std::test::Fail;

/// Bytes, each followed by so many zeros.
fn with_zeros(alloc: Global, parts: &[(&[u8], u16)]) -> Result<Vec<u8>, AllocError> {
    let mut bytes = Vec::new(alloc);
    for (part, zeros) in parts {
        bytes.extend_from_slice(part)?;
        for _ in 0..*zeros {
            bytes.push(0)?;
        }
    }
    Ok(bytes)
}

#[test]
fn bytes_of_0_and_1(rt: HostRuntime) -> Result<(), Fail> {
    let zero = with_zeros(
        rt.alloc(),
        &[
            (
                b"EPCTABLE\x00\x01\x00\x00\x00\x00\x00\x01\x00\x00\x01\xaa",
                12 + 58,
            ),
            (&WHOLE_BYTES, 352),
        ],
    )?;
    let mut written = Vec::new(rt.alloc());
    assert_eq!(rt; build(rt.alloc(), 0, &mut written), Ok(()));
    assert_eq!(rt; written.as_slice(), zero.as_slice());

    let one = with_zeros(
        rt.alloc(),
        &[
            (
                b"EPCTABLE\x00\x01\x00\x01\x00\x00\x00\x02\x00\x00\x01\xaa",
                12 + 58,
            ),
            (&WHOLE_BYTES, 352),
            (&WHOLE_BYTES, 42 + 16),
            (&WHOLE_BYTES, 336),
        ],
    )?;
    let mut slow = RefuseAt::never(rt.alloc(), 1);
    assert_eq!(rt; build(rt.alloc(), 1, &mut slow), Ok(()));
    assert_eq!(rt; slow.written.as_slice(), one.as_slice());
    Ok(())
}

#[test]
fn bytes_of_compact_0_and_1(rt: HostRuntime) -> Result<(), Fail> {
    let zero = with_zeros(
        rt.alloc(),
        &[(
            b"EPCTABLE\x00\x02\x00\x00\x00\x00\x00\x01\x00\x00\x00\x00",
            12 + 58,
        )],
    )?;
    let mut written = Vec::new(rt.alloc());
    assert_eq!(rt; build_compact(rt.alloc(), 0, &mut written), Ok(()));
    assert_eq!(rt; written.as_slice(), zero.as_slice());

    let one = with_zeros(
        rt.alloc(),
        &[
            (
                b"EPCTABLE\x00\x02\x00\x01\x00\x00\x00\x02\x00\x00\x00\x00",
                12 + 58,
            ),
            (&WHOLE_BYTES, 42),
            (&WHOLE_BYTES, 0),
        ],
    )?;
    let mut slow = RefuseAt::never(rt.alloc(), 1);
    assert_eq!(rt; build_compact(rt.alloc(), 1, &mut slow), Ok(()));
    assert_eq!(rt; slow.written.as_slice(), one.as_slice());
    Ok(())
}

#[test]
fn over_the_greatest_bound(rt: HostRuntime) {
    let mut bytes = Vec::new(rt.alloc());
    for bound in [59, 255] {
        assert_eq!(rt;
            build(rt.alloc(), bound, &mut bytes),
            Err(BuildFault::OverBound)
        );
        assert_eq!(rt;
            build_compact(rt.alloc(), bound, &mut bytes),
            Err(BuildFault::OverBound)
        );
        assert_eq!(rt; bytes.len(), 0);
    }
}

// 8 pips is the most for which there are few rows and means.
#[test]
fn rooms_that_are_lent(rt: HostRuntime) -> Result<(), Fail> {
    for (version, bound) in [(1, 0), (1, 8), (1, 9), (2, 0), (2, 8), (2, 9)] {
        let header = Header::new(version, bound).ok_or("no header")?;
        let file = if version == VERSION {
            database(rt.alloc(), bound)?
        } else {
            compact_database(rt.alloc(), bound)?
        };
        let count = file.len();
        let mut lent = [7; 50000];
        let (room, _) = lent.split_at_mut((count + 1).min(50000));
        let (small, _) = room.split_at_mut(count.min(room.len()));
        let (small, _) = small.split_at_mut(count.saturating_sub(1).min(small.len()));
        let mut held = [9; 50000];
        let (work, _) = held.split_at_mut(count.min(50000));
        assert_eq!(rt; build_in_room(&header, work, small), None);
        assert!(rt; small.iter().all(|byte| *byte == 7));
        let (short, _) = work.split_at_mut(count.saturating_sub(1).min(work.len()));
        assert_eq!(rt; build_in_room(&header, short, room), None);
        assert!(rt; room.iter().all(|byte| *byte == 7));
        assert_eq!(rt; build_in_room(&header, work, room), Some(count));
        assert!(rt; room.starts_with(file.as_slice()));
        assert_eq!(rt; room.last(), Some(&7));
    }
    Ok(())
}

/// The recorded mean of a rank, in a database with this header.
fn mean_at(file: &[u8], header: Header, rank: u16) -> Option<u128> {
    if rank >= header.count {
        return None;
    }
    let place = Kind::Database.find(header.version, header.bound, rank);
    let bytes = file.get(place.offset as usize..)?;
    let bytes = bytes.get(..place.length as usize)?;
    RecordView::of(bytes, &header, place.pips).map(|record| record.mean())
}

#[test]
fn means_to_6_pips(rt: HostRuntime) -> Result<(), Fail> {
    let file = database(rt.alloc(), 6)?;
    assert_eq!(rt; file.len(), 12812);
    let header = Header::new(VERSION, 6).ok_or("no header")?;
    let compact_file = compact_database(rt.alloc(), 6)?;
    assert_eq!(rt; compact_file.len(), 3228);
    let compact_header = Header::new(COMPACT_VERSION, 6).ok_or("no header")?;
    for (rank, numerator, denominator) in [
        (0, 0u8, 1),
        (1, 1, 1),
        (2, 1, 1),
        (3, 1, 1),
        (4, 1, 1),
        (5, 1, 1),
        (6, 11, 6),
        (7, 19, 18),
        (8, 23, 18),
        (9, 19, 18),
        (10, 11, 6),
        (11, 11, 6),
        (12, 41, 36),
        (13, 47, 36),
        (14, 43, 36),
        (15, 67, 36),
        (16, 67, 36),
        (17, 67, 36),
        (18, 97, 36),
        (19, 5, 4),
        (20, 55, 36),
        (21, 49, 36),
        (22, 67, 36),
        (23, 49, 36),
        (24, 67, 36),
        (25, 67, 36),
        (26, 67, 36),
        (27, 209, 108),
        (28, 97, 36),
        (29, 97, 36),
    ] {
        let mean = mean_at(file.as_slice(), header, rank).ok_or("no record")?;
        let expected = u128::from(numerator) * WHOLE;
        assert_eq!(rt;
            mean.checked_mul(denominator),
            Some(expected),
            "rank {rank}"
        );
        let compact = mean_at(compact_file.as_slice(), compact_header, rank);
        assert_eq!(rt; compact, Some(mean), "rank {rank}");
    }
    Ok(())
}

#[test]
fn fifteen_checkers_on_point_1(rt: HostRuntime) -> Result<(), Fail> {
    let file = database(rt.alloc(), 15)?;
    let rank = Ranks::new().rank(&Position::new([15, 0, 0, 0, 0, 0])?);
    let header = Header::new(VERSION, 15).ok_or("no header")?;
    let mean = mean_at(file.as_slice(), header, rank);
    assert_eq!(rt; mean, Some(WHOLE / 279936 * 1953839));
    Ok(())
}

// The means of the ranks 0 to 6, of which the last is 11/6.
#[test]
fn means_to_rank_6(rt: HostRuntime) -> Result<(), Fail> {
    let mut means = Means::new(rt.alloc());
    let last = 11 * (WHOLE / 6);
    for numerator in [0, WHOLE, WHOLE, WHOLE, WHOLE, WHOLE, last] {
        assert!(rt; means.len() < 7);
        means.push(Scaled::new(numerator).ok_or("over 22 rolls")?)?;
    }
    assert_eq!(rt; means.len(), 7);
    assert_eq!(rt; means.get(6).map(Scaled::numerator), Some(last));
    assert_eq!(rt; means.get(7), None);
    Ok(())
}

// The results of 21 are those of ranks 13 and 14, with the means 47/36 and 43/36.
#[test]
fn two_checkers_on_point_4(rt: HostRuntime) -> Result<(), Fail> {
    let mut means = Means::new(rt.alloc());
    for rank in 0..45u16 {
        let turns = if rank == 13 { 47 } else { 43 };
        assert!(rt; means.len() < 100);
        means.push(Scaled::new(WHOLE / 36 * turns).ok_or("over 22 rolls")?)?;
    }
    let position = Position::new([0, 0, 0, 2, 0, 0])?;
    let roll = parse_roll(b"21").ok_or("no roll")?;
    assert!(rt; Ranks::new().first_of(position.pips()) <= means.len());
    assert_eq!(rt; best_play(&position, roll, &means), 14);
    Ok(())
}
