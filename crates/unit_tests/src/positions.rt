//! Positions and their text.
use home_board::{Position, PositionFault, TooMany, parse_position, write_position};
use std::test::Fail;

#[test]
fn refuses_more_than_fifteen_checkers(rt: HostRuntime) {
    for counts in [[255; 6], [0, 0, 0, 0, 0, 16], [1, 0, 0, 0, 0, 15]] {
        assert_eq!(rt; Position::new(counts), Err(TooMany));
    }
}

#[test]
fn numbers_of_positions(rt: HostRuntime) -> Result<(), Fail> {
    for (counts, checkers, pips, highest) in [
        ([0, 0, 0, 0, 0, 0], 0, 0, 0),
        ([1, 0, 0, 0, 0, 0], 1, 1, 1),
        ([0, 0, 0, 0, 4, 4], 8, 44, 6),
        ([9, 0, 0, 0, 1, 5], 15, 44, 6),
        ([0, 0, 0, 0, 0, 15], 15, 90, 6),
    ] {
        let position = Position::new(counts)?;
        assert_eq!(rt;
            (position.checkers(), position.pips(), position.highest()),
            (checkers, pips, highest)
        );
        assert_eq!(rt; position.is_finished(), checkers == 0);
        assert_eq!(rt;
            [0, 1, 6, 7].map(|point| position.count(point)),
            [0, counts[0], counts[5], 0]
        );
    }
    Ok(())
}

#[test]
fn order_of_ranks(rt: HostRuntime) -> Result<(), Fail> {
    assert_eq!(rt; Position::default(), Position::EMPTY);
    let mut earlier = Position::EMPTY;
    for counts in [
        [1, 0, 0, 0, 0, 0],
        [0, 1, 0, 0, 0, 0],
        [2, 0, 0, 0, 0, 0],
        [0, 0, 1, 0, 0, 0],
        [1, 1, 0, 0, 0, 0],
        [3, 0, 0, 0, 0, 0],
        [0, 0, 0, 1, 0, 0],
    ] {
        let later = Position::new(counts)?;
        assert!(rt; earlier < later);
        earlier = later;
    }
    Ok(())
}

#[test]
fn refused_texts(rt: HostRuntime) {
    let rows: [(&[u8], PositionFault); 10] = [
        (b"0,0,0,0,0,16", PositionFault::TooMany),
        (b"999,0,0,0,0,0", PositionFault::TooMany),
        (b"0,0,0,0,0,1000", PositionFault::BadText),
        (b"01,0,0,0,0,0", PositionFault::BadText),
        (b"0,0,0,0,0,", PositionFault::BadText),
        (b"0,0,0,0,0", PositionFault::BadText),
        (b"0,0,0,0,0,0,0", PositionFault::BadText),
        (b"0, 0,0,0,0,0", PositionFault::BadText),
        (b"-1,0,0,0,0,0", PositionFault::BadText),
        (b"", PositionFault::BadText),
    ];
    for (text, fault) in rows {
        assert_eq!(rt; parse_position(text), Err(fault));
    }
}

#[test]
fn round_trips(rt: HostRuntime) -> Result<(), Fail> {
    for (text, counts) in [
        ("0,0,0,0,0,0", [0, 0, 0, 0, 0, 0]),
        ("0,0,0,2,0,0", [0, 0, 0, 2, 0, 0]),
        ("1,2,3,4,5,0", [1, 2, 3, 4, 5, 0]),
        ("15,0,0,0,0,0", [15, 0, 0, 0, 0, 0]),
        ("0,0,0,0,0,15", [0, 0, 0, 0, 0, 15]),
    ] {
        let position = Position::new(counts)?;
        assert_eq!(rt; parse_position(text.as_bytes())?, position);
        assert_eq!(rt; write_position(&position).as_str(), text);
    }
    Ok(())
}
