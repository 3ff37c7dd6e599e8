//! Headers and records that are written. Writers that stop are those of `failing_calls`.
use db_layout::{Header, RecordView, write_header, write_record};
use fixed_fraction::{Scaled, Spread, WHOLE};
use legal_plays::Roll;
use std::test::Fail;

#[test]
fn header_of_44_pips(rt: HostRuntime) -> Result<(), Fail> {
    let header = Header::new(1, 44).ok_or("no header")?;
    let mut bytes = Vec::new(rt.alloc());
    assert!(rt; write_header(&header, &mut bytes).is_ok());
    let expected =
        *b"EPCTABLE\x00\x01\x00\x2c\x00\x00\x66\xca\x00\x00\x01\xaa\0\0\0\0\0\0\0\0\0\0\0\0";
    assert_eq!(rt; bytes.as_slice(), expected.as_slice());
    Ok(())
}

#[test]
fn a_record_read_again(rt: HostRuntime) -> Result<(), Fail> {
    let header = Header::new(1, 44).ok_or("no header")?;
    let mean = Scaled::new(12345678901234567890).ok_or("over 22 rolls")?;
    let mut plays = [0; 21];
    plays[1] = 258;
    plays[20] = 54263;
    let mut bytes = Vec::new(rt.alloc());
    assert!(rt; write_record(&header, 0, mean, &plays, &Spread::finished(), &mut bytes).is_ok());
    let seen = RecordView::of(bytes.as_slice(), &header, 0).ok_or("no record")?;
    for (index, play) in [(0, 0), (1, 258), (19, 0), (20, 54263)] {
        let roll = Roll::from_index(index).ok_or("no roll")?;
        assert_eq!(rt; seen.play(roll), play);
    }
    assert_eq!(rt;
        (seen.mean(), seen.spread(0), seen.spread(22)),
        (12345678901234567890, WHOLE, 0)
    );
    Ok(())
}

#[test]
fn compact_records(rt: HostRuntime) -> Result<(), Fail> {
    let header = Header::new(2, 58).ok_or("no header")?;
    let mut bytes = Vec::new(rt.alloc());
    assert!(rt; write_header(&header, &mut bytes).is_ok());
    let expected =
        *b"EPCTABLE\x00\x02\x00\x3a\x00\x00\xb3\xee\x00\x00\x00\x00\0\0\0\0\0\0\0\0\0\0\0\0";
    assert_eq!(rt; bytes.as_slice(), expected.as_slice());

    let mean = Scaled::new(0).ok_or("over 22 rolls")?;
    let whole = Spread::finished();
    let mut bytes = Vec::new(rt.alloc());
    assert!(rt; write_record(&header, 0, mean, &[0; 21], &whole, &mut bytes).is_ok());
    assert_eq!(rt; bytes.as_slice(), [0; 58].as_slice());
    let seen = RecordView::of(bytes.as_slice(), &header, 0).ok_or("no record")?;
    assert_eq!(rt; seen.spread(0), WHOLE);
    Ok(())
}
