//! Old files that are written again as new ones. Writers that stop are those of `failing_calls`.
use crate::given::{accepted, assert_replies, compact_database, database, failing, pages};
use certificate::{CheckFault, UpgradeFault, check};
use db_reader::{SliceSource, Whole};
use std::test::Fail;

#[test]
fn each_read_that_fails_once(rt: HostRuntime) -> Result<(), Fail> {
    let file = database(rt.alloc(), 3)?;
    let whole = compact_database(rt.alloc(), 3)?;
    let mut failed = 0u8;
    for call in 1..200 {
        let table = failing(rt.alloc(), file.as_slice(), 1, call)?;
        match check(table) {
            Err((_table, fault)) => assert!(rt; fault == CheckFault::Read),
            Ok(mut checked) => {
                let mut written = Vec::new(rt.alloc());
                if checked.upgrade(&mut written) == Err(UpgradeFault::Read) {
                    failed = failed.saturating_add(1);
                    assert!(rt; written.len() < 614);
                    assert!(rt; whole.as_slice().starts_with(written.as_slice()));
                    written.clear();
                    assert!(rt; checked.upgrade(&mut written) == Ok(()));
                }
                assert!(rt; written.as_slice() == whole.as_slice());
            }
        }
    }
    // of seven records the first is still there from the check
    assert_eq!(rt; failed, 6);
    Ok(())
}

#[test]
fn a_new_file_is_not_written_again(rt: HostRuntime) -> Result<(), Fail> {
    let file = compact_database(rt.alloc(), 8)?;
    let mut checked = accepted(Whole::new(file.as_slice()))?;
    let mut written = Vec::new(rt.alloc());
    assert!(rt; checked.upgrade(&mut written) == Err(UpgradeFault::NotOld));
    assert_eq!(rt; written.len(), 0);
    Ok(())
}

#[test]
fn pages_are_upgraded_too(rt: HostRuntime) -> Result<(), Fail> {
    let file = database(rt.alloc(), 8)?;
    let whole = compact_database(rt.alloc(), 8)?;
    for records in [1, 64] {
        let source = SliceSource::new(file.as_slice());
        let mut checked = accepted(pages(rt.alloc(), source, records)?)?;
        let mut written = Vec::new(rt.alloc());
        assert!(rt; checked.upgrade(&mut written) == Ok(()));
        assert!(rt; written.as_slice() == whole.as_slice());
        assert_replies(&rt, &mut accepted(Whole::new(written.as_slice()))?);
    }
    Ok(())
}
