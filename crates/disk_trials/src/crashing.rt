//! What a crash leaves of a file that is written on a disk in memory.
use crate::MemoryDisk;
use std::alloc::Global;
use std::io::Write;
use std::test::Fail;
use whole_file::{Disk, DraftFault, Made, begin};

/// So many calls are more than any of these runs makes.
const MANY: u64 = 1000;

/// Each file of these runs has a smaller number.
const FILES: u64 = 60;

/// A disk whose file `f` has the bytes `old`, which no crash takes away.
fn with_old(alloc: Global) -> Result<MemoryDisk, Fail> {
    let mut disk = MemoryDisk::new(alloc, MANY);
    if let Made::File(mut file) = disk.create("f", 0o600)? {
        file.write_all(b"old")?;
        disk.settle(file, "f")?;
    }
    disk.settle_names("./")?;
    Ok(disk)
}

/// Writes the bytes `new` into `f`.
fn write_new(disk: &mut MemoryDisk, alloc: Global) -> Result<(), DraftFault> {
    let mut draft = begin(disk, alloc, "f")?;
    let written = match draft.writer.write_all(b"new") {
        Ok(()) => Ok(()),
        Err(_) => Err(DraftFault::Write),
    };
    draft.finish(disk, written)
}

/// Begins eight files at `f`, as many runs would, hands each its bytes, a byte after another in
/// turn, and ends each. Whether all were put there; none where a crash after any of these could
/// leave something else than the old bytes or the new ones.
fn write_eight(disk: &mut MemoryDisk, alloc: Global) -> Result<Option<bool>, Fail> {
    let mut are_put = true;
    let mut drafts = Vec::new(alloc);
    for _run in 0..8 {
        match begin(disk, alloc, "f") {
            Ok(draft) => drafts.push(draft)?,
            Err(_) => are_put = false,
        }
        if !is_whole(disk) {
            return Ok(None);
        }
    }
    for byte in b"new".as_slice() {
        for draft in drafts.iter_mut() {
            draft.writer.write_all(&[*byte])?;
        }
    }
    for _run in 0..8 {
        if let Some(draft) = drafts.pop() {
            if draft.finish(disk, Ok(())).is_err() {
                are_put = false;
            }
        }
        if !is_whole(disk) {
            return Ok(None);
        }
    }
    Ok(Some(are_put))
}

/// Whether each crash leaves a file at `f` whose bytes are sure, and the old or the new ones.
fn is_whole(disk: &MemoryDisk) -> bool {
    if disk.may_leave("f", None) {
        return false;
    }
    for file in 0..FILES {
        if disk.may_leave("f", Some(file)) {
            match disk.sure(file) {
                Some(bytes) => {
                    if bytes != b"old".as_slice() && bytes != b"new".as_slice() {
                        return false;
                    }
                }
                None => return false,
            }
        }
    }
    true
}

#[test]
fn a_crash_at_any_call_leaves_the_old_bytes_or_the_new_ones(rt: HostRuntime) -> Result<(), Fail> {
    let mut ended = false;
    for calls in 0..20 {
        let mut disk = with_old(rt.alloc())?;
        assert!(rt; is_whole(&disk));
        disk.stop_after(calls);
        ended = write_new(&mut disk, rt.alloc()).is_ok();
        assert!(rt; is_whole(&disk));
    }
    assert!(rt; ended);
    Ok(())
}

#[test]
fn eight_runs_at_once_leave_the_old_bytes_or_the_new_ones(rt: HostRuntime) -> Result<(), Fail> {
    let mut are_put = None;
    for calls in 0..120 {
        let mut disk = with_old(rt.alloc())?;
        disk.stop_after(calls);
        are_put = write_eight(&mut disk, rt.alloc())?;
        assert!(rt; are_put != None);
    }
    assert!(rt; are_put == Some(true));
    Ok(())
}

#[test]
fn a_name_that_is_given_before_the_bytes_are_sure_is_found(rt: HostRuntime) -> Result<(), Fail> {
    let mut disk = with_old(rt.alloc())?;
    if let Made::File(mut file) = disk.create("g", 0o600)? {
        file.write_all(b"new")?;
    }
    assert!(rt; is_whole(&disk));
    disk.rename("g", "f")?;
    assert!(rt; !is_whole(&disk));
    Ok(())
}

#[test]
fn an_old_file_that_is_taken_away_first_is_found(rt: HostRuntime) -> Result<(), Fail> {
    let mut disk = with_old(rt.alloc())?;
    disk.remove("f")?;
    assert!(rt; !is_whole(&disk));
    Ok(())
}
