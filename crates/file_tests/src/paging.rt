//! Databases that are read page by page: how often the source is read, and that the replies are
//! the same.
ghost use Rattle.std.specs.Prelude.{ℕ};

use crate::given::{accepted, assert_replies, compact_database, database, pages, put};
use certificate::{CheckFault, check};
use db_reader::trial::FailAt;
use db_reader::{
    FileSource, Paged, PagedFault, Record, SliceSource, Source, SourceFault, Table, TableFault,
    Whole,
};
use std::process::Abort;
use std::rt::Files;
use std::test::Fail;
use std::{env, fs};

/// Bytes in memory as a source that counts its reads: those of a record, and all others.
#[derive(Drop)]
struct Counting<'a> {
    source: SliceSource<'a>,
    records: u32,
    others: u32,
}

impl<'a> Counting<'a> {
    fn new(bytes: &'a [u8]) -> Self {
        Counting {
            source: SliceSource::new(bytes),
            records: 0,
            others: 0,
        }
    }
}

impl<'a> Source for Counting<'a> {
    ghost tells = { λ counting. ⟦<SliceSource<'a> as Source>⟧.tells counting.source };

    ghost failures = { λ _. 0 };

    fn length(&mut self) -> Result<u64, SourceFault> {
        self.source.length()
    }

    fn read_at(&mut self, offset: u64, into: &mut [u8]) -> Result<(), SourceFault> {
        if into.len() == 426 {
            self.records = self.records.saturating_add(1);
        } else {
            self.others = self.others.saturating_add(1);
        }
        self.source.read_at(offset, into)
    }
}

#[test]
fn a_record_is_read_once_where_there_is_room(rt: HostRuntime) -> Result<(), Fail> {
    let file = database(rt.alloc(), 8)?;
    let checked = accepted(pages(rt.alloc(), Counting::new(file.as_slice()), 64)?)?;
    let source = checked.into_table().into_source();
    assert_eq!(rt; source.records, 64);
    assert_eq!(rt; source.others, 1);
    let mut checked = accepted(pages(rt.alloc(), Counting::new(file.as_slice()), 64)?)?;
    assert_replies(&rt, &mut checked);
    let source = checked.into_table().into_source();
    assert_eq!(rt; source.records, 64);
    assert_eq!(rt; source.others, 1);
    let mut checked = accepted(pages(rt.alloc(), Counting::new(file.as_slice()), 1)?)?;
    assert_replies(&rt, &mut checked);
    let source = checked.into_table().into_source();
    assert!(rt; source.records > 64);
    Ok(())
}

/// Loads the record of a rank, where the table has one.
fn load<T: Table>(table: &mut T, rank: u16) -> Result<(), Fail> {
    let header = table.header()?;
    if rank < header.count {
        table.load(rank, &mut Record::new())?;
    }
    Ok(())
}

#[test]
fn the_records_used_last_are_kept(rt: HostRuntime) -> Result<(), Fail> {
    let file = database(rt.alloc(), 3)?;
    let mut table = pages(rt.alloc(), Counting::new(file.as_slice()), 2)?;
    // read are 0, 1, 2 in the place of 1, 1 in that of 2, and 2 in that of 0
    for rank in [0, 1, 0, 2, 0, 1, 2, 1] {
        load(&mut table, rank)?;
    }
    assert_eq!(rt; table.into_source().records, 5);
    Ok(())
}

#[test]
fn replies_do_not_depend_on_the_version(rt: HostRuntime) -> Result<(), Fail> {
    let file = compact_database(rt.alloc(), 8)?;
    assert_eq!(rt; file.len(), 7696);
    let mut checked = accepted(Whole::new(file.as_slice()))?;
    assert_eq!(rt; checked.version(), 2);
    assert_replies(&rt, &mut checked);
    for records in [1, 2, 64] {
        let source = SliceSource::new(file.as_slice());
        assert_replies(&rt, &mut accepted(pages(rt.alloc(), source, records)?)?);
    }
    Ok(())
}

#[test]
fn replies_do_not_depend_on_the_pages(rt: HostRuntime) -> Result<(), Fail> {
    let file = database(rt.alloc(), 8)?;
    assert_replies(&rt, &mut accepted(Whole::new(file.as_slice()))?);
    for records in [1, 2, 64, 65535] {
        let source = SliceSource::new(file.as_slice());
        assert_replies(&rt, &mut accepted(pages(rt.alloc(), source, records)?)?);
    }
    let source = SliceSource::new(file.as_slice());
    match Paged::new(rt.alloc(), source, 0) {
        Err((mut source, fault)) => {
            assert!(rt; fault == PagedFault::NoCapacity);
            assert_eq!(rt; source.length()?, 27296);
        }
        Ok(_) => return Err(Fail::from(PagedFault::NoCapacity)),
    }
    Ok(())
}

#[test]
fn a_trial_fails_at_its_call_alone(rt: HostRuntime) -> Result<(), Fail> {
    for call in 0..=5 {
        let mut source = FailAt::new(SliceSource::new(b"bytes"), call);
        for made in 1..=6 {
            let is_refused = if made % 2 == 0 {
                source.length().is_err()
            } else {
                source.read_at(0, &mut []).is_err()
            };
            assert_eq!(rt; is_refused, made == call);
        }
    }
    Ok(())
}

/// Asserts that a source over the file at a path answers its length and its bytes.
fn assert_source(
    rt: &(impl Abort + AllocGlobal + Files),
    path: &str,
    file: &[u8],
) -> Result<(), Fail> {
    let mut source = FileSource::new(fs::open(rt, path)?);
    assert_eq!(rt; source.length()?, file.len() as u64);
    let mut place: u64 = 0;
    for byte in file {
        let mut read = [0];
        source.read_at(place, &mut read)?;
        assert_eq!(rt; read[0], *byte);
        place = place.saturating_add(1);
    }
    assert!(rt; source.read_at(place, &mut [0]).is_err());
    accepted(pages(rt.alloc(), source, 3)?)?;
    Ok(())
}

#[test]
fn a_file_is_read_byte_for_byte(rt: HostRuntime) -> Result<(), Fail> {
    let folder = env::temp_dir(&rt)?;
    let folder = folder.as_str();
    let path = format!(in rt.alloc(); "{folder}/garombyi-test-pages.db")?;
    let path = path.as_str();
    let mut tied = database(rt.alloc(), 6)?;
    put(&mut tied, 32 + 426 * 21 + 18, &[0, 5]);
    for file in [tied, database(rt.alloc(), 8)?] {
        fs::write(&rt, path, file.as_slice())?;
        assert_source(&rt, path, file.as_slice())?;
    }
    fs::remove_file(&rt, path)?;
    Ok(())
}
