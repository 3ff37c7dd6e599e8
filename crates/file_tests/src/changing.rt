//! A file that changes after its check, or in it: what can't stand there any more is told as a
//! failed read.
ghost use Rattle.std.specs.Prelude.{None};

use crate::given::{accepted, database, pages, put};
use certificate::{CheckFault, Checked, QueryFault, UpgradeFault, check};
use db_reader::{FileSource, Paged, Source, SourceFault};
use epc_query::loss;
use home_board::Position;
use legal_plays::Roll;
use std::alloc::Global;
use std::rt::Files;
use std::test::Fail;
use std::{env, fs};

/// The database of 8 pips in a file at a path, which was accepted and of which some bytes then
/// changed.
fn changed<R: AllocGlobal + Files>(
    rt: &R,
    path: &str,
    place: usize,
    bytes: &[u8],
) -> Result<Checked<Paged<FileSource<R::File>>>, Fail> {
    let mut file = database(rt.alloc(), 8)?;
    fs::write(rt, path, file.as_slice())?;
    let source = FileSource::new(fs::open(rt, path)?);
    let checked = accepted(pages(rt.alloc(), source, 1)?)?;
    put(&mut file, place, bytes);
    fs::write(rt, path, file.as_slice())?;
    Ok(checked)
}

/// Where the record of two fours stands, whose roll 21 leads to two positions.
const FOURS: usize = 32 + 426 * 44;

/// Where the record of the worse of the two stands.
const WORSE: usize = 32 + 426 * 13;

#[test]
fn what_cannot_be_is_a_failed_read(rt: HostRuntime) -> Result<(), Fail> {
    let folder = env::temp_dir(&rt)?;
    let folder = folder.as_str();
    let path = format!(in rt.alloc(); "{folder}/garombyi-test-changes.db")?;
    let path = path.as_str();
    let fours = Position::new([0, 0, 0, 2, 0, 0])?;
    let worse = Position::new([0, 1, 1, 0, 0, 0])?;
    let roll = Roll::from_index(1).ok_or("no roll")?;
    let mut written = Vec::new(rt.alloc());

    // a mean of no roll, which is less than that after the recorded play
    let mut checked = changed(&rt, path, WORSE, &[0; 16])?;
    let lost = loss(&mut checked, &fours, roll, &worse);
    assert_eq!(rt; lost.err(), Some(QueryFault::Read));

    // a mean over 22 rolls
    let mut checked = changed(&rt, path, WORSE, &[255; 16])?;
    let lost = loss(&mut checked, &fours, roll, &worse);
    assert_eq!(rt; lost.err(), Some(QueryFault::Read));
    assert_eq!(rt; checked.scaled(&worse).err(), Some(QueryFault::Read));
    assert_eq!(rt; checked.upgrade(&mut written), Err(UpgradeFault::Read));

    // a share of no roll
    let mut checked = changed(&rt, path, WORSE + 58, &[1])?;
    assert_eq!(rt; checked.spread(&worse).err(), Some(QueryFault::Read));
    assert_eq!(rt; checked.upgrade(&mut written), Err(UpgradeFault::Read));

    // a play to where the roll doesn't lead
    let mut checked = changed(&rt, path, FOURS + 18, &[0, 0])?;
    assert_eq!(rt; checked.play(&fours, roll).err(), Some(QueryFault::Read));
    fs::remove_file(&rt, path)?;
    Ok(())
}

/// Bytes in memory as a source of which a byte at a place is 255 where it is read again.
#[derive(Drop)]
struct Changing<'a> {
    bytes: &'a [u8],
    place: u64,
    is_read: bool,
}

impl<'a> Source for Changing<'a> {
    ghost tells = { λ _. None };

    ghost failures = { λ _. 0 };

    fn length(&mut self) -> Result<u64, SourceFault> {
        Ok(self.bytes.len() as u64)
    }

    fn read_at(&mut self, offset: u64, into: &mut [u8]) -> Result<(), SourceFault> {
        let rest = self.bytes.get(offset as usize..).unwrap_or(&[]);
        let Some(found) = rest.get(..into.len()) else {
            return Err(SourceFault);
        };
        into.copy_from_slice(found);
        let Some(place) = self.place.checked_sub(offset) else {
            return Ok(());
        };
        if let Some(byte) = into.get_mut(place as usize) {
            if self.is_read {
                *byte = 255;
            }
            self.is_read = true;
        }
        Ok(())
    }
}

/// The fault of a check of the database of 8 pips by one page, where a byte of it changes.
fn fault_of_change(alloc: Global, place: u64) -> Result<Option<CheckFault>, Fail> {
    let file = database(alloc, 8)?;
    let source = Changing {
        bytes: file.as_slice(),
        place,
        is_read: false,
    };
    Ok(
        check(pages(alloc, source, 1)?)
            .err()
            .map(|refused| refused.1),
    )
}

#[test]
fn what_is_added_again_is_tested_again(rt: HostRuntime) -> Result<(), Fail> {
    let one = 32 + 426;
    // a mean over 22 rolls, a share of one roll over the whole, and one of 22 rolls
    for place in [one, one + 58 + 16, one + 58 + 16 * 22] {
        let fault = fault_of_change(rt.alloc(), place)?;
        assert_eq!(rt; fault, Some(CheckFault::Read));
    }
    // a play, which no sum needs
    let fault = fault_of_change(rt.alloc(), one + 16)?;
    assert_eq!(rt; fault, None);
    Ok(())
}
