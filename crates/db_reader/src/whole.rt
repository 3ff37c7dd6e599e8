//! A table over the bytes of a whole database in memory.
ghost use Rattle.std.specs.Prelude.{◌≡◌, ℕ, ◌+◌, ◌*◌, ◌<◌, ◌≤◌, Some, None, List, length, take, IfOk, IfErr, OnOk};
ghost use Rattle.db_layout.specs.declared.header.Header.{Header as HeaderValue};
ghost use Rattle.race_model.specs.Prelude.{IsFile, bound_of, IsFirstHeaderFault};
ghost use Rattle.db_layout.specs.HeaderFaults.{test_of};
ghost use Rattle.db_reader.specs.Reads.{HasHeader, HasRecord};

use crate::front::header_of;
use crate::record::Record;
use crate::table::{ReadFault, Table, TableFault};
use db_layout::{COMPACT_VERSION, HEADER_BYTES, Header, Kind, RECORD_BYTES, RecordView};

/// The table over the bytes of a whole database, in memory that it borrows. It tells these bytes,
/// lends each record from them and copies none, and never fails.
#[derive(Drop)]
pub struct Whole<'a> {
    bytes: &'a [u8],
    header: Option<Header>,
    ghost fits: { (accepted : HeaderValue) → header ≡ Some accepted →
        HasHeader bytes.now accepted },
}

impl<'a> Whole<'a> {
    /// The table over these bytes, whatever they are. It has accepted no header.
    pub fn new(bytes: &'a [u8]) -> Self
        ensures tells { ⟦<Whole<'a> as Table>⟧.tells result ≡ Some bytes.now }
        ensures accepted { ⟦<Whole<'a> as Table>⟧.accepted result ≡ None }
    {
        Whole {
            bytes,
            header: None,
        }
    }
}

impl<'a> Table for Whole<'a> {
    ghost tells = { λ table. Some table.bytes.now };

    ghost failures = { λ table. 0 };

    ghost accepted = { λ table. table.header };

    ghost ready = { λ table bytes rank. HasRecord table.header rank };

    #[inline(always)]
    fn is_told(&self) -> bool {
        true
    }

    fn header(&mut self) -> Result<Header, TableFault> {
        self.header = None;
        let front = &self.bytes[..self.bytes.len().min(HEADER_BYTES)];
        match header_of(front, self.bytes.len() as u64) {
            Ok(header) => {
                self.header = Some(header);
                Ok(header)
            }
            Err(fault) => Err(fault),
        }
    }

    fn load(&mut self, _rank: u16, _room: &mut Record) -> Result<(), ReadFault> {
        Ok(())
    }

    fn lend<'b>(&'b self, rank: u16, _room: &'b Record) -> RecordView<'b> {
        let Some(header) = &self.header else {
            unreachable!();
        };
        if header.version != COMPACT_VERSION {
            let first = header.find_full(rank) as usize;
            let bytes = &self.bytes[first..first + RECORD_BYTES];
            return RecordView::of_version(bytes, header.version, 0).unwrap();
        }
        let place = Kind::Database.find(header.version, header.bound, rank);
        let first = place.offset as usize;
        let bytes = &self.bytes[first..first + place.length as usize];
        RecordView::of_version(bytes, header.version, place.pips).unwrap()
    }
}
