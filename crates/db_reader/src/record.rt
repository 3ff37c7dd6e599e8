//! Room for the bytes of one record.
ghost use Rattle.std.specs.Prelude.{◌≡◌, ◌+◌, ◌≤◌, length, replicate, IsErr, OnOk};
ghost use Rattle.race_model.specs.Prelude.{version_by, record_length, bytes_at, told_record};
ghost use Rattle.db_reader.specs.Telling.{WhereTold};
ghost use Rattle.db_reader.specs.SourceStays.{SourceStays};

use crate::source::{Source, SourceFault};
use db_layout::{Place, RECORD_BYTES, RecordView, VERSION, record_length};
use std::marker::Model;

/// Room for the bytes of one record, which a table that copies records loads into. A table that
/// lends records from its own bytes leaves it alone.
#[derive(Drop)]
pub struct Record {
    bytes: [u8; RECORD_BYTES],
    version: u16,
    pips: u8,
}

// Clauses see the full record that the bytes tell: those in front, as many as the record has.
impl Model for Record {
    ghost use Rattle.std.specs.Prelude.{◌≡◌, ℕ, ◌≤◌, List, length, take};
    ghost use Rattle.race_model.specs.Prelude.{version_by, record_length, told_record};

    ghost Value = { List ℕ };

    ghost view = { λ room. told_record (version_by room.version) room.pips
        (take (record_length (version_by room.version) room.pips) room.bytes) };

    ghost invariant = { λ room. (length room.bytes ≡ 426) × (room.pips ≤ 58) };
}

impl Record {
    /// Room for one record, of zeros.
    pub fn new() -> Self
        ensures { result ≡ replicate 426 0 }
    {
        Record {
            bytes: [0; RECORD_BYTES],
            version: VERSION,
            pips: 0,
        }
    }

    /// Fills the buffer with the record at a place of the source, in one read. At a fault it may
    /// hold any bytes.
    pub(crate) fn read_from<S: Source>(
        &mut self,
        source: &mut S,
        version: u16,
        place: Place,
    ) -> Result<(), SourceFault>
        requires length { place.length ≡ record_length (version_by version) place.pips }
        requires low { place.pips ≤ 58 }
        requires inside { WhereTold (S.tells source.old)
            (λ file. place.offset + place.length ≤ length file) }
        ensures told { WhereTold (S.tells source.old)
            (λ file. OnOk result (self.new ≡ told_record (version_by version) place.pips
            (bytes_at file place.offset place.length))) }
        ensures stays { SourceStays ⟦<S as Source>⟧ source.old source.new (IsErr result) }
    {
        self.version = version;
        self.pips = place.pips;
        source.read_at(place.offset, &mut self.bytes[..place.length as usize])
    }

    /// Takes over the bytes of another room.
    pub(crate) fn copy_from(&mut self, other: &Record)
        ensures { self.new ≡ other.now }
    {
        self.bytes = other.bytes;
        self.version = other.version;
        self.pips = other.pips;
    }

    /// The record in this room.
    pub(crate) fn view(&self) -> RecordView<'_>
        ensures { result ≡ self.now }
    {
        let length = record_length(self.version, self.pips) as usize;
        RecordView::of_version(&self.bytes[..length], self.version, self.pips).unwrap()
    }
}
