//! Bytes that somebody lends, and the records in them. All that is known of the bytes here is how
//! many they are: each place is found by the version and the bound that are kept beside them, so
//! no place depends on what the bytes are.
ghost use Rattle.std.specs.Prelude.{◌≡◌, ◌+◌, ◌<◌, ◌≤◌, length};
ghost use Rattle.race_model.specs.Prelude.{pips as pips_of, at_rank, count_to, version_by, greatest_bound};
ghost use Rattle.race_model.specs.Prelude.{record_length as length_of, bytes_at, record_place, told_record};
ghost use Rattle.epc_query.specs.Opened.{record_in};

use db_layout::{Kind, RecordView, record_length};

/// Bytes that somebody lends, at least as many as a file of a version and a bound has. No fact is
/// kept of what they are, and no function asks for one.
#[derive(Drop)]
pub struct LentRecords<'a> {
    /// The bytes, as many as they were when they were checked, whatever they are by now.
    pub bytes: &'a [u8],

    /// The version of the file that they were.
    pub version: u16,

    /// The pip bound of the file that they were.
    pub bound: u8,

    pub ghost low: { bound ≤ greatest_bound (version_by version) },
    pub ghost sized: { record_place (version_by version) (count_to bound) ≤ length bytes.now },
}

impl<'a> LentRecords<'a> {
    /// What stands for the record of a rank that the file has, whose pip count is known.
    pub fn record_at(&self, pips: u8, rank: u16) -> RecordView<'a>
        requires pips { pips ≡ pips_of (at_rank rank) }
        requires rank { rank < count_to self.now.bound }
        ensures { result ≡ record_in (version_by self.now.version) self.now.bytes.now rank }
    {
        self.at(pips, Kind::Database.offset_of(self.version, pips, rank))
    }

    /// What stands for a record of a position of so many pips at a place within the bytes.
    fn at(&self, pips: u8, offset: u64) -> RecordView<'a>
        requires low { pips ≤ 58 }
        requires inside { offset + length_of (version_by self.now.version) pips
            ≤ length self.now.bytes.now }
        ensures { result ≡ told_record (version_by self.now.version) pips
            (bytes_at self.now.bytes.now offset (length_of (version_by self.now.version) pips)) }
    {
        let start = offset as usize;
        let bytes = &self.bytes[start..start + record_length(self.version, pips) as usize];
        RecordView::of_version(bytes, self.version, pips).unwrap()
    }
}
