//! A table over a source that is read record by record, with the latest kept in a cache.
ghost use Rattle.std.specs.Prelude.{◌≡◌, ◌≢◌, ℕ, ◌<◌, ◌↔◌, List, Some, None, Contains, Err, IsOk, IsErr, IfOk, IfErr};
ghost use Rattle.race_model.specs.Prelude.{record_at};
ghost use Rattle.db_layout.specs.declared.header.Header.{Header as HeaderValue};
ghost use Rattle.db_reader.specs.Telling.{WhereTold};
ghost use Rattle.db_reader.specs.Reads.{HasHeader, IsHeaderOf};
ghost use Rattle.db_reader.specs.SourceStays.{SourceStays};

use crate::front::header_of;
use crate::record::Record;
use crate::source::{Source, SourceFault};
use crate::table::{ReadFault, Table, TableFault};
use db_layout::{HEADER_BYTES, Header, Kind, RecordView};
use lru::{DefaultHasher, LruCache};
use std::alloc::{Allocator, Global};
use std::num::NonZeroUsize;
use thiserror::Error;

/// Why a paged table can't be made, in the order of the tests.
#[derive(Clone, Copy, Debug, PartialEq, Eq, Error)]
pub enum PagedFault {
    /// It would hold no record.
    #[error("no capacity")]
    NoCapacity,

    /// There was not enough memory.
    #[error("out of memory")]
    Memory,
}

/// A table over a source of bytes that caches the records used last. A record that is wanted and
/// not there is read in one read, and kept unless a growth of memory for it is refused: then the
/// answer stands all the same. It tells the bytes that the source tells, and fails where the
/// source does.
#[derive(Drop)]
pub struct Paged<S: Source, A: Allocator = Global> {
    source: S,
    header: Option<Header>,
    records: LruCache<u16, Record, DefaultHasher, A>,
    ghost fits: { (file : List ℕ) (accepted : HeaderValue) → S.tells source ≡ Some file →
        header ≡ Some accepted → HasHeader file accepted },
    ghost kept: { (file : List ℕ) (rank : ℕ) (bytes : List ℕ) → S.tells source ≡ Some file →
        Contains records.entries (rank, bytes) → bytes ≡ record_at file rank },
}

impl<S: Source, A: Allocator + Clone> Paged<S, A> {
    /// The table over a source, with room for so many records. It has accepted no header. Refused
    /// as `NoCapacity` exactly where that is none, and else as `Memory` for want of memory alone;
    /// the source is handed back.
    pub fn new(alloc: A, source: S, capacity: u16) -> Result<Self, (S, PagedFault)>
        ensures tells { IfOk result
            (λ table. ⟦<Paged<S, A> as Table>⟧.tells table ≡ S.tells source) }
        ensures failures { IfOk result
            (λ table. ⟦<Paged<S, A> as Table>⟧.failures table ≡ S.failures source) }
        ensures accepted { IfOk result (λ table. ⟦<Paged<S, A> as Table>⟧.accepted table ≡ None) }
        ensures some { IsOk result → capacity ≢ 0 }
        ensures back { IfErr result (λ refused. refused.0 ≡ source) }
        ensures none { IfErr result
            (λ refused. (refused.1 ≡ PagedFault.NoCapacity) ↔ (capacity ≡ 0)) }
    {
        let Some(count) = NonZeroUsize::new(usize::from(capacity)) else {
            return Err((source, PagedFault::NoCapacity));
        };
        match LruCache::new(alloc, count) {
            Ok(records) => Ok(Paged {
                source,
                header: None,
                records,
            }),
            Err(_) => Err((source, PagedFault::Memory)),
        }
    }

    /// The source, which tells the same bytes and has failed as often.
    pub fn into_source(self) -> S
        ensures tells { ⟦<Paged<S, A> as Table>⟧.tells self ≡ S.tells result }
        ensures failures { ⟦<Paged<S, A> as Table>⟧.failures self ≡ S.failures result }
    {
        let Paged { source, .. } = self;
        source
    }
}

impl<S: Source, A: Allocator + Clone> Table for Paged<S, A> {
    ghost tells = { λ table. S.tells table.source };

    ghost failures = { λ table. S.failures table.source };

    ghost accepted = { λ table. table.header };

    ghost ready = { λ table bytes rank.
        WhereTold (S.tells table.source) (λ file. bytes ≡ record_at file rank) };

    fn header(&mut self) -> Result<Header, TableFault> {
        self.header = None;
        let header = read_header(&mut self.source)?;
        self.header = Some(header);
        Ok(header)
    }

    fn load(&mut self, rank: u16, room: &mut Record) -> Result<(), ReadFault> {
        if let Some(kept) = self.records.get(&rank) {
            room.copy_from(kept);
            return Ok(());
        }
        let Some(header) = &self.header else {
            unreachable!();
        };
        let Ok(read) = read_record(&mut self.source, *header, rank) else {
            return Err(ReadFault);
        };
        room.copy_from(&read);
        let _ = self.records.put(rank, read);
        Ok(())
    }

    fn lend<'a>(&'a self, _rank: u16, room: &'a Record) -> RecordView<'a> {
        room.view()
    }
}

/// The header of the bytes of a source, or its first fault.
fn read_header<S: Source>(source: &mut S) -> Result<Header, TableFault>
    ensures told { WhereTold (S.tells source.old) (λ file. IsHeaderOf file result) }
    ensures stays { SourceStays ⟦<S as Source>⟧ source.old source.new
        (result ≡ Err TableFault.Read) }
{
    let Ok(length) = source.length() else {
        return Err(TableFault::Read);
    };
    let mut front = [0; HEADER_BYTES];
    let known = &mut front[..length.min(HEADER_BYTES as u64) as usize];
    if source.read_at(0, known).is_err() {
        return Err(TableFault::Read);
    }
    header_of(known, length)
}

/// Reads the record of a rank in one read of the source.
fn read_record<S: Source>(source: &mut S, header: Header, rank: u16) -> Result<Record, SourceFault>
    requires rank { rank < header.count }
    requires file { WhereTold (S.tells source.old) (λ file. HasHeader file header) }
    ensures told { WhereTold (S.tells source.old)
        (λ file. IfOk result (λ read. read ≡ record_at file rank)) }
    ensures stays { SourceStays ⟦<S as Source>⟧ source.old source.new (IsErr result) }
{
    let mut read = Record::new();
    let place = Kind::Database.find(header.version, header.bound, rank);
    read.read_from(source, header.version, place)?;
    Ok(read)
}
