//! A table of records, wherever its bytes are.
ghost use Rattle.std.specs.Prelude.{◌≡◌, ℕ, ◌<◌, List, Option, Err, IsErr, OnOk, IsTrue, IsSome};
ghost use Rattle.race_model.specs.Prelude.{record_at};
ghost use Rattle.db_layout.specs.declared.header.Header.{Header as HeaderValue};
ghost use Rattle.db_reader.specs.Telling.{WhereTold, RoseWhere};
ghost use Rattle.db_reader.specs.Reads.{IsHeaderOf, accepted_by, HasRecord};

use crate::record::Record;
use db_layout::{Header, HeaderFault, RecordView};
use thiserror::Error;

/// Why a table answers no header.
#[derive(Clone, Copy, Debug, PartialEq, Eq, Error)]
pub enum TableFault {
    /// What stands there is no database: the first fault of the header.
    #[error("the header has a fault")]
    Bad(HeaderFault),

    /// It could not be read.
    #[error("the header could not be read")]
    Read,
}

/// A record could not be read.
#[derive(Clone, Copy, Debug, PartialEq, Eq, Error)]
#[error("the record could not be read")]
pub struct ReadFault;

/// Where the header and the records of a database are read.
///
/// A table that tells its bytes answers the header and the records of these bytes, and a call
/// answers that it could not be read exactly where the count of failures rose in it. Of a table
/// that tells nothing, as one over a file, no answer is promised. A new table has accepted no
/// header.
pub trait Table {
    // the bytes, where the table tells them; no call changes them
    ghost tells: { Self → Option (List ℕ) };

    // how often a read has failed
    ghost failures: { Self → ℕ };

    // the header that was read, where none was refused since
    ghost accepted: { Self → Option HeaderValue };

    // the record of a rank can be lent, with a room of these bytes
    ghost ready: { Self → List ℕ → ℕ → Type 0 };

    /// Whether the table's bytes are known, so that a record never changes. One that doesn't say
    /// is not.
    fn is_told(&self) -> bool
        ensures { IsTrue result → IsSome (tells self.now) }
    {
        false
    }

    /// The header, or the first fault of the header. The table has then accepted it, or none.
    fn header(&mut self) -> Result<Header, TableFault>
        ensures stays { tells self.new ≡ tells self.old }
        ensures told { WhereTold (tells self.old) (λ file. IsHeaderOf file result) }
        ensures accepted { accepted self.new ≡ accepted_by result }
        ensures cause { WhereTold (tells self.old) (λ _. RoseWhere
            (result ≡ Err TableFault.Read) (failures self.old) (failures self.new)) };

    /// Loads the record of a rank into this buffer, ready for `lend`. The rank is under the count
    /// of the accepted header. What was ready with another room stays so. At a fault the table is
    /// as it was, but for the count of failures.
    fn load(&mut self, rank: u16, room: &mut Record) -> Result<(), ReadFault>
        requires { HasRecord (accepted self.old) rank }
        ensures stays { tells self.new ≡ tells self.old }
        ensures accepted { accepted self.new ≡ accepted self.old }
        ensures ready { OnOk result (ready self.new room.new rank) }
        ensures others { (bytes : List ℕ) (other : ℕ) →
            ready self.old bytes other → ready self.new bytes other }
        ensures cause { WhereTold (tells self.old)
            (λ _. RoseWhere (IsErr result) (failures self.old) (failures self.new)) };

    /// The record of a rank that was loaded with this room.
    fn lend<'a>(&'a self, rank: u16, room: &'a Record) -> RecordView<'a>
        requires { ready self.now room.now rank }
        ensures { WhereTold (tells self.now) (λ file. result ≡ record_at file rank) };
}
