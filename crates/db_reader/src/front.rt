//! The header of a file, read from its first bytes and its length.
ghost use Rattle.std.specs.Prelude.{◌≡◌, List, ℕ, length, take, IfErr};
ghost use Rattle.db_layout.specs.declared.header.HeaderFault.{HeaderFault as Fault};
ghost use Rattle.db_reader.specs.Reads.{IsHeaderOf};

use crate::table::TableFault;
use db_layout::{Header, parse_header};

/// Reads the header of a file of this length, or finds its first fault. `front` is its first 32
/// bytes, or all if there are fewer.
pub(crate) fn header_of(front: &[u8], size: u64) -> Result<Header, TableFault>
    ensures told { (file : List ℕ) → front.now ≡ take 32 file → size ≡ length file →
        IsHeaderOf file result }
    ensures bad { IfErr result (λ fault. (bad : Fault) × (fault ≡ TableFault.Bad bad)) }
{
    match parse_header(front, size) {
        Ok(header) => Ok(header),
        Err(fault) => Err(TableFault::Bad(fault)),
    }
}
