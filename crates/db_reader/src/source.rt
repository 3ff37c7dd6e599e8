//! Bytes that are read by their offset, wherever they are.
ghost use Rattle.std.specs.Prelude.{◌≡◌, ℕ, ◌+◌, ◌≤◌, List, Option, length, take, drop, IsErr, IfOk, OnOk};
ghost use Rattle.db_reader.specs.Telling.{WhereTold, RoseWhere};

use thiserror::Error;

/// A source could not be read.
#[derive(Clone, Copy, Debug, PartialEq, Eq, Error)]
#[error("the source could not be read")]
pub struct SourceFault;

/// Bytes that are read by their offset.
///
/// A source that tells its bytes answers their number and what stands there, and a call is
/// refused exactly where the count of failures rose in it. Of a source that tells nothing, as one
/// over a file, no answer is promised.
pub trait Source {
    // the bytes, where the source tells them; no call changes them
    ghost tells: { Self → Option (List ℕ) };

    // how often a call has failed
    ghost failures: { Self → ℕ };

    /// How many bytes there are.
    fn length(&mut self) -> Result<u64, SourceFault>
        ensures stays { tells self.new ≡ tells self.old }
        ensures told { WhereTold (tells self.old)
            (λ file. IfOk result (λ count. count ≡ length file)) }
        ensures cause { WhereTold (tells self.old)
            (λ _. RoseWhere (IsErr result) (failures self.old) (failures self.new)) };

    /// Fills `into` with the bytes from an offset on. If the source's bytes are known, they must
    /// be there. At a fault `into` may hold any bytes.
    fn read_at(&mut self, offset: u64, into: &mut [u8]) -> Result<(), SourceFault>
        requires { WhereTold (tells self.old) (λ file. offset + length into.old ≤ length file) }
        ensures stays { tells self.new ≡ tells self.old }
        ensures told { WhereTold (tells self.old)
            (λ file. OnOk result (into.new ≡ take (length into.old) (drop offset file))) }
        ensures cause { WhereTold (tells self.old)
            (λ _. RoseWhere (IsErr result) (failures self.old) (failures self.new)) };
}
