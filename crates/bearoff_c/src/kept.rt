//! A file of any version as C keeps it.
ghost use Rattle.std.specs.Prelude.{◌≡◌, IsTrue, IfOk, OnOk};
ghost use Rattle.ranking.specs.Tables.{IsRankTable};
ghost use Rattle.epc_query.specs.Kinds.{file_book, book_by, version_in, stated_kind, IsAcceptedAs};
ghost use Rattle.bearoff_c.specs.Refusals.{open_refusal, refusal_in};

use crate::statuses::Refusal;
use epc_query::{Accepted, Opened};
use ranking::RankTable;

/// A file of any version in bytes that the caller keeps. It is open where `bearoff_open` has
/// opened it, for as long as neither it nor its bytes are changed, and not open where its flag says
/// so, whatever else stands in it.
#[repr(C)]
#[derive(Drop)]
pub struct File<'a> {
    /// The bytes of the file.
    pub bytes: &'a [u8],

    /// Whether the bytes were accepted.
    pub is_open: bool,

    /// The pip bound of the file, where it is open.
    pub bound: u8,

    /// The version of the file, where it is open: 1 or 2 of a database, 3 of a board file.
    pub version: u16,

    /// The numbers by which ranks are found, where it is open.
    pub ranks: RankTable,

    // by what ranks are found, and what is known for as long as the bytes are unchanged
    pub ghost ranked: { IsTrue is_open → IsRankTable ranks },
    pub ghost opened: { ∥ (IsTrue is_open → IsAcceptedAs (stated_kind bytes.now) bytes.now
        record { version = version; bound = bound }) ∥₁ },
}

impl<'a> File<'a> {
    /// The file that answers, where this one is open. Refused as `NotOpen`, and as nothing else.
    pub fn opened(&self) -> Result<Opened<'_>, Refusal>
        ensures refusal { refusal_in result ≡ open_refusal self.now.is_open }
        ensures book { IfOk result (λ opened. book_by opened ≡ file_book self.now.bytes.now) }
        ensures bound { IfOk result (λ opened. (book_by opened).bound ≡ self.now.bound) }
        ensures version { OnOk result (self.now.version ≡ version_in self.now.bytes.now) }
    {
        if !self.is_open {
            return Err(Refusal::NotOpen);
        }
        let accepted = Accepted {
            version: self.version,
            bound: self.bound,
        };
        let kind = accepted.kind();
        Ok(Opened::kept(kind, self.bytes, accepted, &self.ranks))
    }
}
