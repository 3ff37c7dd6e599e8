//! What the header of a file states, of any version: read, and written.
ghost use Rattle.std.specs.Prelude.{◌≡◌, ◌↔◌, IsSome, IfSome, IfOk, IfErr};
ghost use Rattle.race_model.specs.Prelude.{bound_of, header_by, HeaderTest, HeaderHoldsBy, IsFirstHeaderFaultBy};
ghost use Rattle.db_layout.specs.HeaderFaults.{test_of};
ghost use Rattle.db_layout.specs.Layouts.{layout_in, number_of};

use crate::header::HeaderFault;
use crate::record::{HEADER_BYTES, read_short, read_word};
use home_board::{MAX_BOUND, OLD_BOUND};

/// The first eight bytes of a file.
const MAGIC: [u8; 8] = *b"EPCTABLE";

/// The version of a file whose records store all shares.
pub const VERSION: u16 = 1;

/// The version whose records leave out shares that are known without being stored.
pub const COMPACT_VERSION: u16 = 2;

/// The version in the header of a board file.
pub const BOARD_VERSION: u16 = 3;

/// The greatest pip bound of a board file: that of fifteen checkers on the six point.
pub const BOARD_BOUND: u8 = 90;

/// A kind of file, by the versions that it has.
#[derive(Clone, Copy, Debug, PartialEq, Eq)]
pub enum Kind {
    /// A database, of version 1 or 2.
    Database,

    /// A board file, of version 3.
    Board,
}

impl Kind {
    /// The greatest bound of the files of a version; none where the kind has no such version.
    pub(crate) fn greatest_bound(self, version: u16) -> Option<u8>
        ensures some { IsSome result ↔ (version ≡ (layout_in self version).number) }
        ensures value { IfSome result (λ most. most ≡ (layout_in self version).greatest) }
    {
        match (self, version) {
            (Kind::Database, VERSION) => Some(OLD_BOUND),
            (Kind::Database, COMPACT_VERSION) => Some(MAX_BOUND),
            (Kind::Board, BOARD_VERSION) => Some(BOARD_BOUND),
            _ => None,
        }
    }

    /// What a header of a version states as the bytes of a record: 426, or 0 where they go by the
    /// pip count.
    pub(crate) fn stated_bytes(self, version: u16) -> u32
        ensures { result ≡ (layout_in self version).stated }
    {
        match self {
            Kind::Database if version != COMPACT_VERSION => 426,
            _ => 0,
        }
    }
}

/// The version and the pip bound that a header states.
#[derive(Clone, Copy, Debug, PartialEq, Eq)]
pub struct Stated {
    pub version: u16,
    pub bound: u8,
}

/// Reads what a header states, or finds its first fault in the order of `HeaderFault`. The bytes
/// are the first ones of a file of this length and kind.
#[tactic(auto, unfolding(race_model::specs::Files::bound_of))]
pub(crate) fn read_header(kind: Kind, front: &[u8], length: u64) -> Result<Stated, HeaderFault>
    ensures header { IfOk result (λ stated. (t : HeaderTest) →
        HeaderHoldsBy (layout_in kind (number_of front.now)) front.now length t) }
    ensures stated { IfOk result (λ stated. (stated.version ≡ number_of front.now)
        × (stated.bound ≡ bound_of front.now)) }
    ensures fault { IfErr result (λ fault. IsFirstHeaderFaultBy
        (layout_in kind (number_of front.now)) front.now length (test_of fault)) }
{
    if front.len() < HEADER_BYTES || length < 32 {
        return Err(HeaderFault::TooShort);
    }
    if &front[..8] != MAGIC.as_slice() {
        return Err(HeaderFault::BadMagic);
    }
    let version = read_short(front, 8);
    let Some(most) = kind.greatest_bound(version) else {
        return Err(HeaderFault::BadVersion);
    };
    let bound = read_short(front, 10);
    if bound > u16::from(most) {
        return Err(HeaderFault::BadBound);
    }
    let bound = bound as u8;
    if read_word(front, 12) != u32::from(ranking::count_to(bound)) {
        return Err(HeaderFault::BadCount);
    }
    if read_word(front, 16) != kind.stated_bytes(version) {
        return Err(HeaderFault::BadRecordBytes);
    }
    if &front[20..32] != [0; 12].as_slice() {
        return Err(HeaderFault::BadReserved);
    }
    if length != kind.end_of(version, bound) {
        return Err(HeaderFault::BadLength);
    }
    Ok(Stated { version, bound })
}

/// The 32 bytes of the header of a version of this kind: magic, version, bound, how many records
/// there are, how many bytes each has, or 0, and reserved ones.
pub(crate) fn header_with(kind: Kind, version: u16, bound: u8) -> [u8; HEADER_BYTES]
    requires { version ≡ (layout_in kind version).number }
    ensures { result ≡ header_by (layout_in kind version) bound }
{
    let mut bytes = [0; HEADER_BYTES];
    bytes[..8].copy_from_slice(&MAGIC);
    bytes[8..10].copy_from_slice(&version.to_be_bytes());
    bytes[10..12].copy_from_slice(&u16::from(bound).to_be_bytes());
    bytes[12..16].copy_from_slice(&u32::from(ranking::count_to(bound)).to_be_bytes());
    bytes[16..20].copy_from_slice(&kind.stated_bytes(version).to_be_bytes());
    bytes
}
