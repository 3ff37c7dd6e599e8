//! The header of a database file: its version and its pip bound, written and read.
ghost use Rattle.std.specs.Prelude.{◌≡◌, ℕ, ◌+◌, ◌*◌, ◌^◌, ◌<◌, ◌≤◌, ◌↔◌, List, length};
ghost use Rattle.std.specs.Prelude.{slice_index, IsTrue, IsSome, IfSome, IfOk, IfErr};
ghost use Rattle.race_model.specs.Prelude.{pips, at_rank, count_to, version_by, greatest_bound, stated_length};
ghost use Rattle.race_model.specs.Prelude.{record_length, version_of, bound_of, record_place, told_share, IsHeader};
ghost use Rattle.race_model.specs.Prelude.{IsFirstHeaderFault};
ghost use Rattle.db_layout.specs.HeaderFaults.{test_of};
ghost use Rattle.db_layout.specs.Records.{IsVersion, IsHeld};

use crate::places::{most_rolls, record_length};
use crate::stated::{COMPACT_VERSION, Kind, read_header};
use fixed_fraction::{Spread, WHOLE};
use thiserror::Error;

/// Why a header is refused, in the order of the tests.
#[derive(Clone, Copy, Debug, PartialEq, Eq, Error)]
pub enum HeaderFault {
    /// There are fewer than 32 bytes.
    #[error("too short")]
    TooShort,

    /// The file doesn't begin with `EPCTABLE`.
    #[error("bad magic")]
    BadMagic,

    /// The version is none of the kind of file: 1 or 2 of a database, and 3 of a board file.
    #[error("bad version")]
    BadVersion,

    /// The pip bound is over the greatest of the version: 44, 58 for version 2, or 90 for 3.
    #[error("bad bound")]
    BadBound,

    /// The count is not the number of positions of at most the bound.
    #[error("bad count")]
    BadCount,

    /// The field for record bytes is not 426, or 0 for versions 2 and 3.
    #[error("bad record bytes")]
    BadRecordBytes,

    /// A reserved byte is not zero.
    #[error("bad reserved")]
    BadReserved,

    /// The file is not as long as the header and the records together.
    #[error("bad length")]
    BadLength,
}

/// The header of a database: its version, its pip bound, how many records follow, and how many
/// bytes each has where that is one number, else 0. It is always that of a database of version 1
/// and at most 44 pips, or of version 2 and at most 58.
#[derive(Clone, Copy, Debug, PartialEq, Eq)]
pub struct Header {
    pub version: u16,
    pub bound: u8,
    pub count: u16,
    pub record_bytes: u32,
    ghost known: { IsVersion version },
    ghost bounded: { bound ≤ greatest_bound (version_by version) },
    ghost counted: { count ≡ count_to bound },
    ghost sized: { record_bytes ≡ stated_length (version_by version) },
}

impl Header {
    /// The header of this version and pip bound; none exactly where the version
    /// is not 1 or 2, or the bound is over 44 for version 1 and over 58 for version 2.
    pub fn new(version: u16, bound: u8) -> Option<Self>
        ensures some { IsSome result
            ↔ (IsVersion version × (bound ≤ greatest_bound (version_by version))) }
        ensures version { IfSome result (λ header. header.version ≡ version) }
        ensures bound { IfSome result (λ header. header.bound ≡ bound) }
    {
        if bound > Kind::Database.greatest_bound(version)? {
            return None;
        }
        Some(Header::of_version(version, bound))
    }

    /// The header of a version and a bound that it allows.
    fn of_version(version: u16, bound: u8) -> Self
        requires version { IsVersion version }
        requires bound { bound ≤ greatest_bound (version_by version) }
        ensures version { result.version ≡ version }
        ensures bound { result.bound ≡ bound }
    {
        Header {
            version,
            bound,
            count: ranking::count_to(bound),
            record_bytes: Kind::Database.stated_bytes(version),
        }
    }

    /// Where the record of a rank lies: its offset and its length, in bytes.
    pub fn place(&self, rank: u16) -> (u64, u32)
        requires { rank < self.now.count }
        ensures offset { result.0 ≡ record_place (version_by self.now.version) rank }
        ensures len { result.1
            ≡ record_length (version_by self.now.version) (pips (at_rank rank)) }
    {
        let place = Kind::Database.find(self.version, self.bound, rank);
        (place.offset, place.length)
    }

    /// How many bytes the record of a position of so many pips
    /// has, at most the bound: 426 in version 1, and fewer in version 2.
    pub fn record_length(&self, pips: u8) -> u32
        requires { pips ≤ self.now.bound }
        ensures { result ≡ record_length (version_by self.now.version) pips }
    {
        record_length(self.version, pips)
    }

    /// Whether a record of so many pips loses no share of a
    /// distribution: each share that it does not store is the known one.
    pub fn holds(&self, pips: u8, spread: &Spread) -> bool
        requires { pips ≤ self.now.bound }
        ensures { IsTrue result ↔ IsHeld (version_by self.now.version) pips spread.now }
    {
        for k in 0..23 {
            if !is_told(self.version, pips, k, spread) {
                return false;
            }
        }
        true
    }
}

/// Whether a share is told by those that a record of so many pips stores.
#[tactic(auto, unfolding(race_model::specs::LocalEquations::whole))]
fn is_told(version: u16, pips: u8, k: u8, spread: &Spread) -> bool
    requires { k ≤ 22 }
    ensures { IsTrue result
        ↔ (slice_index spread.now k
        ≡ told_share (version_by version) pips (slice_index spread.now) k) }
{
    if version != COMPACT_VERSION {
        return true;
    }
    if k == 0 && pips == 0 {
        return spread.at(0) == WHOLE;
    }
    if k == 0 {
        return spread.at(0) == 0;
    }
    k <= most_rolls(pips) || spread.at(k) == 0
}

/// Reads a header, or finds its first fault in the order of `HeaderFault`. The bytes are the first
/// ones of a file of this length.
#[tactic(auto, unfolding(race_model::specs::Files::bound_of, race_model::specs::Files::version_of))]
pub fn parse_header(front: &[u8], length: u64) -> Result<Header, HeaderFault>
    ensures header { IfOk result (λ header. IsHeader front.now length
        × (header.bound ≡ bound_of front.now)
        × (version_by header.version ≡ version_of front.now)) }
    ensures fault { IfErr result (λ fault. IsFirstHeaderFault front.now length (test_of fault)) }
{
    match read_header(Kind::Database, front, length) {
        Ok(stated) => Ok(Header::of_version(stated.version, stated.bound)),
        Err(fault) => Err(fault),
    }
}
