//! Where the records of a file stand, by numbers that are the same for each file of a version.
ghost use Rattle.std.specs.Prelude.{◌≡◌, ℕ, ◌+◌, ◌<◌, ◌≤◌};
ghost use Rattle.race_model.specs.Prelude.{pips, at_rank, first_of, count_to, most_rolls, version_by, full};
ghost use Rattle.race_model.specs.Prelude.{first_share, share_count, record_length, record_place};
ghost use Rattle.db_layout.specs.Layouts.{layout_in, length_in};

use crate::board_places::board_length;
use crate::header::Header;
use crate::stated::{COMPACT_VERSION, Kind};
use ranking::{first_of, pips_of};

/// Where the records of each pip count begin in a file of version 2.
const STARTS: [u32; 59] = [
    32, 90, 164, 344, 614, 1144, 1886, 3228, 4936, 7696, 11284, 16674, 23450, 33310, 45380, 62120,
    82580, 107690, 140212, 179602, 225658, 284518, 352534, 431450, 527858, 638306, 762092, 911092,
    1076342, 1259842, 1473440, 1708052, 1961284, 2252026, 2562790, 2894986, 3265698, 3657866,
    4067020, 4517610, 4983272, 5464320, 5980770, 6509100, 7042710, 7608420, 8174476, 8740186,
    9325540, 9905102, 10471632, 11050728, 11611302, 12153732, 12694694, 13213198, 13703334,
    14186314, 14638134,
];

/// Where they begin in a board file.
const BOARD_STARTS: [u32; 91] = [
    32, 98, 172, 336, 582, 1032, 1662, 2740, 4112, 6232, 8988, 12978, 17994, 25070, 33732, 45432,
    59732, 77282, 99500, 126410, 157874, 197294, 242846, 295698, 359146, 431834, 513300, 614620,
    726990, 851770, 1001128, 1165180, 1342252, 1550514, 1773118, 2011074, 2282266, 2569154,
    2868468, 3204258, 3551280, 3909768, 4301018, 4701268, 5105518, 5540428, 5975604, 6410514,
    6866508, 7317990, 7759320, 8215856, 8657790, 9085420, 9516542, 9929766, 10320382, 10709122,
    11072782, 11413012, 11750020, 12062248, 12346510, 12623962, 12873820, 13099108, 13311766,
    13501510, 13667134, 13821346, 13954258, 14069278, 14171878, 14259628, 14332078, 14396068,
    14448208, 14490868, 14526226, 14555110, 14577022, 14595292, 14608864, 14619304, 14626948,
    14632954, 14636776, 14639626, 14641336, 14642476, 14643070,
];

/// Where one record stands in a file.
#[derive(Clone, Copy, Debug, PartialEq, Eq)]
pub struct Place {
    /// How many bytes stand before it.
    pub offset: u64,

    /// How many bytes it has.
    pub length: u32,

    /// The pip count of its position.
    pub pips: u8,
}

impl Header {
    /// Where the record of a rank stands in a file of full records: no pip count is looked up.
    pub fn find_full(&self, rank: u16) -> u64
        requires rank { rank < self.now.count }
        requires full { version_by self.now.version ≡ full }
        ensures offset { result ≡ record_place (version_by self.now.version) rank }
        ensures inside { result + 426
            ≤ record_place (version_by self.now.version) self.now.count }
    {
        32 + 426 * u64::from(rank)
    }

    /// How many bytes the file has.
    pub fn end(&self) -> u64
        ensures { result ≡ record_place (version_by self.now.version) self.now.count }
    {
        Kind::Database.end_of(self.version, self.bound)
    }
}

impl Kind {
    /// Finds the record of a rank in a file of this kind, version and bound: one search among the
    /// pip counts.
    pub fn find(self, version: u16, bound: u8, rank: u16) -> Place
        requires bound { bound ≤ (layout_in self version).greatest }
        requires rank { rank < count_to bound }
        ensures offset { result.offset ≡ (layout_in self version).place rank }
        ensures length { result.length ≡ length_in self version (pips (at_rank rank)) }
        ensures pips { result.pips ≡ pips (at_rank rank) }
        ensures range { result.pips ≤ bound }
        ensures inside { result.offset + result.length
            ≤ (layout_in self version).place (count_to bound) }
    {
        let pips = pips_of(rank);
        Place {
            offset: self.offset_of(version, pips, rank),
            length: self.length_of(version, pips),
            pips,
        }
    }

    /// Where the records of a version of this kind end, which go to a bound.
    pub(crate) fn end_of(self, version: u16, bound: u8) -> u64
        requires { bound ≤ (layout_in self version).greatest }
        ensures { result ≡ (layout_in self version).place (count_to bound) }
    {
        self.offset_of(version, bound, ranking::count_to(bound))
    }

    /// The offset of a rank's record, or of the end of the rank before. The rank is that of a
    /// position of `pips` pips, or the next one: at most 58 pips in a database, and 90 in a board
    /// file.
    pub fn offset_of(self, version: u16, pips: u8, rank: u16) -> u64
        requires low { pips ≤ (layout_in self 2).greatest }
        requires from { first_of pips ≤ rank }
        requires beyond { rank ≤ first_of (pips + 1) }
        ensures { result ≡ (layout_in self version).place rank }
    {
        let each = self.stated_bytes(version);
        if each != 0 {
            return 32 + u64::from(each) * u64::from(rank);
        }
        let earlier = u64::from(rank - first_of(pips));
        self.start_of(pips) + earlier * u64::from(self.length_of(version, pips))
    }

    /// The offset of a pip count's first record, for version 2 and board files.
    fn start_of(self, pips: u8) -> u64
        requires { pips ≤ (layout_in self 2).greatest }
        ensures { result ≡ (layout_in self 2).place (first_of pips) }
    {
        let index = usize::from(pips);
        match self {
            Kind::Database => u64::from(STARTS[index]),
            Kind::Board => u64::from(BOARD_STARTS[index]),
        }
    }

    /// The size in bytes of the record of a position of `pips` pips.
    fn length_of(self, version: u16, pips: u8) -> u32
        requires { pips ≤ 90 }
        ensures { result ≡ length_in self version pips }
    {
        match self {
            Kind::Database => record_length(version, pips),
            Kind::Board => board_length(pips) as u32,
        }
    }
}

/// How many bytes the record of a position of so many pips has.
pub fn record_length(version: u16, pips: u8) -> u32
    ensures { result ≡ record_length (version_by version) pips }
{
    58 + 16 * u32::from(share_count(version, pips))
}

/// The number of rolls whose share is the first that a record stores.
pub(crate) fn first_share(version: u16) -> u8
    ensures { result ≡ first_share (version_by version) }
{
    if version == COMPACT_VERSION { 1 } else { 0 }
}

/// How many shares the record of a position of so many pips stores.
pub(crate) fn share_count(version: u16, pips: u8) -> u8
    ensures { result ≡ share_count (version_by version) pips }
{
    if version == COMPACT_VERSION {
        most_rolls(pips)
    } else {
        23
    }
}

/// How many rolls a position of so many pips can need at most.
pub fn most_rolls(pips: u8) -> u8
    ensures { result ≡ most_rolls pips }
{
    if pips == 0 {
        return 0;
    }
    let pips = u16::from(pips);
    ((2 * pips + pips.min(15) + 6) / 6) as u8
}
