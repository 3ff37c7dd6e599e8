//! The records of a pip count, made by those of fewer pips, in rooms that are lent.
ghost use Rattle.std.specs.Prelude.{◌≡◌, ◌+◌, ◌-◌, ◌≤◌, ◌⊎◌, ◌++◌, length, take, drop, slice_index};
ghost use Rattle.race_model.specs.Prelude.{first_of, count_to, version_by, bytes_at, record_place};
ghost use Rattle.db_layout.specs.WholeFiles.{records_from};
ghost use Rattle.least_plays.specs.Known.{Knows};
ghost use Rattle.retrograde.specs.AllRecords.{AllRecords, mean_of_rank, bytes_of_rank};
ghost use Rattle.retrograde.specs.KeptRecords.{AreKept, HasRoom, level_shares};

use crate::kept_shares::{KeptRecords, keep};
use crate::pulling::next_record;
use arrayvec::ArrayVec;
use db_layout::{Header, Kind, most_rolls, put_record_bytes};
use fixed_fraction::{Scaled, Spread, Sums};
use least_plays::LeastPlays;
use ranking::Ranks;

/// Makes the records of the positions of a pip count, where those of fewer pips are kept: keeps
/// their means and their shares, and writes their bytes, one after another.
pub(crate) fn add_level<const ROWS: usize>(
    header: &Header,
    pips: u8,
    ranks: &Ranks,
    least: &mut LeastPlays<ROWS>,
    means: &mut [Scaled],
    places: &mut [u32],
    shares: &mut [u8],
    level: &mut [u8],
)
    requires low { pips ≤ header.now.bound }
    requires few { ROWS ≤ 11452 }
    requires rows { (header.now.count ≤ ROWS) ⊎ (ROWS ≡ 11452) }
    requires known { (full : AllRecords) →
        Knows (mean_of_rank full) least.old (first_of pips) }
    requires kept { AreKept (first_of pips) means.old places.old shares.old }
    requires room { HasRoom (version_by header.now.version) pips means.old places.old shares.old
        level.old }
    ensures known { (full : AllRecords) →
        Knows (mean_of_rank full) least.new (count_to pips) }
    ensures kept { AreKept (count_to pips) means.new places.new shares.new }
    ensures next { slice_index places.new (count_to pips)
        ≡ slice_index places.old (first_of pips) + level_shares pips }
    ensures bytes { (full : AllRecords) → level.new
        ≡ records_from (bytes_of_rank (version_by header.now.version) full) (first_of pips)
        (count_to pips - first_of pips) }
    ensures means { length means.new ≡ length means.old }
    ensures places { length places.new ≡ length places.old }
    ensures shares { length shares.new ≡ length shares.old }
    ensures level { length level.new ≡ length level.old }
{
    let end = most_rolls(pips) + 1;
    let mut start = 0;
    let mut bytes = ArrayVec::new();
    let mut sums = Sums::finished();
    let mut spread = Spread::finished();
    for rank in ranks.first_of(pips)..ranks.count_to(pips) {
        let position = ranks.unrank(rank).unwrap();
        let index = usize::from(rank);
        let lower = KeptRecords {
            means: &means[..index],
            places,
            room: shares,
        };
        let plays = least.advance(ranks, &position, &lower);
        let mean = next_record(&position, &plays, &lower, &mut sums, &mut spread);
        means[index] = mean;
        keep(shares, places, rank, end, &spread);
        put_record_bytes(&mut bytes, header, pips, mean, &plays, &spread);
        start = put_bytes(level, start, bytes.as_slice());
    }
}

/// Writes bytes from a place on, and says where they end.
pub(crate) fn put_bytes(room: &mut [u8], start: usize, bytes: &[u8]) -> usize
    requires { start + length bytes.now ≤ length room.old }
    ensures end { result ≡ start + length bytes.now }
    ensures put { take result room.new ≡ take start room.old ++ bytes.now }
    ensures front { take start room.new ≡ take start room.old }
    ensures there { bytes_at room.new start (length bytes.now) ≡ bytes.now }
    ensures rest { drop result room.new ≡ drop result room.old }
    ensures len { length room.new ≡ length room.old }
{
    let end = start + bytes.len();
    room[start..end].copy_from_slice(bytes);
    end
}

/// Where the records of a pip count begin in the file, and where they end.
pub(crate) fn level_place(header: &Header, ranks: &Ranks, pips: u8) -> (usize, usize)
    requires { pips ≤ header.now.bound }
    ensures start { result.0 ≡ record_place (version_by header.now.version) (first_of pips) }
    ensures end { result.1 ≡ record_place (version_by header.now.version) (count_to pips) }
    ensures rise { record_place (version_by header.now.version) (first_of pips)
        ≤ record_place (version_by header.now.version) (count_to pips) }
{
    (
        Kind::Database.offset_of(header.version, pips, ranks.first_of(pips)) as usize,
        Kind::Database.offset_of(header.version, pips, ranks.count_to(pips)) as usize,
    )
}

/// In how many bytes the shares of a pip count are kept.
pub(crate) fn shares_of_level(ranks: &Ranks, pips: u8) -> usize
    requires { pips ≤ 58 }
    ensures count { result ≡ level_shares pips }
    ensures few { result ≤ 19969152 }
{
    let count = usize::from(ranks.count_to(pips) - ranks.first_of(pips));
    count * (16 * (usize::from(most_rolls(pips)) + 1))
}
