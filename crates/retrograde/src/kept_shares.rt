//! The shares of the records of lower rank, in a room where each number stands low byte first, as a
//! processor reads it.
ghost use Rattle.std.specs.Prelude.{◌≡◌, ℕ, ◌+◌, ◌*◌, ◌/◌, ◌%◌, ◌^◌, ◌<◌, ◌≤◌, length, take, sum};
ghost use Rattle.std.specs.Prelude.{slice_index};
ghost use Rattle.std.specs.Int.{w128, from_le_bytes, to_le_bytes};
ghost use Rattle.race_model.specs.Prelude.{whole, bytes_at};
ghost use Rattle.retrograde.specs.KeptShares.{shares_in, shares_kept, ArePlaces};

use fixed_fraction::{Distribution, Scaled, Spread};

/// The shares of a record: those of fewer than `end` rolls, in 16 bytes each. There is none beyond
/// them.
#[derive(Clone, Copy)]
pub(crate) struct KeptSpread<'a> {
    bytes: &'a [u8],
    ghost few: { length bytes.now ≤ 368 },
    ghost parts: { length bytes.now % 16 ≡ 0 },
    ghost all: { sum (shares_in bytes.now) ≡ whole },
}

impl<'a> Distribution for KeptSpread<'a> {
    ghost shares = { λ spread. shares_in spread.bytes.now };

    ghost end = { λ spread. length spread.bytes.now / 16 };

    #[inline(always)]
    fn end(self) -> u8 {
        (self.bytes.len() / 16) as u8
    }

    #[inline(always)]
    fn share(self, k: u8) -> u128 {
        read_low(self.bytes, 16 * usize::from(k))
    }
}

/// The number in the 16 bytes from a place on, low byte first.
#[inline(always)]
fn read_low(bytes: &[u8], place: usize) -> u128
    requires { place + 16 ≤ length bytes.now }
    ensures { result ≡ from_le_bytes w128 (bytes_at bytes.now place 16) }
{
    match bytes[place..place + 16].try_into() {
        Ok(number) => u128::from_le_bytes(number),
        Err(_) => unreachable!(),
    }
}

/// The records of lower rank: their means, and their shares in a room, where those of each rank
/// begin at its place and end at that of the next one.
#[derive(Drop)]
pub(crate) struct KeptRecords<'a> {
    pub means: &'a [Scaled],
    pub places: &'a [u32],
    pub room: &'a [u8],
    pub ghost few: { length means.now ≤ 46062 },
    pub ghost more: { length means.now < length places.now },
    pub ghost placed: { ArePlaces places.now (length means.now) (length room.now) },
    pub ghost wholes: { (r : ℕ) → r < length means.now →
        sum (shares_kept room.now places.now r) ≡ whole },
}

impl<'a> KeptRecords<'a> {
    /// The mean of a rank.
    pub fn mean(&self, rank: u16) -> Scaled
        requires { rank < length self.now.means.now }
        ensures { result ≡ slice_index self.now.means.now rank }
    {
        self.means[usize::from(rank)]
    }

    /// The shares of a rank.
    #[inline(always)]
    pub fn spread(&self, rank: u16) -> KeptSpread<'a>
        requires made { rank < length self.now.means.now }
        ensures { shares_in result.bytes.now
            ≡ shares_kept self.now.room.now self.now.places.now rank }
    {
        let index = usize::from(rank);
        let start = self.places[index] as usize;
        let end = self.places[index + 1] as usize;
        KeptSpread {
            bytes: &self.room[start..end],
        }
    }
}

/// The means of lower ranks are what the best plays go by.
impl<'a> least_plays::RankedMeans for KeptRecords<'a> {
    ghost mean = { λ records. slice_index records.means.now };

    ghost leading = { λ records rank. slice_index records.means.now rank / 2 ^ 64 };

    ghost count = { λ records. length records.means.now };

    #[inline(always)]
    fn is_less(&self, one: u16, other: u16) -> bool {
        self.mean(one).numerator() < self.mean(other).numerator()
    }

    #[inline(always)]
    fn leading_bits(&self, rank: u16) -> u64 {
        (self.mean(rank).numerator() >> 64) as u64
    }
}

/// Keeps the shares of the next rank, which are those of fewer than `end` rolls.
#[inline(always)]
pub(crate) fn keep(room: &mut [u8], places: &mut [u32], rank: u16, end: u8, spread: &Spread)
    requires placed { ArePlaces places.old rank (length room.old) }
    requires few { end ≤ 23 }
    requires more { rank + 1 < length places.old }
    requires small { slice_index places.old rank + 16 * end < 2 ^ 32 }
    requires fits { slice_index places.old rank + 16 * end ≤ length room.old }
    requires none { (k : ℕ) → end ≤ k → slice_index spread.now k ≡ 0 }
    ensures kept { shares_kept room.new places.new rank ≡ spread.now }
    ensures others { (r : ℕ) → r < rank →
        shares_kept room.new places.new r ≡ shares_kept room.old places.old r }
    ensures placed { ArePlaces places.new (rank + 1) (length room.new) }
    ensures next { slice_index places.new (rank + 1) ≡ slice_index places.old rank + 16 * end }
    ensures room { length room.new ≡ length room.old }
    ensures places { length places.new ≡ length places.old }
{
    let _start = spread.at(0);
    let index = usize::from(rank);
    let start = places[index];
    put_shares(room, start as usize, end, spread);
    places[index + 1] = start + 16 * u32::from(end);
}

/// Writes the shares of fewer than `end` rolls from a place on.
#[inline(always)]
fn put_shares(room: &mut [u8], start: usize, end: u8, spread: &Spread)
    requires few { end ≤ 23 }
    requires fits { start + 16 * end ≤ length room.old }
    ensures put { (k : ℕ) → k < end →
        from_le_bytes w128 (bytes_at room.new (start + 16 * k) 16) ≡ slice_index spread.now k }
    ensures front { take start room.new ≡ take start room.old }
    ensures len { length room.new ≡ length room.old }
{
    let shares = spread.shares();
    for k in 0..end {
        let index = usize::from(k);
        put_low(room, start + 16 * index, shares[index]);
    }
}

/// Writes a number into the 16 bytes from a place on, low byte first.
#[inline(always)]
fn put_low(room: &mut [u8], place: usize, number: u128)
    requires { place + 16 ≤ length room.old }
    ensures put { from_le_bytes w128 (bytes_at room.new place 16) ≡ number }
    ensures front { take place room.new ≡ take place room.old }
    ensures len { length room.new ≡ length room.old }
{
    room[place..place + 16].copy_from_slice(&low_bytes(number));
}

/// The 16 bytes of a number, low byte first. It uses two halves, which a compiler writes at once,
/// while it writes 128 bits byte by byte.
#[inline(always)]
fn low_bytes(number: u128) -> [u8; 16]
    ensures { result ≡ to_le_bytes w128 number }
{
    let mut bytes = [0; 16];
    bytes[..8].copy_from_slice(&((number % (1 << 64)) as u64).to_le_bytes());
    bytes[8..].copy_from_slice(&((number >> 64) as u64).to_le_bytes());
    bytes
}
