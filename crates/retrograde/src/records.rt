//! What a build keeps of its records, in memory that grows.
ghost use Rattle.std.specs.Prelude.{◌≡◌, ◌≤◌, [], OnOk};
ghost use Rattle.race_model.specs.Prelude.{first_of, version_by};
ghost use Rattle.retrograde.specs.KeptRecords.{AreKept, HasRoom};

use crate::level::{level_place, shares_of_level};
use db_layout::Header;
use fixed_fraction::Scaled;
use ranking::Ranks;
use std::alloc::{AllocError, Global};

/// What a build keeps of its records: their means, their shares and where those of each rank begin,
/// and the bytes of the pip count that is written next.
#[derive(Drop)]
pub(crate) struct Records {
    pub means: Vec<Scaled>,
    pub places: Vec<u32>,
    pub shares: Vec<u8>,
    pub level: Vec<u8>,
}

impl Records {
    /// No record yet.
    pub fn new(alloc: Global) -> Self
        ensures { result.places.items ≡ [] }
    {
        Records {
            means: Vec::new(alloc),
            places: Vec::new(alloc),
            shares: Vec::new(alloc),
            level: Vec::new(alloc),
        }
    }

    /// Makes room for the records of a pip count, where those of fewer pips are kept. Refused only
    /// for want of memory.
    pub fn grow(&mut self, header: &Header, ranks: &Ranks, pips: u8) -> Result<(), AllocError>
        requires low { pips ≤ header.now.bound }
        requires kept { AreKept (first_of pips) self.old.means.items self.old.places.items
            self.old.shares.items }
        ensures kept { OnOk result (AreKept (first_of pips) self.new.means.items
            self.new.places.items self.new.shares.items) }
        ensures room { OnOk result (HasRoom (version_by header.now.version) pips
            self.new.means.items self.new.places.items self.new.shares.items
            self.new.level.items) }
    {
        let count = usize::from(ranks.count_to(pips));
        self.means.resize(count, Scaled::ZERO)?;
        self.places.resize(count + 1, 0)?;
        let place = self.places[usize::from(ranks.first_of(pips))] as usize;
        self.shares.resize(place + shares_of_level(ranks, pips), 0)?;
        let (start, end) = level_place(header, ranks, pips);
        self.level.resize(end - start, 0)?;
        Ok(())
    }
}
