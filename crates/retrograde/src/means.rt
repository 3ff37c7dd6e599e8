//! The means of the first ranks, in memory that grows.
ghost use Rattle.std.specs.Prelude.{◌≡◌, ℕ, ◌<◌, ◌≤◌, ◌↔◌, List, [], ◌∷◌, ◌++◌, length};
ghost use Rattle.std.specs.Prelude.{slice_index, IsSome, IfSome, OnOk, OnErr, IfErr};
ghost use Rattle.retrograde.specs.declared.build_fault.BuildFault.TheVariants.{Memory};

use crate::build_fault::BuildFault;
use fixed_fraction::Scaled;
use std::alloc::Global;
use std::marker::Model;

/// The means of the positions of the first ranks, from rank 0 on: for each the least mean number
/// of rolls.
#[derive(Drop)]
pub struct Means {
    means: Vec<Scaled>,
}

// Clauses see the means, that of rank 0 first.
impl Model for Means {
    ghost Value = { List ℕ };

    ghost view = { λ means. means.means.items };

    ghost invariant = { λ means. length means.means.items ≤ 54264 };
}

impl Means {
    /// No mean yet; the allocator is kept for those to come.
    pub fn new(alloc: Global) -> Self
        ensures { result ≡ [] }
    {
        Means {
            means: Vec::new(alloc),
        }
    }

    /// Adds the mean of the next rank. Refused only for want of memory, and then nothing is
    /// added.
    pub fn push(&mut self, mean: Scaled) -> Result<(), BuildFault>
        requires { length self.old < 54264 }
        ensures added { OnOk result (self.new ≡ self.old ++ mean ∷ []) }
        ensures kept { OnErr result (self.new ≡ self.old) }
        ensures memory { IfErr result (λ fault. fault ≡ Memory) }
    {
        self.means.push(mean).map_err(|_| BuildFault::Memory)
    }

    /// The mean of a rank; none from `len` on.
    pub fn get(&self, rank: u16) -> Option<Scaled>
        ensures some { IsSome result ↔ (rank < length self.now) }
        ensures value { IfSome result (λ mean. mean ≡ slice_index self.now rank) }
    {
        self.means.get(usize::from(rank)).copied()
    }

    /// How many means there are: the ranks below it have one.
    pub fn len(&self) -> u16
        ensures { result ≡ length self.now }
    {
        self.means.len() as u16
    }
}
