//! The shares that a record tells, for whoever reads those of several records side by side.
ghost use Rattle.std.specs.Prelude.{◌≡◌, ℕ, ◌+◌, ◌*◌, ◌<◌, ◌≤◌, length};
ghost use Rattle.race_model.specs.Prelude.{version_by, first_share, share_count};

use crate::record::read_wide;
use crate::stated::COMPACT_VERSION;
use fixed_fraction::WHOLE;

/// The shares that a record tells, in bytes that are borrowed.
#[derive(Clone, Copy)]
pub struct StoredShares<'a> {
    // the share of k rolls is the k-th one of 16 bytes, whether or not that of no roll is stored
    pub(crate) bytes: &'a [u8],
    pub(crate) version: u16,
    pub(crate) pips: u8,
    // all those of so many rolls or more are none, and those of fewer, from one on, are stored
    pub(crate) end: u8,
    ghost ends: { end ≡ first_share (version_by version) + share_count (version_by version) pips },
    ghost long: { 16 * end ≤ length bytes.now },
    ghost few: { end ≤ 23 },
}

impl<'a> StoredShares<'a> {
    ghost use Rattle.db_layout.specs.StoredShares.{share_by};

    /// A number of rolls from which on there is no share.
    #[inline(always)]
    pub fn end(&self) -> u8
        ensures value { result ≡ self.now.end }
        ensures few { result ≤ 23 }
        ensures none { (k : ℕ) → result ≤ k → k ≤ 22 → share_by self.now k ≡ 0 }
    {
        self.end
    }

    /// The numerator over 36 ^ 22 of the share of exactly `k` rolls, fewer than `end`. Any number
    /// of 128 bits may stand there, where it is stored.
    #[inline(always)]
    #[tactic(auto, unfolding(race_model::specs::LocalEquations::whole))]
    pub fn at(&self, k: u8) -> u128
        requires { k < self.now.end }
        ensures { result ≡ share_by self.now k }
    {
        if k == 0 && self.version == COMPACT_VERSION {
            return if self.pips == 0 { WHOLE } else { 0 };
        }
        read_wide(self.bytes, 16 * usize::from(k))
    }
}
