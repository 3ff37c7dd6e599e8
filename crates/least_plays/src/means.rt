//! Means by rank, as the search for best plays asks for them.
ghost use Rattle.std.specs.Prelude.{◌≡◌, ℕ, ◌<◌, ◌↔◌, IsTrue, length, slice_index};
ghost use Rattle.least_plays.specs.Firsts.{IsBetterOf};

/// The means of positions by rank: by which of them the best plays are found.
pub trait RankedMeans {
    // the mean of each rank, as a numerator of any one denominator
    ghost mean: { Self → ℕ → ℕ };

    // the leading bits of each of them
    ghost leading: { Self → ℕ → ℕ };

    // the ranks below it can be asked for
    ghost count: { Self → ℕ };

    /// Whether the mean of a rank is less than that of another.
    fn is_less(&self, one: u16, other: u16) -> bool
        requires one { one < count self.now }
        requires other { other < count self.now }
        ensures { IsTrue result ↔ (mean self.now one < mean self.now other) };

    /// The leading bits of the mean of a rank: of two means the one with lower ones is less.
    fn leading_bits(&self, rank: u16) -> u64
        requires { rank < count self.now }
        ensures value { result ≡ leading self.now rank }
        ensures less { (other : ℕ) → other < count self.now →
            leading self.now rank < leading self.now other →
            mean self.now rank < mean self.now other };

    /// Of two ranks the one of smaller mean and, of equal means, the lower one.
    // a rank differs from itself here, so that nearly all calls take one branch
    #[inline(always)]
    fn better(&self, one: u16, other: u16) -> u16
        requires one { one < count self.now }
        requires other { other < count self.now }
        ensures { IsBetterOf (mean self.now) one other result }
    {
        let here = self.leading_bits(one);
        let there = self
            .leading_bits(other)
            .wrapping_add(u64::from(one == other));
        if here == there {
            return self.better_by_all(one, other);
        }
        if there < here { other } else { one }
    }

    /// The same, by all bits of the means.
    #[inline(never)]
    fn better_by_all(&self, one: u16, other: u16) -> u16
        requires one { one < count self.now }
        requires other { other < count self.now }
        ensures { IsBetterOf (mean self.now) one other result }
    {
        if self.is_less(one, other) || (one < other && !self.is_less(other, one)) {
            one
        } else {
            other
        }
    }
}

/// The better of each two of nine ranks and nine others.
// one after the other, since a loop would keep both lists in memory
#[inline(always)]
pub fn better_of_each<M: RankedMeans>(ones: &[u16; 9], others: &[u16; 9], means: &M) -> [u16; 9]
    requires ones { (j : ℕ) → j < 9 → slice_index ones.now j < M.count means.now }
    requires others { (j : ℕ) → j < 9 → slice_index others.now j < M.count means.now }
    ensures better { (j : ℕ) → j < 9 →
        IsBetterOf (M.mean means.now) (slice_index ones.now j) (slice_index others.now j)
        (slice_index result j) }
    ensures len { length result ≡ 9 }
{
    [
        means.better(ones[0], others[0]),
        means.better(ones[1], others[1]),
        means.better(ones[2], others[2]),
        means.better(ones[3], others[3]),
        means.better(ones[4], others[4]),
        means.better(ones[5], others[5]),
        means.better(ones[6], others[6]),
        means.better(ones[7], others[7]),
        means.better(ones[8], others[8]),
    ]
}
