//! What a file says of one player's checkers.
ghost use Rattle.std.specs.Prelude.{◌≡◌, ℕ, ◌*◌, ◌/◌, ◌^◌, ◌<◌, ◌≤◌, IfSome, slice_index};
ghost use Rattle.race_model.specs.Prelude.{pips as pips_of};
ghost use Rattle.epc_query.specs.Kinds.{book_by, scale_as};
ghost use Rattle.race_summary.specs.Sides.{IsSide, IsRoot, variance};

use db_layout::Kind;
use epc_query::{Opened, Rounded};
use fixed_fraction::{BoardMean, PART, Wide};
use home_board::Position;

/// More thousandths of a roll than any mean has.
const MOST: u64 = 33_000;

/// What a file says of one player's checkers.
#[derive(Clone, Copy, Debug, PartialEq, Eq)]
pub struct Side {
    /// The checkers.
    pub position: Position,

    /// The mean number of rolls.
    pub rolls: Rounded,

    /// The effective pip count.
    pub epc: Rounded,

    /// The effective pip count less the pip count, in thousandths.
    pub wastage: u64,

    /// The standard deviation of the number of rolls, in thousandths.
    pub deviation: u64,

    /// The shares of 0 to 33 rolls, over 36 ^ 33.
    pub shares: [BoardMean; 34],
}

impl Side {
    /// What a file says of a position of at most its bound; none only where its bytes were changed
    /// since they were accepted.
    pub fn of(opened: &Opened<'_>, position: Position) -> Option<Side>
        requires { pips_of position ≤ (book_by opened.now).bound }
        ensures { IfSome result (IsSide opened.now position) }
    {
        let rank = opened.rank(&position);
        let rolls = opened.rolls(rank)?;
        let epc = opened.epc(rank)?;
        let told = opened.shares(rank)?;
        let shares = long_shares(opened.kind(), &told)?;
        Some(Side {
            position,
            rolls,
            epc,
            wastage: epc
                .thousandths
                .saturating_sub(1000 * u64::from(position.pips())),
            deviation: deviation(rolls.thousandths.min(MOST), &shares),
            shares,
        })
    }

    /// The share of a number of rolls, and none of more than 33.
    pub(crate) fn share(&self, rolls: u8) -> BoardMean
        ensures { result ≡ slice_index self.now.shares rolls }
    {
        match self.shares.get(usize::from(rolls)) {
            Some(share) => *share,
            None => BoardMean::ZERO,
        }
    }
}

/// Shares over 36 ^ 33, of those of a kind of file; none where one is over 33 times the whole.
fn long_shares(kind: Kind, shares: &[Wide; 34]) -> Option<[BoardMean; 34]>
    ensures { IfSome result (λ long. (k : ℕ) → k < 34
        → slice_index long k ≡ scale_as kind * slice_index shares.now k) }
{
    let mut long = [BoardMean::ZERO; 34];
    for k in 0..34 {
        long[k] = long_share(kind, shares[k])?;
    }
    Some(long)
}

/// A share over 36 ^ 33, of one of a kind of file.
fn long_share(kind: Kind, share: Wide) -> Option<BoardMean>
    ensures { IfSome result (λ long. long ≡ scale_as kind * share) }
{
    let (upper, lower) = match kind {
        Kind::Database => (share, 0),
        Kind::Board => share.divided(PART),
    };
    if upper.high() != 0 {
        return None;
    }
    BoardMean::new(upper.low(), lower)
}

/// The standard deviation of shares about a mean, both in thousandths, rounded to the nearest: the
/// shares are rounded down to numerators over 36 ^ 11.
fn deviation(mean: u64, shares: &[BoardMean; 34]) -> u64
    requires { mean ≤ 33000 }
    ensures { IsRoot (variance mean shares.now) result }
{
    let mut sum: u128 = 0;
    for k in 0..34u64 {
        sum += weighted_square(shares[k as usize], (1000 * k).abs_diff(mean));
    }
    root(sum / u128::from(PART))
}

/// The square of a number of thousandths of a roll, as often as a share over 36 ^ 11 says.
fn weighted_square(share: BoardMean, thousandths: u64) -> u128
    requires { thousandths ≤ 33000 }
    ensures value { result ≡ share / 36 ^ 22 * thousandths * thousandths }
    ensures range { result ≤ 2 ^ 93 }
{
    share.upper() / u128::from(PART) * u128::from(thousandths) * u128::from(thousandths)
}

/// The number that is nearest to the square root of another one.
fn root(square: u128) -> u64
    requires { square < 2 ^ 100 }
    ensures { IsRoot square result }
{
    ((4 * square).isqrt().div_ceil(2)) as u64
}
