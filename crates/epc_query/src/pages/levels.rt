//! The positions of one pip count.
ghost use Rattle.std.specs.Prelude.{◌≡◌, ℕ, ◌*◌, ◌<◌, ◌≤◌, List, Err, IfOk, IfErr, OnOk, OnErr};
ghost use Rattle.race_model.specs.Prelude.{first_of, count_to, mean_at, whole};
ghost use Rattle.db_reader.specs.Telling.{WhereTold};
ghost use Rattle.certificate.specs.Databases.{Stays};
ghost use Rattle.epc_query.specs.LevelMeans.{AreMeansOf, HasLevel, IsLevelFault};

use crate::pages::losses::recorded_mean;
use certificate::{Checked, QueryFault};
use db_reader::Table;
use fixed_fraction::{MOST, Scaled, mean};
use query_text::Level;
use race_model::laws;
use ranking::{count_to, first_of};

/// How many positions have a pip count, and the least and the greatest of their means. Refused as
/// `OverBound` where the pip count is over the bound, and as `Read` where a record could not be
/// read, or, read again, holds numbers that no accepted record can hold.
pub fn audit_level<T: Table>(checked: &mut Checked<T>, pips: u8) -> Result<Level, QueryFault>
    ensures within { OnOk result (pips ≤ checked.old.bound) }
    ensures fault { IfErr result (IsLevelFault (checked.old.bound) pips) }
    ensures level { WhereTold checked.old.told (λ file. IfOk result (HasLevel file pips)) }
    ensures stays { Stays checked.old checked.new (result ≡ Err QueryFault.Read) }
{
    laws::law_counts();
    if pips > checked.bound() {
        return Err(QueryFault::OverBound);
    }
    let means = means_of(checked, first_of(pips), count_to(pips))?;
    Ok(level_of(pips, means))
}

/// The least and the greatest of some means, as numerators over 36 ^ 22.
#[derive(Clone, Copy, Debug, PartialEq, Eq)]
struct LevelMeans {
    /// The least, and 22 rolls where there is none.
    least: u128,

    /// The greatest, and 0 where there is none.
    greatest: u128,
}

impl LevelMeans {
    /// Those of no position.
    const NONE: LevelMeans = LevelMeans {
        least: MOST,
        greatest: 0,
    };
}

/// The positions of a pip count of at most 58, by the least and the greatest of their means.
fn level_of(pips: u8, means: LevelMeans) -> Level
    requires low { pips ≤ 58 }
    requires least { means.least ≤ 22 * whole }
    requires greatest { means.greatest ≤ 22 * whole }
    ensures { (file : List ℕ) →
        AreMeansOf (mean_at file) (first_of pips) (count_to pips) means.least means.greatest →
        HasLevel file pips result }
{
    laws::law_rank();
    laws::law_at_rank();
    laws::law_counts();
    Level {
        pips,
        positions: count_to(pips) - first_of(pips),
        least: mean(Scaled::new(means.least).unwrap()),
        greatest: mean(Scaled::new(means.greatest).unwrap()),
    }
}

/// The least and the greatest mean of the ranks from one on and before another.
fn means_of<T: Table>(
    checked: &mut Checked<T>,
    first: u16,
    end: u16,
) -> Result<LevelMeans, QueryFault>
    requires { end ≤ count_to (checked.old.bound) }
    ensures fault { OnErr result (result ≡ Err QueryFault.Read) }
    ensures least { IfOk result (λ means. means.least ≤ 22 * whole) }
    ensures greatest { IfOk result (λ means. means.greatest ≤ 22 * whole) }
    ensures means { WhereTold checked.old.told
        (λ file. IfOk result (λ means.
        AreMeansOf (mean_at file) first end means.least means.greatest)) }
    ensures stays { Stays checked.old checked.new (result ≡ Err QueryFault.Read) }
{
    laws::law_rank();
    laws::law_counts();
    let mut means = LevelMeans::NONE;
    for rank in first..end {
        let position = checked.ranks().unrank(rank).unwrap();
        let mean = recorded_mean(checked, &position)?.numerator();
        means.least = means.least.min(mean);
        means.greatest = means.greatest.max(mean);
    }
    Ok(means)
}
