//! What a play costs against the best one.
ghost use Rattle.std.specs.Prelude.{◌≡◌, ◌≤◌, Err, IfOk, IfErr, OnOk, OnErr};
ghost use Rattle.race_model.specs.Prelude.{IsPosition, IsFinished, pips, Legal, mean as mean_of, mean_at, play, whole};
ghost use Rattle.race_model.specs.Prelude.{IsFraction, loss, IsLoss, loss_query};
ghost use Rattle.db_reader.specs.Telling.{WhereTold};
ghost use Rattle.certificate.specs.Databases.{Stays};
ghost use Rattle.query_text.specs.Readings.{IsAnswerable};
ghost use Rattle.epc_query.specs.Faults.{IsFaultOfQuery};

use certificate::{Checked, QueryFault};
use db_reader::Table;
use fixed_fraction::{Fraction, Scaled, mean};
use home_board::Position;
use legal_plays::{Roll, play_to};
use race_model::laws;

/// What a result of a roll costs: the mean number of rolls after it less the least such mean
/// among all results, in lowest terms. Refused as `OverBound` where the first position has more
/// pips than the bound, else as `Finished` where no checker is left there, else as `NotLegal`
/// where the roll doesn't lead to the second position, and as `Read` where a record could not be
/// read, or, read again, holds numbers that no accepted record can hold.
#[inline(never)]
pub fn loss<T: Table>(
    checked: &mut Checked<T>,
    position: &Position,
    roll: Roll,
    to: &Position,
) -> Result<Fraction, QueryFault>
    ensures answerable { OnOk result
        (IsAnswerable (checked.old.bound) (loss_query position.now roll to.now)) }
    ensures fault { IfErr result
        (IsFaultOfQuery (checked.old.bound) (loss_query position.now roll to.now)) }
    ensures recorded { WhereTold checked.old.told (λ file. IfOk result (λ lost.
        IsFraction (loss file position.now roll to.now) whole lost.numerator lost.denominator)) }
    ensures lost { WhereTold checked.old.told (λ file. OnOk result
        (IsLoss position.now roll to.now (loss file position.now roll to.now))) }
    ensures stays { Stays checked.old checked.new (result ≡ Err QueryFault.Read) }
{
    laws::law_loss();
    if position.pips() > checked.bound() {
        return Err(QueryFault::OverBound);
    }
    if position.is_finished() {
        return Err(QueryFault::Finished);
    }
    if play_to(position, roll, to).is_none() {
        return Err(QueryFault::NotLegal);
    }
    lost(checked, position, roll, to)
}

/// What a result of a roll costs that it leads to from an unfinished position of at most the
/// bound.
fn lost<T: Table>(
    checked: &mut Checked<T>,
    position: &Position,
    roll: Roll,
    to: &Position,
) -> Result<Fraction, QueryFault>
    requires within { pips position.now ≤ checked.old.bound }
    requires position { IsPosition position.now }
    requires unfinished { ¬ IsFinished position.now }
    requires legal { Legal position.now roll to.now }
    ensures fault { OnErr result (result ≡ Err QueryFault.Read) }
    ensures recorded { WhereTold checked.old.told (λ file. IfOk result (λ lost.
        IsFraction (loss file position.now roll to.now) whole lost.numerator lost.denominator)) }
    ensures stays { Stays checked.old checked.new (result ≡ Err QueryFault.Read) }
{
    let least = least_mean(checked, position, roll)?;
    let lost = lost_beside(checked, position, roll, least, to)?;
    Ok(mean(lost))
}

/// What a result of a roll costs beside the least mean, in rolls.
pub(crate) fn lost_beside<T: Table>(
    checked: &mut Checked<T>,
    position: &Position,
    roll: Roll,
    least: Scaled,
    to: &Position,
) -> Result<Scaled, QueryFault>
    requires within { pips position.now ≤ checked.old.bound }
    requires position { IsPosition position.now }
    requires legal { Legal position.now roll to.now }
    requires least { WhereTold checked.old.told
        (λ file. least ≡ mean_at file (play file position.now roll)) }
    ensures fault { OnErr result (result ≡ Err QueryFault.Read) }
    ensures recorded { WhereTold checked.old.told
        (λ file. IfOk result (λ lost. lost ≡ loss file position.now roll to.now)) }
    ensures stays { Stays checked.old checked.new (result ≡ Err QueryFault.Read) }
{
    laws::law_loss();
    laws::law_results();
    let _bound = checked.bound();
    let after = recorded_mean(checked, to)?;
    match after.minus(least) {
        Some(difference) => Ok(difference),
        None => Err(QueryFault::Read),
    }
}

/// The least mean after a roll from an unfinished position of at most the bound: that after the
/// recorded play.
pub(crate) fn least_mean<T: Table>(
    checked: &mut Checked<T>,
    position: &Position,
    roll: Roll,
) -> Result<Scaled, QueryFault>
    requires within { pips position.now ≤ checked.old.bound }
    requires position { IsPosition position.now }
    requires unfinished { ¬ IsFinished position.now }
    ensures fault { OnErr result (result ≡ Err QueryFault.Read) }
    ensures recorded { WhereTold checked.old.told
        (λ file. IfOk result (λ least. least ≡ mean_at file (play file position.now roll))) }
    ensures stays { Stays checked.old checked.new (result ≡ Err QueryFault.Read) }
{
    laws::law_results();
    let _bound = checked.bound();
    match checked.play(position, roll) {
        Ok(answer) => recorded_mean(checked, &answer.1),
        Err(_) => Err(QueryFault::Read),
    }
}

/// The recorded mean of a position of at most the bound.
pub(crate) fn recorded_mean<T: Table>(
    checked: &mut Checked<T>,
    position: &Position,
) -> Result<Scaled, QueryFault>
    requires { pips position.now ≤ checked.old.bound }
    ensures fault { OnErr result (result ≡ Err QueryFault.Read) }
    ensures recorded { WhereTold checked.old.told
        (λ file. IfOk result (λ mean. mean ≡ mean_of file position.now)) }
    ensures stays { Stays checked.old checked.new (result ≡ Err QueryFault.Read) }
{
    match checked.scaled(position) {
        Ok(mean) => Ok(mean),
        Err(_) => Err(QueryFault::Read),
    }
}
