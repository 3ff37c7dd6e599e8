//! All results of a roll, by what they cost.
ghost use Rattle.std.specs.Prelude.{◌≡◌, ℕ, ◌*◌, ◌≤◌, ◌↔◌, [], length, map, All, Contains, vec_capacity};
ghost use Rattle.std.specs.Prelude.{IfOk, Err, IfErr, OnOk, OnErr};
ghost use Rattle.arrayvec.specs.ArrayVec.{array_vec_len};
ghost use Rattle.race_model.specs.Prelude.{Board, IsPosition, IsFinished, pips, Legal, whole, IsFraction, loss};
ghost use Rattle.race_model.specs.Prelude.{IsMoveList, moves_query};
ghost use Rattle.legal_plays.specs.RankOrder.{IsInRankOrder};
ghost use Rattle.fixed_fraction.specs.Board.{part};
ghost use Rattle.db_reader.specs.Telling.{WhereTold};
ghost use Rattle.certificate.specs.Databases.{Stays};
ghost use Rattle.epc_query.specs.Answers.{AreChoices};
ghost use Rattle.epc_query.specs.Choices.{IsShort, result_of};
ghost use Rattle.query_text.specs.Readings.{IsAnswerable};
ghost use Rattle.epc_query.specs.Faults.{IsFaultOfQuery};

use crate::choices::{MOST_RESULTS, RankedChoice, include_choice};
use crate::pages::losses::{least_mean, lost_beside};
use arrayvec::ArrayVec;
use certificate::{Checked, QueryFault};
use db_reader::Table;
use fixed_fraction::{BoardMean, Fraction, mean};
use home_board::Position;
use legal_plays::{Roll, results};
use query_text::Choice;
use race_model::laws;
use std::alloc::Global;

/// Every result of a roll once, by rising loss and then by rising rank. Refused as `OverBound`
/// where the position has more pips than the bound, else as `Finished` where no checker is left,
/// and else as `Memory` where the list can't be had, or as `Read` where a record could not be
/// read, or, read again, holds numbers that no accepted record can hold. The memory of the list is
/// taken before the first read.
#[inline(never)]
pub fn moves<T: Table>(
    alloc: Global,
    checked: &mut Checked<T>,
    position: &Position,
    roll: Roll,
) -> Result<Vec<Choice>, QueryFault>
    ensures answerable { OnOk result
        (IsAnswerable (checked.old.bound) (moves_query position.now roll)) }
    ensures fault { IfErr result
        (IsFaultOfQuery (checked.old.bound) (moves_query position.now roll)) }
    ensures choices { WhereTold checked.old.told
        (λ file. IfOk result (λ choices. AreChoices file position.now roll choices.items)) }
    ensures stays { Stays checked.old checked.new (result ≡ Err QueryFault.Read) }
{
    if position.pips() > checked.bound() {
        return Err(QueryFault::OverBound);
    }
    if position.is_finished() {
        return Err(QueryFault::Finished);
    }
    let found = results(position, roll);
    let Ok(choices) = Vec::with_capacity(alloc, found.len()) else {
        return Err(QueryFault::Memory);
    };
    let mut ranked = ArrayVec::new();
    list(checked, position, roll, found.as_slice(), &mut ranked)?;
    Ok(in_lowest_terms(ranked.as_slice(), choices))
}

/// Puts all results of a roll from an unfinished position of at most the bound into an empty list,
/// by rising loss and then by rising rank.
fn list<T: Table>(
    checked: &mut Checked<T>,
    position: &Position,
    roll: Roll,
    found: &[Position],
    choices: &mut ArrayVec<RankedChoice, MOST_RESULTS>,
) -> Result<(), QueryFault>
    requires within { pips position.now ≤ checked.old.bound }
    requires position { IsPosition position.now }
    requires unfinished { ¬ IsFinished position.now }
    requires results { (y : Board) → Contains found.now y ↔ Legal position.now roll y }
    requires in_order { IsInRankOrder found.now }
    requires few { length found.now ≤ 127 }
    requires none { choices.old.items ≡ [] }
    ensures fault { OnErr result (result ≡ Err QueryFault.Read) }
    ensures listed { WhereTold checked.old.told (λ file. OnOk result
        (IsMoveList file position.now roll (map result_of choices.new.items))) }
    ensures losses { WhereTold checked.old.told (λ file. OnOk result
        (All (λ choice. choice.loss ≡ part * loss file position.now roll choice.to)
        choices.new.items)) }
    ensures short { OnOk result (All IsShort choices.new.items) }
    ensures len { OnOk result (array_vec_len choices.new ≤ length found.now) }
    ensures stays { Stays checked.old checked.new (result ≡ Err QueryFault.Read) }
{
    laws::law_results();
    let least = least_mean(checked, position, roll)?;
    for to in found {
        let loss = lost_beside(checked, position, roll, least, to)?;
        let _numerator = loss.numerator();
        let rank = checked.ranks().rank(to);
        include_choice(
            choices,
            RankedChoice {
                to: *to,
                rank,
                loss: BoardMean::of(loss),
            },
        );
    }
    Ok(())
}

/// Adds the results to an empty list that has room for them, each with its loss in lowest terms.
fn in_lowest_terms(ranked: &[RankedChoice], choices: Vec<Choice>) -> Vec<Choice>
    requires none { choices.items ≡ [] }
    requires room { length ranked.now ≤ vec_capacity choices }
    requires short { All IsShort ranked.now }
    ensures results { map (λ choice. choice.to) result.items ≡ map result_of ranked.now }
    ensures losses { (loss_of : Board → ℕ) →
        All (λ choice. choice.loss ≡ part * loss_of choice.to) ranked.now →
        All (λ choice. IsFraction (loss_of choice.to) whole
        choice.loss.numerator choice.loss.denominator) result.items }
{
    let mut choices = choices;
    for choice in ranked {
        let told = Choice {
            to: choice.to,
            loss: short_fraction(choice.loss),
        };
        choices.push(told).unwrap();
    }
    choices
}

/// A number of at most 22 rolls over 36 ^ 22 in lowest terms.
fn short_fraction(loss: BoardMean) -> Fraction
    requires { (n : ℕ) × (n ≤ 22 * whole) × (loss ≡ n * part) }
    ensures { (n : ℕ) → loss ≡ part * n →
        IsFraction n whole result.numerator result.denominator }
{
    mean(loss.scaled().unwrap())
}
