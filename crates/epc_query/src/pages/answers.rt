//! The answer to a line.
ghost use Rattle.std.specs.Prelude.{◌≡◌, ℕ, List, Err, IfOk, IfErr};
ghost use Rattle.race_model.specs.Prelude.{bound_of, book_of, IsAccepted};
ghost use Rattle.db_reader.specs.Telling.{WhereTold};
ghost use Rattle.certificate.specs.Databases.{Stays};
ghost use Rattle.query_text.specs.Readings.{asked, IsAnswerable};
ghost use Rattle.epc_query.specs.Answers.{IsReplyTo};
ghost use Rattle.epc_query.specs.Faults.{IsFaultOfQuery, IsHeard, IsStopOf};

use crate::answers::Answers;
use crate::pages::losses::loss;
use crate::pages::moves::moves;
use crate::run_fault::RunFault;
use certificate::{Checked, QueryFault};
use db_layout::WriteFault;
use db_reader::Table;
use fixed_fraction::{epc, mean};
use query_text::{Query, Reply, Text, accepted_query, write_reply_by};
use race_model::laws;
use std::alloc::Global;
use std::io::Write;
use thiserror::Error;

/// Why a line is not answered.
#[derive(Clone, Copy, Debug, PartialEq, Eq, Error)]
pub enum Stop {
    /// There was no memory for a list of moves.
    #[error("no memory for a list of moves")]
    Memory,

    /// A record could not be read, or holds numbers that no accepted record can hold.
    #[error("a record could not be read")]
    Read,
}

/// What a query is answered with that is not refused.
fn ask<T: Table>(alloc: Global, checked: &mut Checked<T>, query: Query) -> Result<Reply, QueryFault>
    requires { IsAnswerable (checked.old.bound) (asked query) }
    ensures told { WhereTold checked.old.told (λ file. IfOk result (λ reply. (line : List ℕ)
        → IsAccepted (bound_of file) line (asked query) → IsReplyTo file line reply)) }
    ensures heard { IfOk result (λ reply. (bound : ℕ) (line : List ℕ)
        → IsAccepted bound line (asked query) → IsHeard bound line reply) }
    ensures fault { IfErr result (IsFaultOfQuery (checked.old.bound) (asked query)) }
    ensures stays { Stays checked.old checked.new (result ≡ Err QueryFault.Read) }
{
    match query {
        Query::Mean(position) => {
            let rolls = checked.scaled(&position)?;
            Ok(Reply::Mean {
                mean: mean(rolls),
                epc: epc(rolls),
            })
        }
        Query::Dist(position) => Ok(Reply::Dist(checked.spread(&position)?)),
        Query::Play(position, roll) => {
            let (play, to) = checked.play(&position, roll)?;
            Ok(Reply::Play { play, to })
        }
        Query::Loss(position, roll, to) => {
            let lost = loss(checked, &position, roll, &to)?;
            Ok(Reply::Loss(lost))
        }
        Query::Moves(position, roll) => {
            let choices = moves(alloc, checked, &position, roll)?;
            Ok(Reply::Moves(choices))
        }
        Query::Rank(position) => Ok(Reply::Rank(checked.ranks().rank(&position))),
    }
}

/// Answers a line, which comes without its line feed: with what the database says, or why it is
/// refused. It is stopped as `Memory` only at a line that asks for a list of moves and has no
/// refusal, and as `Read` where a record could not be read, or, read again, holds numbers that no
/// accepted record can hold: at no line that is refused, and at none that asks for a rank. The
/// database stays as it was.
pub fn answer_line<T: Table>(
    alloc: Global,
    checked: &mut Checked<T>,
    line: &[u8],
) -> Result<Reply, Stop>
    ensures reply { WhereTold checked.old.told
        (λ file. IfOk result (IsReplyTo file line.now)) }
    ensures heard { IfOk result (IsHeard (checked.old.bound) line.now) }
    ensures stop { IfErr result (IsStopOf (checked.old.bound) line.now) }
    ensures stays { Stays checked.old checked.new (result ≡ Err Stop.Read) }
{
    match accepted_query(line, checked.bound()) {
        Ok(query) => match ask(alloc, checked, query) {
            Ok(reply) => Ok(reply),
            Err(QueryFault::Memory) => Err(Stop::Memory),
            Err(_) => Err(Stop::Read),
        },
        Err(refusal) => Ok(Reply::Refused(refusal)),
    }
}

/// An accepted table answers lines by its replies.
impl<T: Table> Answers for Checked<T> {
    ghost seen = { λ checked. checked };

    ghost book = { book_of };

    fn write_answer<W: Write>(
        &mut self,
        alloc: Global,
        line: &[u8],
        text: &mut Text,
        writer: &mut W,
    ) -> Result<(), RunFault> {
        laws::law_lines();
        laws::law_replies();
        crate::laws::law_reply_text();
        let _bound = self.bound();
        match answer_line(alloc, self, line) {
            Ok(reply) => match write_reply_by(text, &reply, writer) {
                Ok(()) => Ok(()),
                Err(WriteFault) => Err(RunFault::Write),
            },
            Err(Stop::Memory) => Err(RunFault::Memory),
            Err(Stop::Read) => Err(RunFault::Table),
        }
    }
}
