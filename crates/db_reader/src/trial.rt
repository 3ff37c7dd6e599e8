//! A source for tests of what stands on a source.
ghost use Rattle.std.specs.Prelude.{◌≡◌, ℕ, ◌+◌, ◌-◌, ◌==◌, ◌≤◌, true, false, if◌then◌else◌};
ghost use Rattle.std.specs.Prelude.{IsErr, IfOk, OnOk, List, length, take, drop};
ghost use Rattle.db_reader.specs.Telling.{WhereTold, RoseWhere};
ghost use Rattle.db_reader.specs.SourceStays.{IsCounted, source_calls};

use crate::countdown::Countdown;
use crate::source::{Source, SourceFault};

/// Another source, which fails once, at its `n`th call, and else answers as it does: for tests of
/// what happens where one read fails. It tells the bytes that the other
/// source tells, and counts the other's failures and its own.
#[derive(Drop)]
pub struct FailAt<S> {
    source: S,
    countdown: Countdown,
}

impl<S: Source> FailAt<S> {
    /// A source that fails at its `n`th call. Calls of `length` and `read_at` are numbered
    /// together from 1; with `n` 0 none fails. Total.
    pub fn new(source: S, n: u64) -> Self
        ensures tells { ⟦<FailAt<S> as Source>⟧.tells result ≡ S.tells source }
        ensures failures { ⟦<FailAt<S> as Source>⟧.failures result ≡ S.failures source }
        ensures call { (source_calls result).calls_left ≡ n }
    {
        FailAt {
            source,
            countdown: Countdown::new(n),
        }
    }
}

impl<S: Source> Source for FailAt<S> {
    ghost tells = { λ trial. S.tells trial.source };

    ghost failures = { λ trial.
        S.failures trial.source + (if trial.countdown.has_failed then 1 else 0) };

    fn length(&mut self) -> Result<u64, SourceFault>
        ensures stays { ⟦<FailAt<S> as Source>⟧.tells self.new
            ≡ ⟦<FailAt<S> as Source>⟧.tells self.old }
        ensures told { WhereTold (⟦<FailAt<S> as Source>⟧.tells self.old)
            (λ file. IfOk result (λ count. count ≡ length file)) }
        ensures cause { WhereTold (⟦<FailAt<S> as Source>⟧.tells self.old)
            (λ _. RoseWhere (IsErr result) (⟦<FailAt<S> as Source>⟧.failures self.old)
            (⟦<FailAt<S> as Source>⟧.failures self.new)) }
        ensures counted { IsCounted (source_calls self.old) (source_calls self.new)
            (IsErr result) }
    {
        if self.countdown.is_due() {
            return Err(SourceFault);
        }
        self.source.length()
    }

    fn read_at(&mut self, offset: u64, into: &mut [u8]) -> Result<(), SourceFault>
        requires { WhereTold (⟦<FailAt<S> as Source>⟧.tells self.old)
            (λ file. offset + length into.old ≤ length file) }
        ensures stays { ⟦<FailAt<S> as Source>⟧.tells self.new
            ≡ ⟦<FailAt<S> as Source>⟧.tells self.old }
        ensures told { WhereTold (⟦<FailAt<S> as Source>⟧.tells self.old)
            (λ file. OnOk result (into.new ≡ take (length into.old) (drop offset file))) }
        ensures cause { WhereTold (⟦<FailAt<S> as Source>⟧.tells self.old)
            (λ _. RoseWhere (IsErr result) (⟦<FailAt<S> as Source>⟧.failures self.old)
            (⟦<FailAt<S> as Source>⟧.failures self.new)) }
        ensures counted { IsCounted (source_calls self.old) (source_calls self.new)
            (IsErr result) }
    {
        if self.countdown.is_due() {
            return Err(SourceFault);
        }
        self.source.read_at(offset, into)
    }
}
