//! What a random trial can find to be wrong.
use certificate::QueryFault;
use std::alloc::AllocError;

/// What was not as it has to be.
#[derive(Clone, Copy, Debug, PartialEq, Eq)]
pub enum Difference {
    /// The rank of a position and the number of positions that come before it.
    Ranks,

    /// The results of a roll and those of the plain program.
    Results,

    /// The mean of a position and that of its best results, or of its record.
    Means,

    /// A text of a position and the position that is read from it.
    Texts,

    /// What the checker says of a file in memory and by pages.
    Verdicts,

    /// The replies to an input in memory and by pages, in parts, or over a board file.
    Replies,

    /// What the checker says of a board file and what a plain one says; or the file of a bound and
    /// the whole board.
    Boards,

    /// A record of the whole board and what a plain program wants there.
    Records,

    /// The counts that a board file says and those in its record.
    Counts,

    /// There was no memory.
    Memory,
}

impl Difference {
    /// Its word, as it is printed.
    pub(crate) fn name(self) -> &'static str {
        match self {
            Difference::Ranks => "ranks",
            Difference::Results => "results",
            Difference::Means => "means",
            Difference::Texts => "texts",
            Difference::Verdicts => "verdicts",
            Difference::Replies => "replies",
            Difference::Boards => "boards",
            Difference::Records => "records",
            Difference::Counts => "counts",
            Difference::Memory => "memory",
        }
    }

    /// Ok where something holds, and else this difference.
    pub(crate) fn unless(self, holds: bool) -> Result<(), Difference> {
        if holds { Ok(()) } else { Err(self) }
    }
}

impl From<AllocError> for Difference {
    fn from(_error: AllocError) -> Self {
        Difference::Memory
    }
}

impl From<QueryFault> for Difference {
    fn from(_fault: QueryFault) -> Self {
        Difference::Means
    }
}
