//! In how many calls replies are written, and that they are flushed before the next read.
use crate::given::{accepted, database};
use db_reader::Whole;
use db_reader::refused_writes::RefuseAt;
use epc_query::{RunFault, run};
use std::alloc::Global;
use std::test::Fail;

/// What `run` gives of an input over the database of 8 pips, with so many reads at most.
fn answered(
    alloc: Global,
    input: &[u8],
    pipe: &mut RefuseAt,
    turns: u64,
) -> Result<Result<u64, RunFault>, Fail> {
    let file = database(alloc, 8)?;
    let mut checked = accepted(Whole::new(file.as_slice()))?;
    let mut reader = input;
    Ok(run(alloc, &mut checked, &mut reader, pipe, turns))
}

#[test]
fn whole_lines_are_flushed_before_the_next_read(rt: HostRuntime) -> Result<(), Fail> {
    let mut pipe = RefuseAt::never(rt.alloc(), usize::MAX);
    let input = b"rank 0,0,0,0,0,1\nplay 0,0,0,2,0,0 21\nrank 1,0";
    assert_eq!(rt;
        answered(rt.alloc(), input, &mut pipe, 1)?,
        Err(RunFault::Turns)
    );
    let replies = b"rank 19\nplay 4/2 2/1 to 1,0,0,1,0,0\n";
    assert_eq!(rt; pipe.written.as_slice(), replies.as_slice());
    assert_eq!(rt; pipe.flushed, replies.len());
    assert_eq!(rt; pipe.calls, 2);
    Ok(())
}

#[test]
fn all_lines_of_a_read_are_flushed(rt: HostRuntime) -> Result<(), Fail> {
    let mut pipe = RefuseAt::never(rt.alloc(), usize::MAX);
    let mut input = Vec::new(rt.alloc());
    for _ in 0..240 {
        input.extend_from_slice(b"rank 0,0,0,0,0,1\n")?;
    }
    assert_eq!(rt;
        answered(rt.alloc(), input.as_slice(), &mut pipe, 1)?,
        Err(RunFault::Turns)
    );
    assert_eq!(rt; pipe.written.len(), 240 * "rank 19\n".len());
    assert_eq!(rt; pipe.flushed, pipe.written.len());
    Ok(())
}

#[test]
fn one_call_of_write_for_each_reply(rt: HostRuntime) -> Result<(), Fail> {
    let lines: [&[u8]; 8] = [
        b"mean 0,0,0,0,0,1\n",
        b"dist 2,0,2,0,0,0\n",
        b"play 0,0,0,2,0,0 21\n",
        b"loss 0,0,0,2,0,0 21 0,1,1,0,0,0\n",
        b"moves 0,0,0,2,0,0 21\n",
        b"rank 0,0,0,0,0,1\n",
        b"mean 0,0,0,0,0,2\n",
        b"none\n",
    ];
    for line in lines {
        let mut pipe = RefuseAt::never(rt.alloc(), usize::MAX);
        assert_eq!(rt; answered(rt.alloc(), line, &mut pipe, 2)?, Ok(1));
        assert_eq!(rt; pipe.calls, 1);
        assert_eq!(rt; pipe.flushed, pipe.written.len());
    }
    Ok(())
}

#[test]
fn a_flush_that_fails(rt: HostRuntime) -> Result<(), Fail> {
    let mut pipe = RefuseAt::never(rt.alloc(), usize::MAX);
    pipe.flush_fails = true;
    let input = b"rank 0,0,0,0,0,1\n";
    assert_eq!(rt;
        answered(rt.alloc(), input, &mut pipe, 2)?,
        Err(RunFault::Write)
    );
    assert_eq!(rt; pipe.written.as_slice(), b"rank 19\n".as_slice());
    Ok(())
}
