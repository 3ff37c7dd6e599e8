//! Lines and what is answered to them. The expected numbers come from the rules of backgammon,
//! worked out by hand and with exact fractions, and not from this program. The lines of 44 pips,
//! lines of a million bytes and the levels of an audit are asked of the program
//! (`tests/test_program.py`); inputs in parts, and reads, writes and tables that fail at each of
//! their calls are in `failing_calls`.
use crate::given::{accepted, answers, database, put};
use db_reader::Whole;
use fixed_fraction::{Scaled, WideFraction, mean};
use query_text::{Text, put_loss};
use std::test::Fail;

/// Inputs to the database of 8 pips, what is written of each, and how many lines it has.
const INPUTS: [(&[u8], &[u8], u64); 12] = [
    (
        b"mean 0,0,0,0,0,1\ndist 5,0,0,0,0,0\nplay 0,0,0,2,0,0 21\n",
        b"mean 5/4 epc 245/24 10.208\ndist 2:11/36 3:25/36\nplay 4/2 2/1 to 1,0,0,1,0,0\n",
        3,
    ),
    (
        b"mean 0,0,1,0,0,0\r\n\nrank 1,0,0,0,0,0",
        b"mean 1/1 epc 49/6 8.167\nerror bad-line\nrank 1\n",
        3,
    ),
    (
        b"moves 0,0,0,2,0,0 21\n",
        b"moves 1,0,0,1,0,0:0/1 0,1,1,0,0,0:1/9\n",
        1,
    ),
    (b"", b"", 0),
    (
        b"rank 1,0,0,0,0,0\r\r\nrank 1,0,0,0,0,0\nrank 1,0,0,0,0,0\r",
        b"error bad-line\nrank 1\nerror bad-line\n",
        3,
    ),
    (
        b"loss 0,0,0,0,0,0 11 0,0,0,0,0,0\nloss 0,0,0,0,0,15 11 0,0,0,0,0,16\n",
        b"error finished\nerror too-many\n",
        2,
    ),
    (
        b"moves 0,0,0,0,0,0 11\nmoves 0,0,0,0,0,1 11\nrank 0,0,0,1,1,0\nrank 0,0,0,2,0,0\n",
        b"error finished\nmoves 0,1,0,0,0,0:0/1\nerror over-bound\nrank 44\n",
        4,
    ),
    (
        b" rank 0,0,0,0,0,0\nMEAN 0,0,0,0,0,0\nrank  0,0,0,0,0,0\nrank 0,0,0,0,0,0 \n",
        b"error bad-line\nerror bad-line\nerror bad-line\nerror bad-line\n",
        4,
    ),
    (
        b"\0\n\xff\nmean 999,0,0,0,0,0\nrank\nloss 0,0,0,0,0,16\n",
        b"error bad-line\nerror bad-line\nerror too-many\nerror bad-line\nerror bad-line\n",
        5,
    ),
    (b"\r\n", b"error bad-line\n", 1),
    (b"\r", b"error bad-line\n", 1),
    (
        b"mean 0,0,0,1,1,0\ndist 0,0,0,1,1,0\nplay 0,0,0,1,1,0 21\n",
        b"error over-bound\nerror over-bound\nerror over-bound\n",
        3,
    ),
];

#[test]
fn inputs_and_replies(rt: HostRuntime) -> Result<(), Fail> {
    let file = database(rt.alloc(), 8)?;
    let mut checked = accepted(Whole::new(file.as_slice()))?;
    for (input, replies, lines) in INPUTS {
        let (written, told) = answers(rt.alloc(), &mut checked, input);
        assert_eq!(rt; written.as_slice(), replies);
        assert_eq!(rt; told, Ok(lines));
    }
    Ok(())
}

#[test]
fn recorded_plays_are_told(rt: HostRuntime) -> Result<(), Fail> {
    let input = b"play 0,1,0,1,0,0 21\n";
    let mut file = database(rt.alloc(), 6)?;
    let mut checked = accepted(Whole::new(file.as_slice()))?;
    let (written, _) = answers(rt.alloc(), &mut checked, input);
    assert_eq!(rt;
        written.as_slice(),
        b"play 2/off 4/3 to 0,0,1,0,0,0\n".as_slice()
    );

    // rank 21 with 21 is recorded as rank 5, which needs as many rolls as rank 4
    put(&mut file, 32 + 426 * 21 + 18, &[0, 5]);
    let mut checked = accepted(Whole::new(file.as_slice()))?;
    let (written, _) = answers(rt.alloc(), &mut checked, input);
    assert_eq!(rt;
        written.as_slice(),
        b"play 4/2 2/1 to 1,1,0,0,0,0\n".as_slice()
    );
    Ok(())
}

// 36 ^ 22 is 17324272922341479351919144385642496, and 3 ^ 44 is 984770902183611232881. A number of
// more than 18 digits is written in two parts.
#[test]
fn numbers_of_one_and_two_parts(rt: HostRuntime) -> Result<(), Fail> {
    for (numerator, expected) in [
        (0, "loss 0/1"),
        (1, "loss 1/17324272922341479351919144385642496"),
        (
            999999999999999997,
            "loss 999999999999999997/17324272922341479351919144385642496",
        ),
        (
            17592186044416000000000000000000,
            "loss 1000000000000000000/984770902183611232881",
        ),
        (
            1000000000000000001,
            "loss 1000000000000000001/17324272922341479351919144385642496",
        ),
        (
            300000000000000000000000000000000007,
            "loss 300000000000000000000000000000000007/17324272922341479351919144385642496",
        ),
    ] {
        let mut text = Text::new();
        let loss = Scaled::new(numerator).ok_or("over 22 rolls")?;
        put_loss(&mut text, WideFraction::of(mean(loss)));
        assert_eq!(rt; text.as_str(), expected);
    }
    Ok(())
}
