//! A program that computes with numbers of the whole board as its input asks. A line is a word and
//! numbers; the reply is numbers, or `none` where there is no result, with 1 and 0 for yes and no.
//! Three numbers stand for those that the 21 rolls lead to: which of them is that of a roll, the
//! digits to the base of three of a number before them say. `tests/test_numbers.py` compares the
//! replies with Python's integers. It rests on `fixed_fraction`; nothing stands on it.
#![tactic(auto)]

use crate::numbers::Numbers;
use std::io;

mod counts;
mod means;
mod numbers;

fn main(rt: HostRuntime) -> io::Result<()> {
    for line in rt.lines(rt.alloc()) {
        let line = line?;
        let mut words = line.as_str().split_ascii_whitespace();
        let word = words.next().unwrap_or("");
        let mut given = Numbers::none();
        for text in words {
            given.add(text.parse().unwrap_or(0));
        }
        match reply(word, &given) {
            Some(told) => {
                let mut between = "";
                for number in told.all() {
                    print!(rt; "{between}{number}")?;
                    between = " ";
                }
                println!(rt; "")?;
            }
            None => println!(rt; "none")?,
        }
    }
    Ok(())
}

/// What is computed of the numbers, by the word.
fn reply(word: &str, given: &Numbers) -> Option<Numbers> {
    match word {
        "mean" => means::mean_of_sum(given),
        "is_mean" => means::is_mean_of_sum(given),
        "order" => means::order(given),
        "minus" => means::minus(given),
        "rounded" => means::rounded(given),
        "fractions" => means::fractions(given),
        "long" => counts::long_sum(given),
        "share" => counts::share(given),
        _ => None,
    }
}
