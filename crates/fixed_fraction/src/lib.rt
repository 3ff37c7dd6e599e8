//! Exact numbers of a bearoff database: mean numbers of rolls and shares as numerators over
//! 36 ^ 22, and the fractions in lowest terms and thousandths that replies print. For the whole
//! board, whose games take up to 33 rolls, there are means over 36 ^ 33 in two parts, counts of
//! sequences of throws in place of shares, and fractions of 192 bits. It rests on `race_model` for
//! the denominator and for what a mean, an effective pip count and lowest terms are; the crates
//! above may use that both `pull`s and all sums are exact, that a fraction keeps its value in
//! lowest terms, and that thousandths round half up.
#![tactic(auto)]

pub use board_mean::BoardMean;
pub use counts::{LongCount, ShortCount};
pub use fraction::{Fraction, epc, mean, mean_and_epc, share, thousandths, thousandths_of};
pub use parts::PART;
pub use roll_sum::{LongSum, Summand, sum_of};
pub use scaled::{MOST, Scaled, WHOLE, pull};
pub use spread::Spread;
pub use sums::{Distribution, Sums, WEIGHTS};
pub use wide::Wide;
pub use wide_fraction::{
    WideFraction, board_mean_and_epc, board_mean_fraction, board_share, wide_thousandths,
};

pub mod board_mean;
pub mod counts;
pub mod fraction;
mod parts;
pub mod roll_sum;
pub mod scaled;
pub mod spread;
pub mod sums;
mod terms;
pub mod wide;
pub mod wide_fraction;
