//! Facts about the definitions, each on a function with an empty body: a call
//! brings the fact into the caller's proof, and costs nothing when it runs.

pub use books::{law_boards, law_books, law_endings, law_further, law_loss, law_widths};
pub use faults::{law_first_board_fault, law_first_fault, law_header};
pub use numbers::{law_bounds, law_fractions};
pub use plays::{
    law_enumerated, law_most_dice, law_playable, law_results, law_reversed, law_rolls,
};
pub use ranks::{law_at_rank, law_counts, law_rank};
pub use replies::{law_input_lines, law_lines, law_replies};
pub use right_files::{law_agree, law_recorded, law_right, law_spread, law_upgrade, law_versions};
pub use strategies::{law_horizon, law_least, law_sample, law_scale, law_turn};

pub mod books;
pub mod faults;
pub mod numbers;
pub mod plays;
pub mod ranks;
pub mod replies;
pub mod right_files;
pub mod strategies;
