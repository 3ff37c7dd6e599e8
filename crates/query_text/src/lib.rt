//! Lines of text: what a line asks, and the text of what it is answered with. It knows no file and
//! nothing that answers. It rests on `home_board` and `legal_plays` for the texts of positions,
//! rolls and plays, on `fixed_fraction` for the numbers that stand in replies, on `db_layout` for
//! the writing of bytes, and on `race_model` for what a line asks and what a reply's text is. The
//! crates above may use what a line asks, or why it is refused (`accepted_query`), the text of each
//! reply, and which bytes of a line that is longer
//! than any query are looked at (`LineBuffer`).
#![tactic(auto)]

mod line_buffer;
mod query;
mod refusals;
mod reply;
mod text;
mod writing;

pub use line_buffer::{LineBuffer, whole_line};
pub use query::{Query, read_mean_query};
pub use refusals::accepted_query;
pub use reply::{Choice, Level, Refusal, Reply};
pub use text::{
    TEXT_ROOM, Text, push_choice, push_fraction, push_play, push_position, push_share,
    push_thousandths, put_dist, put_dist_word, put_level, put_loss, put_mean, put_moves, put_play,
    put_rank, put_refusal,
};
pub use writing::{write_level, write_line, write_reply, write_reply_by};
