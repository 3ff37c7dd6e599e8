//! Files as bytes: the header and the records of a database and of a board file, and what a record
//! of a board file has to say by those of lower rank. It rests on `race_model` for the grammar of
//! the files and for how large numbers are where the equations hold, on `fixed_fraction` for exact
//! sums, and on `least_plays` for how best plays ask for means; the crates above may use that bytes
//! are read exactly where the grammar has them, that what is written reads back, and that the
//! numbers of a next record are those of the equations.
#![tactic(auto)]

pub use board_header::{BoardHeader, parse_board_header};
pub use board_numbers::{count_of, mean_of};
pub use board_places::{board_length, count_place};
pub use board_record::{BoardRecord, Parts};
pub use board_words::{WORDS, word_sums};
pub use board_writing::{put_count, put_mean, put_plays};
pub use header::{Header, HeaderFault, parse_header};
pub use lower_records::{LowerRecords, RecordStarts};
pub use places::{Place, most_rolls, record_length};
pub use record::{HEADER_BYTES, RECORD_BYTES, RecordView, read_short};
pub use stated::{BOARD_BOUND, BOARD_VERSION, COMPACT_VERSION, Kind, VERSION};
pub use stored_shares::StoredShares;
pub use write_fault::WriteFault;
pub use writing::{header_bytes, put_record_bytes, write_bytes, write_header, write_record};

pub mod board_header;
pub mod board_numbers;
pub mod board_places;
pub mod board_record;
pub mod board_words;
pub mod board_writing;
pub mod header;
pub mod lower_records;
pub mod places;
pub mod record;
pub mod stated;
pub mod stored_shares;
pub mod write_fault;
pub mod writing;
