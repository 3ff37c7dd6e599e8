//! Tables: where the header and the records of a database are read. It rests on `db_layout` for
//! the bytes of a header and of a record, and on `race_model` for what a database file is. The
//! crates above read by the trait `Table` alone, and may use that a table which tells its bytes
//! answers the header and the records of these bytes, and fails only where it says so. `Whole` is
//! the table over bytes in memory, and `Paged` the one over pages of a source, as of a file.
#![tactic(auto)]

pub use file_source::FileSource;
pub use paged::{Paged, PagedFault};
pub use record::Record;
pub use slice_source::SliceSource;
pub use source::{Source, SourceFault};
pub use table::{ReadFault, Table, TableFault};
pub use whole::Whole;

mod countdown;
pub mod file_source;
mod front;
pub mod paged;
pub mod record;
pub mod refused_writes;
pub mod slice_source;
pub mod source;
pub mod table;
pub mod trial;
pub mod whole;
