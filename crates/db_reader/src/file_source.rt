//! An opened file, as a source of bytes.
ghost use Rattle.std.specs.Prelude.{None};

use crate::source::{Source, SourceFault};
use std::io::{Read, Seek, SeekFrom};

/// The source of an opened file. No contract can say what a file holds, so it tells nothing: that
/// it answers the file's length and bytes is tested. A file that ends before the bytes that are
/// asked for is a fault.
#[derive(Drop)]
pub struct FileSource<F> {
    file: F,
}

impl<F: Read + Seek> FileSource<F> {
    /// The source of this file.
    pub fn new(file: F) -> Self {
        FileSource { file }
    }
}

impl<F: Read + Seek> Source for FileSource<F> {
    ghost tells = { λ _. None };

    ghost failures = { λ _. 0 };

    fn length(&mut self) -> Result<u64, SourceFault> {
        self.file.seek(SeekFrom::End(0)).map_err(|_| SourceFault)
    }

    fn read_at(&mut self, offset: u64, into: &mut [u8]) -> Result<(), SourceFault> {
        if self.file.seek(SeekFrom::Start(offset)).is_err() {
            return Err(SourceFault);
        }
        self.file.read_exact(into).map_err(|_| SourceFault)
    }
}
