//! Bytes in memory, as a source.
ghost use Rattle.std.specs.Prelude.{◌≡◌, Some};

use crate::source::{Source, SourceFault};

/// The source of bytes in memory that it borrows. It tells them, and never fails.
#[derive(Drop)]
pub struct SliceSource<'a> {
    bytes: &'a [u8],
}

impl<'a> SliceSource<'a> {
    /// The source of these bytes, whatever they are.
    pub fn new(bytes: &'a [u8]) -> Self
        ensures { ⟦<SliceSource<'a> as Source>⟧.tells result ≡ Some bytes.now }
    {
        SliceSource { bytes }
    }
}

impl<'a> Source for SliceSource<'a> {
    ghost tells = { λ source. Some source.bytes.now };

    ghost failures = { λ source. 0 };

    fn length(&mut self) -> Result<u64, SourceFault> {
        Ok(self.bytes.len() as u64)
    }

    fn read_at(&mut self, offset: u64, into: &mut [u8]) -> Result<(), SourceFault> {
        let place = offset as usize;
        into.copy_from_slice(&self.bytes[place..place + into.len()]);
        Ok(())
    }
}
