//! The header of a board file: its pip bound, and how many records follow.
ghost use Rattle.std.specs.Prelude.{◌≡◌, ℕ, ◌≤◌, ◌↔◌, List, length, IsSome, IfSome, IfOk, IfErr};
ghost use Rattle.race_model.specs.Prelude.{count_to, bound_of, board_header, board_place, IsBoardFile};
ghost use Rattle.race_model.specs.Prelude.{IsFirstBoardHeaderFault};
ghost use Rattle.db_layout.specs.HeaderFaults.{test_of};

use crate::header::HeaderFault;
use crate::record::HEADER_BYTES;
use crate::stated::{BOARD_BOUND, BOARD_VERSION, Kind, header_with, read_header};

/// The header of a board file: its pip bound, 0 to 90, and how many records follow, one for each
/// position of at most so many pips (this project's profile).
#[derive(Clone, Copy, Debug, PartialEq, Eq)]
pub struct BoardHeader {
    pub bound: u8,
    pub count: u16,
    ghost bounded: { bound ≤ 90 },
    ghost counted: { count ≡ count_to bound },
}

impl BoardHeader {
    /// The header of a pip bound; none exactly where it is over 90.
    pub fn new(bound: u8) -> Option<Self>
        ensures some { IsSome result ↔ (bound ≤ 90) }
        ensures bound { IfSome result (λ header. header.bound ≡ bound) }
    {
        if bound > BOARD_BOUND {
            return None;
        }
        Some(BoardHeader::of_bound(bound))
    }

    /// The header of a pip bound of at most 90.
    fn of_bound(bound: u8) -> Self
        requires { bound ≤ 90 }
        ensures { result.bound ≡ bound }
    {
        BoardHeader {
            bound,
            count: ranking::count_to(bound),
        }
    }

    /// How many bytes the file has: 14,643,664 to 90 pips.
    pub fn end(&self) -> usize
        ensures { result ≡ board_place self.now.count }
    {
        Kind::Board.end_of(BOARD_VERSION, self.bound) as usize
    }

    /// The 32 bytes of the header.
    pub fn to_bytes(&self) -> [u8; HEADER_BYTES]
        ensures { result ≡ board_header self.now.bound }
    {
        header_with(Kind::Board, BOARD_VERSION, self.bound)
    }
}

/// Reads a board file's header, or finds its first fault. In the order of `HeaderFault`: the
/// version is that of a board file, its bound at most 90, and the field for the bytes of a record
/// 0.
pub fn parse_board_header(file: &[u8]) -> Result<BoardHeader, HeaderFault>
    ensures header { IfOk result (λ header. IsBoardFile file.now
        × (header.bound ≡ bound_of file.now)) }
    ensures fault { IfErr result (λ fault. IsFirstBoardHeaderFault file.now (test_of fault)) }
{
    match read_header(Kind::Board, file, file.len() as u64) {
        Ok(stated) => Ok(BoardHeader::of_bound(stated.bound)),
        Err(fault) => Err(fault),
    }
}
