//! Bytes that somebody lends, and the records in them. All that is known of the bytes here is how
//! many they are: each place is found by the header that is kept beside them, so no place depends
//! on what the bytes are.
ghost use Rattle.std.specs.Prelude.{◌≡◌, ◌<◌, ◌≤◌, length, IsSome, IfSome};
ghost use Rattle.race_model.specs.Prelude.{pips, at_rank, board_place, board_record};

use db_layout::{BOARD_VERSION, BoardHeader, BoardRecord, Kind};

/// Bytes that somebody lends, at least as many as a board file with a header has. No fact is kept
/// of what they are, and no function asks for one.
#[derive(Drop)]
pub struct LentBoard<'a> {
    /// The bytes, as many as they were when they were checked, whatever they are by now.
    pub bytes: &'a [u8],

    /// The header of the board file that they were.
    pub header: BoardHeader,

    pub ghost sized: { board_place header.count ≤ length bytes.now },
}

impl<'a> LentBoard<'a> {
    /// The pip count of the position of a rank.
    #[inline(always)]
    pub fn pips_at(&self, rank: u16) -> u8
        requires { rank < self.now.header.count }
        ensures value { result ≡ pips (at_rank rank) }
        ensures range { result ≤ 90 }
    {
        Kind::Board
            .find(BOARD_VERSION, self.header.bound, rank)
            .pips
    }

    /// What stands for the record of a rank.
    pub fn record_at(&self, rank: u16) -> Option<BoardRecord<'a>>
        requires { rank < self.now.header.count }
        ensures some { IsSome result }
        ensures record { IfSome result (λ seen. seen ≡ record {
          pips = pips (at_rank rank);
          bytes = board_record self.now.bytes.now rank;
        }) }
    {
        let place = Kind::Board.find(BOARD_VERSION, self.header.bound, rank);
        let start = place.offset as usize;
        let bytes = &self.bytes[start..start + place.length as usize];
        BoardRecord::new(bytes, place.pips)
    }
}
