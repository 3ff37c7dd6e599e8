//! A file that answers, of whichever version: a database or a board file. What both say is a book,
//! and each number of either has room here.
ghost use Rattle.std.specs.Prelude.{◌≡◌, ℕ, [], ◌∷◌, ◌++◌, ◌+◌, ◌*◌, ◌<◌, ◌≤◌, ◌↔◌, Err, Some};
ghost use Rattle.std.specs.Prelude.{IsOk, IfOk, IfErr, IsSome, IfSome, OnSome, All, List, map, slice_index};
ghost use Rattle.arrayvec.specs.ArrayString.{array_string_len};
ghost use Rattle.race_model.specs.Prelude.{IsPosition, pips as pips_of, Legal, IsFirstPlay, rank as rank_of, at_rank};
ghost use Rattle.race_model.specs.Prelude.{count_to, IsFraction, IsThousandths, board_book, book_of, bound_of};
ghost use Rattle.race_model.specs.Prelude.{version_of, play_in, recorded_in, whole_in, IsRightBook, IsLong, loss_in};
ghost use Rattle.race_model.specs.Prelude.{IsLossIn, IsMoveListIn, IsLevelLineIn, IsReplyIn, IsReplyOver};
ghost use Rattle.race_model.specs.Prelude.{IsDistReplyOver, IsRight, IsRightDatabase, version_number};
ghost use Rattle.legal_plays.specs.MoveLists.{moves_of};
ghost use Rattle.ranking.specs.Tables.{IsRankTable};
ghost use Rattle.fixed_fraction.specs.Board.{board_whole};
ghost use Rattle.certificate.specs.CheckFaults.{IsFirst};
ghost use Rattle.epc_query.specs.Choices.{result_of, IsCost};
ghost use Rattle.epc_query.specs.Kinds.{IsAcceptedAs, IsFirstAs, IsRightAs, stated_kind, book_by};
ghost use Rattle.epc_query.specs.Kinds.{file_book, long_by, scale_as, rolls_in};
ghost use Rattle.db_layout.specs.declared.stated.Kind.{Kind as FileKind};

use crate::answers::answer;
use crate::choices::{MOST_RESULTS, RankedChoice};
use crate::database::Database;
use crate::levels::put_level_line;
use crate::losses;
use crate::move_lists::list;
use crate::whole_board::{Board, MOST_ROLLS};
use arrayvec::ArrayVec;
use certificate::{CheckFault, check, check_board};
use db_layout::{BOARD_VERSION, Kind, read_short};
use db_reader::Whole;
use fixed_fraction::{
    BoardMean, WHOLE, Wide, WideFraction, board_mean_and_epc, board_mean_fraction,
};
use home_board::Position;
use legal_plays::{Play, Roll};
use query_text::Text;
use race_model::laws;
use ranking::{RankTable, pips_of};
use std::marker::Model;

/// The most rolls that a game of a database takes.
const MOST_OF_DATABASE: u8 = 22;

/// Where the two bytes of the version stand in a header.
const VERSION_PLACE: usize = 8;

/// Where the two bytes of the version end in a header.
const VERSION_END: usize = VERSION_PLACE + 2;

/// The kind that the header of a file states: a board file where its version is 3, and else, also
/// where it has no version, a database.
#[tactic(auto, unfolding(crate::specs::Kinds::stated_kind))]
pub fn stated_kind(bytes: &[u8]) -> Kind
    ensures { result ≡ stated_kind bytes.now }
{
    if bytes.len() < VERSION_END {
        return Kind::Database;
    }
    match read_short(bytes, VERSION_PLACE) {
        BOARD_VERSION => Kind::Board,
        _ => Kind::Database,
    }
}

/// What is kept of bytes that were accepted, of either kind.
#[derive(Clone, Copy, Debug, PartialEq, Eq)]
pub struct Accepted {
    /// The version of the file, 1 to 3.
    pub version: u16,

    /// The pip bound, 0 to 90.
    pub bound: u8,
}

impl Accepted {
    /// The kind of the file: a board file where its version is 3.
    pub fn kind(self) -> Kind
        ensures { (kind : FileKind) (f : List ℕ) → IsAcceptedAs kind f self → kind ≡ result }
    {
        match self.version {
            BOARD_VERSION => Kind::Board,
            _ => Kind::Database,
        }
    }
}

/// Checks bytes: they are accepted exactly where they are a right file of at most 58 pips, and else
/// refused with their first fault.
// so that the room of the check is not part of its caller's
#[inline(never)]
fn accept_database(bytes: &[u8]) -> Result<Accepted, CheckFault>
    ensures right { IsOk result ↔ IsRightDatabase bytes.now }
    ensures version { IfOk result (λ accepted.
        accepted.version ≡ version_number (version_of bytes.now)) }
    ensures bound { IfOk result (λ accepted. accepted.bound ≡ bound_of bytes.now) }
    ensures fault { IfErr result (IsFirst bytes.now) }
    ensures read { ¬ (result ≡ Err CheckFault.Read) }
{
    match check(Whole::new(bytes)) {
        Ok(checked) => Ok(Accepted {
            version: checked.version(),
            bound: checked.bound(),
        }),
        Err((_, fault)) => Err(fault),
    }
}

/// Checks bytes as a file of this kind: they are accepted exactly where they are a right one, and
/// else refused with their first fault.
pub fn accept_as(kind: Kind, bytes: &[u8]) -> Result<Accepted, CheckFault>
    ensures right { IsOk result ↔ IsRightAs kind bytes.now }
    ensures accepted { IfOk result (IsAcceptedAs kind bytes.now) }
    ensures fault { IfErr result (IsFirstAs kind bytes.now) }
    ensures read { ¬ (result ≡ Err CheckFault.Read) }
{
    match kind {
        Kind::Database => accept_database(bytes),
        Kind::Board => match check_board(bytes) {
            Ok(header) => Ok(Accepted {
                version: BOARD_VERSION,
                bound: header.bound,
            }),
            Err(fault) => Err(fault),
        },
    }
}

/// Checks bytes as a file of the kind that their header states: they are accepted exactly where
/// they are a right file, of whichever version, and else refused with the first fault of that kind.
pub fn accept_stated(bytes: &[u8]) -> Result<Accepted, CheckFault>
    ensures right { IsOk result ↔ IsRight bytes.now }
    ensures accepted { IfOk result (IsAcceptedAs (stated_kind bytes.now) bytes.now) }
    ensures fault { IfErr result (IsFirstAs (stated_kind bytes.now) bytes.now) }
    ensures read { ¬ (result ≡ Err CheckFault.Read) }
{
    accept_as(stated_kind(bytes), bytes)
}

/// A database or a board file, in bytes that were accepted. What may be missing of an answer is
/// missing only where the bytes were changed since then.
#[derive(Drop)]
pub struct Opened<'a> {
    kind: Kind,
    bytes: &'a [u8],
    accepted: Accepted,
    ranks: &'a RankTable,
}

// Clauses see the kind and the bytes.
impl<'a> Model for Opened<'a> {
    ghost use Rattle.std.specs.Prelude.{ℕ, List};
    ghost use Rattle.ranking.specs.Tables.{IsRankTable};
    ghost use Rattle.db_layout.specs.declared.stated.Kind.{Kind};
    ghost use Rattle.epc_query.specs.Kinds.{IsAcceptedAs};

    ghost Value = { Kind × List ℕ };

    ghost view = { λ opened. (opened.kind, opened.bytes.now) };

    ghost invariant = { λ opened.
        IsAcceptedAs opened.kind opened.bytes.now opened.accepted
        × IsRankTable opened.ranks.now };
}

impl<'a> Opened<'a> {
    /// Checks bytes and opens them, by a table of ranks. Refused as `accept_stated` is.
    pub fn open(bytes: &'a [u8], ranks: &'a RankTable) -> Result<Opened<'a>, CheckFault>
        requires { IsRankTable ranks.now }
        ensures right { IsOk result ↔ IsRight bytes.now }
        ensures opened { IfOk result (λ opened. opened ≡ (stated_kind bytes.now, bytes.now)) }
        ensures fault { IfErr result (IsFirstAs (stated_kind bytes.now) bytes.now) }
        ensures read { ¬ (result ≡ Err CheckFault.Read) }
    {
        let accepted = accept_stated(bytes)?;
        Ok(Opened::kept(stated_kind(bytes), bytes, accepted, ranks))
    }

    /// What bytes say that were accepted as a file of this kind, by what was kept of that.
    pub fn kept(kind: Kind, bytes: &'a [u8], accepted: Accepted, ranks: &'a RankTable) -> Opened<'a>
        requires { IsAcceptedAs kind bytes.now accepted × IsRankTable ranks.now }
        ensures { result ≡ (kind, bytes.now) }
    {
        Opened {
            kind,
            bytes,
            accepted,
            ranks,
        }
    }

    /// The kind of the file.
    pub fn kind(&self) -> Kind
        ensures { result ≡ self.now.0 }
    {
        self.kind
    }

    /// The file as a database, which it is.
    fn database(&self) -> Database<'a>
        requires { self.now.0 ≡ Kind.Database }
        ensures bytes { result ≡ self.now.1 }
        ensures book { book_by self.now ≡ book_of result }
    {
        Database::kept(self.bytes, self.accepted)
    }

    /// The file as a board file, which it is.
    fn board(&self) -> Board<'a>
        requires { self.now.0 ≡ Kind.Board }
        ensures bytes { result ≡ self.now.1 }
        ensures book { book_by self.now ≡ board_book result }
    {
        Board::kept(self.bytes, self.accepted)
    }

    /// The pip bound, 0 to 90.
    pub fn bound(&self) -> u8
        ensures bound { result ≡ (book_by self.now).bound }
        ensures right { IsRightBook (book_by self.now) }
        ensures long { IsLong (book_by self.now) }
        ensures range { result ≤ 90 }
    {
        self.accepted.bound
    }

    /// The pip bound, by what the file says over 33 throws.
    pub(crate) fn long_bound(&self) -> u8
        ensures bound { result ≡ (long_by self.now).bound }
        ensures right { IsRightBook (long_by self.now) }
        ensures long { IsLong (long_by self.now) }
        ensures rolls { rolls_in (long_by self.now) ≡ 33 }
        ensures replies { (line text : List ℕ)
            → IsReplyOver board_whole (long_by self.now) line text
            → IsReplyIn (book_by self.now) line text }
        ensures file { book_by self.now ≡ file_book self.now.1 }
        ensures range { result ≤ 90 }
    {
        laws::law_replies();
        self.accepted.bound
    }

    /// The most rolls that a game can take, of which there is a share: 22 or 33.
    pub fn most_rolls(&self) -> u8
        ensures value { result ≡ rolls_in (book_by self.now) }
        ensures range { result ≤ 33 }
    {
        match self.kind {
            Kind::Database => MOST_OF_DATABASE,
            Kind::Board => MOST_ROLLS,
        }
    }

    /// What the numerators are over: 36 to the power of the most rolls.
    pub fn whole(&self) -> Wide
        ensures { result ≡ whole_in (book_by self.now) }
    {
        self.numerator(BoardMean::of_parts(WHOLE, 0))
    }

    /// How many positions the file has: those of at most the bound.
    pub fn positions(&self) -> u16
        ensures { result ≡ count_to (book_by self.now).bound }
    {
        self.ranks.count_to(self.accepted.bound)
    }

    /// The table of ranks.
    pub fn ranks(&self) -> &RankTable
        ensures { IsRankTable result.now }
    {
        self.ranks
    }

    /// The rank of a position of at most the bound, which the file has.
    pub fn rank(&self, position: &Position) -> u16
        requires { pips_of position.now ≤ (book_by self.now).bound }
        ensures value { result ≡ rank_of position.now }
        ensures within { result < count_to (book_by self.now).bound }
    {
        let _pips = position.pips();
        self.ranks.rank(position)
    }

    /// The position of a rank that the file has.
    pub fn position_at(&self, rank: u16) -> Position
        requires { rank < count_to (book_by self.now).bound }
        ensures value { result ≡ at_rank rank }
        ensures ranked { rank_of result ≡ rank }
        ensures position { IsPosition result }
        ensures within { pips_of result ≤ (book_by self.now).bound }
    {
        let _bound = self.bound();
        self.ranks().unrank(rank).unwrap()
    }

    /// The numerator over the file's own whole of a number that it says over 33 throws.
    fn numerator(&self, rolls: BoardMean) -> Wide
        ensures { (n : ℕ) → rolls ≡ scale_as self.now.0 * n → result ≡ n }
    {
        match self.kind {
            Kind::Database => Wide::of(rolls.upper()),
            Kind::Board => rolls.numerator(),
        }
    }

    /// The pip count of the position of a rank that the file has.
    pub(crate) fn pips_at(&self, rank: u16) -> u8
        requires { rank < count_to (long_by self.now).bound }
        ensures { result ≡ pips_of (at_rank rank) }
    {
        pips_of(rank)
    }

    /// The mean of the position of a rank that the file has, whose pip count is known, over 33
    /// throws.
    #[inline(always)]
    pub(crate) fn long_mean(&self, pips: u8, rank: u16) -> Option<BoardMean>
        requires pips { pips ≡ pips_of (at_rank rank) }
        requires rank { rank < count_to (long_by self.now).bound }
        ensures some { IsSome result }
        ensures recorded { IfSome result (λ mean. mean ≡ (long_by self.now).means rank) }
    {
        match self.kind {
            Kind::Database => self.database().mean(pips, rank),
            Kind::Board => self.board().mean(rank),
        }
    }

    /// The rank to which the recorded play of a roll leads from a position of at most the bound.
    pub(crate) fn recorded(&self, position: &Position, roll: Roll) -> Option<u16>
        requires { pips_of position.now ≤ (long_by self.now).bound }
        ensures some { IsSome result }
        ensures recorded { IfSome result (λ to.
            to ≡ play_in (long_by self.now) position.now roll) }
    {
        let _bound = self.long_bound();
        let pips = position.pips();
        let rank = self.ranks.rank(position);
        match self.kind {
            Kind::Database => Some(self.database().play(pips, rank, roll)),
            Kind::Board => self.board().play(rank, roll),
        }
    }

    /// Makes a text the shares of the position of a rank that the file has, over 33 throws.
    pub(crate) fn put_dist(&self, pips: u8, rank: u16, text: &mut Text) -> Option<()>
        requires pips { pips ≡ pips_of (at_rank rank) }
        requires rank { rank < count_to (long_by self.now).bound }
        ensures some { IsSome result }
        ensures text { IsDistReplyOver board_whole 33 ((long_by self.now).shares rank)
            text.new.bytes }
        ensures len { array_string_len text.new ≤ 4152 }
    {
        match self.kind {
            Kind::Database => self.database().put_dist(pips, rank, text),
            Kind::Board => self.board().put_dist(rank, text),
        }
    }

    /// The least mean number of rolls of the position of a rank that the file has over all
    /// strategies, also those that look at the history, as a numerator over the whole.
    pub fn mean(&self, rank: u16) -> Option<Wide>
        requires { rank < count_to (book_by self.now).bound }
        ensures some { IsSome result }
        ensures recorded { IfSome result (λ mean. mean ≡ (book_by self.now).means rank) }
    {
        let mean = self.long_mean(self.pips_at(rank), rank)?;
        Some(self.numerator(mean))
    }

    /// That mean, exact and rounded.
    pub fn rolls(&self, rank: u16) -> Option<Rounded>
        requires { rank < count_to (book_by self.now).bound }
        ensures some { IsSome result }
        ensures exact { IfSome result (λ rolls. IsFraction
            ((book_by self.now).means rank) (whole_in (book_by self.now))
            rolls.exact.numerator rolls.exact.denominator) }
        ensures rounded { IfSome result (λ rolls. IsThousandths
            rolls.exact.numerator rolls.exact.denominator rolls.thousandths) }
    {
        let mean = self.long_mean(self.pips_at(rank), rank)?;
        Some(Rounded::rolls(mean))
    }

    /// The effective pip count of the position of a rank that the file has: 49/6 of the mean.
    pub fn epc(&self, rank: u16) -> Option<Rounded>
        requires { rank < count_to (book_by self.now).bound }
        ensures some { IsSome result }
        ensures exact { IfSome result (λ pips. IsFraction
            (49 * (book_by self.now).means rank) (6 * whole_in (book_by self.now))
            pips.exact.numerator pips.exact.denominator) }
        ensures rounded { IfSome result (λ pips. IsThousandths
            pips.exact.numerator pips.exact.denominator pips.thousandths) }
    {
        let mean = self.long_mean(self.pips_at(rank), rank)?;
        Some(Rounded::epc(mean))
    }

    /// The shares of 0 to 33 rolls of the position of a rank that the file has, where each play is
    /// the recorded one, as numerators over the whole.
    pub fn shares(&self, rank: u16) -> Option<[Wide; 34]>
        requires { rank < count_to (book_by self.now).bound }
        ensures some { IsSome result }
        ensures recorded { IfSome result (λ shares. (k : ℕ) → k ≤ rolls_in (book_by self.now)
            → slice_index shares k ≡ (book_by self.now).shares rank k) }
        ensures beyond { IfSome result (λ shares. (k : ℕ) → rolls_in (book_by self.now) < k
            → slice_index shares k ≡ 0) }
    {
        match self.kind {
            Kind::Database => self.database().shares(self.pips_at(rank), rank),
            Kind::Board => self.board().shares(rank),
        }
    }

    /// The recorded play of a roll from a position of at most the bound, and the position that it
    /// leads to.
    pub fn play(&self, position: &Position, roll: Roll) -> Option<(Play, Position)>
        requires { pips_of position.now ≤ (book_by self.now).bound }
        ensures some { IsSome result }
        ensures recorded { IfSome result (λ answer.
            answer.1 ≡ recorded_in (book_by self.now) position.now roll) }
        ensures first { IfSome result (λ answer.
            IsFirstPlay position.now roll answer.1 (moves_of answer.0.items)) }
        ensures legal { IfSome result (λ answer. Legal position.now roll answer.1) }
    {
        losses::play(self, position, roll)
    }

    /// What a result of a roll costs from a position of at most the bound, in lowest terms.
    pub fn loss(&self, position: &Position, roll: Roll, to: &Position) -> Option<WideFraction>
        requires within { pips_of position.now ≤ (book_by self.now).bound }
        requires legal { Legal position.now roll to.now }
        ensures some { IsSome result }
        ensures recorded { IfSome result (λ loss. IsFraction
            (loss_in (book_by self.now) position.now roll to.now) (whole_in (book_by self.now))
            loss.numerator loss.denominator) }
        ensures lost { IsLossIn (rolls_in (book_by self.now)) position.now roll to.now
            (loss_in (book_by self.now) position.now roll to.now) }
    {
        laws::law_loss();
        let _bound = self.bound();
        let _pips = position.pips();
        let lost = losses::loss(self, position, roll, to)?;
        Some(board_mean_fraction(lost))
    }

    /// Puts every result of a roll from a position of at most the bound into an empty list, by
    /// rising loss and then by rising rank, each with its rank and its loss.
    pub fn moves(
        &self,
        position: &Position,
        roll: Roll,
        choices: &mut ArrayVec<RankedChoice, MOST_RESULTS>,
    ) -> Option<()>
        requires within { pips_of position.now ≤ (book_by self.now).bound }
        requires none { choices.old.items ≡ [] }
        ensures some { IsSome result }
        ensures listed { IsMoveListIn (book_by self.now)
            position.now roll (map result_of choices.new.items) }
        ensures losses { All (IsCost (book_by self.now) position.now roll) choices.new.items }
    {
        list(self, position, roll, choices)
    }

    /// Makes a text the reply to a line, which comes without its line feed, as the text does: what
    /// the file says, or why the line is refused.
    pub fn answer(&self, line: &[u8], text: &mut Text) -> Option<()>
        ensures some { IsSome result }
        ensures reply { IsReplyIn (book_by self.now) line.now (text.new.bytes ++ 10 ∷ []) }
        ensures len { array_string_len text.new ≤ 16642 }
    {
        let _bound = self.long_bound();
        answer(self, line, text)
    }

    /// Makes a text the line that an audit writes of the positions of a pip count of at most the
    /// bound: how many they are, and the least and the greatest of their means.
    pub fn put_level(&self, pips: u8, text: &mut Text) -> Option<()>
        requires { pips ≤ (book_by self.now).bound }
        ensures some { IsSome result }
        ensures line { OnSome result (IsLevelLineIn (book_by self.now) pips text.new.bytes) }
        ensures len { OnSome result (array_string_len text.new ≤ 282) }
    {
        put_level_line(self, pips, text)
    }
}

/// A number of rolls or of pips, exact and rounded.
#[derive(Clone, Copy, Debug, PartialEq, Eq)]
pub struct Rounded {
    /// In lowest terms.
    pub exact: WideFraction,

    /// In thousandths, rounded to the nearest, and a half upward.
    pub thousandths: u64,
}

impl Rounded {
    /// A mean, exact and rounded.
    fn rolls(mean: BoardMean) -> Rounded
        ensures exact { IsFraction mean board_whole
            result.exact.numerator result.exact.denominator }
        ensures rounded { IsThousandths result.exact.numerator result.exact.denominator
            result.thousandths }
    {
        Rounded {
            exact: board_mean_fraction(mean),
            thousandths: mean.thousandths(),
        }
    }

    /// The effective pip count of a mean, exact and rounded: 49/6 of it.
    fn epc(mean: BoardMean) -> Rounded
        ensures exact { IsFraction (49 * mean) (6 * board_whole)
            result.exact.numerator result.exact.denominator }
        ensures rounded { IsThousandths result.exact.numerator result.exact.denominator
            result.thousandths }
    {
        Rounded {
            exact: board_mean_and_epc(mean).1,
            thousandths: mean.effective_thousandths(),
        }
    }
}
