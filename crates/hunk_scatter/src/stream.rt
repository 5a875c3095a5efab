//! A loader of a body in memory that is its caller's: the rows, the store, and a few numbers
//! between two pieces. No call takes memory.
//!
//! The numbers may be any. Those that lead out of the rows or the store are found out, each in
//! constant time, before the store is touched.
ghost use Rattle.std.specs.Prelude.{◌≡◌, ◌+◌, ◌<◌, ◌≤◌, ℕ, List, [], length, take, true, IfErr, IfOk, OnErr};
ghost use Rattle.std.specs.Prelude.{Some, replicate};
ghost use Rattle.hunk_words.specs.Limits.{most_hunks};
ghost use Rattle.hunk_words.specs.Carriers.{saturated};
ghost use Rattle.hunk_words.specs.PendingBytes.{pending_of};
ghost use Rattle.hunk_grammar.specs.Positions.{is_done, open_next};
ghost use Rattle.hunk_scatter.specs.StopLine.{stop_line};
ghost use Rattle.hunk_scatter.specs.Streaming.{BeginsLoading, EndsLoading, FitsStore, IsFed, IsWithin};
ghost use Rattle.hunk_scatter.specs.Streaming.{MayTake, StandsOn, StillOwes};
ghost use Rattle.hunk_scatter.specs.Streaming.{StopsAtLong, StopsForBody, TakesOn, TakesPart, UnlessStrange};

pub use crate::header_state::{HeaderSize, NoHeader, header_size};
pub use crate::store::BodyState;
use crate::store::{take_front, take_word};
use hunk_files::Row;
use hunk_grammar::{Position, open_next};
pub use hunk_words::Pending;
use hunk_words::{LoadFault, MOST_HUNKS, Reason};
use std::error::Error;
use std::fmt;

/// Where a loader stands between two pieces.
#[derive(Clone, Copy)]
pub struct Standing {
    /// The open hunk, and what the next longword is for.
    pub state: BodyState,
    /// The number of bytes of header and body that were fed, or 2^64 - 1 where these are more.
    pub fed: u64,
    /// The bytes of the next longword that have come.
    pub pending: Pending,
}

/// Why a piece is not taken.
#[derive(Clone, Copy, Debug, PartialEq, Eq)]
pub enum Stop {
    /// The numbers are those of no loader with these rows and this store.
    Strange,
    /// The input is refused, at a place in bytes from the start of the file.
    Refused(LoadFault),
}

impl fmt::Display for Stop {
    ghost output = { λ stop. Some (stop_line stop) };

    fn fmt<W: fmt::Write>(&self, f: &mut fmt::Formatter<W>) -> fmt::Result {
        match self {
            Stop::Strange => f.write_str("the numbers are those of no loader"),
            Stop::Refused(fault) => write!(f, "{fault}"),
        }
    }
}

impl Error for Stop {}

impl Standing {
    /// After a header of `fed` bytes, whose table has `hunks` hunks.
    pub(crate) fn after_header(hunks: u32, fed: u64) -> Standing
        ensures state { result.state
            ≡ record { hunk = 0; start = 0; position = open_next hunks hunks } }
        ensures fed { result.fed ≡ fed }
        ensures pending { pending_of result.pending ≡ [] }
    {
        Standing {
            state: BodyState {
                start: 0,
                hunk: 0,
                position: open_next(hunks, hunks),
            },
            fed,
            pending: Pending::NONE,
        }
    }

    /// Whether the file is whole.
    ///
    /// Where a loader stands so, and it is, the store is the segments of the file that was fed, at
    /// the rows' bases; where it is not, what was fed is cut short, and none of it is refused.
    pub fn is_whole(&self) -> bool
        ensures { EndsLoading self.now result }
    {
        match self.state.position {
            Position::Done => true,
            _ => false,
        }
    }

    /// How many bytes the file still has, at least: as many may be asked of a pipe.
    ///
    /// Each file that goes on from here has as many, and one of them has no more. 0 where the file is
    /// whole.
    pub fn want(&self) -> u64
        ensures { StillOwes self.now result }
    {
        let longs = self.state.position.least_longs();
        (4 * longs).saturating_sub(u64::from(self.pending.count))
    }

    /// Whether a loader with these rows and a store of `total` bytes may stand so, as far as the
    /// open hunk tells it: the sizes of the hunks before it are not summed up.
    #[inline(always)]
    pub fn fits(&self, rows: &[Row], total: usize) -> bool
        ensures sound { result ≡ true → FitsStore rows.now total self.now }
        ensures complete { (store fed : List ℕ) → IsFed rows.now store self.now fed
            → length store ≡ total → result ≡ true }
    {
        if self.pending.count > 3 {
            return false;
        }
        let hunks = rows.len();
        match self.state.position {
            Position::Body(hunk, _) => {
                hunk.hunks as usize == hunks && self.state.is_in_store(rows, total)
            }
            Position::Done => {
                self.state.hunk as usize == hunks && self.state.start == total as u64
            }
            _ => false,
        }
    }

    /// The same of numbers that lead out of nothing as long as no hunk opens.
    #[inline(always)]
    fn fits_still(&self, rows: &[Row], total: usize) -> bool
        requires { IsWithin rows.now total self.now }
        ensures sound { result ≡ true → FitsStore rows.now total self.now }
        ensures complete { (store fed : List ℕ) → IsFed rows.now store self.now fed
            → length store ≡ total → result ≡ true }
    {
        if self.state.position.is_between_hunks() {
            return self.fits(rows, total);
        }
        match self.state.position {
            Position::Body(hunk, _) => hunk.hunks as usize == rows.len(),
            _ => false,
        }
    }
}

/// The number of bytes of a part that is taken, at least one; or why none is, the reason for which
/// its longword is refused, and `None` where the numbers are no loader's.
type Taken = Result<usize, Option<Reason>>;

/// Takes the byte at the front of the piece.
#[inline(always)]
fn feed_byte(store: &mut [u8], rows: &[Row], at: &mut Standing, piece: &[u8]) -> Taken
    requires { MayTake rows.now (length store.old) at.old piece.now }
    ensures { TakesPart rows.now store.old at.old piece.now store.new at.new result }
{
    let (pending, next) = at.pending.take(piece[0]);
    if let Some(word) = next {
        let position = at.state.position;
        if position.is_between_hunks() && !at.state.is_in_store(rows, store.len()) {
            return Err(None);
        }
        let four = word.to_be_bytes();
        match take_word(store, rows, &mut at.state, position, word, four.as_slice()) {
            Ok(_) => {}
            Err(reason) => return Err(Some(reason)),
        }
    }
    at.pending = pending;
    Ok(1)
}

/// Takes a part of the piece from its front: longwords that lie whole in it, or a byte of one that
/// does not. Its bytes are not counted yet.
///
/// The numbers are looked at where a hunk opens: within it no longword leads out of the rows or
/// the store.
#[inline(always)]
fn feed_part(store: &mut [u8], rows: &[Row], at: &mut Standing, piece: &[u8]) -> Taken
    requires { MayTake rows.now (length store.old) at.old piece.now }
    ensures { TakesPart rows.now store.old at.old piece.now store.new at.new result }
{
    if at.pending.count > 0 || piece.len() < 4 {
        return feed_byte(store, rows, at, piece);
    }
    if at.state.position.is_between_hunks() && !at.state.is_in_store(rows, store.len()) {
        return Err(None);
    }
    match take_front(store, rows, &mut at.state, piece) {
        Ok(count) => Ok(count),
        Err(reason) => Err(Some(reason)),
    }
}

/// Takes the piece, or up to the end of the file where that stands inside it, and gives the number
/// of bytes taken. The numbers are known to lead nowhere else; what they are after an `Err` is not
/// said, but that they count no more bytes.
#[inline(always)]
pub(crate) fn feed_all(
    store: &mut [u8],
    rows: &[Row],
    at: &mut Standing,
    piece: &[u8],
) -> Result<usize, Stop>
    requires { IsWithin rows.now (length store.old) at.old }
    ensures inside { IfOk result (λ n. n ≤ length piece.now) }
    ensures within { IfOk result (λ n. IsWithin rows.now (length store.new) at.new) }
    ensures all { IfOk result
        (λ n. n < length piece.now → is_done at.new.state.position ≡ true) }
    ensures takes { (fed : List ℕ) → IsFed rows.now store.old at.old fed
        → StandsOn rows.now store.new at.new fed piece.now result }
    ensures own_reasons { IfErr result StopsForBody }
    ensures whole_longs { IfErr result StopsAtLong }
    ensures counted { IfOk result (λ n. at.new.fed ≡ saturated (at.old.fed + n)) }
    ensures uncounted { OnErr result (at.new.fed ≡ at.old.fed) }
{
    let mut rest = piece;
    'parts: while !rest.is_empty() {
        let Position::Body(_, _) = at.state.position else {
            break 'parts;
        };
        match feed_part(store, rows, at, rest) {
            Ok(count) => rest = &rest[count..],
            Err(None) => return Err(Stop::Strange),
            Err(Some(reason)) => {
                let before = (piece.len() - rest.len()) as u64;
                let place = at.fed.saturating_add(before) / 4 * 4;
                return Err(Stop::Refused(LoadFault { place, reason }));
            }
        }
    }
    let taken = piece.len() - rest.len();
    at.fed = at.fed.saturating_add(taken as u64);
    Ok(taken)
}

/// Takes the piece, or up to the end of the file where that stands inside it, and gives the number
/// of bytes taken.
///
/// Where the numbers are those of a loader, they are then those that it has after these bytes.
///
/// # Errors
///
/// - `Refused` where a longword is refused. Where the numbers are a loader's, it is the first
///   fault of all that was fed, this piece included, at the first byte of its longword, from the
///   start of the file, or at 2^64 - 4 where that is more.
/// - `Strange` where the numbers do not fit the rows and the store, be it before the piece or
///   after longwords of it. The numbers of a loader are never answered so.
///
/// What the store has after an `Err` is not said.
pub fn feed_piece(
    store: &mut [u8],
    rows: &[Row],
    at: Standing,
    piece: &[u8],
) -> Result<(Standing, usize), Stop>
    ensures inside { IfOk result (λ r. r.1 ≤ length piece.now) }
    ensures all { IfOk result
        (λ r. r.1 < length piece.now → is_done r.0.state.position ≡ true) }
    ensures takes { (fed : List ℕ) → IsFed rows.now store.old at fed
        → TakesOn rows.now store.new fed piece.now result }
    ensures counted { IfOk result (λ r. r.0.fed ≡ saturated (at.fed + r.1)) }

    // The numbers, whatever they are.
    ensures fits { UnlessStrange result (FitsStore rows.now (length store.old) at) }
    ensures fits_still { IfOk result (λ r. FitsStore rows.now (length store.new) r.0) }

    // Refusals.
    ensures own_reasons { IfErr result StopsForBody }
    ensures whole_longs { IfErr result StopsAtLong }
{
    if !at.fits(rows, store.len()) {
        return Err(Stop::Strange);
    }
    feed_fitting(store, rows, at, piece)
}

/// The same of numbers that are known to fit the rows and the store.
#[inline(always)]
pub fn feed_fitting(
    store: &mut [u8],
    rows: &[Row],
    at: Standing,
    piece: &[u8],
) -> Result<(Standing, usize), Stop>
    requires { FitsStore rows.now (length store.old) at }
    ensures inside { IfOk result (λ r. r.1 ≤ length piece.now) }
    ensures all { IfOk result
        (λ r. r.1 < length piece.now → is_done r.0.state.position ≡ true) }
    ensures takes { (fed : List ℕ) → IsFed rows.now store.old at fed
        → TakesOn rows.now store.new fed piece.now result }
    ensures counted { IfOk result (λ r. r.0.fed ≡ saturated (at.fed + r.1)) }
    ensures fits_still { IfOk result (λ r. FitsStore rows.now (length store.new) r.0) }
    ensures own_reasons { IfErr result StopsForBody }
    ensures whole_longs { IfErr result StopsAtLong }
{
    let mut to = at;
    let taken = match feed_all(store, rows, &mut to, piece) {
        Ok(taken) => taken,
        Err(stop) => return Err(stop),
    };
    if !to.fits_still(rows, store.len()) {
        return Err(Stop::Strange);
    }
    Ok((to, taken))
}

/// The number of rows, or 0 where no table has as many.
fn hunks_of(rows: &[Row]) -> u32
    ensures { length rows.now ≤ most_hunks → result ≡ length rows.now }
{
    if rows.len() > MOST_HUNKS as usize {
        return 0;
    }
    rows.len() as u32
}

/// Makes the store zero, and gives where a loader stands after the header of the table of the
/// rows.
///
/// `header` is the number of bytes of that header, and the store has as many bytes as the rows
/// declare together: elsewhere the numbers are no loader's.
pub fn begin(store: &mut [u8], rows: &[Row], header: u64) -> Standing
    ensures begins { BeginsLoading rows.now header (length store.old) store.new result }
    ensures zero { store.new ≡ replicate (length store.old) 0 }
{
    store.fill(0);
    Standing::after_header(hunks_of(rows), header)
}
