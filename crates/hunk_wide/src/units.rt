//! Bytes of a wide spelling that lie in a piece, given out into a buffer.
ghost use Rattle.std.specs.Prelude.{◌≡◌, ◌<◌, ◌≤◌, ◌+◌, ◌*◌, ◌/◌, ◌++◌, drop, false, length, take};
ghost use Rattle.std.specs.Int.{from_be_bytes, to_be_bytes, w32};
ghost use Rattle.hunk_words.specs.Bits.{end_word};
ghost use Rattle.hunk_wide.specs.Halves.{widened};
ghost use Rattle.hunk_wide.specs.InFile.{LeadsTo};
ghost use Rattle.hunk_wide.specs.Longwords.{out_long};
ghost use Rattle.hunk_wide.specs.Parts.{load_at, word_at};
ghost use Rattle.hunk_wide.specs.Plain.{GivesFor};
ghost use Rattle.hunk_wide.specs.declared.spot.Spot.TheVariants.{Filler, Half, Long, Passing, Straight};

use crate::behind::pass_spelled;
use crate::halves::halves_in;
use crate::parts::{Run, run_at, word_at};
use crate::position::FilePosition;
use crate::spot::{Given, ShortPart, Spot, long_word};
use hunk_grammar::{OpenHunk, Phase, Position};

/// The bytes at the front of a piece that were given out at the front of a buffer.
#[derive(Clone, Copy)]
pub(crate) struct Stretch {
    /// The number of the bytes of the piece.
    pub(crate) taken: usize,
    /// How many bytes were given out for them.
    pub(crate) given: usize,
    /// What the bytes after them are for.
    pub(crate) next: Spot,
}

/// The same of bytes after which a longword comes.
#[derive(Clone, Copy)]
struct Copied {
    taken: usize,
    given: usize,
    /// What the longword is for.
    next: FilePosition,
}

/// Gives out what the first bytes of the piece are for, as far as whole units lie in it and their
/// bytes fit.
#[inline(never)]
pub(crate) fn expand(spot: Spot, piece: &[u8], buf: &mut [u8]) -> Stretch
    ensures taken { result.taken ≤ length piece.now }
    ensures given { result.given ≤ length buf.new }
    ensures rest { drop result.given buf.new ≡ drop result.given buf.old }
    ensures gives { GivesFor spot (take result.taken piece.now) (take result.given buf.new)
        result.next }
    ensures leads { LeadsTo spot (take result.taken piece.now) result.next }
    ensures some { 4 ≤ length piece.now → 8 ≤ length buf.new → 0 < result.taken }
{
    let mut all = nothing(spot);
    'units: loop {
        let unit = expand_unit(all.next, &piece[all.taken..], &mut buf[all.given..]);
        if unit.taken == 0 {
            break 'units;
        }
        all = Stretch {
            taken: all.taken + unit.taken,
            given: all.given + unit.given,
            next: unit.next,
        };
    }
    all
}

/// The same for the first unit.
#[inline(always)]
fn expand_unit(spot: Spot, piece: &[u8], buf: &mut [u8]) -> Stretch
    ensures taken { result.taken ≤ length piece.now }
    ensures given { result.given ≤ length buf.new }
    ensures rest { drop result.given buf.new ≡ drop result.given buf.old }
    ensures few { result.given ≤ 3 * result.taken }
    ensures gives { GivesFor spot (take result.taken piece.now) (take result.given buf.new)
        result.next }
    ensures leads { LeadsTo spot (take result.taken piece.now) result.next }
    ensures some { 4 ≤ length piece.now → 8 ≤ length buf.new → 0 < result.taken }
{
    match spot {
        Spot::Passing => expand_passing(piece, buf),
        Spot::Straight { owed, next } => expand_straight(owed, next, piece, buf),
        Spot::Long(position) => expand_long(position, piece, buf),
        Spot::Half {
            after,
            part,
            is_odd,
        } => expand_half(after, part, is_odd, piece, buf),
        Spot::Filler(after) => expand_filler(after, piece, buf),
    }
}

/// No bytes.
#[inline(always)]
fn nothing(spot: Spot) -> Stretch
    ensures { result ≡ record { taken = 0; given = 0; next = spot } }
{
    Stretch {
        taken: 0,
        given: 0,
        next: spot,
    }
}

#[inline(always)]
fn expand_passing(piece: &[u8], buf: &mut [u8]) -> Stretch
    ensures taken { result.taken ≤ length piece.now }
    ensures given { result.given ≤ length buf.new }
    ensures rest { drop result.given buf.new ≡ drop result.given buf.old }
    ensures few { result.given ≤ 3 * result.taken }
    ensures gives { GivesFor Passing (take result.taken piece.now) (take result.given buf.new)
        result.next }
    ensures leads { LeadsTo Passing (take result.taken piece.now) result.next }
    ensures some { 4 ≤ length piece.now → 8 ≤ length buf.new → 0 < result.taken }
{
    let count = piece.len().min(buf.len());
    buf[..count].copy_from_slice(&piece[..count]);
    Stretch {
        taken: count,
        given: count,
        next: Spot::Passing,
    }
}

#[inline(always)]
fn expand_straight(owed: u64, next: FilePosition, piece: &[u8], buf: &mut [u8]) -> Stretch
    ensures taken { result.taken ≤ length piece.now }
    ensures given { result.given ≤ length buf.new }
    ensures rest { drop result.given buf.new ≡ drop result.given buf.old }
    ensures few { result.given ≤ 3 * result.taken }
    ensures gives { GivesFor (Straight owed next) (take result.taken piece.now)
        (take result.given buf.new) result.next }
    ensures leads { LeadsTo (Straight owed next) (take result.taken piece.now) result.next }
    ensures some { 4 ≤ length piece.now → 8 ≤ length buf.new → 0 < result.taken }
{
    let most = piece.len().min(buf.len()) as u64;
    let count = most.min(owed.saturating_add(1)) as usize;
    buf[..count].copy_from_slice(&piece[..count]);
    Stretch {
        taken: count,
        given: count,
        next: Spot::behind_straight(owed, next, count as u64),
    }
}

#[inline(always)]
fn expand_long(position: FilePosition, piece: &[u8], buf: &mut [u8]) -> Stretch
    ensures taken { result.taken ≤ length piece.now }
    ensures given { result.given ≤ length buf.new }
    ensures rest { drop result.given buf.new ≡ drop result.given buf.old }
    ensures few { result.given ≤ 3 * result.taken }
    ensures gives { GivesFor (Long position) (take result.taken piece.now)
        (take result.given buf.new) result.next }
    ensures leads { LeadsTo (Long position) (take result.taken piece.now) result.next }
    ensures some { 4 ≤ length piece.now → 8 ≤ length buf.new → 0 < result.taken }
{
    if piece.len() < 4 || buf.len() < 8 {
        return nothing(Spot::Long(position));
    }
    let part = expand_part(position, piece, buf);
    if part.taken > 0 {
        return Stretch {
            taken: part.taken,
            given: part.given,
            next: Spot::Long(part.next),
        };
    }
    let cells = [piece[0], piece[1], piece[2], piece[3]];
    let word = u32::from_be_bytes(cells);
    Stretch {
        taken: 4,
        given: put_long(Given::of(position, word), cells, buf),
        next: Spot::behind_long(position, word),
    }
}

/// A part that is given out as it is, or blocks of hunks of which some leave out END. It may be none.
#[inline(always)]
fn expand_part(position: FilePosition, piece: &[u8], buf: &mut [u8]) -> Copied
    ensures taken { result.taken ≤ length piece.now }
    ensures given { result.given ≤ length buf.new }
    ensures rest { drop result.given buf.new ≡ drop result.given buf.old }
    ensures few { result.given ≤ 3 * result.taken }
    ensures gives { GivesFor (Long position) (take result.taken piece.now)
        (take result.given buf.new) (Long result.next) }
    ensures leads { LeadsTo (Long position) (take result.taken piece.now) (Long result.next) }
{
    let room = piece.len().min(buf.len());
    let run = run_at(position, &piece[..room]);
    if run.size > 0 {
        return copy_run(run, piece, buf);
    }
    match position {
        FilePosition::Load(Position::Body(hunk, Phase::BlockWord)) => {
            // For so many bytes no more are given out than fit.
            let most = piece.len().min(buf.len() / 2);
            copy_blocks(hunk, &piece[..most], buf)
        }
        _ => Copied {
            taken: 0,
            given: 0,
            next: position,
        },
    }
}

/// Copies the bytes that are given out as they are.
#[inline(always)]
fn copy_run(run: Run, piece: &[u8], buf: &mut [u8]) -> Copied
    requires piece { run.size ≤ length piece.now }
    requires room { run.size ≤ length buf.old }
    ensures taken { result.taken ≡ run.size }
    ensures given { result.given ≡ run.size }
    ensures rest { drop result.given buf.new ≡ drop result.given buf.old }
    ensures bytes { take result.given buf.new ≡ take run.size piece.now }
    ensures next { result.next ≡ run.next }
{
    buf[..run.size].copy_from_slice(&piece[..run.size]);
    Copied {
        taken: run.size,
        given: run.size,
        next: run.next,
    }
}

/// Copies blocks of this hunk and of those after it, and writes each END that is left out between
/// them.
#[inline(never)]
fn copy_blocks(hunk: OpenHunk, piece: &[u8], buf: &mut [u8]) -> Copied
    requires { 2 * length piece.now ≤ length buf.old }
    ensures taken { result.taken ≤ length piece.now }
    ensures given { result.given ≤ length buf.new }
    ensures rest { drop result.given buf.new ≡ drop result.given buf.old }
    ensures few { result.given ≤ 3 * result.taken }
    ensures gives { GivesFor (load_at (word_at hunk false)) (take result.taken piece.now)
        (take result.given buf.new) (Long result.next) }
    ensures leads { LeadsTo (load_at (word_at hunk false)) (take result.taken piece.now)
        (Long result.next) }
{
    let mut hunk = hunk;
    let mut is_first = false;
    let mut at = 0;
    // The bytes before this one are copied.
    let mut from = 0;
    let mut given = 0;
    'blocks: while let Some(spelled) = pass_spelled(&mut hunk, &piece[at..]) {
        if spelled.is_behind {
            given += copy_and_end(&piece[from..at], &mut buf[given..]);
            from = at;
        }
        at += spelled.block.size;
        is_first = spelled.block.is_end;
    }
    let last = at - from;
    buf[given..given + last].copy_from_slice(&piece[from..at]);
    Copied {
        taken: at,
        given: given + last,
        next: FilePosition::Load(word_at(hunk, is_first)),
    }
}

/// Copies the bytes, writes END after them, and gives the number of all.
#[inline(always)]
fn copy_and_end(bytes: &[u8], buf: &mut [u8]) -> usize
    requires { length bytes.now + 4 ≤ length buf.old }
    ensures number { result ≡ length bytes.now + 4 }
    ensures rest { drop result buf.new ≡ drop result buf.old }
    ensures bytes { take result buf.new ≡ bytes.now ++ to_be_bytes w32 end_word }
{
    let end = bytes.len();
    buf[..end].copy_from_slice(bytes);
    buf[end..end + 4].copy_from_slice([0, 0, 3, 0xF2].as_slice());
    end + 4
}

/// Writes what is given out for the longword of these bytes, and gives the number of bytes.
#[inline(always)]
fn put_long(given: Given, cells: [u8; 4], buf: &mut [u8]) -> usize
    requires { 8 ≤ length buf.old }
    ensures inside { result ≤ length buf.new }
    ensures rest { drop result buf.new ≡ drop result buf.old }
    ensures bytes { take result buf.new ≡ out_long given cells (from_be_bytes w32 cells) }
{
    match given {
        Given::Same => {
            buf[..4].copy_from_slice(cells.as_slice());
            4
        }
        Given::BehindEnd => {
            let [a, b, c, d] = cells;
            buf[..8].copy_from_slice([0, 0, 3, 0xF2, a, b, c, d].as_slice());
            8
        }
        Given::AsLong => {
            let word = long_word(u32::from_be_bytes(cells));
            buf[..4].copy_from_slice(word.to_be_bytes().as_slice());
            4
        }
    }
}

/// Words of a short block, as many as lie in the piece and fit.
#[inline(always)]
fn expand_half(
    after: FilePosition,
    part: ShortPart,
    is_odd: bool,
    piece: &[u8],
    buf: &mut [u8],
) -> Stretch
    ensures taken { result.taken ≤ length piece.now }
    ensures given { result.given ≤ length buf.new }
    ensures rest { drop result.given buf.new ≡ drop result.given buf.old }
    ensures few { result.given ≤ 3 * result.taken }
    ensures gives { GivesFor (Half after part is_odd) (take result.taken piece.now)
        (take result.given buf.new) result.next }
    ensures leads { LeadsTo (Half after part is_odd) (take result.taken piece.now) result.next }
    ensures some { 4 ≤ length piece.now → 8 ≤ length buf.new → 0 < result.taken }
{
    let most = (piece.len() / 2).min(buf.len() / 4);
    let halves = halves_in(after, part, is_odd, &piece[..2 * most]);
    widen(&piece[..2 * halves.count], &mut buf[..4 * halves.count]);
    Stretch {
        taken: 2 * halves.count,
        given: 4 * halves.count,
        next: halves.next,
    }
}

/// Writes the words of 16 bits as longwords.
///
/// Where it is compiled into its caller the compiler does not make the loop eight words wide.
#[inline(never)]
fn widen(halves: &[u8], longs: &mut [u8])
    requires { length longs.old ≡ 4 * (length halves.now / 2) }
    ensures { longs.new ≡ widened halves.now }
{
    'words: for i in 0..halves.len() / 2 {
        // A longword that is put together from single bytes in memory waits for each of them.
        let half = halves[2 * i] as u32 * 256 + halves[2 * i + 1] as u32;
        longs[4 * i..4 * i + 4].copy_from_slice(half.to_be_bytes().as_slice());
    }
}

#[inline(always)]
fn expand_filler(after: FilePosition, piece: &[u8], buf: &mut [u8]) -> Stretch
    ensures taken { result.taken ≤ length piece.now }
    ensures given { result.given ≤ length buf.new }
    ensures rest { drop result.given buf.new ≡ drop result.given buf.old }
    ensures few { result.given ≤ 3 * result.taken }
    ensures gives { GivesFor (Filler after) (take result.taken piece.now)
        (take result.given buf.new) result.next }
    ensures leads { LeadsTo (Filler after) (take result.taken piece.now) result.next }
    ensures some { 4 ≤ length piece.now → 8 ≤ length buf.new → 0 < result.taken }
{
    if piece.len() < 2 || buf.len() < 6 {
        return nothing(Spot::Filler(after));
    }
    let half = piece[0] as u16 * 256 + piece[1] as u16;
    if half == 0 {
        return Stretch {
            taken: 2,
            given: 0,
            next: Spot::Long(after),
        };
    }
    buf[..6].copy_from_slice([0, 0, 3, 0xFC, piece[0], piece[1]].as_slice());
    Stretch {
        taken: 2,
        given: 6,
        next: Spot::Passing,
    }
}
