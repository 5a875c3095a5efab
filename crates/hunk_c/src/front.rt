//! What of a refused file stands before its fault, as a whole file.
ghost use Rattle.std.specs.Prelude.{◌≡◌, ◌+◌, ◌*◌, ◌<◌, ◌≤◌, ◌^◌, ◌++◌, IfNone, IfSome, true};
ghost use Rattle.std.specs.Prelude.{drop, length, slice_index, take};
ghost use Rattle.hunk_words.specs.Bits.{has_both_bits};
ghost use Rattle.hunk_words.specs.Longs.{longs, bytes_of};
ghost use Rattle.hunk_files.specs.Fault.{load_files};
ghost use Rattle.hunk_files.specs.ObjectFault.{objects};
ghost use Rattle.hunk_c.specs.Fronts.{EndsBetweenBlocks, Fronts, HasNoFront, HasNoFrontWhere};
ghost use Rattle.hunk_c.specs.Fronts.{InLoadText, InObjectText, empty_hunks, hunk_end, open_at};
ghost use Rattle.hunk_c.specs.FrontPlaces.{AreShort, FindsNone, IsFrontOf, IsLast, PassesRows};
ghost use Rattle.hunk_c.specs.FrontPlaces.{ReadsUpTo, before_last_end, closed_bytes, closing, front_at};
ghost use Rattle.hunk_c.specs.FrontPlaces.{find_hunk, find_place, hunk_between, place_between};

use crate::answer::{Answer, done, no_room};
use crate::strides::{load_stride, object_stride};
use hunk_files::{LoadView, ObjectView, Sniff, TakesBytes, sniff};
use hunk_grammar::{ObjectPosition, OpenHunk, Phase, Position, WordPlace};
use hunk_parts::Copier;
use hunk_words::{SizeWord, word_at};

/// The bytes of END.
const END: [u8; 4] = [0, 0, 3, 0xF2];

/// The bytes of a hunk that has nothing: an empty BSS block, and END.
const EMPTY_HUNK: [u8; 12] = [0, 0, 3, 0xEB, 0, 0, 0, 0, 0, 0, 3, 0xF2];

/// How many such hunks are handed over at once.
const AT_ONCE: usize = 16;

/// So many of them.
const EMPTY_HUNKS: [[u8; 12]; AT_ONCE] = [EMPTY_HUNK; AT_ONCE];

/// What of a file stands before its fault, up to the last place between two blocks.
#[derive(Clone, Copy)]
struct Front {
    /// How many longwords stand there.
    longs: usize,
    /// The number of hunks of a load file, 0 of an object file.
    hunks: u32,
    /// Whether the hunk that is open has its content. `None`: no hunk is open.
    open_hunk: Option<bool>,
    /// How many hunks of the table come after it.
    left: u32,
}

/// Writes what stands of the input before its fault, and what makes it a whole file.
#[unsafe(no_mangle)]
pub extern "C" fn hunk_front(bytes: &[u8], text: &mut [u8]) -> Answer
    ensures outcome { Fronts bytes.now text.old text.new result }
    ensures begins { result.number ≡ 0
        → take result.place text.new ≡ take result.place bytes.now }
{
    let Some(front) = front_of(bytes) else {
        return done(0, 0, 0);
    };
    let read = 4 * front.longs as u64;
    let size = read + closing_size(front);
    if size > text.len() as u64 {
        return no_room(front.hunks, read, size);
    }
    let count = write_closed(bytes, front, text);
    done(front.hunks, read, count as u64)
}

/// The front of the input.
fn front_of(bytes: &[u8]) -> Option<Front>
    ensures found { IfSome result (IsFrontOf EndsBetweenBlocks bytes.now) }
    ensures none { IfNone result (HasNoFront (longs bytes.now)) }
{
    match sniff(bytes) {
        Sniff::Object => object_front(bytes),
        Sniff::Load | Sniff::Library | Sniff::Other => load_front(bytes),
    }
}

// ---- Load files.

/// A place between two blocks of a load file.
#[derive(Clone, Copy)]
struct LoadPlace {
    /// The longwords before it.
    longs: usize,
    /// The hunk that is open there.
    hunk: OpenHunk,
}

/// The front of a load file.
fn load_front(bytes: &[u8]) -> Option<Front>
    ensures found { IfSome result (IsFrontOf InLoadText bytes.now) }
    ensures none { IfNone result (HasNoFrontWhere InLoadText (longs bytes.now)) }
{
    match LoadView::read(bytes) {
        Ok((file, size)) => Some(whole_front(file.hunks(), size / 4)),
        Err(refusal) => load_front_before(bytes, (refusal.fault.place / 4) as usize),
    }
}

/// The front of a whole load file of so many hunks and longwords: all but the END of its last hunk.
fn whole_front(hunks: u32, longs: usize) -> Front
    requires { 0 < longs }
    ensures { result ≡ before_last_end hunks longs }
{
    Front {
        longs: longs - 1,
        hunks,
        open_hunk: Some(true),
        left: 0,
    }
}

/// The front of a load file whose fault is this longword.
fn load_front_before(bytes: &[u8], fault: usize) -> Option<Front>
    requires { ReadsUpTo load_files (longs bytes.now) fault }
    ensures found { IfSome result (IsFrontOf InLoadText bytes.now) }
    ensures none { IfNone result (HasNoFrontWhere InLoadText (longs bytes.now)) }
{
    let LoadPlace { longs, hunk } = last_hunk(bytes, fault)?;
    Some(Front {
        longs,
        hunks: hunk.hunks,
        open_hunk: Some(hunk.has_content),
        left: hunk.ahead,
    })
}

/// The last place between two blocks of a load file, among the places up to this longword.
fn last_hunk(bytes: &[u8], end: usize) -> Option<LoadPlace>
    requires { 4 * end ≤ length bytes.now }
    ensures found { IfSome result (λ place.
        IsLast (find_hunk (longs bytes.now)) end place.longs place.hunk) }
    ensures none { IfNone result (FindsNone (find_hunk (longs bytes.now)) end) }
{
    let mut position = Position::FirstLong;
    let mut last = None;
    let mut at = 0;
    'longwords: while at < end {
        let stride = load_stride(position, word_at(bytes, at));
        at += 1;
        // No block ends within a run.
        if stride.run > (end - at) as u64 {
            return last;
        }
        let (after, next) = pass_rows(bytes, at + stride.run as usize, stride.after, end);
        at = after;
        position = next;
        if let Some(hunk) = hunk_between(position) {
            last = Some(LoadPlace { longs: at, hunk });
        }
    }
    last
}

/// Goes over the rows of the table that stand from this longword on, up to the first that has
/// attributes, the table's last, or the end: the longword after them, and the position there.
/// No block ends within them.
#[inline(always)]
fn pass_rows(bytes: &[u8], at: usize, position: Position, end: usize) -> (usize, Position)
    requires before { at ≤ end }
    requires inside { 4 * end ≤ length bytes.now }
    ensures { PassesRows (longs bytes.now) at position end result.0 result.1 }
{
    let Position::SizeWord { hunks, owed } = position else {
        return (at, position);
    };
    let count = short_rows(bytes, at, (owed as usize).min(end - at));
    let owed = owed - count as u32;
    (at + count, Position::SizeWord { hunks, owed })
}

/// How many of so many longwords from this one on stand before the first size word that attributes
/// follow.
#[inline(never)]
fn short_rows(bytes: &[u8], from: usize, most: usize) -> usize
    requires { 4 * (from + most) ≤ length bytes.now }
    ensures few { result ≤ most }
    ensures short { AreShort (longs bytes.now) from result }
    ensures first { result < most
        → has_both_bits (slice_index (longs bytes.now) (from + result)) ≡ true }
{
    'rows: for count in 0..most {
        if SizeWord::has_extra(word_at(bytes, from + count)) {
            return count;
        }
    }
    most
}

/// The hunk that is open at this position, where it is between two blocks.
#[inline(always)]
fn hunk_between(position: Position) -> Option<OpenHunk>
    ensures { result ≡ hunk_between position }
{
    match position {
        Position::Body(hunk, Phase::FirstBlock | Phase::BlockWord) => Some(hunk),
        _ => None,
    }
}

// ---- Object files.

/// A place between two blocks or hunks of an object file.
#[derive(Clone, Copy)]
struct ObjectPlace {
    /// The longwords before it.
    longs: usize,
    /// The place.
    place: WordPlace,
}

/// The front of an object file.
fn object_front(bytes: &[u8]) -> Option<Front>
    ensures found { IfSome result (IsFrontOf InObjectText bytes.now) }
    ensures none { IfNone result (HasNoFrontWhere InObjectText (longs bytes.now)) }
{
    match ObjectView::read(bytes) {
        Ok(_) => Some(object_front_at(bytes.len() / 4, WordPlace::BetweenHunks)),
        Err(refusal) => object_front_before(bytes, (refusal.fault.place / 4) as usize),
    }
}

/// The front of an object file whose fault is this longword.
fn object_front_before(bytes: &[u8], fault: usize) -> Option<Front>
    requires { ReadsUpTo objects (longs bytes.now) fault }
    ensures found { IfSome result (IsFrontOf InObjectText bytes.now) }
    ensures none { IfNone result (HasNoFrontWhere InObjectText (longs bytes.now)) }
{
    let ObjectPlace { longs, place } = last_place(bytes, fault)?;
    Some(object_front_at(longs, place))
}

/// The front of an object file that ends at this place, before which so many longwords stand.
fn object_front_at(longs: usize, place: WordPlace) -> Front
    ensures { result ≡ front_at longs place }
{
    Front {
        longs,
        hunks: 0,
        open_hunk: open_at(place),
        left: 0,
    }
}

/// Whether the hunk that is open at this place has its content. `None`: no hunk is open.
fn open_at(place: WordPlace) -> Option<bool>
    ensures { result ≡ open_at place }
{
    match place {
        WordPlace::InHunk { has_content } => Some(has_content),
        WordPlace::BeforeUnits | WordPlace::BetweenHunks => None,
    }
}

/// The last place between two blocks or hunks of an object file, among the places up to this
/// longword.
fn last_place(bytes: &[u8], end: usize) -> Option<ObjectPlace>
    requires { 4 * end ≤ length bytes.now }
    ensures found { IfSome result (λ place.
        IsLast (find_place (longs bytes.now)) end place.longs place.place) }
    ensures none { IfNone result (FindsNone (find_place (longs bytes.now)) end) }
{
    let mut position = ObjectPosition::Word(WordPlace::BeforeUnits);
    let mut last = None;
    let mut at = 0;
    'longwords: while at < end {
        let stride = object_stride(position, word_at(bytes, at));
        at += 1;
        // No block ends within a run.
        if stride.run > (end - at) as u64 {
            return last;
        }
        position = stride.after;
        at += stride.run as usize;
        if let Some(place) = place_between(position) {
            last = Some(ObjectPlace { longs: at, place });
        }
    }
    last
}

/// The place of this position, where it is between two blocks or hunks of a unit.
#[inline(always)]
fn place_between(position: ObjectPosition) -> Option<WordPlace>
    ensures { result ≡ place_between position }
{
    match position {
        ObjectPosition::Word(WordPlace::BeforeUnits) => None,
        ObjectPosition::Word(place) => Some(place),
        _ => None,
    }
}

// ---- What closes a file.

/// How many bytes close the file after the front.
fn closing_size(front: Front) -> u64
    ensures value { result ≡ length (bytes_of (closing front)) }
    ensures bound { result < 2 ^ 36 }
{
    hunk_end_size(front.open_hunk) + EMPTY_HUNK.len() as u64 * u64::from(front.left)
}

/// How many bytes the end of the hunk has that is open.
fn hunk_end_size(open_hunk: Option<bool>) -> u64
    ensures { result ≡ 4 * length (hunk_end open_hunk) }
{
    match open_hunk {
        Some(true) => END.len() as u64,
        Some(false) => EMPTY_HUNK.len() as u64,
        None => 0,
    }
}

/// Writes the front and what closes it to the front of the text, and gives the number of their
/// bytes. The text after them is as it was.
#[tactic(auto, using(hunk_parts::proofs::CopiedText::copied))]
fn write_closed(bytes: &[u8], front: Front, text: &mut [u8]) -> usize
    requires inside { 4 * front.longs ≤ length bytes.now }
    requires room { length (closed_bytes bytes.now front) ≤ length text.old }
    ensures count { result ≡ length (closed_bytes bytes.now front) }
    ensures text { text.new ≡ closed_bytes bytes.now front ++ drop result text.old }
{
    let mut copier = Copier { text, at: 0 };
    put_closed(&mut copier, bytes, front);
    copier.at
}

/// Hands over the front and what closes it.
fn put_closed<T: TakesBytes>(taker: &mut T, bytes: &[u8], front: Front)
    requires inside { 4 * front.longs ≤ length bytes.now }
    ensures { T.takes taker.old (closed_bytes bytes.now front) taker.new }
{
    taker.take(&bytes[..4 * front.longs]);
    put_hunk_end(taker, front.open_hunk);
    put_empty_hunks(taker, front.left);
}

/// Hands over the end of the hunk that is open.
fn put_hunk_end<T: TakesBytes>(taker: &mut T, open_hunk: Option<bool>)
    ensures { T.takes taker.old (bytes_of (hunk_end open_hunk)) taker.new }
{
    match open_hunk {
        Some(true) => taker.take(&END),
        Some(false) => taker.take(&EMPTY_HUNK),
        None => {}
    }
}

/// Hands over so many hunks that have nothing.
fn put_empty_hunks<T: TakesBytes>(taker: &mut T, count: u32)
    ensures { T.takes taker.old (bytes_of (empty_hunks count)) taker.new }
{
    let hunks = EMPTY_HUNKS.as_flattened();
    let count = count as usize;
    'hunks: for _ in 0..count / AT_ONCE {
        taker.take(hunks);
    }
    taker.take(&hunks[..EMPTY_HUNK.len() * (count % AT_ONCE)]);
}
