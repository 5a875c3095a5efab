//! Parts of a load file that are passed over at once.
ghost use Rattle.std.specs.Prelude.{◌≡◌, ◌≤◌, ◌<◌, ◌+◌, ◌*◌, IfNone, IfSome, length, slice_index, true};
ghost use Rattle.hunk_words.specs.Longs.{longs};
ghost use Rattle.hunk_files.specs.Passing.{AreBlocks, AreGroups, AreRows, AreSymbols, IsList};
ghost use Rattle.hunk_files.specs.Passing.{IsBlock, IsContent, IsCounted, IsGroup, IsOpened, IsPassed, past, position_at};

use crate::load::walk::DeclaredHunk;
use hunk_grammar::{OpenHunk, Phase, Position, by_kind, is_outside};
use hunk_words::{BlockWord, CONTENT_LIMIT, NAME_LIMIT, SizeWord, word_at};

/// A place between two blocks of a load file, and the hunk that is open there.
#[derive(Clone, Copy)]
pub(super) struct BlockPlace {
    /// The longword.
    pub at: usize,
    /// The hunk.
    pub hunk: OpenHunk,
    /// Whether a block of it came.
    pub begun: bool,
    /// What the table declares of the hunk.
    pub entry: DeclaredHunk,
}

impl BlockPlace {
    /// Goes on to the place after a block of the hunk that ends before this longword, by then with
    /// its content block or not.
    #[inline(always)]
    fn pass(&mut self, after: usize, has_content: bool)
        ensures { self.new ≡ past self.old after has_content }
    {
        self.at = after;
        self.hunk.has_content = has_content;
        self.begun = true;
    }

    /// The position here.
    #[inline(always)]
    pub(super) fn position(self) -> Position
        ensures { result ≡ position_at self }
    {
        if self.begun {
            Position::Body(self.hunk, Phase::BlockWord)
        } else {
            Position::Body(self.hunk, Phase::FirstBlock)
        }
    }
}

/// What is passed over at once from `at` on, at this position and with this entry of the open hunk:
/// the longword after it, and the position and the entry there. It is rows of the table up to its
/// last, or blocks and the hunks that open after them, all of them whole. Nothing of it is refused.
#[inline(always)]
pub(super) fn pass_over(
    bytes: &[u8],
    at: usize,
    position: Position,
    entry: DeclaredHunk,
) -> (usize, Position, DeclaredHunk)
    ensures { IsPassed (longs bytes.now) at position entry result.0 result.1 result.2 }
{
    match position {
        Position::SizeWord { hunks, owed } => {
            let (end, count) = after_rows(bytes, at, owed);
            let owed = owed - count;
            (end, Position::SizeWord { hunks, owed }, entry)
        }
        Position::Body(hunk, Phase::FirstBlock) => pass_blocks(
            bytes,
            BlockPlace {
                at,
                hunk,
                begun: false,
                entry,
            },
        ),
        Position::Body(hunk, Phase::BlockWord) => pass_blocks(
            bytes,
            BlockPlace {
                at,
                hunk,
                begun: true,
                entry,
            },
        ),
        _ => (at, position, entry),
    }
}

/// The same, from a place between two blocks on.
#[inline(always)]
fn pass_blocks(bytes: &[u8], from: BlockPlace) -> (usize, Position, DeclaredHunk)
    ensures { IsPassed (longs bytes.now) from.at (position_at from) from.entry
        result.0 result.1 result.2 }
{
    let end = after_blocks(bytes, from);
    (end.at, end.position(), end.entry)
}

/// The place after the blocks that stand from this one on and end in the bytes, up to the first
/// that may be refused, or the END of the file.
#[inline(never)]
#[tactic(auto, using(crate::proofs::walk::Passed::place_on))]
fn after_blocks(bytes: &[u8], from: BlockPlace) -> BlockPlace
    ensures { AreBlocks (longs bytes.now) from result }
{
    let mut place = from;
    'passing: while let Some(_) = pass_block(bytes, &mut place) {}
    place
}

/// Goes over one such block, where one stands here. `None` leaves the place as it was.
///
/// The fields are written one by one: a place that is copied whole is copied with the room between
/// them, which takes longer than all else here.
#[inline(always)]
fn pass_block(bytes: &[u8], place: &mut BlockPlace) -> Option<()>
    ensures passes { IfSome result (λ _. IsBlock (longs bytes.now) place.old place.new) }
    ensures stays { IfNone result (place.new ≡ place.old) }
{
    if place.at >= bytes.len() / 4 {
        return None;
    }
    let word = word_at(bytes, place.at);
    by_kind!(BlockWord::of(word).kind(), pass_word(bytes, place, word))
}

/// The same, by the block's word.
#[inline(always)]
fn pass_word(bytes: &[u8], place: &mut BlockPlace, word: u32) -> Option<()>
    requires inside { 4 * place.old.at + 4 ≤ length bytes.now }
    requires word { word ≡ slice_index (longs bytes.now) place.old.at }
    ensures passes { IfSome result (λ _. IsBlock (longs bytes.now) place.old place.new) }
    ensures stays { IfNone result (place.new ≡ place.old) }
{
    let (at, hunk, declared) = (place.at, place.hunk, place.entry.longs);
    // The test of a block word looks at nothing else of its hunk.
    if let Some(_) = Position::Body(hunk, Phase::BlockWord).refuse(0, word) {
        return None;
    }
    let Some(phase) = Phase::begin(BlockWord::of(word).kind()) else {
        return pass_end(bytes, place);
    };
    match phase {
        Phase::ContentSize => {
            let after = after_content(bytes, at + 1, declared)?;
            place.pass(after, true);
        }
        Phase::LongCount => {
            let after = after_counted(bytes, at + 1)?;
            place.pass(after, hunk.has_content);
        }
        Phase::GroupCount => {
            let after = after_groups(bytes, at + 1, hunk.hunks, declared)?;
            place.pass(after, hunk.has_content);
        }
        Phase::EntryWord => {
            let after = after_symbols(bytes, at + 1)?;
            place.pass(after, hunk.has_content);
        }
        _ => return None,
    }
    Some(())
}

/// Goes over the END that stands at this place, where another hunk opens after it.
#[inline(always)]
fn pass_end(bytes: &[u8], place: &mut BlockPlace) -> Option<()>
    requires { 4 * place.old.at + 4 ≤ length bytes.now }
    ensures passes { IfSome result (λ _. IsOpened (longs bytes.now) place.old place.new) }
    ensures stays { IfNone result (place.new ≡ place.old) }
{
    let next = place.entry.next;
    if place.hunk.ahead == 0 || next >= bytes.len() / 4 {
        return None;
    }
    place.at += 1;
    place.hunk.ahead -= 1;
    place.hunk.has_content = false;
    place.begun = false;
    place.entry = DeclaredHunk::at(bytes, next);
    Some(())
}

/// The longword after the content whose size word stands at `at`, where it ends in the bytes and
/// has at most `declared` longs.
#[inline(always)]
pub(crate) fn after_content(bytes: &[u8], at: usize, declared: u32) -> Option<usize>
    ensures { IfSome result (IsContent (longs bytes.now) declared at) }
{
    let whole = bytes.len() / 4;
    if at >= whole {
        return None;
    }
    let size = word_at(bytes, at) % CONTENT_LIMIT;
    if size > declared || size as usize > whole - at - 1 {
        return None;
    }
    Some(at + 1 + size as usize)
}

/// The longword after the payload whose count stands at `at`, where it ends in the bytes.
#[inline(always)]
pub(crate) fn after_counted(bytes: &[u8], at: usize) -> Option<usize>
    ensures { IfSome result (IsCounted (longs bytes.now) at) }
{
    let whole = bytes.len() / 4;
    if at >= whole {
        return None;
    }
    let count = word_at(bytes, at) as usize;
    if count > whole - at - 1 {
        return None;
    }
    Some(at + 1 + count)
}

/// The number of rows from which on `are_short_rows` is worth its call.
const MANY_ROWS: u32 = 8;

/// The longword after the rows of a table that stand from `from` on and end in the bytes, and how
/// many these are, at most `most`.
#[inline(never)]
pub(super) fn after_rows(bytes: &[u8], from: usize, most: u32) -> (usize, u32)
    ensures rows { AreRows (longs bytes.now) from result.1 result.0 }
    ensures few { result.1 ≤ most }
{
    if most >= MANY_ROWS && are_short_rows(bytes, from, most) {
        return (from + most as usize, most);
    }
    // From here on a row of two longwords may not end in the bytes.
    let last = (bytes.len() / 4).saturating_sub(1);
    let mut at = from;
    let mut count = 0;
    'rows: while count < most && at < last {
        at += SizeWord::entry_longs(word_at(bytes, at));
        count += 1;
    }
    (at, count)
}

/// Whether so many rows that are a longword each stand from `from` on in the bytes.
///
/// No test stands in the loop, so the compiler makes it four longwords wide.
#[inline(never)]
fn are_short_rows(bytes: &[u8], from: usize, count: u32) -> bool
    ensures rows { result ≡ true → AreRows (longs bytes.now) from count (from + count) }
    ensures inside { result ≡ true → 4 * (from + count) ≤ length bytes.now }
{
    let whole = bytes.len() / 4;
    if from > whole || count as usize > whole - from {
        return false;
    }
    let mut largest = 0;
    'rows: for i in from..from + count as usize {
        let start = 4 * i;
        let long = u32::from_be_bytes([
            bytes[start],
            bytes[start + 1],
            bytes[start + 2],
            bytes[start + 3],
        ]);
        largest = largest.max(long);
    }
    !SizeWord::has_extra(largest)
}

/// The longword after the groups that stand from `from` on and the 0 that ends them, where they end
/// in the bytes and are not refused in a hunk of `declared` longs of a file of `hunks` hunks.
#[inline(always)]
fn after_groups(bytes: &[u8], from: usize, hunks: u32, declared: u32) -> Option<usize>
    ensures { IfSome result
        (IsList (longs bytes.now) (AreGroups (longs bytes.now) hunks declared from)) }
{
    let whole = bytes.len() / 4;
    let mut at = from;
    'groups: while at < whole {
        let count = word_at(bytes, at);
        if count == 0 {
            return Some(at + 1);
        }
        at = after_group(bytes, at, count, hunks, declared)?;
    }
    None
}

/// The longword after the group at `at`, which has `count` offsets, where it is such a group.
#[inline(always)]
fn after_group(bytes: &[u8], at: usize, count: u32, hunks: u32, declared: u32) -> Option<usize>
    requires inside { 4 * at + 4 ≤ length bytes.now }
    requires count { count ≡ slice_index (longs bytes.now) at }
    requires some { 0 < count }
    ensures { IfSome result (IsGroup (longs bytes.now) hunks declared at) }
{
    let after = at + 2 + count as usize;
    if after > bytes.len() / 4 || word_at(bytes, at + 1) >= hunks {
        return None;
    }
    // Most groups of small hunks have one offset.
    let mut largest = word_at(bytes, at + 2);
    'offsets: for i in at + 3..after {
        // Where a longword is put together from its bytes, and not read by `word_at`, the compiler
        // makes the loop four longwords wide.
        let start = 4 * i;
        let long = u32::from_be_bytes([
            bytes[start],
            bytes[start + 1],
            bytes[start + 2],
            bytes[start + 3],
        ]);
        largest = largest.max(long);
    }
    if is_outside(largest, declared) {
        return None;
    }
    Some(after)
}

/// The longword after the symbols that stand from `from` on and the 0 that ends them, where they
/// end in the bytes.
#[inline(never)]
pub(crate) fn after_symbols(bytes: &[u8], from: usize) -> Option<usize>
    ensures { IfSome result (IsList (longs bytes.now) (AreSymbols (longs bytes.now) from)) }
{
    let whole = bytes.len() / 4;
    let mut at = from;
    'symbols: while at < whole {
        let word = word_at(bytes, at);
        // The word, its name, and its value.
        let longs = (word % NAME_LIMIT) as usize + 2;
        if word == 0 || longs > whole - at {
            return if word == 0 { Some(at + 1) } else { None };
        }
        at += longs;
    }
    None
}
