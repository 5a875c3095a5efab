//! Parts of a file that are given out as they are, and are passed over at once.
ghost use Rattle.std.specs.Prelude.{◌≡◌, ◌+◌, ◌*◌, ◌≤◌, ◌||◌, false, IfNone, IfSome, IsTrue, length, take};
ghost use Rattle.hunk_words.specs.Bits.{kind};
ghost use Rattle.hunk_grammar.specs.declared.phase.Phase.TheVariants as phases;
ghost use Rattle.hunk_grammar.specs.declared.position.OpenHunk.{OpenHunk};
ghost use Rattle.hunk_grammar.specs.declared.position.Position.TheVariants as positions;
ghost use Rattle.hunk_grammar.specs.PhaseSteps.{begin};
ghost use Rattle.hunk_wide.specs.Parts.{AsIs, IsBlock, IsBody, IsFileEnd, IsHeader, IsNext, IsRow};
ghost use Rattle.hunk_wide.specs.Parts.{front_word, is_content, load_at, word_at};
ghost use Rattle.hunk_wide.specs.declared.position.FilePosition.TheVariants.{Load};
ghost use Rattle.hunk_wide.specs.declared.spot.Spot.TheVariants.{Long};

use crate::entries::entries_size;
use crate::position::FilePosition;
use crate::spot::Given;
use crate::unit_blocks::unit_blocks_at;
use hunk_grammar::{ObjectPosition, OpenHunk, Phase, Position, TABLE_AT, TABLE_SIZE_AT};
use hunk_words::{BlockWord, CONTENT_LIMIT, HEADER_WORD, NAME_LIMIT, SizeWord};

/// The number of the bytes of a header up to its table.
const HEADER_SIZE: usize = 4 * TABLE_AT;

/// The first bytes of a wide spelling, given out as they are.
#[derive(Clone, Copy)]
pub(crate) struct Run {
    /// The number of the bytes.
    pub(crate) size: usize,
    /// What the longword after them is for.
    pub(crate) next: FilePosition,
}

/// A block that was passed over.
#[derive(Clone, Copy)]
pub(crate) struct Block {
    /// The number of its bytes.
    pub(crate) size: usize,
    /// Whether it is the END of a hunk, after which the next begins.
    pub(crate) is_end: bool,
}

/// The header with its table, rows of that, or blocks, that the bytes begin with, where a longword
/// stands at this position. In an object file it is blocks and headers of units. It may be none,
/// also where some longwords are whole.
#[inline(always)]
pub(crate) fn run_at(position: FilePosition, bytes: &[u8]) -> Run
    ensures inside { result.size ≤ length bytes.now }
    ensures as_is { AsIs (Long position) (take result.size bytes.now) (Long result.next) }
{
    match position {
        FilePosition::Load(position) => load_run_at(position, bytes),
        FilePosition::Object(ObjectPosition::Word(place)) => unit_blocks_at(place, bytes),
        FilePosition::Object(_) => nothing(position),
    }
}

/// The same in a load file.
#[inline(always)]
fn load_run_at(position: Position, bytes: &[u8]) -> Run
    ensures inside { result.size ≤ length bytes.now }
    ensures as_is { AsIs (load_at position) (take result.size bytes.now) (Long result.next) }
{
    match position {
        Position::FirstLong => header_at(bytes),
        Position::SizeWord { hunks, owed } => table_at(hunks, owed, bytes),
        Position::Body(hunk, phase) => match phase {
            Phase::FirstBlock => blocks_at(hunk, true, bytes),
            Phase::BlockWord => blocks_at(hunk, false, bytes),
            _ => nothing(FilePosition::Load(position)),
        },
        _ => nothing(FilePosition::Load(position)),
    }
}

/// No bytes.
#[inline(always)]
fn nothing(position: FilePosition) -> Run
    ensures { result ≡ record { size = 0; next = position } }
{
    Run {
        size: 0,
        next: position,
    }
}

/// The header of a load file, and its table.
#[inline(never)]
fn header_at(bytes: &[u8]) -> Run
    ensures inside { result.size ≤ length bytes.now }
    ensures as_is { AsIs (load_at positions.FirstLong) (take result.size bytes.now)
        (Long result.next) }
{
    let Some(hunks) = hunks_of_header(bytes) else {
        return nothing(FilePosition::Load(Position::FirstLong));
    };
    let rest = table_at(hunks, hunks - 1, &bytes[HEADER_SIZE..]);
    Run {
        size: HEADER_SIZE + rest.size,
        next: rest.next,
    }
}

/// The header of a load file, its table, and blocks after that.
///
/// `run_at` passes the header alone. With the blocks, a call that writes would take more stack.
#[inline(always)]
pub(crate) fn front_at(bytes: &[u8]) -> Run
    ensures inside { result.size ≤ length bytes.now }
    ensures as_is { AsIs (load_at positions.FirstLong) (take result.size bytes.now)
        (Long result.next) }
{
    let header = header_at(bytes);
    let blocks = first_blocks_at(header.next, &bytes[header.size..]);
    Run {
        size: header.size + blocks.size,
        next: blocks.next,
    }
}

/// Blocks of the first hunk and of those after it, where it opens here: the table is whole.
#[inline(always)]
fn first_blocks_at(position: FilePosition, bytes: &[u8]) -> Run
    ensures inside { result.size ≤ length bytes.now }
    ensures as_is { AsIs (Long position) (take result.size bytes.now) (Long result.next) }
{
    match position {
        FilePosition::Load(Position::Body(hunk, Phase::FirstBlock)) => {
            blocks_at(hunk, true, bytes)
        }
        _ => nothing(position),
    }
}

/// The number of hunks in the header that the bytes begin with, where it is whole up to its table,
/// and has some.
#[inline(always)]
fn hunks_of_header(bytes: &[u8]) -> Option<u32>
    ensures { IfSome result (λ hunks. IsHeader bytes.now hunks) }
{
    if bytes.len() < HEADER_SIZE {
        return None;
    }
    let hunks = front_word(&bytes[4 * TABLE_SIZE_AT..]);
    if front_word(bytes) == HEADER_WORD && hunks > 0 {
        Some(hunks)
    } else {
        None
    }
}

/// Rows of the table.
#[inline(never)]
fn table_at(hunks: u32, owed: u32, bytes: &[u8]) -> Run
    ensures inside { result.size ≤ length bytes.now }
    ensures as_is { AsIs (load_at (positions.SizeWord hunks owed)) (take result.size bytes.now)
        (Long result.next) }
{
    let (size, left) = rows_at(hunks, owed, bytes);
    if left > 0 || hunks == 0 || !is_row(&bytes[size..]) {
        return Run {
            size,
            next: FilePosition::Load(Position::SizeWord { hunks, owed: left }),
        };
    }
    let hunk = OpenHunk {
        hunks,
        ahead: hunks - 1,
        has_content: false,
    };
    Run {
        size: size + 4,
        next: FilePosition::Load(Position::Body(hunk, Phase::FirstBlock)),
    }
}

/// The number of the bytes of rows of the table before its last, and how many more then follow the
/// next row.
#[inline(always)]
fn rows_at(hunks: u32, owed: u32, bytes: &[u8]) -> (usize, u32)
    ensures inside { result.0 ≤ length bytes.now }
    ensures as_is { AsIs (load_at (positions.SizeWord hunks owed)) (take result.0 bytes.now)
        (load_at (positions.SizeWord hunks result.1)) }
{
    let mut left = owed;
    let mut at = 0;
    'rows: while left > 0 {
        if !is_row(&bytes[at..]) {
            break 'rows;
        }
        left -= 1;
        at += 4;
    }
    (at, left)
}

/// Whether the bytes begin with a size word that no attributes follow.
#[inline(always)]
fn is_row(bytes: &[u8]) -> bool
    ensures { IsTrue result → IsRow bytes.now }
{
    bytes.len() >= 4 && !SizeWord::has_extra(front_word(bytes))
}

/// The longword that the bytes begin with.
#[inline(always)]
pub(crate) fn front_word(bytes: &[u8]) -> u32
    requires { 4 ≤ length bytes.now }
    ensures { result ≡ front_word bytes.now }
{
    u32::from_be_bytes([bytes[0], bytes[1], bytes[2], bytes[3]])
}

/// Blocks, and the ends of hunks with others ahead. The first may be the first of its hunk.
#[inline(never)]
fn blocks_at(hunk: OpenHunk, is_first: bool, bytes: &[u8]) -> Run
    ensures inside { result.size ≤ length bytes.now }
    ensures as_is { AsIs (load_at (word_at hunk is_first)) (take result.size bytes.now)
        (Long result.next) }
{
    let mut hunk = hunk;
    let mut is_first = is_first;
    let mut at = 0;
    'blocks: while let Some(block) = pass_block(&mut hunk, &bytes[at..]) {
        at += block.size;
        is_first = block.is_end;
    }
    Run {
        size: at,
        next: FilePosition::Load(word_at(hunk, is_first)),
    }
}

/// The place of a block word of the hunk.
#[inline(always)]
pub(crate) fn word_at(hunk: OpenHunk, is_first: bool) -> Position
    ensures { result ≡ word_at hunk is_first }
{
    if is_first {
        Position::Body(hunk, Phase::FirstBlock)
    } else {
        Position::Body(hunk, Phase::BlockWord)
    }
}

/// The block that the bytes begin with, and goes on to the hunk as it is after it. `None` leaves
/// that as it was.
#[inline(always)]
pub(crate) fn pass_block(hunk: &mut OpenHunk, bytes: &[u8]) -> Option<Block>
    ensures some { IfSome result (λ b. IsBlock hunk.old bytes.now b.size b.is_end hunk.new) }
    ensures none { IfNone result (hunk.new ≡ hunk.old) }
{
    if bytes.len() < 8 {
        return None;
    }
    let word = front_word(bytes);
    match Given::of(FilePosition::Load(word_at(*hunk, false)), word) {
        Given::Same => (),
        _ => return None,
    }
    let Some(phase) = begun_by(word) else {
        let size = pass_end(hunk)?;
        let is_end = true;
        return Some(Block { size, is_end });
    };
    let size = body_size(phase, &bytes[4..])?;
    hunk.has_content = has_content_after(phase, hunk.has_content);
    Some(Block {
        size: 4 + size,
        is_end: false,
    })
}

/// Goes on to the hunk after the END of this one. `None` where it is the last.
#[inline(always)]
pub(crate) fn pass_end(hunk: &mut OpenHunk) -> Option<usize>
    ensures some { IfSome result (λ size. (size ≡ 4) × IsNext hunk.old hunk.new) }
    ensures none { IfNone result (hunk.new ≡ hunk.old) }
{
    if hunk.ahead == 0 {
        return None;
    }
    hunk.ahead -= 1;
    hunk.has_content = false;
    Some(4)
}

/// Whether the bytes begin with the END of a load file, which stands at this position, after a block.
#[inline(always)]
pub(crate) fn is_file_end(position: FilePosition, bytes: &[u8]) -> bool
    ensures { IsTrue result → IsFileEnd position bytes.now }
{
    match position {
        FilePosition::Load(Position::Body(hunk, Phase::BlockWord)) => is_last_end(hunk, bytes),
        _ => false,
    }
}

/// Whether they begin with END, after a block of this hunk, which is the last.
#[inline(always)]
fn is_last_end(hunk: OpenHunk, bytes: &[u8]) -> bool
    ensures { IsTrue result → IsFileEnd (Load (word_at hunk false)) bytes.now }
{
    if hunk.ahead > 0 || bytes.len() < 4 {
        return false;
    }
    let word = front_word(bytes);
    match Given::of(FilePosition::Load(word_at(hunk, false)), word) {
        Given::Same => begun_by(word).is_none(),
        _ => false,
    }
}

/// What follows this block word: `None` where it ends its block.
#[inline(always)]
fn begun_by(word: u32) -> Option<Phase>
    ensures { result ≡ begin (kind word) }
{
    Phase::begin(BlockWord::of(word).kind())
}

/// Whether the hunk has its content after the block, where it has it before or not.
#[inline(always)]
fn has_content_after(phase: Phase, has_content: bool) -> bool
    ensures { result ≡ (is_content phase || has_content) }
{
    match phase {
        Phase::ContentSize | Phase::BssSize => true,
        _ => has_content,
    }
}

/// How many bytes come after the word of a block, where they are all there.
#[inline(always)]
pub(crate) fn body_size(phase: Phase, bytes: &[u8]) -> Option<usize>
    requires { 4 ≤ length bytes.now }
    ensures { IfSome result (λ size. IsBody phase bytes.now size) }
{
    match phase {
        Phase::ContentSize => counted_size(front_word(bytes) % CONTENT_LIMIT, bytes),
        Phase::BssSize => Some(4),
        Phase::NameCount => counted_size(front_word(bytes), bytes),
        Phase::LongCount => counted_size(front_word(bytes), bytes),
        Phase::EntryWord => symbols_size(bytes),
        Phase::GroupCount => groups_size(bytes),
        Phase::ExtWord => entries_size(bytes),
        _ => None,
    }
}

/// The size of a count, and of so many longwords, where they are all there.
#[inline(always)]
pub(crate) fn counted_size(longs: u32, bytes: &[u8]) -> Option<usize>
    ensures { IfSome result (λ size. (size ≡ 4 + 4 * longs) × (size ≤ length bytes.now)) }
{
    let size = 4 + 4 * longs as usize;
    if bytes.len() < size {
        return None;
    }
    Some(size)
}

/// The size of the symbols up to the 0 that ends them.
#[inline(never)]
fn symbols_size(bytes: &[u8]) -> Option<usize>
    ensures { IfSome result (λ size. IsBody phases.EntryWord bytes.now size) }
{
    let mut at = 0;
    'symbols: while bytes.len() - at >= 4 {
        let word = front_word(&bytes[at..]);
        if word == 0 {
            return Some(at + 4);
        }
        // The word, the name, and the value.
        let size = 8 + 4 * (word % NAME_LIMIT) as usize;
        if bytes.len() - at < size {
            break 'symbols;
        }
        at += size;
    }
    None
}

/// The size of the groups of 32-bit offsets up to the 0 that ends them.
#[inline(never)]
fn groups_size(bytes: &[u8]) -> Option<usize>
    ensures { IfSome result (λ size. IsBody phases.GroupCount bytes.now size) }
{
    let mut at = 0;
    'groups: while bytes.len() - at >= 4 {
        let count = front_word(&bytes[at..]);
        if count == 0 {
            return Some(at + 4);
        }
        // The count, the target, and the offsets.
        let size = 8 + 4 * count as usize;
        if bytes.len() - at < size {
            break 'groups;
        }
        at += size;
    }
    None
}
