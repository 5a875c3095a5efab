//! The blocks of a file.
ghost use Rattle.std.specs.Prelude.{◌≡◌, ◌+◌, ◌*◌, ◌≤◌, length};
ghost use Rattle.hunk_words.specs.Carriers.{saturated};
ghost use Rattle.hunk_words.specs.Longs.{longs};
ghost use Rattle.hunk_files.specs.FileView.{file_of};
ghost use Rattle.hunk_c.specs.Blocks.{block_row, block_rows, blocks_in, content, items};
ghost use Rattle.hunk_c.specs.Rows.{ListsWhatFits, Tabulates};

use crate::answer::Answer;
use crate::entries::list_entries;
use crate::rows::{CountedRow, InBlock, RowCount, tabulate};
use hunk_blocks::{BlockView, BodyView, Payload};
use hunk_files::{FileView, Item, Takes};
use hunk_parts::payload_of;

/// A block of a hunk, `struct hunk_block`: 80 bytes, with no padding.
#[repr(C)]
#[derive(Clone, Copy)]
pub struct BlockRow {
    pub place: u64,
    pub bytes: u64,
    pub unit: u64,
    pub hunk: u64,
    pub content: u64,
    pub content_bytes: u64,
    pub memory: u64,
    pub items: u64,
    pub kind: u32,
    pub flags: u32,
    pub reserved: u64,
}

/// Lists the blocks of each hunk of a file, END too.
#[unsafe(no_mangle)]
pub extern "C" fn hunk_blocks(bytes: &[u8], rows: &mut [BlockRow]) -> Answer
    ensures outcome { Tabulates blocks_in bytes.now rows.old rows.new result }
    ensures succeeds { ListsWhatFits blocks_in (length rows.old) bytes.now result }
{
    tabulate(bytes, rows)
}

/// How many blocks there are, up to 2 ^ 64 - 1: what stands in them is not looked at.
fn count_blocks(file: &FileView<'_>) -> u64
    ensures { result ≡ saturated (length (blocks_in (file_of file.now))) }
{
    let mut count: u64 = 0;
    'counting: for item in file.items() {
        if let Item::Block { .. } = item {
            count = count.saturating_add(1);
        }
    }
    count
}

impl InBlock for BlockRow {
    ghost in_block = { block_rows };

    fn list<T: Takes<BlockRow>>(unit: u64, hunk: u64, block: BlockView<'_>, taker: &mut T) {
        taker.take(block_row(unit, hunk, &block));
    }
}

impl CountedRow for BlockRow {
    fn count(file: &FileView<'_>) -> u64 {
        count_blocks(file)
    }

    #[tactic(auto, using(crate::proofs::FewRows::few_blocks))]
    fn most_rows(size: u64) -> u64 {
        size / 4
    }
}

/// What the caller sees of a block.
#[inline(always)]
fn block_row(unit: u64, hunk: u64, block: &BlockView<'_>) -> BlockRow
    ensures { result ≡ block_row (record { unit = unit; hunk = hunk; block = block.now }) }
{
    let content = content(block);
    let word = block.word();
    BlockRow {
        place: block.place(),
        bytes: block.encoded_len(),
        unit,
        hunk,
        content: content.place,
        content_bytes: content.bytes,
        memory: block.body().content_bytes().unwrap_or(0),
        items: items(unit, hunk, block),
        kind: word.word() % (1 << 29),
        flags: u32::from(word.flags()),
        reserved: 0,
    }
}

/// Bytes of the file.
#[derive(Clone, Copy)]
struct Span {
    place: u64,
    bytes: u64,
}

/// The bytes that hold the block's content, its name or its data; none, at 0, where it has none.
#[inline(always)]
fn content(block: &BlockView<'_>) -> Span
    ensures { result ≡ content block.now.place block.now.value.body }
{
    match payload_of(block.body()) {
        Some(payload) => span_before(block.place() + block.encoded_len(), payload),
        None => Span { place: 0, bytes: 0 },
    }
}

/// The payload's bytes, which end at this byte of the file.
#[inline(always)]
fn span_before(end: u64, payload: &Payload<'_>) -> Span
    requires { 4 * length (longs payload.now) ≤ end }
    ensures place { result.place + result.bytes ≡ end }
    ensures bytes { result.bytes ≡ 4 * length (longs payload.now) }
{
    let bytes = payload.byte_count();
    Span {
        place: end - bytes,
        bytes,
    }
}

/// How many rows the block has in the table of its items.
fn items(unit: u64, hunk: u64, block: &BlockView<'_>) -> u64
    ensures { result ≡ items (record { unit = unit; hunk = hunk; block = block.now }) }
{
    match block.body() {
        BodyView::Reloc(groups) => groups.offset_count(),
        BodyView::Symbol(symbols) => symbols.len() as u64,
        BodyView::Ext(entries) => {
            let mut counter = RowCount { count: 0 };
            list_entries(&mut counter, unit, hunk, entries.again());
            counter.count
        }
        _ => 0,
    }
}
