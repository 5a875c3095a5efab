//! The row of each part.
ghost use Rattle.std.specs.Prelude.{◌≡◌, ◌+◌, ◌<◌, ◌*◌, ◌^◌, [], length};
ghost use Rattle.std.specs.Option.{option_map};
ghost use Rattle.hunk_words.specs.Longs.{longs};
ghost use Rattle.hunk_blocks.specs.BodyViews.{viewed};
ghost use Rattle.hunk_blocks.specs.Parts.{ext_text};
ghost use Rattle.hunk_blocks.specs.Values.{IsExtEntry};
ghost use Rattle.hunk_blocks.specs.Views.{entry_of, group_of, symbol_of};
ghost use Rattle.hunk_files.specs.Tables.{size_entry};
ghost use Rattle.hunk_parts.specs.PartRows.{block_row, entry_row, group_row, hunk_row, row_at};
ghost use Rattle.hunk_parts.specs.PartRows.{symbol_row, unit_row};
ghost use Rattle.hunk_parts.specs.Parts.{part, payload_of, size_value};

use crate::part_row::{
    BLOCK_PART, ENTRY_PART, GROUP_PART, HUNK_PART, PartRow, SYMBOL_PART, UNIT_PART,
};
use hunk_blocks::{BlockView, BodyView, Entry, Group, Payload, SymbolView};
use hunk_files::UnitView;
use hunk_words::{CONTENT_LIMIT, NAME_LIMIT, SizeWord};

/// A part with this word, and nothing else.
#[inline(always)]
fn bare_row(what: u32, word: u32) -> PartRow
    ensures { result ≡ row_at 0 0 (part what word 0 [] []) }
{
    PartRow {
        what,
        word,
        value: 0,
        reserved: 0,
        content: 0,
        content_bytes: 0,
        offsets: 0,
        offset_count: 0,
    }
}

/// A hunk of a load file, by its entry of the table.
#[inline(always)]
pub(crate) fn hunk_row(size: SizeWord) -> PartRow
    ensures { result ≡ hunk_row (size_entry size) }
{
    PartRow {
        value: size.extra,
        ..bare_row(HUNK_PART, size.word)
    }
}

/// A unit of an object file.
#[inline(always)]
pub(crate) fn unit_row(unit: &UnitView<'_>) -> PartRow
    ensures { result ≡ unit_row unit.now.place unit.now.value.name }
{
    PartRow {
        content: unit.place() + 8,
        content_bytes: unit.name().byte_count(),
        ..bare_row(UNIT_PART, 0)
    }
}

/// A block.
#[inline(always)]
pub(crate) fn block_row(block: &BlockView<'_>) -> PartRow
    ensures { result ≡ block_row block.now.place block.now.value }
{
    let row = PartRow {
        value: size_value(block.body()),
        ..bare_row(BLOCK_PART, block.word().word())
    };
    match payload_of(block.body()) {
        Some(payload) => {
            let content_bytes = payload.byte_count();
            PartRow {
                content: block.place() + block.encoded_len() - content_bytes,
                content_bytes,
                ..row
            }
        }
        None => row,
    }
}

/// What the size word of content has beside the number of longwords that follow it.
#[inline(always)]
fn size_value(body: &BodyView<'_>) -> u32
    requires { size_value (viewed body.now) < 2 ^ 32 }
    ensures { result ≡ size_value (viewed body.now) }
{
    match body {
        BodyView::Code { top, payload: _ } => u32::from(*top) * CONTENT_LIMIT,
        BodyView::Data { top, payload: _ } => u32::from(*top) * CONTENT_LIMIT,
        BodyView::Bss { size } => *size,
        _ => 0,
    }
}

/// The longwords after a count, of a body that has them.
#[inline(always)]
pub fn payload_of<'a, 'b>(body: &'b BodyView<'a>) -> Option<&'b Payload<'a>>
    ensures { option_map (λ payload. longs payload.now) result ≡ payload_of (viewed body.now) }
{
    match body {
        BodyView::Name(payload) => Some(payload),
        BodyView::Code { top: _, payload } => Some(payload),
        BodyView::Data { top: _, payload } => Some(payload),
        BodyView::Debug(payload) => Some(payload),
        BodyView::Advisory(payload) => Some(payload),
        _ => None,
    }
}

/// A group that begins at this byte.
#[inline(always)]
pub(crate) fn group_row(place: u64, group: &Group<'_>) -> PartRow
    requires { place + 8 < 2 ^ 64 }
    ensures { result ≡ group_row place (group_of group.now) }
{
    PartRow {
        offsets: place + 8,
        offset_count: group.offsets.len() as u64,
        ..bare_row(GROUP_PART, group.target)
    }
}

/// A symbol whose entry begins at this byte.
#[inline(always)]
pub(crate) fn symbol_row(place: u64, symbol: &SymbolView<'_>) -> PartRow
    requires { place + 4 < 2 ^ 64 }
    ensures { result ≡ symbol_row place (symbol_of symbol.now) }
{
    PartRow {
        value: symbol.value,
        content: place + 4,
        content_bytes: symbol.name.byte_count(),
        ..bare_row(SYMBOL_PART, symbol.word / NAME_LIMIT)
    }
}

/// An entry of an EXT block from this byte on, before the other.
#[inline(always)]
pub(crate) fn entry_row(place: u64, end: u64, entry: &Entry<'_>) -> PartRow
    requires entry { IsExtEntry (entry_of entry.now) }
    requires end { end ≡ place + 4 * length (ext_text (entry_of entry.now)) }
    ensures { result ≡ entry_row place (entry_of entry.now) }
{
    let offset_count = entry.offsets.len() as u64;
    PartRow {
        value: entry.value,
        content: place + 4,
        content_bytes: entry.name.byte_count(),
        offsets: end - 4 * offset_count,
        offset_count,
        ..bare_row(ENTRY_PART, entry.word / NAME_LIMIT)
    }
}
