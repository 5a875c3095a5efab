//! The parts of a file, one after the other.
ghost use Rattle.std.specs.List.{AllByRecursion};
ghost use Rattle.hunk_blocks.specs.Parts.{ext_text, group_text, symbol_text};
ghost use Rattle.hunk_blocks.specs.Values.{IsExtEntry};
ghost use Rattle.hunk_files.specs.FileView.{file_of};
ghost use Rattle.hunk_parts.specs.Listing.{item_rows};
ghost use Rattle.hunk_parts.specs.PartRows.{block_rows, entry_row, group_row, load_rows};
ghost use Rattle.hunk_parts.specs.PartRows.{object_rows, part_rows, symbol_row};

use crate::part_row::PartRow;
use crate::rows::{block_row, entry_row, group_row, hunk_row, symbol_row, unit_row};
use hunk_blocks::{BlockView, BodyView, EntriesIter, GroupsIter, SymbolsIter};
use hunk_files::{FileView, Item, LoadView, ObjectView, Takes};

/// Hands over the parts of a file, in its order, but each size word of a load file before the
/// blocks of its hunk. It takes no memory.
pub fn list_parts<T: Takes<PartRow>>(file: &FileView<'_>, taker: &mut T)
    ensures { T.takes taker.old (part_rows (file_of file.now)) taker.new }
{
    match file {
        FileView::Load { file, rest: _ } => list_load(taker, file),
        FileView::Object(file) => list_object(taker, file),
    }
}

/// Hands over the parts of a load file.
fn list_load<T: Takes<PartRow>>(taker: &mut T, file: &LoadView<'_>)
    ensures { T.takes taker.old (load_rows file.now) taker.new }
{
    let mut table = file.table();
    'listing: for item in file.items() {
        match item {
            // A load file has no unit.
            Item::Unit { view, .. } => taker.take(unit_row(&view)),
            Item::Hunk { .. } => {
                if let Some(size) = table.next() {
                    taker.take(hunk_row(size));
                }
            }
            Item::Block { view, .. } => list_block(taker, view),
        }
    }
}

/// Hands over the parts of an object file.
fn list_object<T: Takes<PartRow>>(taker: &mut T, file: &ObjectView<'_>)
    ensures { T.takes taker.old (object_rows file.now) taker.new }
{
    'listing: for item in file.items() {
        match item {
            Item::Unit { view, .. } => taker.take(unit_row(&view)),
            Item::Hunk { .. } => {}
            Item::Block { view, .. } => list_block(taker, view),
        }
    }
}

/// Hands over a block, and the items of its list.
fn list_block<T: Takes<PartRow>>(taker: &mut T, block: BlockView<'_>)
    ensures { T.takes taker.old (block_rows block.entry.place block.entry.value) taker.new }
{
    taker.take(block_row(&block));
    match block.into_body() {
        BodyView::Reloc(groups) => list_groups(taker, groups),
        BodyView::Symbol(symbols) => list_symbols(taker, symbols),
        BodyView::Ext(entries) => list_entries(taker, entries),
        _ => {}
    }
}

/// Hands over the groups of a relocation block.
fn list_groups<T: Takes<PartRow>>(taker: &mut T, mut groups: GroupsIter<'_>)
    ensures { T.takes taker.old
        (item_rows group_row group_text groups.entry.place groups.entry.value) taker.new }
{
    let mut place = groups.place();
    'listing: while let Some(group) = groups.next() {
        let after = groups.place();
        taker.take(group_row(place, &group));
        place = after;
    }
}

/// Hands over the symbols of a SYMBOL block.
fn list_symbols<T: Takes<PartRow>>(taker: &mut T, mut symbols: SymbolsIter<'_>)
    ensures { T.takes taker.old
        (item_rows symbol_row symbol_text symbols.entry.place symbols.entry.value) taker.new }
{
    let mut place = symbols.place();
    'listing: while let Some(symbol) = symbols.next() {
        let after = symbols.place();
        taker.take(symbol_row(place, &symbol));
        place = after;
    }
}

/// Hands over the entries of an EXT block.
fn list_entries<T: Takes<PartRow>>(taker: &mut T, mut entries: EntriesIter<'_>)
    requires { AllByRecursion IsExtEntry entries.value }
    ensures { T.takes taker.old
        (item_rows entry_row ext_text entries.entry.place entries.entry.value) taker.new }
{
    let mut place = entries.place();
    'listing: while let Some(entry) = entries.next() {
        let after = entries.place();
        taker.take(entry_row(place, after, &entry));
        place = after;
    }
}
