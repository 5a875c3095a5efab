//! The entries of a file's EXT blocks.
ghost use Rattle.std.specs.Prelude.{◌≡◌, ◌+◌, ◌<◌, ◌^◌, length};
ghost use Rattle.hunk_blocks.specs.Parts.{ext_text};
ghost use Rattle.hunk_blocks.specs.Views.{entry_of};
ghost use Rattle.hunk_parts.specs.Listing.{item_rows};
ghost use Rattle.hunk_c.specs.Rows.{ListsWhatFits, Tabulates};
ghost use Rattle.hunk_c.specs.Entries.{block_rows, entries_in, entry_row};

use crate::answer::Answer;
use crate::name::text_length;
use crate::rows::{CountedRow, InBlock, count_rows, tabulate_object};
use hunk_blocks::{BlockView, BodyView, EntriesIter, Entry};
use hunk_files::{FileView, Takes};
use hunk_words::NAME_LIMIT;

/// An entry of an EXT block, `struct hunk_entry`: 64 bytes, with no padding.
#[repr(C)]
#[derive(Clone, Copy)]
pub struct EntryRow {
    pub place: u64,
    pub unit: u64,
    pub hunk: u64,
    pub name: u64,
    pub name_bytes: u64,
    pub references: u64,
    pub value: u32,
    pub kind: u32,
    pub reserved: u64,
}

/// Lists the entries of the EXT blocks of an object file; a load file has none.
#[unsafe(no_mangle)]
pub extern "C" fn hunk_entries(bytes: &[u8], rows: &mut [EntryRow]) -> Answer
    ensures outcome { Tabulates entries_in bytes.now rows.old rows.new result }
    ensures succeeds { ListsWhatFits entries_in (length rows.old) bytes.now result }
{
    tabulate_object(bytes, rows)
}

impl InBlock for EntryRow {
    ghost in_block = { block_rows };

    fn list<T: Takes<EntryRow>>(unit: u64, hunk: u64, block: BlockView<'_>, taker: &mut T) {
        if let BodyView::Ext(entries) = block.into_body() {
            list_entries(taker, unit, hunk, entries);
        }
    }
}

impl CountedRow for EntryRow {
    fn count(file: &FileView<'_>) -> u64 {
        count_rows::<EntryRow>(file)
    }

    #[tactic(auto, using(crate::proofs::FewRows::few_entries))]
    fn most_rows(size: u64) -> u64 {
        size / 4
    }
}

/// Hands over the row of each entry of a block.
pub(crate) fn list_entries<T: Takes<EntryRow>>(
    taker: &mut T,
    unit: u64,
    hunk: u64,
    mut entries: EntriesIter<'_>,
)
    ensures { T.takes taker.old (item_rows (entry_row unit hunk) ext_text
        entries.entry.place entries.entry.value) taker.new }
{
    let mut place = entries.place();
    'listing: while let Some(entry) = entries.next() {
        let after = entries.place();
        taker.take(entry_row(unit, hunk, place, &entry));
        place = after;
    }
}

/// What the caller sees of an entry that begins at this byte.
fn entry_row(unit: u64, hunk: u64, place: u64, entry: &Entry<'_>) -> EntryRow
    requires { place + 4 < 2 ^ 64 }
    ensures { result ≡ entry_row unit hunk place (entry_of entry.now) }
{
    EntryRow {
        place,
        unit,
        hunk,
        name: place + 4,
        name_bytes: text_length(entry.name.bytes()),
        references: entry.offsets.len() as u64,
        value: entry.value,
        kind: entry.word / NAME_LIMIT,
        reserved: 0,
    }
}
