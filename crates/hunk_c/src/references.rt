//! The references of a file's EXT entries.
ghost use Rattle.std.specs.Prelude.{◌≡◌, ◌+◌, ◌-◌, ◌*◌, ◌≤◌, ℕ, length};
ghost use Rattle.std.specs.List.{AllByRecursion};
ghost use Rattle.hunk_words.specs.Carriers.{saturated};
ghost use Rattle.hunk_blocks.specs.Values.{IsExtEntry};
ghost use Rattle.hunk_parts.specs.Listing.{item_rows};
ghost use Rattle.hunk_c.specs.References.{body_entries, body_references, entries_references, long_text};
ghost use Rattle.hunk_c.specs.References.{reference_row, references_in};
ghost use Rattle.hunk_c.specs.Rows.{ListsWhatFits, Tabulates};

use crate::answer::Answer;
use crate::rows::{CountedRow, FileRow, count_rows, tabulate_object};
use hunk_blocks::{BlockView, BodyView, EntriesIter, Longs};
use hunk_files::{FileView, Item, Takes, reference_width};

/// An offset of an EXT entry, `struct hunk_reference`: 32 bytes, with no padding.
#[repr(C)]
#[derive(Clone, Copy)]
pub struct ReferenceRow {
    pub entry: u64,
    pub place: u64,
    pub offset: u32,
    pub width: u32,
    pub reserved: u64,
}

/// Lists the offsets of the EXT entries of an object file; a load file has none.
#[unsafe(no_mangle)]
pub extern "C" fn hunk_references(bytes: &[u8], rows: &mut [ReferenceRow]) -> Answer
    ensures outcome { Tabulates references_in bytes.now rows.old rows.new result }
    ensures succeeds { ListsWhatFits references_in (length rows.old) bytes.now result }
{
    tabulate_object(bytes, rows)
}

impl FileRow for ReferenceRow {
    ghost rows = { references_in };

    fn list_file<T: Takes<ReferenceRow>>(file: &FileView<'_>, taker: &mut T) {
        // The number of the next entry, up to 2 ^ 64 - 1.
        let mut number = 0;
        'listing: for item in file.items() {
            if let Item::Block { view, .. } = item {
                number = list_block(taker, number, view);
            }
        }
    }
}

impl CountedRow for ReferenceRow {
    fn count(file: &FileView<'_>) -> u64 {
        count_rows::<ReferenceRow>(file)
    }

    #[tactic(auto, using(crate::proofs::FewRows::few_references))]
    fn most_rows(size: u64) -> u64 {
        size / 4
    }
}

/// Hands over the row of each reference of a block, whose first entry has this number, and gives the
/// number of the next one.
fn list_block<T: Takes<ReferenceRow>>(taker: &mut T, first: u64, block: BlockView<'_>) -> u64
    ensures taken { (n : ℕ) → first ≡ saturated n → T.takes taker.old
        (body_references n block.entry.place block.entry.value.body) taker.new }
    ensures next { (n : ℕ) → first ≡ saturated n
        → result ≡ saturated (n + body_entries block.entry.value.body) }
{
    match block.into_body() {
        BodyView::Ext(entries) => list_entries(taker, first, entries),
        _ => first,
    }
}

/// Hands over the row of each reference of entries, the first of which has this number, and gives the
/// number of the next one.
fn list_entries<T: Takes<ReferenceRow>>(
    taker: &mut T,
    first: u64,
    mut entries: EntriesIter<'_>,
) -> u64
    requires { AllByRecursion IsExtEntry entries.value }
    ensures taken { (n : ℕ) → first ≡ saturated n → T.takes taker.old
        (entries_references n entries.entry.place entries.entry.value) taker.new }
    ensures next { (n : ℕ) → first ≡ saturated n
        → result ≡ saturated (n + length entries.entry.value) }
{
    let mut number = first;
    'listing: while let Some(entry) = entries.next() {
        let width = reference_width(&entry) as u32;
        list_references(taker, number, width, &entry.offsets, entries.place());
        number = number.saturating_add(1);
    }
    number
}

/// Hands over the row of each of these offsets, which end at this byte of the file.
fn list_references<T: Takes<ReferenceRow>>(
    taker: &mut T,
    entry: u64,
    width: u32,
    offsets: &Longs<'_>,
    end: u64,
)
    requires { 4 * length offsets.now ≤ end }
    ensures { T.takes taker.old (item_rows (reference_row entry width) long_text
        (end - 4 * length offsets.now) offsets.now) taker.new }
{
    let mut place = end - 4 * offsets.len() as u64;
    'listing: for offset in offsets.iter() {
        taker.take(ReferenceRow {
            entry,
            place,
            offset,
            width,
            reserved: 0,
        });
        place += 4;
    }
}
