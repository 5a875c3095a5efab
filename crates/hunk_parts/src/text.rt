//! The text that rows spell.
ghost use Rattle.std.specs.Prelude.{◌≡◌, ◌<◌, ◌++◌, ◌∷◌, ◌-◌, [], IsTrue, None, List};
ghost use Rattle.std.specs.Prelude.{if◌then◌else◌, is_some, length, map, ℕ};
ghost use Rattle.std.specs.List.{AllByRecursion, filter, flat_map};
ghost use Rattle.hunk_words.specs.Bits.{header_word};
ghost use Rattle.hunk_words.specs.Longs.{bytes_of};
ghost use Rattle.hunk_blocks.specs.Faults.{words};
ghost use Rattle.hunk_files.specs.LoadText.{entry_labelled, header_labelled};
ghost use Rattle.hunk_files.specs.Tables.{entry_text};
ghost use Rattle.hunk_parts.specs.PartFaults as faults;
ghost use Rattle.hunk_parts.specs.PartFaults.{is_hunk_row, row_fault};
ghost use Rattle.hunk_parts.specs.Parts.{seen};
ghost use Rattle.hunk_parts.specs.RowsText.{closing, header_of, part_text, row_entry, row_part, rows_table, rows_text};
ghost use Rattle.hunk_parts.specs.RowsText.{table_entry, text_from};

use crate::longs::put_word;
use crate::part_row::{BLOCK_PART, GROUP_PART, HUNK_PART, PartRow, SYMBOL_PART};
use crate::seen_part::SeenPart;
use crate::steps::list_after;
use crate::writing::{put_closing, put_part};
use hunk_files::TakesBytes;
use hunk_words::{HEADER_WORD, Kind, SizeWord};

// ---- The header of a load file.

/// Hands over an entry of the table.
fn put_entry<T: TakesBytes>(taker: &mut T, word: u32, extra: u32)
    ensures { T.takes taker.old (bytes_of (entry_text (table_entry word extra))) taker.new }
{
    if SizeWord::has_extra(word) {
        put_word(taker, word);
        put_word(taker, extra);
    } else {
        put_word(taker, word);
    }
}

/// Hands over what the table has for the row.
fn put_entry_of<T: TakesBytes>(taker: &mut T, row: &PartRow)
    ensures { T.takes taker.old (bytes_of (if is_hunk_row row.now
        then entry_text (row_entry row.now) else [])) taker.new }
{
    if row.what == HUNK_PART {
        put_entry(taker, row.word, row.value);
    }
}

/// Hands over the table.
fn put_table<T: TakesBytes>(taker: &mut T, rows: &[PartRow])
    ensures { T.takes taker.old (bytes_of (words (flat_map entry_labelled (rows_table rows.now))))
        taker.new }
{
    'rows: for i in 0..rows.len() {
        put_entry_of(taker, &rows[i]);
    }
}

/// Hands over the header, up to the table.
fn put_front<T: TakesBytes>(taker: &mut T, hunks: u32)
    requires { 0 < hunks }
    ensures { T.takes taker.old (bytes_of (header_word ∷ 0 ∷ hunks ∷ 0 ∷ (hunks - 1) ∷ []))
        taker.new }
{
    put_word(taker, HEADER_WORD);
    put_word(taker, 0);
    put_word(taker, hunks);
    put_word(taker, 0);
    put_word(taker, hunks - 1);
}

/// Hands over the header of so many hunks.
fn put_header<T: TakesBytes>(taker: &mut T, rows: &[PartRow], hunks: u32)
    requires some { 0 < hunks }
    requires count { hunks ≡ length (filter is_hunk_row rows.now) }
    ensures { T.takes taker.old (bytes_of (words (header_labelled (rows_table rows.now))))
        taker.new }
{
    put_front(taker, hunks);
    put_table(taker, rows);
}

/// Hands over the header of a load file, which has so many hunks; nothing of an object file.
fn put_head<T: TakesBytes>(taker: &mut T, rows: &[PartRow], hunks: u32)
    requires { hunks ≡ (faults.first_place rows.now).hunks }
    ensures { (bytes : List ℕ) → T.takes taker.old
        (bytes_of (header_of (map (row_part bytes) rows.now))) taker.new }
{
    if hunks > 0 {
        put_header(taker, rows, hunks);
    }
}

// ---- The parts.

/// Hands over the text of a row where this list is open, and gives the list that is open after it.
/// The most frequent kinds of parts are told apart here, once for all that is asked of one.
fn put_row<T: TakesBytes>(
    taker: &mut T,
    bytes: &[u8],
    list: Option<Kind>,
    row: &PartRow,
) -> Option<Kind>
    requires { IsTrue (is_some (seen bytes.now row.now)) }
    ensures text { T.takes taker.old (bytes_of (closing list row.now.what
        ++ part_text (row_part bytes.now row.now))) taker.new }
    ensures list { result ≡ faults.list_after list row.now.what row.now.word }
{
    match row.what {
        BLOCK_PART => put_any_row(taker, bytes, list, row),
        GROUP_PART => put_any_row(taker, bytes, list, row),
        SYMBOL_PART => put_any_row(taker, bytes, list, row),
        _ => put_any_row(taker, bytes, list, row),
    }
}

/// The same, with no kind told apart beforehand.
#[inline(always)]
fn put_any_row<T: TakesBytes>(
    taker: &mut T,
    bytes: &[u8],
    list: Option<Kind>,
    row: &PartRow,
) -> Option<Kind>
    requires { IsTrue (is_some (seen bytes.now row.now)) }
    ensures text { T.takes taker.old (bytes_of (closing list row.now.what
        ++ part_text (row_part bytes.now row.now))) taker.new }
    ensures list { result ≡ faults.list_after list row.now.what row.now.word }
{
    let Some(part) = SeenPart::of(bytes, row) else {
        return list;
    };
    let next = list_after(list, row.what, row.word);
    put_closing(taker, list, row.what);
    put_part(taker, &part);
    next
}

/// Hands over the texts of the rows.
fn put_body<T: TakesBytes>(taker: &mut T, bytes: &[u8], rows: &[PartRow])
    requires { AllByRecursion (λ r. IsTrue (is_some (seen bytes.now r))) rows.now }
    ensures { T.takes taker.old (bytes_of (text_from None (map (row_part bytes.now) rows.now)))
        taker.new }
{
    let mut list = None;
    'rows: for i in 0..rows.len() {
        list = put_row(taker, bytes, list, &rows[i]);
    }
    put_closing(taker, list, BLOCK_PART);
}

/// Hands over the file that the rows spell, of this many hunks.
pub(crate) fn put_rows<T: TakesBytes>(taker: &mut T, bytes: &[u8], rows: &[PartRow], hunks: u32)
    requires spell { row_fault bytes.now rows.now ≡ None }
    requires hunks { hunks ≡ (faults.first_place rows.now).hunks }
    ensures { T.takes taker.old (bytes_of (rows_text bytes.now rows.now)) taker.new }
{
    put_head(taker, rows, hunks);
    put_body(taker, bytes, rows);
}
