//! What the rows of a stream come to as a table: its header, and its hunks.
ghost use Rattle.std.specs.Prelude.{◌↔◌, IsTrue, MatchOption};
ghost use Rattle.hunk_files.specs.LoadFile.{IsTableEntry};
ghost use Rattle.hunk_scatter.specs.HeaderBytes.{IsHeaderTable};
ghost use Rattle.hunk_files.specs.Tables.{row_entry};
ghost use Rattle.hunk_scatter.specs.Rows.{entries_of};
ghost use Rattle.hunk_c.specs.Streams.{HasSizes};

use hunk_files::Row;
use hunk_grammar::TABLE_AT;
use hunk_words::{MOST_HUNKS, SizeWord};

/// Whether a header can declare the row: attributes stand only where both bits of the memory do.
fn is_entry(row: Row) -> bool
    ensures { IsTrue result ↔ IsTableEntry (row_entry row) }
{
    SizeWord::has_extra(row.word) || row.extra == 0
}

/// The bytes of the header whose table the rows are, and those that it declares; nothing where no
/// header has such a table.
pub(crate) fn table_sizes(rows: &[Row]) -> Option<(u64, u64)>
    ensures { MatchOption result (IsHeaderTable (entries_of rows.now) → ⊥)
        (λ sizes. HasSizes (entries_of rows.now) sizes.0 sizes.1) }
{
    if rows.is_empty() {
        return None;
    }
    if rows.len() > MOST_HUNKS as usize {
        return None;
    }
    let mut header = 4 * TABLE_AT as u64;
    let mut bytes = 0;
    'rows: for row in rows {
        if !is_entry(*row) {
            return None;
        }
        header += 4 * SizeWord::entry_longs(row.word) as u64;
        bytes += row.size().bytes();
    }
    Some((header, bytes))
}
