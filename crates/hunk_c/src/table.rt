//! Tables of load files, by their headers alone.
ghost use Rattle.std.specs.Prelude.{List, ◌≡◌, length, map};
ghost use Rattle.hunk_files.specs.LoadFile.{TableEntry};
ghost use Rattle.hunk_scatter.specs.HeaderBytes.{BeginsWithHeader};
ghost use Rattle.hunk_c.specs.Tables.{BeginsWithTableOf, Tables, table_row};

use crate::answer::{Answer, done, no_room, refused};
use hunk_grammar::TABLE_AT;
use hunk_scatter::stream::header_size;
use hunk_words::{CONTENT_LIMIT, SizeWord};

/// What a header declares of a hunk, `struct hunk_row`: 16 bytes, with no padding.
#[repr(C)]
#[derive(Clone, Copy)]
pub struct TableRow {
    pub word: u32,
    pub extra: u32,
    pub bytes: u32,
    pub memory: u32,
}

/// Lists what the header that the bytes begin with declares of each hunk.
#[unsafe(no_mangle)]
pub extern "C" fn hunk_table(bytes: &[u8], budget: u64, rows: &mut [TableRow]) -> Answer
    ensures { Tables budget bytes.now rows.old rows.new result }
{
    let size = match header_size(bytes, budget) {
        Ok(size) => size,
        Err(none) => {
            return Answer {
                count: none.owed,
                ..refused(none.fault)
            };
        }
    };
    let hunks = size.hunks as usize;
    if hunks > rows.len() {
        return no_room(size.hunks, size.bytes, size.declared);
    }
    put_rows(bytes, &mut rows[..hunks]);
    done(size.hunks, size.bytes, size.declared)
}

/// Writes the rows of the table of the header that the bytes begin with.
fn put_rows(bytes: &[u8], rows: &mut [TableRow])
    requires { BeginsWithTableOf (length rows.old) bytes.now }
    ensures { (t : List TableEntry) → BeginsWithHeader bytes.now t → length t ≡ length rows.old
        → rows.new ≡ map table_row t }
{
    let mut at = TABLE_AT;
    'rows: for row in rows {
        let size = SizeWord::at(bytes, at);
        *row = table_row(size);
        at += SizeWord::entry_longs(size.word);
    }
}

/// What callers see of a size word.
fn table_row(size: SizeWord) -> TableRow
    ensures { result ≡ table_row (record { word = size.word; extra = size.extra }) }
{
    TableRow {
        word: size.word,
        extra: size.extra,
        bytes: 4 * size.longs(),
        memory: size.word / CONTENT_LIMIT,
    }
}
