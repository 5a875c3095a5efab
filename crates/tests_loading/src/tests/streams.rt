//! A loader in memory that is its caller's, by pieces cut at each byte.

use crate::tests::asserts::assert_equal;
use crate::tests::cut_at;
use hunk_files::Row;
use hunk_scatter::stream::{Standing, Stop, begin, feed_piece};
use std::alloc::{AllocError, Global};
use std::process::Abort;
use std::test::Fail;
use test_helpers::examples::{TWO_HUNKS, WITH_ATTRIBUTES};
use test_helpers::spelled;

/// What `feed_piece` answers. This promises nothing, so that what calls it has a short proof.
fn piece_taken(
    store: &mut [u8],
    rows: &[Row],
    at: Standing,
    piece: &[u8],
) -> Result<(Standing, usize), Stop> {
    feed_piece(store, rows, at, piece)
}

/// The size word, the attributes and the base of each hunk.
type Table<'a> = &'a [(u32, u32, u32)];

fn rows_of(alloc: Global, table: Table) -> Result<Vec<Row>, AllocError> {
    let mut rows = Vec::new(alloc);
    for (word, extra, base) in table {
        rows.push(Row {
            word: *word,
            extra: *extra,
            base: *base,
        })?;
    }
    Ok(rows)
}

/// Examples 2 and 8, with the bytes of their headers, their tables, and the longwords that the store comes to.
const FILES: &[(&str, usize, Table<'static>, &str)] = &[
    (
        TWO_HUNKS,
        28,
        &[(2, 0, 0x10000), (1, 0, 0x20000)],
        "4EF90002 00044E71 12345678",
    ),
    (
        WITH_ATTRIBUTES,
        32,
        &[(0xC000_0002, 0x10004, 0x21000), (1, 0, 0x21008)],
        "4E714E71 4E754E71 0",
    ),
];

/// Feeds a piece that is taken whole.
fn takes(rt: &impl Abort, store: &mut [u8], rows: &[Row], at: Standing, piece: &[u8]) -> Standing {
    match piece_taken(store, rows, at, piece) {
        Ok((to, taken)) => {
            assert_equal(rt, taken, piece.len());
            to
        }
        Err(stop) => panic!(rt; "{stop:?}"),
    }
}

/// Sees what the store comes to by the file after its header, in two pieces, the first of this many bytes.
fn expect_store(
    rt: &impl Abort,
    store: &mut [u8],
    rows: &[Row],
    (bytes, header): (&[u8], usize),
    cut: usize,
    want: &[u8],
) {
    let (_, body) = cut_at(bytes, header);
    let (front, rest) = cut_at(body, cut);
    let first = begin(store, rows, header as u64);
    let second = takes(rt, store, rows, first, front);
    let third = takes(rt, store, rows, second, rest);
    assert_equal(rt, (third.is_whole(), third.want()), (true, 0));
    assert_equal(rt, third.fed, bytes.len() as u64);
    assert_equal(rt, &*store, want);
}

/// The store is the same, wherever a file is cut, and whatever it had before.
#[test]
fn in_two_pieces(rt: HostRuntime) -> Result<(), Fail> {
    let alloc = rt.alloc();
    for (text, header, table, longs) in FILES {
        let (bytes, rows, want) = (
            spelled(alloc, text)?,
            rows_of(alloc, table)?,
            spelled(alloc, longs)?,
        );
        for cut in 0..bytes.len() {
            let mut store = vec![in alloc; 0xA5u8; want.len()]?;
            let file = (bytes.as_slice(), *header);
            expect_store(&rt, &mut store, &rows, file, cut, &want);
        }
    }
    Ok(())
}
