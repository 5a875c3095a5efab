//! What loaders hold, by what the allocator still gives beside them.
ghost use Rattle.std.specs.Prelude.{[], None, false};

use crate::tests::asserts::{assert_equal, assert_equal_at};
use crate::tests::{fed, loaded};
use hunk_scatter::{BodyLoader, Declared, HeaderLoader, Image, Limits, Packed};
use hunk_words::{Failed, LoadFault, Reason, Source};
use std::alloc::{AllocError, Global};
use std::process::Abort;
use std::test::Fail;
use test_helpers::{bytes_of, largest_piece, left_beside, memory_ends, spelled};

/// The hunks of a header of `header`.
const HUNKS: u32 = 65;

/// The bytes that they declare: 1,024 longwords for the first, and one for each other.
const TOTAL: usize = 4_352;

/// The header, up to its first `rows` rows.
fn header(alloc: Global, rows: u32) -> Result<Vec<u8>, AllocError> {
    front(alloc, HUNKS, rows)
}

/// A header of this many hunks, up to its first `rows` rows.
fn front(alloc: Global, hunks: u32, rows: u32) -> Result<Vec<u8>, AllocError> {
    let mut longs = [0x3F3, 0, hunks, 0, hunks.saturating_sub(1)].to_vec(alloc)?;
    for row in 0..rows {
        longs.push(if row == 0 { 1_024 } else { 1 })?;
    }
    bytes_of(alloc, longs.as_slice())
}

/// This many rows of 12 bytes in a list that grew with them, and gave back the room beyond them, and a
/// store of this many bytes: what a loader has to hold, got in the same way.
fn plain(alloc: Global, rows: u32, store: usize) -> Result<(Vec<[u8; 12]>, Vec<u8>), AllocError> {
    let mut list = Vec::new(alloc);
    for _ in 0..rows {
        list.push([0u8; 12])?;
    }
    list.shrink_to_fit();
    Ok((list, vec![in alloc; 0u8; store]?))
}

/// Sees that beside a value as much is left as beside this many rows and a store of this many bytes.
///
/// A list of the same growth is what the value is held to, since the allocator keeps apart what a list
/// leaves of its room.
fn expect_left(
    rt: &impl Abort,
    alloc: Global,
    left: usize,
    rows: u32,
    store: usize,
) -> Result<(), Fail> {
    let (held, want) = left_beside(alloc, || plain(alloc, rows, store))?;
    assert!(rt; held.is_ok());
    assert!(rt;
        left.abs_diff(want) <= 64,
        "{left} beside {rows} rows and {store} bytes, not {want}"
    );
    Ok(())
}

/// A loader of headers that was fed these bytes.
fn header_loader(alloc: Global, bytes: &[u8], budget: u64) -> HeaderLoader {
    let (loader, _) = fed(alloc, bytes, budget);
    loader
}

/// The table of the header.
fn declared(alloc: Global, header: &[u8]) -> Option<Declared> {
    header_loader(alloc, header, TOTAL as u64).declared().ok()
}

/// 64 rows of 12 bytes, which is what their list has room for, of a header of 65,536: a loader that
/// reserves by the number of hunks holds more.
#[test]
fn rows_of_a_header(rt: HostRuntime) -> Result<(), Fail> {
    if !memory_ends(&rt)? {
        return Ok(());
    }
    let bytes = front(rt.alloc(), 65_536, 64)?;
    let alloc = rt.alloc();
    let (loader, left) = left_beside(alloc, || header_loader(alloc, bytes.as_slice(), 10_000))?;
    assert_equal(&rt, loader.held(), 768);
    assert_equal(&rt, loader.want(), 256);
    expect_left(&rt, alloc, left, 64, 0)
}

/// A loader that has refused holds nothing.
#[test]
fn nothing_after_a_refusal(rt: HostRuntime) -> Result<(), Fail> {
    if !memory_ends(&rt)? {
        return Ok(());
    }
    let bytes = header(rt.alloc(), 64)?;
    let alloc = rt.alloc();
    let (loader, left) = left_beside(alloc, || header_loader(alloc, bytes.as_slice(), 4_200))?;
    assert_equal(&rt, (loader.want(), loader.held()), (0, 0));
    expect_left(&rt, alloc, left, 0, 0)
}

/// A table holds 12 bytes a hunk, not what the list had room for while it grew.
#[test]
fn rows_of_a_table(rt: HostRuntime) -> Result<(), Fail> {
    if !memory_ends(&rt)? {
        return Ok(());
    }
    let bytes = header(rt.alloc(), HUNKS)?;
    let alloc = rt.alloc();
    let (table, left) = left_beside(alloc, || declared(alloc, bytes.as_slice()))?;
    assert_equal(&rt, table.map(|table| table.held()), Some(780));
    expect_left(&rt, alloc, left, HUNKS, 0)
}

/// What a loader of a body holds and answers.
type Loading = (BodyLoader, Result<usize, LoadFault>);

/// A loader of the body after the header that was fed these bytes, and what it answered.
fn loading(alloc: Global, header: &[u8], body: &[u8]) -> Option<Loading> {
    let Some(table) = declared(alloc, header) else {
        return None;
    };
    let Ok(mut loader) = table.place(&Packed { start: 0 }) else {
        return None;
    };
    let answer = loader.feed(body);
    Some((loader, answer))
}

/// Bodies after the 280 bytes of the header, and what is answered: no byte, the front of one of seven kinds of
/// blocks, all of which is taken, and one that is refused at its last longword.
const BODIES: &[(&str, Result<usize, LoadFault>)] = &[
    ("", Ok(0)),
    (
        "3E8 1 61000000 / 3E9 2 4E754E71 0 / 3EC 1 1 4 0 / 3F0 1 5F6D0000 0 0 / 3F1 1 7 / 3F2 / 3EA 1",
        Ok(92),
    ),
    (
        "3E9 1 4E754E71 / 3F5",
        Err(LoadFault {
            place: 292,
            reason: Reason::Overlay,
        }),
    ),
];

/// Sees what a loader that was fed the body answered, and that it holds the rows and the store.
fn expect_loading(
    rt: &impl Abort,
    loading: Option<&Loading>,
    want: &Result<usize, LoadFault>,
    text: &str,
) {
    let Some((loader, answer)) = loading else {
        panic!(rt; "no loader");
    };
    assert_equal_at(rt, *answer, *want, text);
    assert_equal_at(rt, loader.held(), 780 + TOTAL as u64, text);
}

/// The rows and one store of the bytes that are declared, whatever was fed.
#[test]
fn rows_and_store(rt: HostRuntime) -> Result<(), Fail> {
    if !memory_ends(&rt)? {
        return Ok(());
    }
    let (alloc, header) = (rt.alloc(), header(rt.alloc(), HUNKS)?);
    for (text, want) in BODIES {
        let body = spelled(alloc, text)?;
        let (loading, left) = left_beside(
            alloc,
            || loading(alloc, header.as_slice(), body.as_slice()),
        )?;
        expect_loading(&rt, loading.as_ref(), want, text);
        expect_left(&rt, alloc, left, HUNKS, TOTAL)?;
    }
    Ok(())
}

/// The file of the header: BSS blocks alone.
fn file(alloc: Global) -> Result<Vec<u8>, AllocError> {
    let mut bytes = header(alloc, HUNKS)?;
    for hunk in 0..HUNKS {
        let longs = if hunk == 0 { 1_024 } else { 1 };
        bytes.extend_from_slice(bytes_of(alloc, [0x3EB, longs, 0x3F2].as_slice())?.as_slice())?;
    }
    Ok(bytes)
}

/// A source of bytes that sees, at its last read, how large a piece the allocator gives beside what its reader holds.
#[derive(Drop)]
struct Measuring<'a> {
    rest: &'a [u8],
    alloc: Global,
    largest: usize,
}

impl Source for Measuring<'_> {
    ghost supply = { λ _. record { left = None; failed = false } };

    ghost shown = { λ _. [] };

    fn pull(&mut self, buf: &mut [u8]) -> Result<usize, Failed> {
        let count = buf.len().min(self.rest.len());
        let (front, rest) = self.rest.split_at(count);
        buf[..count].copy_from_slice(front);
        self.rest = rest;
        if rest.is_empty() {
            self.largest = largest_piece(self.alloc);
        }
        Ok(count)
    }

    fn held(&self) -> &[u8] {
        &[]
    }

    fn consume(&mut self, _count: usize) {}
}

/// What a load of the bytes gives, and how large a piece there was beside it at its last read.
fn image_of(alloc: Global, bytes: &[u8]) -> (Option<Image>, usize) {
    let limits = Limits {
        budget: TOTAL as u64,
        file_bytes: 10_000,
    };
    let mut source = Measuring {
        rest: bytes,
        alloc,
        largest: 0,
    };
    let image = loaded(alloc, &mut source, limits, &Packed { start: 0 }).ok();
    (image, source.largest)
}

/// How large a piece there is beside the rows and the store of `header`.
fn largest_beside(alloc: Global) -> Result<usize, AllocError> {
    let held = plain(alloc, HUNKS, TOTAL)?;
    let largest = largest_piece(alloc);
    drop(held);
    Ok(largest)
}

/// A load holds the rows and the store while it reads its last bytes, and so does the image that it gives.
#[test]
fn rows_and_store_of_a_load(rt: HostRuntime) -> Result<(), Fail> {
    if !memory_ends(&rt)? {
        return Ok(());
    }
    let (alloc, bytes) = (rt.alloc(), file(rt.alloc())?);
    let ((image, largest), left) = left_beside(alloc, || image_of(alloc, bytes.as_slice()))?;
    let Some(image) = image else {
        panic!(rt; "no image");
    };
    assert_equal(
        &rt,
        (image.hunks(), image.held()),
        (HUNKS, 780 + TOTAL as u64),
    );
    expect_left(&rt, alloc, left, HUNKS, TOTAL)?;
    let (want, _) = left_beside(alloc, || largest_beside(alloc))?;
    let want = want?;
    assert!(rt; largest > 1 << 24, "{largest}");
    assert!(rt; largest.abs_diff(want) <= 64, "{largest}, not {want}");
    Ok(())
}
