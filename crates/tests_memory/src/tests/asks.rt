//! What a load asks of its source, of its placer and for memory.
ghost use Rattle.std.specs.Prelude.{[], ◌≡◌, ◌≤◌, None, length};
ghost use Rattle.hunk_scatter.specs.Placing.{packed_from};

use crate::tests::asserts::{assert_equal, assert_equal_at};
use crate::tests::{START, fed, load_fault, loaded};
use hunk_files::Row;
use hunk_scatter::{Limits, Packed, Placer};
use hunk_words::{Failed, Source};
use std::alloc::{AllocError, Global};
use std::cell::Cell;
use std::process::Abort;
use std::test::Fail;
use test_helpers::examples::{ENDING_IN_ZEROS, ONE_HUNK, TWO_HUNKS, WITH_A_SYMBOL};
use test_helpers::{bytes_of, spelled};

/// Limits that no file of these tests meets.
const LIMITS: Limits = Limits {
    budget: 1 << 30,
    file_bytes: 1 << 30,
};

/// How many of the sizes that are asked for are kept.
const KEPT: usize = 8;

/// Gives a front, zero bytes and END, as many as are asked for, and keeps how many that is. It fails where no byte is
/// asked for, and where none is left.
#[derive(Drop)]
struct Asked<'a> {
    front: &'a [u8],
    zeros: usize,
    end: &'a [u8],
    pulls: usize,
    sizes: [usize; KEPT],
    failed: bool,
}

impl<'a> Asked<'a> {
    fn new(front: &'a [u8], zeros: usize, end: &'a [u8]) -> Asked<'a> {
        Asked {
            front,
            zeros,
            end,
            pulls: 0,
            sizes: [0; KEPT],
            failed: false,
        }
    }

    /// Fills a first part of the buffer, and tells how many bytes it has.
    fn give(&mut self, buf: &mut [u8]) -> usize
        ensures bound { result ≤ length buf.new }
        ensures same { self.new.failed ≡ self.old.failed }
    {
        let first = move_front(&mut self.front, buf);
        let after = &mut buf[first..];
        let zeros = after.len().min(self.zeros);
        after[..zeros].fill(0);
        self.zeros -= zeros;
        first + zeros + move_front(&mut self.end, &mut after[zeros..])
    }
}

/// Moves as many bytes as there is room for, and tells how many these are.
fn move_front(rest: &mut &[u8], buf: &mut [u8]) -> usize
    ensures { result ≤ length buf.new }
{
    let count = buf.len().min(rest.len());
    let (front, after) = rest.split_at(count);
    buf[..count].copy_from_slice(front);
    *rest = after;
    count
}

impl Source for Asked<'_> {
    ghost supply = { λ s. record { left = None; failed = s.failed } };

    ghost shown = { λ _. [] };

    fn pull(&mut self, buf: &mut [u8]) -> Result<usize, Failed> {
        if let Some(size) = self.sizes.get_mut(self.pulls) {
            *size = buf.len();
        }
        self.pulls = self.pulls.wrapping_add(1);
        let count = self.give(buf);
        if count == 0 {
            self.failed = true;
            return Err(Failed);
        }
        Ok(count)
    }

    fn held(&self) -> &[u8] {
        &[]
    }

    fn consume(&mut self, _count: usize) {}
}

/// Files, and the sizes of what is asked for: of a header what each with these bytes still has; of a body the least
/// that is still to come, up to 256 bytes, as an empty BSS block and END of each hunk. The last header passes the
/// budget, and no more is asked for.
const ASKED: &[(&str, &[usize])] = &[
    (ONE_HUNK, &[24, 12, 4]),
    (TWO_HUNKS, &[24, 4, 24, 28, 4]),
    (ENDING_IN_ZEROS, &[24, 4, 24, 4]),
    (WITH_A_SYMBOL, &[24, 12, 4, 8, 12]),
    ("3F3 0 2 0 1 3FFFFFFF 1", &[24]),
];

/// One pull a piece, of all that is wanted, and none of no bytes.
#[test]
fn one_pull_a_piece(rt: HostRuntime) -> Result<(), Fail> {
    for (text, sizes) in ASKED {
        let bytes = spelled(rt.alloc(), text)?;
        let mut source = Asked::new(bytes.as_slice(), 0, &[]);
        let _fault = load_fault(rt.alloc(), &mut source, LIMITS, &START);
        let count = source.pulls.min(KEPT);
        assert_equal_at(&rt, &source.sizes[..count], *sizes, text);
        assert_equal_at(&rt, source.failed, false, text);
    }
    Ok(())
}

/// The bytes of END.
const END: &[u8] = &[0, 0, 3, 0xF2];

/// Sees that a load of this front, of as many zero bytes and of END makes this many pulls.
fn expect_pulls(
    rt: &impl Abort,
    alloc: Global,
    front: &[u32],
    zeros: u32,
    pulls: u32,
) -> Result<(), Fail> {
    let front = bytes_of(alloc, front)?;
    let mut source = Asked::new(front.as_slice(), zeros as usize, END);
    let fault = load_fault(alloc, &mut source, LIMITS, &START);
    assert_equal_at(rt, (fault, source.pulls), (None, pulls as usize), zeros);
    Ok(())
}

/// Loads a content of this many bytes, and then a hunk of 4 bytes with as many debug data, which asks for memory for a
/// row of 12 bytes a hunk and once for the declared bytes: `tests/growths/sizes` counts that.
///
/// Each pulls 24 bytes of the header, and 12, the least that a hunk has: the word, the count and a longword of the
/// content. The word of the DEBUG block is pulled as END would be, by 4, and its count with an END, by 8, which brings
/// a longword of its data. Then both have as many bytes to come as the content or the data have, END among them, which
/// are pulled by 256.
fn loads(rt: &impl Abort, alloc: Global, bytes: u32) -> Result<(), Fail> {
    let (longs, pieces) = (bytes / 4, bytes.div_ceil(256));
    let content = [0x3F3, 0, 1, 0, 0, longs, 0x3E9, longs];
    expect_pulls(
        rt,
        alloc,
        content.as_slice(),
        bytes,
        2u32.saturating_add(pieces),
    )?;
    let debug = [0x3F3, 0, 1, 0, 0, 1, 0x3E9, 1, 0, 0x3F1, longs];
    expect_pulls(
        rt,
        alloc,
        debug.as_slice(),
        bytes,
        4u32.saturating_add(pieces),
    )
}

#[test]
fn of_4_bytes(rt: HostRuntime) -> Result<(), Fail> {
    loads(&rt, rt.alloc(), 4)
}

#[test]
fn of_a_mib(rt: HostRuntime) -> Result<(), Fail> {
    loads(&rt, rt.alloc(), 1 << 20)
}

#[test]
fn of_16_mib(rt: HostRuntime) -> Result<(), Fail> {
    loads(&rt, rt.alloc(), 1 << 24)
}

/// Places hunks one after another, and counts how often it is asked for the hunk whose turn it is, and for others.
#[derive(Drop)]
struct InTurn {
    packed: Packed,
    in_turn: Cell<u32>,
    others: Cell<u32>,
}

impl Placer for InTurn {
    ghost base = { λ s. packed_from s.packed.start };

    fn base(&self, hunk: u32, row: &Row, before: u64) -> Option<u32> {
        let count = if hunk == self.in_turn.get() {
            &self.in_turn
        } else {
            &self.others
        };
        count.set(count.get().wrapping_add(1));
        self.packed.base(hunk, row, before)
    }
}

/// A placer that was not asked.
fn unasked() -> InTurn {
    InTurn {
        packed: START,
        in_turn: Cell::new(0),
        others: Cell::new(0),
    }
}

/// How often the placer was asked for the hunk whose turn it was, and for others.
fn counts(placer: &InTurn) -> (u32, u32) {
    (placer.in_turn.get(), placer.others.get())
}

/// The longwords of a header of this many hunks of 4 bytes.
fn header_of(alloc: Global, hunks: u32) -> Result<Vec<u32>, AllocError> {
    let mut longs = [0x3F3, 0, hunks, 0, hunks.saturating_sub(1)].to_vec(alloc)?;
    for _ in 0..hunks {
        longs.push(1)?;
    }
    Ok(longs)
}

/// How many hunks the image of the file has whose hunks are BSS blocks.
fn hunks_loaded(alloc: Global, hunks: u32, placer: &InTurn) -> Result<Option<u32>, AllocError> {
    let mut longs = header_of(alloc, hunks)?;
    for _ in 0..hunks {
        longs.extend_from_slice(&[0x3EB, 1, 0x3F2])?;
    }
    let bytes = bytes_of(alloc, longs.as_slice())?;
    let mut source = Asked::new(bytes.as_slice(), 0, &[]);
    let image = loaded(alloc, &mut source, LIMITS, placer).ok();
    Ok(image.map(|image| image.hunks()))
}

/// How many bytes a loader of the body holds after the header.
fn held_placed(alloc: Global, hunks: u32, placer: &InTurn) -> Result<Option<u64>, AllocError> {
    let bytes = bytes_of(alloc, header_of(alloc, hunks)?.as_slice())?;
    let (loader, _) = fed(alloc, bytes.as_slice(), LIMITS.budget);
    let Ok(table) = loader.declared() else {
        return Ok(None);
    };
    Ok(table.place(placer).ok().map(|loader| loader.held()))
}

/// The placer is asked once for each hunk, in rising order, and no number of hunks is too many.
#[test]
fn once_a_hunk_in_rising_order(rt: HostRuntime) -> Result<(), Fail> {
    for hunks in (1..=70u32).chain([65_536]) {
        let placer = unasked();
        let loaded = hunks_loaded(rt.alloc(), hunks, &placer)?;
        assert_equal(&rt, (loaded, counts(&placer)), (Some(hunks), (hunks, 0)));
        let placer = unasked();
        let held = held_placed(rt.alloc(), hunks, &placer)?;
        let want = Some(16 * hunks as u64);
        assert_equal(&rt, (held, counts(&placer)), (want, (hunks, 0)));
    }
    Ok(())
}
