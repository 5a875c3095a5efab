//! Loads while growths are refused.
ghost use Rattle.std.specs.Prelude.{slice_get};

use crate::tests::asserts::{assert_equal, assert_equal_at};
use crate::tests::{AMPLE, fed, load_fault, loaded};
use hunk_files::Row;
use hunk_scatter::{BodyLoader, Limits, Listed, Packed, Placer, Unplaced};
use hunk_words::{LoadFault, Reason};
use std::alloc::{AllocError, Global};
use std::cell::Cell;
use std::process::Abort;
use std::test::Fail;
use test_helpers::examples::{MOST_HUNKS, TWO_HUNKS};
use test_helpers::{Fed, Then, all_but, all_memory, before_end, memory_ends, spelled};

/// The bytes of the first growth of a table's rows: room for four of them.
const ROWS: usize = 48;

/// Whether a growth of this many bytes is refused now.
fn is_refused(alloc: Global, bytes: usize) -> bool {
    Vec::<u8>::with_capacity(alloc, bytes).is_err()
}

/// The bases of example 43.
const BASES: Listed<'static> = Listed(&[0x10000, 0x20000]);

/// Places hunks at bases in turn, and takes all memory as it places the second: the store is refused then.
#[derive(Drop)]
struct TakesAll<'a> {
    alloc: Global,
    bases: Listed<'a>,
    pieces: Cell<Vec<Vec<u8>>>,
}

impl Placer for TakesAll<'_> {
    ghost base = { λ s hunk row before. slice_get s.bases.0.now hunk };

    fn base(&self, hunk: u32, row: &Row, before: u64) -> Option<u32> {
        if hunk == 1
            && let Ok(pieces) = all_memory(self.alloc)
        {
            self.pieces.set(pieces);
        }
        self.bases.base(hunk, row, before)
    }
}

/// Example 43: the first growth of a load is that for its rows, at 20.
#[test]
fn refused_first_growth(rt: HostRuntime) -> Result<(), Fail> {
    if !memory_ends(&rt)? {
        return Ok(());
    }
    let bytes = spelled(rt.alloc(), TWO_HUNKS)?;
    let mut source = Fed::new(&bytes, 256, Then::Ends);
    let pieces = all_memory(rt.alloc())?;
    let fault = load_fault(rt.alloc(), &mut source, AMPLE, &BASES);
    drop(pieces);
    let reason = Reason::OutOfMemory;
    assert_equal(&rt, fault, Some(LoadFault { place: 20, reason }));
    Ok(())
}

/// Example 43: its last growth is that for its store, at 28.
#[test]
fn refused_last_growth(rt: HostRuntime) -> Result<(), Fail> {
    if !memory_ends(&rt)? {
        return Ok(());
    }
    let bytes = spelled(rt.alloc(), TWO_HUNKS)?;
    let placer = TakesAll {
        alloc: rt.alloc(),
        bases: BASES,
        pieces: Cell::new(Vec::new(rt.alloc())),
    };
    let mut source = Fed::new(&bytes, 256, Then::Ends);
    let fault = load_fault(rt.alloc(), &mut source, AMPLE, &placer);
    drop(placer);
    let reason = Reason::OutOfMemory;
    assert_equal(&rt, fault, Some(LoadFault { place: 28, reason }));
    Ok(())
}

/// The reason, and the bases of the table that comes back.
type CameBack = (Option<Reason>, Vec<u32>);

/// They, where a placing is refused.
fn came_back(alloc: Global, placed: Result<BodyLoader, Unplaced>) -> Result<CameBack, AllocError> {
    let mut bases = Vec::new(alloc);
    let Err(unplaced) = placed else {
        return Ok((None, bases));
    };
    for i in 0..unplaced.declared.hunks() {
        bases.push(unplaced.declared.row(i).base)?;
    }
    Ok((Some(unplaced.reason), bases))
}

/// Example 43: a table with its hunks placed, where the store's growth is refused, comes back with every base 0.
#[test]
fn refused_store(rt: HostRuntime) -> Result<(), Fail> {
    if !memory_ends(&rt)? {
        return Ok(());
    }
    let bytes = spelled(rt.alloc(), TWO_HUNKS)?;
    let (loader, _) = fed(rt.alloc(), bytes.as_slice(), 1_000);
    let Ok(declared) = loader.declared() else {
        panic!(&rt; "no table");
    };
    let pieces = all_memory(rt.alloc())?;
    let placed = declared.place(&BASES);
    drop(pieces);
    let (reason, bases) = came_back(rt.alloc(), placed)?;
    assert_equal(&rt, reason, Some(Reason::OutOfMemory));
    assert_equal(&rt, bases.as_slice(), [0, 0].as_slice());
    Ok(())
}

/// What a loader answers for a header while there is memory for these rooms alone, and how many bytes it holds then.
fn held_in(
    alloc: Global,
    header: &[u8],
    rooms: &[usize],
) -> Result<(Result<usize, LoadFault>, u64), AllocError> {
    let memory = all_but(alloc, rooms)?;
    let (loader, answer) = fed(alloc, header, 1_000);
    drop(memory);
    Ok((answer, loader.held()))
}

/// Sees that a loader takes all of the bytes while there is memory for these rooms alone, and what it holds then.
fn expect_held(
    rt: &impl Abort,
    alloc: Global,
    text: &str,
    rooms: &[usize],
    bytes_held: u64,
) -> Result<(), Fail> {
    let bytes = spelled(alloc, text)?;
    let held = held_in(alloc, bytes.as_slice(), rooms)?;
    assert_equal_at(rt, held, (Ok(bytes.len()), bytes_held), text);
    Ok(())
}

/// reserves-by-table-size: nothing is reserved by the number of hunks, neither after it nor at the first row.
#[test]
fn no_reserve(rt: HostRuntime) -> Result<(), Fail> {
    if !memory_ends(&rt)? {
        return Ok(());
    }
    expect_held(&rt, rt.alloc(), MOST_HUNKS, &[], 0)?;
    expect_held(&rt, rt.alloc(), "3F3 0 10000 0 FFFF 1", &[ROWS], 12)
}

/// Example 1 with a DEBUG block of 262,144 zero longwords before its END.
fn ending_in_zeros(alloc: Global) -> Result<Vec<u8>, AllocError> {
    let mut longs = [0x3F1, 0x40000].to_vec(alloc)?;
    longs.resize(0x40002, 0)?;
    before_end(alloc, &longs)
}

/// The bytes of the image of the file, and whether a further growth is refused beside it.
fn loads_file(alloc: Global, source: &mut Fed<'_>) -> (Result<u64, LoadFault>, bool) {
    let limits = Limits {
        budget: 1_000,
        file_bytes: 2_000_000,
    };
    match loaded(alloc, source, limits, &Packed { start: 0x21000 }) {
        Ok(image) => (Ok(image.bytes()), is_refused(alloc, ROWS)),
        Err(fault) => (Err(fault), false),
    }
}

/// The same while there is no memory but a room for the rows and one for the store.
fn loads_in_two_rooms(
    alloc: Global,
    source: &mut Fed<'_>,
) -> Result<(Result<u64, LoadFault>, bool), AllocError> {
    let held = all_but(alloc, &[ROWS, 4])?;
    let answer = loads_file(alloc, source);
    drop(held);
    Ok(answer)
}

/// late-patches, with all its memory taken before the body: a load asks for the rows and the store
/// alone. A file of a MiB is loaded while a third growth is refused.
#[test]
fn two_growths(rt: HostRuntime) -> Result<(), Fail> {
    if !memory_ends(&rt)? {
        return Ok(());
    }
    let bytes = ending_in_zeros(rt.alloc())?;
    let mut source = Fed::new(&bytes, 256, Then::Fails);
    let answer = loads_in_two_rooms(rt.alloc(), &mut source)?;
    assert_equal(&rt, answer, (Ok(4), true));
    assert_equal(&rt, source.given(), 1_048_624);
    Ok(())
}
