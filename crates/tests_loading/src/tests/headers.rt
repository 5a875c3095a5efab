//! Headers, tables, placing and bodies by themselves.

use crate::tests::asserts::{assert_equal, assert_equal_at};
use crate::tests::{START, cut_at};
use hunk_files::Row;
use hunk_scatter::{BodyLoader, Declared, HeaderLoader, Listed, Packed, Unplaced};
use hunk_words::{LoadFault, Memory, Reason};
use std::alloc::Global;
use std::process::Abort;
use std::test::Fail;
use test_helpers::examples::{
    ENDING_IN_ZEROS, LARGEST_HUNK, NO_HUNKS, ONE_HUNK, TOO_MANY_HUNKS, TWO_HUNKS, WITH_ATTRIBUTES,
    WRONG_LAST_HUNK,
};
use test_helpers::{ends_within_debug, spelled};

/// The bytes of example 1's header.
const HEADER: usize = 24;

/// A loader that was fed a header, and what it answered.
fn fed(alloc: Global, header: &[u8], budget: u64) -> (HeaderLoader, Result<usize, LoadFault>) {
    let mut loader = HeaderLoader::new(alloc, budget);
    let answer = loader.feed(header);
    (loader, answer)
}

/// Why a header is refused, if it is, or the bytes that its hunks declare.
fn answer(alloc: Global, text: &str, budget: u64) -> Result<Result<u64, LoadFault>, Fail> {
    let bytes = spelled(alloc, text)?;
    let (loader, answer) = fed(alloc, bytes.as_slice(), budget);
    if let Err(fault) = answer {
        return Ok(Err(fault));
    }
    match loader.declared() {
        Ok(declared) => Ok(Ok(declared.total())),
        Err(_) => Ok(Err(LoadFault {
            place: 0,
            reason: Reason::Truncated,
        })),
    }
}

/// The table of the header that the text begins with, of this many bytes.
fn declared(rt: &impl Abort, alloc: Global, text: &str, header: usize) -> Result<Declared, Fail> {
    let bytes = spelled(alloc, text)?;
    let (loader, answer) = fed(alloc, bytes.as_slice(), 1_000);
    assert_equal(rt, answer, Ok(header));
    match loader.declared() {
        Ok(declared) => Ok(declared),
        Err(_) => panic!(rt; "no table"),
    }
}

/// Examples 7, 16 and 17: the bytes that are declared, or the place and the reason.
const ANSWERS: &[(&str, u64, Result<u64, (u64, Reason)>)] = &[
    (ENDING_IN_ZEROS, 19, Err((24, Reason::Budget))),
    (ENDING_IN_ZEROS, 20, Ok(20)),
    (WRONG_LAST_HUNK, 1_000, Err((16, Reason::LastHunk))),
    (NO_HUNKS, 1_000, Err((8, Reason::NoHunks))),
    (TOO_MANY_HUNKS, 1_000, Err((8, Reason::TooManyHunks))),
    (LARGEST_HUNK, 4_294_967_291, Err((20, Reason::Budget))),
    (LARGEST_HUNK, 4_294_967_292, Ok(4_294_967_292)),
    ("3F3 0 1 0 0 1 / 3FA", 1_000, Ok(4)),
];

#[test]
fn answers(rt: HostRuntime) -> Result<(), Fail> {
    for (text, budget, want) in ANSWERS {
        let got = match answer(rt.alloc(), text, *budget)? {
            Ok(bytes) => Ok(bytes),
            Err(fault) => Err((fault.place, fault.reason)),
        };
        assert_equal_at(&rt, got, *want, text);
    }
    Ok(())
}

fn expect_row(rt: &impl Abort, declared: &Declared, i: u32, memory: Memory, bytes: u64) {
    assert!(rt; i < declared.hunks());
    let row = declared.row(i);
    assert_equal(rt, row.size().memory(), memory);
    assert_equal(rt, row.size().bytes(), bytes);
    assert_equal(rt, row.base, 0);
}

/// The table of example 8.
#[test]
fn tables(rt: HostRuntime) -> Result<(), Fail> {
    let declared = declared(&rt, rt.alloc(), WITH_ATTRIBUTES, 32)?;
    assert_equal(&rt, declared.hunks(), 2);
    assert_equal(&rt, declared.held(), 24);
    expect_row(&rt, &declared, 0, Memory::Attributes(0x10004), 8);
    expect_row(&rt, &declared, 1, Memory::Any, 4);
    Ok(())
}

/// Sees that the table of `TWO_HUNKS` came back for this reason, as it was.
fn came_back(rt: &impl Abort, unplaced: Option<&Unplaced>, reason: Reason) {
    let Some(unplaced) = unplaced else {
        panic!(rt; "placed");
    };
    assert_equal(rt, unplaced.reason, reason);
    assert_equal(rt, unplaced.declared.hunks(), 2);
    assert_equal(rt, unplaced.declared.total(), 12);
    for i in 0..unplaced.declared.hunks() {
        let Row { word, extra, base } = unplaced.declared.row(i);
        assert_equal(rt, (word, extra, base), (if i == 0 { 2 } else { 1 }, 0, 0));
    }
}

/// Example 20: the table comes back as it was, and can be placed elsewhere.
#[test]
fn placing(rt: HostRuntime) -> Result<(), Fail> {
    let declared = declared(&rt, rt.alloc(), TWO_HUNKS, 28)?;
    let unplaced = declared.place(&Listed([0x10000].as_slice())).err();
    came_back(&rt, unplaced.as_ref(), Reason::NoBase(1));
    let again = unplaced.map(|unplaced| unplaced.declared);
    let loader = again.and_then(|declared| declared.place(&Packed { start: 0x10000 }).ok());
    assert_equal(&rt, loader.map(|loader| loader.held()), Some(36));
    Ok(())
}

/// Example 20: it is displayed as the load is refused, at the end of the header.
#[test]
fn unplaced_text(rt: HostRuntime) -> Result<(), Fail> {
    let declared = declared(&rt, rt.alloc(), TWO_HUNKS, 28)?;
    let Err(unplaced) = declared.place(&Listed([0x10000].as_slice())) else {
        panic!(rt; "placed");
    };
    let text = format!(in rt.alloc(); "{unplaced}")?;
    assert_equal(&rt, text.as_str(), "refused at byte 28: NoBase (29) hunk 1");
    Ok(())
}

/// Loaders are shown by their counts.
#[test]
fn debug_texts(rt: HostRuntime) -> Result<(), Fail> {
    let header = HeaderLoader::new(rt.alloc(), 1000);
    let text = format!(in rt.alloc(); "{header:?}")?;
    assert_equal(&rt, text.as_str(), "HeaderLoader { held: 0, want: 24, .. }");
    let loader = body(&rt, rt.alloc())?;
    let text = format!(in rt.alloc(); "{loader:?}")?;
    assert_equal(
        &rt,
        text.as_str(),
        "BodyLoader { hunks: 1, fed: 24, refused: None, .. }",
    );
    Ok(())
}

/// A loader of the body after the header of example 1.
fn body(rt: &impl Abort, alloc: Global) -> Result<BodyLoader, Fail> {
    let declared = declared(rt, alloc, ONE_HUNK, HEADER)?;
    match declared.place(&START) {
        Ok(loader) => Ok(loader),
        Err(unplaced) => panic!(rt; "{:?}", unplaced.reason),
    }
}

/// Example 31: what is held before the body.
#[test]
fn held(rt: HostRuntime) -> Result<(), Fail> {
    let loader = body(&rt, rt.alloc())?;
    assert_equal(&rt, loader.held(), 16);
    assert_equal(&rt, loader.fed(), 24);
    assert!(rt; loader.want() > 0);
    assert!(rt; loader.finish().is_err());
    Ok(())
}

/// Feeds a piece, all of which is taken, and tells how many bytes are wanted then.
fn want_after(rt: &impl Abort, loader: &mut BodyLoader, piece: &[u8]) -> usize {
    assert_equal(rt, loader.feed(piece), Ok(piece.len()));
    loader.want()
}

/// Example 39: no more than 256 bytes are wanted, and near the end no more than are to come.
#[test]
fn wants_at_most_a_buffer(rt: HostRuntime) -> Result<(), Fail> {
    let bytes = ends_within_debug(rt.alloc())?;
    let (_, after) = cut_at(bytes.as_slice(), HEADER);
    let (front, data) = cut_at(after, 20);
    let (piece, _) = cut_at(data, 256);
    let mut loader = body(&rt, rt.alloc())?;
    assert_equal(&rt, want_after(&rt, &mut loader, front), 256);
    assert_equal(&rt, (loader.fed(), piece.len()), (44, 256));
    let want = want_after(&rt, &mut loader, piece);
    assert!(rt; want >= 44 && want <= 48);
    Ok(())
}
