//! Each growth of `LoadFile::decode` refused in turn, with the place of the refusal.

use crate::tests::asserts::assert_equal;
use crate::tests::decoding::load_fault;
use crate::tests::memory::wanted;
use hunk_words::{FileFault, Reason};
use std::alloc::{AllocError, Global};
use std::test::Fail;
use test_helpers::{all_memory, answers_one_by_one, examples, memory_ends, spelled};

/// Five hunks, at 44, 112, 160, 184 and 204: the first with a NAME block and two groups of relocations, the second
/// with two symbols, the third with its DEBUG block first, the fourth with relocations of no group, the last of six
/// blocks.
const FIVE: &str = "3F3 0 5 0 4 2 C0000001 10004 0 1 1 / \
    3E8 1 2E740000 / 3E9 2 4EF90000 44E71 / 3EC 2 4 0 2 1 0 4 0 / 3F2 / \
    3EA 1 12345678 / 3F0 1 5F6D0000 0 1 5F6E0000 4 0 / 3F2 / \
    3F1 1 3F2 / 3EB 0 / 3F2 / 3EB 1 / 3EC 0 / 3F2 / \
    3EB 1 / 3F1 0 / 3F1 0 / 3F1 0 / 3F1 0 / 3F2";

/// Each hunk's blocks at the last longword of the first, and the last hunk's again at that of the fifth; groups and
/// symbols at the last longword of the first; and the hunks at the first END and again at the fifth.
const OF_FIVE: &[u64] = &[52, 88, 108, 120, 136, 168, 188, 208, 240, 244];

/// A list that grows gives back the memory that it had, so each growth has a piece of its own here.
#[test]
fn of_five_hunks(rt: HostRuntime) -> Result<(), Fail> {
    if !memory_ends(&rt)? {
        return Ok(());
    }
    let alloc = rt.alloc();
    let bytes = spelled(alloc, FIVE)?;
    let answers = answers_one_by_one(alloc, || load_fault(alloc, &bytes))?;
    assert_equal(&rt, answers, wanted(alloc, OF_FIVE)?);
    Ok(())
}

/// What is answered for the file with the next growth refused.
fn starved(alloc: Global, text: &str) -> Result<Option<FileFault>, AllocError> {
    let bytes = spelled(alloc, text)?;
    let pieces = all_memory(alloc)?;
    let fault = load_fault(alloc, &bytes);
    drop(pieces);
    Ok(fault)
}

/// Nothing is reserved by the number of hunks.
#[test]
fn none_for_a_header(rt: HostRuntime) -> Result<(), Fail> {
    if !memory_ends(&rt)? {
        return Ok(());
    }
    let (place, reason) = (20, Reason::Truncated);
    let fault = starved(rt.alloc(), examples::MOST_HUNKS)?;
    assert_equal(&rt, fault, Some(FileFault { place, reason }));
    Ok(())
}
