//! Single blocks while memory is refused: at the first growth, and each of a list in turn, at the first item and at
//! the fifth.

use crate::tests::asserts::{assert_equal, assert_equal_at};
use crate::tests::blocks::answers::{Case, answer, wanted};
use hunk_blocks::Mode;
use hunk_words::{BlockFault, Reason};
use std::alloc::{AllocError, Global};
use std::process::Abort;
use std::test::Fail;
use test_helpers::{all_memory, answers_growth_by_growth, memory_ends, spelled};

/// Five definitions, references and common symbols.
const ENTRIES: &str = "3EF / 1000001 5F610000 7 / 81000001 5F620000 2 0 4 / 82000000 8 1 0 / \
    1000000 9 / 81000000 1 0 / 0";

/// Five symbols.
const SYMBOLS: &str =
    "3F0 / 1 5F610000 1 / 1 5F620000 2 / 1000000 3 / 1000000 4 / 1 5F650000 5 / 0";

/// Five groups, the last of two offsets.
const GROUPS: &str = "3EC / 1 0 0 / 1 1 0 / 1 2 0 / 1 3 0 / 2 4 0 4 / 0";

/// Blocks, and the longwords that complete their first and their fifth item.
const BLOCKS: &[(&str, [u64; 2])] = &[(ENTRIES, [12, 68]), (SYMBOLS, [12, 52]), (GROUPS, [12, 64])];

fn refused_at(place: u64) -> Option<BlockFault> {
    Some(BlockFault {
        place,
        reason: Reason::OutOfMemory,
    })
}

/// Sees that memory is refused at these places in turn, and that the block is read then.
fn expect(rt: &impl Abort, alloc: Global, text: &str, places: [u64; 2]) -> Result<(), Fail> {
    let bytes = spelled(alloc, text)?;
    let answers = answers_growth_by_growth(alloc, || answer(alloc, &bytes, Mode::Object).err())?;
    let [first, fifth] = places;
    let want = [refused_at(first), refused_at(fifth), None];
    assert_equal(rt, answers.as_slice(), want.as_slice());
    Ok(())
}

#[test]
fn of_lists(rt: HostRuntime) -> Result<(), Fail> {
    if !memory_ends(&rt)? {
        return Ok(());
    }
    for (text, places) in BLOCKS {
        expect(&rt, rt.alloc(), text, *places)?;
    }
    Ok(())
}

/// What is answered for the block with the first growth refused.
fn starved(alloc: Global, text: &str, mode: Mode) -> Result<Result<usize, BlockFault>, AllocError> {
    let bytes = spelled(alloc, text)?;
    let pieces = all_memory(alloc)?;
    let result = answer(alloc, &bytes, mode);
    drop(pieces);
    Ok(result)
}

/// Sees that each block is answered in this mode as its row says, with the first growth refused.
fn expect_starved(rt: &impl Abort, alloc: Global, rows: &[Case], mode: Mode) -> Result<(), Fail> {
    for (text, number, reason) in rows {
        let got = starved(alloc, text, mode)?;
        assert_equal_at(rt, got, wanted(*number, *reason), text);
    }
    Ok(())
}

/// Only groups and entries of a whole block take memory, at their last longword, and no count does.
/// Memory hides no fault after.
const WITHOUT_MEMORY: &[Case] = &[
    ("3E8 1 61000000", 12, None),
    ("3E9 1 4E754E71", 12, None),
    ("3EA 1 4E754E71", 12, None),
    ("3EB 1", 8, None),
    ("3F1 1 7", 12, None),
    ("3F2", 4, None),
    ("200004D2 1 7", 12, None),
    ("3EC 0", 8, None),
    ("3EC 1 0 0 0", 12, Some(Reason::OutOfMemory)),
    ("3F0 1 5F6D0000 0 0", 12, Some(Reason::OutOfMemory)),
    ("3EF 81000000 1 4 0", 12, Some(Reason::OutOfMemory)),
    ("3EF 81000000 1 4 3000000", 16, Some(Reason::ExtKind)),
    ("3EC FFFFFFFF 0 1 2", 20, Some(Reason::Truncated)),
];

#[test]
fn refused_at_the_first_growth(rt: HostRuntime) -> Result<(), Fail> {
    if !memory_ends(&rt)? {
        return Ok(());
    }
    expect_starved(&rt, rt.alloc(), WITHOUT_MEMORY, Mode::Object)
}

/// Example 40: in a load file, too, a content takes no memory, and symbols do.
const IN_A_LOAD_FILE: &[Case] = &[
    ("3E9 1 4E754E71", 12, None),
    ("3F0 1 5F6D0000 0 0", 12, Some(Reason::OutOfMemory)),
];

#[test]
fn refused_in_a_load_file(rt: HostRuntime) -> Result<(), Fail> {
    if !memory_ends(&rt)? {
        return Ok(());
    }
    expect_starved(&rt, rt.alloc(), IN_A_LOAD_FILE, Mode::Load)
}
