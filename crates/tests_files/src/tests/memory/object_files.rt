//! Each growth of `ObjectFile::decode` refused in turn, with the place of the refusal.

use crate::tests::asserts::assert_equal;
use crate::tests::decoding::object_fault;
use crate::tests::memory::wanted;
use std::alloc::Global;
use std::process::Abort;
use std::test::Fail;
use test_helpers::{answers_one_by_one, examples, memory_ends, spelled};

/// A list that grows gives back the memory that it had, so each growth has a piece of its own here.
fn expect(rt: &impl Abort, alloc: Global, text: &str, places: &[u64]) -> Result<(), Fail> {
    let bytes = spelled(alloc, text)?;
    let answers = answers_one_by_one(alloc, || object_fault(alloc, &bytes))?;
    assert_equal(rt, answers, wanted(alloc, places)?);
    Ok(())
}

/// Where memory is asked for in `FIVE_UNITS`, each list for four items at its first, and for more at its fifth: at the
/// last longword of what is kept.
///
/// In the first unit for the first hunk's blocks at the content, for groups at the offset, for entries at the first
/// one's, and for hunks at END; for the second hunk's blocks, and for symbols at the value; and for units at its END.
/// In the second for blocks and hunks. In the fourth for the first hunk's blocks, and for hunks at its END; for the
/// blocks of the other four; for groups at the first one's offset and at the second offset of the fifth; for blocks
/// at the count of the fifth, and for hunks at the END of the fifth. And for units at the count of the fifth.
const OF_FIVE_UNITS: &[u64] = &[
    24, 40, 64, 84, 92, 108, 116, 132, 136, 164, 168, 176, 188, 204, 220, 244, 296, 316, 320, 328,
];

#[test]
fn of_five_units(rt: HostRuntime) -> Result<(), Fail> {
    if !memory_ends(&rt)? {
        return Ok(());
    }
    expect(&rt, rt.alloc(), examples::FIVE_UNITS, OF_FIVE_UNITS)
}

/// Where memory is asked for in `FIVE_SYMBOLS`: for units at the count of the first; for each hunk's blocks at its
/// first, and for hunks at the END of the first; for symbols at the value of the first and of the fifth; and for
/// entries at the value of the first and the offset of the fifth.
const OF_FIVE_SYMBOLS: &[u64] = &[4, 20, 24, 40, 56, 100, 120, 176];

/// What precedes the symbols has asked for its memory, so none of it takes what their list gives back.
#[test]
fn of_five_symbols(rt: HostRuntime) -> Result<(), Fail> {
    if !memory_ends(&rt)? {
        return Ok(());
    }
    expect(&rt, rt.alloc(), examples::FIVE_SYMBOLS, OF_FIVE_SYMBOLS)
}
