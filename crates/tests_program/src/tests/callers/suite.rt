//! Bytes of the conformance suite while memory is refused.

use crate::tests::asserts::assert_equal;
use hunk_vectors::{bytes, object_bytes};
use std::alloc::{AllocError, Global};
use std::process::Abort;
use std::test::Fail;
use test_helpers::{answers_growth_by_growth, ends_within_debug, examples, memory_ends, spelled};

/// The fault of a call, or none where it answers other bytes than these; nothing where it answers these.
fn shortfall(got: Result<Vec<u8>, AllocError>, want: &[u8]) -> Option<Option<AllocError>> {
    match got {
        Ok(got) if got.as_slice() == want => None,
        Ok(_) => Some(None),
        Err(fault) => Some(Some(fault)),
    }
}

/// Sees that the call is refused memory until no growth is refused, and answers these bytes then.
fn expect_growths<F: Fn() -> Result<Vec<u8>, AllocError>>(
    rt: &impl Abort,
    alloc: Global,
    call: F,
    want: &[u8],
) -> Result<(), Fail>
    requires { F.IsAlwaysCallable call }
{
    let answers = answers_growth_by_growth(alloc, || shortfall(call(), want))?;
    let refused = Some(Some(AllocError));
    assert_equal(rt, answers.as_slice(), [refused, None].as_slice());
    Ok(())
}

/// The bytes of examples 2, 15 and 45.
#[test]
fn each_growth_is_refused(rt: HostRuntime) -> Result<(), Fail> {
    if !memory_ends(&rt)? {
        return Ok(());
    }
    let alloc = rt.alloc();
    let two_hunks = spelled(alloc, examples::TWO_HUNKS)?;
    expect_growths(&rt, alloc, || bytes(alloc, 1), two_hunks.as_slice())?;
    let debug = ends_within_debug(alloc)?;
    expect_growths(&rt, alloc, || bytes(alloc, 17), debug.as_slice())?;
    let object = spelled(alloc, examples::RELATIVE_OBJECT)?;
    expect_growths(&rt, alloc, || object_bytes(alloc, 15), object.as_slice())
}
