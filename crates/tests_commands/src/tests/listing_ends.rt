//! The commands over input that is longer than they may read.

use crate::tests::asserts::{assert_equal, assert_equal_at};
use crate::tests::calls::{Call, LIMIT, Outcome, expect_outcome, made_within, roomy};
use hunk_commands::RunFault;
use hunk_words::{Fault, Reason};
use std::alloc::{AllocError, Global};
use std::process::Abort;
use std::test::Fail;
use test_helpers::{Fed, Then, before_end, examples, spelled};

/// Those that look for the end of the input, and those that end with the file.
const WHOLE: &[Call] = &[Call::Show, Call::Validate, Call::Rewrite, Call::Strip];

const LOADING: &[Call] = &[Call::Relocate];

/// How many bytes may be read: few, and more than a command reads at once.
const FILE_BYTES: &[u64] = &[1_000, LIMIT];

/// Sees that the call was refused where this many bytes had been read, and wrote nothing.
fn expect_limit(rt: &impl Abort, got: &Outcome, file_bytes: u64, given: usize) {
    let fault = RunFault::Refused(Fault {
        place: file_bytes,
        reason: Reason::FileLimit,
    });
    expect_outcome(rt, got, Some(fault), &[]);
    assert_equal(rt, given as u64, file_bytes);
}

/// Sees that each call reads as much as it may, and no more, of what the source gives.
fn each_is_limited(
    rt: &impl Abort,
    alloc: Global,
    calls: &[Call],
    source: (&[u8], Then),
    most: u64,
) {
    let (bytes, then) = source;
    for call in calls {
        let mut fed = Fed::new(bytes, usize::MAX, then);
        let got = made_within(alloc, *call, &mut fed, roomy(), most);
        expect_limit(rt, &got, most, fed.given());
    }
}

/// Example 1 without its END, after which empty DEBUG blocks come without end.
#[test]
fn input_without_end(rt: HostRuntime) -> Result<(), Fail> {
    let front = spelled(rt.alloc(), examples::BEFORE_ITS_END)?;
    for most in FILE_BYTES {
        each_is_limited(&rt, rt.alloc(), WHOLE, (&front, Then::Repeats), *most);
        each_is_limited(&rt, rt.alloc(), LOADING, (&front, Then::Repeats), *most);
    }
    Ok(())
}

/// Example 1 with a DEBUG block of this many longwords before its END: 48 bytes and these.
fn with_debug_data(alloc: Global, longs: u32) -> Result<Vec<u8>, AllocError> {
    let mut after = [0x3F1, longs].to_vec(alloc)?;
    after.resize(2 + longs as usize, 0)?;
    before_end(alloc, &after)
}

/// The fault of a call on these bytes, where 1,000 may be read, and how many it reads.
fn fault_and_given(alloc: Global, call: Call, bytes: &[u8]) -> (Option<RunFault>, usize) {
    let mut fed = Fed::new(bytes, usize::MAX, Then::Ends);
    let got = made_within(alloc, call, &mut fed, roomy(), 1_000);
    (got.fault, fed.given())
}

/// Sees that each call is done with these bytes, where 1,000 may be read.
fn each_is_done(rt: &impl Abort, alloc: Global, calls: &[Call], bytes: &[u8]) {
    for call in calls {
        let got = fault_and_given(alloc, *call, bytes);
        assert_equal_at(rt, got, (None, bytes.len()), call);
    }
}

/// Files of 1,004, of 1,000 and of 996 bytes. After the last byte that may be read no end is looked for.
#[test]
fn files_of_about_the_limit(rt: HostRuntime) -> Result<(), Fail> {
    let alloc = rt.alloc();
    let (longer, as_long) = (with_debug_data(alloc, 239)?, with_debug_data(alloc, 238)?);
    let shorter = with_debug_data(alloc, 237)?;
    assert_equal(
        &rt,
        (longer.len(), as_long.len(), shorter.len()),
        (1_004, 1_000, 996),
    );
    each_is_limited(&rt, alloc, WHOLE, (&longer, Then::Ends), 1_000);
    each_is_limited(&rt, alloc, LOADING, (&longer, Then::Ends), 1_000);
    each_is_limited(&rt, alloc, WHOLE, (&as_long, Then::Ends), 1_000);
    each_is_done(&rt, alloc, LOADING, &as_long);
    each_is_done(&rt, alloc, WHOLE, &shorter);
    each_is_done(&rt, alloc, LOADING, &shorter);
    Ok(())
}
