//! Sources that fail at each read in turn, and then would go on.

use crate::tests::asserts::assert_equal;
use crate::tests::calls::{CASES, Call, Outcome, expect_outcome, input_and_output, made, roomy};
use hunk_commands::RunFault;
use hunk_words::FromRead;
use std::alloc::Global;
use std::process::Abort;
use std::test::Fail;
use test_helpers::{FailsOnce, Interrupted};

/// Sees that the call failed reading after this many bytes, and wrote nothing.
fn expect_unread(rt: &impl Abort, got: &Outcome, place: usize) {
    let fault = RunFault::Read {
        place: place as u64,
    };
    expect_outcome(rt, got, Some(fault), &[]);
}

/// The input comes one byte a read, and one read fails: after this many bytes, and at the input's end.
fn one_read_fails(
    rt: &impl Abort,
    alloc: Global,
    call: Call,
    input: &[u8],
    output: &[u8],
) -> Result<(), Fail> {
    for place in 0..input.len() + 2 {
        let mut source = FailsOnce::new(input, place);
        let got = made(alloc, call, &mut source, roomy());
        // `relocate` knows where a load file ends, and reads no further.
        let reads = if call == Call::Relocate {
            input.len()
        } else {
            input.len() + 1
        };
        if place < reads {
            expect_unread(rt, &got, place);
            assert_equal(rt, source.given(), place);
        } else {
            expect_outcome(rt, &got, None, output);
        }
    }
    Ok(())
}

#[test]
fn each_read_fails(rt: HostRuntime) -> Result<(), Fail> {
    for case in CASES {
        let (input, output) = input_and_output(rt.alloc(), case)?;
        one_read_fails(&rt, rt.alloc(), case.0, input.as_slice(), output.as_slice())?;
    }
    Ok(())
}

/// A read that is interrupted is one that failed, though the next would go on.
#[test]
fn a_read_is_interrupted(rt: HostRuntime) -> Result<(), Fail> {
    for case in CASES {
        let (input, _) = input_and_output(rt.alloc(), case)?;
        for place in [0, 1, 30] {
            let mut source = FromRead::new(Interrupted::new(input.as_slice(), place));
            let got = made(rt.alloc(), case.0, &mut source, roomy());
            expect_unread(&rt, &got, place);
        }
    }
    Ok(())
}
