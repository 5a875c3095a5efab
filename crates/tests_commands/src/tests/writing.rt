//! Writers that take this many bytes, and then fail or take none.

use crate::tests::calls::{CASES, Call, expect_outcome, input_and_output, made_of};
use hunk_commands::RunFault;
use std::alloc::Global;
use std::process::Abort;
use std::test::Fail;
use test_helpers::Narrow;

/// Sees that just the first `room` bytes of the output go to a writer that takes no more, and at most
/// `step` at a time.
fn expect_cut(
    rt: &impl Abort,
    alloc: Global,
    call: Call,
    (input, output): (&[u8], &[u8]),
    narrow: Narrow,
    room: usize,
) {
    let got = made_of(alloc, call, input, narrow);
    let written = room as u64;
    assert!(rt; room <= output.len());
    expect_outcome(rt, &got, Some(RunFault::Write { written }), &output[..room]);
}

#[test]
fn each_write_fails(rt: HostRuntime) -> Result<(), Fail> {
    for case in CASES {
        let (input, output) = input_and_output(rt.alloc(), case)?;
        for room in 0..output.len() {
            for takes_none in [false, true] {
                let both = (input.as_slice(), output.as_slice());
                let narrow = Narrow::new(room, 7, takes_none);
                expect_cut(&rt, rt.alloc(), case.0, both, narrow, room);
            }
        }
    }
    Ok(())
}
