//! The engine functions with each of their growths refused in turn.

use crate::tests::asserts::assert_equal_at;
use crate::tests::calls::{CASES, Call, Case, Outcome, input_and_output, made_of, roomy};
use hunk_commands::RunFault;
use std::alloc::Global;
use std::process::Abort;
use std::test::Fail;
use test_helpers::{answers_growth_by_growth, examples, memory_ends};

/// Whose five rows grow twice.
const VALIDATIONS: &[Case] = &[(
    Call::Validate,
    examples::FIVE_HUNKS,
    "load file 5 hunks 16 bytes\n",
)];

const RELOCATIONS: &[Case] = &[
    // Example 43.
    (
        Call::Relocate,
        examples::TWO_HUNKS,
        "hunk 0 base 0x00021000 8 bytes\n  4ef90002100c4e71\n\
            hunk 1 base 0x00021008 4 bytes\n  12345678\n",
    ),
    // The base 0002100C is added to the longwords at 0, 1, 2, 3 and 4 in turn.
    (
        Call::Relocate,
        examples::FIVE_HUNKS,
        "hunk 0 base 0x00021000 8 bytes\n  4efb121e1e226a7d\n\
            hunk 1 base 0x00021008 4 bytes\n  12345678\n\
            hunk 2 base 0x0002100c 0 bytes\nhunk 3 base 0x0002100c 0 bytes\n\
            hunk 4 base 0x0002100c 4 bytes\n  00000000\n",
    ),
];

/// Whether a call was done, and wrote this.
fn is_done(got: &Outcome, output: &[u8]) -> bool {
    got.fault.is_none() && got.narrow.taken() == output
}

/// The fault of a call and how many bytes it has written, or nothing where it has written all.
fn shortfall(
    alloc: Global,
    call: Call,
    input: &[u8],
    output: &[u8],
) -> Option<(Option<RunFault>, u64)> {
    let got = made_of(alloc, call, input, roomy());
    if is_done(&got, output) {
        None
    } else {
        Some((got.fault, got.written))
    }
}

/// Sees that each call answers `Memory` and writes nothing, and writes all of its output once no growth is refused.
fn expect_growths(rt: &impl Abort, alloc: Global, cases: &[Case]) -> Result<(), Fail> {
    for case in cases {
        let (call, file, _) = case;
        let (input, output) = input_and_output(alloc, case)?;
        let answers = answers_growth_by_growth(
            alloc,
            || shortfall(alloc, *call, input.as_slice(), output.as_slice()),
        )?;
        let want = [Some((Some(RunFault::Memory), 0)), None];
        assert_equal_at(rt, answers.as_slice(), want.as_slice(), (call, file));
    }
    Ok(())
}

#[test]
fn each_growth_is_refused(rt: HostRuntime) -> Result<(), Fail> {
    if !memory_ends(&rt)? {
        return Ok(());
    }
    for cases in [CASES, VALIDATIONS, RELOCATIONS] {
        expect_growths(&rt, rt.alloc(), cases)?;
    }
    Ok(())
}
