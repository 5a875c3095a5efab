//! `validate` of input that comes by pieces.

use crate::tests::calls::{Call, expect_outcome, input_and_output, made, roomy};
use crate::tests::examples::CHECKED;
use hunk_commands::RunFault;
use hunk_files::{Part, Refusal};
use hunk_words::{Fault, Reason};
use std::alloc::Global;
use std::process::Abort;
use std::test::Fail;
use test_helpers::{Fed, Then, examples, spelled};

/// Sees what comes of the bytes by pieces of every size.
fn expect_by_pieces(
    rt: &impl Abort,
    alloc: Global,
    bytes: &[u8],
    fault: Option<RunFault>,
    output: &[u8],
) {
    for step in 1..bytes.len() + 2 {
        let mut source = Fed::new(bytes, step, Then::Ends);
        let got = made(alloc, Call::Validate, &mut source, roomy());
        expect_outcome(rt, &got, fault, output);
    }
}

#[test]
fn checks_in_any_pieces(rt: HostRuntime) -> Result<(), Fail> {
    for case in CHECKED {
        let (input, output) = input_and_output(rt.alloc(), case)?;
        expect_by_pieces(&rt, rt.alloc(), &input, None, &output);
    }
    Ok(())
}

/// Example 10, of which the seven bytes after the file are told.
#[test]
fn counts_what_follows_in_any_pieces(rt: HostRuntime) -> Result<(), Fail> {
    let mut bytes = spelled(rt.alloc(), examples::ONE_HUNK)?;
    bytes.extend_from_slice(&[0; 7])?;
    let output = b"load file 1 hunks 4 bytes\nrest 7 bytes\n";
    expect_by_pieces(&rt, rt.alloc(), &bytes, None, output);
    Ok(())
}

const UNIT_0: Part = Part::Unit {
    number: 0,
    hunk: Some(0),
};

const UNIT_0_HUNK_1: Part = Part::Unit {
    number: 0,
    hunk: Some(1),
};

const HUNK_0: Part = Part::Hunk { number: 0 };

/// What is no file, where and why it is refused, and in which part: examples 24, 41, 25 and 44. Which other files are
/// refused so is in `tests/program/cases/refused.tsv`.
const BAD: &[(&str, u64, Reason, Part)] = &[
    ("", 0, Reason::Truncated, Part::Header),
    (examples::WRONG_NAME_WORD, 28, Reason::NameWord, HUNK_0),
    (examples::MOST_OFFSETS, 48, Reason::Truncated, HUNK_0),
    (examples::ENTRY_CUT_SHORT, 24, Reason::Truncated, UNIT_0),
    (
        examples::UNIT_WITH_ADVISORY_FLAG,
        20,
        Reason::Misplaced,
        UNIT_0_HUNK_1,
    ),
];

#[test]
fn refuses_in_any_pieces(rt: HostRuntime) -> Result<(), Fail> {
    for (file, place, reason, part) in BAD {
        let bytes = spelled(rt.alloc(), file)?;
        let (place, reason, part) = (*place, *reason, *part);
        let fault = Fault { place, reason };
        let fault = RunFault::RefusedIn(Refusal { fault, part });
        expect_by_pieces(&rt, rt.alloc(), &bytes, Some(fault), &[]);
    }
    Ok(())
}
