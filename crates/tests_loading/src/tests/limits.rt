//! What a load reads and holds at most.

use crate::tests::asserts::assert_equal;
use crate::tests::loads::{Want, comes};
use crate::tests::{AMPLE, START, cut_at, load_fault};
use hunk_scatter::{Limits, Listed};
use hunk_words::{LoadFault, Reason};
use std::alloc::Global;
use std::process::Abort;
use std::test::Fail;
use test_helpers::examples::{ENDING_IN_ZEROS, ONE_HUNK, TWO_HUNKS};
use test_helpers::{FailsOnce, Fed, Then, spelled};

/// Examples 7 and 22: the budget and the number of bytes that may be read, and what comes.
const LIMITED: &[(&str, u64, u64, Want<'static>)] = &[
    (ENDING_IN_ZEROS, 19, 100_000, Err((24, Reason::Budget))),
    (
        ENDING_IN_ZEROS,
        20,
        100_000,
        Ok(("4E754E71 0 0 0 0", &[0x21000, 0x21008])),
    ),
    (ONE_HUNK, 4, 39, Err((39, Reason::FileLimit))),
    (ONE_HUNK, 4, 40, Ok(("4E754E71", &[0x21000]))),
    (ONE_HUNK, 4, 0, Err((0, Reason::FileLimit))),
];

#[test]
fn limits(rt: HostRuntime) -> Result<(), Fail> {
    for (text, budget, file_bytes, want) in LIMITED {
        let limits = Limits {
            budget: *budget,
            file_bytes: *file_bytes,
        };
        comes(&rt, rt.alloc(), text, limits, &START, want)?;
    }
    Ok(())
}

/// Where no byte may be read, no read is made.
#[test]
fn no_read(rt: HostRuntime) -> Result<(), Fail> {
    let bytes = spelled(rt.alloc(), ONE_HUNK)?;
    let mut source = Fed::new(bytes.as_slice(), 256, Then::Ends);
    let none = Limits {
        budget: 4,
        file_bytes: 0,
    };
    let fault = load_fault(rt.alloc(), &mut source, none, &START);
    assert!(rt; fault.is_some());
    assert_equal(&rt, source.reads(), 0);
    Ok(())
}

/// Example 20: where a hunk has no base, the body is not read.
#[test]
fn no_base(rt: HostRuntime) -> Result<(), Fail> {
    let bytes = spelled(rt.alloc(), TWO_HUNKS)?;
    let mut source = Fed::new(bytes.as_slice(), 256, Then::Ends);
    let one = Listed([0x10000].as_slice());
    let fault = load_fault(rt.alloc(), &mut source, AMPLE, &one);
    assert!(rt; fault.is_some());
    assert_equal(&rt, source.rest().len(), 56);
    Ok(())
}

/// Examples 21 and 31: how many bytes of example 1 come, what comes then, how many may be read, the fault, and
/// how many reads lead to it where 1, 3 and 256 bytes of the example come a read at most.
///
/// After the example's content a longword is read, and then two a read: the count of a DEBUG block, and what
/// comes at least after it.
const STOPS: &[(usize, Then, u64, u64, Reason, [u64; 3])] = &[
    (30, Then::Fails, 100_000, 30, Reason::Read, [31, 11, 3]),
    (0, Then::Fails, 100_000, 0, Reason::Read, [1, 1, 1]),
    (
        36,
        Then::Repeats,
        1_000,
        1_000,
        Reason::FileLimit,
        [157, 133, 123],
    ),
];

/// Sees that the load stops with this fault, after this many reads.
fn expect_stop(
    rt: &impl Abort,
    alloc: Global,
    source: &mut Fed,
    file_bytes: u64,
    fault: LoadFault,
    reads: u64,
) {
    let limits = Limits {
        budget: 1_000,
        file_bytes,
    };
    let got = load_fault(alloc, source, limits, &START);
    assert_equal(rt, (got, source.reads()), (Some(fault), reads));
}

/// A reader that fails, and one without end.
#[test]
fn stops(rt: HostRuntime) -> Result<(), Fail> {
    let one = spelled(rt.alloc(), ONE_HUNK)?;
    for (given, then, file_bytes, place, reason, reads) in STOPS {
        let fault = LoadFault {
            place: *place,
            reason: *reason,
        };
        let (front, _) = cut_at(one.as_slice(), *given);
        for (most, reads) in [1, 3, 256].iter().zip(reads) {
            let mut source = Fed::new(front, *most, *then);
            expect_stop(&rt, rt.alloc(), &mut source, *file_bytes, fault, *reads);
        }
    }
    Ok(())
}

/// The fault of a load whose read fails after this many bytes.
fn failed_at(given: usize) -> Option<LoadFault> {
    Some(LoadFault {
        place: given as u64,
        reason: Reason::Read,
    })
}

/// Example 1, whose 40 bytes come one a read: a read that fails ends the load, though the next would go on.
#[test]
fn reads_nothing_again(rt: HostRuntime) -> Result<(), Fail> {
    let one = spelled(rt.alloc(), ONE_HUNK)?;
    for fails_at in 0..41 {
        let mut source = FailsOnce::new(one.as_slice(), fails_at);
        let fault = load_fault(rt.alloc(), &mut source, AMPLE, &START);
        assert_equal(&rt, source.given(), fails_at);
        if fails_at == 40 {
            assert!(rt; fault.is_none() && !source.has_failed());
        } else {
            assert_equal(&rt, fault, failed_at(fails_at));
        }
    }
    Ok(())
}
