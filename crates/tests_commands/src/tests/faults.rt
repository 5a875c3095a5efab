//! The lines and statuses of faults.
use crate::tests::asserts::{assert_equal, assert_equal_at};
use hunk_commands::RunFault;
use hunk_files::{Part, Refusal};
use hunk_words::{Fault, Reason};
use std::alloc::{AllocError, Global};
use std::process::Abort;
use std::test::Fail;

const AT_28: Fault = Fault {
    place: 28,
    reason: Reason::NameWord,
};

const AT_THE_END: Fault = Fault {
    place: 18_446_744_073_709_551_615,
    reason: Reason::NoBase(65_535),
};

/// Faults, their lines and their statuses.
const FAULTS: &[(RunFault, &str, u8)] = &[
    (
        RunFault::Refused(AT_THE_END),
        "refused at byte 18446744073709551615: NoBase (29) hunk 65535",
        1,
    ),
    (
        RunFault::RefusedIn(Refusal {
            fault: AT_28,
            part: Part::Header,
        }),
        "refused at byte 28: NameWord (21)",
        1,
    ),
    (RunFault::HexText, "hex text refused", 1),
    (RunFault::Read { place: 30 }, "reading failed at byte 30", 3),
    (
        RunFault::Write { written: 6 },
        "writing failed after 6 bytes",
        3,
    ),
    (RunFault::Memory, "out of memory", 4),
];

/// Sees that the fault has this line, and this status.
fn expect_line(
    rt: &impl Abort,
    alloc: Global,
    fault: RunFault,
    line: &str,
    status: u8,
) -> Result<(), AllocError> {
    let got = format!(in alloc; "{fault}")?;
    assert_equal(rt, got.as_str(), line);
    assert_equal_at(rt, fault.status(), status, line);
    Ok(())
}

#[test]
fn lines_and_statuses(rt: HostRuntime) -> Result<(), Fail> {
    for (fault, line, status) in FAULTS {
        expect_line(&rt, rt.alloc(), *fault, line, *status)?;
    }
    Ok(())
}
