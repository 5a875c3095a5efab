//! What a check of an object file finds.

use crate::tests::asserts::assert_equal_at;
use crate::tests::decoding::object_file;
use hunk_files::{FindingKind, Findings};
use std::alloc::{AllocError, Global};
use std::process::Abort;
use std::test::Fail;
use test_helpers::{examples, spelled};

/// What is found in the object file that the bytes are.
pub(super) fn checked(rt: &impl Abort, alloc: Global, bytes: &[u8]) -> Findings {
    object_file(rt, alloc, bytes)
        .check(alloc)
        .expect(rt, "no memory")
}

/// A unit, a hunk, what is wrong with an offset there, and the offset.
type Case = (u64, u64, FindingKind, u32);

fn cases_of(alloc: Global, findings: &Findings) -> Result<Vec<Case>, AllocError> {
    let mut cases = Vec::new(alloc);
    for found in findings.iter() {
        cases.push((found.unit, found.hunk, found.fault, found.offset))?;
    }
    Ok(cases)
}

/// The worked examples of findings, 14, 29, 34, 35 and 45, and three units, the last with a relocation in its second
/// hunk by a third, which is not there: a target is counted among the hunks of its own unit.
const FINDINGS: &[(&str, &[Case])] = &[
    (examples::OBJECT, &[]),
    (
        examples::OBJECT_WITH_AN_OFFSET_OUTSIDE,
        &[(0, 0, FindingKind::OutsideHunk, 5)],
    ),
    (
        examples::TWO_FINDINGS,
        &[
            (0, 0, FindingKind::BadTarget, 2),
            (0, 0, FindingKind::OutsideHunk, 2),
        ],
    ),
    (examples::EMPTY_UNIT_AND_ANOTHER, &[]),
    (examples::COMMON, &[]),
    (
        examples::COMMON_WITH_AN_OFFSET_OUTSIDE,
        &[(0, 0, FindingKind::OutsideHunk, 5)],
    ),
    (
        examples::RELATIVE_OBJECT,
        &[(0, 0, FindingKind::OutsideHunk, 7)],
    ),
    (
        "3E7 0 / 3EB 1 / 3EC 1 1 0 0 / 3F2 / 3EB 1 / 3F2 / 3E7 0 / 3EB 1 / 3F2 / \
            3E7 0 / 3EB 1 / 3F2 / 3EB 1 / 3EC 1 2 0 0 / 3F2",
        &[(2, 1, FindingKind::BadTarget, 0)],
    ),
];

#[test]
fn of_a_check(rt: HostRuntime) -> Result<(), Fail> {
    for (text, want) in FINDINGS {
        let bytes = spelled(rt.alloc(), text)?;
        let found = cases_of(rt.alloc(), &checked(&rt, rt.alloc(), &bytes))?;
        assert_equal_at(&rt, found.as_slice(), *want, text);
    }
    Ok(())
}
