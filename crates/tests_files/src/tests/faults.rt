//! The texts of faults and of parts of files.

use crate::tests::asserts::assert_equal;
use hunk_files::{ImageFault, Part};
use std::test::Fail;

const FAULTS: &[(ImageFault, &str)] = &[
    (ImageFault::BaseCount, "wrong number of bases"),
    (ImageFault::OutOfMemory, "out of memory"),
];

const PARTS: &[(Part, &str)] = &[
    (Part::Header, "the header"),
    (Part::Hunk { number: 2 }, "hunk 2"),
    (
        Part::Unit {
            number: 1,
            hunk: None,
        },
        "unit 1",
    ),
    (
        Part::Unit {
            number: 0,
            hunk: Some(1),
        },
        "unit 0 hunk 1",
    ),
];

#[test]
fn texts(rt: HostRuntime) -> Result<(), Fail> {
    for (fault, want) in FAULTS {
        let text = format!(in rt.alloc(); "{fault}")?;
        assert_equal(&rt, text.as_str(), *want);
    }
    for (part, want) in PARTS {
        let text = format!(in rt.alloc(); "{part}")?;
        assert_equal(&rt, text.as_str(), *want);
    }
    Ok(())
}
