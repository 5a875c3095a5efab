//! A little of each library.

use crate::tests::asserts::{assert_equal, assert_equal_at};
use crate::tests::line::line_of;
use hunk_examples::{Seen, tour};
use std::alloc::Global;
use std::test::Fail;

/// What a tour has seen of the load file that the text spells, by a command line of these words.
fn toured(alloc: Global, line: &[&str], text: &str) -> anyhow::Result<Seen> {
    let words = line_of(alloc, line)?;
    tour(alloc, &words, text)
}

/// Example 1, each longword of eight digits.
const ONE_HUNK: &str =
    "000003F3 00000000 00000001 00000000 00000000 00000001 000003E9 00000001 4E754E71 000003F2";

/// A hunk of code, and words that are another order.
#[test]
fn of_one_hunk(rt: HostRuntime) -> Result<(), Fail> {
    let line = ["validate", "--hex"].as_slice();
    let seen = toured(rt.alloc(), line, ONE_HUNK)?;
    assert_equal(&rt, (seen.code, seen.loaded), (4, 4));
    let report = seen.report.as_slice();
    assert_equal(&rt, report, b"load file 1 hunks 4 bytes\n".as_slice());
    let line = ["show", "--hex"].as_slice();
    let other = toured(rt.alloc(), line, ONE_HUNK);
    assert!(rt; other.is_err());
    Ok(())
}

/// Hexadecimal texts, and how many bytes a tour loads of the file that each spells: the limit, a longword more, a cut
/// header and an object file.
const TEXTS: &[(&str, Option<u64>)] = &[
    (
        "000003F3 00000000 00000001 00000000 00000000 00004000 000003EB 00004000 000003F2",
        Some(0x0001_0000),
    ),
    (
        "000003F3 00000000 00000001 00000000 00000000 00004001 000003EB 00004001 000003F2",
        None,
    ),
    ("000003F3 00000000 00000001", None),
    ("000003E7 00000000", None),
];

/// How many bytes a tour has loaded.
fn loaded(alloc: Global, text: &str) -> Option<u64> {
    let line = ["validate", "--hex"].as_slice();
    let seen = toured(alloc, line, text).ok()?;
    Some(seen.loaded)
}

#[test]
fn within_its_limits(rt: HostRuntime) {
    for (text, want) in TEXTS {
        assert_equal_at(&rt, loaded(rt.alloc(), text), *want, text);
    }
}
