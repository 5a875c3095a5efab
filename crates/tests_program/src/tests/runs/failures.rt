//! Runs whose reads or writes fail.

use crate::tests::asserts::{assert_equal_at, assert_output};
use crate::tests::runs::made::Given;
use crate::tests::runs::{ANY, ran};
use std::alloc::Global;
use std::process::Abort;
use std::test::Fail;
use test_helpers::{examples, spelled};

/// The first 30 bytes of the example.
const FRONT: &[u8] = b"\0\0\x03\xF3\0\0\0\0\0\0\0\x01\0\0\0\0\0\0\0\0\0\0\0\x01\0\0\x03\xE9\0\0";

const FRONT_IN_TEXT: &[u8] = b"000003F3 0000000";

/// What standard input gives before it fails, what the file `a` gives, the words, and after how many
/// bytes reading fails.
const UNREAD: &[(&[u8], &[u8], &str, u64)] = &[
    (FRONT, b"", "hunkinfo relocate --base 00000000", 30),
    (b"", FRONT, "hunkinfo relocate --base 00000000 a", 30),
    (FRONT, b"", "hunkinfo relocate --base 00000000 a", 0),
    (FRONT, FRONT, "hunkinfo relocate --base 00000000 missing", 0),
    (FRONT_IN_TEXT, b"", "hunkinfo", 16),
    (FRONT, FRONT_IN_TEXT, "hunkinfo rewrite a b", 16),
];

/// Sees that reading fails in a run of these words, after so many bytes, and that it creates no file.
fn expect_unread(
    rt: &impl Abort,
    alloc: Global,
    given: Given<'_>,
    line: &str,
    place: u64,
) -> Result<(), Fail> {
    let ran = ran(alloc, given, ANY, line)?;
    let want = format!(in alloc; "reading failed at byte {place}\n")?;
    assert_output(rt, ran.text.as_slice(), want.as_bytes());
    assert_equal_at(rt, (ran.status, ran.created.len()), (3, 0), line);
    Ok(())
}

#[test]
fn reading_fails(rt: HostRuntime) -> Result<(), Fail> {
    for (input, content, line, place) in UNREAD {
        let files = [("a", *content)];
        let given = Given {
            input: *input,
            files: files.as_slice(),
            fails: true,
        };
        expect_unread(&rt, rt.alloc(), given, line, *place)?;
    }
    Ok(())
}

/// What is said where standard output fails.
const UNWRITTEN: &str = "hunkinfo: standard output: writing failed\n";

/// Sees that a run of these words over these bytes, in the text that spells them or as they are,
/// fails where standard output does.
fn expect_unwritten(
    rt: &impl Abort,
    alloc: Global,
    input: &[u8],
    content: &[u8],
    line: &str,
) -> Result<(), Fail> {
    let files = [("a", content)];
    let given = Given {
        input,
        files: files.as_slice(),
        fails: false,
    };
    let whole = ran(alloc, given, ANY, line)?.text;
    for room in [0, 1, 10, whole.len() - whole.len().min(1)] {
        let part = ran(alloc, given, room, line)?;
        assert_equal_at(rt, part.status, 3, line);
        assert_equal_at(rt, part.said.as_str(), UNWRITTEN, line);
        assert_output(rt, part.text.as_slice(), &whole[..whole.len().min(room)]);
    }
    Ok(())
}

/// Words, over the text of example 29 at standard input and example 1 in the file `a`.
const WRITING: &[&str] = &[
    "hunkinfo",
    "hunkinfo show --hex",
    "hunkinfo validate --hex",
    "hunkinfo show a",
    "hunkinfo validate a",
    "hunkinfo relocate --base 00000000 a",
    "hunkinfo rewrite a b",
    "hunkinfo show --hex a",
    "hunkinfo relocate --base 00000000 missing",
    "hunkinfo --help",
    "hunkinfo --version",
];

#[test]
fn writing_fails(rt: HostRuntime) -> Result<(), Fail> {
    let alloc = rt.alloc();
    let text = hex::encode(alloc, spelled(alloc, examples::TWO_FINDINGS)?)?;
    let file = spelled(alloc, examples::ONE_HUNK)?;
    for line in WRITING {
        expect_unwritten(&rt, alloc, text.as_bytes(), &file, line)?;
    }
    Ok(())
}
