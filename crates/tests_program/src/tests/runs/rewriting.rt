//! What rewritings print, say and write, to files that fail or have nothing to keep.

use crate::tests::asserts::{assert_equal_at, assert_output};
use crate::tests::runs::made::Given;
use crate::tests::runs::{ANY, OTHER, ran};
use std::alloc::Global;
use std::process::Abort;
use std::test::Fail;
use test_helpers::{examples, spelled};

/// The words of a rewriting, what it prints, its status, what is said, the name of OUT with a colon,
/// and how many bytes are written to it.
type Rewriting = (
    &'static str,
    &'static str,
    u8,
    &'static str,
    &'static str,
    usize,
);

/// What becomes of example 18, from the file `a`.
const REWRITTEN: &[Rewriting] = &[
    (
        "hunkinfo rewrite a full",
        "writing failed after 6 bytes\n",
        3,
        "hunkinfo: full: write zero: the first 6 bytes of it are written\n",
        "full:",
        6,
    ),
    (
        "hunkinfo rewrite a lost",
        "writing failed after 60 bytes\n",
        3,
        "hunkinfo: lost: quota exceeded: the first 60 bytes of it are written\n",
        "lost:",
        60,
    ),
    (
        "hunkinfo rewrite a pipe",
        "wrote 60 bytes\n",
        0,
        "",
        "pipe:",
        60,
    ),
    (
        "hunkinfo rewrite a terminal",
        "wrote 60 bytes\n",
        0,
        "",
        "terminal:",
        60,
    ),
    (
        "hunkinfo rewrite missing b",
        "reading failed at byte 0\n",
        3,
        "hunkinfo: missing: unsupported; b was not touched\n",
        "",
        0,
    ),
];

/// The same with `--strip`, which leaves example 1.
const STRIPPED: &[Rewriting] = &[(
    "hunkinfo rewrite --strip a lost",
    "writing failed after 40 bytes\n",
    3,
    "hunkinfo: lost: quota exceeded: the first 40 bytes of it are written\n",
    "lost:",
    40,
)];

/// Sees that rewriting these bytes, from the file `a`, goes as a row says, where the bytes that are
/// written are the first of `want`.
fn expect_rewritten(
    rt: &impl Abort,
    alloc: Global,
    bytes: &[u8],
    want: &[u8],
    row: &Rewriting,
) -> Result<(), Fail> {
    let (line, printed, status, said, name, count) = *row;
    let files = [("a", bytes)];
    let given = Given {
        input: OTHER.as_slice(),
        files: files.as_slice(),
        fails: false,
    };
    let ran = ran(alloc, given, ANY, line)?;
    assert_output(rt, ran.text.as_slice(), printed.as_bytes());
    assert_equal_at(rt, ran.said.as_str(), said, line);
    assert_equal_at(rt, ran.status, status, line);
    let mut created = name.as_bytes().to_vec(alloc)?;
    created.extend_from_slice(&want[..want.len().min(count)])?;
    assert_equal_at(rt, ran.created, created, line);
    Ok(())
}

#[test]
fn rewrites(rt: HostRuntime) -> Result<(), Fail> {
    let alloc = rt.alloc();
    let file = spelled(alloc, examples::WITH_A_SYMBOL)?;
    for row in REWRITTEN {
        expect_rewritten(&rt, alloc, &file, &file, row)?;
    }
    let stripped = spelled(alloc, examples::ONE_HUNK)?;
    for row in STRIPPED {
        expect_rewritten(&rt, alloc, &file, &stripped, row)?;
    }
    Ok(())
}
