//! Each growth of `check`, `overlap` and `image` refused in turn.

use crate::tests::asserts::{assert_equal, assert_equal_at};
use crate::tests::decoding::{image, load_file, object_file, overlap};
use hunk_files::{ImageFault, LoadFile, ObjectFile};
use std::alloc::{AllocError, Global};
use std::process::Abort;
use std::test::Fail;
use test_helpers::{answers_growth_by_growth, examples, memory_ends, spelled};

/// Object files with six findings: three relocations with two each; and in two units a relocation by no hunk and a
/// symbol with two references past the end of its hunk, then two such relocations and a symbol with one reference.
const SIX_FINDINGS: &[&str] = &[
    "3E7 0 / 3EB 1 / 3EC 3 1 2 3 4 0 / 3F2",
    "3E7 0 / 3EB 1 / 3EC 1 1 0 0 / 3EF 81000001 5F660000 2 1 2 0 / 3F2 / \
        3E7 0 / 3EB 1 / 3F2 / 3EB 1 / 3EC 2 2 0 0 0 / 3EF 83000001 5F660000 1 3 0 / 3F2",
];

/// `check` keeps four findings at first, and more at the fifth.
#[test]
fn of_a_check(rt: HostRuntime) -> Result<(), Fail> {
    if !memory_ends(&rt)? {
        return Ok(());
    }
    for text in SIX_FINDINGS {
        expect_check(&rt, rt.alloc(), text)?;
    }
    Ok(())
}

/// Sees that `check` of a file with six findings runs out of memory until there is enough of it, and then succeeds.
fn expect_check(rt: &impl Abort, alloc: Global, text: &str) -> Result<(), Fail> {
    let bytes = spelled(alloc, text)?;
    let file = object_file(rt, alloc, &bytes);
    let answers = answers_growth_by_growth(alloc, || check_fault(alloc, &file))?;
    let want = [Some("out of memory"), None];
    assert_equal_at(rt, answers.as_slice(), want.as_slice(), text);
    Ok(())
}

/// What is wrong with `check` of a file with six findings.
fn check_fault(alloc: Global, file: &ObjectFile) -> Option<&'static str> {
    match file.check(alloc) {
        Ok(found) if found.len() == 6 => None,
        Ok(_) => Some("another number of findings"),
        Err(_) => Some("out of memory"),
    }
}

/// What is amiss with `overlap` of the first hunk, whose offsets 0 and 1 are the first that are close.
fn overlap_fault(rt: &impl Abort, alloc: Global, file: &LoadFile) -> Option<&'static str> {
    match overlap(rt, alloc, file) {
        Ok(Some((0, 1))) => None,
        Ok(_) => Some("another pair"),
        Err(_) => Some("out of memory"),
    }
}

/// What `overlap` of the first hunk answers growth by growth.
fn overlap_answers(
    rt: &impl Abort,
    alloc: Global,
    bytes: &[u8],
) -> Result<Vec<Option<&'static str>>, AllocError> {
    let file = load_file(rt, alloc, bytes);
    answers_growth_by_growth(alloc, || overlap_fault(rt, alloc, &file))
}

/// What `image` at these bases answers growth by growth.
fn image_answers(
    rt: &impl Abort,
    alloc: Global,
    bytes: &[u8],
    bases: &[u32],
) -> Result<Vec<Option<ImageFault>>, AllocError> {
    let file = load_file(rt, alloc, bytes);
    answers_growth_by_growth(alloc, || image(alloc, &file, bases).err())
}

/// `overlap` takes memory for five offsets in two growths, and `image` in one for all it makes.
#[test]
fn of_an_overlap_and_an_image(rt: HostRuntime) -> Result<(), Fail> {
    if !memory_ends(&rt)? {
        return Ok(());
    }
    let bytes = spelled(rt.alloc(), examples::FIVE_HUNKS)?;
    let overlaps = overlap_answers(&rt, rt.alloc(), &bytes)?;
    let want = [Some("out of memory"), None];
    assert_equal(&rt, overlaps.as_slice(), want.as_slice());
    let images = image_answers(&rt, rt.alloc(), &bytes, &[0; 5])?;
    let refused = Some(ImageFault::OutOfMemory);
    assert_equal(&rt, images.as_slice(), [refused, None].as_slice());
    Ok(())
}
