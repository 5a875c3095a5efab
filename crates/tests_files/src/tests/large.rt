//! Files with many of each part, and large ones, in lists: no call gives up on them.

use crate::tests::asserts::assert_equal;
use crate::tests::decoding::{load_file, object_file};
use crate::tests::findings::checked;
use crate::tests::images::{image_of, overlap_of};
use crate::tests::texts::{expect, written};
use hunk_files::ObjectFile;
use std::alloc::{AllocError, Global};
use std::process::Abort;
use std::test::Fail;
use test_helpers::large::{
    HUNKS, LARGE, LOAD_FILE, MANY, OBJECT_FILE, Run, SHORT_OF_64_MIB, STRIPPED_LOAD_FILE,
    STRIPPED_OBJECT_FILE, bytes_of_runs, large_load_file, large_object_file,
};
use test_helpers::{bytes_of, spelled};

/// Files of many parts, and what stripping leaves of them.
const FILES: &[(&[&[Run]], &[&[Run]])] = &[
    (LOAD_FILE, STRIPPED_LOAD_FILE),
    (OBJECT_FILE, STRIPPED_OBJECT_FILE),
];

#[test]
fn many_parts_again(rt: HostRuntime) -> Result<(), Fail> {
    let alloc = rt.alloc();
    for (whole, left) in FILES {
        let (bytes, left) = (bytes_of_runs(alloc, whole)?, bytes_of_runs(alloc, left)?);
        expect(&rt, alloc, &bytes, &left);
    }
    Ok(())
}

/// How many bytes the load file's image has: two longwords of the first hunk, and one of each
/// other.
const SIZE: usize = 262_148;

/// The image with the base 1 of each hunk: that of the second is added to both longwords of the
/// first.
fn image_of_many(alloc: Global) -> Result<Vec<u8>, AllocError> {
    let mut image = bytes_of(alloc, &[MANY, MANY])?;
    image.resize(SIZE, 0)?;
    Ok(image)
}

/// Many offsets are looked at for an overlap, of which there is none, and many bases are added.
#[test]
fn many_relocations(rt: HostRuntime) -> Result<(), Fail> {
    let alloc = rt.alloc();
    let bytes = bytes_of_runs(alloc, LOAD_FILE)?;
    let file = load_file(&rt, alloc, &bytes);
    assert_equal(&rt, (file.hunks(), file.total()), (HUNKS, SIZE as u64));
    assert_equal(&rt, overlap_of(&rt, alloc, &bytes)?, None);
    let bases = vec![in alloc; 1u32; HUNKS as usize]?;
    let image = image_of(&rt, alloc, &bytes, &bases)?;
    assert!(rt; image.as_slice() == image_of_many(alloc)?.as_slice());
    Ok(())
}

/// How many units, hunks and blocks a file has.
fn counts(file: &ObjectFile) -> (usize, usize, usize) {
    let (mut hunks, mut blocks) = (0usize, 0usize);
    for unit in file.units() {
        hunks = hunks.saturating_add(unit.hunks().len());
        for hunk in unit.hunks() {
            blocks = blocks.saturating_add(hunk.blocks().len());
        }
    }
    (file.units().len(), hunks, blocks)
}

/// Each hunk has a content and END, the first many blocks, two of relocations, one of symbols and one of external
/// symbols.
#[test]
fn many_findings(rt: HostRuntime) -> Result<(), Fail> {
    let (alloc, many) = (rt.alloc(), MANY as usize);
    let bytes = bytes_of_runs(alloc, OBJECT_FILE)?;
    let file = object_file(&rt, alloc, &bytes);
    assert_equal(&rt, counts(&file), (many, many, 3 * many + 4));
    assert_equal(&rt, checked(&rt, alloc, &bytes).len(), many);
    Ok(())
}

/// Sees that the file that the bytes are is written in as many bytes, stripped too: none of it can
/// be left out.
fn expect_length(rt: &impl Abort, alloc: Global, bytes: &[u8]) {
    assert_equal(rt, written(rt, alloc, bytes, true).len(), bytes.len());
}

#[test]
fn large_files_again(rt: HostRuntime) -> Result<(), Fail> {
    expect_length(&rt, rt.alloc(), &large_load_file(rt.alloc())?);
    expect_length(&rt, rt.alloc(), &large_object_file(rt.alloc())?);
    Ok(())
}

/// Sees that the load file's hunk has this many bytes.
fn expect_size(rt: &impl Abort, alloc: Global, bytes: &[u8], size: usize) {
    let image = image_of(rt, alloc, bytes, &[0]).expect(rt, "no image");
    assert_equal(rt, image.len(), size);
}

#[test]
fn large_images(rt: HostRuntime) -> Result<(), Fail> {
    let alloc = rt.alloc();
    expect_size(&rt, alloc, &large_load_file(alloc)?, LARGE - 36);
    expect_size(&rt, alloc, &spelled(alloc, SHORT_OF_64_MIB)?, 1 << 26);
    Ok(())
}
