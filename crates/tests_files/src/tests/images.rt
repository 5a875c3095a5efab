//! The memory of load files, and the offsets whose longs overlap.

use crate::tests::asserts::{assert_equal, assert_equal_at};
use crate::tests::decoding::{image, load_file, overlap};
use hunk_files::ImageFault;
use std::alloc::{AllocError, Global};
use std::process::Abort;
use std::test::Fail;
use test_helpers::{bytes_of, examples, spelled};

/// The image at these bases of the load file that the bytes are.
pub(super) fn image_of(
    rt: &impl Abort,
    alloc: Global,
    bytes: &[u8],
    bases: &[u32],
) -> Result<Vec<u8>, ImageFault> {
    image(alloc, &load_file(rt, alloc, bytes), bases)
}

/// The worked examples whose bases matter, 2, 3, 5, 6, 36 and 37: the file, the bases, and the longwords of the image.
const IMAGES: &[(&str, &[u32], &[u32])] = &[
    (
        examples::TWO_HUNKS,
        &[0x10000, 0x20000],
        &[0x4EF9_0002, 0x0004_4E71, 0x1234_5678],
    ),
    (examples::RELOCATED, &[0x1000], &[0xFFC]),
    (examples::TWO_BASES, &[0x100, 0x200], &[0x310, 0]),
    (examples::OVERLAPPING, &[1], &[0x0001_0001, 0]),
    (examples::OVERLAPPING_FROM_AFTER, &[1], &[1, 0]),
    (
        examples::OVERLAPPING_APART,
        &[0x21000],
        &[0x0002_1002, 0x1000_0000, 0x0002_1000, 0],
    ),
    (examples::RELOCATED_AFTER_SYMBOLS, &[0x100], &[0x110]),
    (examples::RELOCATED_ALONE, &[0x100], &[0x110]),
];

#[test]
fn images(rt: HostRuntime) -> Result<(), Fail> {
    let alloc = rt.alloc();
    for (text, bases, want) in IMAGES {
        let image = image_of(&rt, alloc, &spelled(alloc, text)?, bases)?;
        let want = bytes_of(alloc, want)?;
        assert_equal_at(&rt, image.as_slice(), want.as_slice(), text);
    }
    Ok(())
}

/// One base too few, and one too many.
#[test]
fn wrong_number_of_bases(rt: HostRuntime) -> Result<(), Fail> {
    let bytes = spelled(rt.alloc(), examples::ONE_HUNK)?;
    for bases in [[].as_slice(), [0, 0].as_slice()] {
        let got = image_of(&rt, rt.alloc(), &bytes, bases);
        assert_equal(&rt, got, Err(ImageFault::BaseCount));
    }
    Ok(())
}

/// The overlap in the first hunk of the load file that the bytes are.
pub(super) fn overlap_of(
    rt: &impl Abort,
    alloc: Global,
    bytes: &[u8],
) -> Result<Option<(u32, u32)>, AllocError> {
    overlap(rt, alloc, &load_file(rt, alloc, bytes))
}

/// The worked examples of overlaps: 6, 36 and 5.
const OVERLAPS: &[(&str, Option<(u32, u32)>)] = &[
    (examples::OVERLAPPING, Some((0, 2))),
    (examples::OVERLAPPING_FROM_AFTER, Some((0, 2))),
    (examples::OVERLAPPING_APART, Some((0, 2))),
    (examples::TWO_BASES, None),
];

#[test]
fn overlaps(rt: HostRuntime) -> Result<(), Fail> {
    for (text, want) in OVERLAPS {
        let bytes = spelled(rt.alloc(), text)?;
        let got = overlap_of(&rt, rt.alloc(), &bytes)?;
        assert_equal_at(&rt, got, *want, text);
    }
    Ok(())
}
