//! The memory of each load file of the suite, at two bases.

use crate::tests::asserts::{assert_equal, assert_equal_at};
use hunk_scatter::{Image, Limits, Packed, load};
use hunk_vectors::{IMAGES, ImageVector, LOAD_TEXTS, MEMORY_TEXTS, bytes, memory_bytes};
use hunk_words::{FromSlice, LoadFault};
use std::alloc::Global;
use std::process::Abort;
use std::test::Fail;

const LIMITS: Limits = Limits {
    budget: 1_000,
    file_bytes: 100_000,
};

/// What `load` answers. This promises none of what `load` does.
fn loaded(alloc: Global, file: &[u8], base: u32) -> Result<Image, LoadFault> {
    load(
        alloc,
        &mut FromSlice::new(file),
        LIMITS,
        &Packed { start: base },
    )
}

/// Sees that the file of this row has that memory.
fn expect(rt: &impl Abort, alloc: Global, row: &ImageVector, memory: &[u8]) -> Result<(), Fail> {
    if row.file >= LOAD_TEXTS.len() {
        panic!(rt; "no {}", row.file);
    }
    let file = bytes(alloc, row.file)?;
    match loaded(alloc, &file, row.base) {
        Ok(image) => assert_equal_at(rt, image.joined(), memory, *row),
        Err(fault) => panic!(rt; "{row:?}: {fault:?}"),
    }
    Ok(())
}

#[test]
fn at_two_bases(rt: HostRuntime) -> Result<(), Fail> {
    assert_equal(&rt, IMAGES.len(), MEMORY_TEXTS.len());
    for i in 0..MEMORY_TEXTS.len() {
        let memory = memory_bytes(rt.alloc(), i)?;
        let Some(row) = IMAGES.get(i) else {
            panic!(&rt; "no {i}");
        };
        expect(&rt, rt.alloc(), row, &memory)?;
    }
    Ok(())
}
