//! Calls whose contracts say much, as functions without one: what calls these has a short proof.

use hunk_files::{HunkFile, ImageFault, LoadFile, ObjectFile};
use hunk_words::FileFault;
use std::alloc::{AllocError, Global};
use std::process::Abort;

/// The load file that the bytes begin with.
pub(super) fn load_file<'a>(rt: &impl Abort, alloc: Global, bytes: &'a [u8]) -> LoadFile<'a> {
    let (file, _) = LoadFile::decode(alloc, bytes).expect(rt, "no load file");
    file
}

/// Where and why the bytes are refused as a load file, if they are.
pub(super) fn load_fault(alloc: Global, bytes: &[u8]) -> Option<FileFault> {
    LoadFile::decode(alloc, bytes).err()
}

/// The image at these bases.
pub(super) fn image(alloc: Global, file: &LoadFile, bases: &[u32]) -> Result<Vec<u8>, ImageFault> {
    file.image(alloc, bases)
}

/// The overlap in the first hunk.
pub(super) fn overlap(
    rt: &impl Abort,
    alloc: Global,
    file: &LoadFile,
) -> Result<Option<(u32, u32)>, AllocError> {
    assert!(rt; file.hunks() > 0);
    file.overlap(alloc, 0)
}

/// The object file that the bytes are.
pub(super) fn object_file<'a>(rt: &impl Abort, alloc: Global, bytes: &'a [u8]) -> ObjectFile<'a> {
    ObjectFile::decode(alloc, bytes).expect(rt, "no object file")
}

/// Where and why the bytes are refused as an object file, if they are.
pub(super) fn object_fault(alloc: Global, bytes: &[u8]) -> Option<FileFault> {
    ObjectFile::decode(alloc, bytes).err()
}

/// The file of either kind that the bytes are, or begin with.
pub(super) fn either_file<'a>(rt: &impl Abort, alloc: Global, bytes: &'a [u8]) -> HunkFile<'a> {
    HunkFile::decode(alloc, bytes).expect(rt, "no file")
}

/// The file as `strip` leaves it.
pub(super) fn stripped(file: HunkFile<'_>) -> HunkFile<'_> {
    file.strip()
}
