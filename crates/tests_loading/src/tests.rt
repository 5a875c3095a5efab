//! What no clause says: images and faults by readers of all kinds, and the number of reads.

mod asserts;
mod headers;
mod limits;
mod loads;
mod refusals;
mod streams;

use hunk_scatter::{Image, Limits, Packed, Placer, load};
use hunk_words::{LoadFault, Source};
use std::alloc::{AllocError, Global};

/// Limits that no example meets.
const AMPLE: Limits = Limits {
    budget: 1_000,
    file_bytes: 100_000,
};

/// Where the hunks of the examples lie.
const START: Packed = Packed { start: 0x21000 };

/// The bytes up to one, and those from there on.
fn cut_at(bytes: &[u8], count: usize) -> (&[u8], &[u8]) {
    bytes.split_at(count.min(bytes.len()))
}

/// The segments one after another, and the bases.
#[derive(Debug, PartialEq, Drop)]
struct Joined {
    bytes: Vec<u8>,
    bases: Vec<u32>,
}

fn gathered(alloc: Global, image: &Image) -> Result<Joined, AllocError> {
    let mut bytes = Vec::new(alloc);
    let mut bases = Vec::new(alloc);
    for i in 0..image.hunks() {
        bytes.extend_from_slice(image.segment(i))?;
        bases.push(image.base(i))?;
    }
    Ok(Joined { bytes, bases })
}

/// What `load` answers. The proofs of its callers are short, since this promises none of what `load` does.
fn loaded<R: Source, P: Placer>(
    alloc: Global,
    source: &mut R,
    limits: Limits,
    placer: &P,
) -> Result<Image, LoadFault> {
    load(alloc, source, limits, placer)
}

/// Why a load is refused, if it is.
fn load_fault<R: Source, P: Placer>(
    alloc: Global,
    source: &mut R,
    limits: Limits,
    placer: &P,
) -> Option<LoadFault> {
    loaded(alloc, source, limits, placer).err()
}

/// What a load comes to.
fn outcome<R: Source, P: Placer>(
    alloc: Global,
    source: &mut R,
    limits: Limits,
    placer: &P,
) -> Result<Result<Joined, LoadFault>, AllocError> {
    match loaded(alloc, source, limits, placer) {
        Ok(image) => Ok(Ok(gathered(alloc, &image)?)),
        Err(fault) => Ok(Err(fault)),
    }
}
