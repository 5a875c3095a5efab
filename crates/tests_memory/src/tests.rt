//! What no clause says: what a load asks for, what loaders hold, and what they answer where memory is refused.

mod asks;
mod asserts;
mod growths;
mod held;
mod memory;

use hunk_scatter::{HeaderLoader, Image, Limits, Packed, Placer, load};
use hunk_words::{LoadFault, Source};
use std::alloc::Global;

/// Limits that no example meets.
const AMPLE: Limits = Limits {
    budget: 1_000,
    file_bytes: 100_000,
};

/// Where the hunks of the examples lie.
const START: Packed = Packed { start: 0x21000 };

/// What `load` answers. The proofs of its callers are short, since this promises none of what `load` does.
fn loaded<R: Source, P: Placer>(
    alloc: Global,
    source: &mut R,
    limits: Limits,
    placer: &P,
) -> Result<Image, LoadFault> {
    load(alloc, source, limits, placer)
}

/// Why a load is refused, if it is.
fn load_fault<R: Source, P: Placer>(
    alloc: Global,
    source: &mut R,
    limits: Limits,
    placer: &P,
) -> Option<LoadFault> {
    loaded(alloc, source, limits, placer).err()
}

/// A loader that was fed a header, and what it answered.
fn fed(alloc: Global, header: &[u8], budget: u64) -> (HeaderLoader, Result<usize, LoadFault>) {
    let mut loader = HeaderLoader::new(alloc, budget);
    let answer = loader.feed(header);
    (loader, answer)
}
