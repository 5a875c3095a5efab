//! An emulator's loader.

use hunk_scatter::{Limits, Packed, load};
use hunk_words::FromRead;
use std::alloc::Global;
use std::io::Read;

/// The most bytes that a program may have in memory, and in its file.
const LIMITS: Limits = Limits {
    budget: 0x0020_0000,
    file_bytes: 0x0040_0000,
};

/// Loads a program after what the memory has already, which is where the address `start` is. Gives
/// the address that it begins at.
///
/// # Errors
///
/// The file is refused, with the place and the reason, or memory ran out.
pub fn load_program<R: Read + Drop>(
    alloc: Global,
    file: R,
    memory: &mut Vec<u8>,
    start: u32,
) -> anyhow::Result<u32> {
    let mut source = FromRead::buffered(alloc, file)?;
    let image = load(alloc, &mut source, LIMITS, &Packed { start })?;
    for (_, segment) in image.segments() {
        memory.extend_from_slice(segment)?;
    }
    Ok(image.base(0))
}
