//! Files with many of each part, and large ones.

use crate::bytes_of;
use std::alloc::{AllocError, Global};

/// How many of each part the files have.
pub const MANY: u32 = 70_000;

/// The hunks of the load file: the most that one may have.
pub const HUNKS: u32 = 65_536;

/// Longwords, and how often they stand one after another.
pub type Run = (u32, &'static [u32]);

/// Empty DEBUG blocks.
const BLOCKS: &[Run] = &[(MANY, &[0x3F1, 0])];

/// A RELOC32 of groups, each of the offset 0.
pub const GROUPS: &[Run] = &[(1, &[0x3EC]), (MANY, &[1, 1, 0]), (1, &[0])];

/// A RELOC32 of one group, each offset of which is 4.
pub const OFFSETS: &[Run] = &[(1, &[0x3EC, MANY, 1]), (MANY, &[4]), (1, &[0])];

/// A SYMBOL of symbols `s`.
pub const SYMBOLS: &[Run] = &[(1, &[0x3F0]), (MANY, &[1, 0x7300_0000, 7]), (1, &[0])];

/// An EXT of definitions `d`, and of a symbol with references past the end of a hunk of 8 bytes.
pub const ENTRIES: &[Run] = &[
    (1, &[0x3EF]),
    (MANY, &[0x0100_0001, 0x6400_0000, 7]),
    (1, &[0x8100_0000, MANY]),
    (MANY, &[5]),
    (1, &[0]),
];

/// The header of the load file, and its first content: 8 bytes.
const HEADER: &[Run] = &[
    (1, &[0x3F3, 0, HUNKS, 0, HUNKS - 1, 2]),
    (HUNKS - 1, &[1]),
    (1, &[0x3EB, 2]),
];

/// The end of the first hunk of a load file, and its other hunks, of 4 bytes each.
const HUNKS_AFTER: &[Run] = &[(1, &[0x3F2]), (HUNKS - 1, &[0x3EB, 1, 0x3F2])];

/// A load file of many hunks, the first of which has many of all else.
pub const LOAD_FILE: &[&[Run]] = &[HEADER, BLOCKS, GROUPS, OFFSETS, SYMBOLS, HUNKS_AFTER];

/// What stripping leaves of it.
pub const STRIPPED_LOAD_FILE: &[&[Run]] = &[HEADER, GROUPS, OFFSETS, HUNKS_AFTER];

/// The first unit of the object file, and its first content: 8 bytes.
const UNIT: &[Run] = &[(1, &[0x3E7, 0, 0x3EB, 2])];

/// The end of its first hunk, the other hunks, and the other units, which have none.
const UNITS_AFTER: &[Run] = &[
    (1, &[0x3F2]),
    (MANY - 1, &[0x3EB, 1, 0x3F2]),
    (MANY - 1, &[0x3E7, 0]),
];

/// An object file of many units, the first of which has many hunks, the first of which has many of all else.
/// Its findings are the references.
pub const OBJECT_FILE: &[&[Run]] = &[UNIT, BLOCKS, GROUPS, OFFSETS, ENTRIES, SYMBOLS, UNITS_AFTER];

/// What stripping leaves of it.
pub const STRIPPED_OBJECT_FILE: &[&[Run]] = &[UNIT, GROUPS, OFFSETS, ENTRIES, UNITS_AFTER];

/// The bytes of the runs.
///
/// # Errors
///
/// `AllocError` where memory is refused.
pub fn bytes_of_runs(alloc: Global, parts: &[&[Run]]) -> Result<Vec<u8>, AllocError> {
    let mut bytes = Vec::new(alloc);
    for part in parts {
        for run in *part {
            push_run(&mut bytes, *run)?;
        }
    }
    Ok(bytes)
}

/// Appends the bytes of the run.
fn push_run(bytes: &mut Vec<u8>, (times, longs): Run) -> Result<(), AllocError> {
    let once = bytes_of(*bytes.allocator(), longs)?;
    for _ in 0..times {
        bytes.extend_from_slice(&once)?;
    }
    Ok(())
}

/// The bytes of the large files: 4 MiB.
pub const LARGE: usize = 1 << 22;

/// A load file of `LARGE` bytes, of one hunk, whose bytes are 36 fewer.
///
/// # Errors
///
/// `AllocError` where memory is refused.
pub fn large_load_file(alloc: Global) -> Result<Vec<u8>, AllocError> {
    let longs = LARGE as u32 / 4 - 9;
    filled(alloc, &[0x3F3, 0, 1, 0, 0, longs, 0x3E9, longs])
}

/// An object file of `LARGE` bytes, of one hunk, whose bytes are 20 fewer.
///
/// # Errors
///
/// `AllocError` where memory is refused.
pub fn large_object_file(alloc: Global) -> Result<Vec<u8>, AllocError> {
    filled(alloc, &[0x3E7, 0, 0x3E9, LARGE as u32 / 4 - 5])
}

/// A file of `LARGE` bytes from these longwords on, with a content that is all the rest but for END.
fn filled(alloc: Global, front: &[u32]) -> Result<Vec<u8>, AllocError> {
    let mut bytes = bytes_of(alloc, front)?;
    bytes.resize(LARGE - 4, 0x4E)?;
    bytes.extend_from_slice(&[0, 0, 3, 0xF2])?;
    Ok(bytes)
}

/// A load file of one hunk of 16 MiB, in 36 bytes.
pub const SHORT_OF_16_MIB: &str = "3F3 0 1 0 0 400000 / 3EB 400000 / 3F2";

/// The same of 64 MiB.
pub const SHORT_OF_64_MIB: &str = "3F3 0 1 0 0 1000000 / 3EB 1000000 / 3F2";
