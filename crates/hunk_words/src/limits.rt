//! The limits that the fields of the format set.

/// The most hunks that a load file has: 65,536.
///
/// This limit is this project's own choice.
pub const MOST_HUNKS: u32 = 65_536;

/// A name has fewer longwords than this, 2^24, since its count has 24 bits.
///
/// Source: The AmigaDOS Manual, `dos/doshunks.h`.
pub const NAME_LIMIT: u32 = 0x0100_0000;

/// The content of a hunk has fewer longwords than this, 2^30, since its size word counts them in
/// its low 30 bits.
///
/// Source: The AmigaDOS Manual, and the memory bits 30 and 31 of `dos/doshunks.h`.
pub const CONTENT_LIMIT: u32 = 0x4000_0000;
