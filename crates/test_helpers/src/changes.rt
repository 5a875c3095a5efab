//! Example 1 with one longword changed, or with more before its END.

use crate::{examples, spelled};
use std::alloc::{AllocError, Global};

/// The bytes with another longword at this byte.
pub fn with_long(mut bytes: Vec<u8>, byte: usize, word: u32) -> Vec<u8> {
    let new = word.to_be_bytes();
    for (i, place) in bytes.iter_mut().enumerate() {
        if i / 4 * 4 == byte {
            *place = new[i % 4];
        }
    }
    bytes
}

/// The bytes of example 1 with another longword at this byte.
///
/// # Errors
///
/// `AllocError` where memory is refused.
pub fn changed(alloc: Global, byte: usize, word: u32) -> Result<Vec<u8>, AllocError> {
    Ok(with_long(spelled(alloc, examples::ONE_HUNK)?, byte, word))
}

/// The bytes of example 1 with these longwords before its END.
///
/// # Errors
///
/// `AllocError` where memory is refused.
pub fn before_end(alloc: Global, longs: &[u32]) -> Result<Vec<u8>, AllocError> {
    let mut bytes = spelled(alloc, examples::BEFORE_ITS_END)?;
    for long in longs {
        bytes.extend_from_slice(&long.to_be_bytes())?;
    }
    bytes.extend_from_slice(&[0, 0, 3, 0xF2])?;
    Ok(bytes)
}

/// Example 15: END's block word 75 times within a DEBUG block, and then END.
///
/// # Errors
///
/// `AllocError` where memory is refused.
pub fn ends_within_debug(alloc: Global) -> Result<Vec<u8>, AllocError> {
    let mut longs = [0x3F1, 75].to_vec(alloc)?;
    longs.resize(77, 0x3F2)?;
    before_end(alloc, &longs)
}
