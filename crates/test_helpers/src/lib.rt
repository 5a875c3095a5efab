//! What the tests of several crates use: the bytes of longwords, worked examples, sources and a writer that
//! take their time and fail where they are told to, and memory taken, so that growths are refused.
#![tactic(auto)]

mod changes;
pub mod examples;
mod granting;
mod growths;
pub mod large;
mod sources;
mod writers;

pub use crate::changes::{before_end, changed, ends_within_debug, with_long};
pub use crate::granting::answers_one_by_one;
pub use crate::growths::{
    Held, all_but, all_memory, answers_growth_by_growth, largest_piece, left_beside, memory_ends,
};
pub use crate::sources::{FailsOnce, Fed, Interrupted, Then};
pub use crate::writers::{Narrow, WIDTH, wide};
use std::alloc::{AllocError, Global};

/// The bytes of the longwords.
///
/// # Errors
///
/// `AllocError` where memory is refused.
pub fn bytes_of(alloc: Global, longs: &[u32]) -> Result<Vec<u8>, AllocError> {
    let mut bytes = Vec::new(alloc);
    for long in longs {
        bytes.extend_from_slice(&long.to_be_bytes())?;
    }
    Ok(bytes)
}

/// The bytes of the longwords that the text spells in hexadecimal digits; `/` only separates.
///
/// # Errors
///
/// `AllocError` where memory is refused.
pub fn spelled(alloc: Global, text: &str) -> Result<Vec<u8>, AllocError> {
    let mut bytes = Vec::new(alloc);
    for word in text.split(' ') {
        if let Ok(long) = u32::from_str_radix(word, 16) {
            bytes.extend_from_slice(long.to_be_bytes().as_slice())?;
        }
    }
    Ok(bytes)
}
