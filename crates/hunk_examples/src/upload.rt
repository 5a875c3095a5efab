//! A server's look at the first bytes of an upload.

use hunk_grammar::Position;
use hunk_words::{Reason, word_at};

/// Whether the first bytes of a file hold a whole header of a load file; false where they may still
/// go on to one. It takes no memory.
///
/// # Errors
///
/// Why the first longword that no header has there is refused.
pub fn has_header(front: &[u8]) -> Result<bool, Reason> {
    let mut position = Position::FirstLong;
    for i in 0..front.len() / 4 {
        if position.is_after_header() {
            return Ok(true);
        }
        let word = word_at(front, i);
        // The header's tests do not use the size of the open hunk.
        if let Some(reason) = position.refuse(0, word) {
            return Err(reason);
        }
        position = position.step(word);
    }
    Ok(position.is_after_header())
}
