//! Command lines as lists of words.

use std::alloc::{AllocError, Global};

/// The program's name and these words.
pub(super) fn line_of(alloc: Global, words: &[&str]) -> Result<Vec<String>, AllocError> {
    let mut line = Vec::new(alloc);
    line.push(String::from_str(alloc, "hunkinfo")?)?;
    for word in words {
        line.push(String::from_str(alloc, word)?)?;
    }
    Ok(line)
}

/// The words of the text, apart by spaces.
pub(super) fn split(alloc: Global, text: &str) -> Result<Vec<String>, AllocError> {
    let mut line = Vec::new(alloc);
    for word in text.split(' ') {
        line.push(String::from_str(alloc, word)?)?;
    }
    Ok(line)
}
