//! Files while each growth that a call asks for is refused in turn.

mod calls;
mod load_files;
mod object_files;

use hunk_words::{FileFault, Reason};
use std::alloc::{AllocError, Global};

/// `OutOfMemory` at these places, and then no fault.
fn wanted(alloc: Global, places: &[u64]) -> Result<Vec<Option<FileFault>>, AllocError> {
    let mut answers = Vec::new(alloc);
    for place in places {
        answers.push(Some(FileFault {
            place: *place,
            reason: Reason::OutOfMemory,
        }))?;
    }
    answers.push(None)?;
    Ok(answers)
}
