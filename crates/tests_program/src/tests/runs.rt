//! Runs of the program with files that are made up. With those of the system they are in `tests/program`.

mod failures;
mod made;
mod memory_store;
mod notes;
mod rewriting;
mod stores;

use crate::tests::line::split;
use crate::tests::runs::made::{Given, Kept, Made};
use hunk_run::{Host, run};
use hunk_words::LongWriter;
use std::alloc::Global;
use std::cell::RefCell;
use std::test::Fail;

const ANY: usize = usize::MAX;

/// A load file of one hunk, whose code is 4E754E71 4E714E75.
const OTHER: &[u8; 44] = b"\0\0\x03\xF3\0\0\0\0\0\0\0\x01\0\0\0\0\0\0\0\0\0\0\0\x02\
    \0\0\x03\xE9\0\0\0\x02\x4E\x75\x4E\x71\x4E\x71\x4E\x75\0\0\x03\xF2";

/// What came of a run.
#[derive(Drop)]
struct Outcome {
    status: u8,
    text: Vec<u8>,
    // What it says on standard error.
    said: String,
    // The name of each file that was created, a colon, and what was written to it.
    created: Vec<u8>,
}

/// Runs these words, apart by spaces, with a standard output that takes `room` bytes.
fn ran(alloc: Global, given: Given<'_>, room: usize, line: &str) -> Result<Outcome, Fail> {
    let words = split(alloc, line)?;
    let created = RefCell::new(Vec::new(alloc));
    let made = Made {
        given,
        created: &created,
    };
    let mut out = LongWriter::new(Kept::new(alloc, room));
    let (ended, _store) = run(Host::new(&made), alloc, words.as_slice(), &mut out);
    let said = match &ended.note {
        Some(note) => format!(in alloc; "{note}")?,
        None => String::new(alloc),
    };
    Ok(Outcome {
        status: ended.status,
        text: out.into_inner().bytes,
        said,
        created: created.into_inner(),
    })
}
