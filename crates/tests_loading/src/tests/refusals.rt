//! What is read of a source that holds nothing when a longword is refused.

use crate::tests::asserts::assert_equal_at;
use crate::tests::{AMPLE, START, load_fault};
use hunk_words::{FromRead, LoadFault};
use std::alloc::Global;
use std::io::Cursor;
use std::test::Fail;
use test_helpers::examples::{
    LARGEST_HUNK, MOST_CONTENT, MOST_OFFSETS_BY_NO_HUNK, NO_HUNKS, NOTHING_TO_RELOCATE,
    RELOCATED_BY_NO_HUNK, RELOCATED_PAST_ITS_END, TOO_MANY_HUNKS, WRONG_LAST_HUNK, WRONG_NAME_WORD,
};
use test_helpers::spelled;

/// Files with the place of the longword that is refused: in the header by its own test and by the
/// budget, and in the body. It is not the last longword of each.
const REFUSED: &[(&str, u64)] = &[
    (NO_HUNKS, 8),
    (TOO_MANY_HUNKS, 8),
    (WRONG_LAST_HUNK, 16),
    (LARGEST_HUNK, 20),
    (WRONG_NAME_WORD, 28),
    (MOST_CONTENT, 28),
    (NOTHING_TO_RELOCATE, 36),
    (MOST_OFFSETS_BY_NO_HUNK, 44),
    (RELOCATED_BY_NO_HUNK, 48),
    (RELOCATED_PAST_ITS_END, 52),
];

/// More than is wanted at a time.
const AFTER: [u8; 300] = [0x4E; 300];

/// The file, with bytes after it.
fn followed(alloc: Global, text: &str) -> Result<Vec<u8>, Fail> {
    let mut bytes = spelled(alloc, text)?;
    bytes.extend_from_slice(&AFTER)?;
    Ok(bytes)
}

fn place_of(fault: Option<LoadFault>) -> Option<u64> {
    match fault {
        Some(fault) => Some(fault.place),
        None => None,
    }
}

/// How many bytes a cursor has given after the longword at the place.
fn given_after(read: u64, place: u64) -> Option<u64> {
    read.checked_sub(place.saturating_add(4))
}

/// A reader without a buffer holds nothing: at most what was wanted with the longword was read.
#[test]
fn of_a_cursor(rt: HostRuntime) -> Result<(), Fail> {
    for (text, place) in REFUSED {
        let bytes = followed(rt.alloc(), text)?;
        let mut source = FromRead::new(Cursor::new(bytes.as_slice()));
        let fault = load_fault(rt.alloc(), &mut source, AMPLE, &START);
        let read = source.into_inner().position();
        let is_near = match given_after(read, *place) {
            Some(more) => more < 256,
            None => false,
        };
        assert_equal_at(&rt, (place_of(fault), is_near), (Some(*place), true), text);
    }
    Ok(())
}
