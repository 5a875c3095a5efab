//! Loads while each growth that they ask for is refused in turn.

use crate::tests::asserts::assert_equal_at;
use crate::tests::{AMPLE, START, loaded};
use hunk_words::{LoadFault, Reason};
use std::alloc::Global;
use std::process::Abort;
use std::test::Fail;
use test_helpers::{Fed, Then, answers_growth_by_growth, memory_ends, spelled};

/// What a load of the bytes comes to, by hunks from 0x21000 on, but for what is wanted of it, an image or a fault:
/// its fault, or none where it has another image.
fn shortfall(
    alloc: Global,
    bytes: &[u8],
    want: &Result<Vec<u8>, LoadFault>,
) -> Option<Option<LoadFault>> {
    let mut source = Fed::new(bytes, 256, Then::Ends);
    match loaded(alloc, &mut source, AMPLE, &START) {
        Ok(image) => match want {
            Ok(bytes) if image.joined() == bytes.as_slice() => None,
            _ => Some(None),
        },
        Err(fault) => match want {
            Err(wanted) if fault == *wanted => None,
            _ => Some(Some(fault)),
        },
    }
}

/// Headers, where memory is asked for, and where they are cut: at the longword that completes the first row, at the
/// one that completes the fifth, and for the store after the header. The last has 65,536 hunks: no row that was not
/// read is given memory, of which there are 40,000 bytes at most.
const HEADERS: &[(&str, &[u64], u64)] = &[
    ("3F3 0 2 0 1 C0000010 10004 1", &[24, 32], 32),
    ("3F3 0 5 0 4 10 1 1 1 C0000001 10004", &[20, 40, 44], 44),
    ("3F3 0 10000 0 FFFF 1 1 1 1 1", &[20, 36], 40),
];

/// A file of five hunks, of 96 bytes and 4 each, the first with the last one's base in its code, the last with
/// attributes; where memory is asked for, and its image.
const FILE: (&str, &[u64], &str) = (
    "3F3 0 5 0 4 18 1 1 1 C0000001 10004 / \
        3E9 2 4EF90000 00044E71 / 3EC 1 4 2 0 / 3F2 / 3EA 1 12345678 / 3F2 / \
        3EB 1 / 3F2 / 3EB 1 / 3F2 / 3EA 1 9ABCDEF0 / 3F2",
    &[20, 40, 44],
    "4EF90002 10704E71 0 0 0 0 0 0 0 0 0 0 0 0 0 0 0 0 0 0 0 0 0 0 / \
        12345678 / 0 / 0 / 9ABCDEF0",
);

/// Sees that memory was refused at these places in turn, and that what is wanted came then.
fn expect_places(
    rt: &impl Abort,
    answers: &[Option<Option<LoadFault>>],
    places: &[u64],
    text: &str,
) {
    assert_equal_at(rt, answers.len(), places.len() + 1, text);
    let reason = Reason::OutOfMemory;
    for (place, answer) in places.iter().zip(answers) {
        let place = *place;
        assert_equal_at(rt, *answer, Some(Some(LoadFault { place, reason })), text);
    }
    assert_equal_at(rt, answers.last().copied(), Some(None), text);
}

/// Sees that a load is refused memory at these places in turn, and that what is wanted comes then.
fn expect_growths(
    rt: &impl Abort,
    alloc: Global,
    text: &str,
    places: &[u64],
    want: &Result<Vec<u8>, LoadFault>,
) -> Result<(), Fail> {
    let bytes = spelled(alloc, text)?;
    let answers = answers_growth_by_growth(alloc, || shortfall(alloc, bytes.as_slice(), want))?;
    expect_places(rt, answers.as_slice(), places, text);
    Ok(())
}

/// With no growth refused, each header is found to be cut at its end. Its store is larger than what the rows give back
/// of their memory.
#[test]
fn growth_by_growth(rt: HostRuntime) -> Result<(), Fail> {
    if !memory_ends(&rt)? {
        return Ok(());
    }
    let reason = Reason::Truncated;
    for (text, places, end) in HEADERS {
        let cut = Err(LoadFault {
            place: *end,
            reason,
        });
        expect_growths(&rt, rt.alloc(), text, places, &cut)?;
    }
    Ok(())
}

/// The same of a whole file: with no growth refused, it is loaded.
#[test]
fn growth_by_growth_of_a_file(rt: HostRuntime) -> Result<(), Fail> {
    if !memory_ends(&rt)? {
        return Ok(());
    }
    let (text, places, image) = FILE;
    let image = Ok(spelled(rt.alloc(), image)?);
    expect_growths(&rt, rt.alloc(), text, places, &image)
}
