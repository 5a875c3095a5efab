//! What is written of files, whole and stripped.

use crate::tests::asserts::{assert_equal, assert_equal_at};
use crate::tests::decoding::{either_file, stripped};
use hunk_words::{FromWrite, LongWriter, WriteFault};
use std::alloc::Global;
use std::process::Abort;
use std::test::Fail;
use test_helpers::{Narrow, WIDTH, examples, spelled};

type Writer = LongWriter<FromWrite<Vec<u8>>>;

/// What is written of the file that the bytes are, or begin with.
pub(super) fn written(rt: &impl Abort, alloc: Global, bytes: &[u8], strip: bool) -> Vec<u8> {
    let mut writer: Writer = LongWriter::new(FromWrite::new(Vec::new(alloc)));
    let file = either_file(rt, alloc, bytes);
    let file = if strip { stripped(file) } else { file };
    assert_equal(rt, file.encode(&mut writer), Ok(()));
    writer.into_inner().into_inner()
}

/// Sees that the file is written as it is, and so once it was stripped.
pub(super) fn expect(rt: &impl Abort, alloc: Global, bytes: &[u8], left: &[u8]) {
    assert!(rt; written(rt, alloc, bytes, false).as_slice() == bytes);
    assert!(rt; written(rt, alloc, bytes, true).as_slice() == left);
}

/// Each text with what is left of it by `strip`: examples 18, 19, 37 and 44, and files with a block of each kind that
/// goes.
const TEXTS: &[(&str, &str)] = &[
    (examples::WITH_A_SYMBOL, examples::ONE_HUNK),
    (examples::WITH_AN_ADVISORY, examples::ONE_HUNK),
    (examples::RELOCATED_AFTER_SYMBOLS, examples::RELOCATED_ALONE),
    (
        examples::OBJECT_WITH_AN_ADVISORY,
        examples::OBJECT_WITHOUT_IT,
    ),
    (
        "3F3 0 2 0 1 C0000002 10004 1 / 3E8 0 / 3E9 2 4E714E71 4E754E71 / 3F1 0 / \
            3EC 1 0 0 1 0 4 0 / 3F2 / 3EB 1 / 3F2",
        "3F3 0 2 0 1 C0000002 10004 1 / 3E9 2 4E714E71 4E754E71 / 3EC 1 0 0 1 0 4 0 / 3F2 / 3EB 1 / 3F2",
    ),
    (
        "3E7 1 61000000 / 3E8 1 62000000 / 800003EA C0000001 7 / 3F0 1 5F6D0000 0 0 / \
            3EC 1 0 0 0 / 3F1 1 3F2 / 400003F2",
        "3E7 1 61000000 / 800003EA C0000001 7 / 3EC 1 0 0 0 / 400003F2",
    ),
];

#[test]
fn whole_and_stripped(rt: HostRuntime) -> Result<(), Fail> {
    for (text, left) in TEXTS {
        let (bytes, left) = (spelled(rt.alloc(), text)?, spelled(rt.alloc(), left)?);
        expect(&rt, rt.alloc(), &bytes, &left);
    }
    Ok(())
}

/// What is answered where a writer takes six bytes of the file and then fails.
fn stopped(rt: &impl Abort, alloc: Global, bytes: &[u8]) -> Result<(), WriteFault> {
    let mut writer = LongWriter::new(FromWrite::new(Narrow::new(6, WIDTH, false)));
    let answer = either_file(rt, alloc, bytes).encode(&mut writer);
    let narrow = writer.into_inner().into_inner();
    assert_equal(rt, Some(narrow.taken()), bytes.get(..6));
    answer
}

/// Example 27, and the same of an object file.
#[test]
fn stops_within(rt: HostRuntime) -> Result<(), Fail> {
    let fault = Err(WriteFault { written: 6 });
    for text in [examples::ONE_HUNK, examples::OBJECT] {
        let bytes = spelled(rt.alloc(), text)?;
        assert_equal_at(&rt, stopped(&rt, rt.alloc(), &bytes), fault, text);
    }
    Ok(())
}
