//! Each load file whole, and what each is to be answered with.

use crate::tests::asserts::{assert_equal, assert_equal_at};
use crate::tests::expect_text;
use crate::tests::readings::agrees;
use crate::tests::writes::is_written;
use hunk_files::LoadFile;
use hunk_vectors::{LOAD_TEXTS, VECTORS, Vector, Want, bytes};
use std::alloc::Global;
use std::process::Abort;
use std::test::Fail;

/// What the decoder of whole files answers.
fn answer(alloc: Global, bytes: &[u8]) -> Want {
    match LoadFile::decode(alloc, bytes) {
        Ok((file, _)) => Want::Accepted {
            hunks: file.hunks(),
            bytes: file.total(),
        },
        Err(fault) => Want::Refused {
            place: fault.place,
            number: fault.reason.number(),
        },
    }
}

/// The example that has bytes after the file, and how many these are.
const FOLLOWED: (u32, usize) = (10, 7);

/// Sees that the file of this number in the table has this text and these bytes, that the decoder answers what the
/// table says, that a load agrees with it, and that an accepted file is written again.
fn expect(
    rt: &impl Abort,
    alloc: Global,
    table: &[Vector],
    i: usize,
    text: &str,
    bytes: &[u8],
) -> Result<(), Fail> {
    let Some(vector) = table.get(i) else {
        panic!(rt; "no {i}");
    };
    expect_text(rt, vector.text, text, bytes);
    assert_equal_at(rt, answer(alloc, bytes), vector.want, i);
    assert!(rt; agrees(alloc, bytes, bytes.len())?, "{i}");
    if let Want::Accepted { .. } = vector.want {
        let (row, count) = FOLLOWED;
        let after = if vector.row == row { count } else { 0 };
        assert!(rt; is_written(alloc, bytes, after), "{i}");
    }
    Ok(())
}

#[test]
fn answers(rt: HostRuntime) -> Result<(), Fail> {
    assert_equal(&rt, VECTORS.len(), LOAD_TEXTS.len());
    for i in 0..LOAD_TEXTS.len() {
        let bytes = bytes(rt.alloc(), i)?;
        expect(&rt, rt.alloc(), &VECTORS, i, LOAD_TEXTS[i], &bytes)?;
    }
    Ok(())
}
