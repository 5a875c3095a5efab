//! Wide spellings, read as the plain ones in each way.

mod suite;

use crate::tests::asserts::assert_equal_at;
use hunk_wide::{Expander, Plain, spelling_of, write_plain};
use hunk_words::{Failed, Source};
use std::alloc::{AllocError, Global};
use std::fmt::Debug;
use std::process::Abort;
use std::test::Fail;
use test_helpers::{Fed, Then};

/// What a pull into the first bytes of the buffer answers. Proofs of its callers are short, since it promises little.
fn pulled<R: Source>(source: &mut R, buf: &mut [u8], size: usize) -> Result<usize, Failed> {
    let most = size.min(buf.len());
    source.pull(&mut buf[..most])
}

/// What so many pulls of at most `size` bytes give.
fn read_by<R: Source + Drop>(
    alloc: Global,
    mut source: R,
    pulls: usize,
    size: usize,
) -> Result<Vec<u8>, Fail> {
    let mut bytes = Vec::new(alloc);
    let mut buf = [0; 64];
    for _ in 0..pulls {
        let count = pulled(&mut source, &mut buf, size)?;
        bytes.extend_from_slice(&buf[..count.min(64)])?;
    }
    Ok(bytes)
}

/// What is given out for a byte, or for none where no more come.
fn push_given(
    held: &mut Expander,
    byte: Option<u8>,
    plain: &mut Vec<u8>,
) -> Result<(), AllocError> {
    let mut buf = [0; 8];
    match byte {
        Some(byte) if held.want() > 0 => held.take(&[byte]),
        Some(byte) => plain.push(byte)?,
        None if held.is_empty() => held.end(),
        None => {}
    }
    let count = held.give(&mut buf);
    plain.extend_from_slice(&buf[..count])?;
    Ok(())
}

/// The plain spelling by an `Expander`, to which one byte is pushed at a time.
fn expanded(alloc: Global, wide: &[u8]) -> Result<Vec<u8>, AllocError> {
    let mut plain = Vec::new(alloc);
    let mut held = Expander::new();
    for byte in wide {
        push_given(&mut held, Some(*byte), &mut plain)?;
    }
    push_given(&mut held, None, &mut plain)?;
    Ok(plain)
}

/// The plain spelling as it is written where there is room for so many bytes, or nothing for want of room. What follows
/// it has to stay.
fn written(alloc: Global, wide: &[u8], room: usize) -> Result<Option<Vec<u8>>, AllocError> {
    let mut out = Vec::new(alloc);
    for _ in 0..room {
        out.push(0xA5)?;
    }
    let Ok(count) = write_plain(wide, &mut out) else {
        return Ok(None);
    };
    for i in count..out.len() {
        out[i] ^= 0xA5;
    }
    Ok(Some(out))
}

/// Sees that it is written where there is just room, and not where there is a byte less.
fn expect_written<C: Copy + Debug + Drop>(
    rt: &impl Abort,
    alloc: Global,
    wide: &[u8],
    plain: &[u8],
    case: C,
) -> Result<(), Fail> {
    let size = plain.len();
    assert_equal_at(rt, spelling_of(wide).len, size as u64, (case, "length"));
    let got = written(alloc, wide, size)?;
    assert_equal_at(rt, got.as_deref(), Some(plain), (case, "written"));
    if size > 0 {
        let lacks = written(alloc, wide, size - 1)?;
        assert_equal_at(rt, lacks.is_none(), true, (case, "no room"));
    }
    Ok(())
}

/// Sees that these bytes have that plain spelling: in pieces of 1 and of 7 bytes, pushed, and written.
///
/// One more pull than there are bytes to come sees the end.
fn expect_plain<C: Copy + Debug + Drop>(
    rt: &impl Abort,
    alloc: Global,
    wide: &[u8],
    plain: &[u8],
    case: C,
) -> Result<(), Fail> {
    let pulls = plain.len().saturating_add(1);
    for (most, size) in [(1, 64), (7, 3)] {
        let pieces = Plain::new(Fed::new(wide, most, Then::Ends));
        let got = read_by(alloc, pieces, pulls, size)?;
        assert_equal_at(rt, got.as_slice(), plain, (case, most));
    }
    let pushed = expanded(alloc, wide)?;
    assert_equal_at(rt, pushed.as_slice(), plain, (case, "pushed"));
    expect_written(rt, alloc, wide, plain, case)
}
