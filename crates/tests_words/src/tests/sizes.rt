//! Pulls and pushes of all sizes, of a reader and a writer that never fail: no size is refused.

use crate::tests::asserts::assert_equal;
use hunk_words::{Failed, FromRead, FromWrite, Sink, Source};
use std::io;
use std::process::Abort;
use std::test::Fail;

/// A MiB.
const MOST: usize = 1 << 20;

/// Sizes above 300, to which all are tried.
const SIZES: &[usize] = &[32_768, 65_536, 131_072, 131_073, MOST];

/// Sees that a pull and a push of these bytes move all of them, that a pull at the end gives none, and that none of the
/// three is an error.
fn moves_all(rt: &impl Abort, bytes: &[u8], buf: &mut [u8]) {
    let mut source = FromRead::new(bytes);
    let mut sink = FromWrite::new(io::sink());
    let all: Result<usize, Failed> = Ok(bytes.len());
    let moved = (source.pull(buf), source.pull(buf), sink.push(bytes));
    assert_equal(rt, moved, (all, Ok(0), all));
    assert!(rt; source.error().is_none() && sink.error().is_none());
}

#[test]
fn every_size_is_moved(rt: HostRuntime) -> Result<(), Fail> {
    let bytes = vec![in rt.alloc(); 0x4Eu8; MOST]?;
    let mut buf = vec![in rt.alloc(); 0u8; MOST]?;
    for size in (0..=300usize).chain(SIZES.iter().copied()) {
        let (front, _) = bytes.split_at(size.min(bytes.len()));
        let room = size.min(buf.len());
        moves_all(&rt, front, &mut buf[..room]);
    }
    Ok(())
}
