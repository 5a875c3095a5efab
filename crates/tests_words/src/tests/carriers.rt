//! Sources and sinks over readers and writers, and over references to them.

use crate::tests::asserts::assert_equal;
use hunk_words::{Failed, FromRead, FromSlice, FromWrite, LongWriter, Sink, Source, WriteFault};
use std::io;
use std::io::Write;
use std::process::Abort;
use std::test::Fail;
use test_helpers::Interrupted;

/// A writer that takes a byte a write. One of its writes fails, or takes none, and those after it go on.
#[derive(Drop)]
struct Stumbles {
    writes: usize,
    stumbles_at: usize,
    takes_none: bool,
}

impl Stumbles {
    /// The first write is number 1.
    fn at(write: usize, takes_none: bool) -> Stumbles {
        Stumbles {
            writes: 0,
            stumbles_at: write,
            takes_none,
        }
    }
}

impl Write for Stumbles {
    fn write(&mut self, buf: &[u8]) -> io::Result<usize> {
        self.writes = self.writes.wrapping_add(1);
        if self.writes != self.stumbles_at {
            return Ok(buf.len().min(1));
        }
        if self.takes_none {
            return Ok(0);
        }
        Err(io::Error::from(io::ErrorKind::Interrupted))
    }

    fn flush(&mut self) -> io::Result<()> {
        Ok(())
    }
}

/// The kind of the error, if there is one.
fn kind_of(error: Option<io::Error>) -> Option<io::ErrorKind> {
    match error {
        Some(error) => Some(error.kind()),
        None => None,
    }
}

#[test]
fn a_push_writes_once(rt: HostRuntime) -> Result<(), Fail> {
    let mut sink = FromWrite::new(Stumbles::at(2, false));
    assert_equal(&rt, sink.push(b"abc".as_slice()), Ok(1));
    assert_equal(&rt, sink.into_inner().writes, 1);
    let mut out = LongWriter::new(FromWrite::new(Stumbles::at(2, false)));
    let fault = WriteFault { written: 1 };
    assert_equal(&rt, out.put_bytes(b"abc".as_slice()), Err(fault));
    assert_equal(&rt, out.put_bytes(b"d".as_slice()), Err(fault));
    assert_equal(&rt, out.into_inner().into_inner().writes, 2);
    Ok(())
}

/// Sees that a writer's second write fails the push, that this is the error which is kept, and that it is not made
/// again.
fn expect_kept(rt: &impl Abort, takes_none: bool, kind: io::ErrorKind) {
    let mut sink = FromWrite::new(Stumbles::at(2, takes_none));
    assert_equal(rt, sink.push(b"ab".as_slice()), Ok(1));
    assert_equal(rt, kind_of(sink.error()), None);
    assert_equal(rt, sink.push(b"b".as_slice()), Err(Failed));
    assert_equal(rt, kind_of(sink.error()), Some(kind));
    assert_equal(rt, sink.into_inner().writes, 2);
}

#[test]
fn errors_of_writers(rt: HostRuntime) -> Result<(), Fail> {
    expect_kept(&rt, false, io::ErrorKind::Interrupted);
    expect_kept(&rt, true, io::ErrorKind::WriteZero);
    let mut sink = FromWrite::new(Stumbles::at(1, true));
    assert_equal(&rt, (&mut sink).push(b"".as_slice()), Ok(0));
    Ok(())
}

#[test]
fn errors_of_readers(rt: HostRuntime) -> Result<(), Fail> {
    let mut buf = [0u8; 3];
    let mut source = FromRead::new(Interrupted::new(b"abc".as_slice(), 1));
    assert_equal(&rt, source.pull(&mut buf), Ok(1));
    assert_equal(&rt, kind_of(source.error()), None);
    assert_equal(&rt, source.pull(&mut buf), Err(Failed));
    let kind = kind_of(source.error());
    assert_equal(&rt, kind, Some(io::ErrorKind::Interrupted));
    Ok(())
}

#[test]
fn pulls(rt: HostRuntime) -> Result<(), Fail> {
    let mut source = FromRead::new(b"abcde".as_slice());
    let mut buf = [0u8; 3];
    assert_equal(&rt, source.pull(&mut buf), Ok(3));
    assert_equal(&rt, &buf, b"abc");
    assert_equal(&rt, source.pull(&mut buf), Ok(2));
    assert_equal(&rt, &buf[..2], b"de".as_slice());
    assert_equal(&rt, source.pull(&mut buf), Ok(0));
    assert_equal(&rt, source.into_inner(), b"".as_slice());
    let mut source = FromSlice::new(b"abcde".as_slice());
    assert_equal(&rt, (&mut source).pull(&mut buf), Ok(3));
    assert_equal(&rt, source.pull(&mut buf), Ok(2));
    assert_equal(&rt, source.pull(&mut buf), Ok(0));
    Ok(())
}

/// What is held is what is pulled next. A reader without a buffer holds nothing.
#[test]
fn lends(rt: HostRuntime) -> Result<(), Fail> {
    let mut buf = [0u8; 2];
    let mut source = FromRead::new(b"abcde".as_slice());
    assert_equal(&rt, source.pull(&mut buf), Ok(2));
    assert_equal(&rt, source.held(), b"".as_slice());
    let mut source = FromRead::buffered(rt.alloc(), b"abcde".as_slice())?;
    assert_equal(&rt, source.held(), b"".as_slice());
    assert_equal(&rt, source.pull(&mut buf), Ok(2));
    assert_equal(&rt, source.held(), b"cde".as_slice());
    assert!(rt; !source.held().is_empty());
    source.consume(1);
    assert_equal(&rt, source.pull(&mut buf), Ok(2));
    assert_equal(&rt, &buf, b"de");
    assert_equal(&rt, source.into_inner(), b"".as_slice());
    let mut source = FromSlice::new(b"abcde".as_slice());
    (&mut source).consume(2);
    assert_equal(&rt, source.held(), b"cde".as_slice());
    Ok(())
}
