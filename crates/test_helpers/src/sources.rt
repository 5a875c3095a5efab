//! Sources that give few bytes at a time, fail, are interrupted, or never end.
ghost use Rattle.std.specs.Prelude.{◌≤◌, [], None, length};

use hunk_words::{Failed, Source};
use std::io;
use std::io::Read;

/// Moves the first bytes to the buffer, at most this many, and tells how many they are.
fn give(rest: &mut &[u8], buf: &mut [u8], most: usize) -> usize
    ensures { result ≤ length buf.new }
{
    let count = buf.len().min(rest.len()).min(most);
    let (front, after) = rest.split_at(count);
    buf[..count].copy_from_slice(front);
    *rest = after;
    count
}

/// Gives these bytes, one a read; after this many of them one read fails, and those after it go on.
#[derive(Drop)]
pub struct FailsOnce<'a> {
    rest: &'a [u8],
    given: usize,
    fails_at: usize,
    failed: bool,
}

impl<'a> FailsOnce<'a> {
    pub fn new(bytes: &'a [u8], fails_at: usize) -> FailsOnce<'a> {
        FailsOnce {
            rest: bytes,
            given: 0,
            fails_at,
            failed: false,
        }
    }

    /// How many bytes it has given.
    pub fn given(&self) -> usize {
        self.given
    }

    /// Whether the read that fails was made.
    pub fn has_failed(&self) -> bool {
        self.failed
    }
}

impl Source for FailsOnce<'_> {
    ghost supply = { λ s. record { left = None; failed = s.failed } };

    ghost shown = { λ _. [] };

    fn pull(&mut self, buf: &mut [u8]) -> Result<usize, Failed> {
        if self.given == self.fails_at && !self.failed {
            self.failed = true;
            return Err(Failed);
        }
        let count = give(&mut self.rest, buf, 1);
        self.given = self.given.wrapping_add(count);
        Ok(count)
    }

    fn held(&self) -> &[u8] {
        &[]
    }

    fn consume(&mut self, _count: usize) {}
}

/// Reads these bytes, one a read; after this many of them one read is interrupted, and those after it go on.
#[derive(Drop)]
pub struct Interrupted<'a> {
    rest: &'a [u8],
    before: usize,
    is_over: bool,
}

impl<'a> Interrupted<'a> {
    pub fn new(bytes: &'a [u8], before: usize) -> Interrupted<'a> {
        Interrupted {
            rest: bytes,
            before,
            is_over: false,
        }
    }
}

impl Read for Interrupted<'_> {
    fn read(&mut self, buf: &mut [u8]) -> io::Result<usize> {
        if self.before == 0 && !self.is_over {
            self.is_over = true;
            return Err(io::Error::from(io::ErrorKind::Interrupted));
        }
        let count = give(&mut self.rest, buf, 1);
        self.before = self.before.saturating_sub(count);
        Ok(count)
    }
}

/// What comes after the bytes of a `Fed`.
#[derive(Clone, Copy, Debug, PartialEq)]
pub enum Then {
    Ends,
    Fails,
    /// `3F1 0` again and again: empty DEBUG blocks.
    Repeats,
}

/// Gives these bytes in pieces, and then what comes after them.
#[derive(Drop)]
pub struct Fed<'a> {
    rest: &'a [u8],
    cut: usize,
    most: usize,
    then: Then,
    reads: u64,
    given: usize,
    repeated: usize,
    failed: bool,
}

impl<'a> Fed<'a> {
    /// At most this many bytes a read.
    pub fn new(bytes: &'a [u8], most: usize, then: Then) -> Fed<'a> {
        Fed {
            rest: bytes,
            cut: 0,
            most,
            then,
            reads: 0,
            given: 0,
            repeated: 0,
            failed: false,
        }
    }

    /// No read passes this cut.
    pub fn in_two(bytes: &'a [u8], cut: usize) -> Fed<'a> {
        let mut fed = Fed::new(bytes, usize::MAX, Then::Ends);
        fed.cut = cut;
        fed
    }

    /// The bytes that it has not given.
    pub fn rest(&self) -> &'a [u8] {
        self.rest
    }

    /// How many bytes it has given, with those that come after its own.
    pub fn given(&self) -> usize {
        self.given.wrapping_add(self.repeated)
    }

    /// How many reads were made.
    pub fn reads(&self) -> u64 {
        self.reads
    }
}

/// Goes on with `3F1 0` after this many bytes of it, and tells how many bytes there are then.
fn repeat(from: usize, buf: &mut [u8]) -> usize {
    let mut at = from;
    for byte in buf {
        *byte = match at % 8 {
            2 => 3,
            3 => 0xF1,
            _ => 0,
        };
        at = at.wrapping_add(1);
    }
    at
}

impl Source for Fed<'_> {
    ghost supply = { λ s. record { left = None; failed = s.failed } };

    ghost shown = { λ _. [] };

    fn pull(&mut self, buf: &mut [u8]) -> Result<usize, Failed> {
        self.reads = self.reads.wrapping_add(1);
        if self.rest.is_empty() {
            return match self.then {
                Then::Ends => Ok(0),
                Then::Fails => {
                    self.failed = true;
                    Err(Failed)
                }
                Then::Repeats => {
                    self.repeated = repeat(self.repeated, buf);
                    Ok(buf.len())
                }
            };
        }
        let most = if self.cut > 0 { self.cut } else { self.most };
        let count = give(&mut self.rest, buf, most.max(1));
        self.cut = self.cut.saturating_sub(count);
        self.given = self.given.wrapping_add(count);
        Ok(count)
    }

    fn held(&self) -> &[u8] {
        &[]
    }

    fn consume(&mut self, _count: usize) {}
}
