//! What bytes are pulled from.
ghost use Rattle.std.specs.Prelude.{◌≡◌, ◌≤◌, ℕ, false, ◌||◌, [], List, Some, None, IfOk, codes, drop, is_err, is_some};
ghost use Rattle.std.specs.Prelude.{length, take};
ghost use Rattle.std.specs.Io.KnownBytes.{Consumes, ReadConsumes};
ghost use Rattle.std.specs.Io.{ReadsAtMost};
ghost use Rattle.hunk_words.specs.Carriers.{Supply, left_of, reader_in, shown_of};
ghost use Rattle.hunk_words.specs.declared.source.Reader.TheVariants.{Plain};

use std::alloc::{AllocError, Global};
use std::error::Error;
use std::io::{BufRead, BufReader, Read};
use std::marker::Model;
use std::{fmt, io};

/// Says that a pull or a push failed.
#[derive(Clone, Copy, Debug, PartialEq, Eq)]
pub struct Failed;

impl fmt::Display for Failed {
    ghost output = { λ _. Some (codes "reading or writing failed") };

    fn fmt<W: fmt::Write>(&self, f: &mut fmt::Formatter<W>) -> fmt::Result {
        write!(f, "reading or writing failed")
    }
}

impl Error for Failed {}

/// What bytes are pulled from.
///
/// Contracts see its `supply`: `left`, the bytes that pulls will give from here on, where that is
/// known, and `failed`, whether a pull has answered an `Err`: that sets it, and nothing else does,
/// for good. They also see `shown`, the bytes that `held` shows, with which those begin.
///
/// A source that holds nothing shows no bytes, and is asked by pulls alone.
pub trait Source {
    ghost supply: { Self → Supply };

    ghost shown: { Self → List ℕ };

    /// Fills a first part of the buffer and gives the number of its bytes.
    ///
    /// It is 0 only where none is left or the buffer is empty. What the buffer has after that
    /// part, and after an `Err`, is not said.
    ///
    /// # Errors
    ///
    /// `Failed` where the bytes could not be read. Nothing is consumed then.
    fn pull(&mut self, buf: &mut [u8]) -> Result<usize, Failed>
        ensures inside { ReadsAtMost result buf.new }
        ensures bytes { ReadConsumes (supply self.old).left (supply self.new).left result buf.new }
        ensures fails { (supply self.new).failed ≡ ((supply self.old).failed || is_err result) };

    /// The bytes that are at hand: the first of those that pulls will give. There may be none,
    /// though more are left.
    fn held(&self) -> &[u8]
        ensures { result.now ≡ shown self.now };

    /// Takes the first `count` of the bytes that are at hand, as a pull that gave them would.
    fn consume(&mut self, count: usize)
        requires { count ≤ length (shown self.old) }
        ensures bytes { Consumes (supply self.old).left (supply self.new).left
            (take count (shown self.old)) }
        ensures rest { shown self.new ≡ drop count (shown self.old) }
        ensures works { (supply self.new).failed ≡ (supply self.old).failed };
}

/// A reader, with a buffer before it or without.
#[derive(Drop)]
pub enum Reader<R> {
    /// A reader that gives just what is asked for.
    Plain(R),
    /// A reader that is read ahead of, into a buffer.
    Buffered(BufReader<R>),
}

/// A source over any reader. Each error of the reader, `Interrupted` too, is `Failed`, and the last
/// one is kept.
#[derive(Drop)]
pub struct FromRead<R> {
    reader: Reader<R>,
    error: Option<io::Error>,
}

impl<R> Model for FromRead<R> {
    ghost use Rattle.hunk_words.specs.Carriers.{Reading};

    ghost Value = { Reading R };

    ghost view = { λ s. record { reader = s.reader; error = s.error } };
}

impl<R> fmt::Debug for FromRead<R> {
    fn fmt<F: fmt::Write>(&self, f: &mut fmt::Formatter<F>) -> fmt::Result {
        f.debug_struct("FromRead")
            .field("error", &self.error)
            .finish_non_exhaustive()
    }
}

impl<R: Read> FromRead<R> {
    /// A source over this reader that has not failed. Of the reader nothing is asked but what a
    /// pull asks for.
    pub fn new(reader: R) -> FromRead<R>
        ensures holds { result.reader ≡ Plain reader }
        ensures fresh { result.error ≡ None }
    {
        FromRead {
            reader: Reader::Plain(reader),
            error: None,
        }
    }

    /// A source over this reader that has not failed, with a buffer of 8 KiB: of the reader that
    /// many bytes are asked for at a time, and they are shown. So a load takes fewer steps.
    ///
    /// # Errors
    ///
    /// Where memory is refused for the buffer. The reader is dropped then.
    pub fn buffered(alloc: Global, reader: R) -> Result<FromRead<R>, AllocError>
    where
        R: Drop,
        ensures holds { IfOk result (λ source. left_of R.remaining source.reader
            ≡ R.remaining reader) }
        ensures shows_none { IfOk result (λ source. shown_of source.reader ≡ []) }
        ensures fresh { IfOk result (λ source. source.error ≡ None) }
    {
        match BufReader::new(alloc, reader) {
            Ok(reader) => Ok(FromRead {
                reader: Reader::Buffered(reader),
                error: None,
            }),
            Err(_) => Err(AllocError),
        }
    }

    /// The last error of the reader: none where no pull has failed.
    pub fn error(&self) -> Option<io::Error>
        ensures { result ≡ self.now.error }
    {
        self.error
    }

    /// Keeps the error of a pull.
    #[inline(never)]
    fn keep(&mut self, error: io::Error) -> Failed
        ensures { self.new ≡ record { reader = self.old.reader; error = Some error } }
    {
        self.error = Some(error);
        Failed
    }

    /// Hands the reader back, as the pulls have left it. What a buffer holds is lost.
    pub fn into_inner(self) -> R
        ensures { result ≡ reader_in self.reader }
    {
        let FromRead { reader, error: _ } = self;
        match reader {
            Reader::Plain(reader) => reader,
            Reader::Buffered(reader) => reader.into_inner(),
        }
    }
}

impl<R: Read> Source for FromRead<R> {
    ghost supply = { λ s. record { left = left_of R.remaining s.reader; failed = is_some s.error } };

    ghost shown = { λ s. shown_of s.reader };

    fn pull(&mut self, buf: &mut [u8]) -> Result<usize, Failed> {
        let read = match &mut self.reader {
            Reader::Plain(reader) => reader.read(buf),
            Reader::Buffered(reader) => reader.read(buf),
        };
        match read {
            Ok(n) => Ok(n),
            Err(error) => Err(self.keep(error)),
        }
    }

    fn held(&self) -> &[u8] {
        match &self.reader {
            Reader::Plain(_) => &[],
            Reader::Buffered(reader) => reader.buffer(),
        }
    }

    #[tactic(auto, using(crate::proofs::ReadAhead::consumed))]
    fn consume(&mut self, count: usize) {
        match &mut self.reader {
            Reader::Plain(_) => {}
            Reader::Buffered(reader) => reader.consume(count),
        }
    }
}

/// A source over bytes at hand, which never fails. Contracts see it as the bytes that are left.
#[derive(Debug, Drop)]
pub struct FromSlice<'a> {
    rest: &'a [u8],
}

impl<'a> Model for FromSlice<'a> {
    ghost use Rattle.std.specs.Prelude.{ℕ, List};

    ghost Value = { List ℕ };

    ghost view = { λ s. s.rest.now };
}

impl<'a> FromSlice<'a> {
    /// A source of just these bytes.
    pub fn new(bytes: &'a [u8]) -> FromSlice<'a>
        ensures { result ≡ bytes.entry.now }
    {
        FromSlice { rest: bytes }
    }
}

impl Source for FromSlice<'_> {
    ghost supply = { λ s. record { left = Some s; failed = false } };

    ghost shown = { λ s. s };

    fn pull(&mut self, buf: &mut [u8]) -> Result<usize, Failed> {
        let count = buf.len().min(self.rest.len());
        let (front, rest) = self.rest.split_at(count);
        buf[..count].copy_from_slice(front);
        self.rest = rest;
        Ok(count)
    }

    fn held(&self) -> &[u8] {
        self.rest
    }

    fn consume(&mut self, count: usize) {
        self.rest = &self.rest[count..];
    }
}

impl<S: Source> Source for &mut S {
    ghost supply = { λ s. S.supply s.now };

    ghost shown = { λ s. S.shown s.now };

    fn pull(&mut self, buf: &mut [u8]) -> Result<usize, Failed> {
        (**self).pull(buf)
    }

    fn held(&self) -> &[u8] {
        (**self).held()
    }

    fn consume(&mut self, count: usize) {
        (**self).consume(count);
    }
}
