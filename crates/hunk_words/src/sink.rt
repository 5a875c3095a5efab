//! What bytes are pushed to.
ghost use Rattle.std.specs.Prelude.{◌≡◌, ◌<◌, ◌≤◌, ◌||◌, None, Some, length, is_err, is_some, IfOk};
ghost use Rattle.std.specs.Io.KnownBytes.{WriteAppends};
ghost use Rattle.hunk_words.specs.Carriers.{Outlet};

use crate::source::Failed;
use std::io::Write;
use std::marker::Model;
use std::{fmt, io};

/// What bytes are pushed to.
///
/// Contracts see its `outlet`: `taken`, the bytes that it has, those that it had before any push
/// among them, where that is known, and `failed`, whether a push has answered an `Err`: that sets
/// it, and nothing else does, for good.
pub trait Sink {
    ghost outlet: { Self → Outlet };

    /// Takes a first part of the bytes and gives the number of its bytes.
    ///
    /// Of a non-empty slice it is at least 1.
    ///
    /// # Errors
    ///
    /// `Failed` where the bytes could not be written. Nothing is taken then.
    fn push(&mut self, bytes: &[u8]) -> Result<usize, Failed>
        ensures inside { IfOk result (λ n. n ≤ length bytes.now) }
        ensures positive { 0 < length bytes.now → IfOk result (λ n. 0 < n) }
        ensures bytes { WriteAppends (outlet self.old).taken (outlet self.new).taken result bytes.now }
        ensures fails { (outlet self.new).failed ≡ ((outlet self.old).failed || is_err result) };
}

/// A sink over any writer. Each error of the writer, and a write that takes none of a non-empty
/// slice, is `Failed`, and the last one is kept.
#[derive(Drop)]
pub struct FromWrite<W> {
    writer: W,
    error: Option<io::Error>,
}

impl<W> Model for FromWrite<W> {
    ghost use Rattle.hunk_words.specs.Carriers.{Carrying};

    ghost Value = { Carrying W };

    ghost view = { λ s. record { writer = s.writer; error = s.error } };
}

impl<W> fmt::Debug for FromWrite<W> {
    fn fmt<F: fmt::Write>(&self, f: &mut fmt::Formatter<F>) -> fmt::Result {
        f.debug_struct("FromWrite")
            .field("error", &self.error)
            .finish_non_exhaustive()
    }
}

impl<W: Write> FromWrite<W> {
    /// A sink over this writer that has not failed.
    pub fn new(writer: W) -> FromWrite<W>
        ensures holds { result.writer ≡ writer }
        ensures fresh { result.error ≡ None }
    {
        FromWrite {
            writer,
            error: None,
        }
    }

    /// The last error of the writer, `WriteZero` where it took none: none where no push has failed.
    pub fn error(&self) -> Option<io::Error>
        ensures { result ≡ self.now.error }
    {
        self.error
    }

    /// Keeps the error of a push.
    #[inline(never)]
    fn keep(&mut self, error: io::Error) -> Failed
        ensures { self.new ≡ record { writer = self.old.writer; error = Some error } }
    {
        self.error = Some(error);
        Failed
    }

    /// Hands the writer back, as the pushes have left it.
    pub fn into_inner(self) -> W
        ensures { result ≡ self.writer }
    {
        let FromWrite { writer, error: _ } = self;
        writer
    }
}

impl<W: Write> Sink for FromWrite<W> {
    ghost outlet = { λ s. record { taken = W.contents s.writer; failed = is_some s.error } };

    fn push(&mut self, bytes: &[u8]) -> Result<usize, Failed> {
        match self.writer.write(bytes) {
            Ok(0) if !bytes.is_empty() => {
                Err(self.keep(io::Error::from(io::ErrorKind::WriteZero)))
            }
            Ok(n) => Ok(n),
            Err(error) => Err(self.keep(error)),
        }
    }
}

impl<S: Sink> Sink for &mut S {
    ghost outlet = { λ s. S.outlet s.now };

    fn push(&mut self, bytes: &[u8]) -> Result<usize, Failed> {
        (**self).push(bytes)
    }
}
