//! The writer of longwords.
ghost use Rattle.std.specs.Prelude.{◌≡◌, ◌+◌, [], ◌∷◌, false, OnOk, Some};
ghost use Rattle.hunk_words.specs.Carriers.{saturated};
ghost use Rattle.hunk_words.specs.FaultLines.{write_line};
ghost use Rattle.hunk_words.specs.Puts.{PutsText};
ghost use Rattle.hunk_words.specs.Longs.{bytes_of};

use crate::history::History;
use crate::sink::Sink;
use std::error::Error;
use std::fmt;
use std::marker::Model;

/// Says that a put failed, and how many bytes have gone out since the writer was made.
#[derive(Clone, Copy, Debug, PartialEq, Eq)]
pub struct WriteFault {
    /// The bytes that have gone out: the first of all that was put. 2^64 - 1 where there are more.
    pub written: u64,
}

impl fmt::Display for WriteFault {
    ghost output = { λ fault. Some (write_line fault) };

    fn fmt<W: fmt::Write>(&self, f: &mut fmt::Formatter<W>) -> fmt::Result {
        write!(f, "writing failed after {} bytes", self.written)
    }
}

impl Error for WriteFault {}

/// A writer of longwords over a sink, which counts the bytes that have gone out.
///
/// A failure is not retried: after a put that failed, each later put writes nothing and answers the
/// same fault. Contracts see the number of bytes itself, which the count is up to 2^64 - 1.
#[derive(Drop)]
pub struct LongWriter<W: Sink> {
    sink: W,
    written: u64,
    stopped: bool,
    history: History,
}

impl<W: Sink> Model for LongWriter<W> {
    ghost use Rattle.std.specs.Prelude.{◌≡◌, true, length};
    ghost use Rattle.hunk_words.specs.Carriers.{Writing, saturated};

    ghost Value = { Writing W };

    ghost view = { λ s. record {
      sink = s.sink;
      written = length s.history.bytes;
      stopped = s.stopped;
    } };

    ghost invariant = { λ s. (s.stopped ≡ true → (W.outlet s.sink).failed ≡ true)
        × (s.written ≡ saturated (length s.history.bytes)) };
}

impl<W: Sink> fmt::Debug for LongWriter<W> {
    fn fmt<F: fmt::Write>(&self, f: &mut fmt::Formatter<F>) -> fmt::Result {
        f.debug_struct("LongWriter")
            .field("written", &self.written)
            .field("stopped", &self.stopped)
            .finish_non_exhaustive()
    }
}

impl<W: Sink> LongWriter<W> {
    /// A writer that has written nothing yet.
    pub fn new(sink: W) -> LongWriter<W>
        ensures holds { result.sink ≡ sink }
        ensures unwritten { result.written ≡ 0 }
        ensures unstopped { result.stopped ≡ false }
    {
        LongWriter {
            sink,
            written: 0,
            stopped: false,
            history: History::new(),
        }
    }

    /// How many bytes have gone out since the writer was made, or 2^64 - 1 where these are more.
    pub fn written(&self) -> u64
        ensures { result ≡ saturated self.now.written }
    {
        self.written
    }

    /// Hands the sink back, as the puts have left it.
    pub fn into_inner(self) -> W
        ensures { result ≡ self.sink }
    {
        let LongWriter {
            sink,
            written: _,
            stopped: _,
            history: _,
        } = self;
        sink
    }

    /// Writes the bytes.
    ///
    /// # Errors
    ///
    /// A `WriteFault` where the sink failed, now or before: just the first `written` bytes of all
    /// that was ever put have gone out. Each later put writes nothing, and answers the same.
    pub fn put_bytes(&mut self, bytes: &[u8]) -> Result<(), WriteFault>
        ensures { PutsText W.outlet self.old self.new bytes.now result }
    {
        if self.stopped {
            return Err(WriteFault {
                written: self.written,
            });
        }
        let mut rest = bytes;
        while !rest.is_empty() {
            match self.sink.push(rest) {
                Ok(n) => {
                    self.written = self.written.saturating_add(n as u64);
                    self.history = self.history.and(&rest[..n]);
                    rest = &rest[n..];
                }
                Err(_) => {
                    self.stopped = true;
                    return Err(WriteFault {
                        written: self.written,
                    });
                }
            }
        }
        Ok(())
    }

    /// Writes the longword, high byte first.
    ///
    /// # Errors
    ///
    /// A `WriteFault`, as at `put_bytes`.
    #[tactic(auto, unfolding(crate::specs::Longs::bytes_of))]
    pub fn put_long(&mut self, word: u32) -> Result<(), WriteFault>
        ensures puts { PutsText W.outlet self.old self.new (bytes_of (word ∷ [])) result }
        ensures written { OnOk result (self.new.written ≡ self.old.written + 4) }
    {
        self.put_bytes(word.to_be_bytes().as_slice())
    }
}
