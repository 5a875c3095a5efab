//! Where an input is refused, and why.
ghost use Rattle.std.specs.Prelude.{Some};
ghost use Rattle.hunk_words.specs.FaultLines.{refusal_line};

use crate::reason::Reason;
use std::error::Error;
use std::fmt;

/// A refusal.
///
/// `place` is the byte, counted from the start of the input, of the longword that is refused. For
/// `Truncated` it is 4 times the number of whole longwords, for `FileLimit` the limit, for `Read`
/// the number of bytes that came before, and for `NoBase` the length of the header. For
/// `OutOfMemory` it is that of the longword that completes what was to be kept, or the length of
/// the header where a load is refused the memory of its segments.
#[derive(Clone, Copy, Debug, PartialEq, Eq)]
pub struct Fault {
    /// The byte at which it is refused, counted from the start of the input.
    pub place: u64,
    /// Why it is refused.
    pub reason: Reason,
}

/// A refusal of a single block. The place counts from the block's first byte.
pub type BlockFault = Fault;

/// A refusal of a whole file.
pub type FileFault = Fault;

/// A refusal of a file that is loaded as it comes.
pub type LoadFault = Fault;

impl fmt::Display for Fault {
    ghost output = { λ fault. Some (refusal_line fault) };

    fn fmt<W: fmt::Write>(&self, f: &mut fmt::Formatter<W>) -> fmt::Result {
        write!(f, "refused at byte {}: {}", self.place, self.reason)
    }
}

impl Error for Fault {}
