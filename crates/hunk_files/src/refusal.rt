//! Why a file is refused, and where.
ghost use Rattle.std.specs.Prelude.{◌≡◌, Some};
ghost use Rattle.hunk_words.specs.FaultLines.{refusal_line};

use crate::part::Part;
use hunk_words::FileFault;
use std::error::Error;
use std::fmt;

/// Why a file is refused, and the part of it that this is in. It is displayed as its fault is.
#[derive(Clone, Copy, Debug, PartialEq, Eq)]
pub struct Refusal {
    /// The place and the reason.
    pub fault: FileFault,
    /// The part that the longword at the place is of; for `Truncated`, the one that would come
    /// next.
    pub part: Part,
}

impl fmt::Display for Refusal {
    ghost output = { λ refusal. Some (refusal_line refusal.fault) };

    fn fmt<W: fmt::Write>(&self, f: &mut fmt::Formatter<W>) -> fmt::Result {
        write!(f, "{}", self.fault)
    }
}

impl Error for Refusal {}

impl From<Refusal> for FileFault {
    ghost from_gives = { λ refusal fault. fault ≡ refusal.fault };

    fn from(refusal: Refusal) -> FileFault {
        refusal.fault
    }
}
