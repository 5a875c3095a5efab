//! What a run says of a refused file.
ghost use Rattle.std.specs.Prelude.{◌≡◌, Some};
ghost use Rattle.hunk_run.specs.Notes.{hint_of, verdict_line};

use hunk_files::{Part, Refusal};
use hunk_words::{Class, Fault, Reason};
use std::fmt;

/// A refusal and the part of the file that it is in, where one is known.
///
/// It is displayed as its class, unless the file is not judged, its part and what its reason means:
/// `damaged in hunk 3: a relocated longword runs past the end of its hunk`.
#[derive(Clone, Copy)]
pub(crate) struct Verdict {
    /// The refusal.
    pub refusal: Fault,
    /// The part of the file.
    pub part: Option<Part>,
}

impl fmt::Display for Verdict {
    ghost output = { λ verdict. Some (verdict_line verdict) };

    fn fmt<W: fmt::Write>(&self, f: &mut fmt::Formatter<W>) -> fmt::Result {
        let class = self.refusal.class();
        let meaning = self.refusal.reason.meaning();
        match (class, self.part) {
            (Class::NotJudged, _) => write!(f, "{meaning}"),
            (Class::NoHunkFile, _) | (_, None) => write!(f, "{class}: {meaning}"),
            (_, Some(part)) => write!(f, "{class} in {part}: {meaning}"),
        }
    }
}

/// What may help with a refusal. Of a type of block that is not known: which are PowerPC code. Of an
/// input that ends at its start: how few bytes it has. Where the order has no such flag, what
/// `--wide` can do: about short relocations of any file, and about an END that may be missing in a
/// hunk of a load file.
pub(crate) fn hint(refusal: Refusal, wide: bool) -> &'static str
    ensures { result.now ≡ hint_of refusal wide }
{
    match (refusal.part, refusal.fault.reason) {
        (_, Reason::UnknownBlock) => {
            "; if it is 4E9 or 4EA, this is a program with PowerPC code, which is not supported"
        }
        (_, Reason::Truncated) if refusal.fault.place == 0 => {
            "; it is empty, or has fewer than 4 bytes"
        }
        _ if wide => "",
        (_, Reason::ShortReloc) => "; --wide reads such blocks",
        (Part::Hunk { .. }, Reason::SecondContent) => {
            "; --wide reads it, if only the END before it is missing"
        }
        (Part::Hunk { .. }, Reason::Truncated) => {
            "; --wide reads it, if only the last END is missing"
        }
        _ => "",
    }
}
