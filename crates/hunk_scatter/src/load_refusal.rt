//! Why a load fails, and where in the file.
ghost use Rattle.std.specs.Prelude.{◌≡◌, ℕ, List, Some};
ghost use Rattle.hunk_words.specs.FaultLines.{refusal_line};
ghost use Rattle.hunk_scatter.specs.LoadRefusals.{IsFaultIn, NamesPart, fault_of};

use hunk_files::{Part, Refusal};
use hunk_words::{Class, LoadFault};
use std::error::Error;
use std::fmt;

/// Why a load fails. It is displayed as its fault is.
#[derive(Clone, Copy, Debug, PartialEq, Eq)]
pub enum LoadRefusal {
    /// The file is refused, in this part.
    Judged(Refusal),
    /// The file was not judged, which the class of the fault says.
    NotJudged(LoadFault),
}

impl LoadRefusal {
    /// The refusal for a fault in this part.
    pub(crate) fn in_part(fault: LoadFault, part: Part) -> LoadRefusal
        ensures fault { fault_of result ≡ fault }
        ensures names { (given : List ℕ) → IsFaultIn given part fault → NamesPart given result }
    {
        match fault.class() {
            Class::NotJudged => LoadRefusal::NotJudged(fault),
            _ => LoadRefusal::Judged(Refusal { fault, part }),
        }
    }

    /// The place and the reason.
    pub fn fault(&self) -> LoadFault
        ensures { result ≡ fault_of self.now }
    {
        match self {
            LoadRefusal::Judged(refusal) => refusal.fault,
            LoadRefusal::NotJudged(fault) => *fault,
        }
    }
}

impl fmt::Display for LoadRefusal {
    ghost output = { λ refusal. Some (refusal_line (fault_of refusal)) };

    fn fmt<W: fmt::Write>(&self, f: &mut fmt::Formatter<W>) -> fmt::Result {
        write!(f, "{}", self.fault())
    }
}

impl Error for LoadRefusal {}
