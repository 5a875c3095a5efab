//! Why a run failed: the status that it ends with and the line that it prints.
ghost use Rattle.std.specs.Prelude.{◌≡◌, ◌<◌, ◌≤◌, ◌++◌, Some, codes, decimal};
ghost use Rattle.hunk_words.specs.FaultLines.{hunk_suffix, reason_line, refusal_line};
ghost use Rattle.hunk_words.specs.Prints.{Prints};
ghost use Rattle.hunk_commands.specs.Faults.{line_of, load_refused, refused_as, status_of};
ghost use Rattle.hunk_commands.specs.declared.fault.RunFault.TheVariants.{Memory, Write};

use hunk_files::Refusal;
use hunk_scatter::LoadRefusal;
use hunk_words::{Fault, PagePrinter, Reason, Sink, WriteFault};
use itoa::Buffer;
use std::alloc::{AllocError, AllocFailed};
use std::error::Error;
use std::fmt;

/// Why a run failed. It is displayed as the line that the program prints, without its end.
#[derive(Clone, Copy, Debug, PartialEq, Eq)]
pub enum RunFault {
    /// The input is refused, at a place in bytes from its start.
    Refused(Fault),
    /// The file that the input is to be is refused, at a place in bytes from its start, in a part
    /// of it.
    RefusedIn(Refusal),
    /// Reading failed after `place` bytes of the input.
    Read { place: u64 },
    /// Writing failed after `written` bytes of the output.
    Write { written: u64 },
    /// Memory was refused.
    Memory,
    /// The hexadecimal text spells no bytes.
    HexText,
}

impl RunFault {
    /// The exit status: 1 where the input is refused, 3 where reading or writing failed, 4 where
    /// memory ran out.
    pub fn status(&self) -> u8
        ensures value { result ≡ status_of self.now }
        ensures bound { (0 < result) × (result ≤ 4) }
    {
        match self {
            RunFault::Refused(_) | RunFault::RefusedIn(_) | RunFault::HexText => 1,
            RunFault::Read { .. } | RunFault::Write { .. } => 3,
            RunFault::Memory => 4,
        }
    }

    /// Prints its line with the end. It takes no memory, so none can be wanting for it.
    pub fn print<W: Sink, const ROOM: usize>(&self, page: &mut PagePrinter<'_, W, ROOM>)
        ensures { Prints page.old page.new (line_of self.now ++ codes "\n") }
    {
        match self {
            RunFault::Refused(fault) | RunFault::RefusedIn(Refusal { fault, part: _ }) => {
                print_refusal(page, *fault);
            }
            RunFault::Read { place } => print_number(page, "reading failed at byte ", *place, ""),
            RunFault::Write { written } => {
                print_number(page, "writing failed after ", *written, " bytes");
            }
            RunFault::Memory => page.print(b"out of memory"),
            RunFault::HexText => page.print(b"hex text refused"),
        }
        page.print(b"\n");
    }
}

/// Prints the line of a refusal, without its end.
fn print_refusal<W: Sink, const ROOM: usize>(page: &mut PagePrinter<'_, W, ROOM>, refusal: Fault)
    ensures { Prints page.old page.new (refusal_line refusal) }
{
    print_number(page, "refused at byte ", refusal.place, ": ");
    print_reason(page, refusal.reason);
}

/// Prints the name and the number of a reason.
fn print_reason<W: Sink, const ROOM: usize>(page: &mut PagePrinter<'_, W, ROOM>, reason: Reason)
    ensures { Prints page.old page.new (reason_line reason) }
{
    page.print(reason.name().as_bytes());
    print_number(page, " (", u64::from(reason.number()), ")");
    print_hunk(page, reason);
}

/// Prints the hunk that has no base, where that is the reason.
fn print_hunk<W: Sink, const ROOM: usize>(page: &mut PagePrinter<'_, W, ROOM>, reason: Reason)
    ensures { Prints page.old page.new (hunk_suffix reason) }
{
    if let Reason::NoBase(hunk) = reason {
        print_number(page, " hunk ", u64::from(hunk), "");
    }
}

/// Prints a number in decimal between two texts.
fn print_number<W: Sink, const ROOM: usize>(
    page: &mut PagePrinter<'_, W, ROOM>,
    front: &str,
    number: u64,
    end: &str,
)
    ensures { Prints page.old page.new (front.now ++ decimal number ++ end.now) }
{
    page.print(front.as_bytes());
    page.print(Buffer::new().format(number).as_bytes());
    page.print(end.as_bytes());
}

impl fmt::Display for RunFault {
    ghost output = { λ fault. Some (line_of fault) };

    fn fmt<W: fmt::Write>(&self, f: &mut fmt::Formatter<W>) -> fmt::Result {
        match self {
            RunFault::Refused(fault) | RunFault::RefusedIn(Refusal { fault, part: _ }) => {
                write!(f, "{fault}")
            }
            RunFault::Read { place } => write!(f, "reading failed at byte {place}"),
            RunFault::Write { written } => {
                let fault = WriteFault { written: *written };
                write!(f, "{fault}")
            }
            RunFault::Memory => write!(f, "out of memory"),
            RunFault::HexText => write!(f, "hex text refused"),
        }
    }
}

impl Error for RunFault {}

impl From<Fault> for RunFault {
    ghost from_gives = { λ refusal fault. fault ≡ refused_as refusal };

    fn from(refusal: Fault) -> RunFault {
        match refusal.reason {
            Reason::OutOfMemory => RunFault::Memory,
            Reason::Read => RunFault::Read {
                place: refusal.place,
            },
            _ => RunFault::Refused(refusal),
        }
    }
}

impl From<LoadRefusal> for RunFault {
    ghost from_gives = { λ refusal fault. fault ≡ load_refused refusal };

    fn from(refusal: LoadRefusal) -> RunFault {
        match refusal {
            LoadRefusal::Judged(refusal) => RunFault::RefusedIn(refusal),
            LoadRefusal::NotJudged(fault) => RunFault::from(fault),
        }
    }
}

impl From<WriteFault> for RunFault {
    ghost from_gives = { λ write fault. fault ≡ Write write.written };

    fn from(fault: WriteFault) -> RunFault {
        RunFault::Write {
            written: fault.written,
        }
    }
}

impl From<AllocError> for RunFault {
    ghost from_gives = { λ _ fault. fault ≡ Memory };

    fn from(_error: AllocError) -> RunFault {
        RunFault::Memory
    }
}

impl<T: Drop> From<AllocFailed<T>> for RunFault {
    ghost from_gives = { λ _ fault. fault ≡ Memory };

    fn from(_error: AllocFailed<T>) -> RunFault {
        RunFault::Memory
    }
}
