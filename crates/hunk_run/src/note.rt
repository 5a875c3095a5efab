//! What a run says on standard error.
ghost use Rattle.std.specs.Prelude.{◌≡◌, ℕ, Bool, List, Option, Some};
ghost use Rattle.std.specs.Fmt.{DisplaysOnOk, WritesOnOk};
ghost use Rattle.hunk_commands.specs.declared.fault.RunFault.TheVariants.{Read, Write};
ghost use Rattle.hunk_run.specs.Notes.{ended_with, fault_note, note_text, output_failed, said_with, shown_name};
ghost use Rattle.hunk_run.specs.Notes.{note_with, untouched_end, verdict_line};
ghost use Rattle.hunk_run.specs.declared.note.Note.TheVariants.{LeftOut};

use crate::escaped::{Escaped, EscapedLines};
use crate::spelled::Spelled;
use crate::verdict::{Verdict, hint};
use hunk_command_line::FileName;
use hunk_commands::RunFault;
use std::error::Error;
use std::{fmt, io};

/// What is said of a word that is not UTF-8.
const NOT_TEXT: &str = "a word of the command line is no UTF-8 text: give a file of such a name as \
    standard input, as in hunkinfo show < FILE";

/// What is said of an input that is not the text that `--hex` reads.
const NO_HEX_TEXT: &str = "no hexadecimal text: two digits a byte are wanted, and nothing else but \
    spaces, tabs and line ends";

/// What is said of the bytes that `--strip` left out.
const OF_BLOCKS: &str = "bytes of NAME, SYMBOL, DEBUG and ADVISORY blocks";

/// What is said of the bytes after a load file.
const AFTER: &str = "bytes after the load file";

/// What a run says on standard error, to a person. It is displayed with its last line end, and with
/// escapes in the place of control characters that a word of the command line has.
#[derive(Debug, Drop)]
pub enum Note {
    /// The words are no order, for the reason that this text gives, which has its line end.
    Line(String),
    /// A word of the command line is not UTF-8.
    NotText,
    /// The fault that the run ended with.
    Fault {
        /// The fault.
        fault: RunFault,
        /// The input, or the output where writing failed; `None` is a standard stream.
        name: Option<FileName>,
        /// What the system says of it.
        cause: Option<io::Error>,
        /// OUT of `rewrite`, where nothing of it was touched.
        untouched: Option<FileName>,
        /// Whether the plain spelling was taken. Else a refusal may name `--wide`.
        wide: bool,
    },
    /// Standard output failed.
    Output {
        /// What the system says of it.
        cause: Option<io::Error>,
    },
    /// Not all of the file of this name was written.
    LeftOut {
        /// The name of IN.
        name: FileName,
        /// How many bytes its blocks have that were left out.
        stripped: u64,
        /// How many bytes follow the load file.
        rest: u64,
    },
}

/// How a run ends.
#[derive(Drop)]
pub struct Ended {
    /// The exit status.
    pub status: u8,
    /// What it says of an input that is spelled otherwise than its plain spelling.
    pub spelled: Option<Spelled>,
    /// What it says on standard error, if anything.
    pub note: Option<Note>,
}

/// How a run ends whose standard output failed: nothing more is written to it.
pub(crate) fn output_failed() -> Ended
    ensures { result ≡ output_failed }
{
    Ended {
        status: 3,
        spelled: None,
        note: Some(Note::Output { cause: None }),
    }
}

impl Ended {
    /// The same, with what is said of how the input is spelled.
    pub(crate) fn with_spelled(self, spelled: Option<Spelled>) -> Ended
        ensures { result ≡ ended_with spelled self }
    {
        let Ended {
            status,
            spelled: _,
            note,
        } = self;
        Ended {
            status,
            spelled,
            note,
        }
    }
}

impl Note {
    /// The same, and where standard output failed, with what the system says of it.
    pub fn with_cause(self, cause: Option<io::Error>) -> Note
        ensures { result ≡ note_with cause self }
    {
        match self {
            Note::Output { cause: _ } => Note::Output { cause },
            other => other,
        }
    }
}

/// The file that something is said of, or else the standard stream. It is displayed as its name.
#[derive(Clone, Copy)]
pub(crate) struct Named<'a>(pub &'a Option<FileName>, pub &'a str);

impl fmt::Display for Named<'_> {
    ghost output = { λ named. Some (shown_name named.0.now named.1.now) };

    fn fmt<W: fmt::Write>(&self, f: &mut fmt::Formatter<W>) -> fmt::Result {
        match self.0 {
            Some(name) => {
                let name = escaped(name);
                write!(f, "{name}")
            }
            None => f.write_str(self.1),
        }
    }
}

/// The name of a file, as it is shown.
fn escaped(name: &FileName) -> Escaped<'_>
    ensures { result.text.now ≡ name.now }
{
    Escaped {
        text: name.as_str(),
    }
}

impl fmt::Display for Note {
    ghost output = { λ note. note_text note };

    fn fmt<W: fmt::Write>(&self, f: &mut fmt::Formatter<W>) -> fmt::Result {
        match self {
            Note::Line(why) => {
                let why = EscapedLines { text: why.as_str() };
                write!(f, "hunkinfo: {why}")
            }
            Note::NotText => write!(f, "hunkinfo: {NOT_TEXT}\n"),
            Note::Fault {
                fault,
                name,
                cause,
                untouched,
                wide,
            } => write_fault(f, *fault, name, cause, untouched, *wide),
            Note::Output { cause: Some(error) } => {
                write!(f, "hunkinfo: standard output: {error}\n")
            }
            Note::Output { cause: None } => {
                write!(f, "hunkinfo: standard output: writing failed\n")
            }
            Note::LeftOut {
                name,
                stripped,
                rest,
            } => write_left_out(f, name, *stripped, *rest),
        }
    }
}

/// A file that was left as it was, if there is one. It is displayed as the end of what is said of a
/// fault: `; b was not touched`.
#[derive(Clone, Copy)]
struct Untouched<'a> {
    file: &'a Option<FileName>,
}

impl fmt::Display for Untouched<'_> {
    ghost output = { λ end. Some (untouched_end end.file.now) };

    fn fmt<W: fmt::Write>(&self, f: &mut fmt::Formatter<W>) -> fmt::Result {
        match self.file {
            Some(name) => {
                let name = escaped(name);
                write!(f, "; {name} was not touched")
            }
            None => Ok(()),
        }
    }
}

/// Writes how many bytes of a file were left out.
fn write_left_out<W: fmt::Write>(
    f: &mut fmt::Formatter<W>,
    name: &FileName,
    stripped: u64,
    rest: u64,
) -> fmt::Result
    ensures { DisplaysOnOk W.write_str_gives f.old result
        (note_text (LeftOut name.now stripped rest)) f.new }
{
    let name = escaped(name);
    if stripped == 0 {
        return write!(f, "hunkinfo: {name}: left out: {rest} {AFTER}\n");
    }
    if rest == 0 {
        return write!(f, "hunkinfo: {name}: left out: {stripped} {OF_BLOCKS}\n");
    }
    write!(
        f,
        "hunkinfo: {name}: left out: {stripped} {OF_BLOCKS}, {rest} {AFTER}\n"
    )
}

/// Writes what is said of a fault.
fn write_fault<W: fmt::Write>(
    f: &mut fmt::Formatter<W>,
    fault: RunFault,
    name: &Option<FileName>,
    cause: &Option<io::Error>,
    untouched: &Option<FileName>,
    wide: bool,
) -> fmt::Result
    ensures { DisplaysOnOk W.write_str_gives f.old result
        (fault_note fault name.entry.now cause.entry.now untouched.entry.now wide) f.new }
{
    let input = Named(name, "standard input");
    let end = Untouched { file: untouched };
    match fault {
        RunFault::Memory => write!(f, "hunkinfo: out of memory{end}\n"),
        RunFault::HexText => write!(f, "hunkinfo: {input}: {NO_HEX_TEXT}{end}\n"),
        RunFault::Refused(refusal) => {
            let verdict = Verdict {
                refusal,
                part: None,
            };
            write_verdict(f, input, verdict, "", end)
        }
        RunFault::RefusedIn(refusal) => {
            let verdict = Verdict {
                refusal: refusal.fault,
                part: Some(refusal.part),
            };
            write_verdict(f, input, verdict, hint(refusal, wide), end)
        }
        RunFault::Read { .. } => write_reading(f, name, cause, untouched),
        RunFault::Write { written } => write_writing(f, name, cause, written),
    }
}

/// Writes what is said of a refused input, with a hint.
fn write_verdict<W: fmt::Write>(
    f: &mut fmt::Formatter<W>,
    input: Named<'_>,
    verdict: Verdict,
    hint: &str,
    end: Untouched<'_>,
) -> fmt::Result
    ensures { WritesOnOk W.write_str_gives f.old result
        (said_with (shown_name input.entry.0.now input.entry.1.now) (verdict_line verdict) hint.now
        end.entry.file.now) f.new }
{
    write!(f, "hunkinfo: {input}: {verdict}{hint}{end}\n")
}

/// Writes that an input was not read: what the system says, where it is known.
fn write_reading<W: fmt::Write>(
    f: &mut fmt::Formatter<W>,
    name: &Option<FileName>,
    cause: &Option<io::Error>,
    untouched: &Option<FileName>,
) -> fmt::Result
    ensures { (place : ℕ) → (wide : Bool) → DisplaysOnOk W.write_str_gives f.old result
        (fault_note (Read place) name.now cause.now untouched.now wide) f.new }
{
    let name = Named(name, "standard input");
    let end = Untouched { file: untouched };
    match cause {
        Some(error) => write!(f, "hunkinfo: {name}: {error}{end}\n"),
        None => write!(f, "hunkinfo: {name}: reading failed{end}\n"),
    }
}

/// Writes that an output was not written: what the system says and how much was written, where
/// that is known. Where that is nothing, a file that could be made is empty, and no other was
/// touched.
fn write_writing<W: fmt::Write>(
    f: &mut fmt::Formatter<W>,
    name: &Option<FileName>,
    cause: &Option<io::Error>,
    written: u64,
) -> fmt::Result
    ensures { (untouched : Option (List ℕ)) → (wide : Bool)
        → DisplaysOnOk W.write_str_gives f.old result
        (fault_note (Write written) name.now cause.now untouched wide) f.new }
{
    let name = Named(name, "standard output");
    match cause {
        Some(error) if written == 0 => write!(
            f,
            "hunkinfo: {name}: {error}: nothing was written\n"
        ),
        Some(error) => write!(
            f,
            "hunkinfo: {name}: {error}: the first {written} bytes of it are written\n"
        ),
        None => write!(f, "hunkinfo: {name}: writing failed\n"),
    }
}
