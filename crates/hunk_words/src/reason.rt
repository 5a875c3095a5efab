//! The reasons of refusals. `docs/reasons` writes their numbers and names of `docs/reasons.tsv`.
ghost use Rattle.std.specs.Prelude.{◌≡◌, ℕ, ◌<◌, ◌⊎◌, Some, MatchOption};
ghost use Rattle.hunk_words.specs.FaultLines.{reason_line};
ghost use Rattle.hunk_words.specs.Reasons.{name_of, number_of};
ghost use Rattle.hunk_words.specs.declared.reason.Reason.TheVariants as reasons;

use std::error::Error;
use std::fmt;

/// Why an input is refused. The numbers count from 1 in this order.
#[derive(Clone, Copy, Debug, PartialEq, Eq)]
pub enum Reason {
    /// The first longword is not 3F3.
    NotLoadFile,
    /// The first longword is 3E7: an object file.
    IsObject,
    /// A library hunk, LIB or INDEX.
    Library,
    /// The header names resident libraries.
    Resident,
    /// The table size is 0.
    NoHunks,
    /// The table size is more than 65,536, `MOST_HUNKS`.
    TooManyHunks,
    /// The first hunk is not 0.
    FirstHunk,
    /// The last hunk is not the table size minus 1.
    LastHunk,
    /// A block word has bits 30 and 31.
    BothBits,
    /// Reserved: no call answers it.
    Advisory,
    /// An OVERLAY block.
    Overlay,
    /// A BREAK block.
    Break,
    /// A short relocation block.
    ShortReloc,
    /// A block that this project keeps out of load files.
    NotInLoadFile,
    /// A HEADER or UNIT block in a place where none may stand, or another before the first UNIT.
    Misplaced,
    /// A block type without a name, not advisory.
    UnknownBlock,
    /// A second CODE, DATA or BSS block in a hunk.
    SecondContent,
    /// A relocation or EXT block before the content block.
    BeforeContent,
    /// The hunk ends without a content block.
    NoContent,
    /// More content than the hunk is declared to have.
    ContentTooLong,
    /// The count of a name has a top byte.
    NameWord,
    /// A relocation in a hunk of 0 bytes.
    NothingToRelocate,
    /// The target is no hunk of the file.
    BadTarget,
    /// The relocated longword does not lie within the hunk.
    BadOffset,
    /// A type of EXT entry that is not accepted.
    ExtKind,
    /// The input ends inside the file or block.
    Truncated,
    /// The declared bytes pass the budget.
    Budget,
    /// The input has as many bytes as may be read.
    FileLimit,
    /// The hunk of this number, counted from 0, has no base.
    NoBase(u32),
    /// The input could not be read.
    Read,
    /// Memory was refused.
    OutOfMemory,
}

impl Reason {
    /// The number, from 1 to 31.
    pub fn number(self) -> u8
        ensures { result ≡ number_of self }
    {
        match self {
            Reason::NotLoadFile => 1,
            Reason::IsObject => 2,
            Reason::Library => 3,
            Reason::Resident => 4,
            Reason::NoHunks => 5,
            Reason::TooManyHunks => 6,
            Reason::FirstHunk => 7,
            Reason::LastHunk => 8,
            Reason::BothBits => 9,
            Reason::Advisory => 10,
            Reason::Overlay => 11,
            Reason::Break => 12,
            Reason::ShortReloc => 13,
            Reason::NotInLoadFile => 14,
            Reason::Misplaced => 15,
            Reason::UnknownBlock => 16,
            Reason::SecondContent => 17,
            Reason::BeforeContent => 18,
            Reason::NoContent => 19,
            Reason::ContentTooLong => 20,
            Reason::NameWord => 21,
            Reason::NothingToRelocate => 22,
            Reason::BadTarget => 23,
            Reason::BadOffset => 24,
            Reason::ExtKind => 25,
            Reason::Truncated => 26,
            Reason::Budget => 27,
            Reason::FileLimit => 28,
            Reason::NoBase(_) => 29,
            Reason::Read => 30,
            Reason::OutOfMemory => 31,
        }
    }

    /// The reason that has this number, or `None` where no reason has it.
    ///
    /// The numbers are 1 to 31. A number names no hunk: 29 is `NoBase` of hunk 0.
    pub fn from_number(number: u32) -> Option<Reason>
        ensures value { MatchOption result ((number ≡ 0) ⊎ (31 < number))
            (λ reason. number_of reason ≡ number) }
        ensures no_hunk { (hunk : ℕ) → result ≡ Some (reasons.NoBase hunk) → hunk ≡ 0 }
    {
        match number {
            1 => Some(Reason::NotLoadFile),
            2 => Some(Reason::IsObject),
            3 => Some(Reason::Library),
            4 => Some(Reason::Resident),
            5 => Some(Reason::NoHunks),
            6 => Some(Reason::TooManyHunks),
            7 => Some(Reason::FirstHunk),
            8 => Some(Reason::LastHunk),
            9 => Some(Reason::BothBits),
            10 => Some(Reason::Advisory),
            11 => Some(Reason::Overlay),
            12 => Some(Reason::Break),
            13 => Some(Reason::ShortReloc),
            14 => Some(Reason::NotInLoadFile),
            15 => Some(Reason::Misplaced),
            16 => Some(Reason::UnknownBlock),
            17 => Some(Reason::SecondContent),
            18 => Some(Reason::BeforeContent),
            19 => Some(Reason::NoContent),
            20 => Some(Reason::ContentTooLong),
            21 => Some(Reason::NameWord),
            22 => Some(Reason::NothingToRelocate),
            23 => Some(Reason::BadTarget),
            24 => Some(Reason::BadOffset),
            25 => Some(Reason::ExtKind),
            26 => Some(Reason::Truncated),
            27 => Some(Reason::Budget),
            28 => Some(Reason::FileLimit),
            29 => Some(Reason::NoBase(0)),
            30 => Some(Reason::Read),
            31 => Some(Reason::OutOfMemory),
            _ => None,
        }
    }

    /// The name, as it is printed. The hunk of `NoBase` is not in it.
    pub fn name(self) -> &'static str
        ensures { result.now ≡ name_of self }
    {
        match self {
            Reason::NotLoadFile => "NotLoadFile",
            Reason::IsObject => "IsObject",
            Reason::Library => "Library",
            Reason::Resident => "Resident",
            Reason::NoHunks => "NoHunks",
            Reason::TooManyHunks => "TooManyHunks",
            Reason::FirstHunk => "FirstHunk",
            Reason::LastHunk => "LastHunk",
            Reason::BothBits => "BothBits",
            Reason::Advisory => "Advisory",
            Reason::Overlay => "Overlay",
            Reason::Break => "Break",
            Reason::ShortReloc => "ShortReloc",
            Reason::NotInLoadFile => "NotInLoadFile",
            Reason::Misplaced => "Misplaced",
            Reason::UnknownBlock => "UnknownBlock",
            Reason::SecondContent => "SecondContent",
            Reason::BeforeContent => "BeforeContent",
            Reason::NoContent => "NoContent",
            Reason::ContentTooLong => "ContentTooLong",
            Reason::NameWord => "NameWord",
            Reason::NothingToRelocate => "NothingToRelocate",
            Reason::BadTarget => "BadTarget",
            Reason::BadOffset => "BadOffset",
            Reason::ExtKind => "ExtKind",
            Reason::Truncated => "Truncated",
            Reason::Budget => "Budget",
            Reason::FileLimit => "FileLimit",
            Reason::NoBase(_) => "NoBase",
            Reason::Read => "Read",
            Reason::OutOfMemory => "OutOfMemory",
        }
    }
}

impl fmt::Display for Reason {
    ghost output = { λ reason. Some (reason_line reason) };

    fn fmt<W: fmt::Write>(&self, f: &mut fmt::Formatter<W>) -> fmt::Result {
        let (name, number) = (self.name(), self.number());
        match self {
            Reason::NoBase(hunk) => write!(f, "{name} ({number}) hunk {hunk}"),
            _ => write!(f, "{name} ({number})"),
        }
    }
}

impl Error for Reason {}
