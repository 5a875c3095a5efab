//! The classes of refusals, as `docs/reasons` writes them of `docs/reasons.tsv`.
ghost use Rattle.std.specs.Prelude.{◌≡◌, Some};
ghost use Rattle.hunk_words.specs.Classes.{class_of, words_of_class};

use crate::fault::Fault;
use crate::reason::Reason;
use std::fmt;

/// What a refusal says of the whole file. It is shown as a few words for people.
#[derive(Clone, Copy, Debug, PartialEq, Eq)]
pub enum Class {
    /// The file is no hunk file.
    NoHunkFile,
    /// A hunk file that AmigaDOS or a linker knows, and that is not read.
    Unsupported,
    /// A hunk file with something wrong in it.
    Damaged,
    /// Nothing is known of the file: a limit was met, or it could not be read.
    NotJudged,
}

impl fmt::Display for Class {
    ghost output = { λ class. Some (words_of_class class) };

    fn fmt<W: fmt::Write>(&self, f: &mut fmt::Formatter<W>) -> fmt::Result {
        f.write_str(match self {
            Class::NoHunkFile => "no hunk file",
            Class::Unsupported => "not supported",
            Class::Damaged => "damaged",
            Class::NotJudged => "not judged",
        })
    }
}

impl Fault {
    /// The class of the refusal, by its reason.
    ///
    /// `Truncated` at byte 0 is `NoHunkFile`, since there is not one longword. `UnknownBlock` and
    /// `ExtKind` are `Damaged`, since no document lists their types.
    pub fn class(&self) -> Class
        ensures { result ≡ class_of self.now }
    {
        match self.reason {
            Reason::Truncated if self.place == 0 => Class::NoHunkFile,
            Reason::NotLoadFile => Class::NoHunkFile,
            Reason::IsObject
            | Reason::Library
            | Reason::Resident
            | Reason::FirstHunk
            | Reason::LastHunk
            | Reason::Overlay
            | Reason::Break
            | Reason::ShortReloc
            | Reason::NotInLoadFile => Class::Unsupported,
            Reason::NoHunks
            | Reason::TooManyHunks
            | Reason::BothBits
            | Reason::Misplaced
            | Reason::UnknownBlock
            | Reason::SecondContent
            | Reason::BeforeContent
            | Reason::NoContent
            | Reason::ContentTooLong
            | Reason::NameWord
            | Reason::NothingToRelocate
            | Reason::BadTarget
            | Reason::BadOffset
            | Reason::ExtKind
            | Reason::Truncated => Class::Damaged,
            Reason::Advisory
            | Reason::Budget
            | Reason::FileLimit
            | Reason::NoBase(_)
            | Reason::Read
            | Reason::OutOfMemory => Class::NotJudged,
        }
    }
}
