//! Why rows spell no file, or one that has no room.

use hunk_words::Reason;

/// Why no file has such a row there.
#[derive(Clone, Copy)]
pub enum RowRefusal {
    /// The row spells nothing that a file has there.
    Strange,
    /// It spells what a reader refuses for this reason.
    Refused(Reason),
}

/// Why a row is refused, and how many bytes after its first one.
#[derive(Clone, Copy)]
pub(crate) struct Refusal {
    pub(crate) why: RowRefusal,
    pub(crate) ahead: u64,
}

/// The first row of which no file is made.
#[derive(Clone, Copy)]
pub struct RowFault {
    /// Why.
    pub refusal: RowRefusal,
    /// The byte of the file at which the longword at fault would stand, at most 2^64 - 1.
    pub place: u64,
    /// The row, from 0 on. Where the rows end too early it is their number.
    pub row: u64,
}

/// How large the file is that rows spell.
#[derive(Clone, Copy)]
pub struct BuiltSize {
    /// The hunks of a load file; 0 of an object file.
    pub hunks: u32,
    /// Its bytes, at most 2^64 - 1.
    pub bytes: u64,
}

/// Why no file was written.
#[derive(Clone, Copy)]
pub enum NotBuilt {
    /// The text is too short for the file, which has this size.
    NoRoom(BuiltSize),
    /// No file has such a row there.
    Refused(RowFault),
}
