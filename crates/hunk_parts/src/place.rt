//! Where a part stands.

use hunk_grammar::WordPlace;
use hunk_words::Kind;

/// What is known of the file where a part stands. Bytes stop at 2^64 - 1.
#[derive(Clone, Copy)]
pub(crate) struct PartPlace {
    /// The HUNK parts of all rows, 0 of an object file.
    pub(crate) hunks: u32,
    /// How many longwords the open hunk declares.
    pub(crate) longs: u32,
    /// In a load file a hunk is open from its HUNK on.
    pub(crate) place: WordPlace,
    /// The kind of the block whose items may come.
    pub(crate) list: Option<Kind>,
    /// The byte of the next size word.
    pub(crate) entry: u64,
    /// The byte after the text of the parts before.
    pub(crate) at: u64,
}
