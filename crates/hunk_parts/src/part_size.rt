//! A part without its longwords.

/// A part of a file, with the numbers of its longwords in place of them.
#[derive(Clone, Copy)]
pub(crate) struct PartSize {
    pub(crate) what: u32,
    pub(crate) word: u32,
    pub(crate) value: u32,
    /// How many longwords its content has, or its name.
    pub(crate) content: u64,
    /// How many offsets it has.
    pub(crate) offsets: u64,
}
