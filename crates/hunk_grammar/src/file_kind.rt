//! The kinds of files.

/// The kind of file that a first longword announces.
///
/// Source: the block numbers of `dos/doshunks.h`.
#[derive(Clone, Copy, Debug, PartialEq, Eq)]
pub enum Sniff {
    /// A load file: the first longword is that of a HEADER block, 3F3.
    Load,
    /// An object file: the first longword is that of a UNIT block, 3E7.
    Object,
    /// A library: the first longword is that of a LIB block, 3FA.
    Library,
    /// Anything else, also fewer than four bytes.
    Other,
}
