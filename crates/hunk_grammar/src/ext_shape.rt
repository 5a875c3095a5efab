//! What stands after the name of an EXT entry.

/// What stands after the name of an EXT entry, as its type says.
///
/// Source: The AmigaDOS Manual, `dos/doshunks.h`. `ExtKind` says which types have which.
#[derive(Clone, Copy, Debug, PartialEq, Eq)]
pub enum ExtShape {
    /// A value.
    Definition,
    /// The size of a common block in bytes, a count, and that many offsets.
    Common,
    /// A count, and that many offsets.
    References,
}
