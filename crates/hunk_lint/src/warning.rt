//! What is suspicious in a load file, and where.

/// What is suspicious.
#[derive(Clone, Copy)]
pub enum WarningKind {
    /// The offset of a relocation is odd: a 68000 stops in LoadSeg, by an address error.
    OddOffset,
    /// Another relocation of the hunk has the same offset: two bases are added.
    Twice,
    /// The offset of another is 1 to 3 apart: the second adds to what the first has made.
    Overlap,
    /// The content block of the hunk is BSS, which a program takes for zeros.
    InBss,
    /// The value before relocation leads outside of the target.
    OutsideTarget,
    /// The value of a symbol leads outside of its hunk.
    SymbolOutside,
    /// The first hunk has BSS, or no longword of content: a program begins with its first byte.
    NoEntry,
    /// A content block asks for a memory and the table for another: LoadSeg reads the table alone.
    MemoryIgnored,
}

/// Something suspicious in a load file, which the format allows.
///
/// Fields that a kind has no use for are 0.
#[derive(Clone, Copy)]
pub struct Warning {
    /// The byte of the file at which the offset, the symbol or the content block stands.
    pub place: u64,
    /// The hunk, counted from 0.
    pub hunk: u64,
    /// What is suspicious.
    pub kind: WarningKind,
    /// The offset of the relocation, in bytes from the start of the hunk.
    pub offset: u32,
    /// The hunk that the value leads into: the target of the relocation, or the symbol's own.
    pub target: u32,
    /// The longword of the content before any relocation, the value of the symbol, or the memory
    /// that the block asks for: 1 is chip memory, 2 fast memory.
    pub value: u32,
    /// Of `Overlap` the least offset that is 1 to 3 apart.
    pub other: u32,
}
