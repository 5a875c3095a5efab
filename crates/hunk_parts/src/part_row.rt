//! A part of a file, as a row.

/// A hunk of a load file begins: its entry of the table.
pub const HUNK_PART: u32 = 1;

/// A unit of an object file begins.
pub const UNIT_PART: u32 = 2;

/// A block of a hunk, its END too.
pub const BLOCK_PART: u32 = 3;

/// Offsets with one target, in the relocation block before it.
pub const GROUP_PART: u32 = 4;

/// A symbol, in the SYMBOL block before it.
pub const SYMBOL_PART: u32 = 5;

/// An entry, in the EXT block before it.
pub const ENTRY_PART: u32 = 6;

/// A part of a file, which points at its bytes: 48 bytes, with no padding, as callers in C see it.
///
/// A field that its kind has no use for is 0, but for the places of no bytes.
#[repr(C)]
#[derive(Clone, Copy)]
pub struct PartRow {
    /// What it is, from `HUNK_PART` to `ENTRY_PART`.
    pub what: u32,
    /// The size word of a hunk, the word of a block, the target of a group, the top byte of a
    /// symbol's word, or the type of an entry.
    pub word: u32,
    /// The attributes of a hunk, or the value of a symbol or an entry. Of CODE and DATA it is bits
    /// 30 and 31 of the size word, of BSS the whole size word.
    pub value: u32,
    /// 0. `build` does not read it.
    pub reserved: u32,
    /// The byte at which its content, its name or its data begins.
    pub content: u64,
    /// How many bytes that has. Zero bytes follow, up to a whole longword.
    pub content_bytes: u64,
    /// The byte at which its offsets begin, four bytes each, high byte first.
    pub offsets: u64,
    /// How many offsets it has.
    pub offset_count: u64,
}
