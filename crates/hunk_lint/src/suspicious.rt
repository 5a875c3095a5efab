//! The tests of what is suspicious in a hunk.
ghost use Rattle.std.specs.Prelude.{◌≡◌};
ghost use Rattle.hunk_lint.specs.Suspicious.{ignores_memory, is_outside};

/// Where the register of a small data model points: 32,766 bytes into the data.
///
/// It does so however short the data is: this project's own choice, by what linkers do.
const SMALL_DATA: u32 = 0x7FFE;

/// How far before its start an array may be pointed to, as its first index may not be 0.
///
/// This project's own choice, by what compilers do.
const BEFORE_START: u32 = 0x8000;

/// The bits of a table's size word that are set where memory attributes follow.
const BY_ATTRIBUTES: u32 = 3;

/// Whether the value leads outside of a hunk of this size. One past its end is inside.
pub(crate) fn is_outside(size: u32, value: u32) -> bool
    ensures { result ≡ is_outside size value }
{
    size < value && value != SMALL_DATA && value < 0u32.wrapping_sub(BEFORE_START)
}

/// Whether a block asks for a memory and the table for another, which LoadSeg takes.
///
/// Both are given as bits 30 and 31 of a word.
pub(crate) fn ignores_memory(asked: u32, given: u32) -> bool
    ensures { result ≡ ignores_memory asked given }
{
    asked != 0 && asked != given && given != BY_ATTRIBUTES
}
