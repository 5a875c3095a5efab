//! Size words.
ghost use Rattle.std.specs.Prelude.{◌≡◌, ◌+◌, ◌*◌, ◌<◌, ◌≤◌, IsTrue, if◌then◌else◌, length, slice_index};
ghost use Rattle.hunk_words.specs.Limits.{content_limit};
ghost use Rattle.hunk_words.specs.Bits.{entry_longs, has_both_bits, memory_of, size_longs};
ghost use Rattle.hunk_words.specs.Longs.{longs};

use crate::limits::CONTENT_LIMIT;
use crate::longword::word_at;

/// The memory that a hunk asks for (The AmigaDOS Manual, `dos/doshunks.h`).
#[derive(Clone, Copy, Debug, PartialEq, Eq)]
pub enum Memory {
    /// Any memory: neither bit 30 nor bit 31 is set.
    Any,
    /// Chip memory: bit 30 alone is set.
    Chip,
    /// Fast memory: bit 31 alone is set.
    Fast,
    /// Both bits are set. These are the memory attributes that follow, which are kept and not
    /// interpreted.
    Attributes(u32),
}

/// An entry of a header's table: a size word, and the memory attributes that follow it, 0 where
/// there are none.
///
/// The low 30 bits count longwords; bits 30 and 31 name the memory.
///
/// Source: The AmigaDOS Manual, `dos/doshunks.h`.
#[derive(Clone, Copy, Debug, PartialEq, Eq)]
pub struct SizeWord {
    /// The size word.
    pub word: u32,
    /// The memory attributes, or 0 where the size word has none.
    pub extra: u32,
}

impl SizeWord {
    /// The entry of a table whose size word is the longword number `i` of the bytes, counted from
    /// 0.
    #[inline(always)]
    pub fn at(bytes: &[u8], i: usize) -> SizeWord
        requires word { 4 * i + 4 ≤ length bytes.now }
        requires extra { IsTrue (has_both_bits (slice_index (longs bytes.now) i)) →
            4 * i + 8 ≤ length bytes.now }
        ensures word { result.word ≡ slice_index (longs bytes.now) i }
        ensures extra { result.extra ≡ (if has_both_bits (slice_index (longs bytes.now) i)
            then slice_index (longs bytes.now) (i + 1) else 0) }
    {
        let word = word_at(bytes, i);
        let extra = if SizeWord::has_extra(word) {
            word_at(bytes, i + 1)
        } else {
            0
        };
        SizeWord { word, extra }
    }

    /// The number of longwords, from 0 to 1,073,741,823.
    pub fn longs(self) -> u32
        ensures value { result ≡ size_longs self.word }
        ensures bound { result < content_limit }
    {
        self.word % CONTENT_LIMIT
    }

    /// The number of bytes: 4 times the number of longwords.
    pub fn bytes(self) -> u64
        ensures { result ≡ 4 * size_longs self.word }
    {
        4 * u64::from(self.longs())
    }

    /// The memory that bits 30 and 31 ask for.
    pub fn memory(self) -> Memory
        ensures { result ≡ memory_of self.word self.extra }
    {
        match self.word >> 30 {
            0 => Memory::Any,
            1 => Memory::Chip,
            2 => Memory::Fast,
            _ => Memory::Attributes(self.extra),
        }
    }

    /// Whether bits 30 and 31 of a size word are both set, so that memory attributes follow it in a
    /// table.
    pub fn has_extra(word: u32) -> bool
        ensures { result ≡ has_both_bits word }
    {
        word >> 30 == 3
    }

    /// How many longwords the entry of a table has that begins with this size word: 2 where memory
    /// attributes follow it, else 1.
    #[inline(always)]
    pub fn entry_longs(word: u32) -> usize
        ensures value { result ≡ entry_longs word }
        ensures bound { result ≤ 2 }
    {
        if SizeWord::has_extra(word) { 2 } else { 1 }
    }
}
