//! What is known of a hunk before its warnings are listed.
ghost use Rattle.std.specs.Prelude.{◌≡◌, ℕ, slice_index};
ghost use Rattle.hunk_files.specs.Image.{filled};
ghost use Rattle.hunk_files.specs.SumImage.{long_at};

use hunk_words::SizeWord;

/// What the warnings of a hunk depend on.
#[derive(Clone, Copy)]
pub(crate) struct KnownHunk<'a> {
    /// Its number, counted from 0.
    pub(crate) number: u64,
    /// What the table declares of it.
    pub(crate) size: SizeWord,
    /// The declared bytes of all hunks.
    pub(crate) sizes: &'a [u32],
    /// The bytes of its content block.
    pub(crate) content: &'a [u8],
    /// The offsets of all its relocations, in rising order.
    pub(crate) rising: &'a [u32],
    /// Whether its content block is BSS.
    pub(crate) is_bss: bool,
}

/// The longword at this offset of a hunk with this content, before any relocation.
pub(crate) fn long_at(content: &[u8], offset: u32) -> u32
    ensures { (size : ℕ) → result ≡ long_at (filled size content.now) offset }
{
    let at = offset as usize;
    u32::from_be_bytes([
        byte_at(content, at),
        byte_at(content, at + 1),
        byte_at(content, at + 2),
        byte_at(content, at + 3),
    ])
}

/// The byte at this place, or after the content a zero byte.
fn byte_at(content: &[u8], at: usize) -> u8
    ensures { result ≡ slice_index content.now at }
{
    content.get(at).copied().unwrap_or(0)
}
