//! Rows of a hunk table.
ghost use Rattle.std.specs.Prelude.{◌≡◌};
ghost use Rattle.hunk_words.specs.Longs.{bytes_of};
ghost use Rattle.hunk_words.specs.Prints.{Prints};
ghost use Rattle.hunk_files.specs.Tables.{row_words};

use hunk_words::{Printer, Sink, SizeWord};

/// A row of the hunk table: what the header declares of a hunk, and where the hunk lies.
///
/// It is laid out as in C: 12 bytes, the fields in this order.
#[repr(C)]
#[derive(Clone, Copy, Debug, PartialEq, Eq)]
pub struct Row {
    /// The size word: the number of longwords in the low 30 bits, the memory in bits 30 and 31.
    pub word: u32,
    /// The memory attributes, where bits 30 and 31 are both set; else 0.
    pub extra: u32,
    /// The address of the hunk's first byte, once it is placed; before, 0.
    pub base: u32,
}

impl Row {
    /// What the header declares: the size and the memory.
    pub fn size(&self) -> SizeWord
        ensures word { result.word ≡ self.now.word }
        ensures extra { result.extra ≡ self.now.extra }
    {
        SizeWord {
            word: self.word,
            extra: self.extra,
        }
    }
}

/// A size word, and the memory attributes where they follow it.
pub(crate) fn print_row<W: Sink>(page: &mut Printer<'_, W>, row: &Row)
    ensures { Prints page.old page.new (bytes_of (row_words row.now)) }
{
    page.print_long(row.word);
    if SizeWord::has_extra(row.word) {
        page.print_long(row.extra);
    }
}
