//! The table of a load file's header, read where it lies.
ghost use Rattle.std.specs.Iterator.{YieldsFirstBy, item_count};
ghost use Rattle.hunk_files.specs.Tables.{size_entry};

use hunk_words::SizeWord;
use std::marker::Model;

/// The entries of a table that are still to come, each read where it lies. It takes no memory.
/// Contracts see the list of them.
///
/// An entry is a size word, and where both of its memory bits are set one more longword, the memory
/// attributes (The AmigaDOS Manual, `dos/doshunks.h`).
#[derive(Drop)]
pub struct TableIter<'a> {
    /// The input from the next entry on.
    pub(super) rest: &'a [u8],
    /// How many entries are still to come.
    pub(super) left: u32,
}

impl<'a> Model for TableIter<'a> {
    ghost use Rattle.std.specs.Prelude.{List};
    ghost use Rattle.hunk_words.specs.Longs.{longs};
    ghost use Rattle.hunk_files.specs.LoadFile.{TableEntry};
    ghost use Rattle.hunk_files.specs.Cuts.{table_cut};
    ghost use Rattle.hunk_files.specs.InPlace.{BeginsWithTable};

    ghost Value = { List TableEntry };

    ghost view = { λ s. (table_cut s.left (longs s.rest.now)).value };

    ghost invariant = { λ s. BeginsWithTable s.left (longs s.rest.now) };
}

impl Iterator for TableIter<'_> {
    type Item = SizeWord;

    ghost next_gives = { YieldsFirstBy size_entry (λ entries. entries) };

    ghost remaining = { item_count (λ entries. entries) };

    #[inline(always)]
    #[tactic(auto, using(crate::proofs::cuts::LoadCuts::next_entry, crate::proofs::cuts::LoadCuts::table_ends))]
    fn next(&mut self) -> Option<SizeWord> {
        if self.left == 0 {
            return None;
        }
        let size = SizeWord::at(self.rest, 0);
        self.rest = &self.rest[4 * SizeWord::entry_longs(size.word)..];
        self.left -= 1;
        Some(size)
    }
}
