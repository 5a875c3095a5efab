//! The hunks of a load file, read where they lie.
ghost use Rattle.std.specs.Prelude.{◌≡◌, map, IfErr, IfOk};
ghost use Rattle.std.specs.Iterator.{item_count};
ghost use Rattle.hunk_words.specs.declared.reason.Reason.TheVariants as reasons;
ghost use Rattle.hunk_files.specs.LoadHunks.{GivesHunk};
ghost use Rattle.hunk_files.specs.Hunks.{block_texts};
ghost use Rattle.hunk_files.specs.Lacks.{EndsAt, EndsHunkPart, Within};
ghost use Rattle.hunk_files.specs.Tables.{hunk_of};

use crate::blocks::{BlockViews, keep_blocks};
use crate::load::hunk::{LoadHunk, row_of};
use crate::load::table::TableIter;
use crate::out_of_memory::out_of_memory;
use hunk_words::{FileFault, SizeWord};
use std::alloc::Global;
use std::marker::Model;

/// A hunk of a load file, whose blocks are read as they are asked for. It takes no memory.
#[derive(Drop)]
pub struct LoadHunkView<'a> {
    /// What the table declares of it.
    pub size: SizeWord,
    /// Its blocks, up to its END.
    pub blocks: BlockViews<'a>,
}

/// The hunks of a load file that are still to come, each read where it lies. It takes no memory.
/// Contracts see the list of them, and the byte of the input at which the blocks of the next begin.
#[derive(Drop)]
pub struct LoadHunkViews<'a> {
    /// The entries of the table.
    pub(super) table: TableIter<'a>,
    /// The input.
    pub(super) bytes: &'a [u8],
    /// The byte at which the blocks of the next hunk begin.
    pub(super) at: usize,
}

impl<'a> Model for LoadHunkViews<'a> {
    ghost use Rattle.std.specs.Prelude.{drop};
    ghost use Rattle.hunk_blocks.specs.Placed.{Placed};
    ghost use Rattle.hunk_files.specs.LoadFile.{LoadFileValue};
    ghost use Rattle.hunk_files.specs.InPlace.{BeginsWithHunks, hunks_in};

    ghost Value = { Placed LoadFileValue };

    ghost view = { λ s. record {
      place = s.at;
      value = hunks_in s.table (drop s.at s.bytes.now);
    } };

    ghost invariant = { λ s. BeginsWithHunks s.table (drop s.at s.bytes.now) };
}

impl<'a> LoadHunkViews<'a> {
    /// The byte of the input at which the blocks of the next hunk begin, or after the last hunk the
    /// byte at which the file ends.
    #[inline(always)]
    pub fn place(&self) -> u64
        ensures { result ≡ self.now.place }
    {
        self.at as u64
    }

    /// The hunks in a list.
    ///
    /// # Errors
    ///
    /// `OutOfMemory` at the last longword of the part of a hunk for which no memory was found.
    pub(super) fn keep(self, alloc: Global) -> Result<Vec<LoadHunk<'a>>, FileFault>
        ensures kept { IfOk result (λ hunks. map hunk_of hunks.items ≡ self.entry.value) }
        ensures memory { IfErr result (λ fault. fault.reason ≡ reasons.OutOfMemory) }
        ensures place { IfErr result (λ fault.
            EndsAt (Within (λ h. block_texts h.blocks) (λ h. EndsHunkPart h.blocks)
            self.entry.value) self.entry.place fault.place) }
    {
        let bytes = self.bytes;
        let mut hunks = Vec::new(alloc);
        let mut at = self.at;
        'keeping: for size in self.table {
            let mut views = BlockViews::at(bytes, at);
            let kept = keep_blocks(alloc, &mut views)?;
            at = views.place() as usize;
            let row = row_of(size);
            if hunks.push(LoadHunk { row, blocks: kept }).is_err() {
                return Err(out_of_memory(at));
            }
        }
        Ok(hunks)
    }
}

impl<'a> Iterator for LoadHunkViews<'a> {
    type Item = LoadHunkView<'a>;

    ghost next_gives = { GivesHunk };

    ghost remaining = { item_count (λ s. s.value) };

    fn next(&mut self) -> Option<LoadHunkView<'a>> {
        let Some(size) = self.table.next() else {
            return None;
        };
        let blocks = BlockViews::at(self.bytes, self.at);
        let mut passed = BlockViews::at(self.bytes, self.at);
        'passing: while let Some(_) = passed.next() {}
        self.at = passed.at;
        Some(LoadHunkView { size, blocks })
    }
}
