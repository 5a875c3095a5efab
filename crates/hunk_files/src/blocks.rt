//! The blocks of a hunk, of files of both kinds, read where they lie.
ghost use Rattle.std.specs.Prelude.{◌≡◌, ◌≤◌, ◌+◌, ◌*◌, ◌++◌, [], ◌∷◌, ◌⊎◌, IfErr, IfOk, OnOk, length};
ghost use Rattle.std.specs.Iterator.{item_count};
ghost use Rattle.hunk_words.specs.declared.reason.Reason.TheVariants as reasons;
ghost use Rattle.hunk_words.specs.Longs.{bytes_of};
ghost use Rattle.hunk_words.specs.Prints.{Prints};
ghost use Rattle.hunk_blocks.specs.Begins.{LacksItemAt};
ghost use Rattle.hunk_blocks.specs.Parts.{block_text};
ghost use Rattle.hunk_files.specs.Hunks.{HunkAt, block_texts};
ghost use Rattle.hunk_files.specs.InPlace.{GivesPart};
ghost use Rattle.hunk_files.specs.Items.{end_of_blocks};
ghost use Rattle.hunk_files.specs.Lacks.{EndsAt, EndsHunkPart};

use crate::out_of_memory::out_of_memory;
use hunk_blocks::{Block, BlockView, BodyView, append};
use hunk_words::{FileFault, Printer, Sink};
use std::alloc::Global;
use std::marker::Model;

/// The blocks of a hunk that are still to come, up to its END, each read where it lies. It takes no
/// memory. Contracts see the list of them, and the byte of the input at which the next begins.
#[derive(Drop)]
pub struct BlockViews<'a> {
    /// The input; once END was given, only up to the end of the hunk.
    bytes: &'a [u8],
    /// The byte at which the next block begins.
    pub(crate) at: usize,
}

impl<'a> Model for BlockViews<'a> {
    ghost use Rattle.std.specs.Prelude.{◌≡◌, List, [], drop, ◌⊎◌};
    ghost use Rattle.hunk_blocks.specs.Placed.{Placed};
    ghost use Rattle.hunk_blocks.specs.Values.{BlockValue};
    ghost use Rattle.hunk_files.specs.InPlace.{BeginsWithBlocks, blocks_in};

    ghost Value = { Placed (List BlockValue) };

    ghost view = { λ s. record {
      place = s.at;
      value = blocks_in (drop s.at s.bytes.now);
    } };

    ghost invariant = { λ s.
        (drop s.at s.bytes.now ≡ []) ⊎ BeginsWithBlocks (drop s.at s.bytes.now) };
}

impl<'a> BlockViews<'a> {
    /// The blocks of the hunk that stands at `start`.
    pub(crate) fn at(bytes: &'a [u8], start: usize) -> BlockViews<'a>
        requires { HunkAt bytes.now start }
        ensures { (hunk : HunkAt bytes.entry.now start) →
            result ≡ record { place = start; value = hunk.blocks } }
    {
        BlockViews { bytes, at: start }
    }

    /// No blocks, at this byte.
    pub(crate) fn none(start: usize) -> BlockViews<'a>
        ensures { result ≡ record { place = start; value = [] } }
    {
        BlockViews {
            bytes: &[],
            at: start,
        }
    }

    /// The byte of the input at which the next block begins, or after END the byte at which the
    /// hunk ends.
    #[inline(always)]
    pub fn place(&self) -> u64
        ensures { result ≡ self.now.place }
    {
        self.at as u64
    }

    /// The byte after these blocks, which are passed over.
    pub(crate) fn end(mut self) -> usize
        ensures { result ≡ end_of_blocks self.entry }
    {
        'passing: while let Some(_) = self.next() {}
        self.at
    }
}

impl<'a> Iterator for BlockViews<'a> {
    type Item = BlockView<'a>;

    ghost next_gives = { GivesPart block_text };

    ghost remaining = { item_count (λ s. s.value) };

    #[inline(always)]
    fn next(&mut self) -> Option<BlockView<'a>> {
        if self.bytes.len() <= self.at {
            return None;
        }
        let block = BlockView::at(self.bytes, self.at);
        self.at += block.encoded_len() as usize;
        if let BodyView::End = block.body() {
            self.bytes = &self.bytes[..self.at];
        }
        Some(block)
    }
}

/// The blocks that are still to come in a list, with none left to come.
///
/// # Errors
///
/// `OutOfMemory` at the last longword of the group, entry or block for which no memory was found.
pub(crate) fn keep_blocks<'a>(
    alloc: Global,
    blocks: &mut BlockViews<'a>,
) -> Result<Vec<Block<'a>>, FileFault>
    ensures kept { IfOk result (λ kept. kept.items ≡ blocks.old.value) }
    ensures after { IfOk result (λ kept. blocks.new.place
        ≡ blocks.old.place + 4 * length (block_texts blocks.old.value)) }
    ensures memory { IfErr result (λ fault. fault.reason ≡ reasons.OutOfMemory) }
    ensures place { IfErr result (λ fault.
        EndsAt (EndsHunkPart blocks.old.value) blocks.old.place fault.place) }
{
    let mut kept = Vec::new(alloc);
    'keeping: while let Some(view) = blocks.next() {
        keep_block(alloc, &mut kept, view, blocks.at)?;
    }
    Ok(kept)
}

/// Appends the block, which ends at byte `end`, to those that are kept.
///
/// # Errors
///
/// `OutOfMemory` at the last longword of the block, or of the group or entry, for which no memory
/// was found.
fn keep_block<'a>(
    alloc: Global,
    kept: &mut Vec<Block<'a>>,
    view: BlockView<'a>,
    end: usize,
) -> Result<(), FileFault>
    requires { 4 ≤ end }
    ensures appends { OnOk result (kept.new.items ≡ kept.old.items ++ view.entry.value ∷ []) }
    ensures memory { IfErr result (λ fault. fault.reason ≡ reasons.OutOfMemory) }
    ensures place { IfErr result (λ fault.
        LacksItemAt view.entry fault.place ⊎ (fault.place + 4 ≡ end)) }
{
    let block = Block::keep(alloc, view)?;
    if append(kept, block).is_err() {
        return Err(out_of_memory(end));
    }
    Ok(())
}

/// Prints the blocks, one after the other.
pub(crate) fn print_blocks<W: Sink>(page: &mut Printer<'_, W>, blocks: &[Block<'_>])
    ensures { Prints page.old page.new (bytes_of (block_texts blocks.now)) }
{
    'putting: for block in blocks {
        block.print(page);
    }
}
