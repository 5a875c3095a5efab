//! Blocks.
ghost use Rattle.std.specs.Prelude.{◌≡◌, ◌≢◌, ◌*◌, ◌≤◌, Err, IfErr, IfOk, IsTrue, Some, length};
ghost use Rattle.hunk_words.specs.declared.reason.Reason.{Reason};
ghost use Rattle.hunk_words.specs.declared.reason.Reason.TheVariants as reasons;
ghost use Rattle.hunk_words.specs.Longs.{bytes_of, longs};
ghost use Rattle.hunk_words.specs.Prints.{Prints};
ghost use Rattle.hunk_words.specs.Puts.{PutsText};
ghost use Rattle.hunk_grammar.specs.declared.mode.Mode.TheVariants as modes;
ghost use Rattle.hunk_blocks.specs.Values.{IsBlock};
ghost use Rattle.hunk_blocks.specs.Parts.{block_text};
ghost use Rattle.hunk_blocks.specs.Modes.{is_block_refusal};
ghost use Rattle.hunk_grammar.specs.Modes.{refuse_alone_word};
ghost use Rattle.hunk_blocks.specs.Faults.{HasBlockFault};
ghost use Rattle.hunk_blocks.specs.Begins.{BeginsWithBlock, BeginsWithNoBlock, first_long};
ghost use Rattle.hunk_blocks.specs.Begins.{BeginsWithSomeBlock, IsFrontBlock};
ghost use Rattle.hunk_blocks.specs.Begins.{LacksItem, LacksItemAt, LacksItemOfMode};
ghost use Rattle.hunk_blocks.specs.Views.{body_of};

use crate::block_view::BlockView;
use crate::body::{Body, print_body};
use crate::body_view::keep_body;
use crate::walk::walk_block;
use hunk_grammar::Mode;
use hunk_words::{BlockFault, BlockWord, LongWriter, PagePrinter, Sink, WriteFault};
use std::alloc::Global;
use std::marker::Model;

/// A block of the input, made by `decode` alone. Contracts see it as its block value.
#[derive(Debug, Drop)]
pub struct Block<'a> {
    word: BlockWord,
    body: Body<'a>,
    len: u64,
}

impl<'a> Model for Block<'a> {
    ghost use Rattle.std.specs.Prelude.{◌≡◌, length};
    ghost use Rattle.hunk_words.specs.Longs.{bytes_of};
    ghost use Rattle.hunk_blocks.specs.Values.{BlockValue, IsBlock};
    ghost use Rattle.hunk_blocks.specs.Parts.{block_text};
    ghost use Rattle.hunk_blocks.specs.Views.{body_of};

    ghost Value = { BlockValue };

    ghost view = { λ s. record { word = s.word; body = body_of s.body } };

    ghost invariant = { λ s.
        let b : BlockValue = record { word = s.word; body = body_of s.body } in
        IsBlock b × (s.len ≡ length (bytes_of (block_text b))) };
}

impl<'a> Block<'a> {
    /// The block that the bytes begin with, and the number of its bytes.
    ///
    /// What needs the declared size, the number of hunks or the place in a hunk is not tested.
    /// Only the groups and entries of a relocation kind, EXT or SYMBOL take memory, each when it
    /// was read whole.
    ///
    /// Source: The AmigaDOS Manual, 3rd edition, Amiga binary file structure, and `dos/doshunks.h`.
    ///
    /// # Errors
    ///
    /// The longwords are tested in file order, each when it is whole, and the first that is
    /// refused is answered. Its place is in bytes from the first byte of the block:
    ///
    /// - the reason that `Mode::refuse` has for the block word, at 0;
    /// - `NameWord` at a NAME count whose top byte is not 0;
    /// - `ExtKind` at an EXT word whose type is not accepted;
    /// - `Truncated` where the bytes end inside the block, at 4 times the number of whole
    ///   longwords;
    /// - `OutOfMemory` in a relocation kind, EXT or SYMBOL, at the longword that completes the
    ///   group or entry for which no memory was found. Then the bytes have no other fault.
    pub fn decode(
        alloc: Global,
        bytes: &'a [u8],
        mode: Mode,
    ) -> Result<(Block<'a>, usize), BlockFault>
        ensures block { IfOk result (λ r. BeginsWithBlock mode bytes.entry.now r.0 r.1) }
        ensures none { IfErr result (λ fault.
            fault.reason ≢ reasons.OutOfMemory → BeginsWithNoBlock mode bytes.entry.now) }
        ensures fault { IfErr result (λ fault. fault.reason ≢ reasons.OutOfMemory →
            HasBlockFault mode bytes.entry.now fault.place fault.reason) }
        ensures own_reasons { IfErr result (λ fault. IsTrue (is_block_refusal fault.reason)) }
        ensures object { mode ≡ modes.Object
            → IfErr result (λ fault. fault.reason ≢ reasons.NotInLoadFile) }
        ensures memory { IfErr result (λ fault. fault.reason ≡ reasons.OutOfMemory →
            LacksItemOfMode mode bytes.entry.now fault.place) }
        ensures truncated { IfErr result (λ fault. fault.reason ≡ reasons.Truncated →
            fault.place ≡ 4 * length (longs bytes.entry.now)) }
        ensures first_word { (reason : Reason) → 4 ≤ length bytes.entry.now →
            refuse_alone_word mode (first_long bytes.entry.now) ≡ Some reason →
            result ≡ Err (record { place = 0; reason = reason }) }
    {
        walk_block(bytes, mode)?;
        Block::read(alloc, bytes)
    }

    /// The block that the bytes begin with, which are known to begin with one, and the number of
    /// its bytes.
    ///
    /// # Errors
    ///
    /// `OutOfMemory` at the longword that completes the group or entry for which no memory was
    /// found.
    pub fn read(alloc: Global, bytes: &'a [u8]) -> Result<(Block<'a>, usize), BlockFault>
        requires { BeginsWithSomeBlock bytes.now }
        ensures block { IfOk result (λ r. IsFrontBlock bytes.entry.now r.0 r.1) }
        ensures memory { IfErr result (λ fault. fault.reason ≡ reasons.OutOfMemory) }
        ensures place { IfErr result (λ fault. LacksItem bytes.entry.now fault.place) }
    {
        let view = BlockView::at(bytes, 0);
        let len = view.encoded_len() as usize;
        let block = Block::keep(alloc, view)?;
        Ok((block, len))
    }

    /// The same block with its groups or entries in a list, for which alone it takes memory.
    ///
    /// # Errors
    ///
    /// `OutOfMemory` at the longword that completes the group or entry for which no memory was
    /// found, from the start of the input.
    #[tactic(auto, using(crate::proofs::BodyReading::lacks_item))]
    pub fn keep(alloc: Global, view: BlockView<'a>) -> Result<Block<'a>, BlockFault>
        ensures block { IfOk result (λ block. block ≡ view.entry.value) }
        ensures memory { IfErr result (λ fault. fault.reason ≡ reasons.OutOfMemory) }
        ensures place { IfErr result (λ fault. LacksItemAt view.entry fault.place) }
    {
        let word = view.word();
        let len = view.encoded_len();
        let body = keep_body(alloc, view.into_body())?;
        Ok(Block { word, body, len })
    }

    /// The block's first longword: its flags and its type.
    pub fn word(&self) -> BlockWord
        ensures value { result ≡ self.now.word }
        ensures block { IsBlock self.now }
    {
        self.word
    }

    /// What follows the block's word.
    pub fn body(&self) -> &Body<'a>
        ensures value { body_of result.now ≡ self.now.body }
        ensures block { IsBlock self.now }
    {
        &self.body
    }

    /// The length of the block's text in bytes.
    pub fn encoded_len(&self) -> u64
        ensures { result ≡ length (bytes_of (block_text self.now)) }
    {
        self.len
    }

    /// Prints the block's text. To write many blocks, print them on one page.
    pub fn print<W: Sink, const ROOM: usize>(&self, page: &mut PagePrinter<'_, W, ROOM>)
        ensures { Prints page.old page.new (bytes_of (block_text self.now)) }
    {
        page.print_long(self.word.word());
        print_body(page, self.word, &self.body);
    }

    /// Writes the block's text, part by part with no page.
    ///
    /// It takes no memory.
    ///
    /// # Errors
    ///
    /// A `WriteFault` where the writer's sink failed, now or before: just the first `written`
    /// bytes of all that was ever put have gone out. Later puts write nothing and answer the same.
    /// A writer that had failed before stays as it was.
    pub fn encode<W: Sink>(&self, writer: &mut LongWriter<W>) -> Result<(), WriteFault>
        ensures { PutsText W.outlet writer.old writer.new (bytes_of (block_text self.now)) result }
    {
        let mut page = PagePrinter::<W, 0>::new(writer);
        self.print(&mut page);
        let result = page.flush();
        let _out = page.into_inner();
        result
    }
}
