//! Load files.
ghost use Rattle.std.specs.Prelude.{◌≡◌, ◌≢◌, ◌^◌, ◌<◌, ◌≤◌, IfOk, IfErr, IsTrue, Some, length, map, slice_get, take};
ghost use Rattle.std.specs.List.{flat_map};
ghost use Rattle.hunk_words.specs.declared.reason.Reason.TheVariants as reasons;
ghost use Rattle.hunk_words.specs.Longs.{bytes_of};
ghost use Rattle.hunk_words.specs.Prints.{Prints};
ghost use Rattle.hunk_words.specs.Puts.{PutsText};
ghost use Rattle.hunk_files.specs.LoadFile.{IsLoadFile};
ghost use Rattle.hunk_files.specs.Image.{declared_bytes};
ghost use Rattle.hunk_files.specs.LoadText.{table, text};
ghost use Rattle.hunk_files.specs.Fault.{BeginsWithLoadFile, HasFault, is_load_refusal};
ghost use Rattle.hunk_files.specs.Lacks.{LacksLoadPart};
ghost use Rattle.hunk_files.specs.Tables.{row_texts, size_entry};
ghost use Rattle.hunk_files.specs.Hunks.{block_texts};

use crate::blocks::print_blocks;
use crate::load::hunk::LoadHunk;
use crate::load::view::LoadView;
use crate::row::print_row;
use hunk_blocks::Block;
use hunk_words::{FileFault, HEADER_WORD, LongWriter, Printer, Sink, SizeWord, WriteFault};
use std::alloc::Global;
use std::marker::Model;

/// A load file of the input, made by `decode` or `strip` alone. Contracts see it as its load-file
/// value.
#[derive(Debug, Drop)]
pub struct LoadFile<'a> {
    pub(super) hunks: Vec<LoadHunk<'a>>,
    /// The file that was read, whose memory is the same: stripping leaves alone what is loaded.
    pub(super) view: LoadView<'a>,
}

impl<'a> Model for LoadFile<'a> {
    ghost use Rattle.std.specs.Prelude.{map};
    ghost use Rattle.hunk_files.specs.Image.{HasMemoryOf};
    ghost use Rattle.hunk_files.specs.LoadFile.{LoadFileValue, IsLoadFile};
    ghost use Rattle.hunk_files.specs.Tables.{hunk_of};

    ghost Value = { LoadFileValue };

    ghost view = { λ s. map hunk_of s.hunks.items };

    ghost invariant = { λ s. IsLoadFile (map hunk_of s.hunks.items)
        × HasMemoryOf (map hunk_of s.hunks.items) s.view };
}

impl<'a> LoadFile<'a> {
    /// The load file that the bytes begin with, and the number of its bytes. It ends with the END
    /// of its last hunk; what follows is not read.
    ///
    /// No memory is asked for before the file was seen to be whole.
    ///
    /// Source: The AmigaDOS Manual, 3rd edition, Amiga binary file structure, and `dos/doshunks.h`.
    ///
    /// # Errors
    ///
    /// The place is in bytes from the start of the input.
    ///
    /// - Where a longword is refused: the first, in file order, that no load file has there, at
    ///   its first byte, with the reason.
    /// - `Truncated` where all whole longwords are those of a load file that goes on, at 4 times
    ///   their number.
    /// - `OutOfMemory` where memory is refused for the groups or entries of a block, a block or a
    ///   hunk, at the last longword of what was to be kept. The bytes begin with a load file then,
    ///   so it hides no fault.
    pub fn decode(alloc: Global, bytes: &'a [u8]) -> Result<(LoadFile<'a>, usize), FileFault>
        ensures valid { IfOk result (λ r. IsLoadFile r.0) }
        ensures text { IfOk result (λ r. take r.1 bytes.entry.now ≡ bytes_of (text r.0)) }
        ensures inside { IfOk result (λ r. r.1 ≤ length bytes.entry.now) }
        ensures fault { IfErr result (λ fault. fault.reason ≢ reasons.OutOfMemory →
            HasFault bytes.entry.now fault.place fault.reason) }
        ensures none { IfErr result (λ fault. fault.reason ≢ reasons.OutOfMemory →
            BeginsWithLoadFile bytes.entry.now → ⊥) }
        ensures memory { IfErr result (λ fault. fault.reason ≡ reasons.OutOfMemory →
            LacksLoadPart bytes.entry.now fault.place) }
        ensures own_reasons { IfErr result (λ fault. IsTrue (is_load_refusal fault.reason)) }
    {
        let (view, size) = LoadView::read(bytes)?;
        let file = view.keep(alloc)?;
        Ok((file, size))
    }

    /// The number of hunks, from 1 to 65,536, `MOST_HUNKS`.
    pub fn hunks(&self) -> u32
        ensures value { result ≡ length self.now }
        ensures file { IsLoadFile self.now }
    {
        self.hunks.len() as u32
    }

    /// What the table declares of hunk `i`, counted from 0.
    pub fn table(&self, i: u32) -> SizeWord
        requires { i < length self.now }
        ensures { slice_get (table self.now) i ≡ Some (size_entry result) }
    {
        self.hunks[i as usize].row.size()
    }

    /// The blocks of hunk `i`, counted from 0, up to its END.
    pub fn hunk(&self, i: u32) -> &[Block<'a>]
        requires { i < length self.now }
        ensures { slice_get (map (λ h. h.blocks) self.now) i ≡ Some result.now }
    {
        &self.hunks[i as usize].blocks
    }

    /// The number of bytes that the table declares, all hunks together.
    pub fn total(&self) -> u64
        ensures value { result ≡ declared_bytes (table self.now) }
        ensures bound { result ≤ 2 ^ 48 }
    {
        self.view.total()
    }

    /// Prints the file's text.
    fn print<W: Sink>(&self, page: &mut Printer<'_, W>)
        ensures { Prints page.old page.new (bytes_of (text self.now)) }
    {
        let hunks = self.hunks.as_slice();
        let count = self.hunks();
        print_longs(page, &[HEADER_WORD, 0, count, 0, count - 1]);
        print_table(page, hunks);
        print_hunks(page, hunks);
    }

    /// Writes the file's text: the bytes that it was decoded from, where it was not stripped.
    ///
    /// It goes out by pages, and takes no memory.
    ///
    /// # Errors
    ///
    /// A `WriteFault` where the writer's sink failed, now or before: just the first `written`
    /// bytes of all that was ever put have gone out. Later puts write nothing and answer the same.
    /// A writer that had failed before stays as it was.
    pub fn encode<W: Sink>(&self, writer: &mut LongWriter<W>) -> Result<(), WriteFault>
        ensures { PutsText W.outlet writer.old writer.new (bytes_of (text self.now)) result }
    {
        let mut page = Printer::new(writer);
        self.print(&mut page);
        let result = page.flush();
        let _out = page.into_inner();
        result
    }
}

/// The longwords.
fn print_longs<W: Sink>(page: &mut Printer<'_, W>, longs: &[u32])
    ensures { Prints page.old page.new (bytes_of longs.now) }
{
    'putting: for long in longs {
        page.print_long(*long);
    }
}

/// The rows of the table.
fn print_table<W: Sink>(page: &mut Printer<'_, W>, hunks: &[LoadHunk<'_>])
    ensures { Prints page.old page.new (bytes_of (row_texts hunks.now)) }
{
    'putting: for hunk in hunks {
        print_row(page, &hunk.row);
    }
}

/// The blocks of all hunks.
fn print_hunks<W: Sink>(page: &mut Printer<'_, W>, hunks: &[LoadHunk<'_>])
    ensures { Prints page.old page.new
        (bytes_of (flat_map (λ h. block_texts h.blocks.items) hunks.now)) }
{
    'putting: for hunk in hunks {
        print_blocks(page, &hunk.blocks);
    }
}
