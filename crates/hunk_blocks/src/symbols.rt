//! The entries of a SYMBOL block.
ghost use Rattle.std.specs.Prelude.{◌≡◌, ◌+◌, ◌<◌, ◌^◌, IfErr, IfOk, length, map};
ghost use Rattle.std.specs.Iterator.{item_count};
ghost use Rattle.hunk_words.specs.declared.reason.Reason.TheVariants as reasons;
ghost use Rattle.hunk_words.specs.Longs.{bytes_of};
ghost use Rattle.hunk_words.specs.Prints.{Prints};
ghost use Rattle.hunk_blocks.specs.Cuts.{list_cut, symbol_cut};
ghost use Rattle.hunk_blocks.specs.Parts.{symbol_text, list_text};
ghost use Rattle.hunk_blocks.specs.Placed.{EndsItemAt, GivesFirst};
ghost use Rattle.hunk_blocks.specs.Reading.{BeginsWithList, BeginsWithSome, ReadsValue};
ghost use Rattle.hunk_blocks.specs.Values.{IsSymbolEntry};
ghost use Rattle.hunk_blocks.specs.Views.{symbol_of};

use crate::growing::append;
use crate::list::{BlockList, out_of_memory};
use crate::long_reader::LongReader;
use crate::payload::{Payload, print_payload};
use hunk_words::{BlockFault, PagePrinter, Sink};
use std::alloc::Global;
use std::marker::Model;

/// An entry of a SYMBOL block.
///
/// Source: The AmigaDOS Manual, `dos/doshunks.h`. That an empty name does not end the block, and
/// that what stands after the first zero byte of a name is kept, is this project's own choice.
#[derive(Debug, Drop)]
pub struct SymbolView<'a> {
    /// The number of longwords of the name in the low 24 bits; the top byte is kept.
    pub word: u32,
    /// The bytes of the name, padded with zero bytes.
    pub name: Payload<'a>,
    /// The value of the symbol.
    pub value: u32,
}

/// The entries of a SYMBOL block, in file order.
pub type Symbols<'a> = BlockList<SymbolView<'a>>;

/// The entries of a SYMBOL block that are still to come, each read where it lies. It takes no
/// memory. Contracts see the list of them, and the byte of the input at which the next begins.
#[derive(Drop)]
pub struct SymbolsIter<'a> {
    reader: LongReader<'a>,
    /// How many entries are still to come.
    left: usize,
}

impl<'a> Model for SymbolsIter<'a> {
    ghost use Rattle.std.specs.Prelude.{◌≡◌, List, length};
    ghost use Rattle.hunk_blocks.specs.Cuts.{symbol_cut, list_cut};
    ghost use Rattle.hunk_blocks.specs.Parts.{symbol_text};
    ghost use Rattle.hunk_blocks.specs.Placed.{Placed};
    ghost use Rattle.hunk_blocks.specs.Reading.{BeginsWithList};
    ghost use Rattle.hunk_blocks.specs.Values.{IsSymbolEntry, SymbolEntry};

    ghost Value = { Placed (List SymbolEntry) };

    ghost view = { λ s. record {
      place = s.reader.place;
      value = (list_cut symbol_cut s.reader.rest).value;
    } };

    ghost invariant = { λ s. BeginsWithList IsSymbolEntry symbol_text s.reader.rest
        × (s.left ≡ length (list_cut symbol_cut s.reader.rest).value) };
}

impl<'a> SymbolsIter<'a> {
    /// The entries that come next; the reader goes on after the zero that ends them.
    #[tactic(auto, using(crate::proofs::CutLaws::symbols_are_cut, crate::proofs::ListReading::item_there))]
    pub(crate) fn of(reader: &mut LongReader<'a>) -> SymbolsIter<'a>
        requires { BeginsWithList IsSymbolEntry symbol_text reader.old.rest }
        ensures read { ReadsValue (list_cut symbol_cut) reader.old reader.new result.value }
        ensures place { result.place ≡ reader.old.place }
    {
        let start = reader.again();
        let mut count = 0;
        'passing: while reader.peek() != 0 {
            let _ = read_symbol(reader);
            count += 1;
        }
        let _ = reader.long();
        SymbolsIter {
            reader: start,
            left: count,
        }
    }

    /// The byte of the input at which the next entry begins, or the zero that ends the block.
    #[inline(always)]
    pub fn place(&self) -> u64
        ensures { result ≡ self.now.place }
    {
        self.reader.at as u64
    }

    /// How many entries are still to come.
    #[inline(always)]
    pub fn len(&self) -> usize
        ensures { result ≡ length self.now.value }
    {
        self.left
    }

    /// The same entries again.
    #[inline(always)]
    pub fn again(&self) -> SymbolsIter<'a>
        ensures { result ≡ self.now }
    {
        SymbolsIter {
            reader: self.reader.again(),
            left: self.left,
        }
    }
}

impl<'a> Iterator for SymbolsIter<'a> {
    type Item = SymbolView<'a>;

    ghost next_gives = { GivesFirst symbol_of symbol_text };

    ghost remaining = { item_count (λ s. s.value) };

    #[tactic(auto, using(crate::proofs::CutLaws::symbols_are_cut, crate::proofs::ListReading::item_there))]
    #[inline(always)]
    fn next(&mut self) -> Option<SymbolView<'a>> {
        if self.reader.peek() == 0 {
            return None;
        }
        self.left -= 1;
        Some(read_symbol(&mut self.reader))
    }
}

/// The next entry (The AmigaDOS Manual, `dos/doshunks.h`).
#[inline(always)]
fn read_symbol<'a>(reader: &mut LongReader<'a>) -> SymbolView<'a>
    requires { BeginsWithSome IsSymbolEntry symbol_text reader.old.rest }
    ensures read { ReadsValue symbol_cut reader.old reader.new (symbol_of result) }
    ensures bound { reader.old.place + 4 < 2 ^ 64 }
{
    let word = reader.long();
    let name = reader.name(word);
    let value = reader.long();
    SymbolView { word, name, value }
}

/// The entries in a list.
///
/// # Errors
///
/// `OutOfMemory` at the last longword of the entry for which no memory was found.
pub(crate) fn keep_symbols<'a>(
    alloc: Global,
    mut symbols: SymbolsIter<'a>,
) -> Result<Symbols<'a>, BlockFault>
    ensures kept { IfOk result (λ kept. map symbol_of kept ≡ symbols.entry.value) }
    ensures memory { IfErr result (λ fault. fault.reason ≡ reasons.OutOfMemory) }
    ensures place { IfErr result (λ fault. EndsItemAt symbol_text symbols.entry fault.place) }
{
    let mut kept = Vec::new(alloc);
    'keeping: while let Some(symbol) = symbols.next() {
        if append(&mut kept, symbol).is_err() {
            return Err(out_of_memory(symbols.place()));
        }
    }
    Ok(Symbols::of(kept))
}

/// The word, the name and the value.
#[tactic(auto, using(crate::proofs::TextBytes::symbol_printed))]
fn print_symbol<W: Sink, const ROOM: usize>(
    page: &mut PagePrinter<'_, W, ROOM>,
    symbol: &SymbolView<'_>,
)
    ensures { Prints page.old page.new (bytes_of (symbol_text (symbol_of symbol.now))) }
{
    page.print_long(symbol.word);
    print_payload(page, &symbol.name);
    page.print_long(symbol.value);
}

/// The entries of a SYMBOL block, and the zero that ends them.
pub(crate) fn print_symbols<W: Sink, const ROOM: usize>(
    page: &mut PagePrinter<'_, W, ROOM>,
    symbols: &[SymbolView<'_>],
)
    ensures { Prints page.old page.new
        (bytes_of (list_text symbol_text (map symbol_of symbols.now))) }
{
    'symbols: for symbol in symbols {
        print_symbol(page, symbol);
    }
    page.print_long(0);
}
