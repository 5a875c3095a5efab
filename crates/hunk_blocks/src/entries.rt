//! The entries of an EXT block.
ghost use Rattle.std.specs.Prelude.{◌≡◌, IfErr, IfOk, Some, map};
ghost use Rattle.std.specs.Iterator.{item_count};
ghost use Rattle.std.specs.List.{AllByRecursion};
ghost use Rattle.hunk_words.specs.declared.reason.Reason.TheVariants as reasons;
ghost use Rattle.hunk_words.specs.Longs.{bytes_of};
ghost use Rattle.hunk_words.specs.Prints.{Prints};
ghost use Rattle.hunk_blocks.specs.Cuts.{entry_cut, list_cut, shaped_cut};
ghost use Rattle.hunk_blocks.specs.Entries.{IsShaped, shaped_text};
ghost use Rattle.hunk_grammar.specs.ExtKinds.{ext_kind, ext_shape};
ghost use Rattle.hunk_blocks.specs.Parts.{ext_text, list_text};
ghost use Rattle.hunk_blocks.specs.Placed.{EndsItemAt, GivesFirst};
ghost use Rattle.hunk_blocks.specs.Reading.{BeginsWithList, BeginsWithSome, ReadsValue};
ghost use Rattle.hunk_blocks.specs.Values.{IsExtEntry, ext_type};
ghost use Rattle.hunk_blocks.specs.Views.{entry_of};

use crate::growing::append;
use crate::list::{BlockList, out_of_memory};
use crate::long_reader::LongReader;
use crate::longs::Longs;
use crate::payload::{Payload, print_counted, print_payload};
use hunk_grammar::{ExtKind, ExtShape, kind_of, shape_of};
use hunk_words::{BlockFault, PagePrinter, Sink};
use std::alloc::Global;
use std::marker::Model;

/// An entry of an EXT block: a definition, or references.
///
/// Source: The AmigaDOS Manual, `dos/doshunks.h`. `ExtKind` says of which types the layout is this
/// project's own choice.
#[derive(Debug, Drop)]
pub struct Entry<'a> {
    /// The type in the top byte, and the number of longwords of the name in the low 24 bits.
    pub word: u32,
    /// The bytes of the name, padded with zero bytes.
    pub name: Payload<'a>,
    /// The value of a definition or the size in bytes of a common block, else 0.
    pub value: u32,
    /// Where the references stand, in bytes from the start of the hunk; none in a definition.
    pub offsets: Longs<'a>,
}

impl Entry<'_> {
    /// The type, by the top byte of the word; `None` for a number that is not accepted, which no
    /// entry of a block has.
    #[inline(always)]
    pub fn kind(&self) -> Option<ExtKind>
        ensures { result ≡ ext_kind (ext_type (entry_of self.now)) }
    {
        kind_of(self.word)
    }

    /// What stands after the name, as the type says; `None` where `kind` is.
    #[inline(always)]
    pub fn shape(&self) -> Option<ExtShape>
        ensures { result ≡ ext_shape (ext_type (entry_of self.now)) }
    {
        shape_of(self.word)
    }
}

/// The entries of an EXT block, in file order.
pub type Entries<'a> = BlockList<Entry<'a>>;

/// The entries of an EXT block that are still to come, each read where it lies. It takes no
/// memory. Contracts see the list of them, and the byte of the input at which the next begins.
#[derive(Drop)]
pub struct EntriesIter<'a> {
    reader: LongReader<'a>,
}

impl<'a> Model for EntriesIter<'a> {
    ghost use Rattle.std.specs.Prelude.{List};
    ghost use Rattle.hunk_blocks.specs.Cuts.{entry_cut, list_cut};
    ghost use Rattle.hunk_blocks.specs.Parts.{ext_text};
    ghost use Rattle.hunk_blocks.specs.Placed.{Placed};
    ghost use Rattle.hunk_blocks.specs.Reading.{BeginsWithList};
    ghost use Rattle.hunk_blocks.specs.Values.{IsExtEntry, ExtEntry};

    ghost Value = { Placed (List ExtEntry) };

    ghost view = { λ s. record {
      place = s.reader.place;
      value = (list_cut entry_cut s.reader.rest).value;
    } };

    ghost invariant = { λ s. BeginsWithList IsExtEntry ext_text s.reader.rest };
}

impl<'a> EntriesIter<'a> {
    /// The entries that come next; the reader goes on after the zero that ends them.
    #[inline(always)]
    pub(crate) fn of(reader: &mut LongReader<'a>) -> EntriesIter<'a>
        requires { BeginsWithList IsExtEntry ext_text reader.old.rest }
        ensures read { ReadsValue (list_cut entry_cut) reader.old reader.new result.value }
        ensures place { result.place ≡ reader.old.place }
    {
        let entries = EntriesIter {
            reader: reader.again(),
        };
        *reader = after_entries(reader.again());
        entries
    }

    /// The byte of the input at which the next entry begins, or the zero that ends the block.
    #[inline(always)]
    pub fn place(&self) -> u64
        ensures { result ≡ self.now.place }
    {
        self.reader.at as u64
    }

    /// The same entries again.
    #[inline(always)]
    pub fn again(&self) -> EntriesIter<'a>
        ensures { result ≡ self.now }
    {
        EntriesIter {
            reader: self.reader.again(),
        }
    }
}

impl<'a> Iterator for EntriesIter<'a> {
    type Item = Entry<'a>;

    ghost next_gives = { GivesFirst entry_of ext_text };

    ghost remaining = { item_count (λ s. s.value) };

    #[tactic(auto, using(crate::proofs::CutLaws::entries_are_cut, crate::proofs::ListReading::item_there))]
    #[inline(always)]
    fn next(&mut self) -> Option<Entry<'a>> {
        if self.reader.peek() == 0 {
            return None;
        }
        Some(read_entry(&mut self.reader))
    }
}

/// What stands after the name of an entry of this shape: its value and its offsets.
#[inline(always)]
fn read_shaped<'a>(reader: &mut LongReader<'a>, shape: ExtShape) -> (u32, Longs<'a>)
    requires { BeginsWithSome (IsShaped (Some shape)) (shaped_text (Some shape)) reader.old.rest }
    ensures { ReadsValue (shaped_cut (Some shape)) reader.old reader.new result }
{
    match shape {
        ExtShape::Definition => (reader.long(), Longs::none()),
        ExtShape::References => {
            let payload = reader.counted();
            (0, Longs { payload })
        }
        ExtShape::Common => {
            let size = reader.long();
            let payload = reader.counted();
            (size, Longs { payload })
        }
    }
}

/// The reader after the entries that come next and the zero that ends them. It is given away, so
/// that the reader of other blocks stays in registers.
#[tactic(auto, using(crate::proofs::CutLaws::entries_are_cut, crate::proofs::ListReading::item_there))]
#[inline(never)]
fn after_entries<'a>(reader: LongReader<'a>) -> LongReader<'a>
    requires { BeginsWithList IsExtEntry ext_text reader.rest }
    ensures { ReadsValue (list_cut entry_cut) reader.entry result
        (list_cut entry_cut reader.entry.rest).value }
{
    let mut reader = reader;
    'passing: while reader.peek() != 0 {
        let _ = read_entry(&mut reader);
    }
    let _ = reader.long();
    reader
}

/// The next entry (The AmigaDOS Manual, `dos/doshunks.h`).
#[inline(always)]
fn read_entry<'a>(reader: &mut LongReader<'a>) -> Entry<'a>
    requires { BeginsWithSome IsExtEntry ext_text reader.old.rest }
    ensures { ReadsValue entry_cut reader.old reader.new (entry_of result) }
{
    let word = reader.long();
    let name = reader.name(word);
    match shape_of(word) {
        Some(shape) => {
            let (value, offsets) = read_shaped(reader, shape);
            Entry {
                word,
                name,
                value,
                offsets,
            }
        }
        None => unreachable!(),
    }
}

/// The entries in a list.
///
/// # Errors
///
/// `OutOfMemory` at the last longword of the entry for which no memory was found.
pub(crate) fn keep_entries<'a>(
    alloc: Global,
    mut entries: EntriesIter<'a>,
) -> Result<Entries<'a>, BlockFault>
    ensures kept { IfOk result (λ kept. map entry_of kept ≡ entries.entry.value) }
    ensures memory { IfErr result (λ fault. fault.reason ≡ reasons.OutOfMemory) }
    ensures place { IfErr result (λ fault. EndsItemAt ext_text entries.entry fault.place) }
{
    let mut kept = Vec::new(alloc);
    'keeping: while let Some(entry) = entries.next() {
        if append(&mut kept, entry).is_err() {
            return Err(out_of_memory(entries.place()));
        }
    }
    Ok(Entries::of(kept))
}

/// The word, the name, and what stands after it in an entry of its type.
fn print_entry<W: Sink, const ROOM: usize>(page: &mut PagePrinter<'_, W, ROOM>, entry: &Entry<'_>)
    requires { IsExtEntry (entry_of entry.now) }
    ensures { Prints page.old page.new (bytes_of (ext_text (entry_of entry.now))) }
{
    page.print_long(entry.word);
    print_payload(page, &entry.name);
    match entry.shape() {
        Some(ExtShape::Definition) => page.print_long(entry.value),
        Some(ExtShape::References) => print_counted(page, entry.offsets.payload()),
        Some(ExtShape::Common) => {
            page.print_long(entry.value);
            print_counted(page, entry.offsets.payload());
        }
        None => unreachable!(),
    }
}

/// The entries of an EXT block, and the zero that ends them.
pub(crate) fn print_entries<W: Sink, const ROOM: usize>(
    page: &mut PagePrinter<'_, W, ROOM>,
    entries: &[Entry<'_>],
)
    requires { AllByRecursion IsExtEntry (map entry_of entries.now) }
    ensures { Prints page.old page.new
        (bytes_of (list_text ext_text (map entry_of entries.now))) }
{
    'entries: for entry in entries {
        print_entry(page, entry);
    }
    page.print_long(0);
}
