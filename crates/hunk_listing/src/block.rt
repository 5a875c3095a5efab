//! The lines of a block.
ghost use Rattle.std.specs.Prelude.{◌≡◌, ◌*◌, ◌^◌, ◌<◌, ◌≤◌, ◌+◌, ◌++◌, length, take, codes};
ghost use Rattle.hunk_words.specs.Prints.{Prints};
ghost use Rattle.hunk_words.specs.Longs.{longs};
ghost use Rattle.hunk_blocks.specs.Values.{Ext, Reloc, Symbol, offset_count};
ghost use Rattle.hunk_blocks.specs.Views.{group_of, symbol_of};
ghost use Rattle.hunk_listing.specs.BlockLines.{advisory_line, block_lines, body_lines, count_line, end_line};
ghost use Rattle.hunk_listing.specs.BlockLines.{group_lines, head, name_line, size_line, symbol_line};
ghost use Rattle.hunk_listing.specs.BlockNames.{block_flags, kind_name, memory_flags};
ghost use Rattle.hunk_listing.specs.Printed.{hexadecimal};

use crate::entry::print_entry;
use crate::put::{OffsetFront, OffsetLine, put, put_decimal, put_hexadecimal};
use crate::text::print_name;
use hunk_blocks::{
    BlockView, BodyView, EntriesIter, Group, GroupsIter, Payload, SymbolView, SymbolsIter,
};
use hunk_words::{BlockWord, Kind, LINE, PageLine, Printer, Sink, SizeWord};

/// The flags of a block word, as `BlockWord::flags` gives them.
const ADVISORY: u8 = 1;

const CHIP: u8 = 2;

const FAST: u8 = 4;

/// Prints the lines of a block.
pub(crate) fn print_block<W: Sink>(page: &mut Printer<'_, W>, block: &BlockView<'_>)
    ensures { Prints page.old page.new (block_lines block.now.value) }
{
    let word = block.word();
    // The text has a longword for each offset, so their number fits.
    let _size = block.encoded_len();
    match block.body() {
        BodyView::Name(name) => print_name_line(page, word, name),
        BodyView::Code { payload, .. }
        | BodyView::Data { payload, .. }
        | BodyView::Debug(payload) => {
            print_size(page, word, payload.byte_count());
        }
        BodyView::Bss { size } => {
            let size = SizeWord {
                word: *size,
                extra: 0,
            };
            print_size(page, word, size.bytes());
        }
        BodyView::Reloc(groups) => print_relocations(page, word, groups),
        BodyView::Ext(entries) => print_entries(page, word, entries),
        BodyView::Symbol(symbols) => print_symbols(page, word, symbols),
        BodyView::End => print_end(page, word),
        BodyView::Advisory(payload) => print_advisory(page, word, payload),
    }
}

/// The name of a block as `dos/doshunks.h` has it, and ` advisory`, ` chip` and ` fast` for the flags
/// of its word. A block without a name there is advisory.
#[tactic(auto, unfolding(crate::specs::BlockLines::head, crate::specs::BlockNames::block_flags))]
#[inline(always)]
fn put_head(room: &mut [u8], word: BlockWord) -> usize
    requires { LINE ≤ length room.old }
    ensures text { take result room.new ≡ head word }
    ensures bound { result ≤ 33 }
{
    let at = put_name(room, word.kind());
    if word.flags() == 0 {
        return at;
    }
    put_flags(room, at, word)
}

/// Two spaces and the name. Those of the most usual blocks are constants, which take a step or two.
#[inline(always)]
fn put_name(room: &mut [u8], kind: Kind) -> usize
    requires { LINE ≤ length room.old }
    ensures text { take result room.new ≡ codes "  " ++ kind_name kind }
    ensures bound { result ≤ 14 }
{
    match kind {
        Kind::Code => put(room, 0, b"  CODE"),
        Kind::Data => put(room, 0, b"  DATA"),
        Kind::Bss => put(room, 0, b"  BSS"),
        Kind::Reloc32 => put(room, 0, b"  RELOC32"),
        Kind::Ext => put(room, 0, b"  EXT"),
        Kind::Symbol => put(room, 0, b"  SYMBOL"),
        Kind::Debug => put(room, 0, b"  DEBUG"),
        Kind::End => put(room, 0, b"  END"),
        _ => {
            let at = put(room, 0, b"  ");
            put(room, at, kind.name().unwrap_or("ADVISORY").as_bytes())
        }
    }
}

/// Puts ` advisory`, ` chip` and ` fast` for the flags that the word has.
#[tactic(auto, unfolding(crate::specs::BlockNames::block_flags))]
fn put_flags(room: &mut [u8], at: usize, word: BlockWord) -> usize
    requires { at + 19 ≤ length room.old }
    ensures text { take result room.new ≡ take at room.old ++ block_flags word }
    ensures bound { result ≤ at + 19 }
{
    let mut at = at;
    if word.flags() / ADVISORY % 2 == 1 {
        at = put(room, at, b" advisory");
    }
    put_memory_flags(room, at, word)
}

/// Puts ` chip` and ` fast` for the flags that the word has.
#[tactic(auto, unfolding(crate::specs::BlockNames::memory_flags))]
fn put_memory_flags(room: &mut [u8], at: usize, word: BlockWord) -> usize
    requires { at + 10 ≤ length room.old }
    ensures text { take result room.new ≡ take at room.old ++ memory_flags word }
    ensures bound { result ≤ at + 10 }
{
    let flags = word.flags();
    let mut at = at;
    if flags / CHIP % 2 == 1 {
        at = put(room, at, b" chip");
    }
    if flags / FAST % 2 == 1 {
        at = put(room, at, b" fast");
    }
    at
}

/// The line of a block whose name and flags a number of bytes follows.
#[derive(Drop)]
struct SizeLine {
    word: BlockWord,
    bytes: u64,
}

impl PageLine for SizeLine {
    ghost text = { λ s. size_line s.word s.bytes };

    #[inline(always)]
    fn put(&self, room: &mut [u8]) -> usize {
        let at = put_head(room, self.word);
        let at = put(room, at, b" ");
        let at = put_decimal(room, at, self.bytes);
        put(room, at, b" bytes\n")
    }
}

/// The line of a block before a line or more for each of so many.
#[derive(Drop)]
struct CountLine {
    word: BlockWord,
    count: u64,
}

impl PageLine for CountLine {
    ghost text = { λ s. count_line s.word s.count };

    #[inline(always)]
    fn put(&self, room: &mut [u8]) -> usize {
        let at = put_head(room, self.word);
        let at = put(room, at, b" ");
        let at = put_decimal(room, at, self.count);
        put(room, at, b"\n")
    }
}

/// The line of an END block.
#[derive(Drop)]
struct EndLine {
    word: BlockWord,
}

impl PageLine for EndLine {
    ghost text = { λ s. end_line s.word };

    #[tactic(auto, unfolding(crate::specs::BlockLines::end_line))]
    #[inline(always)]
    fn put(&self, room: &mut [u8]) -> usize {
        let at = put_head(room, self.word);
        put(room, at, b"\n")
    }
}

/// The front of the line of a NAME block, before the name.
#[derive(Drop)]
struct NameFront {
    word: BlockWord,
}

impl PageLine for NameFront {
    ghost text = { λ s. head s.word ++ codes " " };

    #[inline(always)]
    fn put(&self, room: &mut [u8]) -> usize {
        let at = put_head(room, self.word);
        put(room, at, b" ")
    }
}

/// The front of a symbol's line, before its name.
#[derive(Drop)]
struct SymbolFront {
    value: u32,
}

impl PageLine for SymbolFront {
    ghost text = { λ s. codes "    " ++ hexadecimal s.value ++ codes " " };

    #[inline(always)]
    fn put(&self, room: &mut [u8]) -> usize {
        let at = put(room, 0, b"    ");
        let at = put_hexadecimal(room, at, self.value);
        put(room, at, b" ")
    }
}

#[tactic(auto, unfolding(crate::specs::BlockLines::name_line))]
fn print_name_line<W: Sink>(page: &mut Printer<'_, W>, word: BlockWord, name: &Payload<'_>)
    ensures { Prints page.old page.new (name_line word (longs name.now)) }
{
    page.print_line(&NameFront { word });
    print_name(page, name);
}

fn print_size<W: Sink>(page: &mut Printer<'_, W>, word: BlockWord, bytes: u64)
    ensures { Prints page.old page.new (size_line word bytes) }
{
    page.print_line(&SizeLine { word, bytes });
}

fn print_count<W: Sink>(page: &mut Printer<'_, W>, word: BlockWord, count: u64)
    ensures { Prints page.old page.new (count_line word count) }
{
    page.print_line(&CountLine { word, count });
}

fn print_end<W: Sink>(page: &mut Printer<'_, W>, word: BlockWord)
    ensures { Prints page.old page.new (end_line word) }
{
    page.print_line(&EndLine { word });
}

fn print_advisory<W: Sink>(page: &mut Printer<'_, W>, word: BlockWord, payload: &Payload<'_>)
    ensures { Prints page.old page.new (advisory_line word (4 * length (longs payload.now))) }
{
    let bytes = payload.byte_count();
    page.print_line(&AdvisoryLine { word, bytes });
}

/// The line of an advisory block: its number, its size and the flags of its memory.
#[derive(Drop)]
struct AdvisoryLine {
    word: BlockWord,
    bytes: u64,
}

impl PageLine for AdvisoryLine {
    ghost text = { λ s. advisory_line s.word s.bytes };

    #[tactic(auto, unfolding(crate::specs::BlockLines::advisory_line))]
    fn put(&self, room: &mut [u8]) -> usize {
        let at = put(room, 0, b"  ADVISORY ");
        let at = put_decimal(room, at, u64::from(self.word.word() & 0x1FFF_FFFF));
        let at = put(room, at, b" ");
        let at = put_decimal(room, at, self.bytes);
        let at = put(room, at, b" bytes");
        let at = put_memory_flags(room, at, self.word);
        put(room, at, b"\n")
    }
}

/// The relocations of all groups.
fn print_relocations<W: Sink>(page: &mut Printer<'_, W>, word: BlockWord, groups: &GroupsIter<'_>)
    requires { offset_count groups.now.value < 2 ^ 64 }
    ensures { Prints page.old page.new (body_lines word (Reloc groups.now.value)) }
{
    print_count(page, word, groups.offset_count());
    'groups: for group in groups.again() {
        print_group(page, &group);
    }
}

#[tactic(auto, unfolding(crate::specs::BlockLines::relocation_line))]
fn print_group<W: Sink>(page: &mut Printer<'_, W>, group: &Group<'_>)
    ensures { Prints page.old page.new (group_lines (group_of group.now)) }
{
    let front = OffsetFront::of_target(group.target);
    'offsets: for offset in group.offsets.iter() {
        page.print_line(&OffsetLine {
            front: &front,
            offset,
        });
    }
}

fn print_symbols<W: Sink>(page: &mut Printer<'_, W>, word: BlockWord, symbols: &SymbolsIter<'_>)
    requires { length symbols.now.value < 2 ^ 64 }
    ensures { Prints page.old page.new (body_lines word (Symbol symbols.now.value)) }
{
    print_count(page, word, symbols.again().count() as u64);
    'symbols: for symbol in symbols.again() {
        print_symbol(page, &symbol);
    }
}

#[tactic(auto, unfolding(crate::specs::BlockLines::symbol_line))]
fn print_symbol<W: Sink>(page: &mut Printer<'_, W>, symbol: &SymbolView<'_>)
    ensures { Prints page.old page.new (symbol_line (symbol_of symbol.now)) }
{
    page.print_line(&SymbolFront {
        value: symbol.value,
    });
    print_name(page, &symbol.name);
}

fn print_entries<W: Sink>(page: &mut Printer<'_, W>, word: BlockWord, entries: &EntriesIter<'_>)
    requires { length entries.now.value < 2 ^ 64 }
    ensures { Prints page.old page.new (body_lines word (Ext entries.now.value)) }
{
    print_count(page, word, entries.again().count() as u64);
    'entries: for entry in entries.again() {
        print_entry(page, &entry);
    }
}
