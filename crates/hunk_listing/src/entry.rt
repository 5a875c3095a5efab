//! The lines of an EXT entry.
ghost use Rattle.std.specs.Prelude.{◌≡◌, ◌≤◌, ◌++◌, length, take, codes, decimal};
ghost use Rattle.hunk_words.specs.Prints.{Prints};
ghost use Rattle.std.specs.List.{flat_map};
ghost use Rattle.hunk_grammar.specs.ExtKinds.{ext_name};
ghost use Rattle.hunk_blocks.specs.Views.{entry_of};
ghost use Rattle.hunk_listing.specs.BlockLines.{common_line, definition_line, entry_line, entry_lines};
ghost use Rattle.hunk_listing.specs.BlockLines.{offset_line, reference_line};
ghost use Rattle.hunk_listing.specs.Printed.{hexadecimal};

use crate::put::{OffsetFront, OffsetLine, put, put_decimal, put_hexadecimal};
use crate::text::print_name;
use hunk_blocks::{Entry, ExtKind, ExtShape, Longs};
use hunk_words::{LINE, PageLine, Printer, Sink};

/// Prints the lines of the entry.
pub(crate) fn print_entry<W: Sink>(page: &mut Printer<'_, W>, entry: &Entry<'_>)
    ensures { Prints page.old page.new (entry_lines (entry_of entry.now)) }
{
    if let Some(kind) = entry.kind() {
        print_entry_line(page, kind, entry);
        print_offsets(page, &entry.offsets);
    }
}

fn print_entry_line<W: Sink>(page: &mut Printer<'_, W>, kind: ExtKind, entry: &Entry<'_>)
    ensures { Prints page.old page.new (entry_line kind (entry_of entry.now)) }
{
    match kind.shape() {
        ExtShape::Definition => print_definition(page, kind, entry),
        ExtShape::Common => print_common(page, kind, entry),
        ExtShape::References => print_reference(page, kind, entry),
    }
}

/// Four spaces and the name of the type.
#[inline(always)]
fn put_kind(room: &mut [u8], kind: ExtKind) -> usize
    requires { LINE ≤ length room.old }
    ensures text { take result room.new ≡ codes "    " ++ ext_name kind ++ codes " " }
    ensures bound { result ≤ 14 }
{
    let at = put(room, 0, b"    ");
    let at = put(room, at, kind.name().as_bytes());
    put(room, at, b" ")
}

/// The front of a definition's line, before its name.
#[derive(Drop)]
struct DefinitionFront {
    kind: ExtKind,
    value: u32,
}

impl PageLine for DefinitionFront {
    ghost text = { λ s. codes "    " ++ ext_name s.kind ++ codes " " ++ hexadecimal s.value ++ codes " " };

    #[inline(always)]
    fn put(&self, room: &mut [u8]) -> usize {
        let at = put_kind(room, self.kind);
        let at = put_hexadecimal(room, at, self.value);
        put(room, at, b" ")
    }
}

/// The front of the line of references, before the name.
#[derive(Drop)]
struct ReferenceFront {
    kind: ExtKind,
    count: u64,
}

impl PageLine for ReferenceFront {
    ghost text = { λ s. codes "    " ++ ext_name s.kind ++ codes " " ++ decimal s.count ++ codes " " };

    #[inline(always)]
    fn put(&self, room: &mut [u8]) -> usize {
        let at = put_kind(room, self.kind);
        let at = put_decimal(room, at, self.count);
        put(room, at, b" ")
    }
}

/// The front of the line of a common block, before its name.
#[derive(Drop)]
struct CommonFront {
    kind: ExtKind,
    size: u32,
    count: u64,
}

impl PageLine for CommonFront {
    ghost text = { λ s. codes "    " ++ ext_name s.kind ++ codes " "
        ++ decimal s.size ++ codes " " ++ decimal s.count ++ codes " " };

    fn put(&self, room: &mut [u8]) -> usize {
        let at = put_kind(room, self.kind);
        let at = put_decimal(room, at, u64::from(self.size));
        let at = put(room, at, b" ");
        let at = put_decimal(room, at, self.count);
        put(room, at, b" ")
    }
}

#[tactic(auto, unfolding(crate::specs::BlockLines::definition_line))]
fn print_definition<W: Sink>(page: &mut Printer<'_, W>, kind: ExtKind, entry: &Entry<'_>)
    ensures { Prints page.old page.new (definition_line kind (entry_of entry.now)) }
{
    page.print_line(&DefinitionFront {
        kind,
        value: entry.value,
    });
    print_name(page, &entry.name);
}

#[tactic(auto, unfolding(crate::specs::BlockLines::reference_line))]
fn print_reference<W: Sink>(page: &mut Printer<'_, W>, kind: ExtKind, entry: &Entry<'_>)
    ensures { Prints page.old page.new (reference_line kind (entry_of entry.now)) }
{
    page.print_line(&ReferenceFront {
        kind,
        count: entry.offsets.len() as u64,
    });
    print_name(page, &entry.name);
}

#[tactic(auto, unfolding(crate::specs::BlockLines::common_line))]
fn print_common<W: Sink>(page: &mut Printer<'_, W>, kind: ExtKind, entry: &Entry<'_>)
    ensures { Prints page.old page.new (common_line kind (entry_of entry.now)) }
{
    page.print_line(&CommonFront {
        kind,
        size: entry.value,
        count: entry.offsets.len() as u64,
    });
    print_name(page, &entry.name);
}

#[tactic(auto, unfolding(crate::specs::BlockLines::offset_line))]
fn print_offsets<W: Sink>(page: &mut Printer<'_, W>, offsets: &Longs<'_>)
    ensures { Prints page.old page.new (flat_map offset_line offsets.now) }
{
    let front = OffsetFront::of_reference();
    'offsets: for offset in offsets.iter() {
        page.print_line(&OffsetLine {
            front: &front,
            offset,
        });
    }
}
