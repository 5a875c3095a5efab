//! The lines of an object file.
ghost use Rattle.std.specs.Prelude.{◌++◌, codes, decimal};
ghost use Rattle.hunk_words.specs.Prints.{Prints};
ghost use Rattle.hunk_words.specs.Longs.{longs};
ghost use Rattle.hunk_files.specs.ItemViews.{item_seen};
ghost use Rattle.hunk_listing.specs.FileLines.{item_lines, object_hunk_line, object_line, object_listing, unit_line};

use crate::block::print_block;
use crate::line::print_number;
use crate::put::{put, put_decimal};
use crate::text::print_name;
use hunk_blocks::Payload;
use hunk_files::{Item, ObjectView};
use hunk_words::{PageLine, Printer, Sink};

/// Lists the units, hunks and blocks of an object file.
pub fn print_object_file<W: Sink>(page: &mut Printer<'_, W>, file: &ObjectView<'_>)
    ensures { Prints page.old page.new (object_listing file.now) }
{
    print_object_line(page, file.units());
    'items: for item in file.items() {
        print_item(page, &item);
    }
}

/// Prints the line of a unit or a hunk that begins, or the lines of a block.
fn print_item<W: Sink>(page: &mut Printer<'_, W>, item: &Item<'_>)
    ensures { Prints page.old page.new (item_lines (item_seen item.now).value) }
{
    match item {
        Item::Unit { number, view } => print_unit_line(page, *number, &view.name()),
        Item::Hunk { number, view, .. } => print_hunk_line(page, *number, view.content_bytes()),
        Item::Block { view, .. } => print_block(page, view),
    }
}

/// Prints the line of the file: how many units it has.
#[tactic(auto, unfolding(crate::specs::FileLines::object_line))]
fn print_object_line<W: Sink>(page: &mut Printer<'_, W>, units: u64)
    ensures { Prints page.old page.new (object_line units) }
{
    print_number(page, b"object file ", units, b" units\n");
}

#[tactic(auto, unfolding(crate::specs::FileLines::unit_line))]
fn print_unit_line<W: Sink>(page: &mut Printer<'_, W>, number: u64, name: &Payload<'_>)
    ensures { Prints page.old page.new (unit_line number (longs name.now)) }
{
    page.print_line(&UnitFront { number });
    print_name(page, name);
}

/// The front of a unit's line, before its name.
#[derive(Drop)]
struct UnitFront {
    number: u64,
}

impl PageLine for UnitFront {
    ghost text = { λ s. codes "unit " ++ decimal s.number ++ codes " " };

    #[inline(always)]
    fn put(&self, room: &mut [u8]) -> usize {
        let at = put(room, 0, b"unit ");
        let at = put_decimal(room, at, self.number);
        put(room, at, b" ")
    }
}

fn print_hunk_line<W: Sink>(page: &mut Printer<'_, W>, number: u64, bytes: u64)
    ensures { Prints page.old page.new (object_hunk_line number bytes) }
{
    page.print_line(&HunkLine { number, bytes });
}

/// The line of a hunk.
#[derive(Drop)]
struct HunkLine {
    number: u64,
    bytes: u64,
}

impl PageLine for HunkLine {
    ghost text = { λ s. object_hunk_line s.number s.bytes };

    #[tactic(auto, unfolding(crate::specs::FileLines::object_hunk_line))]
    #[inline(always)]
    fn put(&self, room: &mut [u8]) -> usize {
        let at = put(room, 0, b"hunk ");
        let at = put_decimal(room, at, self.number);
        let at = put(room, at, b" ");
        let at = put_decimal(room, at, self.bytes);
        put(room, at, b" bytes\n")
    }
}
