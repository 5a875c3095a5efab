//! The lines of a load file.
ghost use Rattle.std.specs.Prelude.{◌≡◌, ◌≤◌, ◌+◌, ◌++◌, length, take};
ghost use Rattle.hunk_words.specs.Prints.{Prints};
ghost use Rattle.hunk_files.specs.LoadHunks.{hunk_seen};
ghost use Rattle.hunk_files.specs.Tables.{size_entry};
ghost use Rattle.hunk_listing.specs.FileLines.{hunk_line, hunk_lines, load_head, load_line};
ghost use Rattle.hunk_listing.specs.FileLines.{load_listing, memory_text, rest_line};

use crate::block::print_block;
use crate::line::{print_number, print_numbers};
use crate::put::{put, put_decimal, put_hexadecimal};
use hunk_files::{LoadHunkView, LoadView};
use hunk_words::{Memory, PageLine, PagePrinter, Printer, Sink, SizeWord};

/// Lists the hunks and blocks of a load file that `rest` bytes follow.
pub fn print_load_file<W: Sink>(page: &mut Printer<'_, W>, file: &LoadView<'_>, rest: u64)
    ensures { Prints page.old page.new (load_listing file.now rest) }
{
    print_load_head(page, file);
    // The number of hunks has 32 bits, so they can be numbered.
    let _hunks = file.hunks();
    'hunks: for (number, hunk) in file.iter().enumerate() {
        print_hunk(page, number as u64, hunk);
    }
    if rest > 0 {
        print_rest(page, rest);
    }
}

/// Prints the line of the file: how many hunks it has, and how many bytes they declare.
pub(crate) fn print_load_head<W: Sink>(page: &mut Printer<'_, W>, file: &LoadView<'_>)
    ensures { Prints page.old page.new (load_head file.now) }
{
    print_load_line(page, file.hunks(), file.total());
}

/// Prints the line of a file of so many hunks, which declare so many bytes.
#[tactic(auto, unfolding(crate::specs::FileLines::load_line))]
pub(crate) fn print_load_line<W: Sink, const ROOM: usize>(
    page: &mut PagePrinter<'_, W, ROOM>,
    hunks: u32,
    bytes: u64,
)
    ensures { Prints page.old page.new (load_line hunks bytes) }
{
    let hunks = u64::from(hunks);
    print_numbers(page, b"load file ", hunks, b" hunks ", bytes, b" bytes\n");
}

/// Prints the lines of the hunk.
fn print_hunk<W: Sink>(page: &mut Printer<'_, W>, number: u64, hunk: LoadHunkView<'_>)
    ensures { Prints page.old page.new (hunk_lines number (hunk_seen hunk.entry)) }
{
    print_hunk_line(page, number, hunk.size);
    'lines: for block in hunk.blocks {
        print_block(page, &block);
    }
}

fn print_hunk_line<W: Sink>(page: &mut Printer<'_, W>, number: u64, size: SizeWord)
    ensures { Prints page.old page.new (hunk_line number (size_entry size)) }
{
    page.print_line(&HunkLine { number, size });
}

/// The line of a hunk.
#[derive(Drop)]
struct HunkLine {
    number: u64,
    size: SizeWord,
}

impl PageLine for HunkLine {
    ghost text = { λ s. hunk_line s.number (size_entry s.size) };

    #[tactic(auto, unfolding(crate::specs::FileLines::hunk_line))]
    #[inline(always)]
    fn put(&self, room: &mut [u8]) -> usize {
        let at = put(room, 0, b"hunk ");
        let at = put_decimal(room, at, self.number);
        let at = put(room, at, b" ");
        let at = put_decimal(room, at, self.size.bytes());
        let at = put(room, at, b" bytes ");
        let at = put_memory(room, at, self.size.memory());
        put(room, at, b"\n")
    }
}

fn put_memory(room: &mut [u8], at: usize, memory: Memory) -> usize
    requires { at + 21 ≤ length room.old }
    ensures text { take result room.new ≡ take at room.old ++ memory_text memory }
    ensures end { result ≤ at + 21 }
{
    match memory {
        Memory::Any => put(room, at, b"any"),
        Memory::Chip => put(room, at, b"chip"),
        Memory::Fast => put(room, at, b"fast"),
        Memory::Attributes(attributes) => {
            let at = put(room, at, b"attributes ");
            put_hexadecimal(room, at, attributes)
        }
    }
}

/// Prints the line that says how many bytes follow the file.
#[tactic(auto, unfolding(crate::specs::FileLines::rest_line))]
pub(crate) fn print_rest<W: Sink, const ROOM: usize>(page: &mut PagePrinter<'_, W, ROOM>, rest: u64)
    ensures { Prints page.old page.new (rest_line rest) }
{
    print_number(page, b"rest ", rest, b" bytes\n");
}
