//! The lines on a rewriting.
ghost use Rattle.std.specs.Prelude.{◌++◌};
ghost use Rattle.hunk_words.specs.Prints.{Prints};
ghost use Rattle.hunk_listing.specs.RewritingLines.{left_out_line, wrote_line};

use crate::line::print_number;
use hunk_words::{PagePrinter, Sink};

/// Prints the lines that say how many bytes were written, and how many after the file, where
/// there are some, were left out: `written` and `rest`.
pub fn print_rewriting<W: Sink, const ROOM: usize>(
    page: &mut PagePrinter<'_, W, ROOM>,
    written: u64,
    rest: u64,
)
    ensures { Prints page.old page.new (wrote_line written ++ left_out_line rest) }
{
    print_wrote(page, written);
    print_left_out(page, rest);
}

#[tactic(auto, unfolding(crate::specs::RewritingLines::wrote_line))]
fn print_wrote<W: Sink, const ROOM: usize>(page: &mut PagePrinter<'_, W, ROOM>, written: u64)
    ensures { Prints page.old page.new (wrote_line written) }
{
    print_number(page, b"wrote ", written, b" bytes\n");
}

#[tactic(auto, unfolding(crate::specs::RewritingLines::left_out_line))]
fn print_left_out<W: Sink, const ROOM: usize>(page: &mut PagePrinter<'_, W, ROOM>, rest: u64)
    ensures { Prints page.old page.new (left_out_line rest) }
{
    if rest > 0 {
        print_number(page, b"rest ", rest, b" bytes left out\n");
    }
}
