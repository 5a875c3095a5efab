//! The lines that `relocate` prints of its segments.
ghost use Rattle.std.specs.Prelude.{◌≤◌, length};
ghost use Rattle.hunk_words.specs.Prints.{Prints};
ghost use Rattle.hunk_listing.specs.SegmentLines.{dump_row, segment_lines};

use crate::line::{Line, encode};
use hunk_words::{Printer, Sink};

/// How many bytes of a segment a row shows.
const ROW: usize = 16;

/// Prints the lines of one segment: its hunk's number, its address and its bytes.
#[tactic(auto, unfolding(crate::specs::SegmentLines::segment_line))]
pub fn print_segment<W: Sink>(page: &mut Printer<'_, W>, number: u32, base: u32, bytes: &[u8])
    ensures { Prints page.old page.new
        (segment_lines number (record { base = base; bytes = bytes.now })) }
{
    let mut line = Line::new();
    line.put(b"hunk ");
    line.put_decimal(u64::from(number));
    line.put(b" base 0x");
    line.put_digits(base);
    line.put(b" ");
    line.put_decimal(bytes.len() as u64);
    line.put(b" bytes\n");
    line.print(page);
    for part in bytes.chunks(ROW) {
        print_row(page, part);
    }
}

/// Prints a row. One of 16 bytes is made apart from a shorter one, so that all its lengths are
/// known where it is compiled.
#[tactic(auto, unfolding(crate::specs::SegmentLines::dump_row))]
fn print_row<W: Sink>(page: &mut Printer<'_, W>, bytes: &[u8])
    requires { length bytes.now ≤ ROW }
    ensures { Prints page.old page.new (dump_row bytes.now) }
{
    if let Some(whole) = bytes.first_chunk::<ROW>() {
        let mut line = *b"  00000000000000000000000000000000\n";
        encode(whole, &mut line[2..2 + 2 * ROW]);
        page.print(&line);
        return;
    }
    let mut line = [b' '; 2 * ROW + 3];
    let end = 2 + 2 * bytes.len();
    encode(bytes, &mut line[2..end]);
    line[end] = b'\n';
    page.print(&line[..end + 1]);
}
