//! Names, printed.
ghost use Rattle.std.specs.Prelude.{◌≡◌, ◌≤◌, ◌<◌, ◌++◌, false, length, take, drop, codes, slice_index};
ghost use Rattle.hunk_words.specs.Prints.{Prints};
ghost use Rattle.hunk_words.specs.Longs.{longs};
ghost use Rattle.hunk_listing.specs.Printed.{character, characters, is_plain, name_text};

use crate::line::encode;
use hunk_blocks::Payload;
use hunk_words::{Printer, Sink};

/// Prints the name's text and the end of the line.
#[inline(always)]
pub(crate) fn print_name<W: Sink>(page: &mut Printer<'_, W>, name: &Payload<'_>)
    ensures { Prints page.old page.new (name_text (longs name.now) ++ codes "\n") }
{
    print_characters(page, name.bytes());
    page.print(b"\n");
}

/// Prints the text of a name: its bytes before the first zero byte, of which those outside 0x20 to
/// 0x7E, and the backslash, are `\x` and two hexadecimal digits. Plain bytes go out in runs.
fn print_characters<W: Sink>(page: &mut Printer<'_, W>, bytes: &[u8])
    ensures { Prints page.old page.new (characters bytes.now) }
{
    let mut start = 0;
    'runs: while start < bytes.len() {
        let end = start + plain_length(&bytes[start..]);
        page.print(&bytes[start..end]);
        if end == bytes.len() || bytes[end] == 0 {
            return;
        }
        print_escape(page, bytes[end]);
        start = end + 1;
    }
}

/// How many bytes stand for themselves before the first that does not.
#[tactic(auto, unfolding(crate::specs::Printed::character))]
fn plain_length(bytes: &[u8]) -> usize
    ensures splits { characters bytes.now
        ≡ take result bytes.now ++ characters (drop result bytes.now) }
    ensures inside { result ≤ length bytes.now }
    ensures end { result < length bytes.now → is_plain (slice_index bytes.now result) ≡ false }
{
    'bytes: for (i, byte) in bytes.iter().enumerate() {
        if !is_plain(*byte) {
            return i;
        }
    }
    bytes.len()
}

fn is_plain(byte: u8) -> bool
    ensures { result ≡ is_plain byte }
{
    matches!(byte, 0x20..=0x7E) && byte != b'\\'
}

#[tactic(auto, unfolding(crate::specs::Printed::character))]
fn print_escape<W: Sink>(page: &mut Printer<'_, W>, byte: u8)
    requires { is_plain byte ≡ false }
    ensures { Prints page.old page.new (character byte) }
{
    let mut escape = *b"\\x00";
    encode(&[byte], &mut escape[2..]);
    page.print(&escape);
}
