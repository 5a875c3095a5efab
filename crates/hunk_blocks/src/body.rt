//! What follows the word of a block.
ghost use Rattle.std.specs.Prelude.{◌≡◌};
ghost use Rattle.hunk_words.specs.Longs.{bytes_of};
ghost use Rattle.hunk_words.specs.Prints.{Prints};
ghost use Rattle.hunk_blocks.specs.Values.{FitsWord, content_bytes};
ghost use Rattle.hunk_blocks.specs.Views.{body_of};
ghost use Rattle.hunk_blocks.specs.Parts.{body_text};

use crate::entries::{Entries, print_entries};
use crate::groups::{Groups, print_groups};
use crate::payload::{Payload, print_counted, print_sized};
use crate::symbols::{Symbols, print_symbols};
use hunk_words::{BlockWord, CONTENT_LIMIT, PagePrinter, Sink};

/// What follows the word of a block, by its kind.
///
/// Source: The AmigaDOS Manual, `dos/doshunks.h`. In CODE, DATA and BSS the top two bits of the
/// size word are kept and not interpreted, and no memory attributes follow: this project's own
/// choice.
#[derive(Debug, Drop)]
pub enum Body<'a> {
    /// A NAME block: the bytes of the name, padded with zero bytes. What stands after the first
    /// zero byte is kept: this project's own choice.
    Name(Payload<'a>),
    /// A CODE block. `top` is the top two bits of the size word, 0 to 3.
    Code { top: u8, payload: Payload<'a> },
    /// A DATA block. `top` is the top two bits of the size word, 0 to 3.
    Data { top: u8, payload: Payload<'a> },
    /// A BSS block. `size` is the whole size word; its low 30 bits count longwords.
    Bss { size: u32 },
    /// A block of any relocation kind.
    Reloc(Groups<'a>),
    /// An EXT block.
    Ext(Entries<'a>),
    /// A SYMBOL block.
    Symbol(Symbols<'a>),
    /// A DEBUG block, whose contents are not interpreted.
    Debug(Payload<'a>),
    /// An END block, which has nothing after its word.
    End,
    /// A block of unknown kind with the advisory flag, which readers may pass over.
    Advisory(Payload<'a>),
}

impl Body<'_> {
    /// How many bytes of content the block has: those of the payload of CODE and DATA, and 4 times
    /// the longwords that the size of BSS says. `None` for every other block.
    pub fn content_bytes(&self) -> Option<u64>
        ensures { result ≡ content_bytes (body_of self.now) }
    {
        match self {
            Body::Code { top: _, payload } => Some(payload.byte_count()),
            Body::Data { top: _, payload } => Some(payload.byte_count()),
            Body::Bss { size } => Some(4 * u64::from(*size % CONTENT_LIMIT)),
            _ => None,
        }
    }
}

/// What follows this block word.
#[tactic(auto, using(crate::proofs::TextBytes::body_printed, crate::proofs::TextBytes::no_bytes))]
pub(crate) fn print_body<W: Sink, const ROOM: usize>(
    page: &mut PagePrinter<'_, W, ROOM>,
    word: BlockWord,
    body: &Body<'_>,
)
    requires { FitsWord word (body_of body.now) }
    ensures { Prints page.old page.new (bytes_of (body_text (body_of body.now))) }
{
    match body {
        Body::Name(payload) => print_counted(page, payload),
        Body::Code { top, payload } => print_sized(page, *top, payload),
        Body::Data { top, payload } => print_sized(page, *top, payload),
        Body::Bss { size } => page.print_long(*size),
        Body::Reloc(groups) => print_groups(page, groups.as_slice()),
        Body::Ext(entries) => print_entries(page, entries.as_slice()),
        Body::Symbol(symbols) => print_symbols(page, symbols.as_slice()),
        Body::Debug(payload) => print_counted(page, payload),
        Body::End => (),
        Body::Advisory(payload) => print_counted(page, payload),
    }
}
