//! Payloads and names, as slices of the input.
ghost use Rattle.std.specs.Prelude.{◌≡◌, ◌^◌, ◌*◌, ◌%◌, length};
ghost use Rattle.hunk_words.specs.Longs.{bytes_of, longs};
ghost use Rattle.hunk_words.specs.Prints.{Prints};
ghost use Rattle.hunk_blocks.specs.Values.{IsPayload, IsSized};
ghost use Rattle.hunk_blocks.specs.Parts.{counted_text, sized_text};

use hunk_words::{CONTENT_LIMIT, PagePrinter, Sink};
use std::marker::Model;

/// The bytes of whole longwords of the input: a payload or a name. Contracts see it as its bytes.
#[derive(Debug, Drop)]
pub struct Payload<'a> {
    pub(crate) bytes: &'a [u8],
}

impl<'a> Model for Payload<'a> {
    ghost use Rattle.std.specs.Prelude.{◌≡◌, ℕ, List};
    ghost use Rattle.hunk_words.specs.Longs.{bytes_of, longs};

    ghost Value = { List ℕ };

    ghost view = { λ s. s.bytes.now };

    ghost invariant = { λ s. bytes_of (longs s.bytes.now) ≡ s.bytes.now };
}

impl<'a> Payload<'a> {
    /// The payload that has just these bytes, a whole number of longwords.
    pub fn of(bytes: &'a [u8]) -> Payload<'a>
        requires { length bytes.now % 4 ≡ 0 }
        ensures { result ≡ bytes.entry.now }
    {
        Payload { bytes }
    }

    /// The bytes, those of whole longwords.
    pub fn bytes(&self) -> &'a [u8]
        ensures value { result.now ≡ self.now }
        ensures longwords { bytes_of (longs result.now) ≡ result.now }
    {
        self.bytes
    }

    /// The number of bytes: 4 for each longword.
    #[tactic(auto, using(crate::proofs::BytesOfLongs::payload_size))]
    pub fn byte_count(&self) -> u64
        ensures { result ≡ 4 * length (longs self.now) }
    {
        self.bytes.len() as u64
    }
}

/// The longwords of the payload.
pub(crate) fn print_payload<W: Sink, const ROOM: usize>(
    page: &mut PagePrinter<'_, W, ROOM>,
    payload: &Payload<'_>,
)
    ensures { Prints page.old page.new (bytes_of (longs payload.now)) }
{
    page.print(payload.bytes());
}

/// The number of the longwords, and the longwords.
#[tactic(auto, using(crate::proofs::TextBytes::word_printed))]
pub(crate) fn print_counted<W: Sink, const ROOM: usize>(
    page: &mut PagePrinter<'_, W, ROOM>,
    payload: &Payload<'_>,
)
    requires { IsPayload (2 ^ 32) (longs payload.now) }
    ensures { Prints page.old page.new (bytes_of (counted_text (longs payload.now))) }
{
    page.print_long((payload.byte_count() / 4) as u32);
    print_payload(page, payload);
}

/// A size word with these top two bits, and the longwords.
#[tactic(auto, using(crate::proofs::TextBytes::word_printed))]
pub(crate) fn print_sized<W: Sink, const ROOM: usize>(
    page: &mut PagePrinter<'_, W, ROOM>,
    top: u8,
    payload: &Payload<'_>,
)
    requires { IsSized (top, longs payload.now) }
    ensures { Prints page.old page.new (bytes_of (sized_text (top, longs payload.now))) }
{
    let size = (top as u32) * CONTENT_LIMIT + (payload.byte_count() / 4) as u32;
    page.print_long(size);
    print_payload(page, payload);
}
