//! The plain spelling of an input, listed.
ghost use Rattle.std.specs.Prelude.{◌≡◌, true, Some};
ghost use Rattle.hunk_run.specs.Asked.{AsksListing};
ghost use Rattle.hunk_wide.specs.Plain.{plain};
ghost use Rattle.hunk_run.specs.Wide.{ListsHeld, ListsPlain};

use crate::FILE_BYTES;
use crate::listing::{Listing, done, found, list_bytes};
use crate::plain::{PlainSpelling, in_input, input_bytes};
use hunk_commands::{RunFault, show_bytes, validate_bytes};
use hunk_wide::{Spelling, spelling_of};
use hunk_words::{FromSlice, LongWriter, Sink, Source};
use std::alloc::Global;

/// Prints it of the plain spelling of the bytes that all of the source has, or where `hex` is set
/// that its text spells, and gives the exit status, and how the input is spelled where it was read.
pub(crate) fn list_wide<R: Source, W: Sink>(
    alloc: Global,
    listing: Listing,
    source: &mut R,
    hex: bool,
    out: &mut LongWriter<W>,
) -> (Result<u8, RunFault>, Option<Spelling>)
    ensures { AsksListing W.outlet hex true listing (R.supply source.old) (R.supply source.new)
        FILE_BYTES out.old out.new result.0 result.1 }
{
    let input = match input_bytes(alloc, source, hex) {
        Ok(input) => input,
        Err(fault) => return (Err(fault), None),
    };
    let spelling = spelling_of(input.as_slice());
    let answer = list_plain(alloc, listing, input.as_slice(), spelling, out);
    (answer, Some(spelling))
}

/// The same of the input that is spelled so.
fn list_plain<W: Sink>(
    alloc: Global,
    listing: Listing,
    input: &[u8],
    spelling: Spelling,
    out: &mut LongWriter<W>,
) -> Result<u8, RunFault>
    requires { spelling.short_blocks ≡ 0 → spelling.ends ≡ 0 → plain input.now ≡ input.now }
    ensures { ListsPlain W.outlet listing input.now FILE_BYTES out.old out.new result }
{
    let plain = match PlainSpelling::new(alloc, input, spelling) {
        Ok(plain) => plain,
        Err(fault) => return Err(in_input(input, fault)),
    };
    match list_held(alloc, listing, plain.as_slice(), out) {
        Ok(status) => Ok(status),
        Err(fault) => Err(in_input(input, fault)),
    }
}

/// The same of bytes at hand.
fn list_held<W: Sink>(
    alloc: Global,
    listing: Listing,
    bytes: &[u8],
    out: &mut LongWriter<W>,
) -> Result<u8, RunFault>
    ensures { ListsHeld W.outlet listing bytes.now FILE_BYTES out.old out.new result }
{
    match listing {
        Listing::Show => done(show_bytes(bytes, out)),
        Listing::Validate => found(validate_bytes(bytes, out)),
        Listing::Relocate { .. } => list_bytes(alloc, listing, &mut FromSlice::new(bytes), out),
    }
}
