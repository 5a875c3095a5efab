//! The commands that print what they find in one input.
ghost use Rattle.std.specs.Prelude.{◌≡◌, ◌||◌, ◌+◌, IfErr, IfOk, IsErrAnd, None, Some, false, true};
ghost use Rattle.hunk_words.specs.Carriers.{left_of};
ghost use Rattle.hunk_commands.specs.HexText.{ReadsHex};
ghost use Rattle.hunk_commands.specs.Inputs.{TellsReading};
ghost use Rattle.hunk_run.specs.Asked.{AnswersListing, AsksListing, TellsInput, TellsSpelling};
ghost use Rattle.hunk_run.specs.Orders.{SaysInput};
ghost use Rattle.hunk_run.specs.Refusals.{FromInput, IsOfFile, ListsSupply, failed_reading};
ghost use Rattle.hunk_run.specs.Runs.{ReadsNoText, answered, found_status};
ghost use Rattle.hunk_run.specs.Stores.{bytes_of_input};
ghost use Rattle.hunk_run.specs.Wide.{IsUnread};

use crate::listing_first::list_first;
use crate::listing_plain::list_wide;
use crate::spelled::{Spelled, said_of};
use crate::store::Store;
use crate::{DONE, FILE_BYTES};
use hunk_command_line::FileName;
use hunk_commands::{RunFault, read_hex, relocate, show, validate};
use hunk_scatter::Limits;
use hunk_wide::Spelling;
use hunk_words::{Fault, FromRead, FromSlice, LongWriter, Sink, Source};
use std::alloc::{AllocError, Global};
use std::io;
use std::io::Read;

/// The exit status where `validate` found something.
const FOUND: u8 = 1;

/// What is printed of an input.
#[derive(Clone, Copy)]
pub(crate) enum Listing {
    /// The hunks and blocks.
    Show,
    /// The findings.
    Validate,
    /// The segments, of which the first lies at `base`, with at most `budget` bytes together.
    Relocate { base: u32, budget: u64 },
}

/// How an input is written.
#[derive(Clone, Copy)]
pub(crate) struct Form {
    /// Whether it is hexadecimal text.
    pub hex: bool,
    /// Whether its plain spelling is taken.
    pub wide: bool,
}

/// Prints it of the file, or of standard input, and gives the exit status, 1 where something was
/// found, what the system says of an input that can't be read, and what is said of its spelling.
pub(crate) fn list_file<S: Store, W: Sink>(
    store: &mut S,
    alloc: Global,
    listing: Listing,
    file: &Option<FileName>,
    form: Form,
    out: &mut LongWriter<W>,
) -> (Result<u8, RunFault>, Option<io::Error>, Option<Spelled>)
    ensures answers { AnswersListing W.outlet form.hex form.wide listing
        (bytes_of_input (S.holdings store.old) (S.opened store.old) (S.made store.old) file.now)
        FILE_BYTES out.old out.new result.0 result.1 }
    ensures spelled { SaysInput form.hex form.wide FILE_BYTES
        (bytes_of_input (S.holdings store.old) (S.opened store.old) (S.made store.old) file.now)
        file.now (IsErrAnd result.0 IsUnread) result.2 }
    ensures fails { S.failed store.new ≡ (S.failed store.old || failed_reading result.0) }
    ensures makes { S.made store.new ≡ S.made store.old }
    ensures holds { S.holdings store.new ≡ S.holdings store.old }
{
    let name = match copied(alloc, file, form.wide) {
        Ok(name) => name,
        Err(_) => return (Err(RunFault::Memory), None, None),
    };
    let (answer, cause, spelling) = list_input(store, alloc, listing, file, form, out);
    (answer, cause, said_of(name, spelling))
}

/// The file's name once more, for what is said of its spelling: it is wanted with `--wide` alone.
fn copied(
    alloc: Global,
    file: &Option<FileName>,
    wide: bool,
) -> Result<Option<FileName>, AllocError>
    ensures { IfOk result (λ name. wide ≡ true → name ≡ file.now) }
{
    match file {
        Some(name) if wide => Ok(Some(name.try_clone(alloc)?)),
        _ => Ok(None),
    }
}

/// The same, and how the input is spelled where it was read so.
///
/// A file that is spelled plainly is listed as it comes, and nothing is said of its spelling. So a
/// file that can be read again is first read as it is: only where that is refused, and nothing was
/// printed, is it read for its plain spelling.
fn list_input<S: Store, W: Sink>(
    store: &mut S,
    alloc: Global,
    listing: Listing,
    file: &Option<FileName>,
    form: Form,
    out: &mut LongWriter<W>,
) -> (Result<u8, RunFault>, Option<io::Error>, Option<Spelling>)
    ensures answers { AnswersListing W.outlet form.hex form.wide listing
        (bytes_of_input (S.holdings store.old) (S.opened store.old) (S.made store.old) file.now)
        FILE_BYTES out.old out.new result.0 result.1 }
    ensures spelled { TellsInput
        (bytes_of_input (S.holdings store.old) (S.opened store.old) (S.made store.old) file.now)
        form.hex form.wide FILE_BYTES result.0 result.2 }
    ensures fails { S.failed store.new ≡ (S.failed store.old || failed_reading result.0) }
    ensures makes { S.made store.new ≡ S.made store.old }
    ensures holds { S.holdings store.new ≡ S.holdings store.old }
{
    if !form.wide || form.hex {
        return list_once(store, alloc, listing, file, form, out);
    }
    match list_first(store, alloc, listing, file, out) {
        Some((answer, cause)) => (answer, cause, None),
        None => list_once(store, alloc, listing, file, form, out),
    }
}

/// The same, and how the input is spelled where it was read and that was asked for.
fn list_once<S: Store, W: Sink>(
    store: &mut S,
    alloc: Global,
    listing: Listing,
    file: &Option<FileName>,
    form: Form,
    out: &mut LongWriter<W>,
) -> (Result<u8, RunFault>, Option<io::Error>, Option<Spelling>)
    ensures answers { AnswersListing W.outlet form.hex form.wide listing
        (bytes_of_input (S.holdings store.old) (S.opened store.old) (S.made store.old) file.now)
        FILE_BYTES out.old out.new result.0 result.1 }
    ensures spelled { TellsSpelling (FromInput
        (bytes_of_input (S.holdings store.old) (S.opened store.old) (S.made store.old) file.now))
        form.hex form.wide FILE_BYTES result.0 result.2 }
    ensures fails { S.failed store.new ≡ (S.failed store.old || failed_reading result.0) }
    ensures makes { S.made store.new ≡ S.made store.old }
    ensures holds { S.holdings store.new ≡ S.holdings store.old }
{
    let Some(name) = file else {
        let mut source = FromRead::new(store.input());
        let (answer, spelling) = list_asked(alloc, listing, &mut source, form, out);
        return (answer, store.close_input(source), spelling);
    };
    let file = match store.open(name.as_str()) {
        Ok(file) => file,
        Err(error) => return (Err(RunFault::Read { place: 0 }), Some(error), None),
    };
    let mut source = match source_of(alloc, listing, file, form) {
        Ok(source) => source,
        Err(_) => return (Err(RunFault::Memory), None, None),
    };
    let (answer, spelling) = list_asked(alloc, listing, &mut source, form, out);
    (answer, store.close(source), spelling)
}

/// The bytes of a file. A load asks for little at a time, so its file is read through a buffer;
/// standard input is not, so that what follows stays for the next reader.
pub(crate) fn source_of<R: Read + Drop>(
    alloc: Global,
    listing: Listing,
    file: R,
    form: Form,
) -> Result<FromRead<R>, AllocError>
    ensures holds { IfOk result (λ source. left_of R.remaining source.reader ≡ R.remaining file) }
    ensures fresh { IfOk result (λ source. source.error ≡ None) }
{
    match listing {
        Listing::Relocate { .. } if !form.hex && !form.wide => FromRead::buffered(alloc, file),
        _ => Ok(FromRead::new(file)),
    }
}

/// The same of the bytes that the source has, as they are or in their plain spelling, and how they
/// are spelled where that was asked for.
fn list_asked<R: Source, W: Sink>(
    alloc: Global,
    listing: Listing,
    source: &mut R,
    form: Form,
    out: &mut LongWriter<W>,
) -> (Result<u8, RunFault>, Option<Spelling>)
    ensures { AsksListing W.outlet form.hex form.wide listing
        (R.supply source.old) (R.supply source.new) FILE_BYTES out.old out.new result.0 result.1 }
{
    if form.wide {
        list_wide(alloc, listing, source, form.hex, out)
    } else {
        (list_source(alloc, listing, source, form.hex, out), None)
    }
}

/// The same of the bytes that the source has, or where `hex` is set of those that its text spells.
fn list_source<R: Source, W: Sink>(
    alloc: Global,
    listing: Listing,
    source: &mut R,
    hex: bool,
    out: &mut LongWriter<W>,
) -> Result<u8, RunFault>
    ensures { ListsSupply W.outlet hex listing (R.supply source.old) (R.supply source.new) FILE_BYTES
        out.old out.new result }
{
    if hex {
        list_text(alloc, listing, source, out)
    } else {
        list_bytes(alloc, listing, source, out)
    }
}

/// The same of the bytes that the source's text spells.
fn list_text<R: Source, W: Sink>(
    alloc: Global,
    listing: Listing,
    source: &mut R,
    out: &mut LongWriter<W>,
) -> Result<u8, RunFault>
    ensures { ListsSupply W.outlet true listing (R.supply source.old) (R.supply source.new) FILE_BYTES
        out.old out.new result }
{
    let bytes = spelled_bytes(alloc, source)?;
    list_bytes(alloc, listing, &mut FromSlice::new(bytes.as_slice()), out)
}

/// The bytes that all of the source's text spells, which may have `FILE_BYTES` bytes and no more.
pub(crate) fn spelled_bytes<R: Source>(alloc: Global, source: &mut R) -> Result<Vec<u8>, RunFault>
    ensures spelled { IfOk result
        (λ bytes. ReadsHex (R.supply source.old) (R.supply source.new)
        (FILE_BYTES + 1) bytes.items) }
    ensures refuses { IfErr result
        (λ fault. ReadsNoText fault (R.supply source.old) (R.supply source.new) FILE_BYTES) }
    ensures tells_read { TellsReading (R.supply source.old) (R.supply source.new) result }
{
    match read_hex(alloc, source, FILE_BYTES + 1) {
        Err(RunFault::Refused(Fault { place: _, reason })) => Err(RunFault::Refused(Fault {
            place: FILE_BYTES,
            reason,
        })),
        read => read,
    }
}

/// The same of the bytes that the source has.
pub(crate) fn list_bytes<R: Source, W: Sink>(
    alloc: Global,
    listing: Listing,
    source: &mut R,
    out: &mut LongWriter<W>,
) -> Result<u8, RunFault>
    ensures lists { ListsSupply W.outlet false listing
        (R.supply source.old) (R.supply source.new) FILE_BYTES out.old out.new result }
    ensures of_file { IsOfFile (R.supply source.old).left result }
{
    match listing {
        Listing::Show => done(show(alloc, source, out, FILE_BYTES)),
        Listing::Validate => found(validate(alloc, source, out, FILE_BYTES)),
        Listing::Relocate { base, budget } => {
            let limits = Limits {
                budget,
                file_bytes: FILE_BYTES,
            };
            done(relocate(alloc, source, out, limits, base))
        }
    }
}

/// The exit status where all is done.
pub(crate) fn done(answer: Result<(), RunFault>) -> Result<u8, RunFault>
    ensures { result ≡ answered (λ _. 0) answer }
{
    answer?;
    Ok(DONE)
}

/// The exit status where so many findings were printed.
pub(crate) fn found(answer: Result<u64, RunFault>) -> Result<u8, RunFault>
    ensures { result ≡ answered found_status answer }
{
    match answer? {
        0 => Ok(DONE),
        _ => Ok(FOUND),
    }
}
