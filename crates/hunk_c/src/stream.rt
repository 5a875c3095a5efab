//! Load files that come in pieces, loaded into the caller's memory.
//!
//! What a loader has to know between two pieces is in numbers, which the caller keeps, with rows
//! that say where each hunk lies.
ghost use Rattle.std.specs.Prelude.{length, IfErr, IfOk};
ghost use Rattle.hunk_c.specs.Loaders.{IsReady};
ghost use Rattle.hunk_c.specs.Streams.{Begins, Ends, Feeds, TakesPiece, Wants};

use crate::answer::{Answer, done, no_room, refused, strange};
use crate::loader::{Loader, NO_LOADER, ends_early};
use crate::places::table_sizes;
use hunk_files::Row;
use hunk_grammar::Position;
use hunk_scatter::stream::{Stop, begin, feed_fitting};
use hunk_words::{Fault, Reason};

/// Sets a loader to the end of the header of the table in `rows`, and the memory to zero bytes.
#[unsafe(no_mangle)]
pub extern "C" fn hunk_begin(
    loader: &mut Loader,
    rows: &[Row],
    header: u64,
    memory: &mut [u8],
) -> Answer
    ensures { Begins rows.now header loader.new memory.old memory.new result }
{
    *loader = NO_LOADER;
    let Some((size, bytes)) = table_sizes(rows) else {
        return strange();
    };
    let room = memory.len() as u64;
    if header != size || room > bytes {
        return strange();
    }
    if room < bytes {
        return no_room(rows.len() as u32, header, bytes);
    }
    *loader = Loader::of(begin(memory, rows, header));
    done(rows.len() as u32, header, bytes)
}

/// Takes the piece, or up to the end of the file where that stands inside it.
#[unsafe(no_mangle)]
pub extern "C" fn hunk_feed(
    loader: &mut Loader,
    rows: &[Row],
    memory: &mut [u8],
    piece: &[u8],
) -> Answer
    ensures { Feeds rows.now loader.old loader.new memory.old memory.new piece.now result }
{
    let total = memory.len();
    if loader.pass_byte(rows, total, piece) {
        return done(loader.hunk, loader.fed, piece.len() as u64);
    }
    if loader.pass_payload(rows, total, piece) {
        return done(loader.hunk, loader.fed, piece.len() as u64);
    }
    match feed_on(loader, rows, memory, piece) {
        Ok(count) => done(loader.hunk, loader.fed, count),
        Err(answer) => answer,
    }
}

/// Takes the piece, or up to the end of the file where that stands inside it, and gives the number
/// of bytes taken.
///
/// # Errors
///
/// What is answered, where no byte is taken.
#[inline(never)]
fn feed_on(
    loader: &mut Loader,
    rows: &[Row],
    memory: &mut [u8],
    piece: &[u8],
) -> Result<u64, Answer>
    ensures takes { IfOk result (λ count. TakesPiece rows.now loader.old loader.new
        memory.old memory.new piece.now count) }
    ensures answers { IfErr result
        (Feeds rows.now loader.old loader.new memory.old memory.new piece.now) }
{
    if !loader.is_ready(rows, memory.len()) {
        return feed_closed(loader, rows, memory, piece);
    }
    if loader.take_last(rows, memory, piece) {
        return Ok(1);
    }
    if loader.take_content(rows, memory, piece) {
        return Ok(piece.len() as u64);
    }
    feed_ready(loader, rows, memory, piece)
}

/// The same of a loader that is ready, whatever its next longword is for.
#[inline(always)]
fn feed_ready(
    loader: &mut Loader,
    rows: &[Row],
    memory: &mut [u8],
    piece: &[u8],
) -> Result<u64, Answer>
    requires { IsReady rows.now (length memory.old) loader.old }
    ensures takes { IfOk result (λ count. TakesPiece rows.now loader.old loader.new
        memory.old memory.new piece.now count) }
    ensures answers { IfErr result
        (Feeds rows.now loader.old loader.new memory.old memory.new piece.now) }
{
    let Some(position) = loader.position() else {
        return Err(strange());
    };
    match feed_fitting(memory, rows, loader.standing_at(position), piece) {
        Ok((to, taken)) => {
            if ends_early(&to) {
                return Err(strange());
            }
            *loader = Loader::of(to);
            Ok(taken as u64)
        }
        Err(Stop::Strange) => Err(strange()),
        Err(Stop::Refused(fault)) => {
            *loader = loader.refusing(fault);
            Err(refused(fault))
        }
    }
}

/// Takes no byte, where no hunk is open: 0 where the file is whole.
///
/// # Errors
///
/// What is answered, where the numbers are not those of a loader of these rows and this memory.
#[inline(never)]
fn feed_closed(
    loader: &mut Loader,
    rows: &[Row],
    memory: &[u8],
    piece: &[u8],
) -> Result<u64, Answer>
    requires { IsReady rows.now (length memory.now) loader.old → ⊥ }
    ensures takes { IfOk result (λ count. TakesPiece rows.now loader.old loader.new
        memory.now memory.now piece.now count) }
    ensures answers { IfErr result
        (Feeds rows.now loader.old loader.new memory.now memory.now piece.now) }
{
    // The piece is for the contract alone.
    let _ = piece;
    let at = match loader.standing() {
        Ok(at) => at,
        Err(answer) => return Err(answer),
    };
    if !at.fits(rows, memory.len()) {
        return Err(strange());
    }
    match at.state.position {
        Position::Done => {
            *loader = Loader::of(at);
            Ok(0)
        }
        _ => Err(strange()),
    }
}

/// Whether the file is whole, and the memory its hunks.
#[unsafe(no_mangle)]
pub extern "C" fn hunk_end(loader: &Loader) -> Answer
    ensures { Ends loader.now result }
{
    let here = match loader.standing() {
        Ok(here) => here,
        Err(answer) => return answer,
    };
    if here.is_whole() {
        return done(loader.hunk, loader.fed, loader.start);
    }
    refused(Fault {
        place: loader.fed / 4 * 4,
        reason: Reason::Truncated,
    })
}

/// How many bytes the file still has, at least.
#[unsafe(no_mangle)]
pub extern "C" fn hunk_want(loader: &Loader) -> Answer
    ensures { Wants loader.now result }
{
    let here = match loader.standing() {
        Ok(here) => here,
        Err(answer) => return answer,
    };
    done(loader.hunk, loader.fed, here.want())
}
