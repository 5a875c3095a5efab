//! `show`: the hunks and blocks of a file are listed.
ghost use Rattle.hunk_commands.specs.Engine.{PutsOrRefuses, ReadsThenPuts};
ghost use Rattle.hunk_commands.specs.Shown.{IsShown};

use crate::fault::RunFault;
use crate::input::read_all;
use hunk_files::FileView;
use hunk_listing::{print_load_file, print_object_file};
use hunk_words::{LongWriter, Printer, Sink, Source};
use std::alloc::Global;

/// Reads the input to its end, and lists the hunks and blocks of the object file that it is, or of
/// the load file that it begins with.
///
/// # Errors
///
/// The places are in bytes from where the source stood before the call.
///
/// - `Refused` with `FileLimit`, at `file_bytes`, where that many bytes were read, before an end is
///   looked for.
/// - `RefusedIn` with the refusal that `FileView::read` answers for the input.
/// - `Read` where the source failed, at the number of bytes read.
/// - `Memory` where memory is refused for the bytes of the input, and never once they are read.
/// - `Write` where the writer failed: just the first `written` bytes of all that was ever put, the
///   listing last, have gone out.
///
/// After every other error than `Write` nothing was written. What was read of the source stays
/// read, at most `file_bytes` bytes.
pub fn show<R: Source, W: Sink>(
    alloc: Global,
    r: &mut R,
    w: &mut LongWriter<W>,
    file_bytes: u64,
) -> Result<(), RunFault>
    ensures { ReadsThenPuts W.outlet (λ (_ : Unit). IsShown)
        (R.supply r.old) (R.supply r.new) file_bytes w.old w.new result }
{
    let mut input = Vec::new(alloc);
    read_all(r, file_bytes, &mut input)?;
    show_bytes(input.as_slice(), w)
}

/// Lists the hunks and blocks of the object file that the bytes are, or of the load file that they
/// begin with. It takes no memory.
///
/// # Errors
///
/// - `RefusedIn` with the refusal that `FileView::read` answers. Nothing was written then, and the
///   writer is as it was.
/// - `Write` where the writer failed: just the first `written` bytes of all that was ever put, the
///   listing last, have gone out.
#[inline(never)]
pub fn show_bytes<W: Sink>(bytes: &[u8], w: &mut LongWriter<W>) -> Result<(), RunFault>
    ensures { PutsOrRefuses W.outlet (λ (_ : Unit). IsShown bytes.now)
        bytes.now w.old w.new result }
{
    let file = match FileView::read(bytes) {
        Ok(file) => file,
        Err(refusal) => return Err(RunFault::RefusedIn(refusal)),
    };
    let mut page = Printer::new(w);
    match &file {
        FileView::Load { file, rest } => print_load_file(&mut page, file, *rest),
        FileView::Object(file) => print_object_file(&mut page, file),
    }
    let printed = page.flush();
    let _out = page.into_inner();
    Ok(printed?)
}
