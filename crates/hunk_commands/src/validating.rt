//! `validate`: a file is checked.
ghost use Rattle.std.specs.Prelude.{◌≡◌, IfErr};
ghost use Rattle.hunk_commands.specs.Engine.{PutsOrRefuses, ReadsThenPuts};
ghost use Rattle.hunk_commands.specs.Incoming.{WantsMemory};
ghost use Rattle.hunk_commands.specs.Inputs.{WantedFor};
ghost use Rattle.hunk_commands.specs.Validated.{IsValidated};
ghost use Rattle.hunk_commands.specs.declared.fault.RunFault.TheVariants.{Memory};

use crate::fault::RunFault;
use crate::incoming::Incoming;
use hunk_files::FileView;
use hunk_listing::{print_load_summary, print_object_report};
use hunk_words::{LongWriter, Printer, Sink, Source};
use std::alloc::Global;

/// Reads the input to its end, checks the object file that it is, or the load file that it begins
/// with, prints what it finds, and answers the number of findings, which is 0 for a load file.
///
/// Of a load file it keeps 12 bytes a hunk, be it read to its end or refused; an object file is held
/// whole.
///
/// # Errors
///
/// The places are in bytes from where the source stood before the call.
///
/// - `Refused` with `FileLimit`, at `file_bytes`, where that many bytes were read, before an end is
///   looked for.
/// - `RefusedIn` with the refusal that `FileView::read` answers for the input.
/// - `Read` where the source failed, at the number of bytes read.
/// - `Memory` where memory is refused for a hunk's row, which the bytes read last complete, or for
///   the bytes of an object file, and never once the input is read.
/// - `Write` where the writer failed: just the first `written` bytes of all that was ever put, the
///   report last, have gone out.
///
/// After every other error than `Write` nothing was written. What was read of the source stays
/// read, at most `file_bytes` bytes.
pub fn validate<R: Source, W: Sink>(
    alloc: Global,
    r: &mut R,
    w: &mut LongWriter<W>,
    file_bytes: u64,
) -> Result<u64, RunFault>
    ensures puts { ReadsThenPuts W.outlet IsValidated
        (R.supply r.old) (R.supply r.new) file_bytes w.old w.new result }
    ensures wants { IfErr result (λ fault. fault ≡ Memory
        → WantedFor WantsMemory (R.supply r.old) (R.supply r.new)) }
{
    let input = Incoming::read(alloc, r, file_bytes)?;
    input.report(w)
}

/// Checks the object file that the bytes are, or the load file that they begin with, prints what it
/// finds, and answers the number of findings, which is 0 for a load file. It takes no memory.
///
/// # Errors
///
/// - `RefusedIn` with the refusal that `FileView::read` answers. Nothing was written then, and the
///   writer is as it was.
/// - `Write` where the writer failed: just the first `written` bytes of all that was ever put, the
///   report last, have gone out.
#[inline(never)]
pub fn validate_bytes<W: Sink>(bytes: &[u8], w: &mut LongWriter<W>) -> Result<u64, RunFault>
    ensures { PutsOrRefuses W.outlet (λ count. IsValidated count bytes.now)
        bytes.now w.old w.new result }
{
    let file = match FileView::read(bytes) {
        Ok(file) => file,
        Err(refusal) => return Err(RunFault::RefusedIn(refusal)),
    };
    let mut page = Printer::new(w);
    let count = match &file {
        FileView::Load { file, rest } => {
            print_load_summary(&mut page, file, *rest);
            0
        }
        FileView::Object(file) => print_object_report(&mut page, file),
    };
    let printed = page.flush();
    let _out = page.into_inner();
    printed?;
    Ok(count)
}
