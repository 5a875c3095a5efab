//! `rewrite`: a file is read, and written again.
ghost use Rattle.std.specs.Prelude.{◌≡◌, IfOk};
ghost use Rattle.hunk_words.specs.Carriers.{saturated};
ghost use Rattle.hunk_words.specs.Puts.{PutsText};
ghost use Rattle.hunk_files.specs.FileView.{file_of};
ghost use Rattle.hunk_files.specs.HunkFile.{IsFileOf, file_bytes};
ghost use Rattle.hunk_commands.specs.Engine.{PutsOrRefuses, ReadsThenPuts};
ghost use Rattle.hunk_commands.specs.Rewritten.{IsRewritten, stripped_where};

use crate::fault::RunFault;
use crate::input::read_all;
use hunk_files::FileView;
use hunk_words::{LongWriter, PagePrinter, Sink, Source, WriteFault};
use std::alloc::Global;

/// How many bytes the page has room for on which short ranges are gathered: 32 KiB.
const PAGE: usize = 32_768;

/// What `rewrite` did.
#[derive(Clone, Copy, Debug, PartialEq, Eq)]
pub struct Rewritten {
    /// The number of bytes that were written, or 2^64 - 1 where these are more.
    pub written: u64,
    /// The number of bytes that the file has as it was read, with the blocks that were left out.
    pub read: u64,
    /// The number of bytes that follow the load file, which were left out.
    pub rest: u64,
}

/// Reads the input to its end, and writes the object file that it is, or the load file that it
/// begins with; where `strip` is set, without its NAME, SYMBOL, DEBUG and ADVISORY blocks.
///
/// # Errors
///
/// The places are in bytes from where the source stood before the call.
///
/// - `Refused` with `FileLimit`, at `file_bytes`, where that many bytes were read, before an end is
///   looked for.
/// - `RefusedIn` with the refusal that `FileView::read` answers for the input.
/// - `Read` where the source failed, at the number of bytes read.
/// - `Memory` where memory is refused for the bytes of the input, and never once they are read.
/// - `Write` where the writer failed: just the first `written` bytes of all that was ever put, the
///   file last, have gone out.
///
/// After every other error than `Write` nothing was written. What was read of the source stays
/// read, at most `file_bytes` bytes.
pub fn rewrite<R: Source, W: Sink>(
    alloc: Global,
    r: &mut R,
    w: &mut LongWriter<W>,
    file_bytes: u64,
    strip: bool,
) -> Result<Rewritten, RunFault>
    ensures rewrites { ReadsThenPuts W.outlet (IsRewritten strip)
        (R.supply r.old) (R.supply r.new) file_bytes w.old w.new result }
    ensures written { IfOk result (λ done. done.written ≡ saturated w.new.written) }
{
    let mut input = Vec::new(alloc);
    read_all(r, file_bytes, &mut input)?;
    rewrite_bytes(input.as_slice(), w, strip)
}

/// Writes the object file that the bytes are, or the load file that they begin with; where `strip`
/// is set, without its NAME, SYMBOL, DEBUG and ADVISORY blocks. It takes no memory.
///
/// # Errors
///
/// - `RefusedIn` with the refusal that `FileView::read` answers. Nothing was written then, and the
///   writer is as it was.
/// - `Write` where the writer failed: just the first `written` bytes of all that was ever put, the
///   file last, have gone out.
pub fn rewrite_bytes<W: Sink>(
    bytes: &[u8],
    w: &mut LongWriter<W>,
    strip: bool,
) -> Result<Rewritten, RunFault>
    ensures rewrites { PutsOrRefuses W.outlet (λ done. IsRewritten strip done bytes.now)
        bytes.now w.old w.new result }
    ensures written { IfOk result (λ done. done.written ≡ saturated w.new.written) }
{
    let file = match FileView::read(bytes) {
        Ok(file) => file,
        Err(refusal) => return Err(RunFault::RefusedIn(refusal)),
    };
    let rest = file.rest();
    put_file(w, &file, bytes, strip)?;
    Ok(Rewritten {
        written: w.written(),
        read: bytes.len() as u64 - rest,
        rest,
    })
}

/// Writes the file that the input is, or begins with. Where nothing is stripped, its text is what
/// was read; else what stays of it goes through a page.
#[inline(never)]
fn put_file<W: Sink>(
    w: &mut LongWriter<W>,
    file: &FileView<'_>,
    input: &[u8],
    strip: bool,
) -> Result<(), WriteFault>
    requires { IsFileOf input.now (file_of file.now) }
    ensures { PutsText W.outlet w.old w.new
        (file_bytes (stripped_where strip (file_of file.now))) result }
{
    if !strip {
        return w.put_bytes(&input[..input.len() - file.rest() as usize]);
    }
    let mut page = PagePrinter::<W, PAGE>::new(w);
    file.strip_with(&mut page);
    let result = page.flush();
    let _out = page.into_inner();
    result
}
