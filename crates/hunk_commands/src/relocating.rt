//! `relocate`: a load file is loaded as it comes, and its segments are printed.
ghost use Rattle.std.specs.Prelude.{◌≡◌, ◌⊎◌, ℕ, false, IfErr, IsErrAnd};
ghost use Rattle.hunk_words.specs.Puts.{PutsText};
ghost use Rattle.hunk_words.specs.declared.reason.Reason.TheVariants.{Budget};
ghost use Rattle.hunk_commands.specs.declared.fault.RunFault.TheVariants.{Memory, Refused};
ghost use Rattle.hunk_scatter.specs.LoadOutcomes.{HasFileWithin, PassesBudget, StopsAfterFile, StopsAfterHeader};
ghost use Rattle.hunk_scatter.specs.Placing.{packed_from};
ghost use Rattle.hunk_commands.specs.Inputs.{TellsReading};
ghost use Rattle.hunk_commands.specs.Relocating.{Relocates, image_listing};

use crate::fault::RunFault;
use hunk_listing::print_segment;
use hunk_scatter::{Image, Limits, Packed, load_naming_part};
use hunk_words::{LongWriter, Printer, Sink, Source, WriteFault};
use std::alloc::Global;

/// Loads a load file from the source as it comes, and prints its segments.
///
/// The first hunk lies at `base`, each other one right after the one before it. The segments have
/// at most `limits.budget` bytes together, and at most `limits.file_bytes` bytes are read. The
/// source is left just after the file.
///
/// # Errors
///
/// The places are in bytes from where the source stood before the call.
///
/// - `RefusedIn` for the first fault of the file and for `Truncated`, at the same place as `load`,
///   with the header or the hunk that the longword there is of.
/// - `Refused` as `load` refuses the file for `Budget`, for `FileLimit`, or for `NoBase` with the
///   first hunk that would begin at 2^32 or end after it.
/// - `Read` where the source failed, at the number of bytes read.
/// - `Memory` where memory is refused.
/// - `Write` where the writer failed: just the first `written` bytes of all that was ever put, the
///   listing last, have gone out.
///
/// After every other error than `Write` nothing was written. What was read of the source stays
/// read, at most `limits.file_bytes` bytes.
pub fn relocate<R: Source, W: Sink>(
    alloc: Global,
    r: &mut R,
    w: &mut LongWriter<W>,
    limits: Limits,
    base: u32,
) -> Result<(), RunFault>
    ensures relocates { Relocates W.outlet base limits
        (R.supply r.old) (R.supply r.new) w.old w.new result }

    // What is read at most, whatever the answer: no byte after the file, and none after a
    // header that can't be placed.
    ensures one_file { StopsAfterFile (R.supply r.old) (R.supply r.new) }
    ensures header_first { StopsAfterHeader (packed_from base) limits.budget
        (R.supply r.old) (R.supply r.new) }

    // Success, and where there is none.
    ensures succeeds { HasFileWithin (packed_from base) limits (R.supply r.old)
        → (R.supply r.new).failed ≡ false → (W.outlet w.new.sink).failed ≡ false
        → IfErr result (λ fault. fault ≡ Memory) }
    ensures over_budget { (at : ℕ) → PassesBudget limits (R.supply r.old) (R.supply r.new) at
        → IsErrAnd result (λ fault. (fault ≡ Memory)
        ⊎ (fault ≡ Refused (record { place = at; reason = Budget }))) }

    // A read that fails ends the load.
    ensures tells_read { TellsReading (R.supply r.old) (R.supply r.new) result }
{
    let image = load_naming_part(alloc, r, limits, &Packed { start: base })?;
    put_listing(w, &image)?;
    Ok(())
}

/// Puts the lines of each hunk's segment.
#[inline(never)]
fn put_listing<W: Sink>(w: &mut LongWriter<W>, image: &Image) -> Result<(), WriteFault>
    ensures { PutsText W.outlet w.old w.new (image_listing image.now) result }
{
    let mut page = Printer::new(w);
    'hunks: for (hunk, (row, segment)) in (0..image.hunks()).zip(image.segments()) {
        print_segment(&mut page, hunk, row.base, segment);
    }
    let result = page.flush();
    let _out = page.into_inner();
    result
}
