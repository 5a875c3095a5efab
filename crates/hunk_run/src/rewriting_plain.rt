//! The plain spelling of an input, written.
ghost use Rattle.std.specs.Prelude.{◌≡◌, false, true, Some};
ghost use Rattle.hunk_run.specs.Asked.{AsksRewriting};
ghost use Rattle.hunk_run.specs.Wide.{RewritesPlain};
ghost use Rattle.hunk_wide.specs.Plain.{plain};

use crate::FILE_BYTES;
use crate::plain::{PlainSpelling, in_input, input_bytes};
use hunk_commands::{Rewritten, RunFault, rewrite_bytes};
use hunk_wide::{Spelling, spelling_of};
use hunk_words::{LongWriter, Sink, Source};
use std::alloc::Global;

/// Writes the plain spelling of the file that the source gives, without what a loader does not need
/// where `strip` is set, and answers how it is spelled where it was read.
pub(crate) fn rewrite_wide<R: Source, W: Sink>(
    alloc: Global,
    source: &mut R,
    writer: &mut LongWriter<W>,
    strip: bool,
) -> (Result<Rewritten, RunFault>, Option<Spelling>)
    ensures { AsksRewriting W.outlet strip true (R.supply source.old) (R.supply source.new)
        FILE_BYTES writer.old writer.new result.0 result.1 }
{
    let input = match input_bytes(alloc, source, false) {
        Ok(input) => input,
        Err(fault) => return (Err(fault), None),
    };
    let spelling = spelling_of(input.as_slice());
    let answer = rewrite_plain(alloc, input.as_slice(), spelling, writer, strip);
    (answer, Some(spelling))
}

/// The same of the input that is spelled so.
fn rewrite_plain<W: Sink>(
    alloc: Global,
    input: &[u8],
    spelling: Spelling,
    writer: &mut LongWriter<W>,
    strip: bool,
) -> Result<Rewritten, RunFault>
    requires { spelling.short_blocks ≡ 0 → spelling.ends ≡ 0 → plain input.now ≡ input.now }
    ensures { RewritesPlain W.outlet strip input.now FILE_BYTES writer.old writer.new result }
{
    let plain = match PlainSpelling::new(alloc, input, spelling) {
        Ok(plain) => plain,
        Err(fault) => return Err(in_input(input, fault)),
    };
    match rewrite_bytes(plain.as_slice(), writer, strip) {
        Ok(done) => Ok(done),
        Err(fault) => Err(in_input(input, fault)),
    }
}
