//! A file that is listed as it is, where its plain spelling is asked for.
ghost use Rattle.std.specs.Prelude.{◌≡◌, ◌||◌, IfNone, IfSome, false};
ghost use Rattle.hunk_run.specs.Asked.{ListsFirst, ListsFirstOf};
ghost use Rattle.hunk_run.specs.Refusals.{failed_reading};
ghost use Rattle.hunk_run.specs.Stores.{bytes_of_input};

use crate::FILE_BYTES;
use crate::listing::{Form, Listing, list_bytes, source_of};
use crate::plain::is_refused;
use crate::store::Store;
use hunk_command_line::FileName;
use hunk_commands::RunFault;
use hunk_words::{LongWriter, Sink, Source};
use std::alloc::Global;
use std::io;

/// The form of a file that is read as it is.
const AS_IT_IS: Form = Form {
    hex: false,
    wide: false,
};

/// Prints it of a file that can be read again, as it is, and gives the exit status, or the fault of
/// writing or reading, with what the system says of a file that can't be read, or that memory was
/// refused. Where it gives none of them nothing was printed, and the file may be read for its plain
/// spelling.
pub(crate) fn list_first<S: Store, W: Sink>(
    store: &mut S,
    alloc: Global,
    listing: Listing,
    file: &Option<FileName>,
    out: &mut LongWriter<W>,
) -> Option<(Result<u8, RunFault>, Option<io::Error>)>
    ensures untouched { IfNone result (out.new ≡ out.old) }
    ensures lists { IfSome result (λ answer. ListsFirstOf W.outlet listing
        (bytes_of_input (S.holdings store.old) (S.opened store.old) (S.made store.old) file.now)
        FILE_BYTES out.old out.new answer.0 answer.1) }
    ensures again { IfNone result
        (bytes_of_input (S.holdings store.new) (S.opened store.new) (S.made store.new) file.now
        ≡ bytes_of_input (S.holdings store.old) (S.opened store.old) (S.made store.old) file.now) }
    ensures fails { IfSome result
        (λ answer. S.failed store.new ≡ (S.failed store.old || failed_reading answer.0)) }
    ensures works { IfNone result (S.failed store.new ≡ S.failed store.old) }
    ensures makes { S.made store.new ≡ S.made store.old }
    ensures holds { S.holdings store.new ≡ S.holdings store.old }
{
    let Some(name) = file else {
        return None;
    };
    if !store.is_regular(name.as_str()) {
        return None;
    }
    let file = match store.open(name.as_str()) {
        Ok(file) => file,
        Err(error) => return Some((Err(RunFault::Read { place: 0 }), Some(error))),
    };
    let mut source = match source_of(alloc, listing, file, AS_IT_IS) {
        Ok(source) => source,
        Err(_) => return Some((Err(RunFault::Memory), None)),
    };
    let answer = list_as_it_is(alloc, listing, &mut source, out);
    let cause = store.close(source);
    match answer {
        Some(told) => Some((told, cause)),
        None => None,
    }
}

/// The same of what a source has.
fn list_as_it_is<R: Source, W: Sink>(
    alloc: Global,
    listing: Listing,
    source: &mut R,
    out: &mut LongWriter<W>,
) -> Option<Result<u8, RunFault>>
    requires fresh { (R.supply source.old).failed ≡ false }
    ensures untouched { IfNone result (out.new ≡ out.old) }
    ensures lists { IfSome result (ListsFirst W.outlet listing
        (R.supply source.old).left FILE_BYTES out.old out.new) }
    ensures fails { IfSome result
        (λ answer. (R.supply source.new).failed ≡ failed_reading answer) }
    ensures works { IfNone result ((R.supply source.new).failed ≡ false) }
{
    let answer = list_bytes(alloc, listing, source, out);
    if is_refused(&answer) {
        return None;
    }
    Some(answer)
}
