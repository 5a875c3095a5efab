//! The command `rewrite`, from one file to another.
ghost use Rattle.std.specs.Prelude.{◌≡◌, ◌↔◌, ◌||◌, ◌-◌, ℕ, false, is_some, true, IfErr, IfOk, IsErrAnd, None, Some};
ghost use Rattle.hunk_commands.specs.declared.fault.RunFault.TheVariants.{Memory, Write};
ghost use Rattle.hunk_commands.specs.Faults.{IsWrite};
ghost use Rattle.hunk_commands.specs.Inputs.{ReadsInput, TellsReading};
ghost use Rattle.hunk_run.specs.Asked.{AsksRewriting, HasRewriting, StopsRewriting, TellsInput};
ghost use Rattle.hunk_run.specs.Asked.{TellsSpelling};
ghost use Rattle.hunk_run.specs.Notes.{EndsOrFails, left_out_note, rewritten_ended};
ghost use Rattle.hunk_run.specs.Orders.{AnswersRewriting, RewritesFirst, RewritesTo, SaysInput};
ghost use Rattle.hunk_run.specs.Refusals.{FromInput, failed_at_files};
ghost use Rattle.hunk_run.specs.Runs.{rewritten_lines};
ghost use Rattle.hunk_run.specs.Stores.{bytes_of_input};
ghost use Rattle.hunk_run.specs.Wide.{IsUnread};

use crate::note::{Ended, Note, output_failed};
use crate::plain::is_refused;
use crate::rewriting_plain::rewrite_wide;
use crate::spelled::{Spelled, said_of};
use crate::store::Store;
use crate::to_file::{Outset, ToFile};
use crate::{DONE, FILE_BYTES, LINES};
use hunk_command_line::FileName;
use hunk_commands::{Rewritten, RunFault, rewrite};
use hunk_listing::print_rewriting;
use hunk_wide::Spelling;
use hunk_words::{Failed, FromRead, LongWriter, PagePrinter, Sink, Source};
use std::alloc::{AllocError, Global};
use std::io;
use std::marker::Brand;

/// How a file is rewritten.
#[derive(Clone, Copy)]
pub(crate) struct Way {
    /// Whether what a loader does not need is left out.
    pub strip: bool,
    /// Whether the plain spelling is written.
    pub wide: bool,
}

/// The store, how much was written of a file, what the system says of one that can't be read or
/// written, and what is told of how the input is spelled.
type Rewriting<S, T> = (S, Result<Rewritten, RunFault>, Option<io::Error>, Option<T>);

/// Writes the file `input` again, to `output`, and gives how much was written, and what the system
/// says of a file that can't be read or written. The store is given back.
///
/// `output` is not touched before `input` was accepted, and keeps what was written where that
/// succeeds.
pub(crate) fn rewrite_file<S: Store>(
    store: S,
    alloc: Global,
    input: &FileName,
    output: &FileName,
    way: Way,
) -> Rewriting<S, Spelled>
    ensures answers { AnswersRewriting (S.made store) (S.made result.0)
        (bytes_of_input (S.holdings store) (S.opened store) (S.made store) (Some input.now))
        output.now way.strip way.wide FILE_BYTES result.1 result.2 }
    ensures spelled { SaysInput false way.wide FILE_BYTES
        (bytes_of_input (S.holdings store) (S.opened store) (S.made store) (Some input.now))
        (Some input.now) (IsErrAnd result.1 IsUnread) result.3 }
    ensures fails { S.failed result.0 ≡ (S.failed store || failed_at_files result.1) }
    ensures holds { S.holdings result.0 ≡ S.holdings store }
{
    let name = match copied(alloc, input, way.wide) {
        Ok(name) => name,
        Err(_) => return (store, Err(RunFault::Memory), None, None),
    };
    let (store, answer, cause, spelling) = rewrite_input(store, alloc, input, output, way);
    (store, answer, cause, said_of(name, spelling))
}

/// The file's name once more, for what is said of its spelling: it is wanted with `--wide` alone.
fn copied(alloc: Global, file: &FileName, wide: bool) -> Result<Option<FileName>, AllocError>
    ensures { IfOk result (λ name. wide ≡ true → name ≡ Some file.now) }
{
    if wide {
        Ok(Some(file.try_clone(alloc)?))
    } else {
        Ok(None)
    }
}

/// The same, and how the input is spelled where it was read so.
///
/// A file that is spelled plainly is written as it is, and nothing is said of its spelling. So a
/// file that can be read again is first read as it is: only where that is refused, and `output` was
/// not touched, is it read for its plain spelling.
fn rewrite_input<S: Store>(
    store: S,
    alloc: Global,
    input: &FileName,
    output: &FileName,
    way: Way,
) -> Rewriting<S, Spelling>
    ensures answers { AnswersRewriting (S.made store) (S.made result.0)
        (bytes_of_input (S.holdings store) (S.opened store) (S.made store) (Some input.now))
        output.now way.strip way.wide FILE_BYTES result.1 result.2 }
    ensures spelled { TellsInput
        (bytes_of_input (S.holdings store) (S.opened store) (S.made store) (Some input.now))
        false way.wide FILE_BYTES result.1 result.3 }
    ensures fails { S.failed result.0 ≡ (S.failed store || failed_at_files result.1) }
    ensures holds { S.holdings result.0 ≡ S.holdings store }
{
    if !way.wide || !store.is_regular(input.as_str()) {
        return rewrite_named(store, alloc, input, output, way);
    }
    let as_it_is = Way {
        strip: way.strip,
        wide: false,
    };
    let (store, answer, cause, _) = rewrite_named(store, alloc, input, output, as_it_is);
    if is_refused(&answer) {
        return rewrite_named(store, alloc, input, output, way);
    }
    (store, answer, cause, None)
}

/// The same, and how the input is spelled where it was read and that was asked for.
fn rewrite_named<S: Store>(
    store: S,
    alloc: Global,
    input: &FileName,
    output: &FileName,
    way: Way,
) -> Rewriting<S, Spelling>
    ensures answers { AnswersRewriting (S.made store) (S.made result.0)
        (bytes_of_input (S.holdings store) (S.opened store) (S.made store) (Some input.now))
        output.now way.strip way.wide FILE_BYTES result.1 result.2 }
    ensures spelled { TellsSpelling (FromInput
        (bytes_of_input (S.holdings store) (S.opened store) (S.made store) (Some input.now)))
        false way.wide FILE_BYTES result.1 result.3 }
    ensures fails { S.failed result.0 ≡ (S.failed store || failed_at_files result.1) }
    ensures holds { S.holdings result.0 ≡ S.holdings store }
{
    let mut store = store;
    let mut source = match store.open(input.as_str()) {
        Ok(file) => FromRead::new(file),
        Err(error) => return (store, Err(RunFault::Read { place: 0 }), Some(error), None),
    };
    let (mut store, answer, error, spelling) = rewrite_to::<S, FromRead<S::File>, Brand>(
        store,
        alloc,
        &mut source,
        output,
        way,
    );
    let cause = store.close(source);
    (store, answer, error.or(cause), spelling)
}

/// Writes the file that the source gives again, to `output`, which is settled then. The store is
/// given back, and the last error of writing.
///
/// # Errors
///
/// Those of `rewrite`; and where all was written and `output` does not keep it, a fault of writing
/// after as many bytes.
fn rewrite_to<S: Store, R: Source, K: Outset>(
    store: S,
    alloc: Global,
    source: &mut R,
    output: &FileName,
    way: Way,
) -> Rewriting<S, Spelling>
    // It only names what is there.
    requires { (S.holdings store ≡ K.holdings) × (S.made store ≡ K.made)
        × (output.now ≡ K.name) × (S.failed store ≡ K.failed) }
    ensures rewrites { IfOk result.1 (λ done. ReadsInput
        (RewritesTo (S.made store) (S.made result.0) output.now way.strip way.wide done)
        (R.supply source.old) (R.supply source.new) FILE_BYTES) }
    ensures write { IfErr result.1 (λ fault. (written : ℕ) → fault ≡ Write written → ReadsInput
        (RewritesFirst (S.made store) (S.made result.0) output.now way.strip way.wide written)
        (R.supply source.old) (R.supply source.new) FILE_BYTES) }
    ensures untouched { IfErr result.1 (λ fault. ¬ IsWrite fault
        → S.made result.0 ≡ S.made store) }
    ensures holds { S.holdings result.0 ≡ S.holdings store }
    ensures error { is_some result.2 ≡ true ↔ IsErrAnd result.1 IsWrite }
    ensures fails { S.failed result.0 ≡ (S.failed store || is_some result.2) }

    // What was read, and when a file is written.
    ensures succeeds { HasRewriting way.wide (R.supply source.old) FILE_BYTES
        → (R.supply source.new).failed ≡ false → result.2 ≡ None
        → IfErr result.1 (λ fault. fault ≡ Memory) }
    ensures tells_read { TellsReading (R.supply source.old) (R.supply source.new) result.1 }
    ensures stops { IfErr result.1 (λ fault. ¬ IsWrite fault
        → StopsRewriting way.wide (R.supply source.old) (R.supply source.new) FILE_BYTES fault) }
    ensures spelled { TellsSpelling (λ Holds. Holds (R.supply source.old) (R.supply source.new))
        false way.wide FILE_BYTES result.1 result.3 }
{
    let mut writer = LongWriter::new(ToFile::<S, K>::new(store, output));
    let (answer, spelling) = rewrite_asked(alloc, source, &mut writer, way);
    let mut out = writer.into_inner();
    let done = match answer {
        Ok(done) => done,
        Err(fault) => {
            let (store, error) = out.finish();
            return (store, Err(fault), error, spelling);
        }
    };
    let kept = out.sync();
    let (store, error) = out.finish();
    match kept {
        Ok(()) => (store, Ok(done), error, spelling),
        Err(Failed) => {
            let written = done.written;
            (store, Err(RunFault::Write { written }), error, spelling)
        }
    }
}

/// Writes the file that the source gives, as it is or in its plain spelling, and answers how it is
/// spelled where that was asked for.
fn rewrite_asked<R: Source, W: Sink>(
    alloc: Global,
    source: &mut R,
    writer: &mut LongWriter<W>,
    way: Way,
) -> (Result<Rewritten, RunFault>, Option<Spelling>)
    ensures { AsksRewriting W.outlet way.strip way.wide (R.supply source.old) (R.supply source.new)
        FILE_BYTES writer.old writer.new result.0 result.1 }
{
    if way.wide {
        rewrite_wide(alloc, source, writer, way.strip)
    } else {
        let answer = rewrite(alloc, source, writer, FILE_BYTES, way.strip);
        (answer, None)
    }
}

/// Prints the lines that say how much of the file `input` was written, and ends the run.
pub(crate) fn tell<W: Sink>(done: Rewritten, input: FileName, out: &mut LongWriter<W>) -> Ended
    ensures { EndsOrFails W.outlet out.old out.new (rewritten_lines done)
        (rewritten_ended done input) result }
{
    let mut page = PagePrinter::<W, LINES>::new(out);
    print_rewriting(&mut page, done.written, done.rest);
    let result = page.flush();
    let _out = page.into_inner();
    match result {
        Ok(()) => Ended {
            status: DONE,
            spelled: None,
            note: left_out(input, done),
        },
        Err(_) => output_failed(),
    }
}

/// What is said of the bytes of a file that were not written.
fn left_out(name: FileName, done: Rewritten) -> Option<Note>
    ensures { result ≡ left_out_note (done.read - done.written) done.rest name }
{
    let stripped = done.read.saturating_sub(done.written);
    let rest = done.rest;
    match (stripped, rest) {
        (0, 0) => None,
        _ => Some(Note::LeftOut {
            name,
            stripped,
            rest,
        }),
    }
}
