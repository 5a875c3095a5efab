//! A run of the program hunkinfo: the words are read, what they ask for is done, and one text is printed, once.
#![tactic(auto)]

ghost use Rattle.std.specs.Prelude.{◌≡◌, ◌≤◌, map, true, Some, None};
ghost use Rattle.std.specs.String.{string_bytes};
ghost use Rattle.clap.specs.Words.{takes};
ghost use Rattle.clap.specs.Kinds.{IsAmong};
ghost use Rattle.clap.specs.Faults.{fault_of};
ghost use Rattle.clap.specs.declared.error.kind.ErrorKind.TheVariants.{DisplayHelp, DisplayVersion};
ghost use Rattle.hunk_command_line.specs.declared.asked.Order.{Order};
ghost use Rattle.hunk_run.specs.Status.{TellsStatus};
ghost use Rattle.hunk_run.specs.Notes.{EndsByFault, EndsListing, EndsOrFails, EndsRewriting, Notes, input_of};
ghost use Rattle.hunk_run.specs.Notes.{refusal_ended, refusal_text};
ghost use Rattle.hunk_run.specs.Orders.{EndsOrder, IsOrderDone, MakesOut};
ghost use Rattle.hunk_command_line.specs.Command.{hunkinfo};
ghost use Rattle.hunk_command_line.specs.Line.{order_of, words_read};
ghost use Rattle.hunk_run.specs.Runs.{PrintsNoHelp};
ghost use Rattle.hunk_run.specs.Stores.{bytes_of_input};

mod escaped;
mod host;
mod listing;
mod listing_first;
mod listing_plain;
mod note;
mod plain;
mod rewriting;
mod rewriting_plain;
mod spelled;
mod store;
mod to_file;
mod verdict;

pub use crate::host::Host;
use crate::listing::{Form, Listing, list_file};
use crate::note::output_failed;
pub use crate::note::{Ended, Note};
use crate::rewriting::{Way, rewrite_file, tell};
pub use crate::spelled::Spelled;
pub use crate::store::Store;
use hunk_command_line::{FileName, Order, OrderFault, VERSION_LINE, order};
use hunk_commands::{Rewritten, RunFault};
use hunk_words::{LongWriter, PagePrinter, Sink};
use std::alloc::Global;
use std::io;

/// The most bytes that are read of an input, and the most that hexadecimal text may have.
const FILE_BYTES: u64 = 67_108_864;

/// The exit status where all is done, and after help and the version.
const DONE: u8 = 0;

/// The exit status where the command line is refused.
const LINE_REFUSED: u8 = 2;

/// Room for the one or two lines that a run prints in the place of a listing.
const LINES: usize = 128;

/// What is printed where the words are no order.
const REFUSED_LINE: &str = "command line refused\n";

/// Does what the words ask for, of which the first is the program's name, and tells how the run
/// ends.
///
/// The status is 0 where it is done, and after help and the version; 1 where the input is refused,
/// or `validate` found something; 2 where the command line is refused; 3 where reading or writing
/// failed; 4 where memory was refused. Where `out` fails, nothing more is written. A note is there
/// where the status is not 0, unless `out` has taken findings, and where `rewrite` left something
/// out.
pub fn run<S: Store, W: Sink>(
    store: S,
    alloc: Global,
    words: &[String],
    out: &mut LongWriter<W>,
) -> (Ended, S)
    ensures bound { result.0.status ≤ 4 }
    ensures tells { TellsStatus W.outlet out.old out.new result.0.status }

    // Where clap takes the words: they are an order, and the run ends as it asks, or they are
    // refused.
    ensures ordered { (order : Order) → takes hunkinfo (words_read (map string_bytes words.now)) ≡ true
        → order_of (map string_bytes words.now) ≡ Some order
        → EndsOrder W.outlet out.old out.new (S.made store) (S.made result.1)
        (S.failed store) (S.failed result.1) FILE_BYTES
        (bytes_of_input (S.holdings store) (S.opened store) (S.made store) (input_of order))
        order result.0 }
    ensures refused { takes hunkinfo (words_read (map string_bytes words.now)) ≡ true
        → order_of (map string_bytes words.now) ≡ None
        → PrintsNoHelp W.outlet out.old out.new result.0.status }

    // Where neither help nor the version is asked for, the status is 0 only where the words are an
    // order, and it is done.
    ensures heard { (IsAmong DisplayHelp
        (fault_of hunkinfo (words_read (map string_bytes words.now))) → ⊥)
        → (IsAmong DisplayVersion
        (fault_of hunkinfo (words_read (map string_bytes words.now))) → ⊥)
        → result.0.status ≡ 0
        → (order : Order) × (order_of (map string_bytes words.now) ≡ Some order)
        × IsOrderDone W.outlet out.old out.new (S.made store) (S.made result.1) FILE_BYTES
        (bytes_of_input (S.holdings store) (S.opened store) (S.made store) (input_of order))
        0 order }

    // What becomes of the files.
    ensures makes { MakesOut (S.made store) (S.made result.1)
        (order_of (map string_bytes words.now)) }
    ensures holds { S.holdings result.1 ≡ S.holdings store }

    // What is said on standard error.
    ensures notes { Notes W.outlet out.old out.new result.0.status result.0.note }
{
    let order = match order(alloc, words) {
        Ok(order) => order,
        Err(fault) => return (refuse(fault, out), store),
    };
    let (listing, form, file) = match order {
        Order::Show { hex, wide, file } => (Listing::Show, Form { hex, wide }, file),
        Order::Validate { hex, wide, file } => (Listing::Validate, Form { hex, wide }, file),
        Order::Relocate {
            hex,
            wide,
            base,
            budget,
            file,
        } => (Listing::Relocate { base, budget }, Form { hex, wide }, file),
        Order::Rewrite {
            strip,
            wide,
            input,
            output,
        } => {
            let way = Way { strip, wide };
            let (store, answer, cause, spelled) = rewrite_file(store, alloc, &input, &output, way);
            let ended = end_rewriting(answer, (input, output), cause, wide, out);
            return (ended.with_spelled(spelled), store);
        }
    };
    let mut store = store;
    let (answer, cause, spelled) = list_file(&mut store, alloc, listing, &file, form, out);
    let ended = end_listing(answer, file, cause, form.wide, out);
    (ended.with_spelled(spelled), store)
}

/// Prints why there is no order, and tells how the run ends.
pub fn refuse<W: Sink>(fault: OrderFault, out: &mut LongWriter<W>) -> Ended
    ensures { EndsOrFails W.outlet out.old out.new (refusal_text fault) (refusal_ended fault)
        result }
{
    match fault {
        OrderFault::Line(why) => print(REFUSED_LINE, LINE_REFUSED, Some(Note::Line(why)), out),
        OrderFault::NotText => print(REFUSED_LINE, LINE_REFUSED, Some(Note::NotText), out),
        OrderFault::Help(text) => print(text.as_str(), DONE, None, out),
        OrderFault::Version => print(VERSION_LINE, DONE, None, out),
        OrderFault::Memory => report(RunFault::Memory, (None, None), None, false, out),
    }
}

/// Ends the run that was to list the input of this name.
fn end_listing<W: Sink>(
    answer: Result<u8, RunFault>,
    name: Option<FileName>,
    cause: Option<io::Error>,
    wide: bool,
    out: &mut LongWriter<W>,
) -> Ended
    ensures { EndsListing W.outlet out.old out.new answer name cause wide result }
{
    match answer {
        Ok(status) => Ended {
            status,
            spelled: None,
            note: None,
        },
        Err(RunFault::Write { .. }) => output_failed(),
        Err(fault) => report(fault, (name, None), cause, wide, out),
    }
}

/// Ends the run that was to rewrite a file: these are the names of IN and OUT.
fn end_rewriting<W: Sink>(
    answer: Result<Rewritten, RunFault>,
    names: (FileName, FileName),
    cause: Option<io::Error>,
    wide: bool,
    out: &mut LongWriter<W>,
) -> Ended
    ensures { EndsRewriting W.outlet out.old out.new answer names.0 names.1 cause wide result }
{
    let (input, output) = names;
    match answer {
        Ok(done) => tell(done, input, out),
        Err(fault @ RunFault::Write { .. }) => {
            report(fault, (Some(output), None), cause, wide, out)
        }
        Err(fault) => report(fault, (Some(input), Some(output)), cause, wide, out),
    }
}

/// Prints the fault's line, for which no memory is needed, and ends the run. The names are that of
/// the file that it is of, and that of one that was not touched.
fn report<W: Sink>(
    fault: RunFault,
    names: (Option<FileName>, Option<FileName>),
    cause: Option<io::Error>,
    wide: bool,
    out: &mut LongWriter<W>,
) -> Ended
    ensures { EndsByFault W.outlet out.old out.new fault names.0 cause names.1 wide result }
{
    let mut page = PagePrinter::<W, LINES>::new(out);
    fault.print(&mut page);
    let result = page.flush();
    let _out = page.into_inner();
    let (name, untouched) = names;
    let note = Note::Fault {
        fault,
        name,
        cause,
        untouched,
        wide,
    };
    match result {
        Ok(()) => Ended {
            status: fault.status(),
            spelled: None,
            note: Some(note),
        },
        Err(_) => output_failed(),
    }
}

/// Prints the text, and ends the run with this status and note.
fn print<W: Sink>(text: &str, status: u8, note: Option<Note>, out: &mut LongWriter<W>) -> Ended
    ensures { EndsOrFails W.outlet out.old out.new text.now
        (record { status = status; spelled = None; note = note }) result }
{
    match out.put_bytes(text.as_bytes()) {
        Ok(()) => Ended {
            status,
            spelled: None,
            note,
        },
        Err(_) => output_failed(),
    }
}
