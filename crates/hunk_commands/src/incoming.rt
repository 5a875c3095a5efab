//! An input that is judged as it comes: a load file is checked and not kept, an object file is kept
//! whole.
ghost use Rattle.std.specs.Prelude.{◌≡◌, ◌<◌, ◌++◌, [], IfErr, IfOk, length};
ghost use Rattle.hunk_scatter.specs.HeaderFaults.{CompletesRowIn};
ghost use Rattle.hunk_scatter.specs.LoadChecks.{counted_bytes};
ghost use Rattle.hunk_commands.specs.Engine.{PutsOrRefuses};
ghost use Rattle.hunk_commands.specs.Incoming.{AnnouncesLoad, AnnouncesObject, Holds, WantsMemory};
ghost use Rattle.hunk_commands.specs.Inputs.{ReadsAtMost, ReadsWhole, WantedFor};
ghost use Rattle.hunk_commands.specs.declared.fault.RunFault.TheVariants.{Memory};
ghost use Rattle.hunk_commands.specs.Validated.{IsValidated};

use crate::fault::RunFault;
use crate::input::{Taker, read_all};
use crate::validating::validate_bytes;
use arrayvec::ArrayVec;
use hunk_files::sniff;
use hunk_grammar::Sniff;
use hunk_listing::print_load_totals;
use hunk_scatter::LoadCheck;
use hunk_words::{LongWriter, PagePrinter, Sink, Source};
use std::alloc::{AllocError, Global};
use std::marker::Model;
use std::mem;

/// Room for the two lines at most that report a load file.
const LINES: usize = 128;

/// What is kept of an input, by what its first longword announces.
#[derive(Drop)]
enum Kept {
    /// All of it, fewer bytes than the longword has.
    Front(ArrayVec<u8, 4>),
    /// Where the check of a load file stands.
    Load(LoadCheck),
    /// All of an object file.
    Object(Vec<u8>),
}

/// The input as far as it has come. Contracts see its bytes.
#[derive(Drop)]
pub(crate) struct Incoming {
    alloc: Global,
    kept: Kept,
}

impl Model for Incoming {
    ghost use Rattle.std.specs.Prelude.{ℕ, List};
    ghost use Rattle.hunk_commands.specs.Incoming.{IsKept, kept_bytes};

    ghost Value = { List ℕ };

    ghost view = { λ s. kept_bytes s.kept };

    ghost invariant = { λ s. IsKept s.kept };
}

/// All of the front and the piece of an object file.
fn keep_object(alloc: Global, front: &[u8], piece: &[u8]) -> Result<Kept, AllocError>
    requires announced { AnnouncesObject (front.now ++ piece.now) }
    ensures holds { IfOk result (λ kept. Holds kept (front.now ++ piece.now)) }
    ensures wants { IfErr result (λ _. WantsMemory front.now piece.now) }
{
    let mut bytes = Vec::new(alloc);
    bytes.extend_from_slice(front)?;
    bytes.take(piece)?;
    Ok(Kept::Object(bytes))
}

/// The check of the front and the piece of a load file.
fn keep_load(alloc: Global, front: &[u8], piece: &[u8]) -> Result<Kept, AllocError>
    requires few { length front.now < 4 }
    requires announced { AnnouncesLoad (front.now ++ piece.now) }
    ensures holds { IfOk result (λ kept. Holds kept (front.now ++ piece.now)) }
    ensures wants { IfErr result (λ _. CompletesRowIn front.now piece.now) }
{
    let check = match LoadCheck::new(alloc).feed(front) {
        Ok(check) => check,
        Err(error) => return Err(error),
    };
    match check.feed(piece) {
        Ok(check) => Ok(Kept::Load(check)),
        Err(error) => Err(error),
    }
}

/// What is kept of the front and the piece, where the front has announced nothing.
fn keep_first(alloc: Global, front: &[u8], piece: &[u8]) -> Result<Kept, AllocError>
    requires few { length front.now < 4 }
    ensures holds { IfOk result (λ kept. Holds kept (front.now ++ piece.now)) }
    ensures wants { IfErr result (λ _. WantsMemory front.now piece.now) }
{
    let mut first: ArrayVec<u8, 4> = ArrayVec::new();
    let _ = first.try_extend_from_slice(front);
    let room = first.remaining_capacity();
    let _ = first.try_extend_from_slice(&piece[..piece.len().min(room)]);
    if !first.is_full() {
        return Ok(Kept::Front(first));
    }
    if let Sniff::Object = sniff(first.as_slice()) {
        return keep_object(alloc, front, piece);
    }
    keep_load(alloc, front, piece)
}

impl Incoming {
    /// An input of which nothing has come.
    pub(crate) fn new(alloc: Global) -> Incoming
        ensures { result ≡ [] }
    {
        Incoming {
            alloc,
            kept: Kept::Front(ArrayVec::new()),
        }
    }

    /// All that the source has left, which are fewer than `most` bytes.
    ///
    /// # Errors
    ///
    /// As `read_all`. `Memory` where memory is refused for a hunk's row, which the last piece
    /// completes, or for the bytes of an object file.
    pub(crate) fn read<S: Source>(
        alloc: Global,
        source: &mut S,
        most: u64,
    ) -> Result<Incoming, RunFault>
        ensures reads { IfOk result
            (ReadsWhole (S.supply source.old) (S.supply source.new) most) }
        ensures reads_at_most { ReadsAtMost (S.supply source.old) (S.supply source.new) most result }
        ensures wants { IfErr result (λ fault. fault ≡ Memory
            → WantedFor WantsMemory (S.supply source.old) (S.supply source.new)) }
    {
        let mut input = Incoming::new(alloc);
        match read_all(source, most, &mut input) {
            Ok(()) => Ok(input),
            Err(fault) => Err(fault),
        }
    }

    /// The input with the piece after it.
    fn and(self, piece: &[u8]) -> Result<Incoming, AllocError>
        ensures joined { IfOk result (λ input. input ≡ self ++ piece.now) }
        ensures wants { IfErr result (λ _. WantsMemory self piece.now) }
    {
        let Incoming { alloc, kept } = self;
        let kept = match kept {
            Kept::Front(front) => keep_first(alloc, front.as_slice(), piece)?,
            Kept::Load(check) => Kept::Load(check.feed(piece)?),
            Kept::Object(bytes) => {
                let mut bytes = bytes;
                bytes.extend_from_slice(piece)?;
                Kept::Object(bytes)
            }
        };
        Ok(Incoming { alloc, kept })
    }

    /// Reports the whole input, as `validate_bytes` does its bytes.
    pub(crate) fn report<W: Sink>(self, w: &mut LongWriter<W>) -> Result<u64, RunFault>
        requires few { length self < counted_bytes }
        ensures { PutsOrRefuses W.outlet (λ count. IsValidated count self) self
            w.old w.new result }
    {
        let Incoming { alloc: _, kept } = self;
        match kept {
            Kept::Front(bytes) => validate_bytes(bytes.as_slice(), w),
            Kept::Load(check) => report_load(check, w),
            Kept::Object(bytes) => validate_bytes(bytes.as_slice(), w),
        }
    }
}

impl Taker for Incoming {
    ghost took = { λ s. s };

    ghost wants = { WantsMemory };

    fn take(&mut self, piece: &[u8]) -> Result<(), AllocError> {
        let none = Incoming::new(self.alloc);
        *self = mem::replace(self, none).and(piece)?;
        Ok(())
    }
}

/// Reports the load file that was checked, and answers that nothing is found in it. It is a function
/// of its own, so that its page is on the stack only while it runs.
#[inline(never)]
fn report_load<W: Sink>(check: LoadCheck, w: &mut LongWriter<W>) -> Result<u64, RunFault>
    requires few { length check < counted_bytes }
    requires announced { AnnouncesLoad check }
    ensures { PutsOrRefuses W.outlet (λ count. IsValidated count check) check w.old w.new result }
{
    let summary = match check.finish() {
        Ok(summary) => summary,
        Err(refusal) => return Err(RunFault::RefusedIn(refusal)),
    };
    let mut page = PagePrinter::<W, LINES>::new(w);
    print_load_totals(&mut page, summary.hunks, summary.bytes, summary.rest);
    let printed = page.flush();
    let _out = page.into_inner();
    printed?;
    Ok(0)
}
