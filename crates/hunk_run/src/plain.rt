//! The plain spelling of an input, and faults of it.
ghost use Rattle.std.specs.Prelude.{◌≡◌, IfErr, IfNone, IfOk, IfSome};
ghost use Rattle.hunk_wide.specs.Plain.{plain};
ghost use Rattle.hunk_commands.specs.Inputs.{TellsReading};
ghost use Rattle.hunk_run.specs.Refusals.{refuses_input};
ghost use Rattle.hunk_run.specs.Wide.{MakesNone, ReadsBytes, ReadsNoBytes, fault_at, placed};

use crate::FILE_BYTES;
use crate::listing::spelled_bytes;
use hunk_commands::{RunFault, read_input};
use hunk_files::Refusal;
use hunk_wide::{Plain, Spelling, place_in};
use hunk_words::{Fault, FromSlice, Source};
use std::alloc::Global;
use std::marker::Model;

/// The bytes that all of the source has, or where `hex` is set that its text spells.
///
/// # Errors
///
/// As `read_input` and `read_hex`. What the source has, be it text or not, may have as many bytes
/// as for any other command.
pub(crate) fn input_bytes<R: Source>(
    alloc: Global,
    source: &mut R,
    hex: bool,
) -> Result<Vec<u8>, RunFault>
    ensures reads { IfOk result (λ bytes. ReadsBytes hex
        (R.supply source.old) (R.supply source.new) FILE_BYTES bytes.items) }
    ensures refuses { IfErr result (λ fault. ReadsNoBytes hex fault
        (R.supply source.old) (R.supply source.new) FILE_BYTES) }
    ensures tells_read { TellsReading (R.supply source.old) (R.supply source.new) result }
{
    if hex {
        spelled_bytes(alloc, source)
    } else {
        read_input(alloc, source, FILE_BYTES)
    }
}

/// The plain spelling of an input: its own bytes, where nothing is spelled otherwise, or such as
/// were made of them.
#[derive(Drop)]
pub(crate) struct PlainSpelling<'a> {
    input: &'a [u8],
    made: Option<Vec<u8>>,
}

impl<'a> Model for PlainSpelling<'a> {
    ghost use Rattle.std.specs.Prelude.{◌≡◌, ℕ, List, IfNone, IfSome};
    ghost use Rattle.hunk_wide.specs.Plain.{plain};

    ghost Value = { List ℕ };

    ghost view = { λ s. plain s.input.now };

    ghost invariant = { λ s. IfSome s.made (λ bytes. bytes.items ≡ plain s.input.now)
        × IfNone s.made (plain s.input.now ≡ s.input.now) };
}

impl<'a> PlainSpelling<'a> {
    /// Of the input that is spelled so. Memory is taken only where it is another spelling.
    ///
    /// # Errors
    ///
    /// `Refused` with `FileLimit`, at `FILE_BYTES`, where the plain spelling has as many bytes or
    /// more. `Memory` where memory is refused.
    pub(crate) fn new(
        alloc: Global,
        input: &'a [u8],
        spelling: Spelling,
    ) -> Result<PlainSpelling<'a>, RunFault>
        requires { spelling.short_blocks ≡ 0 → spelling.ends ≡ 0
            → plain input.now ≡ input.now }
        ensures plain { IfOk result (λ plain_bytes. plain_bytes ≡ plain input.entry.now) }
        ensures refuses { IfErr result (MakesNone FILE_BYTES (plain input.entry.now)) }
    {
        if spelling.short_blocks == 0 && spelling.ends == 0 {
            return Ok(PlainSpelling { input, made: None });
        }
        let made = Some(plain_bytes(alloc, input)?);
        Ok(PlainSpelling { input, made })
    }

    /// Its bytes.
    pub(crate) fn as_slice(&self) -> &[u8]
        ensures { result.now ≡ self.now }
    {
        match &self.made {
            Some(bytes) => bytes.as_slice(),
            None => self.input,
        }
    }
}

/// The bytes of the plain spelling of the input.
fn plain_bytes(alloc: Global, input: &[u8]) -> Result<Vec<u8>, RunFault>
    ensures plain { IfOk result (λ bytes. bytes.items ≡ plain input.now) }
    ensures refuses { IfErr result (MakesNone FILE_BYTES (plain input.now)) }
{
    let mut source = Plain::new(FromSlice::new(input));
    read_input(alloc, &mut source, FILE_BYTES)
}

/// Whether the input was refused: neither reading or writing has failed, nor was memory refused.
pub(crate) fn is_refused<T>(answer: &Result<T, RunFault>) -> bool
    ensures { result ≡ refuses_input answer.now }
{
    match answer {
        Err(RunFault::Refused(_) | RunFault::RefusedIn(_) | RunFault::HexText) => true,
        Err(RunFault::Read { .. } | RunFault::Write { .. } | RunFault::Memory) | Ok(_) => false,
    }
}

/// A fault of the plain spelling, as one of the input: where a place is told, it is that in the
/// input.
pub(crate) fn in_input(input: &[u8], fault: RunFault) -> RunFault
    ensures { result ≡ placed input.now fault }
{
    match fault {
        RunFault::Refused(refusal) => RunFault::Refused(at_input(input, refusal)),
        RunFault::RefusedIn(Refusal { fault, part }) => RunFault::RefusedIn(Refusal {
            fault: at_input(input, fault),
            part,
        }),
        other => other,
    }
}

/// The same of a refusal.
fn at_input(input: &[u8], refusal: Fault) -> Fault
    ensures { result ≡ fault_at input.now refusal }
{
    Fault {
        place: place_in(input, refusal.place),
        reason: refusal.reason,
    }
}
