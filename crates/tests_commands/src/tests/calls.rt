//! The commands on files of both kinds, by any source and to a writer that may fail.
ghost use Rattle.std.specs.Prelude.{◌≡◌};

use crate::tests::asserts::{assert_equal, assert_output};
use crate::tests::relocating::{BASE, LIMITS};
use hunk_commands::{RunFault, relocate, rewrite, show, validate};
use hunk_scatter::Limits;
use hunk_words::{FromSlice, FromWrite, LongWriter, Sink, Source};
use std::alloc::{AllocError, Global};
use std::io::Write;
use std::process::Abort;
use test_helpers::{Narrow, WIDTH, examples, spelled};

/// More than any of the files has.
pub(super) const LIMIT: u64 = 100_000;

#[derive(Clone, Copy, Debug, PartialEq)]
pub(super) enum Call {
    Show,
    Validate,
    Rewrite,
    Strip,
    Relocate,
}

/// A command, the file that it reads, and what it writes: text, or the longwords of a rewritten file.
pub(super) type Case = (Call, &'static str, &'static str);

/// Calls on example 8, a load file, and on example 29, an object file in which two things are found; and a strip of
/// example 18, a load file with a symbol.
pub(super) const CASES: &[Case] = &[
    (
        Call::Show,
        examples::WITH_ATTRIBUTES,
        "load file 2 hunks 12 bytes\nhunk 0 8 bytes attributes 0x00010004\n  CODE 8 bytes\n  END\n\
            hunk 1 4 bytes any\n  BSS 4 bytes\n  END\n",
    ),
    (
        Call::Show,
        examples::TWO_FINDINGS,
        "object file 1 units\nunit 0 \nhunk 0 4 bytes\n  CODE 4 bytes\n  RELOC32 1\n    1 0x00000002\n\
            \x20 END\n",
    ),
    (
        Call::Validate,
        examples::WITH_ATTRIBUTES,
        "load file 2 hunks 12 bytes\n",
    ),
    (
        Call::Validate,
        examples::TWO_FINDINGS,
        "unit 0 hunk 0 offset 0x00000002 BadTarget\nunit 0 hunk 0 offset 0x00000002 OutsideHunk\n\
            object file 1 units 2 findings\n",
    ),
    (
        Call::Rewrite,
        examples::WITH_ATTRIBUTES,
        examples::WITH_ATTRIBUTES,
    ),
    (
        Call::Rewrite,
        examples::TWO_FINDINGS,
        examples::TWO_FINDINGS,
    ),
    (Call::Strip, examples::WITH_A_SYMBOL, examples::ONE_HUNK),
    (
        Call::Relocate,
        examples::WITH_ATTRIBUTES,
        "hunk 0 base 0x00021000 8 bytes\n  4e714e714e754e71\nhunk 1 base 0x00021008 4 bytes\n  00000000\n",
    ),
];

/// The fault of a call on what the source gives.
fn fault_of<R: Source, S: Sink>(
    alloc: Global,
    call: Call,
    source: &mut R,
    out: &mut LongWriter<S>,
    limits: Limits,
) -> Option<RunFault>
    requires { out.old.written ≡ 0 }
{
    let most = limits.file_bytes;
    match call {
        Call::Show => show(alloc, source, out, most).err(),
        Call::Validate => validate(alloc, source, out, most).err(),
        Call::Rewrite => rewrite(alloc, source, out, most, false).err(),
        Call::Strip => rewrite(alloc, source, out, most, true).err(),
        Call::Relocate => relocate(alloc, source, out, limits, BASE).err(),
    }
}

/// The fault of a call on what the source gives, how many bytes it wrote, and the writer that took them.
pub(super) fn called<R: Source, W: Write + Drop>(
    alloc: Global,
    call: Call,
    source: &mut R,
    writer: W,
    limits: Limits,
) -> (Option<RunFault>, u64, W) {
    let mut out = LongWriter::new(FromWrite::new(writer));
    let fault = fault_of(alloc, call, source, &mut out, limits);
    (fault, out.written(), out.into_inner().into_inner())
}

/// What a call answers, and the writer after it.
#[derive(Drop)]
pub(super) struct Outcome {
    pub fault: Option<RunFault>,
    pub written: u64,
    pub narrow: Narrow,
}

/// What the call comes to on what the source gives, to this writer.
pub(super) fn made<R: Source>(
    alloc: Global,
    call: Call,
    source: &mut R,
    narrow: Narrow,
) -> Outcome {
    made_within(alloc, call, source, narrow, LIMIT)
}

/// The same where this many bytes may be read.
pub(super) fn made_within<R: Source>(
    alloc: Global,
    call: Call,
    source: &mut R,
    narrow: Narrow,
    file_bytes: u64,
) -> Outcome {
    let budget = LIMITS.budget;
    let limits = Limits { budget, file_bytes };
    let (fault, written, narrow) = called(alloc, call, source, narrow, limits);
    Outcome {
        fault,
        written,
        narrow,
    }
}

/// What it comes to on these bytes.
pub(super) fn made_of(alloc: Global, call: Call, bytes: &[u8], narrow: Narrow) -> Outcome {
    made(alloc, call, &mut FromSlice::new(bytes), narrow)
}

/// Sees that a call answered this, and wrote just the output.
pub(super) fn expect_outcome(
    rt: &impl Abort,
    got: &Outcome,
    fault: Option<RunFault>,
    output: &[u8],
) {
    assert_equal(rt, got.fault, fault);
    assert_equal(rt, got.written, output.len() as u64);
    assert_output(rt, got.narrow.taken(), output);
}

/// A writer with room for all.
pub(super) fn roomy() -> Narrow {
    Narrow::failing(WIDTH)
}

/// The bytes of the case's input, and those that it writes.
pub(super) fn input_and_output(
    alloc: Global,
    case: &Case,
) -> Result<(Vec<u8>, Vec<u8>), AllocError> {
    let (call, file, output) = *case;
    let input = spelled(alloc, file)?;
    if matches!(call, Call::Rewrite | Call::Strip) {
        return Ok((input, spelled(alloc, output)?));
    }
    Ok((input, Vec::from_slice(alloc, output.as_bytes())?))
}
