//! What `relocate` prints of the worked examples, how far it reads, and its limits.

use crate::tests::asserts::assert_equal;
use crate::tests::calls::{Outcome, expect_outcome, roomy};
use hunk_commands::{RunFault, relocate};
use hunk_scatter::Limits;
use hunk_words::{Fault, FromSlice, FromWrite, LongWriter, Reason, Source};
use std::alloc::Global;
use std::process::Abort;
use std::test::Fail;
use test_helpers::{Fed, Narrow, Then, WIDTH, examples, spelled};

/// What `relocate` prints of example 1 at `BASE`.
const PRINTED: &str = "hunk 0 base 0x00021000 4 bytes\n  4e754e71\n";

/// Where the first hunk lies.
pub(super) const BASE: u32 = 0x21000;

pub(super) const LIMITS: Limits = Limits {
    budget: 1_000,
    file_bytes: 100_000,
};

/// What `relocate` comes to on what the source gives, to this writer.
fn relocated<R: Source>(
    alloc: Global,
    source: &mut R,
    narrow: Narrow,
    limits: Limits,
    base: u32,
) -> Outcome {
    let mut out = LongWriter::new(FromWrite::new(narrow));
    let fault = relocate(alloc, source, &mut out, limits, base).err();
    Outcome {
        fault,
        written: out.written(),
        narrow: out.into_inner().into_inner(),
    }
}

/// Sees that `relocate` answers this of these bytes, with these limits and base, and prints just the text.
fn expect(
    rt: &(impl Abort + AllocGlobal),
    bytes: &[u8],
    (limits, base): (Limits, u32),
    fault: Option<RunFault>,
    text: &str,
) {
    let mut source = FromSlice::new(bytes);
    let got = relocated(rt.alloc(), &mut source, roomy(), limits, base);
    expect_outcome(rt, &got, fault, text.as_bytes());
}

fn refused(place: u64, reason: Reason) -> RunFault {
    RunFault::Refused(Fault { place, reason })
}

/// Files, bases, and what is printed: examples 4, 28, 32 and 8.
const PRINTS: &[(&str, u32, &str)] = &[
    (
        examples::ENDING_EARLY,
        BASE,
        "hunk 0 base 0x00021000 12 bytes\n  4e754e710000000000000000\n",
    ),
    (
        examples::TWO_HUNKS,
        0xFFFF_FFF4,
        "hunk 0 base 0xfffffff4 8 bytes\n  4ef9000000004e71\n\
            hunk 1 base 0xfffffffc 4 bytes\n  12345678\n",
    ),
    (
        examples::ONE_HUNK,
        0xFFFF_FFFC,
        "hunk 0 base 0xfffffffc 4 bytes\n  4e754e71\n",
    ),
    (
        examples::WITH_ATTRIBUTES,
        0,
        "hunk 0 base 0x00000000 8 bytes\n  4e714e714e754e71\n\
            hunk 1 base 0x00000008 4 bytes\n  00000000\n",
    ),
];

#[test]
fn prints(rt: HostRuntime) -> Result<(), Fail> {
    for (file, base, text) in PRINTS {
        let bytes = spelled(rt.alloc(), file)?;
        expect(&rt, &bytes, (LIMITS, *base), None, text);
    }
    Ok(())
}

/// Whether a call is done, and how many bytes the next reader has then.
fn left_after(alloc: Global, bytes: &[u8], budget: u64, base: u32) -> (bool, Option<usize>) {
    let limits = Limits { budget, ..LIMITS };
    let mut source = FromSlice::new(bytes);
    let got = relocated(alloc, &mut source, roomy(), limits, base);
    let mut rest = [0; 64];
    (got.fault.is_none(), source.pull(&mut rest).ok())
}

/// Bases and budgets, and how many bytes the next reader has: all that follows; and all of the body, where the
/// header can't be placed.
const LEFT: &[(u32, u64, usize)] = &[
    (BASE, 4, 7),
    (BASE, 3, 23),
    (0xFFFF_FFFC, 4, 7),
    (0xFFFF_FFFD, 4, 23),
];

#[test]
fn leaves_what_follows(rt: HostRuntime) -> Result<(), Fail> {
    let mut bytes = spelled(rt.alloc(), examples::ONE_HUNK)?;
    bytes.extend_from_slice(b"follows")?;
    for (base, budget, left) in LEFT {
        let got = left_after(rt.alloc(), &bytes, *budget, *base);
        assert_equal(&rt, got, (*left == 7, Some(*left)));
    }
    Ok(())
}

/// How many bytes may be read and held, where example 1 is refused then, and why.
const LIMITED: &[(u64, u64, u64, Reason)] = &[
    (0, 4, 0, Reason::FileLimit),
    (1, 4, 1, Reason::FileLimit),
    (39, 4, 39, Reason::FileLimit),
    (40, 3, 20, Reason::Budget),
    (24, 3, 20, Reason::Budget),
    (23, 3, 23, Reason::FileLimit),
];

fn limits(file_bytes: u64, budget: u64) -> Limits {
    Limits { budget, file_bytes }
}

#[test]
fn keeps_to_the_limits(rt: HostRuntime) -> Result<(), Fail> {
    let bytes = spelled(rt.alloc(), examples::ONE_HUNK)?;
    for (file_bytes, budget, place, reason) in LIMITED {
        let within = (limits(*file_bytes, *budget), BASE);
        expect(&rt, &bytes, within, Some(refused(*place, *reason)), "");
    }
    expect(&rt, &bytes, (limits(40, 4), BASE), None, PRINTED);
    Ok(())
}

/// What comes of example 1 that comes so many bytes a read, to a writer of a byte at a time. A source that fails after
/// the file is not asked again.
#[test]
fn reads_in_any_pieces(rt: HostRuntime) -> Result<(), Fail> {
    let bytes = spelled(rt.alloc(), examples::ONE_HUNK)?;
    for step in [1, 3, 256] {
        let mut source = Fed::new(&bytes, step, Then::Fails);
        let narrow = Narrow::new(WIDTH, 1, false);
        let got = relocated(rt.alloc(), &mut source, narrow, LIMITS, BASE);
        expect_outcome(&rt, &got, None, PRINTED.as_bytes());
    }
    Ok(())
}
