//! Hexadecimal text in pieces. Which bytes a text spells is in `tests/program/cases/inputs.tsv`.

use crate::tests::asserts::assert_equal;
use hunk_commands::{RunFault, read_hex, unhex};
use hunk_words::{Fault, Reason};
use std::alloc::Global;
use std::process::Abort;
use std::test::Fail;
use test_helpers::{Fed, Then, answers_growth_by_growth, memory_ends};

/// What the text spells, where it comes in pieces of `step` bytes, and then what comes after them;
/// fewer than `most` bytes of it are read.
fn read(
    alloc: Global,
    text: &[u8],
    step: usize,
    then: Then,
    most: u64,
) -> Result<Vec<u8>, RunFault> {
    read_hex(alloc, &mut Fed::new(text, step, then), most)
}

/// The text of this many bytes, which count up, with a blank inside of each third.
fn counted(alloc: Global, count: usize) -> Result<(Vec<u8>, Vec<u8>), Fail> {
    let (mut bytes, mut text) = (Vec::new(alloc), Vec::new(alloc));
    for i in 0..count {
        let byte = (i % 251) as u8;
        bytes.push(byte)?;
        text.push(DIGITS[usize::from(byte / 16)])?;
        if i % 3 == 0 {
            text.push(b'\n')?;
        }
        text.push(DIGITS[usize::from(byte % 16)])?;
    }
    Ok((bytes, text))
}

const DIGITS: &[u8; 16] = b"0123456789ABCdef";

const STEPS: &[usize] = &[1, 3, 256];

#[test]
fn reads_in_pieces(rt: HostRuntime) -> Result<(), Fail> {
    for count in [0, 1, 511, 512, 513, 1_025] {
        let (bytes, text) = counted(rt.alloc(), count)?;
        for step in STEPS {
            let got = read(rt.alloc(), text.as_slice(), *step, Then::Ends, 10_000)?;
            assert!(rt; got == bytes, "{count} bytes by {step}");
        }
    }
    Ok(())
}

/// Why a text that comes so is refused, if it is.
fn refusal(alloc: Global, text: &[u8], step: usize, then: Then, most: u64) -> Option<RunFault> {
    read(alloc, text, step, then, most).err()
}

/// The text is read to its end before it is refused, so a failure and the limit come first.
#[test]
fn refuses_at_the_end(rt: HostRuntime) -> Result<(), Fail> {
    let (_, mut text) = counted(rt.alloc(), 1_025)?;
    if let Some(digit) = text.get_mut(4) {
        *digit = b'g';
    }
    let place = text.len() as u64;
    let limit = RunFault::Refused(Fault {
        place,
        reason: Reason::FileLimit,
    });
    let alloc = rt.alloc();
    for step in STEPS {
        let got = refusal(alloc, &text, *step, Then::Ends, place + 1);
        assert_equal(&rt, got, Some(RunFault::HexText));
        let got = refusal(alloc, &text, *step, Then::Fails, place + 1);
        assert_equal(&rt, got, Some(RunFault::Read { place }));
        let got = refusal(alloc, &text, *step, Then::Ends, place);
        assert_equal(&rt, got, Some(limit));
    }
    Ok(())
}

/// The fault of a call, or no fault where it answers other bytes than these; nothing where it answers these.
fn shortfall(got: Result<Vec<u8>, RunFault>, bytes: &[u8]) -> Option<Option<RunFault>> {
    match got {
        Ok(got) if got.as_slice() == bytes => None,
        Ok(_) => Some(None),
        Err(fault) => Some(Some(fault)),
    }
}

/// Sees that the call answers `Memory` until no growth is refused, and these bytes then.
fn expect_growths<F: Fn() -> Result<Vec<u8>, RunFault>>(
    rt: &impl Abort,
    alloc: Global,
    call: F,
    bytes: &[u8],
) -> Result<(), Fail>
    requires { F.IsAlwaysCallable call }
{
    let answers = answers_growth_by_growth(alloc, || shortfall(call(), bytes))?;
    let want = [Some(Some(RunFault::Memory)), None];
    assert_equal(rt, answers.as_slice(), want.as_slice());
    Ok(())
}

/// The list of bytes grows as 1,024 digits are there, twice, and at the end of the text.
#[test]
fn each_growth_is_refused(rt: HostRuntime) -> Result<(), Fail> {
    if !memory_ends(&rt)? {
        return Ok(());
    }
    let (bytes, text) = counted(rt.alloc(), 1_025)?;
    let (bytes, text) = (bytes.as_slice(), text.as_slice());
    expect_growths(&rt, rt.alloc(), || unhex(rt.alloc(), text), bytes)?;
    expect_growths(
        &rt,
        rt.alloc(),
        || read(rt.alloc(), text, 256, Then::Ends, 10_000),
        bytes,
    )
}
