//! The callers on files of the worked examples.

mod folder;
mod suite;
mod tour;

use crate::tests::asserts::assert_equal;
use crate::tests::line::line_of;
use hunk_command_line::{Order, OrderFault, order};
use hunk_examples::{
    Symbol, describe, has_header, list_symbols, load_pieces, load_program, place_in_rom, show_file,
    strip, write_program,
};
use hunk_words::{FromWrite, Reason};
use std::alloc::{AllocError, Global};
use std::process::Abort;
use std::test::Fail;
use test_helpers::{examples, spelled};

/// Sees that a call fails, with an error of this text.
fn expect_error<T: Drop>(
    rt: &impl Abort,
    alloc: Global,
    got: anyhow::Result<T>,
    want: &str,
) -> Result<(), AllocError> {
    match got {
        Ok(_) => panic!(rt; "{want}"),
        Err(error) => {
            let text = format!(in alloc; "{error}")?;
            assert_equal(rt, text.as_str(), want);
        }
    }
    Ok(())
}

#[test]
fn loads_a_program(rt: HostRuntime) -> Result<(), Fail> {
    let file = spelled(rt.alloc(), examples::WITH_A_SYMBOL)?;
    let mut memory = Vec::new(rt.alloc());
    let first = load_program(rt.alloc(), file.as_slice(), &mut memory, 0x0002_1000)?;
    assert_equal(&rt, first, 0x0002_1000);
    assert_equal(&rt, memory.as_slice(), [0x4E, 0x75, 0x4E, 0x71].as_slice());
    Ok(())
}

/// Files, and the lines on them.
const LINES: &[(&str, &str)] = &[
    (
        examples::WITH_A_SYMBOL,
        "load file, 1 hunks, 0 bytes after it",
    ),
    (examples::TWO_FINDINGS, "object file, 1 units, 2 findings"),
];

#[test]
fn describes_files(rt: HostRuntime) -> Result<(), Fail> {
    for (text, want) in LINES {
        let file = spelled(rt.alloc(), text)?;
        let line = describe(rt.alloc(), file.as_slice())?;
        assert_equal(&rt, line.as_str(), *want);
    }
    Ok(())
}

/// A load file, and an object file whose second unit has it in its second hunk, with their symbol.
const SYMBOLS: &[(&str, Symbol<'static>)] = &[
    (
        examples::WITH_A_SYMBOL,
        Symbol {
            unit: 0,
            hunk: 0,
            name: b"_m\0\0",
            value: 0,
        },
    ),
    (
        "3E7 0 / 3EB 0 / 3F2 / 3E7 0 / 3EB 1 / 3F2 / 3E9 1 0 / 3F0 1 62000000 4 0 / 3F2",
        Symbol {
            unit: 1,
            hunk: 1,
            name: b"b\0\0\0",
            value: 4,
        },
    ),
];

#[test]
fn lists_symbols(rt: HostRuntime) -> Result<(), Fail> {
    for (text, want) in SYMBOLS {
        let file = spelled(rt.alloc(), text)?;
        let found = list_symbols(rt.alloc(), file.as_slice())?;
        assert_equal(&rt, found.as_slice(), [*want].as_slice());
    }
    Ok(())
}

/// The bytes in a ROM of the file that the text spells.
fn placed(alloc: Global, text: &str, bases: &[u32]) -> anyhow::Result<Vec<u8>> {
    place_in_rom(alloc, &spelled(alloc, text)?, bases)
}

/// Example 2, whose second hunk lies at 00FC0000, which is added to the 4 in the first.
#[test]
fn places_in_a_rom(rt: HostRuntime) -> Result<(), Fail> {
    let alloc = rt.alloc();
    let bases = [0x00F8_0000, 0x00FC_0000];
    let image = placed(alloc, examples::TWO_HUNKS, &bases)?;
    let want = [
        0x4E, 0xF9, 0, 0xFC, 0, 4, 0x4E, 0x71, 0x12, 0x34, 0x56, 0x78,
    ];
    assert_equal(&rt, image.as_slice(), want.as_slice());
    let got = placed(alloc, examples::TWO_HUNKS, &bases[..1]);
    expect_error(&rt, alloc, got, "wrong number of bases")?;
    let got = placed(alloc, examples::OVERLAPPING_APART, &bases[..1]);
    let want = "the relocations at 0 and 2 of hunk 0 overlap";
    expect_error(&rt, alloc, got, want)?;
    Ok(())
}

/// Example 18 without its symbol is example 1.
#[test]
fn strips_a_file(rt: HostRuntime) -> Result<(), Fail> {
    let file = spelled(rt.alloc(), examples::WITH_A_SYMBOL)?;
    let stripped = strip(rt.alloc(), file.as_slice())?;
    let want = spelled(rt.alloc(), examples::ONE_HUNK)?;
    assert_equal(&rt, stripped.as_slice(), want.as_slice());
    Ok(())
}

/// A whole header, one that may go on, and one that is no load file's.
const FRONTS: &[(&str, Result<bool, Reason>)] = &[
    ("3F3 0 1 0 0 1 3E9", Ok(true)),
    ("3F3 0 1 0 0 1", Ok(true)),
    ("3F3 0 2 0 1 1", Ok(false)),
    ("", Ok(false)),
    ("3E7 0", Err(Reason::IsObject)),
    ("3F3 0 1 0 1", Err(Reason::LastHunk)),
];

#[test]
fn looks_at_an_upload(rt: HostRuntime) -> Result<(), Fail> {
    for (text, want) in FRONTS {
        let front = spelled(rt.alloc(), text)?;
        assert_equal(&rt, has_header(&front), *want);
    }
    Ok(())
}

#[test]
fn writes_a_program(rt: HostRuntime) -> Result<(), Fail> {
    let sink = FromWrite::new(Vec::new(rt.alloc()));
    let file = write_program(&[0x4E, 0x75, 0x4E, 0x71], sink)?.into_inner();
    let want = spelled(rt.alloc(), examples::ONE_HUNK)?;
    assert_equal(&rt, file.as_slice(), want.as_slice());
    Ok(())
}

#[test]
fn refuses_half_a_longword(rt: HostRuntime) -> Result<(), Fail> {
    let sink = FromWrite::new(Vec::new(rt.alloc()));
    assert!(rt; write_program(&[0x4E, 0x75], sink).is_err());
    Ok(())
}

/// Whether the words ask for `show` of standard input, which is no hexadecimal text.
fn asks_to_show(alloc: Global, words: &[String]) -> Result<bool, OrderFault> {
    let asked = order(alloc, words)?;
    Ok(matches!(
        asked,
        Order::Show {
            hex: false,
            wide: false,
            file: None
        }
    ))
}

/// The words of a command line, and what the program prints for them.
#[test]
fn shows_what_the_words_ask_for(rt: HostRuntime) -> Result<(), Fail> {
    let line = line_of(rt.alloc(), &["show"])?;
    assert!(rt; asks_to_show(rt.alloc(), &line)?);
    let file = spelled(rt.alloc(), examples::ONE_HUNK)?;
    let text = show_file(rt.alloc(), file.as_slice())?;
    let want = b"load file 1 hunks 4 bytes\nhunk 0 4 bytes any\n  CODE 4 bytes\n  END\n";
    assert_equal(&rt, text.as_slice(), want.as_slice());
    Ok(())
}

/// The bytes from one place up to another, which are both in the file.
fn part(file: &[u8], from: usize, to: usize) -> &[u8] {
    file.get(from..to).unwrap_or(&[])
}

/// The memory of a program that is loaded in pieces.
fn pieces_in_memory(alloc: Global, first: &[u8], more: &[&[u8]]) -> anyhow::Result<Vec<u8>> {
    let image = load_pieces(alloc, first, more, 0x0001_0000)?;
    let mut memory = Vec::new(alloc);
    for (_, segment) in image.segments() {
        memory.extend_from_slice(segment)?;
    }
    Ok(memory)
}

/// Example 2, whose header has 28 bytes, cut after it and in the middle of a longword, with a byte
/// after the file.
#[test]
fn loads_pieces(rt: HostRuntime) -> Result<(), Fail> {
    let mut file = spelled(rt.alloc(), examples::TWO_HUNKS)?;
    file.push(0xFF)?;
    let first = part(&file, 0, 31);
    let (second, third) = (part(&file, 31, 51), part(&file, 51, 85));
    let memory = pieces_in_memory(rt.alloc(), first, &[second, third])?;
    // The second hunk lies at 0001_0008, which is added to the 4 in the first.
    let want = [
        0x4E, 0xF9, 0, 1, 0, 0x0C, 0x4E, 0x71, 0x12, 0x34, 0x56, 0x78,
    ];
    assert_equal(&rt, memory.as_slice(), want.as_slice());
    // After byte 51 a file has the rest of a count, an END, a BSS of two longwords and its END.
    let got = load_pieces(rt.alloc(), first, &[second], 0);
    expect_error(&rt, rt.alloc(), got, "at least 17 bytes are to come")?;
    let got = load_pieces(rt.alloc(), first, &[second, third], 0xFFFF_FFFC);
    let want = "refused at byte 28: NoBase (29) hunk 0";
    expect_error(&rt, rt.alloc(), got, want)?;
    Ok(())
}
