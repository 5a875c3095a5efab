//! Each command over files in memory: which of them it reads, and which it makes.

use crate::tests::asserts::{assert_equal_at, assert_output};
use crate::tests::line::split;
use crate::tests::runs::made::Kept;
use crate::tests::runs::memory_store::{Held, MemoryStore};
use crate::tests::runs::{ANY, OTHER};
use hunk_run::run;
use hunk_words::LongWriter;
use std::alloc::Global;
use std::process::Abort;
use std::test::Fail;
use test_helpers::{examples, spelled};

/// What came of a run.
#[derive(Drop)]
struct Outcome {
    status: u8,
    text: Vec<u8>,
    // The name of the file that was made, a colon, and what it took; nothing where none was made.
    made: Vec<u8>,
    // How many blocks of short relocations are told of.
    short_blocks: u64,
}

/// Runs these words, apart by spaces, where the file `a` has these bytes, the file `b` those of
/// `OTHER`, and standard input is no hunk file. The files are told to be regular, or not.
fn ran(alloc: Global, line: &str, file: &[u8], are_regular: bool) -> Result<Outcome, Fail> {
    let words = split(alloc, line)?;
    let store = MemoryStore {
        alloc,
        are_regular,
        is_opened: false,
        has_failed: false,
        first: Held {
            name: "b",
            bytes: OTHER.as_slice(),
        },
        second: Held {
            name: "a",
            bytes: file,
        },
        input: b"text",
        made: None,
    };
    let mut out = LongWriter::new(Kept::new(alloc, ANY));
    let (ended, store) = run(store, alloc, words.as_slice(), &mut out);
    let mut made = Vec::new(alloc);
    if let Some(file) = &store.made {
        made.extend_from_slice(file.name.as_bytes())?;
        made.extend_from_slice(b":")?;
        made.extend_from_slice(file.taken.as_slice())?;
    }
    Ok(Outcome {
        status: ended.status,
        text: out.into_inner().bytes,
        made,
        short_blocks: match &ended.spelled {
            Some(spelled) => spelled.short_blocks,
            None => 0,
        },
    })
}

/// The words of a command, what it prints and its status, and the longwords of the file `c` that it
/// makes, if it makes one.
type Case = (&'static str, &'static str, u8, &'static str);

/// Over example 18 in the file `a`.
const RUNS: &[Case] = &[
    ("hunkinfo validate a", "load file 1 hunks 4 bytes\n", 0, ""),
    ("hunkinfo validate b", "load file 1 hunks 8 bytes\n", 0, ""),
    (
        "hunkinfo relocate --base 00001000 a",
        "hunk 0 base 0x00001000 4 bytes\n  4e754e71\n",
        0,
        "",
    ),
    (
        "hunkinfo show",
        "refused at byte 0: NotLoadFile (1)\n",
        1,
        "",
    ),
    (
        "hunkinfo rewrite missing c",
        "reading failed at byte 0\n",
        3,
        "",
    ),
    (
        "hunkinfo rewrite a c",
        "wrote 60 bytes\n",
        0,
        examples::WITH_A_SYMBOL,
    ),
    (
        "hunkinfo rewrite --strip a c",
        "wrote 40 bytes\n",
        0,
        examples::ONE_HUNK,
    ),
];

#[test]
fn reads_and_makes_the_files_of_their_names(rt: HostRuntime) -> Result<(), Fail> {
    let file = spelled(rt.alloc(), examples::WITH_A_SYMBOL)?;
    for (line, want, status, longs) in RUNS {
        let ran = ran(rt.alloc(), line, &file, true)?;
        assert_output(&rt, ran.text.as_slice(), want.as_bytes());
        assert_equal_at(&rt, ran.status, *status, line);
        let name = if longs.is_empty() { "" } else { "c:" };
        let mut made = name.as_bytes().to_vec(rt.alloc())?;
        made.extend_from_slice(&spelled(rt.alloc(), longs)?)?;
        assert_equal_at(&rt, ran.made, made, line);
    }
    Ok(())
}

/// A hunk of one longword, with a relocation in plain spelling.
const PLAIN: &str = "3F3 0 1 0 0 1 / 3E9 1 0 / 3EC 1 0 0 0 / 3F2";

/// The same with a block of short relocations.
const SHORT: &str = "3F3 0 1 0 0 1 / 3E9 1 0 / 3FC 10000 0 / 3F2";

/// The words of a command, and what it prints of both.
const WIDE: &[(&str, &str)] = &[
    ("hunkinfo validate --wide a", "load file 1 hunks 4 bytes\n"),
    (
        "hunkinfo relocate --wide --base 00000010 a",
        "hunk 0 base 0x00000010 4 bytes\n  00000010\n",
    ),
    ("hunkinfo rewrite --wide a c", "wrote 60 bytes\n"),
];

/// Sees that each command comes to the same of a file that is told to be regular, or not.
fn expect_wide(rt: &impl Abort, alloc: Global, text: &str, short_blocks: u64) -> Result<(), Fail> {
    let file = spelled(alloc, text)?;
    for (line, want) in WIDE {
        for are_regular in [true, false] {
            let ran = ran(alloc, line, &file, are_regular)?;
            assert_output(rt, ran.text.as_slice(), want.as_bytes());
            assert_equal_at(rt, (ran.status, ran.short_blocks), (0, short_blocks), line);
        }
    }
    Ok(())
}

#[test]
fn reads_a_plain_file_as_it_is(rt: HostRuntime) -> Result<(), Fail> {
    expect_wide(&rt, rt.alloc(), PLAIN, 0)
}

#[test]
fn reads_a_wide_file_again(rt: HostRuntime) -> Result<(), Fail> {
    expect_wide(&rt, rt.alloc(), SHORT, 1)
}
