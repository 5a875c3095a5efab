//! Each load file with each of its longwords changed in turn, and example 44.

use crate::tests::asserts::assert_equal_at;
use crate::tests::readings::agrees;
use hunk_files::LoadFile;
use hunk_vectors::{LOAD_TEXTS, bytes};
use hunk_words::{FileFault, Reason};
use std::alloc::Global;
use std::process::Abort;
use std::test::Fail;
use test_helpers::{changed, with_long};

const WORDS: [u32; 8] = [
    0,
    1,
    0x3F2,
    0x3FFF_FFFF,
    0x8000_0000,
    0xFFFF_FFFF,
    0x2000_04D2,
    0xE000_04D2,
];

#[test]
fn one_longword(rt: HostRuntime) -> Result<(), Fail> {
    for i in 0..LOAD_TEXTS.len() {
        let bytes = bytes(rt.alloc(), i)?;
        for k in 0..bytes.len() / 4 {
            for word in WORDS {
                let changed = with_long(bytes.as_slice().to_vec(rt.alloc())?, 4 * k, word);
                assert!(rt;
                    agrees(rt.alloc(), changed.as_slice(), changed.len())?,
                    "{i} at {k}: {word:x}"
                );
            }
        }
    }
    Ok(())
}

/// The byte at which a longword of example 1 changes, what it becomes, and where and why the file is refused then, if
/// it is.
type Change = (usize, u32, Option<(u64, Reason)>);

/// The load files of example 44, and other block words with flags: the suite has none of these.
const FLAGGED: &[Change] = &[
    (0, 0x2000_03F3, Some((0, Reason::NotLoadFile))),
    (0, 0xC000_03E7, Some((0, Reason::NotLoadFile))),
    (24, 0x3EA, None),
    (36, 0x2000_03F2, None),
    (36, 0x2000_03F5, Some((36, Reason::Overlay))),
    (36, 0x2000_03F3, Some((36, Reason::Misplaced))),
    (36, 0x2000_03EF, Some((36, Reason::NotInLoadFile))),
    (36, 0xE000_04D2, Some((36, Reason::BothBits))),
    (36, 0x6000_04D2, Some((40, Reason::Truncated))),
];

/// Sees that the decoder answers this, and that a load agrees with it.
fn expect(
    rt: &impl Abort,
    alloc: Global,
    bytes: &[u8],
    fault: Option<(u64, Reason)>,
) -> Result<(), Fail> {
    let want = fault.map(|(place, reason)| FileFault { place, reason });
    assert_equal_at(rt, LoadFile::decode(alloc, bytes).err(), want, bytes);
    assert!(rt; agrees(alloc, bytes, bytes.len())?);
    Ok(())
}

#[test]
fn with_flags(rt: HostRuntime) -> Result<(), Fail> {
    for (byte, word, fault) in FLAGGED {
        let bytes = changed(rt.alloc(), *byte, *word)?;
        expect(&rt, rt.alloc(), &bytes, *fault)?;
    }
    Ok(())
}
