//! A load by a reader of two pieces, beside the decoder of whole files.

use crate::tests::asserts::assert_equal_at;
use hunk_files::LoadFile;
use hunk_scatter::{Image, Limits, Packed, load};
use hunk_words::{LoadFault, Reason, SizeWord, word_at};
use std::alloc::{AllocError, Global};
use std::process::Abort;
use std::test::Fail;
use test_helpers::examples::{ONE_HUNK, WITH_ATTRIBUTES};
use test_helpers::{Fed, spelled};

/// The bytes that the suite's loads may declare.
const BUDGET: u64 = 1_000;

/// The longword of a header that has the number of rows of its table.
const TABLE_SIZE: usize = 2;

/// Where the suite's loads lie in memory.
const START: u32 = 0x21000;

fn bases(alloc: Global, image: &Image) -> Result<Vec<u32>, AllocError> {
    let mut bases = Vec::new(alloc);
    for (row, _) in image.segments() {
        bases.push(row.base)?;
    }
    Ok(bases)
}

/// The first byte of the row at which the declared bytes, which are those of the rows of the table alone, first pass
/// the budget. Only a row of which the bytes have the whole longword counts.
fn budget_passes_at(bytes: &[u8]) -> Option<u64> {
    let mut total = 0u64;
    let mut rows = 0u32;
    let mut is_extra = false;
    for i in 5..bytes.len() / 4 {
        let word = word_at(bytes, i);
        if is_extra {
            is_extra = false;
        } else if rows == word_at(bytes, TABLE_SIZE) {
            return None;
        } else {
            rows = rows.saturating_add(1);
            is_extra = SizeWord::has_extra(word);
            total = total.saturating_add(4 * u64::from(word & 0x3FFF_FFFF));
            if total > BUDGET {
                return Some(4 * i as u64);
            }
        }
    }
    None
}

/// The fault that a load has to answer for these bytes, if any, where the decoder of whole files answers this one.
///
/// Longwords are tested in file order, and a row of the table is tested for the budget alone. So a fault of the
/// header before the row that passes it comes first, and that row before all else: what the decoder refuses after
/// it, an input that ends after it, and a file that the decoder accepts.
fn wanted(bytes: &[u8], decoded: Option<LoadFault>) -> Option<LoadFault> {
    let Some(place) = budget_passes_at(bytes) else {
        return decoded;
    };
    match decoded {
        Some(fault) if fault.place < place => Some(fault),
        _ => Some(LoadFault {
            place,
            reason: Reason::Budget,
        }),
    }
}

/// Whether a load may answer this fault, or none, where the decoder answers that one, or none.
fn fits(bytes: &[u8], decoded: Option<LoadFault>, loaded: Option<LoadFault>) -> bool {
    loaded == wanted(bytes, decoded)
        && match loaded {
            Some(fault) => matches!(fault.reason.number(), 1..=24 | 26 | 27),
            None => true,
        }
}

/// Whether what a load by a reader of two pieces answers agrees with the decoder of whole files: it
/// gives the decoder's image and has read the decoder's bytes, or its fault, or the budget is passed before.
pub fn agrees(alloc: Global, bytes: &[u8], cut: usize) -> Result<bool, AllocError> {
    let limits = Limits {
        budget: BUDGET,
        file_bytes: 100_000,
    };
    let mut source = Fed::in_two(bytes, cut);
    let decoded = LoadFile::decode(alloc, bytes);
    match load(alloc, &mut source, limits, &Packed { start: START }) {
        Ok(image) => {
            let Ok((file, count)) = decoded else {
                return Ok(false);
            };
            let bases = bases(alloc, &image)?;
            let memory = file.image(alloc, bases.as_slice());
            Ok(
                fits(bytes, None, None)
                    && bytes.get(count..) == Some(source.rest())
                    && memory.is_ok_and(|memory| memory.as_slice() == image.joined()),
            )
        }
        Err(fault) => Ok(fits(bytes, decoded.err(), Some(fault))),
    }
}

/// A place and a reason, where a file is refused.
type Answer = Option<(u64, Reason)>;

/// A file, what the decoder answers for it, and what a load has to answer.
type Case = (&'static str, Answer, Answer);

/// The budget is passed at the first row, which declares 1,004 bytes, or at the second after one of 1,000: in files
/// that the decoder accepts, or refuses after that row.
const PASSED: &[Case] = &[
    (
        "3F3 0 1 0 0 FB / 3E9 0 / 3F2",
        None,
        Some((20, Reason::Budget)),
    ),
    (
        "3F3 0 2 0 1 FA 1 / 3E9 0 / 3F2",
        Some((40, Reason::Truncated)),
        Some((24, Reason::Budget)),
    ),
    (
        "3F3 0 2 0 1 C00000FA 10004 1 / 3E9 0",
        Some((40, Reason::Truncated)),
        Some((28, Reason::Budget)),
    ),
    (
        "3F3 0 1 0 0 FB",
        Some((24, Reason::Truncated)),
        Some((20, Reason::Budget)),
    ),
    (
        "3F3 0 1 0 0 FB / 3F5",
        Some((24, Reason::Overlay)),
        Some((20, Reason::Budget)),
    ),
    (
        "3F3 0 1 0 0 FB / 3E9 FC",
        Some((28, Reason::ContentTooLong)),
        Some((20, Reason::Budget)),
    ),
];

/// It is not: the table ends before, at a block word or at attributes that are more than 1,000 as a size, or the
/// input does; or a longword of the header is refused before such a row.
const NOT_PASSED: &[Case] = &[
    ("3F3 0 1 0 0 FA / 3E9 0 / 3F2", None, None),
    (ONE_HUNK, None, None),
    (WITH_ATTRIBUTES, None, None),
    (
        "3F3 0 1 0 0 C00000FA 10004 / 3E9 0",
        Some((36, Reason::Truncated)),
        Some((36, Reason::Truncated)),
    ),
    (
        "3F3 0 2 0 1 FA",
        Some((24, Reason::Truncated)),
        Some((24, Reason::Truncated)),
    ),
    (
        "3F2 0 1 0 0 FB",
        Some((0, Reason::NotLoadFile)),
        Some((0, Reason::NotLoadFile)),
    ),
    (
        "3F3 1 1 0 0 FB",
        Some((4, Reason::Resident)),
        Some((4, Reason::Resident)),
    ),
    (
        "3F3 0 10001 0 10000 FB",
        Some((8, Reason::TooManyHunks)),
        Some((8, Reason::TooManyHunks)),
    ),
    (
        "3F3 0 1 1 0 FB",
        Some((12, Reason::FirstHunk)),
        Some((12, Reason::FirstHunk)),
    ),
    (
        "3F3 0 1 0 1 FB / 3EB 0 / 3F2",
        Some((16, Reason::LastHunk)),
        Some((16, Reason::LastHunk)),
    ),
];

fn fault_of(answer: Answer) -> Option<LoadFault> {
    let (place, reason) = answer?;
    Some(LoadFault { place, reason })
}

/// Sees that the decoder answers what the row says, that a load has to answer what it says for one, and that it does,
/// wherever the file is cut.
fn expect(rt: &impl Abort, alloc: Global, (text, decodes, loads): &Case) -> Result<(), Fail> {
    let bytes = spelled(alloc, text)?;
    let decoded = LoadFile::decode(alloc, &bytes).err();
    assert_equal_at(rt, decoded, fault_of(*decodes), text);
    assert_equal_at(rt, wanted(&bytes, decoded), fault_of(*loads), text);
    for cut in 0..bytes.len() {
        assert!(rt; agrees(alloc, &bytes, cut)?, "{text} cut at {cut}");
    }
    Ok(())
}

/// A load that never answers `Budget`, answers it before a fault of the header, or takes a block word for a size, does not
/// agree with these.
#[test]
fn budget_of_the_rows(rt: HostRuntime) -> Result<(), Fail> {
    for row in PASSED {
        expect(&rt, rt.alloc(), row)?;
    }
    for row in NOT_PASSED {
        expect(&rt, rt.alloc(), row)?;
    }
    Ok(())
}
