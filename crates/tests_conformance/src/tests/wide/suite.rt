//! The wide spellings of the suite, and what follows one.

use crate::tests::asserts::{assert_equal, assert_equal_at};
use crate::tests::wide::{expect_plain, read_by};
use hunk_files::ObjectFile;
use hunk_scatter::{Image, Limits, Packed, load};
use hunk_vectors::{PLAIN_TEXTS, WIDE, WIDE_TEXTS, WideWant, plain_bytes, wide_bytes};
use hunk_wide::{Plain, place_in};
use hunk_words::{FromSlice, LoadFault, Source};
use std::alloc::{AllocError, Global};
use std::process::Abort;
use std::test::Fail;
use test_helpers::{Fed, Then, spelled};

const LIMITS: Limits = Limits {
    budget: 100_000,
    file_bytes: 100_000,
};

const START: Packed = Packed { start: 0x21000 };

/// The first bytes of an object file.
const UNIT: &[u8] = &[0, 0, 3, 0xE7];

/// What `load` answers for this source. This promises none of what `load` does.
fn loaded<R: Source + Drop>(alloc: Global, mut source: R) -> Result<Image, LoadFault> {
    load(alloc, &mut source, LIMITS, &START)
}

/// The segments one after another, and whether each file is loaded at all.
fn joined(alloc: Global, answer: Result<Image, LoadFault>) -> Result<Option<Vec<u8>>, AllocError> {
    match answer {
        Ok(image) => Ok(Some(image.joined().to_vec(alloc)?)),
        Err(_) => Ok(None),
    }
}

/// Sees that a load of a wide spelling, held whole or in pieces, is one of the plain spelling.
fn expect_loads(
    rt: &impl Abort,
    alloc: Global,
    wide: &[u8],
    plain: &[u8],
    i: usize,
) -> Result<(), Fail> {
    let want = joined(alloc, loaded(alloc, FromSlice::new(plain)))?;
    assert!(rt; want.is_some(), "{i}");
    let whole = joined(alloc, loaded(alloc, Plain::new(FromSlice::new(wide))))?;
    assert_equal_at(rt, &whole, &want, i);
    for most in [1, 3] {
        let pieces = Plain::new(Fed::new(wide, most, Then::Ends));
        let got = joined(alloc, loaded(alloc, pieces))?;
        assert_equal_at(rt, &got, &want, (i, most));
    }
    Ok(())
}

/// All of the plain spelling of what is held whole. It has at most twice the bytes and four.
fn plain_of(alloc: Global, wide: &[u8]) -> Result<Vec<u8>, Fail> {
    let pulls = wide.len().saturating_mul(2).saturating_add(5);
    read_by(alloc, Plain::new(FromSlice::new(wide)), pulls, 64)
}

/// The byte of the wide spelling at which it is refused, and the number of the reason.
fn refusal(alloc: Global, wide: &[u8]) -> Result<Option<(u64, u8)>, Fail> {
    let fault = if wide.starts_with(UNIT) {
        let plain = plain_of(alloc, wide)?;
        ObjectFile::decode(alloc, &plain).err()
    } else {
        loaded(alloc, Plain::new(FromSlice::new(wide))).err()
    };
    Ok(fault.map(|fault| (place_in(wide, fault.place), fault.reason.number())))
}

/// Sees that this entry is answered as it has to be.
fn expect(rt: &impl Abort, alloc: Global, i: usize, wide: &[u8], plain: &[u8]) -> Result<(), Fail> {
    let Some(row) = WIDE.get(i) else {
        panic!(rt; "no {i}");
    };
    let got = plain_of(alloc, wide)?;
    expect_plain(rt, alloc, wide, &got, i)?;
    match row.want {
        WideWant::Accepted => {
            assert_equal_at(rt, got.get(..plain.len()), Some(plain), i);
            if !wide.starts_with(UNIT) {
                expect_loads(rt, alloc, wide, plain, i)?;
            }
            assert_equal_at(rt, refusal(alloc, wide)?, None, i);
        }
        WideWant::Refused { place, number } => {
            assert_equal_at(rt, refusal(alloc, wide)?, Some((place, number)), i);
        }
    }
    Ok(())
}

/// Sees that the entries of one kind of file are answered as they have to be.
fn expect_kind(rt: &impl Abort, alloc: Global, is_object: bool) -> Result<(), Fail> {
    assert_equal(rt, WIDE.len(), WIDE_TEXTS.len());
    assert_equal(rt, PLAIN_TEXTS.len(), WIDE_TEXTS.len());
    for i in 0..WIDE_TEXTS.len() {
        let wide = wide_bytes(alloc, i)?;
        let plain = plain_bytes(alloc, i)?;
        if wide.starts_with(UNIT) == is_object {
            expect(rt, alloc, i, &wide, &plain)?;
        }
    }
    Ok(())
}

#[test]
fn load_files(rt: HostRuntime) -> Result<(), Fail> {
    expect_kind(&rt, rt.alloc(), false)
}

#[test]
fn object_files(rt: HostRuntime) -> Result<(), Fail> {
    expect_kind(&rt, rt.alloc(), true)
}

/// A short block of two offsets, filled up.
const SHORT: &str = "3F3 0 1 0 0 2 / 3E9 2 0 0 / 3FC 20000 4 0 / 3F2";

/// Whether a load by a source of pieces succeeds, and what that source has left.
fn left_after(alloc: Global, wide: &[u8], most: usize) -> (bool, &[u8]) {
    let mut plain = Plain::new(Fed::new(wide, most, Then::Ends));
    let is_loaded = load(alloc, &mut plain, LIMITS, &START).is_ok();
    (is_loaded, plain.into_inner().rest())
}

/// Of the source no byte after the file is taken.
#[test]
fn what_follows(rt: HostRuntime) -> Result<(), Fail> {
    let after = [0, 0, 3, 0xFC, 0];
    let mut bytes = spelled(rt.alloc(), SHORT)?;
    bytes.extend_from_slice(&after)?;
    for most in [1, 3, 256] {
        let got = left_after(rt.alloc(), &bytes, most);
        assert_equal_at(&rt, got, (true, after.as_slice()), most);
    }
    Ok(())
}
