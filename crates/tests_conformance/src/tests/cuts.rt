//! Each load file in two pieces, cut at every byte, and each front of it.

use crate::tests::readings::agrees;
use hunk_vectors::{LOAD_TEXTS, bytes};
use std::test::Fail;

#[test]
fn two_pieces(rt: HostRuntime) -> Result<(), Fail> {
    for i in 0..LOAD_TEXTS.len() {
        let bytes = bytes(rt.alloc(), i)?;
        for cut in 0..bytes.len() {
            assert!(rt;
                agrees(rt.alloc(), bytes.as_slice(), cut)?,
                "{i} cut at {cut}"
            );
        }
    }
    Ok(())
}

#[test]
fn fronts(rt: HostRuntime) -> Result<(), Fail> {
    for i in 0..LOAD_TEXTS.len() {
        let bytes = bytes(rt.alloc(), i)?;
        for n in 0..bytes.len() {
            assert!(rt; agrees(rt.alloc(), &bytes[..n], n)?, "{n} bytes of {i}");
        }
    }
    Ok(())
}
