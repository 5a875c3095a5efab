//! The commands over bytes in hand.

use crate::tests::asserts::{assert_equal, assert_output};
use hunk_commands::{Rewritten, rewrite_bytes, show_bytes, validate_bytes};
use hunk_words::{FromWrite, LongWriter};
use std::process::Abort;
use std::test::Fail;
use test_helpers::{examples, spelled, wide};

/// Example 34.
#[test]
fn shows(rt: HostRuntime) -> Result<(), Fail> {
    let bytes = spelled(rt.alloc(), examples::EMPTY_UNIT_AND_ANOTHER)?;
    let mut out = LongWriter::new(FromWrite::new(Vec::<u8>::new(rt.alloc())));
    assert_equal(&rt, show_bytes(&bytes, &mut out), Ok(()));
    let text = out.into_inner().into_inner();
    let want = b"object file 2 units\nunit 0 \nunit 1 b\nhunk 0 16 bytes\n  BSS 16 bytes\n  END\n";
    assert_output(&rt, text.as_slice(), want);
    Ok(())
}

/// Example 29 has two findings, seven bytes follow the file of example 10, and the symbol of example
/// 18 takes 20 bytes.
#[test]
fn answers(rt: HostRuntime) -> Result<(), Fail> {
    let bytes = spelled(rt.alloc(), examples::TWO_FINDINGS)?;
    assert_equal(&rt, validate_bytes(&bytes, &mut wide()), Ok(2));
    let mut bytes = spelled(rt.alloc(), examples::ONE_HUNK)?;
    bytes.extend_from_slice(&[0; 7])?;
    let done = Rewritten {
        written: 40,
        read: 40,
        rest: 7,
    };
    assert_equal(&rt, rewrite_bytes(&bytes, &mut wide(), false), Ok(done));
    assert_equal(&rt, rewrite_bytes(&bytes, &mut wide(), true), Ok(done));
    let bytes = spelled(rt.alloc(), examples::WITH_A_SYMBOL)?;
    let stripped = Rewritten {
        written: 40,
        read: 60,
        rest: 0,
    };
    assert_equal(&rt, rewrite_bytes(&bytes, &mut wide(), true), Ok(stripped));
    Ok(())
}
