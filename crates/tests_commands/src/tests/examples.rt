//! What the commands print and write of the worked examples.

use crate::tests::asserts::assert_equal;
use crate::tests::calls::{Call, Case, LIMIT, expect_outcome, input_and_output, made_of, roomy};
use hunk_commands::{Rewritten, rewrite, validate};
use hunk_words::FromSlice;
use std::process::Abort;
use std::test::Fail;
use test_helpers::{examples, spelled, wide};

/// Examples 13, 14, 18, 19, 24, 26, 34, 35, 44 and 45.
const SHOWN: &[Case] = &[
    (
        Call::Show,
        examples::OBJECT_WITH_DREL32,
        "object file 1 units\nunit 0 a\nhunk 0 4 bytes\n  CODE 4 bytes\n  DREL32 1\n\
            \x20   0 0x00000000\n  END\n",
    ),
    (
        Call::Show,
        examples::OBJECT,
        "object file 1 units\nunit 0 a\nhunk 0 8 bytes\n  CODE 8 bytes\n  EXT 2\n    REF32 1 _f\n\
            \x20     0x00000002\n    DEF 0x00000000 _m\n  END\n",
    ),
    (
        Call::Show,
        examples::WITH_A_SYMBOL,
        "load file 1 hunks 4 bytes\nhunk 0 4 bytes any\n  CODE 4 bytes\n  SYMBOL 1\n\
            \x20   0x00000000 _m\n  END\n",
    ),
    (
        Call::Show,
        examples::WITH_AN_ADVISORY,
        "load file 1 hunks 4 bytes\nhunk 0 4 bytes any\n  CODE 4 bytes\n  ADVISORY 1234 8 bytes\n\
            \x20 END\n",
    ),
    (
        Call::Show,
        examples::WITH_A_NAME,
        "load file 1 hunks 4 bytes\nhunk 0 4 bytes any\n  NAME .t\\x0a\\x5c\n  CODE 4 bytes\n\
            \x20 END\n",
    ),
    (
        Call::Show,
        examples::EMPTY_UNIT,
        "object file 1 units\nunit 0 \n",
    ),
    (
        Call::Show,
        examples::EMPTY_UNIT_AND_ANOTHER,
        "object file 2 units\nunit 0 \nunit 1 b\nhunk 0 16 bytes\n  BSS 16 bytes\n  END\n",
    ),
    (
        Call::Show,
        examples::COMMON,
        "object file 1 units\nunit 0 \nhunk 0 8 bytes\n  BSS 8 bytes\n  EXT 1\n    COMMON 8 1 c\n\
            \x20     0x00000004\n  END\n",
    ),
    (
        Call::Show,
        examples::ENDING_WITH_ADVISORY_FLAG,
        "load file 1 hunks 4 bytes\nhunk 0 4 bytes any\n  CODE 4 bytes\n  END advisory\n",
    ),
    (
        Call::Show,
        examples::OBJECT_WITH_AN_ADVISORY,
        "object file 1 units\nunit 0 \nhunk 0 4 bytes\n  ADVISORY 1234 0 bytes\n  BSS 4 bytes\n\
            \x20 END\n",
    ),
    (
        Call::Show,
        examples::RELATIVE_OBJECT,
        "object file 1 units\nunit 0 a\nhunk 0 8 bytes\n  CODE 8 bytes\n  RELRELOC32 1\n\
            \x20   0 0x00000004\n  ABSRELOC16 1\n    0 0x00000006\n  EXT 2\n    RELREF32 1 _f\n\
            \x20     0x00000004\n    ABSREF16 1 _g\n      0x00000007\n  END\n",
    ),
];

/// Examples 41, 14, 34, 35 and 45.
pub(super) const CHECKED: &[Case] = &[
    (
        Call::Validate,
        examples::ONE_HUNK,
        "load file 1 hunks 4 bytes\n",
    ),
    (
        Call::Validate,
        examples::OBJECT,
        "object file 1 units 0 findings\n",
    ),
    (
        Call::Validate,
        examples::OBJECT_WITH_AN_OFFSET_OUTSIDE,
        "unit 0 hunk 0 offset 0x00000005 OutsideHunk\nobject file 1 units 1 findings\n",
    ),
    (
        Call::Validate,
        examples::EMPTY_UNIT_AND_ANOTHER,
        "object file 2 units 0 findings\n",
    ),
    (
        Call::Validate,
        examples::COMMON,
        "object file 1 units 0 findings\n",
    ),
    (
        Call::Validate,
        examples::COMMON_WITH_AN_OFFSET_OUTSIDE,
        "unit 0 hunk 0 offset 0x00000005 OutsideHunk\nobject file 1 units 1 findings\n",
    ),
    (
        Call::Validate,
        examples::RELATIVE_OBJECT,
        "unit 0 hunk 0 offset 0x00000007 OutsideHunk\nobject file 1 units 1 findings\n",
    ),
];

/// Examples 14, 18, 45, 19, 24, 37 and 44.
const AGAIN: &[Case] = &[
    (Call::Rewrite, examples::OBJECT, examples::OBJECT),
    (
        Call::Rewrite,
        examples::WITH_A_SYMBOL,
        examples::WITH_A_SYMBOL,
    ),
    (
        Call::Rewrite,
        examples::RELATIVE_OBJECT,
        examples::RELATIVE_OBJECT,
    ),
    (Call::Strip, examples::OBJECT, examples::OBJECT),
    (Call::Strip, examples::WITH_AN_ADVISORY, examples::ONE_HUNK),
    (Call::Strip, examples::WITH_A_NAME, examples::ONE_HUNK),
    (
        Call::Strip,
        examples::RELOCATED_AFTER_SYMBOLS,
        examples::RELOCATED_ALONE,
    ),
    (
        Call::Strip,
        examples::OBJECT_WITH_AN_ADVISORY,
        examples::OBJECT_WITHOUT_IT,
    ),
];

/// Sees that each call is done, and writes just its output.
fn expect_done(rt: &(impl Abort + AllocGlobal), cases: &[Case]) -> Result<(), Fail> {
    for case in cases {
        let (input, output) = input_and_output(rt.alloc(), case)?;
        let got = made_of(rt.alloc(), case.0, &input, roomy());
        expect_outcome(rt, &got, None, &output);
    }
    Ok(())
}

#[test]
fn shows(rt: HostRuntime) -> Result<(), Fail> {
    expect_done(&rt, SHOWN)
}

#[test]
fn validates(rt: HostRuntime) -> Result<(), Fail> {
    expect_done(&rt, CHECKED)
}

#[test]
fn rewrites(rt: HostRuntime) -> Result<(), Fail> {
    expect_done(&rt, AGAIN)
}

/// Example 29 has two findings, and seven bytes follow the file of example 10.
#[test]
fn answers(rt: HostRuntime) -> Result<(), Fail> {
    let alloc = rt.alloc();
    let bytes = spelled(alloc, examples::TWO_FINDINGS)?;
    let found = validate(alloc, &mut FromSlice::new(&bytes), &mut wide(), LIMIT);
    assert_equal(&rt, found, Ok(2));
    let mut bytes = spelled(alloc, examples::ONE_HUNK)?;
    bytes.extend_from_slice(&[0; 7])?;
    let done = rewrite(
        alloc,
        &mut FromSlice::new(&bytes),
        &mut wide(),
        LIMIT,
        false,
    );
    let want = Rewritten {
        written: 40,
        read: 40,
        rest: 7,
    };
    assert_equal(&rt, done, Ok(want));
    Ok(())
}
