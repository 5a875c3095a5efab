//! Longwords of bytes that come in pieces, and the numbers of types of EXT entries: no crate calls these.

use crate::tests::asserts::{assert_equal, assert_equal_at};
use hunk_blocks::ExtKind;
use hunk_words::Assembler;

#[test]
fn in_pieces(rt: HostRuntime) {
    let mut assembler = Assembler::new();
    assert_equal(&rt, assembler.take(&[0, 0, 3]), (3, None));
    assert_equal(&rt, assembler.pending(), 3);
    assert_equal(&rt, assembler.take(&[0xE9, 1, 2]), (1, Some(0x3E9)));
    assert_equal(&rt, assembler.pending(), 0);
}

/// A type of each shape and width, with its number.
const TYPES: &[(ExtKind, u8)] = &[
    (ExtKind::Def, 1),
    (ExtKind::Common, 130),
    (ExtKind::Ref16, 131),
    (ExtKind::AbsRef8, 139),
];

#[test]
fn types(rt: HostRuntime) {
    for (kind, code) in TYPES {
        let got = (ExtKind::from_code(*code), kind.code());
        assert_equal_at(&rt, got, (Some(*kind), *code), code);
    }
}
