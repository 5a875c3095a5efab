//! How many bytes a block has, or where it is refused and why: walked over, and decoded.

use crate::tests::asserts::assert_equal_at;
use hunk_blocks::{Block, Mode, walk_block};
use hunk_words::{BlockFault, Reason};
use std::alloc::Global;
use std::process::Abort;
use std::test::Fail;
use test_helpers::{examples, spelled};

/// A block with the number of its bytes, or with the place and the reason of a refusal.
pub(super) type Case = (&'static str, u64, Option<Reason>);

/// What `Block::decode` answers. Without a contract, so that what calls it has a short proof.
fn decoded(alloc: Global, bytes: &[u8], mode: Mode) -> Result<(Block<'_>, usize), BlockFault> {
    Block::decode(alloc, bytes, mode)
}

/// The same, without the block.
pub(super) fn answer(alloc: Global, bytes: &[u8], mode: Mode) -> Result<usize, BlockFault> {
    let (_, count) = decoded(alloc, bytes, mode)?;
    Ok(count)
}

pub(super) fn wanted(number: u64, reason: Option<Reason>) -> Result<usize, BlockFault> {
    match reason {
        None => Ok(number as usize),
        Some(reason) => Err(BlockFault {
            place: number,
            reason,
        }),
    }
}

/// Sees that each block is answered in this mode as its row says, walked over and decoded.
fn expect(rt: &impl Abort, alloc: Global, rows: &[Case], mode: Mode) -> Result<(), Fail> {
    for (text, number, reason) in rows {
        let bytes = spelled(alloc, text)?;
        let want = wanted(*number, *reason);
        let answers = (walk_block(&bytes, mode), answer(alloc, &bytes, mode));
        assert_equal_at(rt, answers, (want, want), text);
    }
    Ok(())
}

/// The worked rows of single blocks that are answered alike in both modes, of examples 18, 33 and 44.
const IN_BOTH_MODES: &[Case] = &[
    ("", 0, Some(Reason::Truncated)),
    ("3E7", 0, Some(Reason::Misplaced)),
    ("3F3", 0, Some(Reason::Misplaced)),
    ("3FA", 0, Some(Reason::Library)),
    ("3F5", 0, Some(Reason::Overlay)),
    ("3F6", 0, Some(Reason::Break)),
    ("3F4", 0, Some(Reason::UnknownBlock)),
    ("C00003F2", 0, Some(Reason::BothBits)),
    (examples::NO_ADVISORY, 0, Some(Reason::UnknownBlock)),
    ("3E8 1000001", 4, Some(Reason::NameWord)),
    ("3E9 2 0", 12, Some(Reason::Truncated)),
    ("3EC 1 0 0 0", 20, None),
    ("3F0 1 5F6D0000 0 0", 20, None),
    (examples::END_WITH_ADVISORY_FLAG, 4, None),
    ("400003F2", 4, None),
    ("3EB 80000002", 8, None),
    (examples::ADVISORY, 8, None),
    (examples::ADVISORY_WITH_CHIP, 8, None),
];

#[test]
fn in_both_modes(rt: HostRuntime) -> Result<(), Fail> {
    expect(&rt, rt.alloc(), IN_BOTH_MODES, Mode::Load)?;
    expect(&rt, rt.alloc(), IN_BOTH_MODES, Mode::Object)
}

/// Relocations and external symbols in a load file: the block word comes before a type that is refused.
const IN_LOAD_FILES: &[Case] = &[
    ("3F7 0", 0, Some(Reason::ShortReloc)),
    ("3EF 3000001", 0, Some(Reason::NotInLoadFile)),
];

/// The same in an object file.
const IN_OBJECT_FILES: &[Case] = &[
    ("3F7 0", 8, None),
    ("3EF 3000001", 4, Some(Reason::ExtKind)),
    ("3EF 82000000 8 0 0", 20, None),
];

#[test]
fn in_one_mode(rt: HostRuntime) -> Result<(), Fail> {
    expect(&rt, rt.alloc(), IN_LOAD_FILES, Mode::Load)?;
    expect(&rt, rt.alloc(), IN_OBJECT_FILES, Mode::Object)
}
