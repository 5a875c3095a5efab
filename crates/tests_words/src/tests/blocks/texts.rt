//! What is written of blocks: of many items, and to a writer that stops.

use crate::tests::asserts::assert_equal;
use hunk_blocks::{Block, Mode};
use hunk_words::{FromWrite, LongWriter, WriteFault};
use std::alloc::Global;
use std::process::Abort;
use std::test::Fail;
use test_helpers::large::{ENTRIES, GROUPS, OFFSETS, Run, SYMBOLS, bytes_of_runs};
use test_helpers::{Narrow, WIDTH, spelled};

/// The block that the bytes begin with. Without a contract, so that what calls it has a short proof.
fn block<'a>(rt: &impl Abort, alloc: Global, bytes: &'a [u8]) -> Block<'a> {
    let (block, _) = Block::decode(alloc, bytes, Mode::Object).expect(rt, "no block");
    block
}

/// What is written of the block.
fn written_of(rt: &impl Abort, alloc: Global, block: &Block<'_>) -> Vec<u8> {
    let mut writer = LongWriter::new(FromWrite::new(Vec::<u8>::new(alloc)));
    assert_equal(rt, block.encode(&mut writer), Ok(()));
    writer.into_inner().into_inner()
}

const LARGE_BLOCKS: &[&[Run]] = &[GROUPS, OFFSETS, SYMBOLS, ENTRIES];

#[test]
fn of_many_items(rt: HostRuntime) -> Result<(), Fail> {
    for runs in LARGE_BLOCKS {
        let bytes = bytes_of_runs(rt.alloc(), &[*runs])?;
        let again = written_of(&rt, rt.alloc(), &block(&rt, rt.alloc(), &bytes));
        assert!(rt; again.as_slice() == bytes.as_slice());
    }
    Ok(())
}

/// The block of example 33 at a writer that takes six bytes: a further put writes nothing.
#[test]
fn six_bytes(rt: HostRuntime) -> Result<(), Fail> {
    let bytes = spelled(rt.alloc(), "3E9 1 4E754E71")?;
    let mut writer = LongWriter::new(FromWrite::new(Narrow::new(6, WIDTH, false)));
    let answer = block(&rt, rt.alloc(), &bytes).encode(&mut writer);
    let fault = Err(WriteFault { written: 6 });
    assert_equal(&rt, (answer, writer.put_long(1)), (fault, fault));
    let narrow = writer.into_inner().into_inner();
    assert_equal(&rt, narrow.taken(), [0, 0, 3, 0xE9, 0, 0].as_slice());
    Ok(())
}
