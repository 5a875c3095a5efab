//! What a block tells.

use crate::tests::asserts::assert_equal_at;
use hunk_blocks::{Block, Body, Entry, Group, Mode};
use std::alloc::{AllocError, Global};
use std::process::Abort;
use std::test::Fail;
use test_helpers::spelled;

/// Adds the target, how many offsets there are, and each of them.
fn put_group(told: &mut Vec<u64>, group: &Group<'_>) -> Result<(), AllocError> {
    told.push(u64::from(group.target))?;
    told.push(group.offsets.len() as u64)?;
    for offset in &group.offsets {
        told.push(u64::from(offset))?;
    }
    Ok(())
}

/// Adds the word, the value, and how many bytes of a name and how many offsets there are.
fn put_entry(told: &mut Vec<u64>, entry: &Entry<'_>) -> Result<(), AllocError> {
    told.push(u64::from(entry.word))?;
    told.push(u64::from(entry.value))?;
    told.push(entry.name.bytes().len() as u64)?;
    told.push(entry.offsets.len() as u64)?;
    Ok(())
}

/// What stands after a block word, in turn.
fn told_by(alloc: Global, body: &Body<'_>) -> Result<Vec<u64>, AllocError> {
    let mut told = Vec::new(alloc);
    match body {
        Body::Bss { size } => told.push(u64::from(*size))?,
        Body::Advisory(payload) => told.push(payload.bytes().len() as u64)?,
        Body::Reloc(groups) => {
            for group in groups {
                put_group(&mut told, group)?;
            }
        }
        Body::Ext(entries) => {
            for entry in entries {
                put_entry(&mut told, entry)?;
            }
        }
        _ => {}
    }
    Ok(told)
}

/// Blocks of examples 33 and 44, the flags of their words, and what they tell.
const ROWS: &[(&str, u8, &[u64])] = &[
    ("3EC 1 0 0 0", 0, &[0, 1, 0]),
    ("3F7 0", 0, &[]),
    ("3EF 82000000 8 0 0", 0, &[0x8200_0000, 8, 0, 0]),
    ("3EB 80000002", 0, &[0x8000_0002]),
    ("200003F2", 1, &[]),
    ("400003F2", 2, &[]),
    ("200004D2 0", 1, &[0]),
    ("600004D2 0", 3, &[0]),
];

/// The flags of the block that the bytes are, and what it tells.
fn read(rt: &impl Abort, alloc: Global, bytes: &[u8]) -> Result<(u8, Vec<u64>), AllocError> {
    let (block, _) = Block::decode(alloc, bytes, Mode::Object).expect(rt, "no block");
    Ok((block.word().flags(), told_by(alloc, block.body())?))
}

#[test]
fn told(rt: HostRuntime) -> Result<(), Fail> {
    for (text, flags, want) in ROWS {
        let bytes = spelled(rt.alloc(), text)?;
        let (got, told) = read(&rt, rt.alloc(), &bytes)?;
        assert_equal_at(&rt, (got, told.as_slice()), (*flags, *want), text);
    }
    Ok(())
}
