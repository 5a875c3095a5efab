//! A tool that puts a program into a ROM.

use anyhow::bail;
use hunk_files::LoadFile;
use std::alloc::Global;

/// The bytes of a program in a ROM, one hunk after the other, where `bases` are the addresses of
/// the hunks.
///
/// # Errors
///
/// The file is refused, with the place and the reason; two longwords that are relocated overlap;
/// there is not one address for each hunk; or memory ran out.
pub fn place_in_rom(alloc: Global, bytes: &[u8], bases: &[u32]) -> anyhow::Result<Vec<u8>> {
    let (file, _) = LoadFile::decode(alloc, bytes)?;
    for i in 0..file.hunks() {
        if let Some((first, second)) = file.overlap(alloc, i)? {
            bail!("the relocations at {first} and {second} of hunk {i} overlap");
        }
    }
    Ok(file.image(alloc, bases)?)
}
