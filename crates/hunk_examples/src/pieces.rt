//! A loader whose file comes in pieces.

use anyhow::bail;
use hunk_scatter::{HeaderLoader, Image, Packed};
use std::alloc::Global;

/// The most bytes that a program may have in memory.
const BUDGET: u64 = 0x0020_0000;

/// Loads a program to the address `start`, where the first piece of its file has the whole header.
/// Bytes after the file are left alone.
///
/// # Errors
///
/// A piece is refused, the header or the file goes on after its piece, a hunk has no base, or
/// memory ran out.
pub fn load_pieces(
    alloc: Global,
    first: &[u8],
    more: &[&[u8]],
    start: u32,
) -> anyhow::Result<Image> {
    let mut header = HeaderLoader::new(alloc, BUDGET);
    let taken = header.feed(first)?;
    let Ok(declared) = header.declared() else {
        bail!("the header goes on after the first piece");
    };
    let mut body = declared.place(&Packed { start })?;
    body.feed(&first[taken..])?;
    for piece in more {
        body.feed(piece)?;
    }
    match body.finish() {
        Ok(image) => Ok(image),
        Err(body) => bail!("at least {} bytes are to come", body.want()),
    }
}
