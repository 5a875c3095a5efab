//! An assembler's output.

use anyhow::ensure;
use hunk_words::{CONTENT_LIMIT, HEADER_WORD, LongWriter, Sink};

/// Writes a load file of one hunk, whose code these bytes are.
///
/// # Errors
///
/// The code is no whole number of longwords, or has more than a hunk can have, or the writer
/// failed, after as many bytes as the error says.
pub fn write_program<W: Sink + Drop>(code: &[u8], sink: W) -> anyhow::Result<W> {
    ensure!(code.len() % 4 == 0, "code of {} bytes", code.len());
    let size = u32::try_from(code.len() / 4)?;
    ensure!(size < CONTENT_LIMIT, "code of {size} longwords");
    let mut out = LongWriter::new(sink);
    for long in [HEADER_WORD, 0, 1, 0, 0, size, 0x3E9, size] {
        out.put_long(long)?;
    }
    out.put_bytes(code)?;
    out.put_long(0x3F2)?;
    Ok(out.into_inner())
}
