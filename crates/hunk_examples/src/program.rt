//! What the program does, in a program of one's own.

use hunk_commands::show;
use hunk_files::FileView;
use hunk_words::{FromRead, FromWrite, LongWriter, Printer};
use std::alloc::Global;
use std::io::Read;

/// The most bytes that are read of a file.
const FILE_BYTES: u64 = 0x0040_0000;

/// The lines that `hunkinfo show` prints of a file.
///
/// # Errors
///
/// Reading failed, the file is refused, or memory ran out.
pub fn show_file<R: Read + Drop>(alloc: Global, file: R) -> anyhow::Result<Vec<u8>> {
    let mut out = LongWriter::new(FromWrite::new(Vec::new(alloc)));
    show(alloc, &mut FromRead::new(file), &mut out, FILE_BYTES)?;
    Ok(out.into_inner().into_inner())
}

/// What `hunkinfo rewrite --strip` writes of a file: the same without names, symbols and debug data.
///
/// # Errors
///
/// The file is refused, with the place and the reason, or memory ran out.
pub fn strip(alloc: Global, bytes: &[u8]) -> anyhow::Result<Vec<u8>> {
    let file = FileView::read(bytes)?;
    let mut out = LongWriter::new(FromWrite::new(Vec::new(alloc)));
    let mut page: Printer<'_, FromWrite<Vec<u8>>> = Printer::new(&mut out);
    file.strip_with(&mut page);
    page.flush()?;
    Ok(out.into_inner().into_inner())
}
