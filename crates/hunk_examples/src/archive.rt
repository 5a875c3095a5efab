//! An archive's check of a file.

use hunk_files::{FileView, ObjectFile};
use std::alloc::Global;

/// A line on a file: what it is, and what is wrong with it.
///
/// # Errors
///
/// The file is refused, with the place and the reason, or memory ran out.
pub fn describe(alloc: Global, bytes: &[u8]) -> anyhow::Result<String> {
    match FileView::read(bytes)? {
        FileView::Load { file, rest } => {
            let hunks = file.hunks();
            Ok(format!(in alloc; "load file, {hunks} hunks, {rest} bytes after it")?)
        }
        FileView::Object(_) => {
            let file = ObjectFile::decode(alloc, bytes)?;
            let (units, findings) = (file.units().len(), file.check(alloc)?.len());
            Ok(format!(in alloc; "object file, {units} units, {findings} findings")?)
        }
    }
}
