//! A curator's survey of a collection of files.

use hunk_blocks::{BlockView, BodyView};
use hunk_commands::unhex;
use hunk_files::{FileView, Item, Items, ObjectFile};
use std::alloc::{AllocGlobal, Global};
use std::fs;
use std::rt::Files;

/// What a collection has.
#[derive(Debug, Clone, Copy, PartialEq)]
pub struct Collection {
    /// Load files that were accepted.
    pub programs: u64,
    /// The bytes of their segments.
    pub segment_bytes: u64,
    /// The symbols that they carry for a debugger.
    pub symbols: u64,
    /// Object files that were accepted.
    pub objects: u64,
    /// Relocations and references of theirs that are outside what they belong to.
    pub findings: u64,
    /// Files that were refused.
    pub refused: u64,
}

/// What a collection of no files has.
const NOTHING: Collection = Collection {
    programs: 0,
    segment_bytes: 0,
    symbols: 0,
    objects: 0,
    findings: 0,
    refused: 0,
};

/// Surveys the files of a folder, each of which is read whole. Folders in it are passed over.
///
/// # Errors
///
/// The folder or a file of it can't be read, or memory ran out. A file that is refused is counted.
pub fn survey_folder<R>(rt: &R, folder: &str) -> anyhow::Result<Collection>
where
    R: Files + AllocGlobal + Clone + Drop,
{
    let mut found = NOTHING;
    for entry in fs::read_dir(rt, folder)? {
        let entry = entry?;
        if entry.file_type()?.is_file() {
            let bytes = fs::read(rt, entry.path())?;
            add_file(rt.alloc(), &mut found, &bytes)?;
        }
    }
    Ok(found)
}

/// Surveys the files, each of which is spelled in hexadecimal digits.
///
/// # Errors
///
/// A text spells no bytes, or memory ran out. A file that is refused is counted.
pub fn survey(alloc: Global, texts: &[&str]) -> anyhow::Result<Collection> {
    let mut found = NOTHING;
    for text in texts {
        let bytes = unhex(alloc, text.as_bytes())?;
        add_file(alloc, &mut found, bytes.as_slice())?;
    }
    Ok(found)
}

/// Adds a file.
fn add_file(alloc: Global, found: &mut Collection, bytes: &[u8]) -> anyhow::Result<()> {
    match FileView::read(bytes) {
        Ok(FileView::Load { file, rest: _ }) => {
            found.programs = found.programs.saturating_add(1);
            found.segment_bytes = found.segment_bytes.saturating_add(file.total());
            found.symbols = found.symbols.saturating_add(count_symbols(file.items()));
        }
        Ok(FileView::Object(_)) => {
            let findings = ObjectFile::decode(alloc, bytes)?.check(alloc)?;
            found.objects = found.objects.saturating_add(1);
            found.findings = found.findings.saturating_add(findings.len() as u64);
        }
        Err(_) => found.refused = found.refused.saturating_add(1),
    }
    Ok(())
}

/// How many symbols are among the items.
fn count_symbols(items: Items<'_>) -> u64 {
    let mut count = 0u64;
    for item in items {
        if let Item::Block { view, .. } = item {
            count = count.saturating_add(count_in(view));
        }
    }
    count
}

/// How many symbols the block has.
fn count_in(block: BlockView<'_>) -> u64 {
    let mut count = 0u64;
    if let BodyView::Symbol(symbols) = block.into_body() {
        for _symbol in symbols {
            count = count.saturating_add(1);
        }
    }
    count
}
