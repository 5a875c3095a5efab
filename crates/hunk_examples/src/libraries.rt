//! A little of each library.

use anyhow::{bail, ensure};
use hunk_blocks::BodyView;
use hunk_command_line::{Order, order};
use hunk_commands::unhex;
use hunk_files::{BlockViews, LoadView, sniff};
use hunk_grammar::Sniff;
use hunk_listing::print_load_summary;
use hunk_scatter::{Limits, Packed, load};
use hunk_words::{FromSlice, FromWrite, LongWriter, Printer};
use std::alloc::Global;

const LIMITS: Limits = Limits {
    budget: 0x0001_0000,
    file_bytes: 0x0010_0000,
};

/// What a tour has seen of a load file.
#[derive(Debug, Drop)]
pub struct Seen {
    /// The bytes of code that its first hunk has.
    pub code: u64,
    /// The bytes of its segments.
    pub loaded: u64,
    /// The lines that `hunkinfo validate` prints of it.
    pub report: Vec<u8>,
}

/// Goes through the load file that the text spells, where the words of the command line are those
/// of `hunkinfo validate --hex`.
///
/// # Errors
///
/// The words are others, the text spells no load file within the limits, or memory ran out.
pub fn tour(alloc: Global, words: &[String], text: &str) -> anyhow::Result<Seen> {
    let Order::Validate {
        hex: true,
        wide: false,
        file: _,
    } = order(alloc, words)?
    else {
        bail!("another order");
    };
    let bytes = unhex(alloc, text.as_bytes())?;
    ensure!(sniff(&bytes) == Sniff::Load, "no load file");
    let (file, size) = LoadView::read(&bytes)?;
    let code = file.iter().next().map_or(0, |hunk| code_bytes(hunk.blocks));
    let mut source = FromSlice::new(&bytes);
    let image = load(alloc, &mut source, LIMITS, &Packed { start: 0 })?;
    let mut out = LongWriter::new(FromWrite::new(Vec::new(alloc)));
    let mut page: Printer<'_, FromWrite<Vec<u8>>> = Printer::new(&mut out);
    print_load_summary(&mut page, &file, (bytes.len() - size) as u64);
    page.flush()?;
    let loaded = image.bytes();
    let report = out.into_inner().into_inner();
    Ok(Seen {
        code,
        loaded,
        report,
    })
}

/// The bytes of code that the blocks have.
fn code_bytes(blocks: BlockViews<'_>) -> u64 {
    let mut code = 0u64;
    for block in blocks {
        if let BodyView::Code { top: _, payload } = block.into_body() {
            code = code.saturating_add(payload.byte_count());
        }
    }
    code
}
