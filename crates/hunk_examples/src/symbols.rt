//! A debugger's list of symbols.

use hunk_blocks::{BlockView, BodyView};
use hunk_files::{FileView, Item};
use std::alloc::{AllocError, Global};

/// A symbol of a file.
#[derive(Debug, Clone, Copy, PartialEq)]
pub struct Symbol<'a> {
    /// The number of its unit, 0 in a load file.
    pub unit: u64,
    /// The number of its hunk in the unit.
    pub hunk: u64,
    /// Its name, with zero bytes up to a whole longword.
    pub name: &'a [u8],
    /// Its value, in bytes from the start of the hunk.
    pub value: u32,
}

/// The symbols of a load file or an object file. Their names are slices of its bytes.
///
/// # Errors
///
/// The file is refused, with the place and the reason, or memory ran out.
pub fn list_symbols<'a>(alloc: Global, bytes: &'a [u8]) -> anyhow::Result<Vec<Symbol<'a>>> {
    let file = FileView::read(bytes)?;
    let mut found = Vec::new(alloc);
    for item in file.items() {
        if let Item::Block { unit, hunk, view } = item {
            add_block(unit, hunk, view, &mut found)?;
        }
    }
    Ok(found)
}

/// Adds those of a block, if it is a SYMBOL block.
fn add_block<'a>(
    unit: u64,
    hunk: u64,
    block: BlockView<'a>,
    found: &mut Vec<Symbol<'a>>,
) -> Result<(), AllocError> {
    if let BodyView::Symbol(symbols) = block.into_body() {
        for symbol in symbols {
            found.push(Symbol {
                unit,
                hunk,
                name: symbol.name.bytes(),
                value: symbol.value,
            })?;
        }
    }
    Ok(())
}
