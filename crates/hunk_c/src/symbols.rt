//! The symbols of a file.
ghost use Rattle.std.specs.Prelude.{◌≡◌, ◌+◌, ◌<◌, ◌^◌, length};
ghost use Rattle.hunk_blocks.specs.Parts.{symbol_text};
ghost use Rattle.hunk_blocks.specs.Views.{symbol_of};
ghost use Rattle.hunk_parts.specs.Listing.{item_rows};
ghost use Rattle.hunk_c.specs.Rows.{ListsWhatFits, Tabulates};
ghost use Rattle.hunk_c.specs.Symbols.{block_rows, symbol_row, symbols_in};

use crate::answer::Answer;
use crate::name::text_length;
use crate::rows::{CountedRow, InBlock, count_rows, tabulate};
use hunk_blocks::{BlockView, BodyView, SymbolView, SymbolsIter};
use hunk_files::{FileView, Takes};

/// A symbol, `struct hunk_symbol`: 48 bytes, with no padding.
#[repr(C)]
#[derive(Clone, Copy)]
pub struct SymbolRow {
    pub place: u64,
    pub unit: u64,
    pub hunk: u64,
    pub name: u64,
    pub name_bytes: u64,
    pub value: u32,
    pub reserved: u32,
}

/// Lists the entries of the SYMBOL blocks of a file.
#[unsafe(no_mangle)]
pub extern "C" fn hunk_symbols(bytes: &[u8], rows: &mut [SymbolRow]) -> Answer
    ensures outcome { Tabulates symbols_in bytes.now rows.old rows.new result }
    ensures succeeds { ListsWhatFits symbols_in (length rows.old) bytes.now result }
{
    tabulate(bytes, rows)
}

impl InBlock for SymbolRow {
    ghost in_block = { block_rows };

    fn list<T: Takes<SymbolRow>>(unit: u64, hunk: u64, block: BlockView<'_>, taker: &mut T) {
        if let BodyView::Symbol(symbols) = block.into_body() {
            list_symbols(taker, unit, hunk, symbols);
        }
    }
}

impl CountedRow for SymbolRow {
    fn count(file: &FileView<'_>) -> u64 {
        count_rows::<SymbolRow>(file)
    }

    #[tactic(auto, using(crate::proofs::FewRows::few_symbols))]
    fn most_rows(size: u64) -> u64 {
        size / 4
    }
}

/// Hands over the row of each symbol of a block.
fn list_symbols<T: Takes<SymbolRow>>(
    taker: &mut T,
    unit: u64,
    hunk: u64,
    mut symbols: SymbolsIter<'_>,
)
    ensures { T.takes taker.old (item_rows (symbol_row unit hunk) symbol_text
        symbols.entry.place symbols.entry.value) taker.new }
{
    let mut place = symbols.place();
    'listing: while let Some(symbol) = symbols.next() {
        let after = symbols.place();
        taker.take(symbol_row(unit, hunk, place, &symbol));
        place = after;
    }
}

/// What the caller sees of a symbol whose entry begins at this byte.
fn symbol_row(unit: u64, hunk: u64, place: u64, symbol: &SymbolView<'_>) -> SymbolRow
    requires { place + 4 < 2 ^ 64 }
    ensures { result ≡ symbol_row unit hunk place (symbol_of symbol.now) }
{
    SymbolRow {
        place,
        unit,
        hunk,
        name: place + 4,
        name_bytes: text_length(symbol.name.bytes()),
        value: symbol.value,
        reserved: 0,
    }
}
