//! The hunks of a load file.
ghost use Rattle.std.specs.Prelude.{◌≡◌};
ghost use Rattle.hunk_files.specs.Tables.{row_entry, size_entry};

use crate::row::Row;
use hunk_blocks::Block;
use hunk_words::SizeWord;

/// A hunk of a load file: its row of the table, and its blocks.
#[derive(Debug, Drop)]
pub(crate) struct LoadHunk<'a> {
    /// What the table declares of it; its base is 0.
    pub row: Row,
    /// Its blocks in file order, up to END.
    pub blocks: Vec<Block<'a>>,
}

/// The row of the entry, with no base yet.
pub(crate) fn row_of(size: SizeWord) -> Row
    ensures { row_entry result ≡ size_entry size }
{
    Row {
        word: size.word,
        extra: size.extra,
        base: 0,
    }
}
