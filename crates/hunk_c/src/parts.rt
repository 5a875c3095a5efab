//! The parts of a file.
ghost use Rattle.std.specs.Prelude.{length};
ghost use Rattle.hunk_c.specs.Rows.{ListsWhatFits, Tabulates};
ghost use Rattle.hunk_parts.specs.PartRows.{part_rows};

use crate::answer::Answer;
use crate::rows::{CountedRow, FileRow, count_rows, tabulate};
use hunk_files::{FileView, Takes};
use hunk_parts::{PartRow, list_parts};

/// Lists the parts of a file.
#[unsafe(no_mangle)]
pub extern "C" fn hunk_parts(bytes: &[u8], rows: &mut [PartRow]) -> Answer
    ensures outcome { Tabulates part_rows bytes.now rows.old rows.new result }
    ensures succeeds { ListsWhatFits part_rows (length rows.old) bytes.now result }
{
    tabulate(bytes, rows)
}

impl FileRow for PartRow {
    ghost rows = { part_rows };

    fn list_file<T: Takes<PartRow>>(file: &FileView<'_>, taker: &mut T) {
        list_parts(file, taker);
    }
}

impl CountedRow for PartRow {
    fn count(file: &FileView<'_>) -> u64 {
        count_rows::<PartRow>(file)
    }

    #[tactic(auto, using(crate::proofs::FewRows::few_parts))]
    fn most_rows(size: u64) -> u64 {
        size / 4
    }
}
