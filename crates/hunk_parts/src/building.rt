//! The file that rows spell, written.
ghost use Rattle.std.specs.Prelude.{◌≡◌, ◌<◌, ◌≤◌, ◌*◌, ◌++◌, ℕ, IsFalse, IsTrue, None, Ok};
ghost use Rattle.std.specs.Prelude.{drop, length};
ghost use Rattle.hunk_words.specs.Carriers.{saturated};
ghost use Rattle.hunk_words.specs.Longs.{bytes_of};
ghost use Rattle.hunk_files.specs.HunkFile.{file_bytes};
ghost use Rattle.hunk_files.specs.declared.hunk_file.HunkFile.{HunkFile};
ghost use Rattle.hunk_parts.specs.Builds.{Builds, size_of};
ghost use Rattle.hunk_parts.specs.PartFaults.{first_place, row_fault};
ghost use Rattle.hunk_parts.specs.Parts.{AreParts};
ghost use Rattle.hunk_parts.specs.RowsText.{rows_text};

use crate::copier::Copier;
use crate::faults::find_fault;
use crate::part_row::PartRow;
use crate::row_fault::{BuiltSize, NotBuilt};
use crate::row_fields::are_rows;
use crate::text::put_rows;

/// Writes the file that the rows spell to the front of the text, and gives its size. What the rows
/// point at are bytes of `bytes`.
///
/// It takes no memory. The text after the file is as it was.
///
/// # Errors
///
/// `Refused`: no file has such a row there. `NoRoom`: the text is shorter than the file. At an `Err`
/// all of the text is as it was.
pub fn build(rows: &[PartRow], bytes: &[u8], text: &mut [u8]) -> Result<BuiltSize, NotBuilt>
    ensures outcome { Builds bytes.now rows.now text.old text.new result }
    ensures succeeds { (file : HunkFile) → AreParts bytes.now rows.now file
        → length (file_bytes file) ≤ length text.old → result ≡ Ok (size_of file) }
{
    are_rows(rows);
    let size = match find_fault(bytes, rows) {
        Ok(size) => size,
        Err(fault) => return Err(NotBuilt::Refused(fault)),
    };
    if !has_room(size.bytes, text.len() as u64) {
        return Err(NotBuilt::NoRoom(size));
    }
    write(bytes, rows, size.hunks, text);
    Ok(size)
}

/// Whether a file of this size fits the room. A size of 2^64 - 1 may stand for a larger one.
fn has_room(size: u64, room: u64) -> bool
    ensures fits { (longs : ℕ) → size ≡ saturated (4 * longs) → IsTrue result → 4 * longs ≤ room }
    ensures lacks { (longs : ℕ) → size ≡ saturated (4 * longs) → IsFalse result → room < 4 * longs }
{
    size <= room && size < u64::MAX
}

/// Writes the file, of this many hunks, to the front of the text, and gives the number of its
/// bytes.
#[tactic(auto, using(crate::proofs::CopiedText::copied))]
fn write(bytes: &[u8], rows: &[PartRow], hunks: u32, text: &mut [u8]) -> usize
    requires spell { row_fault bytes.now rows.now ≡ None }
    requires hunks { hunks ≡ (first_place rows.now).hunks }
    requires room { length (bytes_of (rows_text bytes.now rows.now)) ≤ length text.old }
    ensures count { result ≡ length (bytes_of (rows_text bytes.now rows.now)) }
    ensures text { text.new ≡ bytes_of (rows_text bytes.now rows.now) ++ drop result text.old }
{
    let mut copier = Copier { text, at: 0 };
    put_rows(&mut copier, bytes, rows, hunks);
    copier.at
}
