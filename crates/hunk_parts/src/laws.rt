//! Laws over the definitions alone: each function does nothing, and its contract is the law.
ghost use Rattle.std.specs.Prelude.{◌≡◌, ◌≢◌, ◌≤◌, ◌<◌, ◌↔◌, ◌++◌, ◌+◌, ◌*◌};
ghost use Rattle.std.specs.Prelude.{◌^◌, ℕ, List, Result};
ghost use Rattle.std.specs.Prelude.{Err, None, Ok, Some};
ghost use Rattle.std.specs.Prelude.{drop, length, map, take};
ghost use Rattle.std.specs.List.{sum_by};
ghost use Rattle.hunk_words.specs.Limits.{most_hunks};
ghost use Rattle.hunk_words.specs.Longs.{IsBytes};
ghost use Rattle.hunk_files.specs.HunkFile.{IsFileOf, file_bytes};
ghost use Rattle.hunk_files.specs.declared.hunk_file.HunkFile.{HunkFile};
ghost use Rattle.hunk_parts.specs.Builds.{Builds, size_of};
ghost use Rattle.hunk_parts.specs.FirstRow.{BeginsSome};
ghost use Rattle.hunk_parts.specs.PartFaults.{first_place, row_fault};
ghost use Rattle.hunk_parts.specs.PartRows.{part_rows};
ghost use Rattle.hunk_parts.specs.Parts.{AreParts, parts_of, seen};
ghost use Rattle.hunk_parts.specs.ReadBack.{HasRows};
ghost use Rattle.hunk_parts.specs.RowFields.{AreRows, pointed_bytes};
ghost use Rattle.hunk_parts.specs.declared.part_row.PartRow.{PartRow};
ghost use Rattle.hunk_parts.specs.declared.row_fault.BuiltSize.{BuiltSize};
ghost use Rattle.hunk_parts.specs.declared.row_fault.NotBuilt.{NotBuilt};
ghost use Rattle.hunk_parts.specs.declared.row_fault.NotBuilt.TheVariants.{NoRoom};
ghost use Rattle.hunk_parts.specs.declared.row_fault.RowFault.{RowFault};

use crate::part_row::PartRow;
use crate::row_fields::are_rows;

/// What the rows of a file are, seen in its bytes, are its parts.
#[tactic(auto, using(crate::proofs::SeenParts::file_parts))]
pub fn file_parts()
    ensures { (bytes : List ℕ) (file : HunkFile) → IsFileOf bytes file
        → map (seen bytes) (part_rows file) ≡ map Some (parts_of file) }
{}

/// A file has no more parts than longwords.
#[tactic(auto, using(crate::proofs::FewParts::few_parts))]
pub fn few_parts()
    ensures { (file : HunkFile) → 4 * length (part_rows file) ≤ length (file_bytes file) }
{}

/// Files of the same parts have the same bytes.
#[tactic(auto, using(crate::proofs::spelled::FileTexts::one_file))]
pub fn one_file()
    ensures { (a b : HunkFile) (ones others : List ℕ) → IsFileOf ones a → IsFileOf others b
        → parts_of a ≡ parts_of b → file_bytes a ≡ file_bytes b }
{}

/// Rows have no fault just where they are the parts of a file.
pub fn one_answer(bytes: &[u8], rows: &[PartRow])
    ensures { row_fault bytes.now rows.now ≡ None
        ↔ (file : HunkFile) × AreParts bytes.now rows.now file }
{
    are_rows(rows);
}

/// A file that was read is built again from its rows, where there is room for it: the text begins
/// with its bytes.
pub fn built_again()
    ensures size { (bytes : List ℕ) (file : HunkFile) (old new : List ℕ)
        (built : Result BuiltSize NotBuilt) → IsFileOf bytes file
        → length (file_bytes file) ≤ length old → Builds bytes (part_rows file) old new built
        → built ≡ Ok (size_of file) }
    ensures text { (bytes : List ℕ) (file : HunkFile) (old new : List ℕ)
        (built : Result BuiltSize NotBuilt) → IsFileOf bytes file
        → length (file_bytes file) ≤ length old → Builds bytes (part_rows file) old new built
        → new ≡ file_bytes file ++ drop (length (file_bytes file)) old }
{}

/// What was built is read back: a file with nothing after it, whose rows are those that it was
/// built from.
pub fn read_back()
    ensures { (bytes : List ℕ) (rows : List PartRow) (old new : List ℕ) (size : BuiltSize)
        → length old < 2 ^ 64 → Builds bytes rows old new (Ok size)
        → (file : HunkFile) × HasRows bytes rows (take size.bytes new) file }
{}

/// 20 bytes, 16 for each row, and as many as the rows point at, are room for what they spell.
pub fn room_for_built()
    ensures { (bytes : List ℕ) (rows : List PartRow) (old new : List ℕ)
        (built : Result BuiltSize NotBuilt) → Builds bytes rows old new built
        → 20 + 16 * length rows + sum_by pointed_bytes rows ≤ length old
        → (size : BuiltSize) → built ≢ Err (NoRoom size) }
{}

/// A fault is at the first row of which no file is made: some file of as many hunks begins with the
/// parts before it, and none with that row, too.
pub fn first_row()
    ensures begins { (bytes : List ℕ) (rows : List PartRow) (fault : RowFault)
        → IsBytes bytes → AreRows rows → (first_place rows).hunks ≤ most_hunks
        → row_fault bytes rows ≡ Some fault
        → BeginsSome (first_place rows).hunks bytes rows fault.row }
    ensures stops { (bytes : List ℕ) (rows : List PartRow) (fault : RowFault)
        → (first_place rows).hunks ≤ most_hunks
        → row_fault bytes rows ≡ Some fault → fault.row < length rows
        → BeginsSome (first_place rows).hunks bytes rows (fault.row + 1) → ⊥ }
{}
