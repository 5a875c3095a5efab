//! Laws over the definitions alone: each function does nothing, and its contract is the law.
ghost use Rattle.std.specs.Prelude.{◌≡◌, ◌≤◌, ◌==◌, ℕ, length};
ghost use Rattle.std.specs.List.{Contains, count_by};
ghost use Rattle.hunk_words.specs.Longs.{bytes_of};
ghost use Rattle.hunk_files.specs.LoadFile.{IsLoadFile, LoadFileValue};
ghost use Rattle.hunk_files.specs.LoadText.{text};
ghost use Rattle.hunk_files.specs.Overlap.{AreApart, hunk_offsets};
ghost use Rattle.hunk_files.specs.Strip.{strip_file};
ghost use Rattle.hunk_lint.specs.Room.{room_for};
ghost use Rattle.hunk_lint.specs.Stripped.{without_symbols};
ghost use Rattle.hunk_lint.specs.Warnings.{HasNone, warnings};
ghost use Rattle.hunk_lint.specs.declared.warning.WarningKind.TheVariants as kinds;

/// A load file has no more warnings than bytes.
#[tactic(auto, using(crate::proofs::FewWarnings::few_warnings))]
pub fn few_warnings()
    ensures { (v : LoadFileValue) → IsLoadFile v
        → length (warnings v) ≤ length (bytes_of (text v)) }
{}

/// As many elements of room as the file has longwords are enough.
#[tactic(auto, using(crate::proofs::EnoughRoom::enough_room))]
pub fn enough_room()
    ensures { (v : LoadFileValue) → room_for v ≤ length (text v) }
{}

/// Where no warning is of an overlap, no two offsets of a hunk are 1 to 3 apart.
pub fn apart_without_overlap()
    ensures { (v : LoadFileValue) (i : ℕ) → HasNone kinds.Overlap (warnings v)
        → AreApart (hunk_offsets v i) }
{}

/// Where no warning is of two with one offset, each offset of a hunk stands once.
pub fn once_without_twice()
    ensures { (v : LoadFileValue) (i : ℕ) → HasNone kinds.Twice (warnings v)
        → (o : ℕ) → Contains (hunk_offsets v i) o
        → count_by (λ x. x == o) (hunk_offsets v i) ≤ 1 }
{}

/// A stripped file has the warnings of the file, but for those of symbols and the places.
#[tactic(auto, using(crate::proofs::Stripping::stripped_warnings))]
pub fn stripped_warnings()
    ensures { (v : LoadFileValue) → without_symbols (warnings (strip_file v))
        ≡ without_symbols (warnings v) }
{}
