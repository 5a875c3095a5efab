//! Laws over the definitions alone: each function does nothing, and its contract is the law.
ghost use Rattle.std.specs.Prelude.{◌≡◌, ℕ, ◌≤◌, Bool, true, List, [], ◌++◌, length, min};
ghost use Rattle.hunk_words.specs.Longs.{IsBytes, bytes_of};
ghost use Rattle.hunk_files.specs.LoadFile.{IsLoadFile, LoadFileValue};
ghost use Rattle.hunk_files.specs.LoadText.{text};
ghost use Rattle.hunk_files.specs.ObjectFile.{IsObjectFile, ObjectFileValue, object_text};
ghost use Rattle.hunk_wide.specs.Counts.{BeginsWithWide};
ghost use Rattle.hunk_wide.specs.Places.{place_of};
ghost use Rattle.hunk_wide.specs.Plain.{plain};
ghost use Rattle.hunk_wide.specs.Spellings.{ends_of, short_blocks_of};
ghost use Rattle.hunk_wide.specs.Wide.{IsWide};
ghost use Rattle.hunk_wide.specs.WideObject.{IsWideObject};

/// The plain spelling is what the bytes spell.
///
/// A plain text is its own plain spelling, byte for byte, whatever follows it. Each wide spelling
/// of a load file has that file's text as its plain spelling, and what follows it stays; where the
/// END of the last hunk is left out, nothing may follow. So it is of object files, which are all of
/// the input.
pub fn plain_spelling()
    ensures stays { (v : LoadFileValue) (rest : List ℕ) → IsLoadFile v →
        plain (bytes_of (text v) ++ rest) ≡ bytes_of (text v) ++ rest }
    ensures wide { (at_end : Bool) (v : LoadFileValue) (bytes rest : List ℕ) → IsLoadFile v
        → IsWide at_end v bytes → (at_end ≡ true → rest ≡ [])
        → plain (bytes ++ rest) ≡ bytes_of (text v) ++ rest }
    ensures object_stays { (v : ObjectFileValue) → IsObjectFile v →
        plain (bytes_of (object_text v)) ≡ bytes_of (object_text v) }
    ensures object_wide { (v : ObjectFileValue) (bytes : List ℕ) → IsObjectFile v
        → IsWideObject v bytes → plain bytes ≡ bytes_of (object_text v) }
{}

/// A plain spelling that begins with a load file comes from a wide spelling of that file.
///
/// So END is put in nowhere else than such a spelling leaves it out, and what comes after that
/// spelling stays. The numbers of short blocks and of missing END are those of that spelling.
pub fn from_wide_spelling()
    ensures { (v : LoadFileValue) (input rest : List ℕ) → IsBytes input → IsLoadFile v
        → plain input ≡ bytes_of (text v) ++ rest → BeginsWithWide v input rest }
{}

/// One input begins with wide spellings of one load file alone.
pub fn one_spelling()
    ensures { (x y : Bool) (a b : LoadFileValue) (front front2 rest rest2 : List ℕ) → IsLoadFile a
        → IsLoadFile b → IsWide x a front → IsWide y b front2 → (x ≡ true → rest ≡ [])
        → (y ≡ true → rest2 ≡ []) → front ++ rest ≡ front2 ++ rest2 → a ≡ b }
{}

/// One input is a wide spelling of one object file alone, and then begins with none of a load file.
pub fn one_object_spelling()
    ensures value { (a b : ObjectFileValue) (bytes : List ℕ) → IsObjectFile a → IsObjectFile b
        → IsWideObject a bytes → IsWideObject b bytes → a ≡ b }
    ensures kind { (at_end : Bool) (a : LoadFileValue) (b : ObjectFileValue) (front rest : List ℕ)
        → IsWide at_end a front → IsObjectFile b → IsWideObject b (front ++ rest) → ⊥ }
{}

/// Where places of the plain spelling are in the input.
///
/// They are in its bytes, and from the end of the plain spelling on at their end. A later place is
/// not before an earlier one. Where nothing is spelled otherwise, each is the same place.
pub fn input_places()
    ensures inside { (bytes : List ℕ) (place : ℕ) → place_of bytes place ≤ length bytes }
    ensures behind { (bytes : List ℕ) (place : ℕ) → length (plain bytes) ≤ place
        → place_of bytes place ≡ length bytes }
    ensures order { (bytes : List ℕ) (place later : ℕ) → place ≤ later
        → place_of bytes place ≤ place_of bytes later }
    ensures same { (bytes : List ℕ) (place : ℕ) → short_blocks_of bytes ≡ 0 → ends_of bytes ≡ 0
        → place_of bytes place ≡ min place (length bytes) }
{}
