//! Laws over what calls answer: each function does nothing, and its contract is the law.
ghost use Rattle.std.specs.Prelude.{◌≡◌, ◌+◌, ◌*◌, ◌≤◌, ℕ, List, ◌++◌, length};
ghost use Rattle.hunk_words.specs.Longs.{bytes_of};
ghost use Rattle.hunk_words.specs.declared.fault.Fault.{Fault};
ghost use Rattle.hunk_files.specs.HunkFile.{IsFileOf, file_bytes};
ghost use Rattle.hunk_files.specs.declared.hunk_file.HunkFile.{HunkFile};
ghost use Rattle.hunk_files.specs.declared.row.Row.{Row};
ghost use Rattle.hunk_parts.specs.declared.part_row.PartRow.{PartRow};
ghost use Rattle.hunk_scatter.specs.Placing.{Placing};
ghost use Rattle.hunk_c.specs.Answers.{AreAnswered, refused, strange};
ghost use Rattle.hunk_c.specs.Building.{Answers};
ghost use Rattle.hunk_c.specs.Checks.{Checks};
ghost use Rattle.hunk_c.specs.Fronts.{Fronts, IsClosed};
ghost use Rattle.hunk_c.specs.Loaders.{HasRefusedPiece, Stands, no_loader, refusing};
ghost use Rattle.hunk_c.specs.Loads.{Loads};
ghost use Rattle.hunk_c.specs.LoadsAt.{LoadsAt};
ghost use Rattle.hunk_c.specs.Names.{Means, Names};
ghost use Rattle.hunk_c.specs.Plains.{Plains};
ghost use Rattle.hunk_c.specs.Rows.{Tabulates};
ghost use Rattle.hunk_c.specs.Streams.{Begins, Ends, Feeds, RefusesPiece, StaysRefused, Wants};
ghost use Rattle.hunk_c.specs.Strips.{Strips};
ghost use Rattle.hunk_c.specs.Tables.{Tables};
ghost use Rattle.hunk_c.specs.Warnings.{Warns};
ghost use Rattle.hunk_c.specs.declared.answer.Answer.{Answer};
ghost use Rattle.hunk_c.specs.declared.check.FindingRow.{FindingRow};
ghost use Rattle.hunk_c.specs.declared.loader.Loader.{Loader};
ghost use Rattle.hunk_c.specs.declared.table.TableRow.{TableRow};
ghost use Rattle.hunk_c.specs.declared.warnings.WarningRow.{WarningRow};

/// No call answers the number of Advisory, FileLimit, Read or OutOfMemory.
pub fn answered_numbers()
    ensures table { (budget : ℕ) (bytes : List ℕ) (old new : List TableRow)
        → AreAnswered (Tables budget bytes old new) }
    ensures load { (base : Placing) (bytes old new : List ℕ)
        → AreAnswered (Loads base bytes old new) }
    ensures load_at { (base : Placing) (start : ℕ) (bytes old new : List ℕ)
        → AreAnswered (LoadsAt base start bytes old new) }
    ensures begin { (rows : List Row) (header : ℕ) (new : Loader) (memory after : List ℕ)
        → AreAnswered (Begins rows header new memory after) }
    ensures feed { (rows : List Row) (old new : Loader) (memory after piece : List ℕ)
        → AreAnswered (Feeds rows old new memory after piece) }
    ensures end { (l : Loader) → AreAnswered (Ends l) }
    ensures want { (l : Loader) → AreAnswered (Wants l) }
    ensures check { (bytes : List ℕ) (old new : List FindingRow)
        → AreAnswered (Checks bytes old new) }
    ensures warnings { (bytes : List ℕ) (room : ℕ) (old new : List WarningRow)
        → AreAnswered (Warns bytes room old new) }
    ensures build { (bytes : List ℕ) (rows : List PartRow) (old new : List ℕ)
        → AreAnswered (Answers bytes rows old new) }
    ensures strip { (bytes old new : List ℕ) → AreAnswered (Strips bytes old new) }
    ensures plain { (bytes old new : List ℕ) → AreAnswered (Plains bytes old new) }
    ensures front { (bytes old new : List ℕ) → AreAnswered (Fronts bytes old new) }
    ensures name { (number : ℕ) (old new : List ℕ) → AreAnswered (Names number old new) }
    ensures meaning { (number : ℕ) (old new : List ℕ) → AreAnswered (Means number old new) }
{}

/// Nor does a call that writes a row for each item.
pub fn answered_numbers_of_items<T>()
    ensures { (rows : HunkFile → List T) (bytes : List ℕ) (old new : List T)
        → AreAnswered (Tabulates rows bytes old new) }
{}

/// As many bytes as a file has are room for what is left of it.
pub fn room_for_stripped()
    ensures { (bytes old new : List ℕ) (answer : Answer) → Strips bytes old new answer
        → (file : HunkFile) → IsFileOf bytes file → length (file_bytes file) ≤ length old
        → answer.number ≡ 0 }
{}

/// Twice as many bytes as an input has are room for its plain spelling.
pub fn room_for_plain()
    ensures { (bytes old new : List ℕ) (answer : Answer) → Plains bytes old new answer
        → 2 * length bytes ≤ length old → answer.number ≡ 0 }
{}

/// 12 bytes more than an input has, and 12 for each hunk of its table, are room for what stands of
/// it before its fault; so are four times its bytes.
pub fn room_for_front()
    ensures by_hunks { (bytes old new : List ℕ) (answer : Answer) → Fronts bytes old new answer
        → length bytes + 12 * answer.hunk + 12 ≤ length old → answer.number ≡ 0 }
    ensures fourfold { (bytes old new : List ℕ) (answer : Answer) → Fronts bytes old new answer
        → 4 * length bytes ≤ length old → answer.number ≡ 0 }
{}

/// What a front is closed to is a whole file, and begins with the front.
pub fn closed_file()
    ensures whole { (ws : List ℕ) (file : HunkFile) → IsClosed ws file
        → IsFileOf (file_bytes file) file }
    ensures begins { (ws : List ℕ) (file : HunkFile) → IsClosed ws file
        → (more : List ℕ) × (file_bytes file ≡ bytes_of ws ++ more) }
{}

/// The longest name of a number, and the longest sentence of what one means.
pub fn longest_words()
    ensures names { (number : ℕ) (old new : List ℕ) (answer : Answer)
        → Names number old new answer → answer.count ≤ 17 }
    ensures meanings { (number : ℕ) (old new : List ℕ) (answer : Answer)
        → Means number old new answer → answer.count ≤ 75 }
{}

/// What a begin leaves where it does not succeed, each call answers by Strange.
pub fn strange_after_no_begin()
    ensures feed { (rows : List Row) (new : Loader) (memory after piece : List ℕ) (answer : Answer)
        → Feeds rows no_loader new memory after piece answer → answer ≡ strange }
    ensures end { (answer : Answer) → Ends no_loader answer → answer ≡ strange }
    ensures want { (answer : Answer) → Wants no_loader answer → answer ≡ strange }
{}

/// A loader that has refused a piece answers each later call by the same refusal, and stays as it
/// is.
pub fn refusal_stays()
    ensures refuses { (rows : List Row) (old : Loader) (memory fed piece : List ℕ) (fault : Fault)
        → Stands rows old memory fed → RefusesPiece rows old memory piece fault
        → HasRefusedPiece (refusing old fault) fault }
    ensures feed { (l : Loader) (fault : Fault) → HasRefusedPiece l fault
        → (rows : List Row) (new : Loader) (memory after piece : List ℕ) (answer : Answer)
        → Feeds rows l new memory after piece answer → StaysRefused l new memory after fault answer }
    ensures end { (l : Loader) (fault : Fault) → HasRefusedPiece l fault
        → (answer : Answer) → Ends l answer → answer ≡ refused fault }
    ensures want { (l : Loader) (fault : Fault) → HasRefusedPiece l fault
        → (answer : Answer) → Wants l answer → answer ≡ refused fault }
{}
