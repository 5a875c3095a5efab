//! Laws over the definitions alone: each function does nothing, and its contract is the law.
ghost use Rattle.std.specs.Prelude.{◌≡◌, ◌≤◌, ◌*◌, ◌/◌, ℕ, List, ◌++◌, length, false, true};
ghost use Rattle.hunk_words.specs.Longs.{bytes_of, longs};
ghost use Rattle.hunk_files.specs.FileParts.{IsPartAt};
ghost use Rattle.hunk_files.specs.FileSteps.{More, Progress};
ghost use Rattle.hunk_files.specs.LoadFile.{LoadFileValue, IsLoadFile, TableEntry};
ghost use Rattle.hunk_files.specs.LoadText.{text};
ghost use Rattle.hunk_files.specs.Machines.{load_at};
ghost use Rattle.hunk_files.specs.WordsRead.{HasRead};
ghost use Rattle.hunk_files.specs.declared.part.Part.TheVariants.{Hunk};
ghost use Rattle.hunk_files.specs.declared.row.Row.{Row};
ghost use Rattle.hunk_grammar.specs.Positions.{is_after_header, is_done, least_longs};
ghost use Rattle.hunk_grammar.specs.declared.file_kind.Sniff.TheVariants.{Load};
ghost use Rattle.hunk_scatter.specs.BodyLoaderFields.{IsFed};
ghost use Rattle.hunk_scatter.specs.HeaderBytes.{IsHeaderTable, header_words};
ghost use Rattle.hunk_scatter.specs.Rows.{bases_of};
ghost use Rattle.hunk_scatter.specs.SoFar.{HoldsSoFar};
ghost use Rattle.hunk_scatter.specs.StoreContent.{StoreHolds};
ghost use Rattle.hunk_scatter.specs.declared.stream.Standing.{Standing};

/// No text that goes on from a position has fewer longwords to come than it says, and one has no
/// more: in the header up to the header's end, after it up to the file's.
#[tactic(auto, using(crate::proofs::LeastLaws::file_least, crate::proofs::LeastLaws::file_reached, crate::proofs::LeastLaws::header_least_is, crate::proofs::LeastLaws::header_reached))]
pub fn least_longs()
    ensures file { (v : LoadFileValue) (ws more : List ℕ) → IsLoadFile v → text v ≡ ws ++ more →
        least_longs (load_at ws) ≤ length more }
    ensures some_file { (v : LoadFileValue) (ws more : List ℕ) → IsLoadFile v →
        text v ≡ ws ++ more → is_after_header (load_at ws) ≡ true →
        (u : LoadFileValue) × (rest : List ℕ) × IsLoadFile u × (text u ≡ ws ++ rest)
        × (length rest ≡ least_longs (load_at ws)) }
    ensures header { (t : List TableEntry) (ws more : List ℕ) → IsHeaderTable t →
        header_words t ≡ ws ++ more → is_after_header (load_at ws) ≡ false →
        least_longs (load_at ws) ≤ length more }
    ensures some_header { (t : List TableEntry) (ws more : List ℕ) → IsHeaderTable t →
        header_words t ≡ ws ++ more → is_after_header (load_at ws) ≡ false →
        (u : List TableEntry) × (rest : List ℕ) × IsHeaderTable u × (header_words u ≡ ws ++ rest)
        × (length rest ≡ least_longs (load_at ws)) }
{}

/// What a loader has made of what it was fed. Its position is that to which the longwords lead.
/// Where the file is not whole, the next longword is of the hunk that it says, and the store holds
/// what was read of these longwords and no others. In each file that goes on from there the hunks
/// before that one stand in the store as they stay, then that hunk as far as its content and its
/// relocations came, and then zero bytes.
pub fn so_far()
    ensures position { (rows : List Row) (store fed : List ℕ) (s : Standing) →
        IsFed rows store s fed → s.state.position ≡ load_at (longs fed) }
    ensures hunk { (rows : List Row) (store fed : List ℕ) (s : Standing) → IsFed rows store s fed →
        is_done s.state.position ≡ false →
        IsPartAt Load fed (4 * (length fed / 4)) (Hunk s.state.hunk) }
    ensures reads { (rows : List Row) (store fed : List ℕ) (s : Standing) →
        IsFed rows store s fed → is_done s.state.position ≡ false →
        (p : Progress) × HasRead (longs fed) (More p) × StoreHolds (bases_of rows) (More p) store }
    ensures memory { (rows : List Row) (store fed : List ℕ) (s : Standing) →
        IsFed rows store s fed → is_done s.state.position ≡ false →
        (v : LoadFileValue) (rest : List ℕ) → IsLoadFile v → bytes_of (text v) ≡ fed ++ rest →
        HoldsSoFar rows store s.state.hunk v }
{}
