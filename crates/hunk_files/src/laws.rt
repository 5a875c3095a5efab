//! Laws over the definitions alone: each function does nothing, and its contract is the law.
ghost use Rattle.std.specs.Prelude.{◌≡◌, ◌≤◌, ℕ, List, [], ◌∷◌, ◌++◌, length, map, true, IsTrue, Some, None, ◌⊎◌, ◌↔◌};
ghost use Rattle.std.specs.List.{AllByRecursion};
ghost use Rattle.hunk_words.specs.Longs.{IsLong, IsBytes, longs, bytes_of};
ghost use Rattle.hunk_words.specs.declared.reason.Reason.{Reason};
ghost use Rattle.hunk_files.specs.LoadFile.{HunkValue, LoadFileValue, IsHunk, IsLoadFile};
ghost use Rattle.hunk_grammar.specs.Roles.{Role, refuse};
ghost use Rattle.hunk_files.specs.LoadText.{labelled, table, text};
ghost use Rattle.hunk_files.specs.Fault.{Expects, IsCompleted, BeginsWithLoadFile, HasRefusal, IsTruncated};
ghost use Rattle.hunk_files.specs.Fault.{HasFault, is_word_refusal};
ghost use Rattle.hunk_files.specs.Image.{content, relocations, offsets, image};
ghost use Rattle.hunk_files.specs.Overlap.{AreApart};
ghost use Rattle.hunk_files.specs.SumImage.{IsSumImage};
ghost use Rattle.hunk_files.specs.ObjectFile.{ObjectFileValue, IsNoObjectFile, IsObjectFile, object_text};
ghost use Rattle.hunk_files.specs.ObjectFault.{HasObjectFault, IsTruncatedObject, objects, units_labelled};
ghost use Rattle.hunk_grammar.specs.ObjectRoles.{ObjectRole, refuse_object};
ghost use Rattle.hunk_blocks.specs.Faults.{Expects as ExpectsOf, HasRefusal as RefusalOf, IsFront, words};
ghost use Rattle.hunk_files.specs.Findings.{findings};
ghost use Rattle.hunk_files.specs.PlacedFindings.{StandsInPlace, placed_findings};
ghost use Rattle.hunk_files.specs.Strip.{strip_file, strip_object};
ghost use Rattle.hunk_blocks.specs.AlongText.{GoesAlong};
ghost use Rattle.hunk_files.specs.Machines.{EndsHunk, is_free, is_free_in_object, leading, leads_to, load_at};
ghost use Rattle.hunk_files.specs.Machines.{object_at};
ghost use Rattle.hunk_files.specs.Machines.{refuse_in_load, refuse_in_object};
ghost use Rattle.hunk_files.specs.Tables.{header_text};
ghost use Rattle.hunk_files.specs.FileParts.{IsPartAt};
ghost use Rattle.hunk_files.specs.FileSteps.{Finished, More, Next, Progress, role_of};
ghost use Rattle.hunk_files.specs.ReadFiles.{IsOf, words_of};
ghost use Rattle.hunk_files.specs.WordsRead.{HasRead};
ghost use Rattle.hunk_grammar.specs.declared.object_position.WordPlace.TheVariants.{BeforeUnits, BetweenHunks};
ghost use Rattle.hunk_grammar.specs.ObjectPositions as object;
ghost use Rattle.hunk_grammar.specs.declared.object_position.ObjectPosition.{ObjectPosition};
ghost use Rattle.hunk_grammar.specs.declared.object_position.ObjectPosition.TheVariants as places;
ghost use Rattle.hunk_files.specs.declared.part.Part.{Part};
ghost use Rattle.hunk_grammar.specs.Positions as load;
ghost use Rattle.hunk_grammar.specs.declared.file_kind.Sniff.{Sniff};
ghost use Rattle.hunk_grammar.specs.declared.position.Position.{Position};
ghost use Rattle.hunk_grammar.specs.declared.position.Position.TheVariants as positions;

/// No load text is a proper prefix of another, one text has one value, and the longwords before a
/// place determine its role.
#[tactic(auto, using(crate::proofs::walk::Scan::one_value))]
pub fn load_prefix()
    ensures one_value { (a b : LoadFileValue) (more : List ℕ) → IsLoadFile a → IsLoadFile b →
        text a ++ more ≡ text b → (a ≡ b) × (more ≡ []) }
    ensures one_role { (before : List ℕ) (r s : Role) → Expects before r → Expects before s
        → r ≡ s }
{}

/// A longword that is not refused at its place goes on to a load text, as the roles that follow
/// complete it.
pub fn complete()
    ensures { (before : List ℕ) (role : Role) (word : ℕ) → Expects before role → IsLong word →
        refuse role word ≡ None → IsCompleted (before ++ word ∷ []) }
{}

/// No longword of a load text is refused.
#[tactic(auto, using(crate::proofs::walk::Scan::none_refused))]
pub fn no_refusal()
    ensures { (v : LoadFileValue) → IsLoadFile v →
        AllByRecursion (λ l. refuse l.0 l.1 ≡ None) (labelled v) }
{}

/// Of every list of bytes just one of three holds: it begins with a load text, a longword of it is
/// refused, or it ends too soon. The fault is one, and the first.
#[tactic(auto, using(crate::proofs::walk::Scan::some_outcome))]
pub fn one_outcome()
    ensures some { (bytes : List ℕ) → IsBytes bytes →
        BeginsWithLoadFile bytes ⊎ ((at : ℕ) × (reason : Reason) × HasFault bytes at reason) }
    ensures one { (bytes : List ℕ) → IsBytes bytes
        → (at : ℕ) (reason : Reason) (at2 : ℕ) (reason2 : Reason) →
        HasFault bytes at reason → HasFault bytes at2 reason2 → (at ≡ at2) × (reason ≡ reason2) }
    ensures not_both { (bytes : List ℕ) (at : ℕ) (reason : Reason) →
        BeginsWithLoadFile bytes → HasFault bytes at reason → ⊥ }
    ensures of_word { (bytes : List ℕ) (at : ℕ) (reason : Reason) → HasRefusal bytes at reason →
        IsTrue (is_word_refusal reason) }
    ensures not_truncated { (bytes : List ℕ) → IsBytes bytes
        → (at : ℕ) (reason : Reason) (at2 : ℕ) →
        HasRefusal bytes at reason → IsTruncated bytes at2 → ⊥ }
{}

/// Where no two offsets of a hunk's relocations are 1 to 3 bytes apart, its memory is its content
/// with the bases of each offset's targets added, and nothing else is. An offset may be named more
/// than once.
pub fn sum_image()
    ensures sums { (hunks : ℕ) (h : HunkValue) (bases : List ℕ) → IsHunk hunks h →
        AreApart (offsets (relocations h)) → IsSumImage bases h (image bases h) }
    ensures one { (hunks : ℕ) (h : HunkValue) (bases : List ℕ) (memory : List ℕ) → IsHunk hunks h →
        AreApart (offsets (relocations h)) → IsSumImage bases h memory → memory ≡ image bases h }
{}

/// What is stripped is a load file with the same table, content and relocations, and so with the
/// same memory wherever the hunks lie.
#[tactic(auto, using(crate::proofs::strip::StripLaws::file_kept, crate::proofs::strip::StripLaws::table_kept, crate::proofs::strip::StripLaws::contents_kept, crate::proofs::strip::StripLaws::all_relocations_kept, crate::proofs::strip::StripLaws::images_kept))]
pub fn strip_image()
    ensures valid { (v : LoadFileValue) → IsLoadFile v → IsLoadFile (strip_file v) }
    ensures table { (v : LoadFileValue) → table (strip_file v) ≡ table v }
    ensures content { (v : LoadFileValue) → map content (strip_file v) ≡ map content v }
    ensures relocations { (v : LoadFileValue) → map relocations (strip_file v) ≡ map relocations v }
    ensures image { (v : LoadFileValue) (bases : List ℕ) →
        map (image bases) (strip_file v) ≡ map (image bases) v }
{}

/// One object text has one value.
#[tactic(auto, using(crate::proofs::cuts::UnitCutLaws::object_value))]
pub fn object_value()
    ensures { (a b : ObjectFileValue) → IsObjectFile a → IsObjectFile b →
        object_text a ≡ object_text b → a ≡ b }
{}

/// What is stripped is an object file with the same findings.
#[tactic(auto, using(crate::proofs::strip::StripLaws::findings_kept))]
pub fn strip_findings()
    ensures valid { (o : ObjectFileValue) → IsObjectFile o → IsObjectFile (strip_object o) }
    ensures findings { (o : ObjectFileValue) → findings (strip_object o) ≡ findings o }
{}

/// Without their places, placed findings are the findings; at the place of each stands its offset.
#[tactic(auto, using(crate::proofs::findings::PlacedFindingLaws::findings_placed, crate::proofs::findings::PlacedOffsets::findings_stand))]
pub fn finding_places()
    ensures findings { (o : ObjectFileValue) → map (λ f. f.value) (placed_findings o) ≡ findings o }
    ensures offsets { (o : ObjectFileValue) → IsObjectFile o →
        AllByRecursion (StandsInPlace (object_text o)) (placed_findings o) }
{}

/// Of every list of bytes just one of three holds: it is the text of an object file, all of it, a
/// longword of it is refused, or it ends too soon. The fault is one, and the first. A longword that
/// is not refused goes on to an object file, and one that is refused to none.
#[tactic(auto, using(crate::proofs::object_walk::ObjectOutcome::some_outcome))]
pub fn object_fault()
    ensures some { (bytes : List ℕ) → IsBytes bytes →
        ((o : ObjectFileValue) × IsObjectFile o × (bytes ≡ bytes_of (object_text o)))
        ⊎ ((at : ℕ) × (reason : Reason) × HasObjectFault bytes at reason) }
    ensures one { (bytes : List ℕ) (at at2 : ℕ) (reason reason2 : Reason) →
        HasObjectFault bytes at reason → HasObjectFault bytes at2 reason2 →
        (at ≡ at2) × (reason ≡ reason2) }
    ensures none { (bytes : List ℕ) (at : ℕ) (reason : Reason) →
        HasObjectFault bytes at reason → IsNoObjectFile bytes }
    ensures not_truncated { (bytes : List ℕ) (at : ℕ) (reason : Reason) (at2 : ℕ) →
        RefusalOf objects (longs bytes) at reason → IsTruncatedObject bytes at2 → ⊥ }
    ensures complete { (before : List ℕ) (role : ObjectRole) (word : ℕ) →
        ExpectsOf objects before role → IsLong word → refuse_object role word ≡ None →
        IsFront objects (before ++ word ∷ []) }
    ensures refused { (before : List ℕ) (role : ObjectRole) (word : ℕ) (reason : Reason) →
        ExpectsOf objects before role → refuse_object role word ≡ Some reason →
        IsFront objects (before ++ word ∷ []) → ⊥ }
{}

/// The machines of positions are those of the formats: along the text of each file the test is that
/// of each longword's role, the steps lead on, and the end is where a file may end.
#[tactic(auto, using(crate::proofs::walk::Machines::load_along, crate::proofs::walk::Machines::object_along))]
pub fn machines()
    ensures load { (v : LoadFileValue) → IsLoadFile v →
        GoesAlong refuse_in_load refuse load.step positions.FirstLong (labelled v) positions.Done }
    ensures object { (o : ObjectFileValue) → IsObjectFile o →
        GoesAlong refuse_in_object refuse_object object.step
        (places.Word BeforeUnits) (units_labelled BeforeUnits o) (places.Word BetweenHunks) }
{}

/// A place is in one part of a file alone.
pub fn one_part()
    ensures { (kind : Sniff) (bytes : List ℕ) (place : ℕ) (a b : Part) →
        IsPartAt kind bytes place a → IsPartAt kind bytes place b → a ≡ b }
{}

/// What a reader of load files has read is known by the texts alone. All is read just where it is
/// the text of a load file, and some of one just where a load text begins so and goes on. What is
/// told of it spells the longwords, and is in each file that goes on from there.
pub fn words_read()
    ensures whole { (ws : List ℕ) (v : LoadFileValue) →
        HasRead ws (Finished v) ↔ (IsLoadFile v × (text v ≡ ws)) }
    ensures some { (ws : List ℕ) (role : Role) → Expects ws role →
        (p : Progress) × HasRead ws (More p) }
    ensures goes_on { (ws : List ℕ) (p : Progress) → HasRead ws (More p) → Expects ws (role_of p) }
    ensures one { (ws : List ℕ) (n m : Next) → HasRead ws n → HasRead ws m → n ≡ m }
    ensures spells { (ws : List ℕ) (p : Progress) → HasRead ws (More p) → words_of p ≡ ws }
    ensures tells { (ws more : List ℕ) (p : Progress) (v : LoadFileValue) → HasRead ws (More p) →
        IsLoadFile v → text v ≡ ws ++ more → IsOf v p }
{}

/// After longwords of a load file, their position says where the file ends, where its header does,
/// and where a hunk does, so that the next opens or the file is whole.
pub fn load_places()
    ensures end { (v : LoadFileValue) (ws more : List ℕ) → IsLoadFile v → text v ≡ ws ++ more →
        load.is_done (load_at ws) ≡ true ↔ (more ≡ []) }
    ensures header { (v : LoadFileValue) (ws more : List ℕ) → IsLoadFile v → text v ≡ ws ++ more →
        load.is_after_header (load_at ws) ≡ true
        ↔ ((rest : List ℕ) × (ws ≡ header_text v ++ rest)) }
    ensures hunks { (v : LoadFileValue) (ws more : List ℕ) → IsLoadFile v → text v ≡ ws ++ more →
        load.is_between_hunks (load_at ws) ≡ true ↔ EndsHunk v ws }
{}

/// The run of a position is the longwords that come next and may be any: those of a payload, and of
/// a name and the value after it. Whatever they are, `pass` says where they lead.
pub fn load_runs()
    ensures run { (v : LoadFileValue) (done more : List (Role × ℕ)) → IsLoadFile v →
        labelled v ≡ done ++ more → load.run (load_at (words done)) ≡ leading is_free more }
    ensures free { (role : Role) (word : ℕ) → is_free role ≡ true → refuse role word ≡ None }
    ensures pass { (p : Position) (ws : List ℕ) → length ws ≤ load.run p →
        leads_to load.step p ws ≡ load.pass p (length ws) }
{}

/// The like of an object file, which may end where its longwords so far are one.
pub fn object_places()
    ensures end { (o : ObjectFileValue) (ws more : List ℕ) → IsObjectFile o →
        object_text o ≡ ws ++ more → object.may_end (object_at ws) ≡ true
        ↔ ((u : ObjectFileValue) × IsObjectFile u × (object_text u ≡ ws)) }
    ensures run { (o : ObjectFileValue) (done more : List (ObjectRole × ℕ)) → IsObjectFile o →
        units_labelled BeforeUnits o ≡ done ++ more →
        object.run (object_at (words done)) ≡ leading is_free_in_object more }
    ensures free { (role : ObjectRole) (word : ℕ) → is_free_in_object role ≡ true →
        refuse_object role word ≡ None }
    ensures after { (p : ObjectPosition) (ws : List ℕ) → length ws ≡ object.run p →
        leads_to object.step p ws ≡ object.pass_run p }
{}
