//! Laws over the definitions alone.
ghost use Rattle.hunk_words.specs.Longs.{IsBytes, IsLong, longs};
ghost use Rattle.hunk_words.specs.declared.reason.Reason.{Reason};
ghost use Rattle.hunk_grammar.specs.declared.mode.Mode.{Mode};
ghost use Rattle.hunk_blocks.specs.Begins.{BeginsWithBlock, BeginsWithNoBlock};
ghost use Rattle.hunk_blocks.specs.Faults.{Expects, HasBlockFault, HasRefusal, IsFront, IsTruncatedBlock};
ghost use Rattle.hunk_blocks.specs.Faults.{blocks, refuse_alone};
ghost use Rattle.std.specs.Prelude.{◌≡◌, List, [], ◌∷◌, ◌++◌, ℕ, Some, None, ◌⊎◌};
ghost use Rattle.hunk_blocks.specs.Values.{BlockValue, IsBlock};
ghost use Rattle.hunk_grammar.specs.BlockParts.{Part};
ghost use Rattle.hunk_blocks.specs.Parts.{block_parts, block_text};
ghost use Rattle.hunk_blocks.specs.AlongText.{GoesAlong, refuse_at, step_on};
ghost use Rattle.hunk_grammar.specs.declared.phase.Phase.TheVariants as phases;

/// No block begins another, and one text has one block.
///
/// So what was written is read again, whatever follows it, and what was read is written again byte
/// for byte. It holds of the blocks of both modes.
#[tactic(auto, using(crate::proofs::BlockPrefix::block_prefix))]
pub fn block_prefix()
    ensures { (a b : BlockValue) (more : List ℕ) → IsBlock a → IsBlock b →
        block_text a ++ more ≡ block_text b → (a ≡ b) × (more ≡ []) }
{}

/// Of every list of bytes just one of three holds: it begins with a block of the mode, a longword
/// of it is refused, or it ends too soon. The fault is one, and the first. A longword that is not
/// refused goes on to a block, and one that is refused to none.
#[tactic(auto, using(crate::proofs::BlockOutcome::word_goes_on, crate::proofs::OneBlockFault::no_block_goes_on))]
pub fn block_fault()
    ensures some { (mode : Mode) (bytes : List ℕ) → IsBytes bytes →
        ((b : BlockValue) × (size : ℕ) × BeginsWithBlock mode bytes b size)
        ⊎ ((at : ℕ) × (reason : Reason) × HasBlockFault mode bytes at reason) }
    ensures one { (mode : Mode) (bytes : List ℕ) (at at2 : ℕ) (reason reason2 : Reason) →
        HasBlockFault mode bytes at reason → HasBlockFault mode bytes at2 reason2 →
        (at ≡ at2) × (reason ≡ reason2) }
    ensures none { (mode : Mode) (bytes : List ℕ) (at : ℕ) (reason : Reason) →
        HasBlockFault mode bytes at reason → BeginsWithNoBlock mode bytes }
    ensures not_truncated { (mode : Mode) (bytes : List ℕ) (at : ℕ) (reason : Reason) (at2 : ℕ) →
        HasRefusal (blocks mode) (longs bytes) at reason → IsTruncatedBlock mode bytes at2 → ⊥ }
    ensures complete { (mode : Mode) (before : List ℕ) (role : Part) (word : ℕ) →
        Expects (blocks mode) before role → IsLong word → refuse_alone mode role word ≡ None →
        IsFront (blocks mode) (before ++ word ∷ []) }
    ensures refused { (mode : Mode) (before : List ℕ) (role : Part) (word : ℕ) (reason : Reason) →
        Expects (blocks mode) before role → refuse_alone mode role word ≡ Some reason →
        IsFront (blocks mode) (before ++ word ∷ []) → ⊥ }
{}

/// `Phase` is the machine of the format: along the text of each block its test is that of each
/// longword's part, its steps lead on, and after the last longword no phase is left.
pub fn block_machine()
    ensures { (mode : Mode) (b : BlockValue) → IsBlock b →
        GoesAlong (refuse_at mode) (refuse_alone mode) step_on
        (Some phases.BlockWord) (block_parts b) None }
{}
