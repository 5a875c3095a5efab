//! Positions in an object file.
ghost use Rattle.std.specs.Prelude.{◌≡◌, ◌≤◌, ◌^◌, Some, None, IfOk, IfErr, OnOk};
ghost use Rattle.hunk_words.specs.Bits.{kind};
ghost use Rattle.hunk_grammar.specs.declared.mode.Mode.TheVariants as modes;
ghost use Rattle.hunk_grammar.specs.Modes.{refuse_alone_word};
ghost use Rattle.hunk_grammar.specs.Standings.{first_of, is_content, standing_of_kind};
ghost use Rattle.hunk_grammar.specs.ObjectRoles.{has_content, refuse_object, refuse_object_word, refuse_unit};
ghost use Rattle.hunk_grammar.specs.ObjectPositions as steps;
ghost use Rattle.hunk_grammar.specs.ObjectPositions.{place_next, refuse_place, role_at};

use crate::by_kind;
use crate::mode::Mode;
use crate::phase::Phase;
use crate::refusal::refuse_place;
use hunk_words::{BlockWord, Kind, NAME_LIMIT, Reason, UNIT_WORD};

/// Where a block word stands.
#[derive(Clone, Copy)]
pub enum WordPlace {
    /// At the start of the file, where the first unit begins.
    BeforeUnits,
    /// After a unit's name or a hunk, where a hunk opens, the next unit begins, or the file ends.
    BetweenHunks,
    /// In an open hunk.
    InHunk { has_content: bool },
}

/// What the next longword of an object file is for.
#[derive(Clone, Copy)]
pub enum ObjectPosition {
    /// The word of a block or of a unit.
    Word(WordPlace),
    /// The count of a unit's name, in longwords.
    UnitCount,
    /// Of a unit's name. `owed` more follow the next.
    UnitName { owed: u32 },
    /// Of a block, after its word. The next block word stands at `after`.
    Block { after: WordPlace, phase: Phase },
}

/// What a longword that is not refused leads to.
#[derive(Clone, Copy)]
pub struct ObjectStride {
    /// How many longwords come after it that no test looks at.
    pub run: u64,
    /// The position after these.
    pub after: ObjectPosition,
}

impl WordPlace {
    /// Whether the open hunk has its content block.
    #[inline(always)]
    fn has_content(self) -> bool
        ensures { result ≡ has_content self }
    {
        match self {
            WordPlace::InHunk { has_content } => has_content,
            _ => false,
        }
    }

    /// Why no unit begins here, where none does.
    #[inline(always)]
    fn refuse_unit(self) -> Option<Reason>
        ensures { result ≡ refuse_unit self }
    {
        match self {
            WordPlace::InHunk { has_content: _ } => Some(Reason::Misplaced),
            _ => None,
        }
    }

    /// Why a block of this kind may not stand here, where it may not.
    #[inline(always)]
    fn refuse_block(self, kind: Kind) -> Option<Reason>
        ensures { result ≡ refuse_place self (standing_of_kind kind) }
    {
        match self {
            WordPlace::BeforeUnits => Some(Reason::Misplaced),
            _ => refuse_place(kind, self.has_content()),
        }
    }

    /// Why the word that stands here is refused, where it is.
    #[inline(always)]
    fn refuse(self, word: u32) -> Option<Reason>
        ensures { result ≡ refuse_object_word self word }
    {
        if word == UNIT_WORD {
            self.refuse_unit()
        } else {
            self.refuse_block_word(BlockWord::of(word))
        }
    }

    /// Why the word of a block is refused: wherever the block stands, or else for its place.
    #[inline(always)]
    fn refuse_block_word(self, word: BlockWord) -> Option<Reason>
        ensures { result ≡ first_of (refuse_alone_word modes.Object word)
            (refuse_place self (standing_of_kind (kind word))) }
    {
        match Mode::Object.refuse(word) {
            Some(reason) => Some(reason),
            None => self.refuse_block(word.kind()),
        }
    }

    /// After a block of this kind.
    #[inline(always)]
    fn after(self, kind: Kind) -> WordPlace
        ensures { result ≡ place_next self (standing_of_kind kind) }
    {
        match kind {
            Kind::End => WordPlace::BetweenHunks,
            _ => WordPlace::InHunk {
                has_content: self.has_content() || is_content(kind),
            },
        }
    }
}

/// Whether a block of this kind is the content of its hunk.
#[inline(always)]
fn is_content(kind: Kind) -> bool
    ensures { result ≡ is_content (standing_of_kind kind) }
{
    matches!(kind, Kind::Code | Kind::Data | Kind::Bss)
}

/// In a block at this phase, or after it.
#[inline(always)]
fn within(after: WordPlace, phase: Option<Phase>) -> ObjectPosition
    ensures { result ≡ steps.within after phase }
{
    match phase {
        Some(phase) => ObjectPosition::Block { after, phase },
        None => ObjectPosition::Word(after),
    }
}

/// Where `owed` longwords of a name are still to come.
#[inline(always)]
fn owe_name(owed: u32) -> ObjectPosition
    ensures { result ≡ steps.owe_name owed }
{
    if owed == 0 {
        ObjectPosition::Word(WordPlace::BetweenHunks)
    } else {
        ObjectPosition::UnitName { owed: owed - 1 }
    }
}

impl ObjectPosition {
    /// Why the longword is refused, where it is.
    ///
    /// A unit's header is that of The AmigaDOS Manual and `dos/doshunks.h`.
    #[tactic(auto, using(crate::proofs::ObjectWords::within_split))]
    #[inline(always)]
    fn refuse(self, word: u32) -> Option<Reason>
        ensures { result ≡ refuse_object (role_at self) word }
    {
        match self {
            ObjectPosition::Word(place) => place.refuse(word),
            ObjectPosition::UnitCount if word >= NAME_LIMIT => Some(Reason::NameWord),
            ObjectPosition::Block { after: _, phase } => phase.refuse(word),
            _ => None,
        }
    }

    /// After a longword that is not refused.
    #[inline(always)]
    pub fn step(self, word: u32) -> ObjectPosition
        ensures { result ≡ steps.step self word }
    {
        match self {
            ObjectPosition::Word(_) if word == UNIT_WORD => ObjectPosition::UnitCount,
            ObjectPosition::Word(place) => {
                let kind = BlockWord::of(word).kind();
                within(place.after(kind), Phase::begin(kind))
            }
            ObjectPosition::UnitCount => owe_name(word),
            ObjectPosition::UnitName { owed } => owe_name(owed),
            ObjectPosition::Block { after, phase } => within(after, phase.step(word)),
        }
    }

    /// What the longword leads to, or why it is refused. The kinds of block words are distinguished
    /// here, once for all that is asked of them.
    #[inline(always)]
    pub fn stride_from(self, word: u32) -> Result<ObjectStride, Reason>
        ensures passes { OnOk result (refuse_object (role_at self) word ≡ None) }
        ensures run { IfOk result (λ s. s.run ≡ steps.run (steps.step self word)) }
        ensures after { IfOk result (λ s. s.after ≡ steps.pass_run (steps.step self word)) }
        ensures bound { IfOk result (λ s. s.run ≤ 2 ^ 32) }
        ensures refusal { IfErr result (λ reason. refuse_object (role_at self) word ≡ Some reason) }
    {
        match self {
            ObjectPosition::Word(_) if word != UNIT_WORD => {
                by_kind!(BlockWord::of(word).kind(), self.stride_at(word))
            }
            _ => self.stride_at(word),
        }
    }

    /// The same, with no kind distinguished beforehand.
    #[inline(always)]
    fn stride_at(self, word: u32) -> Result<ObjectStride, Reason>
        ensures passes { OnOk result (refuse_object (role_at self) word ≡ None) }
        ensures run { IfOk result (λ s. s.run ≡ steps.run (steps.step self word)) }
        ensures after { IfOk result (λ s. s.after ≡ steps.pass_run (steps.step self word)) }
        ensures bound { IfOk result (λ s. s.run ≤ 2 ^ 32) }
        ensures refusal { IfErr result (λ reason. refuse_object (role_at self) word ≡ Some reason) }
    {
        if let Some(reason) = self.refuse(word) {
            return Err(reason);
        }
        let next = self.step(word);
        Ok(ObjectStride {
            run: next.run(),
            after: next.pass_run(),
        })
    }

    /// Whether the file may end here.
    #[inline(always)]
    pub fn may_end(self) -> bool
        ensures { result ≡ steps.may_end self }
    {
        matches!(self, ObjectPosition::Word(WordPlace::BetweenHunks))
    }

    /// How many longwords come at least that no test looks at.
    #[inline(always)]
    fn run(self) -> u64
        ensures value { result ≡ steps.run self }
        ensures bound { result ≤ 2 ^ 32 }
    {
        match self {
            ObjectPosition::UnitName { owed } => u64::from(owed) + 1,
            ObjectPosition::Block { after: _, phase } => phase.longest_run(),
            _ => 0,
        }
    }

    /// After all of them.
    #[inline(always)]
    fn pass_run(self) -> ObjectPosition
        ensures { result ≡ steps.pass_run self }
    {
        match self {
            ObjectPosition::UnitName { owed: _ } => ObjectPosition::Word(WordPlace::BetweenHunks),
            ObjectPosition::Block { after, phase } => within(after, phase.pass_longest_run()),
            _ => self,
        }
    }
}
