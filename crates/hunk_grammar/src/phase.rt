//! Positions within a block.
ghost use Rattle.std.specs.Prelude.{◌≡◌, ◌≤◌, ◌<◌, ◌^◌, Some};
ghost use Rattle.hunk_grammar.specs.Modes.{refuse_inside};
ghost use Rattle.hunk_grammar.specs.PhaseSteps as inside;
ghost use Rattle.hunk_grammar.specs.PhaseSteps.{part_at};

use crate::ext_kind::shape_of;
use crate::ext_shape::ExtShape;
use hunk_words::{BlockWord, Kind, NAME_LIMIT, Reason, SizeWord};

/// What the next longword of a block is for.
///
/// `owed` is how many more of the kind follow the next, except at a `Target`: `owed` + 1 offsets
/// follow it.
///
/// Source: The AmigaDOS Manual, `dos/doshunks.h`. Each rule that `docs/FORMAT.md` marks "own" is
/// this project's own choice.
#[derive(Clone, Copy)]
pub enum Phase {
    /// The word of the first block: the hunk opens here.
    FirstBlock,
    /// The word of a further block.
    BlockWord,
    /// The count of NAME, in longwords.
    NameCount,
    /// The count of DEBUG or of an advisory block, in longwords.
    LongCount,
    /// The size word of CODE or DATA. Its low 30 bits count longwords.
    ContentSize,
    /// The size word of BSS. Its low 30 bits count longwords.
    BssSize,
    /// Of a content of `longs` longwords.
    Content { longs: u32, owed: u32 },
    /// Of NAME, DEBUG or an advisory block.
    Payload { owed: u32 },
    /// The number of offsets of a group, or the 0 that ends the block.
    GroupCount,
    /// The number of the hunk that a group relocates to.
    Target { owed: u32 },
    /// An offset of a group, in bytes from the start of the hunk.
    Offset { target: u32, owed: u32 },
    /// The word of a symbol, or the 0 that ends the block.
    EntryWord,
    /// The name of a symbol, and the value after it.
    Symbol { owed: u32 },
    /// The word of an external entry, or the 0 that ends the block.
    ExtWord,
    /// Of an external entry up to its count of references: its name, and the size of a common block.
    ExtFront { owed: u32 },
    /// The count of the references of an external entry.
    ExtCount,
    /// Of an external entry up to its end: its references, or the name and the value of a definition.
    ExtRest { owed: u32 },
}

impl Phase {
    /// After a block word. `None` is the end of a block, here and below.
    ///
    /// The kinds that are refused do not matter.
    #[inline(always)]
    pub fn begin(kind: Kind) -> Option<Phase>
        ensures { result ≡ inside.begin kind }
    {
        match kind {
            Kind::Name => Some(Phase::NameCount),
            Kind::Code | Kind::Data => Some(Phase::ContentSize),
            Kind::Bss => Some(Phase::BssSize),
            Kind::Ext => Some(Phase::ExtWord),
            Kind::Symbol => Some(Phase::EntryWord),
            Kind::Debug | Kind::Unknown(_) => Some(Phase::LongCount),
            kind if kind.is_relocation() => Some(Phase::GroupCount),
            _ => None,
        }
    }

    /// After a longword of a block that is not refused.
    #[inline(always)]
    pub fn step(self, word: u32) -> Option<Phase>
        ensures { result ≡ inside.step self word }
    {
        match self {
            Phase::FirstBlock | Phase::BlockWord => Phase::begin(BlockWord::of(word).kind()),
            Phase::NameCount | Phase::LongCount if word == 0 => None,
            Phase::NameCount | Phase::LongCount => Some(Phase::Payload { owed: word - 1 }),
            Phase::ContentSize => match (SizeWord { word, extra: 0 }).longs() {
                0 => None,
                longs => Some(Phase::Content {
                    longs,
                    owed: longs - 1,
                }),
            },
            Phase::BssSize | Phase::Content { longs: _, owed: 0 } => None,
            Phase::Content { longs, owed } => Some(Phase::Content {
                longs,
                owed: owed - 1,
            }),
            Phase::Payload { owed: 0 } => None,
            Phase::Payload { owed } => Some(Phase::Payload { owed: owed - 1 }),
            Phase::GroupCount | Phase::EntryWord | Phase::ExtWord if word == 0 => None,
            Phase::GroupCount => Some(Phase::Target { owed: word - 1 }),
            Phase::Target { owed } => Some(Phase::Offset { target: word, owed }),
            Phase::Offset { target: _, owed: 0 } => Some(Phase::GroupCount),
            Phase::Offset { target, owed } => Some(Phase::Offset {
                target,
                owed: owed - 1,
            }),
            Phase::EntryWord => Some(Phase::Symbol {
                owed: word % NAME_LIMIT,
            }),
            Phase::Symbol { owed: 0 } => Some(Phase::EntryWord),
            Phase::Symbol { owed } => Some(Phase::Symbol { owed: owed - 1 }),
            Phase::ExtWord => Some(owe_shaped(shape_of(word), word % NAME_LIMIT)),
            Phase::ExtFront { owed: 0 } => Some(Phase::ExtCount),
            Phase::ExtFront { owed } => Some(Phase::ExtFront { owed: owed - 1 }),
            Phase::ExtCount if word == 0 => Some(Phase::ExtWord),
            Phase::ExtCount => Some(Phase::ExtRest { owed: word - 1 }),
            Phase::ExtRest { owed: 0 } => Some(Phase::ExtWord),
            Phase::ExtRest { owed } => Some(Phase::ExtRest { owed: owed - 1 }),
        }
    }

    /// How many longwords come at least that no test looks at.
    #[inline(always)]
    pub fn run(self) -> u64
        ensures value { result ≡ inside.run self }
        ensures bound { result ≤ 2 ^ 32 }
    {
        match self {
            Phase::Content { longs: _, owed }
            | Phase::Payload { owed }
            | Phase::Symbol { owed }
            | Phase::ExtFront { owed }
            | Phase::ExtRest { owed } => { u64::from(owed) + 1 }
            _ => 0,
        }
    }

    /// After one longword of a run and `more` of them.
    #[inline(always)]
    pub fn pass(self, more: u32) -> Option<Phase>
        requires { more < inside.run self }
        ensures { result ≡ inside.pass self more }
    {
        match self {
            Phase::Content { longs, owed } if more < owed => Some(Phase::Content {
                longs,
                owed: owed - more - 1,
            }),
            Phase::Payload { owed } if more < owed => Some(Phase::Payload {
                owed: owed - more - 1,
            }),
            Phase::Symbol { owed } if more < owed => Some(Phase::Symbol {
                owed: owed - more - 1,
            }),
            Phase::ExtFront { owed } if more < owed => Some(Phase::ExtFront {
                owed: owed - more - 1,
            }),
            Phase::ExtRest { owed } if more < owed => Some(Phase::ExtRest {
                owed: owed - more - 1,
            }),
            Phase::Content { longs: _, owed: _ } | Phase::Payload { owed: _ } => None,
            Phase::Symbol { owed: _ } => Some(Phase::EntryWord),
            Phase::ExtFront { owed: _ } => Some(Phase::ExtCount),
            Phase::ExtRest { owed: _ } => Some(Phase::ExtWord),
            _ => Some(self),
        }
    }

    /// How many longwords come at least that no test looks at outside load files, where offsets are
    /// not looked at either.
    #[inline(always)]
    pub fn longest_run(self) -> u64
        ensures value { result ≡ inside.longest_run self }
        ensures bound { result ≤ 2 ^ 32 }
    {
        match self {
            Phase::Offset { target: _, owed } => u64::from(owed) + 1,
            _ => self.run(),
        }
    }

    /// After all of them.
    #[inline(always)]
    pub fn pass_longest_run(self) -> Option<Phase>
        ensures { result ≡ inside.pass_longest_run self }
    {
        match self {
            Phase::Content { longs: _, owed: _ } | Phase::Payload { owed: _ } => None,
            Phase::Offset { target: _, owed: _ } => Some(Phase::GroupCount),
            Phase::Symbol { owed: _ } => Some(Phase::EntryWord),
            Phase::ExtFront { owed: _ } => Some(Phase::ExtCount),
            Phase::ExtRest { owed: _ } => Some(Phase::ExtWord),
            _ => Some(self),
        }
    }

    /// Why the longword after a block word is refused, where it is, in any file.
    #[inline(always)]
    pub fn refuse(self, word: u32) -> Option<Reason>
        ensures { result ≡ refuse_inside (part_at self) word }
    {
        match self {
            Phase::NameCount if word >= NAME_LIMIT => Some(Reason::NameWord),
            Phase::ExtWord if shape_of(word).is_none() => Some(Reason::ExtKind),
            _ => None,
        }
    }
}

/// Where a name of `longs` longwords is still to come, and what follows it.
#[inline(always)]
fn owe_shaped(shape: Option<ExtShape>, longs: u32) -> Phase
    requires { longs < 2 ^ 24 }
    ensures { Some result ≡ inside.owe_shaped shape longs }
{
    match shape {
        Some(ExtShape::Definition) => Phase::ExtRest { owed: longs },
        Some(ExtShape::References) if longs == 0 => Phase::ExtCount,
        Some(ExtShape::References) => Phase::ExtFront { owed: longs - 1 },
        Some(ExtShape::Common) => Phase::ExtFront { owed: longs },
        None if longs == 0 => Phase::ExtWord,
        None => Phase::ExtRest { owed: longs - 1 },
    }
}
