//! Positions in files of both kinds that have wide spellings.
ghost use Rattle.std.specs.Prelude.{◌≡◌, ◌≤◌, ◌^◌};
ghost use Rattle.hunk_grammar.specs.ObjectPositions.{pass_run, run};
ghost use Rattle.hunk_wide.specs.Longwords.{after_load_run, after_object_short, after_short};
ghost use Rattle.hunk_wide.specs.Longwords.{after_straight, straight_longs};

use hunk_grammar::{ObjectPosition, OpenHunk, Phase, Position, WordPlace};

/// What the next longword of a file is for.
#[derive(Clone, Copy)]
pub enum FilePosition {
    /// In a load file, or where a file begins.
    Load(Position),
    /// In an object file, after its first longword.
    Object(ObjectPosition),
}

impl FilePosition {
    /// At the block word after a block of relocations in this hunk of a load file.
    #[inline(always)]
    pub(crate) fn after_short(hunk: OpenHunk) -> FilePosition
        ensures { result ≡ after_short hunk }
    {
        FilePosition::Load(Position::Body(hunk, Phase::BlockWord))
    }

    /// The same in an object file, where the block stands at this place.
    #[inline(always)]
    pub(crate) fn after_object_short(place: WordPlace) -> FilePosition
        ensures { result ≡ after_object_short place }
    {
        let has_content = match place {
            WordPlace::InHunk { has_content } => has_content,
            WordPlace::BeforeUnits | WordPlace::BetweenHunks => false,
        };
        let after = WordPlace::InHunk { has_content };
        FilePosition::Object(ObjectPosition::Word(after))
    }

    /// How many longwords come at least that are given out as they are, whatever they have.
    #[inline(always)]
    pub(crate) fn straight_longs(self) -> u64
        ensures value { result ≡ straight_longs self }
        ensures bound { result ≤ 2 ^ 32 }
    {
        match self {
            FilePosition::Load(Position::Body(_, phase)) => phase.longest_run(),
            FilePosition::Load(_) => 0,
            FilePosition::Object(position) => object_run(position),
        }
    }

    /// After all of them.
    #[inline(always)]
    pub(crate) fn after_straight(self) -> FilePosition
        ensures { result ≡ after_straight self }
    {
        match self {
            FilePosition::Load(position) => FilePosition::Load(after_load_run(position)),
            FilePosition::Object(position) => FilePosition::Object(after_object_run(position)),
        }
    }
}

/// After all longwords that are given out as they are.
#[inline(always)]
fn after_load_run(position: Position) -> Position
    ensures { result ≡ after_load_run position }
{
    match position {
        Position::Body(hunk, phase) => match phase {
            Phase::Content { longs: _, owed: _ } => {
                let hunk = OpenHunk {
                    has_content: true,
                    ..hunk
                };
                Position::Body(hunk, Phase::BlockWord)
            }
            Phase::Payload { owed: _ } => Position::Body(hunk, Phase::BlockWord),
            _ => match phase.pass_longest_run() {
                Some(next) => Position::Body(hunk, next),
                None => unreachable!(),
            },
        },
        _ => position,
    }
}

/// How many of an object file come at least.
#[inline(always)]
pub(crate) fn object_run(position: ObjectPosition) -> u64
    ensures value { result ≡ run position }
    ensures bound { result ≤ 2 ^ 32 }
{
    match position {
        ObjectPosition::UnitName { owed } => u64::from(owed) + 1,
        ObjectPosition::Block { after: _, phase } => phase.longest_run(),
        _ => 0,
    }
}

/// After all of these.
#[inline(always)]
pub(crate) fn after_object_run(position: ObjectPosition) -> ObjectPosition
    ensures { result ≡ pass_run position }
{
    match position {
        ObjectPosition::UnitName { owed: _ } => ObjectPosition::Word(WordPlace::BetweenHunks),
        ObjectPosition::Block { after, phase } => match phase.pass_longest_run() {
            Some(phase) => ObjectPosition::Block { after, phase },
            None => ObjectPosition::Word(after),
        },
        _ => position,
    }
}
