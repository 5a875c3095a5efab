//! What a longword of a file leads to, and all that is passed over behind it.
ghost use Rattle.std.specs.Prelude.{◌≡◌, ◌≤◌, ◌^◌};
ghost use Rattle.hunk_grammar.specs.ObjectPositions as object;
ghost use Rattle.hunk_grammar.specs.Positions.{step};
ghost use Rattle.hunk_c.specs.FrontPlaces.{longest_run, pass_longest_run};

use hunk_grammar::{
    ObjectPosition, ObjectStride, OpenHunk, Phase, Position, WordPlace, by_kind, by_phase,
};
use hunk_words::BlockWord;

// ---- Load files.

/// What a longword of a load file that is not refused leads to.
#[derive(Clone, Copy)]
pub(crate) struct LoadStride {
    /// How many longwords come after it within which no block ends.
    pub run: u64,
    /// The position after these.
    pub after: Position,
}

/// Where the longword leads. The phases are distinguished here, once for all that is asked of them.
#[inline(always)]
pub(crate) fn load_stride(position: Position, word: u32) -> LoadStride
    ensures run { result.run ≡ longest_run (step position word) }
    ensures after { result.after ≡ pass_longest_run (step position word) }
    ensures bound { result.run ≤ 2 ^ 32 }
{
    let Position::Body(hunk, phase) = position else {
        return load_stride_at(position, word);
    };
    macro_rules! at {
        ($phase:expr) => {
            load_stride_at(Position::Body(hunk, $phase), word)
        };
    }
    by_phase!(phase, load_stride_by_kind(position, word), at)
}

/// The same at a block word, whose kinds are distinguished here.
#[inline(always)]
fn load_stride_by_kind(position: Position, word: u32) -> LoadStride
    ensures run { result.run ≡ longest_run (step position word) }
    ensures after { result.after ≡ pass_longest_run (step position word) }
    ensures bound { result.run ≤ 2 ^ 32 }
{
    by_kind!(BlockWord::of(word).kind(), load_stride_at(position, word))
}

/// The same, with no phase distinguished beforehand.
#[inline(always)]
fn load_stride_at(position: Position, word: u32) -> LoadStride
    ensures run { result.run ≡ longest_run (step position word) }
    ensures after { result.after ≡ pass_longest_run (step position word) }
    ensures bound { result.run ≤ 2 ^ 32 }
{
    let next = position.step(word);
    LoadStride {
        run: longest_run(next),
        after: pass_longest_run(next),
    }
}

/// How many longwords come at least within which no block ends.
#[inline(always)]
fn longest_run(position: Position) -> u64
    ensures value { result ≡ longest_run position }
    ensures bound { result ≤ 2 ^ 32 }
{
    match position {
        Position::Body(_, phase) => phase.longest_run(),
        _ => 0,
    }
}

/// After all of them.
#[inline(always)]
fn pass_longest_run(position: Position) -> Position
    ensures { result ≡ pass_longest_run position }
{
    let Position::Body(hunk, phase) = position else {
        return position;
    };
    match phase {
        Phase::Content { longs: _, owed: _ } => {
            let hunk = OpenHunk {
                has_content: true,
                ..hunk
            };
            Position::Body(hunk, Phase::BlockWord)
        }
        Phase::Payload { owed: _ } => Position::Body(hunk, Phase::BlockWord),
        Phase::Offset { target: _, owed: _ } => Position::Body(hunk, Phase::GroupCount),
        Phase::Symbol { owed: _ } => Position::Body(hunk, Phase::EntryWord),
        Phase::ExtFront { owed: _ } => Position::Body(hunk, Phase::ExtCount),
        Phase::ExtRest { owed: _ } => Position::Body(hunk, Phase::ExtWord),
        _ => position,
    }
}

// ---- Object files.

/// What a longword of an object file that is not refused leads to.
#[inline(always)]
pub(crate) fn object_stride(position: ObjectPosition, word: u32) -> ObjectStride
    ensures run { result.run ≡ object.run (object.step position word) }
    ensures after { result.after ≡ object.pass_run (object.step position word) }
    ensures bound { result.run ≤ 2 ^ 32 }
{
    let next = position.step(word);
    ObjectStride {
        run: object_run(next),
        after: pass_object_run(next),
    }
}

/// How many longwords come at least within which no block ends.
#[inline(always)]
fn object_run(position: ObjectPosition) -> u64
    ensures value { result ≡ object.run position }
    ensures bound { result ≤ 2 ^ 32 }
{
    match position {
        ObjectPosition::UnitName { owed } => u64::from(owed) + 1,
        ObjectPosition::Block { after: _, phase } => phase.longest_run(),
        _ => 0,
    }
}

/// After all of them.
#[inline(always)]
fn pass_object_run(position: ObjectPosition) -> ObjectPosition
    ensures { result ≡ object.pass_run position }
{
    match position {
        ObjectPosition::UnitName { owed: _ } => ObjectPosition::Word(WordPlace::BetweenHunks),
        ObjectPosition::Block { after, phase } => match phase.pass_longest_run() {
            Some(phase) => ObjectPosition::Block { after, phase },
            None => ObjectPosition::Word(after),
        },
        _ => position,
    }
}
