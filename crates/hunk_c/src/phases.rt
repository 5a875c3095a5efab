//! What a loader stands before, in numbers.
ghost use Rattle.std.specs.Prelude.{◌≡◌};
ghost use Rattle.hunk_c.specs.Loaders.{hunk_of, phase_in, phase_numbers, position_numbers};

use hunk_grammar::{OpenHunk, Phase, Position};

/// The phase of a loader inside a content.
pub(crate) const CONTENT: u32 = 7;

/// The phase of a loader before an offset.
pub(crate) const OFFSET: u32 = 11;

/// The phase of a loader inside a payload.
pub(crate) const PAYLOAD: u32 = 8;

/// The phase of a loader inside a symbol.
pub(crate) const SYMBOL: u32 = 13;

/// The phase of a loader whose file is whole.
pub(crate) const WHOLE: u32 = 14;

/// The phase of a number, with the longwords of a content or the target of offsets, and what is
/// owed.
#[inline(always)]
pub(crate) fn phase_in(number: u32, part: u32, owed: u32) -> Option<Phase>
    ensures { result ≡ phase_in number part owed }
{
    match number {
        1 => Some(Phase::FirstBlock),
        2 => Some(Phase::BlockWord),
        3 => Some(Phase::NameCount),
        4 => Some(Phase::LongCount),
        5 => Some(Phase::ContentSize),
        6 => Some(Phase::BssSize),
        7 => Some(Phase::Content { longs: part, owed }),
        8 => Some(Phase::Payload { owed }),
        9 => Some(Phase::GroupCount),
        10 => Some(Phase::Target { owed }),
        11 => Some(Phase::Offset { target: part, owed }),
        12 => Some(Phase::EntryWord),
        13 => Some(Phase::Symbol { owed }),
        _ => None,
    }
}

/// The number of a phase, with the longwords of a content or the target of offsets, and what is
/// owed.
#[inline(always)]
fn phase_numbers(phase: Phase) -> (u32, u32, u32)
    ensures { result ≡ phase_numbers phase }
{
    match phase {
        Phase::FirstBlock => (1, 0, 0),
        Phase::BlockWord => (2, 0, 0),
        Phase::NameCount => (3, 0, 0),
        Phase::LongCount => (4, 0, 0),
        Phase::ContentSize => (5, 0, 0),
        Phase::BssSize => (6, 0, 0),
        Phase::Content { longs, owed } => (7, longs, owed),
        Phase::Payload { owed } => (8, 0, owed),
        Phase::GroupCount => (9, 0, 0),
        Phase::Target { owed } => (10, 0, owed),
        Phase::Offset { target, owed } => (11, target, owed),
        Phase::EntryWord => (12, 0, 0),
        Phase::Symbol { owed } => (13, 0, owed),
        // Nothing is external in a load file: the number of no phase.
        Phase::ExtWord | Phase::ExtFront { .. } | Phase::ExtCount | Phase::ExtRest { .. } => {
            (0, 0, 0)
        }
    }
}

/// The open hunk, and the numbers of its phase. In a header and in EXT, where no loader of a body
/// stands, the number is that of no phase.
#[inline(always)]
pub(crate) fn numbers_of(position: Position) -> (OpenHunk, u32, u32, u32)
    ensures hunk { result.0 ≡ hunk_of position }
    ensures phase { result.1 ≡ (position_numbers position).0 }
    ensures part { result.2 ≡ (position_numbers position).1 }
    ensures owed { result.3 ≡ (position_numbers position).2 }
{
    let none = OpenHunk {
        hunks: 0,
        ahead: 0,
        has_content: false,
    };
    match position {
        Position::Body(hunk, phase) => {
            let (number, part, owed) = phase_numbers(phase);
            (hunk, number, part, owed)
        }
        Position::Done => (none, WHOLE, 0, 0),
        _ => (none, 0, 0, 0),
    }
}
