//! The header of a load file, passed over at once.
ghost use Rattle.std.specs.Prelude.{IfSome};
ghost use Rattle.hunk_words.specs.Longs.{longs};
ghost use Rattle.hunk_files.specs.Passing.{HasHeaderFront, IsFirstPlace, IsFrontPassed};

use crate::load::passing::{BlockPlace, after_rows};
use crate::load::walk::DeclaredHunk;
use hunk_grammar::{OpenHunk, Position, TABLE_AT, TABLE_SIZE_AT};
use hunk_words::word_at;

/// The number of hunks, where the bytes begin with the longwords of a header up to its table, none
/// of them is refused, and a longword follows. `None` says nothing of them.
pub fn header_hunks(bytes: &[u8]) -> Option<u32>
    ensures { IfSome result (HasHeaderFront (longs bytes.now)) }
{
    if bytes.len() / 4 <= TABLE_AT {
        return None;
    }
    let hunks = word_at(bytes, TABLE_SIZE_AT);
    if let Some(_) = Position::FirstLong.refuse(0, word_at(bytes, 0)) {
        return None;
    }
    if let Some(_) = Position::ResidentName.refuse(0, word_at(bytes, 1)) {
        return None;
    }
    if let Some(_) = Position::TableSize.refuse(0, hunks) {
        return None;
    }
    if let Some(_) = (Position::FirstHunk { hunks }).refuse(0, word_at(bytes, 3)) {
        return None;
    }
    if let Some(_) = (Position::LastHunk { hunks }).refuse(0, word_at(bytes, 4)) {
        return None;
    }
    Some(hunks)
}

/// The place at which the first hunk opens, where the header in front is whole and nothing of it is
/// refused. `None` says nothing of it.
#[inline(always)]
fn first_place(bytes: &[u8]) -> Option<BlockPlace>
    ensures { IfSome result (IsFirstPlace (longs bytes.now)) }
{
    let hunks = header_hunks(bytes)?;
    let (at, count) = after_rows(bytes, TABLE_AT, hunks);
    if count < hunks {
        return None;
    }
    Some(BlockPlace {
        at,
        hunk: OpenHunk {
            hunks,
            ahead: hunks - 1,
            has_content: false,
        },
        begun: false,
        entry: DeclaredHunk::at(bytes, TABLE_AT),
    })
}

/// The longword after the header, and the position and the entry of the open hunk there, where it is
/// whole and nothing of it is refused; else the start.
#[inline(always)]
pub(super) fn pass_front(bytes: &[u8]) -> (usize, Position, DeclaredHunk)
    ensures { IsFrontPassed (longs bytes.now) result.0 result.1 result.2 }
{
    if let Some(first) = first_place(bytes) {
        return (first.at, first.position(), first.entry);
    }
    let entry = DeclaredHunk {
        longs: 0,
        next: TABLE_AT,
    };
    (0, Position::FirstLong, entry)
}
