//! The tests of the longwords of a load file.
ghost use Rattle.std.specs.Prelude.{◌≡◌, ◌+◌, ◌*◌, nat_lt, Some, None};
ghost use Rattle.hunk_grammar.specs.Roles.{refuse, refuse_part, refuse_word};
ghost use Rattle.hunk_grammar.specs.Positions.{place, role_at};
ghost use Rattle.hunk_grammar.specs.PhaseSteps.{part_at};
ghost use Rattle.hunk_grammar.specs.Standings.{refuse_standing, standing_of_kind};

use crate::mode::Mode;
use crate::phase::Phase;
use crate::position::{OpenHunk, Position};
use hunk_words::{
    BlockWord, HEADER_WORD, Kind, LIBRARY_WORD, MOST_HUNKS, NAME_LIMIT, Reason, SizeWord, UNIT_WORD,
};

impl Position {
    /// Why the longword is refused, where it is. `longs` is the number of longwords that the open
    /// hunk declares; outside the body it is not used.
    ///
    /// The header is that of The AmigaDOS Manual and `dos/doshunks.h`. To refuse resident names,
    /// another first hunk than 0, another last hunk than the table size minus 1, and more hunks
    /// than `MOST_HUNKS` is this project's own choice.
    #[inline(always)]
    pub fn refuse(self, longs: u32, word: u32) -> Option<Reason>
        ensures { result ≡ refuse (role_at longs self) word }
    {
        match self {
            Position::FirstLong => match word {
                HEADER_WORD => None,
                UNIT_WORD => Some(Reason::IsObject),
                LIBRARY_WORD => Some(Reason::Library),
                _ => Some(Reason::NotLoadFile),
            },
            Position::ResidentName => (word != 0).then_some(Reason::Resident),
            Position::TableSize if word == 0 => Some(Reason::NoHunks),
            Position::TableSize => (word > MOST_HUNKS).then_some(Reason::TooManyHunks),
            Position::FirstHunk { hunks: _ } => (word != 0).then_some(Reason::FirstHunk),
            Position::LastHunk { hunks } => {
                (u64::from(word) + 1 != u64::from(hunks)).then_some(Reason::LastHunk)
            }
            Position::Body(hunk, phase) => refuse_in_body(hunk, phase, longs, word),
            _ => None,
        }
    }
}

/// Why a longword of the body is refused.
#[inline(always)]
fn refuse_in_body(hunk: OpenHunk, phase: Phase, longs: u32, word: u32) -> Option<Reason>
    ensures { result ≡ refuse_part (place longs hunk) (part_at phase) word }
{
    match phase {
        Phase::FirstBlock | Phase::BlockWord => refuse_block_word(word, hunk.has_content),
        Phase::NameCount => (word >= NAME_LIMIT).then_some(Reason::NameWord),
        Phase::ContentSize | Phase::BssSize => {
            (SizeWord { word, extra: 0 }.longs() > longs).then_some(Reason::ContentTooLong)
        }
        Phase::GroupCount => (word != 0 && longs == 0).then_some(Reason::NothingToRelocate),
        Phase::Target { owed: _ } => (word >= hunk.hunks).then_some(Reason::BadTarget),
        Phase::Offset { target: _, owed: _ } => {
            is_outside(word, longs).then_some(Reason::BadOffset)
        }
        _ => None,
    }
}

/// Why a block word is refused: wherever its block stands, or else for its place in the hunk.
#[inline(always)]
fn refuse_block_word(word: u32, has_content: bool) -> Option<Reason>
    ensures { result ≡ refuse_word has_content word }
{
    let block = BlockWord::of(word);
    match Mode::Load.refuse(block) {
        Some(reason) => Some(reason),
        None => refuse_place(block.kind(), has_content),
    }
}

/// Whether the long at the offset, in bytes from the start of a hunk that declares `longs`
/// longwords, passes the end of the hunk.
///
/// That an offset may be odd, and may lie after the content, is this project's own choice.
#[inline(always)]
pub fn is_outside(offset: u32, longs: u32) -> bool
    ensures { result ≡ nat_lt (4 * longs) (offset + 4) }
{
    u64::from(offset) + 4 > u64::from(longs) * 4
}

/// Why a block of this kind may not stand here, where it may not. `has_content` says whether the
/// hunk has its content block.
///
/// Just one content block, relocations and EXT only after it, END last: this project's own choice.
#[inline(always)]
pub fn refuse_place(kind: Kind, has_content: bool) -> Option<Reason>
    ensures { result ≡ refuse_standing has_content (standing_of_kind kind) }
{
    match kind {
        Kind::Code | Kind::Data | Kind::Bss if has_content => Some(Reason::SecondContent),
        Kind::Ext if !has_content => Some(Reason::BeforeContent),
        Kind::End if !has_content => Some(Reason::NoContent),
        kind if !has_content && kind.is_relocation() => Some(Reason::BeforeContent),
        _ => None,
    }
}
