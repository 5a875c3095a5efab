//! Blocks of hunks of which some leave out END, passed over at once.
ghost use Rattle.std.specs.Prelude.{◌≡◌, ◌≤◌, IfNone, IfSome, false, length, take, true};
ghost use Rattle.hunk_wide.specs.Parts.{IsSpelled, WithEnds, load_at, word_at};
ghost use Rattle.hunk_wide.specs.declared.spot.Spot.TheVariants.{Long};

use crate::parts::{Block, front_word, pass_block, pass_end, run_at, word_at};
use crate::position::FilePosition;
use crate::spot::Given;
use hunk_grammar::{OpenHunk, Phase, Position};

/// The first bytes of a wide spelling that are given out as they are, but for each END that is put
/// in before one of their blocks.
#[derive(Clone, Copy)]
pub(crate) struct Part {
    /// The number of the bytes.
    pub(crate) size: usize,
    /// How many END are put in.
    pub(crate) ends: usize,
    /// What the longword after them is for.
    pub(crate) next: FilePosition,
}

/// A block that was passed over, and whether END is put in before it.
#[derive(Clone, Copy)]
pub(crate) struct Spelled {
    pub(crate) block: Block,
    pub(crate) is_behind: bool,
}

/// The part that the bytes begin with, where a longword stands at this position. It may be none,
/// also where some longwords are whole.
#[inline(always)]
pub(crate) fn part_at(position: FilePosition, bytes: &[u8]) -> Part
    ensures inside { result.size ≤ length bytes.now }
    ensures with_ends { WithEnds (Long position) (take result.size bytes.now) result.ends
        (Long result.next) }
{
    if let FilePosition::Load(Position::Body(hunk, Phase::BlockWord)) = position {
        return blocks_with_ends(hunk, bytes);
    }
    let run = run_at(position, bytes);
    Part {
        size: run.size,
        ends: 0,
        next: run.next,
    }
}

/// Blocks of this hunk and of those after it.
#[inline(never)]
fn blocks_with_ends(hunk: OpenHunk, bytes: &[u8]) -> Part
    ensures inside { result.size ≤ length bytes.now }
    ensures with_ends { WithEnds (load_at (word_at hunk false)) (take result.size bytes.now)
        result.ends (Long result.next) }
{
    let mut hunk = hunk;
    let mut is_first = false;
    let mut at = 0;
    let mut ends = 0;
    'blocks: while let Some(spelled) = pass_spelled(&mut hunk, &bytes[at..]) {
        at += spelled.block.size;
        ends += usize::from(spelled.is_behind);
        is_first = spelled.block.is_end;
    }
    Part {
        size: at,
        ends,
        next: FilePosition::Load(word_at(hunk, is_first)),
    }
}

/// The block that the bytes begin with, also where END is left out before it, and goes on to the
/// hunk as it is after it. `None` leaves that as it was.
#[inline(always)]
pub(crate) fn pass_spelled(hunk: &mut OpenHunk, bytes: &[u8]) -> Option<Spelled>
    ensures some { IfSome result (λ s. IsSpelled hunk.old bytes.now s.block.size s.is_behind
        s.block.is_end hunk.new) }
    ensures none { IfNone result (hunk.new ≡ hunk.old) }
{
    let is_behind = false;
    if let Some(block) = pass_block(hunk, bytes) {
        return Some(Spelled { block, is_behind });
    }
    let block = pass_behind(hunk, bytes)?;
    let is_behind = true;
    Some(Spelled { block, is_behind })
}

/// The same where END is left out before it: then it is the first block of the next hunk.
#[inline(always)]
fn pass_behind(hunk: &mut OpenHunk, bytes: &[u8]) -> Option<Block>
    ensures some { IfSome result (λ b. IsSpelled hunk.old bytes.now b.size true b.is_end hunk.new) }
    ensures none { IfNone result (hunk.new ≡ hunk.old) }
{
    if bytes.len() < 8 {
        return None;
    }
    match Given::of(FilePosition::Load(word_at(*hunk, false)), front_word(bytes)) {
        Given::BehindEnd => (),
        _ => return None,
    }
    let mut next = *hunk;
    pass_end(&mut next)?;
    let block = pass_block(&mut next, bytes)?;
    *hunk = next;
    Some(block)
}
