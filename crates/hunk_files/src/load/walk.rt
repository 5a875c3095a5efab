//! The walk over the longwords of a load file, from the first on: its end, or the first fault.
ghost use Rattle.std.specs.Prelude.{◌≡◌, ◌≤◌, ◌+◌, ◌*◌, Some, None, IfOk, IfErr, OnOk, MatchResult};
ghost use Rattle.std.specs.Prelude.{length, slice_index};
ghost use Rattle.hunk_words.specs.Longs.{longs};
ghost use Rattle.hunk_files.specs.Entries.{entry_after};
ghost use Rattle.hunk_files.specs.Fault.{HasFault, HasLoadText};
ghost use Rattle.hunk_files.specs.FileParts.{IsPartAt, fault_at};
ghost use Rattle.hunk_files.specs.ReaderPosition.{part_in};
ghost use Rattle.hunk_grammar.specs.declared.file_kind.Sniff.TheVariants.{Load};
ghost use Rattle.hunk_grammar.specs.Positions.{role_at, step};
ghost use Rattle.hunk_grammar.specs.Roles.{refuse};

use crate::load::header::pass_front;
use crate::load::passing::pass_over;
use crate::part::Part;
use crate::refusal::Refusal;
use hunk_grammar::{OpenHunk, Phase, Position, by_kind, by_phase};
use hunk_words::{BlockWord, CONTENT_LIMIT, FileFault, Reason, SizeWord, word_at};

/// What the table declares of the open hunk, 0 longwords before the first.
#[derive(Clone, Copy)]
pub(crate) struct DeclaredHunk {
    /// The longwords of memory that it declares.
    pub longs: u32,
    /// The longword, counted from 0, at which the next entry stands.
    pub next: usize,
}

impl DeclaredHunk {
    /// What the entry at this longword declares, of the hunk that opens.
    #[inline(always)]
    pub fn at(bytes: &[u8], at: usize) -> DeclaredHunk
        requires { 4 * at + 4 ≤ length bytes.now }
        ensures { result ≡ entry_after (slice_index (longs bytes.now) at) at }
    {
        let size = word_at(bytes, at);
        DeclaredHunk {
            longs: size % CONTENT_LIMIT,
            next: at + SizeWord::entry_longs(size),
        }
    }
}

/// The number of bytes of the load file that the bytes begin with, or their first fault.
///
/// It takes no memory. Payloads and names are passed over at once, as no test looks at their
/// longwords, and so are rows of the table, and blocks that are whole, up to the END of the file.
///
/// # Errors
///
/// The first fault of the bytes, at the first byte of its longword, from the start of the input;
/// `Truncated` at 4 times the number of whole longwords.
pub(crate) fn walk(bytes: &[u8]) -> Result<usize, Refusal>
    ensures { MatchResult result (λ size. HasLoadText bytes.now size)
        (λ refusal. HasFault bytes.now refusal.fault.place refusal.fault.reason
        × IsPartAt Load bytes.now refusal.fault.place refusal.part) }
{
    let count = bytes.len() / 4;
    let (mut at, mut position, mut entry) = pass_front(bytes);
    'walking: while at < count {
        let word = word_at(bytes, at);
        let after = match step_from(position, entry.longs, word) {
            Ok(after) => after,
            Err(reason) => return Err(refusal_at(position, 4 * at as u64, reason)),
        };
        if let Position::Done = after {
            return Ok(4 * (at + 1));
        }
        if after.is_between_hunks() {
            entry = DeclaredHunk::at(bytes, entry.next);
        }
        let run = after.run();
        (at, position, entry) = pass_over(bytes, at + 1 + run as usize, after.pass(run), entry);
    }
    Err(refusal_at(position, 4 * count as u64, Reason::Truncated))
}

/// The refusal at this place, to which the position belongs.
#[inline(never)]
fn refusal_at(position: Position, place: u64, reason: Reason) -> Refusal
    ensures fault { result.fault ≡ fault_at place reason }
    ensures part { result.part ≡ part_in position }
{
    let part = match position {
        Position::Body(hunk, _) => Part::Hunk {
            number: u64::from(hunk.hunks).saturating_sub(u64::from(hunk.ahead) + 1),
        },
        _ => Part::Header,
    };
    let fault = FileFault { place, reason };
    Refusal { fault, part }
}

/// The position after the longword, or why the longword is refused.
#[inline(always)]
fn step_at(position: Position, longs: u32, word: u32) -> Result<Position, Reason>
    ensures steps { IfOk result (λ after. after ≡ step position word) }
    ensures passes { OnOk result (refuse (role_at longs position) word ≡ None) }
    ensures refusal { IfErr result (λ reason. refuse (role_at longs position) word ≡ Some reason) }
{
    if let Some(reason) = position.refuse(longs, word) {
        return Err(reason);
    }
    Ok(position.step(word))
}

/// Steps from the position. The phases are distinguished here, once for all that is asked of them.
#[inline(always)]
fn step_from(position: Position, longs: u32, word: u32) -> Result<Position, Reason>
    ensures steps { IfOk result (λ after. after ≡ step position word) }
    ensures passes { OnOk result (refuse (role_at longs position) word ≡ None) }
    ensures refusal { IfErr result (λ reason. refuse (role_at longs position) word ≡ Some reason) }
{
    let Position::Body(hunk, phase) = position else {
        return step_at(position, longs, word);
    };
    macro_rules! at {
        ($phase:expr) => {
            step_at(Position::Body(hunk, $phase), longs, word)
        };
    }
    by_phase!(phase, step_word(position, longs, word), at)
}

/// The same at a block word, whose kinds are distinguished here.
#[inline(always)]
fn step_word(position: Position, longs: u32, word: u32) -> Result<Position, Reason>
    ensures steps { IfOk result (λ after. after ≡ step position word) }
    ensures passes { OnOk result (refuse (role_at longs position) word ≡ None) }
    ensures refusal { IfErr result (λ reason. refuse (role_at longs position) word ≡ Some reason) }
{
    by_kind!(BlockWord::of(word).kind(), step_at(position, longs, word))
}
