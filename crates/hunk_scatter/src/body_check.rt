//! Where the check of a body stands, and what each longword of the body does to it.
//!
//! It makes the tests of a loader of the body, and keeps no store.
ghost use Rattle.std.specs.Prelude.{◌≡◌, ◌+◌, ◌*◌, ◌/◌, ◌<◌, ◌≤◌, ℕ, List, length, take, true, false};
ghost use Rattle.std.specs.Prelude.{IfErr, IfOk, IfSome, IsTrue, slice_index};
ghost use Rattle.std.specs.List.{AllByRecursion};
ghost use Rattle.hunk_words.specs.Longs.{longs};
ghost use Rattle.hunk_grammar.specs.Positions.{EndsWithin, is_done};
ghost use Rattle.hunk_grammar.specs.declared.position.Position.TheVariants as positions;
ghost use Rattle.hunk_scatter.specs.Checking.{ChecksFront, ChecksOn, ChecksPart, IsCheckedTo, IsOpenIn};
ghost use Rattle.hunk_scatter.specs.Checking.{IsReadyTo, MayCheck, PassesOffsets};
ghost use Rattle.hunk_scatter.specs.LoaderReasons.{is_of_body};
ghost use Rattle.hunk_scatter.specs.Rows.{bases_of, words_of};

use crate::store::{BodyState, longs_of};
use crate::stream::Standing;
use hunk_files::Row;
use hunk_grammar::{OpenHunk, Phase, Position, by_kind, by_phase, is_outside};
use hunk_words::{BlockWord, LoadFault, Reason, word_at};

/// Takes the longword at the front of the piece, this one, and gives its number of bytes, or answers
/// why it is refused. The state stands at this position; where the caller knows it, nothing is
/// compiled of what is tested at others.
#[inline(always)]
fn check_word(
    rows: &[Row],
    state: &mut BodyState,
    position: Position,
    word: u32,
    piece: &[u8],
) -> Result<usize, Reason>
    requires ready { IsReadyTo rows.now state.old position piece.now }
    requires goes_on { is_done position ≡ false }
    requires first_long { word ≡ slice_index (longs piece.now) 0 }
    ensures checks { ChecksFront rows.now state.old piece.now state.new result }
    ensures four { IfOk result (λ n. n ≡ 4) }
{
    // The piece is for the contract alone.
    let _ = piece;
    let longs = longs_of(rows, state.hunk);
    if let Some(reason) = position.refuse(longs, word) {
        return Err(reason);
    }
    let position = position.step(word);
    if !position.is_between_hunks() {
        *state = BodyState { position, ..*state };
        return Ok(4);
    }
    *state = BodyState {
        hunk: state.hunk + 1,
        start: state.start + 4 * u64::from(longs),
        position,
    };
    Ok(4)
}

/// Takes the longword at the front of the piece, and of the run that it begins what lies whole in the
/// piece, and gives their number of bytes, or answers why the longword is refused.
#[inline(always)]
fn check_word_and_run(
    rows: &[Row],
    state: &mut BodyState,
    position: Position,
    word: u32,
    piece: &[u8],
) -> Result<usize, Reason>
    requires ready { IsReadyTo rows.now state.old position piece.now }
    requires goes_on { is_done position ≡ false }
    requires first_long { word ≡ slice_index (longs piece.now) 0 }
    ensures { ChecksFront rows.now state.old piece.now state.new result }
{
    let taken = match check_word(rows, state, position, word, piece) {
        Ok(taken) => taken,
        Err(reason) => return Err(reason),
    };
    let whole = (piece.len() - taken) / 4 * 4;
    let count = (4 * state.position.run()).min(whole as u64);
    if count == 0 {
        return Ok(taken);
    }
    let position = state.position.pass(count / 4);
    *state = BodyState { position, ..*state };
    Ok(taken + count as usize)
}

/// Whether the first `count` offsets all end in a hunk of `declared` longwords.
#[inline(never)]
fn are_inside(declared: u32, offsets: &[u8], count: usize) -> bool
    requires offsets { 4 * count ≤ length offsets.now }
    ensures { result ≡ true → AllByRecursion (EndsWithin (4 * declared))
        (take count (longs offsets.now)) }
{
    let mut largest = 0;
    'offsets: for i in 0..count {
        // Where a longword is put together from its bytes, and not read by `word_at`, the compiler
        // makes the loop four longwords wide.
        let start = 4 * i;
        let long = u32::from_be_bytes([
            offsets[start],
            offsets[start + 1],
            offsets[start + 2],
            offsets[start + 3],
        ]);
        largest = largest.max(long);
    }
    if is_outside(largest, declared) {
        return false;
    }
    true
}

/// How many offsets, `most` at most, stand before the first that passes the end of a hunk of
/// `declared` longwords.
#[tactic(auto, using(crate::proofs::Offsets::inside_more))]
#[inline(never)]
fn count_inside(declared: u32, offsets: &[u8], most: usize) -> usize
    requires offsets { 4 * most ≤ length offsets.now }
    ensures bound { result ≤ most }
    ensures ends_within { AllByRecursion (EndsWithin (4 * declared))
        (take result (longs offsets.now)) }
{
    let mut count = 0;
    'offsets: while count < most {
        if is_outside(word_at(offsets, count), declared) {
            return count;
        }
        count += 1;
    }
    count
}

/// The same; where none of them passes the end, by one loop that has no way out.
#[inline(always)]
fn offsets_inside(declared: u32, offsets: &[u8], most: usize) -> usize
    requires offsets { 4 * most ≤ length offsets.now }
    ensures bound { result ≤ most }
    ensures ends_within { AllByRecursion (EndsWithin (4 * declared))
        (take result (longs offsets.now)) }
{
    if are_inside(declared, offsets, most) {
        return most;
    }
    count_inside(declared, offsets, most)
}

/// Takes the offsets that lie whole in the piece, up to the last but one of their list or to the
/// first that is refused, and gives their number; `None` where there is none.
#[inline(always)]
fn check_offsets(rows: &[Row], state: BodyState, piece: &[u8]) -> Option<(BodyState, usize)>
    requires { IsOpenIn rows.now state }
    ensures inside { IfSome result (λ r. 4 * r.1 ≤ length piece.now) }
    ensures positive { IfSome result (λ r. 0 < r.1) }
    ensures offsets { IfSome result (λ r. PassesOffsets (words_of rows.now) (bases_of rows.now) state
        (take r.1 (longs piece.now)) r.0) }
{
    let Position::Body(hunk, phase) = state.position else {
        return None;
    };
    let Phase::Offset { target, owed } = phase else {
        return None;
    };
    if owed == 0 {
        return None;
    }
    let most = (piece.len() / 4).min(owed as usize);
    let taken = offsets_inside(longs_of(rows, state.hunk), piece, most);
    if taken == 0 {
        return None;
    }
    let owed = owed - taken as u32;
    let position = Position::Body(hunk, Phase::Offset { target, owed });
    Some((BodyState { position, ..state }, taken))
}

/// Takes longwords from the front of the piece, and gives their number of bytes: those of a run, or
/// of a list of offsets, at once, and else one. The state stands at this phase of this hunk; where
/// the caller knows the phase, nothing is compiled of what is tested at others.
#[inline(always)]
fn check_at(
    rows: &[Row],
    state: &mut BodyState,
    hunk: OpenHunk,
    phase: Phase,
    piece: &[u8],
) -> Result<usize, Reason>
    requires { IsReadyTo rows.now state.old (positions.Body hunk phase) piece.now }
    ensures { ChecksFront rows.now state.old piece.now state.new result }
{
    let position = Position::Body(hunk, phase);
    let here = BodyState { position, ..*state };
    let run = 4 * phase.run();
    if run > 0 {
        let whole = piece.len() / 4 * 4;
        let count = run.min(whole as u64);
        let position = position.pass(count / 4);
        *state = BodyState { position, ..here };
        return Ok(count as usize);
    }
    match check_offsets(rows, here, piece) {
        Some((next, count)) => {
            *state = next;
            Ok(4 * count)
        }
        None => {
            let word = word_at(piece, 0);
            check_word_and_run(rows, state, position, word, piece)
        }
    }
}

/// Takes longwords from the front of the piece, and gives their number of bytes. The phases and the
/// kinds of block words are told apart here, once for all that is asked of them.
#[inline(always)]
fn check_front(rows: &[Row], state: &mut BodyState, piece: &[u8]) -> Result<usize, Reason>
    requires ready { IsReadyTo rows.now state.old state.old.position piece.now }
    requires goes_on { is_done state.old.position ≡ false }
    ensures { ChecksFront rows.now state.old piece.now state.new result }
{
    // After a header a hunk is open, or the file is whole.
    let Position::Body(hunk, phase) = &state.position else {
        unreachable!()
    };
    macro_rules! at {
        ($phase:expr) => {{
            let (hunk, phase) = (*hunk, $phase);
            check_at(rows, state, hunk, phase, piece)
        }};
    }
    by_phase!(
        *phase,
        {
            let word = word_at(piece, 0);
            by_kind!(
                BlockWord::of(word).kind(),
                {
                    let position = Position::Body(*hunk, *phase);
                    check_word(rows, state, position, word, piece)
                }
            )
        },
        at
    )
}

/// Takes the byte at the front of the piece.
#[inline(always)]
fn check_byte(rows: &[Row], at: &mut Standing, piece: &[u8]) -> Result<usize, Reason>
    requires { MayCheck rows.now at.old piece.now }
    ensures { ChecksPart rows.now at.old piece.now at.new result }
{
    let (pending, next) = at.pending.take(piece[0]);
    if let Some(word) = next {
        let position = at.state.position;
        let four = word.to_be_bytes();
        match check_word(rows, &mut at.state, position, word, four.as_slice()) {
            Ok(_) => {}
            Err(reason) => return Err(reason),
        }
    }
    at.pending = pending;
    Ok(1)
}

/// Takes a part of the piece from its front: longwords that lie whole in it, or a byte of one that
/// does not. Its bytes are not counted yet.
#[inline(always)]
fn check_part(rows: &[Row], at: &mut Standing, piece: &[u8]) -> Result<usize, Reason>
    requires { MayCheck rows.now at.old piece.now }
    ensures { ChecksPart rows.now at.old piece.now at.new result }
{
    if at.pending.count > 0 || piece.len() < 4 {
        return check_byte(rows, at, piece);
    }
    check_front(rows, &mut at.state, piece)
}

/// Takes the piece, or up to the end of the file where that stands inside it, and gives the number
/// of bytes taken.
///
/// # Errors
///
/// The first fault of all that was taken and of this piece, at the first byte of its longword, from
/// the start of the file, or at 2^64 - 4 where that is more. The numbers have its hunk then.
#[inline(never)]
pub(crate) fn check_all(rows: &[Row], at: &mut Standing, piece: &[u8]) -> Result<usize, LoadFault>
    requires { (fed : List ℕ) × IsCheckedTo rows.now at.old fed }
    ensures inside { IfOk result (λ n. n ≤ length piece.now) }
    ensures all { IfOk result
        (λ n. n < length piece.now → is_done at.new.state.position ≡ true) }
    ensures takes { (fed : List ℕ) → IsCheckedTo rows.now at.old fed
        → ChecksOn rows.now at.new fed piece.now result }
    ensures own_reasons { IfErr result (λ f. IsTrue (is_of_body f.reason)) }
{
    let mut rest = piece;
    'parts: while !rest.is_empty() {
        let Position::Body(_, _) = at.state.position else {
            break 'parts;
        };
        match check_part(rows, at, rest) {
            Ok(count) => rest = &rest[count..],
            Err(reason) => {
                let before = (piece.len() - rest.len()) as u64;
                let place = at.fed.saturating_add(before) / 4 * 4;
                return Err(LoadFault { place, reason });
            }
        }
    }
    let taken = piece.len() - rest.len();
    at.fed = at.fed.saturating_add(taken as u64);
    Ok(taken)
}
