//! The one store, where the loader of a body stands in it, and what each longword does to it.
ghost use Rattle.std.specs.Prelude.{◌≡◌, ◌+◌, ◌≤◌, ◌<◌, ◌*◌, ◌/◌, ◌%◌, ◌^◌, length, take, Some, None, IfNone};
ghost use Rattle.std.specs.Prelude.{IfSome, IfOk, slice_index};
ghost use Rattle.std.specs.Prelude.{true, false};
ghost use Rattle.hunk_words.specs.Limits.{content_limit};
ghost use Rattle.hunk_words.specs.Longs.{longs};
ghost use Rattle.std.specs.List.{AllByRecursion};
ghost use Rattle.std.specs.Int.{to_be_bytes};
ghost use Rattle.hunk_files.specs.Image.{add_at};
ghost use Rattle.hunk_scatter.specs.StoreContent.{put_slice, stored_long, stored_run, added_at_each, TakesOffsets};
ghost use Rattle.hunk_scatter.specs.BodySteps.{longs_at, pass_body, refusal, IsInStore};
ghost use Rattle.hunk_grammar.specs.Positions.{run, is_done, EndsWithin};
ghost use Rattle.hunk_grammar.specs.declared.position.Position.TheVariants as positions;
ghost use Rattle.hunk_scatter.specs.BodyLoaderFields.{ReadyAt, TakesOrRefuses};
ghost use Rattle.hunk_scatter.specs.Rows.{words_of, bases_of};

use hunk_files::Row;
use hunk_grammar::{OpenHunk, Phase, Position, by_kind, by_phase, is_outside};
use hunk_words::{BlockWord, MOST_HUNKS, Reason, word_at};

/// The position, the open hunk, and the byte of the store where its segment begins.
#[derive(Clone, Copy)]
pub struct BodyState {
    /// The byte of the store where the segment of the open hunk begins.
    pub start: u64,
    /// The open hunk, counted from 0.
    pub hunk: u32,
    /// What the next longword is for.
    pub position: Position,
}

/// The number of longwords that the table declares for a hunk.
#[inline(always)]
pub(crate) fn longs_of(rows: &[Row], hunk: u32) -> u32
    requires { hunk < length rows.now }
    ensures value { result ≡ longs_at (words_of rows.now) hunk }
    ensures bound { result < content_limit }
{
    rows[hunk as usize].size().longs()
}

impl BodyState {
    /// Whether this is where an open hunk is read whose segment lies in a store of `total` bytes.
    #[inline(always)]
    pub(crate) fn is_in_store(self, rows: &[Row], total: usize) -> bool
        ensures sound { result ≡ true → IsInStore (words_of rows.now) total self }
        ensures complete { IsInStore (words_of rows.now) total self
            → is_done self.position ≡ false → result ≡ true }
    {
        let Position::Body(hunk, phase) = self.position else {
            return false;
        };
        let hunks = rows.len();
        if hunks > MOST_HUNKS as usize || hunk.hunks as usize > hunks {
            return false;
        }
        if self.hunk as usize >= hunks {
            return false;
        }
        let longs = longs_of(rows, self.hunk);
        let bytes = 4 * u64::from(longs);
        let total = total as u64;
        if bytes > total || self.start > total - bytes {
            return false;
        }
        match phase {
            Phase::Content { longs: all, owed } => owed < all && all <= longs,
            Phase::Offset { target, owed: _ } => (target as usize) < hunks,
            _ => true,
        }
    }
}

/// Puts bytes at the offset.
#[inline(never)]
fn put_all(store: &mut [u8], at: usize, bytes: &[u8])
    requires { at + length bytes.now ≤ length store.old }
    ensures { store.new ≡ put_slice store.old at bytes.now }
{
    store[at..at + bytes.len()].copy_from_slice(bytes);
}

/// Adds to the longword at the offset, modulo 2 ^ 32.
fn add(store: &mut [u8], at: usize, base: u32)
    requires { at + 4 ≤ length store.old }
    ensures { store.new ≡ add_at store.old at base }
{
    let long = u32::from_be_bytes([store[at], store[at + 1], store[at + 2], store[at + 3]]);
    let sum = long.wrapping_add(base);
    store[at..at + 4].copy_from_slice(sum.to_be_bytes().as_slice());
}

/// What the loader does to its store at a longword that is not refused.
#[inline(always)]
fn store_word(store: &mut [u8], rows: &[Row], state: BodyState, word: u32)
    requires in_store { IsInStore (words_of rows.now) (length store.old) state }
    requires passes { refusal (words_of rows.now) state word ≡ None }
    ensures { store.new ≡ stored_long (bases_of rows.now) state word store.old }
{
    match state.position {
        Position::Body(_, Phase::Content { longs, owed }) => {
            let at = (state.start + 4 * u64::from(longs - owed - 1)) as usize;
            store[at..at + 4].copy_from_slice(word.to_be_bytes().as_slice());
        }
        Position::Body(_, Phase::Offset { target, owed: _ }) => {
            let at = state.start + u64::from(word);
            add(store, at as usize, rows[target as usize].base);
        }
        _ => {}
    }
}

/// Takes the longword at the front of the piece, this one, and gives its number of bytes, or answers
/// why it is refused. The state stands at this position; where the caller knows it, nothing is
/// compiled of what is done at others.
#[inline(always)]
pub(crate) fn take_word(
    store: &mut [u8],
    rows: &[Row],
    state: &mut BodyState,
    position: Position,
    word: u32,
    piece: &[u8],
) -> Result<usize, Reason>
    requires ready { ReadyAt rows.now store.old state.old position piece.now }
    requires goes_on { is_done position ≡ false }
    requires first_long { word ≡ slice_index (longs piece.now) 0 }
    ensures takes { TakesOrRefuses rows.now store.old state.old piece.now store.new state.new result }
    ensures four { IfOk result (λ n. n ≡ 4) }
{
    // The piece is for the contract alone.
    let _ = piece;
    if let Some(reason) = position.refuse(longs_of(rows, state.hunk), word) {
        return Err(reason);
    }
    store_word(store, rows, BodyState { position, ..*state }, word);
    let position = position.step(word);
    if !position.is_between_hunks() {
        *state = BodyState { position, ..*state };
        return Ok(4);
    }
    *state = BodyState {
        hunk: state.hunk + 1,
        start: state.start + 4 * u64::from(longs_of(rows, state.hunk)),
        position,
    };
    Ok(4)
}

/// Takes longwords of a run at once: those of a content are copied, and the others are passed over.
#[inline(always)]
fn take_run(store: &mut [u8], rows: &[Row], state: BodyState, bytes: &[u8]) -> BodyState
    requires in_store { IsInStore (words_of rows.now) (length store.old) state }
    requires fours { length bytes.now % 4 ≡ 0 }
    requires run { length bytes.now ≤ 4 * run state.position }
    ensures steps { result ≡ pass_body state (length bytes.now / 4) }
    ensures stores { store.new ≡ stored_run state bytes.now store.old }
{
    if let Position::Body(_, Phase::Content { longs, owed }) = state.position {
        let at = state.start + 4 * u64::from(longs - owed - 1);
        put_all(store, at as usize, bytes);
    }
    let position = state.position.pass((bytes.len() / 4) as u64);
    BodyState { position, ..state }
}

/// Adds to the longwords at the offsets, `most` of them at most, up to the first that passes the
/// end of a hunk of `declared` longwords, and gives their number.
#[tactic(auto, using(crate::proofs::Offsets::adds_more, crate::proofs::Offsets::inside_more))]
#[inline(never)]
fn add_all(
    store: &mut [u8],
    start: u64,
    declared: u32,
    base: u32,
    offsets: &[u8],
    most: usize,
) -> usize
    requires room { start + 4 * declared ≤ length store.old }
    requires offsets { 4 * most ≤ length offsets.now }
    ensures bound { result ≤ most }
    ensures ends_within { AllByRecursion (EndsWithin (4 * declared))
        (take result (longs offsets.now)) }
    ensures adds { store.new
        ≡ added_at_each start base (take result (longs offsets.now)) store.old }
{
    let mut taken = 0;
    while taken < most {
        let word = word_at(offsets, taken);
        if is_outside(word, declared) {
            return taken;
        }
        add(store, (start + u64::from(word)) as usize, base);
        taken += 1;
    }
    taken
}

/// Takes the offsets that lie whole in the piece, up to the last but one of their list or to the
/// first that is refused, and gives their number; `None` where there is none.
#[inline(always)]
fn take_offsets(
    store: &mut [u8],
    rows: &[Row],
    state: BodyState,
    piece: &[u8],
) -> Option<(BodyState, usize)>
    requires { IsInStore (words_of rows.now) (length store.old) state }
    ensures inside { IfSome result (λ r. 4 * r.1 ≤ length piece.now) }
    ensures positive { IfSome result (λ r. 0 < r.1) }
    ensures stores_nothing { IfNone result (store.new ≡ store.old) }
    ensures offsets { IfSome result (λ r. TakesOffsets (words_of rows.now) (bases_of rows.now) state
        (take r.1 (longs piece.now)) store.old r.0 store.new) }
{
    let Position::Body(hunk, phase) = state.position else {
        return None;
    };
    let Phase::Offset { target, owed } = phase else {
        return None;
    };
    if owed == 0 {
        return None;
    }
    let whole = piece.len() / 4;
    let most = if (owed as usize) < whole {
        owed as usize
    } else {
        whole
    };
    let declared = longs_of(rows, state.hunk);
    let base = rows[target as usize].base;
    let taken = add_all(store, state.start, declared, base, piece, most);
    if taken == 0 {
        return None;
    }
    let owed = owed - taken as u32;
    let position = Position::Body(hunk, Phase::Offset { target, owed });
    Some((BodyState { position, ..state }, taken))
}

/// Takes longwords from the front of the piece, and gives their number of bytes: those of a run, or
/// of a list of offsets, at once, and else one. The state stands at this phase of this hunk; where
/// the caller knows the phase, nothing is compiled of what it does at others.
#[inline(always)]
fn take_at(
    store: &mut [u8],
    rows: &[Row],
    state: &mut BodyState,
    hunk: OpenHunk,
    phase: Phase,
    piece: &[u8],
) -> Result<usize, Reason>
    requires { ReadyAt rows.now store.old state.old (positions.Body hunk phase) piece.now }
    ensures { TakesOrRefuses rows.now store.old state.old piece.now store.new state.new result }
{
    let position = Position::Body(hunk, phase);
    let here = BodyState { position, ..*state };
    let run = 4 * phase.run();
    if run > 0 {
        let whole = piece.len() / 4 * 4;
        let count = run.min(whole as u64) as usize;
        *state = take_run(store, rows, here, &piece[..count]);
        return Ok(count);
    }
    match take_offsets(store, rows, here, piece) {
        Some((next, count)) => {
            *state = next;
            Ok(4 * count)
        }
        None => {
            let word = word_at(piece, 0);
            take_word(store, rows, state, position, word, piece)
        }
    }
}

/// Takes longwords from the front of the piece, and gives their number of bytes. The phases and the
/// kinds of block words are told apart here, once for all that is asked of them. What stands with a
/// phase is read where that phase is known: most phases need little of it.
///
/// It asks for room alone: what was fed before may be any bytes after which a loader stands so.
#[inline(always)]
pub(crate) fn take_front(
    store: &mut [u8],
    rows: &[Row],
    state: &mut BodyState,
    piece: &[u8],
) -> Result<usize, Reason>
    requires ready { ReadyAt rows.now store.old state.old state.old.position piece.now }
    requires goes_on { is_done state.old.position ≡ false }
    ensures { TakesOrRefuses rows.now store.old state.old piece.now store.new state.new result }
{
    // After a header a hunk is open, or the file is whole.
    let Position::Body(hunk, phase) = &state.position else {
        unreachable!()
    };
    macro_rules! at {
        ($phase:expr) => {{
            let (hunk, phase) = (*hunk, $phase);
            take_at(store, rows, state, hunk, phase, piece)
        }};
    }
    by_phase!(
        *phase,
        {
            let word = word_at(piece, 0);
            by_kind!(
                BlockWord::of(word).kind(),
                {
                    let position = Position::Body(*hunk, *phase);
                    take_word(store, rows, state, position, word, piece)
                }
            )
        },
        at
    )
}
