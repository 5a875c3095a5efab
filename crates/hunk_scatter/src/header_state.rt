//! Where a reader of the header stands, a few numbers; and the size of a header, read with no memory
//! for its rows.
ghost use Rattle.std.specs.Prelude.{◌≡◌, ◌+◌, ◌<◌, ◌≤◌, ◌^◌, ◌++◌, IfOk, IfErr, OnOk, IfSome, IfNone, []};
ghost use Rattle.std.specs.Prelude.{ℕ, ◌*◌, ◌∷◌, length, map, false};
ghost use Rattle.hunk_words.specs.declared.reason.Reason.TheVariants as reasons;
ghost use Rattle.hunk_words.specs.Longs.{longs};
ghost use Rattle.hunk_grammar.specs.Positions.{is_after_header};
ghost use Rattle.hunk_scatter.specs.HeaderLoaderFields as heading;
ghost use Rattle.hunk_scatter.specs.HeaderSizes.{HasHeaderInFront, HasHeaderSize, RefusesHeader, TellsOwed};
ghost use Rattle.hunk_scatter.specs.Rows.{row_of};

use hunk_files::{Row, header_hunks};
use hunk_grammar::{Position, TABLE_AT, TABLE_SIZE_AT};
use hunk_words::{LoadFault, Reason, SizeWord, word_at};

/// The position, and the bytes that the size words so far declare.
#[derive(Clone, Copy)]
pub(crate) struct HeaderState {
    pub(crate) position: Position,
    pub(crate) total: u64,
}

/// The row that a longword completes, where it completes one. Its hunk is not placed.
fn row(position: Position, word: u32) -> Option<Row>
    ensures row { IfSome result (λ row. map row_of (heading.adds position word) ≡ row ∷ []) }
    ensures adds_nothing { IfNone result (heading.adds position word ≡ []) }
{
    match position {
        Position::SizeWord { hunks: _, owed: _ } if SizeWord::has_extra(word) => None,
        Position::SizeWord { hunks: _, owed: _ } => Some(Row {
            word,
            extra: 0,
            base: 0,
        }),
        Position::Attributes {
            hunks: _,
            word: size,
            owed: _,
        } => Some(Row {
            word: size,
            extra: word,
            base: 0,
        }),
        _ => None,
    }
}

/// Passes a longword, or answers why it is refused. Where the caller knows the position, nothing
/// is compiled of what it does at others.
#[inline(always)]
fn pass_at(state: HeaderState, budget: u64, word: u32) -> Result<HeaderState, Reason>
    requires goes_on { is_after_header state.position ≡ false }
    requires room { state.total + 2 ^ 32 < 2 ^ 64 }
    ensures passes { IfOk result (heading.PassesWord budget state word) }
    ensures refusal { IfErr result (heading.RefusesWord budget state word) }
{
    if let Some(reason) = state.position.refuse(0, word) {
        return Err(reason);
    }
    let total = match state.position {
        Position::SizeWord { hunks: _, owed: _ } => {
            state.total + SizeWord { word, extra: 0 }.bytes()
        }
        _ => state.total,
    };
    if total > budget {
        return Err(Reason::Budget);
    }
    Ok(HeaderState {
        position: state.position.step(word),
        total,
    })
}

/// `$at` of the state, a macro. Nearly all longwords of a long header are size words, which are told
/// apart here, once for all that is asked of them.
macro_rules! by_size_word {
    ($state:expr, $at:ident) => {
        match $state.position {
            Position::SizeWord { hunks, owed } => {
                let position = Position::SizeWord { hunks, owed };
                $at!(HeaderState { position, ..$state })
            }
            _ => $at!($state),
        }
    };
}

/// Passes a longword, or answers why it is refused: by its own test, or by the budget.
#[inline(always)]
fn pass_header_word(state: HeaderState, budget: u64, word: u32) -> Result<HeaderState, Reason>
    requires goes_on { is_after_header state.position ≡ false }
    requires room { state.total + 2 ^ 32 < 2 ^ 64 }
    ensures passes { IfOk result (heading.PassesWord budget state word) }
    ensures refusal { IfErr result (heading.RefusesWord budget state word) }
{
    macro_rules! pass {
        ($state:expr) => {
            pass_at($state, budget, word)
        };
    }
    by_size_word!(state, pass)
}

/// Takes a longword and stores the row that it completes, or answers why not: by its own test, by
/// the budget, or because memory for the row is refused.
pub(crate) fn take_header_word(
    rows: &mut Vec<Row>,
    state: HeaderState,
    budget: u64,
    word: u32,
) -> Result<HeaderState, Reason>
    requires goes_on { is_after_header state.position ≡ false }
    requires room { state.total + 2 ^ 32 < 2 ^ 64 }
    requires within { state.total ≤ budget }
    ensures rows { OnOk result (rows.new.items ≡ rows.old.items
        ++ map row_of (heading.adds state.position word)) }
    ensures passes { IfOk result (heading.PassesWord budget state word) }
    ensures refusal { IfErr result (heading.StopsFor budget state word) }
    ensures long { word < 2 ^ 32 }
{
    macro_rules! take {
        ($state:expr) => {{
            let state = $state;
            let next = pass_at(state, budget, word)?;
            if let Some(row) = row(state.position, word) {
                if rows.push(row).is_err() {
                    return Err(Reason::OutOfMemory);
                }
            }
            Ok(next)
        }};
    }
    by_size_word!(state, take)
}

/// The number of entries from which on `short_total` is worth its call.
const MANY_ENTRIES: u32 = 8;

/// The bytes that the first `entries` of the table declare together, where these stand in the bytes,
/// each is a longword, and they keep to the budget.
///
/// No test stands in the loop, so the compiler makes it some longwords wide.
#[inline(never)]
fn short_total(bytes: &[u8], entries: u32, budget: u64) -> Option<u64>
    ensures short { IfSome result (heading.HasShortEntries (longs bytes.now) entries) }
    ensures within { IfSome result (λ total. total ≤ budget) }
{
    let end = TABLE_AT + entries as usize;
    if end > bytes.len() / 4 {
        return None;
    }
    let mut largest = 0;
    let mut total = 0;
    'entries: for i in TABLE_AT..end {
        let start = 4 * i;
        let word = u32::from_be_bytes([
            bytes[start],
            bytes[start + 1],
            bytes[start + 2],
            bytes[start + 3],
        ]);
        largest = largest.max(word);
        total += SizeWord { word, extra: 0 }.bytes();
    }
    if SizeWord::has_extra(largest) || total > budget {
        return None;
    }
    Some(total)
}

/// Passes over the longwords before the table at once, where none of them is refused, and over its
/// entries but the last, where each is a longword and they keep to the budget: the byte after them,
/// and the state there. Else it is the start.
#[inline(always)]
fn pass_front(bytes: &[u8], budget: u64) -> (usize, HeaderState)
    ensures passes { (count : ℕ) × (result.0 ≡ 0 + 4 * count)
        × heading.PassesWords budget bytes.now 0 heading.at_start count result.1 }
    ensures inside { result.0 ≤ length bytes.now }
{
    let start = HeaderState {
        position: Position::FirstLong,
        total: 0,
    };
    let Some(hunks) = header_hunks(bytes) else {
        return (0, start);
    };
    let owed = hunks - 1;
    if owed >= MANY_ENTRIES {
        if let Some(total) = short_total(bytes, owed, budget) {
            let position = Position::SizeWord { hunks, owed: 0 };
            let at = 4 * (TABLE_AT + owed as usize);
            return (at, HeaderState { position, total });
        }
    }
    let position = Position::SizeWord { hunks, owed };
    (4 * TABLE_AT, HeaderState { position, total: 0 })
}

/// Passes over the entries of a table that are a longword each, as far as they keep to the budget
/// and another comes after them: the byte after them, and the state there.
#[inline(always)]
fn pass_entries(bytes: &[u8], from: usize, state: HeaderState, budget: u64) -> (usize, HeaderState)
    requires inside { from ≤ length bytes.now }
    requires within { state.total ≤ budget }
    requires goes_on { is_after_header state.position ≡ false }
    ensures passes { (count : ℕ) × (result.0 ≡ from + 4 * count)
        × heading.PassesWords budget bytes.now from state count result.1 }
    ensures inside { result.0 ≤ length bytes.now }
    ensures goes_on { is_after_header result.1.position ≡ false }
{
    let Position::SizeWord {
        hunks,
        owed: entries,
    } = state.position
    else {
        return (from, state);
    };
    let mut at = from;
    let mut owed = entries;
    let mut total = state.total;
    'entries: while owed > 0 && bytes.len() - at >= 4 {
        let word = word_at(&bytes[at..], 0);
        let size = SizeWord { word, extra: 0 }.bytes();
        if SizeWord::has_extra(word) || size > budget - total {
            break 'entries;
        }
        at += 4;
        owed -= 1;
        total += size;
    }
    let position = Position::SizeWord { hunks, owed };
    (at, HeaderState { position, total })
}

/// What a header says of its file, but for the rows of its table.
#[derive(Clone, Copy, Debug, PartialEq, Eq)]
pub struct HeaderSize {
    /// The number of hunks.
    pub hunks: u32,
    /// The number of bytes of the header, from the start of the file.
    pub bytes: u64,
    /// The number of bytes that all hunks declare together.
    pub declared: u64,
}

/// Why no header is read.
#[derive(Clone, Copy, Debug, PartialEq, Eq)]
pub struct NoHeader {
    /// Where the bytes are refused, and why.
    pub fault: LoadFault,
    /// Where they end inside the header, how many more it has at least; else 0.
    pub owed: u64,
}

/// The size of the header that the bytes begin with. It takes no memory.
///
/// Bytes after the header are not read, so a first part of a file will do.
///
/// # Errors
///
/// The place is in bytes from the start of the input.
///
/// - Where a longword of the header is refused: the first fault, at the first byte of its
///   longword, with the reason.
/// - `Budget` at the size word with which the declared bytes first pass the budget.
/// - `Truncated` where the bytes end inside the header, at 4 times the number of whole longwords.
///   Each header that begins so has as many more bytes as are `owed`, and one of them has no more.
pub fn header_size(bytes: &[u8], budget: u64) -> Result<HeaderSize, NoHeader>
    ensures size { IfOk result (HasHeaderSize budget bytes.now) }
    ensures refusal { IfErr result (λ none. RefusesHeader budget bytes.now none.fault) }
    ensures accepts { IfErr result
        (λ none. HasHeaderInFront bytes.now → none.fault.reason ≡ reasons.Budget) }
    ensures owed { IfErr result (λ none. TellsOwed bytes.now none.fault.reason none.owed) }
{
    let (mut at, mut state) = pass_front(bytes, budget);
    'words: while !state.position.is_after_header() {
        (at, state) = pass_entries(bytes, at, state, budget);
        let rest = &bytes[at..];
        let place = at as u64;
        if rest.len() < 4 {
            let reason = Reason::Truncated;
            return Err(NoHeader {
                fault: LoadFault { place, reason },
                owed: 4 * state.position.least_longs() - rest.len() as u64,
            });
        }
        match pass_header_word(state, budget, word_at(rest, 0)) {
            Ok(next) => state = next,
            Err(reason) => {
                return Err(NoHeader {
                    fault: LoadFault { place, reason },
                    owed: 0,
                });
            }
        }
        at += 4;
    }
    Ok(HeaderSize {
        hunks: word_at(bytes, TABLE_SIZE_AT),
        bytes: at as u64,
        declared: state.total,
    })
}
