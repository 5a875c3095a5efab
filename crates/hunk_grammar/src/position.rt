//! Positions in a load file.
ghost use Rattle.std.specs.Prelude.{◌≡◌, ◌≤◌, ◌<◌, ◌^◌, false};
ghost use Rattle.hunk_grammar.specs.Positions as positions;
ghost use Rattle.hunk_grammar.specs.Positions.{step, run, pass, least_in, least_longs, is_done, is_after_header};
ghost use Rattle.hunk_grammar.specs.Positions.{is_between_hunks};

use crate::phase::Phase;
use hunk_words::SizeWord;

/// The longword of the header, counted from 0, that has the number of hunks.
///
/// Source: The AmigaDOS Manual. It stands after the header's word and the empty list of resident
/// names.
pub const TABLE_SIZE_AT: usize = 2;

/// The longword of the header, counted from 0, at which the table begins, after the number of the
/// last hunk.
///
/// Source: The AmigaDOS Manual.
pub const TABLE_AT: usize = 5;

/// The hunk that is open, without its size.
#[derive(Clone, Copy)]
pub struct OpenHunk {
    /// The number of hunks of the file.
    pub hunks: u32,
    /// How many hunks come after it.
    pub ahead: u32,
    /// Whether its content block came.
    pub has_content: bool,
}

/// What the next longword of a load file is for.
///
/// `hunks` is the number of hunks of the file. `owed` is how many entries of the table follow the
/// one that the next longword is of.
#[derive(Clone, Copy)]
pub enum Position {
    /// The first longword, which says what kind of file it is.
    FirstLong,
    /// The list of resident names, which has to be the 0 of an empty one.
    ResidentName,
    /// The table size: the number of hunks.
    TableSize,
    /// The number of the first hunk, which has to be 0.
    FirstHunk { hunks: u32 },
    /// The number of the last hunk, which has to be one less than the number of hunks.
    LastHunk { hunks: u32 },
    /// The size word of an entry of the table.
    SizeWord { hunks: u32, owed: u32 },
    /// The memory attributes of an entry, after its size word, which is `word`.
    Attributes { hunks: u32, word: u32, owed: u32 },
    /// A longword after the header: the hunk that it is of, and what it is for there.
    Body(OpenHunk, Phase),
    /// The file is whole.
    Done,
}

impl Position {
    /// Whether the header is whole.
    #[inline(always)]
    pub fn is_after_header(self) -> bool
        ensures { result ≡ is_after_header self }
    {
        match self {
            Position::Body(_, _) | Position::Done => true,
            _ => false,
        }
    }

    /// Whether no hunk is open any more: the next opens here, or the file is whole.
    #[inline(always)]
    pub fn is_between_hunks(self) -> bool
        ensures { result ≡ is_between_hunks self }
    {
        match self {
            Position::Body(_, Phase::FirstBlock) | Position::Done => true,
            _ => false,
        }
    }

    /// After a longword that is not refused.
    #[inline(always)]
    pub fn step(self, word: u32) -> Position
        ensures { result ≡ step self word }
    {
        let (hunks, owed) = match self {
            Position::FirstLong => return Position::ResidentName,
            Position::ResidentName => return Position::TableSize,
            Position::TableSize => return Position::FirstHunk { hunks: word },
            Position::FirstHunk { hunks } => return Position::LastHunk { hunks },
            Position::SizeWord { hunks, owed } if SizeWord::has_extra(word) => {
                return Position::Attributes { hunks, word, owed };
            }
            Position::Body(hunk, phase) => {
                return match phase.step(word) {
                    Some(next) => Position::Body(hunk, next),
                    None => after(hunk, phase),
                };
            }
            Position::Done => return Position::Done,
            Position::LastHunk { hunks } => (hunks, hunks),
            Position::SizeWord { hunks, owed }
            | Position::Attributes {
                hunks,
                word: _,
                owed,
            } => (hunks, owed),
        };
        // In the table, where so many entries are still to come.
        if owed == 0 {
            return open_next(hunks, hunks);
        }
        Position::SizeWord {
            hunks,
            owed: owed - 1,
        }
    }

    /// How many longwords come at least that no test looks at: a content, a payload, or a name with
    /// its value, as far as it is owed.
    #[inline(always)]
    pub fn run(self) -> u64
        ensures value { result ≡ run self }
        ensures bound { result ≤ 2 ^ 32 }
    {
        match self {
            Position::Body(_, phase) => phase.run(),
            _ => 0,
        }
    }

    /// After `count` longwords of a run.
    #[inline(always)]
    pub fn pass(self, count: u64) -> Position
        requires { count ≤ run self }
        ensures { result ≡ pass self count }
    {
        match self {
            Position::Body(hunk, phase) if count > 0 => match phase.pass((count - 1) as u32) {
                Some(next) => Position::Body(hunk, next),
                None => after(hunk, phase),
            },
            _ => self,
        }
    }

    /// The least number of longwords up to the end of the header, or after it up to the end of the
    /// file.
    #[inline(always)]
    pub fn least_longs(self) -> u64
        ensures value { result ≡ least_longs self }
        ensures positive { is_done self ≡ false → 0 < result }
        ensures bound { result < 2 ^ 35 }
    {
        match self {
            Position::FirstLong => 6,
            Position::ResidentName => 5,
            Position::TableSize => 4,
            Position::FirstHunk { hunks } => u64::from(hunks) + 2,
            Position::LastHunk { hunks } => u64::from(hunks) + 1,
            Position::SizeWord { hunks: _, owed }
            | Position::Attributes {
                hunks: _,
                word: _,
                owed,
            } => u64::from(owed) + 1,
            Position::Body(hunk, phase) => least_in_body(hunk, phase),
            Position::Done => 0,
        }
    }
}

/// The least number of longwords from this phase up to the end of the file, with this hunk open.
#[inline(always)]
fn least_in_body(hunk: OpenHunk, phase: Phase) -> u64
    ensures value { result ≡ least_in hunk phase }
    ensures positive { 0 < result }
    ensures bound { result < 2 ^ 35 }
{
    let hunks = 3 * u64::from(hunk.ahead);
    // An END is to come, and before it a block of content with its size.
    let blocks = 3 - 2 * u64::from(hunk.has_content) + hunks;
    match phase {
        Phase::FirstBlock | Phase::BlockWord => blocks,
        Phase::NameCount
        | Phase::LongCount
        | Phase::GroupCount
        | Phase::EntryWord
        | Phase::ExtWord => blocks + 1,
        Phase::ContentSize | Phase::BssSize => hunks + 2,
        Phase::Content { longs: _, owed } => u64::from(owed) + 2 + hunks,
        Phase::Payload { owed } => u64::from(owed) + 1 + blocks,
        Phase::Offset { target: _, owed } | Phase::Symbol { owed } | Phase::ExtRest { owed } =>
            u64::from(owed) + 2 + blocks,
        Phase::Target { owed } | Phase::ExtFront { owed } => u64::from(owed) + 3 + blocks,
        Phase::ExtCount => blocks + 2,
    }
}

/// After a block of the hunk whose last longword stands at this phase.
#[inline(always)]
fn after(hunk: OpenHunk, phase: Phase) -> Position
    ensures { result ≡ positions.after hunk phase }
{
    match phase {
        // The block that ends with its word is END.
        Phase::FirstBlock | Phase::BlockWord => open_next(hunk.hunks, hunk.ahead),
        Phase::ContentSize | Phase::BssSize | Phase::Content { longs: _, owed: _ } => {
            let hunk = OpenHunk {
                has_content: true,
                ..hunk
            };
            Position::Body(hunk, Phase::BlockWord)
        }
        _ => Position::Body(hunk, Phase::BlockWord),
    }
}

/// Where `left` hunks of a file of `hunks` are left. The file ends with the END of its last hunk:
/// this project's own choice.
#[inline(always)]
pub fn open_next(hunks: u32, left: u32) -> Position
    ensures { result ≡ positions.open_next hunks left }
{
    if left == 0 {
        Position::Done
    } else {
        Position::Body(
            OpenHunk {
                hunks,
                ahead: left - 1,
                has_content: false,
            },
            Phase::FirstBlock,
        )
    }
}
