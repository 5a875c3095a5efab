//! A loader in numbers, which its caller keeps.
ghost use Rattle.std.specs.Prelude.{◌≡◌, ◌≤◌, ◌<◌, ◌+◌, ◌-◌, ◌*◌, ◌↔◌, false, true, ℕ, List, IfErr, IfOk, IsTrue, MatchOption};
ghost use Rattle.hunk_words.specs.declared.fault.Fault.{Fault};
ghost use Rattle.hunk_grammar.specs.Positions.{is_done};
ghost use Rattle.hunk_grammar.specs.declared.position.Position.TheVariants as positions;
ghost use Rattle.hunk_files.specs.declared.row.Row.{Row};
ghost use Rattle.hunk_scatter.specs.Streaming.{IsFed};
ghost use Rattle.hunk_c.specs.Loaders.{CountsBytes, IsReady, LiesIn, MayBeInBody, MayHavePosition, MayHaveStood};
ghost use Rattle.hunk_c.specs.Loaders.{OwesByPhase, StandsAt, TellsAgain, TellsFault, TellsNone};
ghost use Rattle.hunk_c.specs.Loaders.{least_file, loader_at, loader_position, open_hunk, refusing, standing_in, whole};

use crate::answer::{Answer, refused, strange};
use crate::phases::{CONTENT, OFFSET, WHOLE, numbers_of, phase_in};
use hunk_files::Row;
use hunk_grammar::{OpenHunk, Position};
use hunk_scatter::stream::{BodyState, Pending, Standing};
use hunk_words::{CONTENT_LIMIT, Fault, MOST_HUNKS, NAME_LIMIT, Reason};

/// Where a loader stands between two pieces: 96 bytes, with no padding.
///
/// Any numbers may stand here. Zeros are answered by `STRANGE`, and so are those that lead out of
/// the rows or the memory.
#[repr(C)]
#[derive(Clone, Copy)]
pub struct Loader {
    /// The byte of the memory where the open hunk begins; after the last hunk, the bytes of all.
    pub start: u64,
    /// The bytes of header and body that were taken, or 2^64 - 1 where these are more.
    pub fed: u64,
    /// The byte that was refused.
    pub place: u64,
    /// The number of the reason for which it was, 1 to 31; 0 where none was refused.
    pub refused: u32,
    /// The hunk that the answer of this refusal names.
    pub refused_hunk: u32,
    /// The open hunk; after the last, the number of hunks.
    pub hunk: u32,
    /// The number of hunks of the file; 0 where the file is whole.
    pub hunks: u32,
    /// How many hunks come after the open one.
    pub ahead: u32,
    /// Whether the content block of the open hunk came: 0 or 1.
    pub has_content: u32,
    /// What the next longword is for, 1 to 13; 14 where the file is whole.
    pub phase: u32,
    /// The longwords of a content, or the target of offsets.
    pub part: u32,
    /// How many longwords of its kind follow the next.
    pub owed: u32,
    /// How many bytes of the next longword have come, 0 to 3.
    pub pending: u8,
    /// The first of these bytes.
    pub first: u8,
    /// The second of these bytes.
    pub second: u8,
    /// The third of these bytes.
    pub third: u8,
    /// Room to grow: written as 0, and not read.
    pub reserved: [u64; 4],
}

/// The room to grow, as it is written.
pub(crate) const UNUSED: [u64; 4] = [0; 4];

/// Numbers of no loader, which every call answers by `STRANGE`.
pub(crate) const NO_LOADER: Loader = Loader {
    start: 0,
    fed: 0,
    place: 0,
    refused: 0,
    refused_hunk: 0,
    hunk: 0,
    hunks: 0,
    ahead: 0,
    has_content: 0,
    phase: 0,
    part: 0,
    owed: 0,
    pending: 0,
    first: 0,
    second: 0,
    third: 0,
    reserved: UNUSED,
};

impl Loader {
    /// The numbers of where a loader stands.
    #[inline(always)]
    pub(crate) fn of(at: Standing) -> Loader
        ensures { result ≡ loader_at at }
    {
        let (hunk, phase, part, owed) = numbers_of(at.state.position);
        Loader {
            start: at.state.start,
            fed: at.fed,
            hunk: at.state.hunk,
            hunks: hunk.hunks,
            ahead: hunk.ahead,
            has_content: u32::from(hunk.has_content),
            phase,
            part,
            owed,
            pending: at.pending.count,
            first: at.pending.first,
            second: at.pending.second,
            third: at.pending.third,
            ..NO_LOADER
        }
    }

    /// With this refusal, so that each later call answers it again.
    pub(crate) fn refusing(self, fault: Fault) -> Loader
        ensures { result ≡ refusing self fault }
    {
        let answer = refused(fault);
        Loader {
            place: answer.place,
            refused: answer.number,
            refused_hunk: answer.hunk,
            reserved: UNUSED,
            ..self
        }
    }

    /// Where the loader stands.
    ///
    /// # Errors
    ///
    /// What each call answers to it: the refusal again, where it has refused a longword; `STRANGE`
    /// where no loader has these numbers.
    pub(crate) fn standing(&self) -> Result<Standing, Answer>
        ensures stands { IfOk result (StandsAt self.now) }
        ensures tells { IfErr result (TellsAgain self.now) }
    {
        let Some(position) = self.position() else {
            return Err(strange());
        };
        if !self.has_stood() {
            return Err(strange());
        }
        if self.is_clean() {
            return Ok(self.standing_at(position));
        }
        match self.fault() {
            Some(fault) => Err(refused(fault)),
            None => Err(strange()),
        }
    }

    /// Whether a hunk is open, and a loader with these rows and this memory may stand so.
    #[inline(always)]
    pub(crate) fn is_ready(&self, rows: &[Row], total: usize) -> bool
        ensures { IsTrue result ↔ IsReady rows.now total self.now }
    {
        self.is_clean() && self.counts_bytes() && self.may_be_open() && self.lies_in(rows, total)
    }

    /// Whether the rows are the hunks, and the open one lies in a memory of `total` bytes.
    #[inline(always)]
    pub(crate) fn lies_in(&self, rows: &[Row], total: usize) -> bool
        requires { MayBeInBody self.now }
        ensures { IsTrue result ↔ LiesIn rows.now total self.now }
    {
        let hunks = rows.len();
        if self.hunks as usize != hunks {
            return false;
        }
        let longs = rows[self.hunk as usize].size().longs();
        let bytes = 4 * u64::from(longs);
        let total = total as u64;
        if bytes > total || self.start > total - bytes {
            return false;
        }
        self.phase != CONTENT || self.part <= longs
    }

    /// Whether the numbers tell no refusal.
    #[inline(always)]
    pub(crate) fn is_clean(&self) -> bool
        ensures { IsTrue result ↔ TellsNone self.now }
    {
        self.place == 0 && self.refused == 0 && self.refused_hunk == 0
    }

    /// Whether a loader may stand so, or have stood so before a refusal.
    #[inline(always)]
    fn has_stood(&self) -> bool
        ensures { IsTrue result ↔ MayHaveStood self.now }
    {
        if !self.counts_bytes() {
            return false;
        }
        if self.phase == WHOLE {
            return self.may_be_whole();
        }
        self.may_be_open()
    }

    /// Where the loader stands at this position, by its other numbers.
    #[inline(always)]
    pub(crate) fn standing_at(&self, position: Position) -> Standing
        ensures { result ≡ standing_in self.now position }
    {
        Standing {
            state: BodyState {
                start: self.start,
                hunk: self.hunk,
                position,
            },
            fed: self.fed,
            pending: Pending {
                count: self.pending,
                first: self.first,
                second: self.second,
                third: self.third,
            },
        }
    }

    /// The refusal that the numbers tell; `None` where they tell none of a longword of a body.
    fn fault(&self) -> Option<Fault>
        ensures { MatchOption result ((fault : Fault) → TellsFault self.now fault → ⊥)
            (TellsFault self.now) }
    {
        let is_of_body = matches!(self.refused, 3 | 9 | 11..=24);
        if !is_of_body || self.refused_hunk > 0 || self.place % 4 > 0 {
            return None;
        }
        let reason = Reason::from_number(self.refused)?;
        Some(Fault {
            place: self.place,
            reason,
        })
    }

    /// Whether bytes are pending as they were fed, after whole longwords.
    #[inline(always)]
    pub(crate) fn counts_bytes(&self) -> bool
        ensures { IsTrue result ↔ CountsBytes self.now.start self.now.fed self.now.pending }
    {
        if self.start % 4 > 0 {
            return false;
        }
        if self.fed % 4 == u64::from(self.pending) {
            return true;
        }
        self.fed == u64::MAX && self.pending < 4
    }

    /// What the next longword is for, as the number of the phase tells it.
    #[inline(always)]
    pub(crate) fn position(&self) -> Option<Position>
        ensures { result ≡ loader_position self.now }
    {
        if self.phase == WHOLE {
            return Some(Position::Done);
        }
        let phase = phase_in(self.phase, self.part, self.owed)?;
        Some(Position::Body(self.open_hunk(), phase))
    }

    /// Whether a loader may have these numbers where the file is whole.
    #[inline(always)]
    fn may_be_whole(&self) -> bool
        requires { self.now.phase ≡ whole }
        ensures { IsTrue result ↔ MayHavePosition self.now positions.Done }
    {
        let is_closed = self.hunks == 0 && self.ahead == 0 && self.has_content == 0;
        let owes_none = self.part == 0 && self.owed == 0 && self.pending == 0;
        if !is_closed || !owes_none || self.hunk == 0 || self.hunk > MOST_HUNKS {
            return false;
        }
        least_file(self.hunk) <= self.fed
    }

    /// The hunk that is open.
    #[inline(always)]
    fn open_hunk(&self) -> OpenHunk
        ensures { result ≡ open_hunk self.now }
    {
        OpenHunk {
            hunks: self.hunks,
            ahead: self.ahead,
            has_content: self.has_content == 1,
        }
    }

    /// Whether a loader may have these numbers where a hunk is open.
    #[inline(always)]
    pub(crate) fn may_be_open(&self) -> bool
        ensures { IsTrue result ↔ MayBeInBody self.now }
    {
        if self.has_content > 1 || self.hunks > MOST_HUNKS {
            return false;
        }
        if u64::from(self.hunk) + 1 + u64::from(self.ahead) != u64::from(self.hunks) {
            return false;
        }
        4 * (5 + u64::from(self.hunks)) <= self.fed && self.may_owe()
    }

    /// Whether so much may be owed at this phase.
    #[inline(always)]
    fn may_owe(&self) -> bool
        ensures { IsTrue result ↔ OwesByPhase self.now }
    {
        if self.phase == CONTENT {
            let is_inside = self.owed < self.part && self.part < CONTENT_LIMIT;
            return is_inside && self.has_content != 1;
        }
        if self.phase == OFFSET {
            return self.part < self.hunks && self.has_content == 1;
        }
        match self.phase {
            1 => self.owes_none() && self.has_content != 1,
            2 => self.owes_none(),
            3 => self.owes_none(),
            4 => self.owes_none(),
            5 => self.owes_none() && self.has_content != 1,
            6 => self.owes_none() && self.has_content != 1,
            8 => self.part == 0,
            9 => self.owes_none() && self.has_content == 1,
            10 => self.part == 0 && self.has_content == 1,
            12 => self.owes_none(),
            13 => self.part == 0 && self.owed < NAME_LIMIT,
            _ => false,
        }
    }

    /// Whether no part is told, and no longword is owed.
    #[inline(always)]
    fn owes_none(&self) -> bool
        ensures { IsTrue result ↔ ((self.now.part ≡ 0) × (self.now.owed ≡ 0)) }
    {
        self.part == 0 && self.owed == 0
    }
}

/// The bytes of the least file of so many hunks: five longwords, and four for each.
#[inline(always)]
fn least_file(hunks: u32) -> u64
    ensures { result ≡ least_file hunks }
{
    4 * (5 + 4 * u64::from(hunks))
}

/// Whether the file would end in fewer bytes than one of as many hunks has, so that no loader
/// stands so.
#[inline(always)]
pub(crate) fn ends_early(at: &Standing) -> bool
    ensures nowhere { result ≡ true
        → (rows : List Row) (memory fed : List ℕ) → IsFed rows memory at.now fed → ⊥ }
    ensures late { result ≡ false → is_done at.now.state.position ≡ true
        → least_file at.now.state.hunk ≤ at.now.fed }
{
    match at.state.position {
        Position::Done => at.fed < least_file(at.state.hunk),
        _ => false,
    }
}
