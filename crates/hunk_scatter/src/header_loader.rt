//! The loader of a header.
ghost use Rattle.std.specs.Prelude.{◌≡◌, ℕ, ◌+◌, ◌*◌, ◌/◌, ◌<◌, ◌≤◌, ◌^◌, List, [], ◌++◌, length, Some, None};
ghost use Rattle.std.specs.Prelude.{Ok, Err, IfOk, IfErr, OnOk};
ghost use Rattle.std.specs.Prelude.{OnErr, IsOk, IsTrue, IsErrAnd, ◌⊎◌};
ghost use Rattle.hunk_words.specs.Limits.{most_hunks};
ghost use Rattle.hunk_words.specs.PendingBytes.{pending_of};
ghost use Rattle.hunk_words.specs.declared.fault.Fault.{Fault};
ghost use Rattle.hunk_words.specs.declared.reason.Reason.TheVariants as reasons;
ghost use Rattle.hunk_grammar.specs.declared.file_kind.Sniff.TheVariants.{Load};
ghost use Rattle.hunk_files.specs.declared.part.Part.TheVariants.{Header};
ghost use Rattle.hunk_files.specs.Fault.{IsTruncated};
ghost use Rattle.hunk_files.specs.FileParts.{IsPartAt};
ghost use Rattle.hunk_files.specs.Image.{declared_bytes};
ghost use Rattle.hunk_files.specs.LoadFile.{TableEntry};
ghost use Rattle.hunk_scatter.specs.LoaderReasons.{is_of_header};
ghost use Rattle.hunk_scatter.specs.HeaderBytes.{IsHeaderTable, header_bytes, IsHeader, MayGoOnInHeader};
ghost use Rattle.hunk_scatter.specs.HeaderBytes.{entries_so_far};
ghost use Rattle.hunk_scatter.specs.HeaderFaults.{ExceedsBudget, IsOverBudget, IsBudgetOrMemory};
ghost use Rattle.hunk_scatter.specs.HeaderFaults.{KeepsToBudget, IsHeaderFault};
ghost use Rattle.hunk_scatter.specs.HeaderFeeds.{StopsAtLongword};
ghost use Rattle.hunk_scatter.specs.HeaderLoaderFields.{FeedsHeaderOrStops};
ghost use Rattle.hunk_scatter.specs.HeaderOwing.{HasRowsToCome, HasHeaderToCome};
ghost use Rattle.hunk_scatter.specs.Owing.{most_want};
ghost use Rattle.hunk_scatter.specs.LoaderValues.{FeedsFront, HasNoRefusal};
ghost use Rattle.hunk_scatter.specs.LoadOutcomes.{GoesPastNoHeader};
ghost use Rattle.hunk_words.specs.Longs.{longs};

use crate::declared::Declared;
use crate::header_state::{HeaderState, take_header_word};
use hunk_files::Row;
use hunk_grammar::Position;
use hunk_words::{History, LoadFault, Pending, Reason};
use std::alloc::Global;
use std::marker::Model;

/// The most bytes that a loader wants at a time, and the size of the buffer of a load.
pub(crate) const MOST_WANT: usize = 256;

/// Takes the header of a load file, whose hunks may declare no more bytes together than a budget.
///
/// Contracts see the bytes that were consumed, the budget and the refusal. Memory is asked for rows
/// that were read, and for nothing else.
#[derive(Drop)]
pub struct HeaderLoader {
    alloc: Global,
    rows: Vec<Row>,
    state: HeaderState,
    budget: u64,
    pending: Pending,
    count: u64,
    refused: Option<LoadFault>,
    history: History,
}

impl Model for HeaderLoader {
    ghost use Rattle.hunk_scatter.specs.HeaderLoaderFields.{HeaderLoaderInvariant};
    ghost use Rattle.hunk_scatter.specs.LoaderValues.{HeaderLoaderValue};
    ghost use Rattle.hunk_words.specs.PendingBytes.{pending_of};

    ghost Value = { HeaderLoaderValue };

    ghost view = { λ s. record { fed = s.history.bytes; budget = s.budget; refused = s.refused } };

    ghost invariant = { λ s. HeaderLoaderInvariant s.budget s.rows.items s.state
        (pending_of s.pending) s.count s.refused s.history.bytes };
}

impl HeaderLoader {
    /// A loader that nothing was fed to. All hunks together may declare `budget` bytes. It takes no
    /// memory.
    #[tactic(auto, using(crate::proofs::HeaderFields::heading_new))]
    pub fn new(alloc: Global, budget: u64) -> HeaderLoader
        ensures fed { result.fed ≡ [] }
        ensures budget { result.budget ≡ budget }
        ensures unrefused { result.refused ≡ None }
    {
        HeaderLoader {
            alloc,
            rows: Vec::new(alloc),
            state: HeaderState {
                position: Position::FirstLong,
                total: 0,
            },
            budget,
            pending: Pending::NONE,
            count: 0,
            refused: None,
            history: History::new(),
        }
    }

    /// Takes a byte, or a longword that lies whole in the piece, unless the header is whole.
    #[tactic(auto, using(crate::proofs::HeaderFields::heading_few, crate::proofs::HeaderFields::heading_room))]
    fn take_long(&mut self, piece: &[u8]) -> Result<usize, LoadFault>
        requires reading { self.old.refused ≡ None }
        requires nonempty { 0 < length piece.now }
        ensures feeds_or_stops { FeedsHeaderOrStops self.old self.new piece.now result }
        ensures ends { result ≡ Ok 0 → IsHeader self.new.fed }
    {
        if self.state.position.is_after_header() {
            return Ok(0);
        }
        let (pending, taken, next) = self.pending.take_front(piece);
        let bytes = &piece[..taken];
        let count = self.count + taken as u64;
        let Some(word) = next else {
            self.pending = pending;
            self.count = count;
            self.history = self.history.and(bytes);
            return Ok(taken);
        };
        match take_header_word(&mut self.rows, self.state, self.budget, word) {
            Ok(state) => {
                self.state = state;
                self.pending = pending;
                self.count = count;
                self.history = self.history.and(bytes);
                Ok(taken)
            }
            Err(reason) => {
                let place = count - 4;
                let fault = LoadFault { place, reason };
                self.rows = Vec::new(self.alloc);
                self.refused = Some(fault);
                Err(fault)
            }
        }
    }

    /// How many bytes to read next, at most; 0 where nothing more is taken.
    ///
    /// Every header that begins with what was fed has at least as many bytes more. What each one
    /// still has that begins with the longwords fed is wanted at once, up to 256 bytes: a longword
    /// at least of each row owed. No longword that was fed is refused before `feed` answers that;
    /// where the input ends here, it is truncated.
    pub fn want(&self) -> usize
        ensures bound { result ≤ most_want }
        ensures least { (table : List TableEntry) (more : List ℕ) → IsHeaderTable table
            → header_bytes table ≡ self.now.fed ++ more → result ≤ length more }
        ensures to_come { self.now.refused ≡ None → (p : ℕ) → HasHeaderToCome self.now.fed p
            → (p ≤ result) ⊎ (most_want ≤ result) }
        ensures rows { self.now.refused ≡ None → (p : ℕ) → HasRowsToCome self.now.fed p
            → (p ≤ result) ⊎ (most_want ≤ result) }
        ensures over { self.now.refused ≡ None → IsHeader self.now.fed → result ≡ 0 }
        ensures finished { self.now.refused ≡ None → result ≡ 0 → IsHeader self.now.fed }
        ensures wants_nothing { (f : Fault) → self.now.refused ≡ Some f → result ≡ 0 }
        ensures clean { self.now.refused ≡ None → HasNoRefusal self.now.fed }
        ensures truncated { self.now.refused ≡ None
            → IsTruncated self.now.fed (4 * (length self.now.fed / 4)) }
        ensures in_header { 0 < result
            → IsPartAt Load self.now.fed (4 * (length self.now.fed / 4)) Header }
        ensures keeps_to_budget { self.now.refused ≡ None
            → KeepsToBudget self.now.budget self.now.fed }
    {
        if self.refused.is_some() {
            return 0;
        }
        if self.state.position.is_after_header() {
            return 0;
        }
        bytes_wanted(self.state.position.least_longs(), self.pending)
    }

    /// Consumes the piece, or up to the end of the header where that stands inside it, and gives
    /// the number of bytes consumed: none after the header. A header that is whole consumes
    /// nothing.
    ///
    /// # Errors
    ///
    /// The place is the first byte of a longword, from the start of the file.
    ///
    /// - The first fault of all that was fed, this piece included, where a longword is refused.
    /// - `Budget` at the size word with which the declared bytes first pass the budget.
    /// - `OutOfMemory` at the longword that completes a row, where memory for it is refused. The
    ///   last byte of that longword is in this piece.
    ///
    /// Nothing is consumed then, and no row is held. Each later `feed` answers the same and changes
    /// nothing, and `want` is 0.
    pub fn feed(&mut self, piece: &[u8]) -> Result<usize, LoadFault>
        ensures budget { self.new.budget ≡ self.old.budget }

        // Success.
        ensures taken { IfOk result (FeedsFront self.old.fed piece.now self.new.fed) }
        ensures all { IfOk result (λ n. n < length piece.now → IsHeader self.new.fed) }
        ensures inside_header { OnOk result (GoesPastNoHeader self.new.fed) }
        ensures takes_no_more { self.old.refused ≡ None → IsHeader self.old.fed → result ≡ Ok 0 }
        ensures reading { OnOk result ((self.old.refused ≡ None) × (self.new.refused ≡ None)) }

        // Refusals.
        ensures refusal { self.old.refused ≡ None
            → IfErr result (IsHeaderFault self.old.budget (self.old.fed ++ piece.now)) }
        ensures in_header { self.old.refused ≡ None
            → IfErr result (λ f. IsPartAt Load (self.old.fed ++ piece.now) f.place Header) }
        ensures passes_budget { self.old.refused ≡ None → (at : ℕ)
            → ExceedsBudget self.old.budget (self.old.fed ++ piece.now) at
            → IsErrAnd result (IsOverBudget at) }
        ensures out_of_memory { self.old.refused ≡ None
            → IfErr result (λ f. f.reason ≡ reasons.OutOfMemory
            → length self.old.fed < f.place + 4) }
        ensures accepts { self.old.refused ≡ None → MayGoOnInHeader (self.old.fed ++ piece.now)
            → IfErr result (λ f. IsBudgetOrMemory f.reason) }
        ensures own_reasons { IfErr result (λ f. IsTrue (is_of_header f.reason)) }
        ensures at_longword { self.old.refused ≡ None
            → IfErr result (StopsAtLongword self.old.budget self.old.fed piece.now) }

        // A loader that has refused.
        ensures remembers { IfErr result (λ f. self.new.refused ≡ Some f) }
        ensures nothing { OnErr result (self.new.fed ≡ self.old.fed) }
        ensures stays { (f : Fault) → self.old.refused ≡ Some f → (result ≡ Err f)
            × (self.new ≡ self.old) }
    {
        if let Some(fault) = self.refused {
            return Err(fault);
        }
        let before = self.history.and(&[]);
        let count = self.count;
        let mut taken = 0;
        while taken < piece.len() {
            match self.take_long(&piece[taken..]) {
                Ok(0) => break,
                Ok(part) => taken += part,
                Err(fault) => {
                    self.history = before;
                    self.count = count;
                    return Err(fault);
                }
            }
        }
        // The proof learns that what was fed keeps to the budget.
        let _ = &self.history;
        Ok(taken)
    }

    /// The bytes that are held: 12 for each row that is whole in what was fed, none after an error.
    #[tactic(auto, using(crate::proofs::HeaderFields::heading_rows))]
    pub fn held(&self) -> u64
        ensures exact { self.now.refused ≡ None
            → result ≡ 12 * length (entries_so_far (longs self.now.fed)) }
        ensures cleared { (f : Fault) → self.now.refused ≡ Some f → result ≡ 0 }
        ensures bound { result ≤ 12 * most_hunks }
    {
        12 * self.rows.len() as u64
    }

    /// The number of bytes that were consumed.
    pub(crate) fn fed(&self) -> u64
        ensures { result ≡ length self.now.fed }
    {
        self.count
    }

    /// The table of a header that is whole.
    ///
    /// # Errors
    ///
    /// The loader as it was, where the header is not whole or a piece was refused.
    #[tactic(auto, using(crate::proofs::HeaderFields::heading_not_whole))]
    pub fn declared(self) -> Result<Declared, HeaderLoader>
        ensures table { IfOk result
            (λ d. IsHeaderTable d.table × (self.fed ≡ header_bytes d.table)) }
        ensures budget { IfOk result (λ d. d.budget ≡ self.budget) }
        ensures keeps_to_budget { IfOk result (λ d. declared_bytes d.table ≤ self.budget) }
        ensures reading { OnOk result (self.refused ≡ None) }
        ensures finishes { self.refused ≡ None → IsHeader self.fed → IsOk result }
        ensures same { IfErr result (λ loader. loader ≡ self) }
    {
        if self.refused.is_some() {
            return Err(self);
        }
        if !self.state.position.is_after_header() {
            return Err(self);
        }
        let HeaderLoader {
            alloc,
            mut rows,
            state,
            budget,
            pending: _,
            count,
            refused: _,
            history,
        } = self;
        rows.shrink_to_fit();
        Ok(Declared {
            alloc,
            rows,
            total: state.total,
            budget,
            count,
            history,
        })
    }
}

/// How many bytes a loader wants next to which this many longwords are still to come, with what is
/// pending of the first of them.
#[inline(always)]
pub(crate) fn bytes_wanted(longs: u64, pending: Pending) -> usize
    requires some { 0 < longs }
    requires room { longs < 2 ^ 35 }
    requires few { length (pending_of pending) < 4 }
    ensures some { 0 < result }
    ensures bound { result ≤ most_want }
    ensures to_come { result + length (pending_of pending) ≤ 4 * longs }
    ensures all { (4 * longs ≤ result + length (pending_of pending)) ⊎ (most_want ≤ result) }
{
    let bytes = 4 * longs - u64::from(pending.count);
    if bytes < MOST_WANT as u64 {
        bytes as usize
    } else {
        MOST_WANT
    }
}
