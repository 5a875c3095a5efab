//! A source of the plain spelling.
ghost use Rattle.std.specs.Prelude.{◌≡◌, ℕ, ◌<◌, ◌≤◌, ◌||◌, ◌↔◌, List, [], ◌++◌, Some, IsTrue, IfOk};
ghost use Rattle.std.specs.Prelude.{MatchResult, false, is_err, OnOk, drop, length, take};
ghost use Rattle.std.specs.Io.KnownBytes.{Consumes, Keeps, ReadConsumes};
ghost use Rattle.std.specs.Io.{ReadsAtMost};
ghost use Rattle.hunk_wide.specs.Held.{owed, straight_of, supply_of, wanted};
ghost use Rattle.hunk_wide.specs.InFile.{InFile, StaysInFile};
ghost use Rattle.hunk_wide.specs.Plain.{plain};
ghost use Rattle.hunk_wide.specs.Wide.{IsWide};
ghost use Rattle.hunk_files.specs.LoadFile.{IsLoadFile, LoadFileValue};
ghost use Rattle.hunk_files.specs.LoadText.{text};
ghost use Rattle.hunk_words.specs.Longs.{bytes_of};

use crate::expander::Expander;
use hunk_words::{Failed, Source};

/// A source of the plain spelling of what another source gives.
///
/// No byte is pulled before it is asked for: at most the rest of the longword, or of the word of 16
/// bits, that the next byte to be given out is made of, and of longwords that are given out as they
/// are no more than fit. After the END of the last hunk of a load file all bytes pass.
#[derive(Drop)]
pub struct Plain<R> {
    source: R,
    held: Expander,
}

impl<R: Source> Plain<R> {
    /// Of a file that begins where the source stands.
    pub fn new(source: R) -> Plain<R>
        ensures source { result.source ≡ source }
        ensures left { (input : List ℕ) → (R.supply source).left ≡ Some input
            → (supply_of result.held (R.supply result.source)).left ≡ Some (plain input) }
        ensures file { (v : LoadFileValue) (bytes rest : List ℕ) → IsLoadFile v
            → IsWide false v bytes → (R.supply source).left ≡ Some (bytes ++ rest)
            → InFile result.held (R.supply result.source).left (bytes_of (text v)) rest }
    {
        Plain {
            source,
            held: Expander::new(),
        }
    }

    /// Whether nothing is held, and all bytes pass: what the source has left is what is left.
    ///
    /// So it is where a load file was read to its end. An object file ends with the input.
    pub fn is_passing(&self) -> bool
        ensures exact { IsTrue result
            ↔ ((self.now.held.ready ≡ []) × (wanted self.now.held ≡ 0)) }
        ensures left { IsTrue result → (supply_of self.now.held (R.supply self.now.source)).left
            ≡ (R.supply self.now.source).left }
        ensures file { (rest : List ℕ)
            → InFile self.now.held (R.supply self.now.source).left [] rest
            → (IsTrue result) × ((R.supply self.now.source).left ≡ Some rest) }
    {
        self.held.is_empty() && self.held.want() == 0
    }

    /// The source, as the pulls have left it. What is held is lost.
    pub fn into_inner(self) -> R
        ensures { result ≡ self.source }
    {
        let Plain { source, held: _ } = self;
        source
    }

    /// Gives out what the bytes that the source shows are for, as far as they fit, and gives the
    /// number of the bytes that are in the buffer.
    fn give_shown(&mut self, buf: &mut [u8]) -> usize
        ensures inside { result ≤ length buf.new }
        ensures bytes { Consumes (supply_of self.old.held (R.supply self.old.source)).left
            (supply_of self.new.held (R.supply self.new.source)).left (take result buf.new) }
        ensures works { (R.supply self.new.source).failed ≡ (R.supply self.old.source).failed }
        ensures file { StaysInFile self.old.held (R.supply self.old.source).left
            self.new.held (R.supply self.new.source).left result }
        ensures none_ahead { 0 < result → (self.new.held.begun ≡ []) × (self.new.held.ready ≡ []) }
    {
        let (taken, given) = self.held.expand(self.source.held(), buf);
        self.source.consume(taken);
        given
    }

    /// Pulls bytes that are given out as they are, as many as fit, and gives their number: 0 where
    /// no such bytes come.
    fn pull_straight(&mut self, buf: &mut [u8]) -> Result<usize, Failed>
        ensures inside { IfOk result (λ n. n ≤ length buf.new) }
        ensures bytes { MatchResult result
            (λ n. Consumes (supply_of self.old.held (R.supply self.old.source)).left
            (supply_of self.new.held (R.supply self.new.source)).left (take n buf.new))
            (λ _. Keeps (supply_of self.old.held (R.supply self.old.source)).left
            (supply_of self.new.held (R.supply self.new.source)).left) }
        ensures fails { (R.supply self.new.source).failed
            ≡ ((R.supply self.old.source).failed || is_err result) }
        ensures file { MatchResult result
            (λ n. StaysInFile self.old.held (R.supply self.old.source).left
            self.new.held (R.supply self.new.source).left n)
            (λ _. StaysInFile self.old.held (R.supply self.old.source).left
            self.new.held (R.supply self.new.source).left 0) }
        ensures none_ahead { IfOk result (λ n. 0 < n
            → (self.new.held.begun ≡ []) × (self.new.held.ready ≡ [])) }
    {
        let most = self.held.straight(buf).len();
        if most == 0 {
            return Ok(0);
        }
        let pulled = self.source.pull(&mut buf[..most])?;
        self.held.pass(pulled as u64);
        Ok(pulled)
    }

    /// Pulls bytes that are wanted, at most this many, and gives their number.
    fn refill(&mut self, want: usize) -> Result<usize, Failed>
        requires some { 0 < want }
        requires most { want ≤ 4 }
        requires wanted { want ≤ wanted self.old.held }
        ensures left { Keeps (supply_of self.old.held (R.supply self.old.source)).left
            (supply_of self.new.held (R.supply self.new.source)).left }
        ensures fails { (R.supply self.new.source).failed
            ≡ ((R.supply self.old.source).failed || is_err result) }
        ensures fewer { OnOk result (owed self.new.held < owed self.old.held) }
        ensures file { StaysInFile self.old.held (R.supply self.old.source).left
            self.new.held (R.supply self.new.source).left 0 }
    {
        let mut piece = [0; 4];
        let count = self.source.pull(&mut piece[..want])?;
        if count == 0 {
            self.held.end();
        } else {
            self.held.take(&piece[..count]);
        }
        Ok(count)
    }

    /// Pulls as `pull` does, a unit at a time.
    fn pull_unit(&mut self, buf: &mut [u8]) -> Result<usize, Failed>
        requires { 0 < length buf.old }
        ensures inside { ReadsAtMost result buf.new }
        ensures bytes { ReadConsumes (supply_of self.old.held (R.supply self.old.source)).left
            (supply_of self.new.held (R.supply self.new.source)).left result buf.new }
        ensures fails { (R.supply self.new.source).failed
            ≡ ((R.supply self.old.source).failed || is_err result) }
        ensures file { MatchResult result
            (λ n. StaysInFile self.old.held (R.supply self.old.source).left
            self.new.held (R.supply self.new.source).left n)
            (λ _. StaysInFile self.old.held (R.supply self.old.source).left
            self.new.held (R.supply self.new.source).left 0) }
        ensures none_ahead { IfOk result (λ n. (self.new.held.begun ≡ [])
            × (n < length buf.new → self.new.held.ready ≡ [])) }
    {
        'filling: loop {
            let want = self.held.want();
            if want == 0 {
                break 'filling;
            }
            self.refill(want)?;
        }
        if self.held.is_empty() {
            return self.source.pull(buf);
        }
        Ok(self.held.give(buf))
    }
}

impl<R: Source> Source for Plain<R> {
    ghost supply = { λ s. supply_of s.held (R.supply s.source) };

    ghost shown = { λ s. straight_of s.held (R.shown s.source) };

    fn pull(&mut self, buf: &mut [u8]) -> Result<usize, Failed>
        ensures inside { ReadsAtMost result buf.new }
        ensures bytes { ReadConsumes (supply_of self.old.held (R.supply self.old.source)).left
            (supply_of self.new.held (R.supply self.new.source)).left result buf.new }
        ensures fails { (R.supply self.new.source).failed
            ≡ ((R.supply self.old.source).failed || is_err result) }

        // Where a file is given out, no byte after it is taken.
        ensures file { MatchResult result
            (λ n. StaysInFile self.old.held (R.supply self.old.source).left
            self.new.held (R.supply self.new.source).left n)
            (λ _. StaysInFile self.old.held (R.supply self.old.source).left
            self.new.held (R.supply self.new.source).left 0) }

        // No part of a further unit is held, and of the last one nothing that fitted.
        ensures none_ahead { IfOk result (λ n. 0 < n → (self.new.held.begun ≡ [])
            × (n < length buf.new → self.new.held.ready ≡ [])) }
    {
        if buf.is_empty() {
            return Ok(0);
        }
        let given = self.give_shown(buf);
        if given > 0 {
            return Ok(given);
        }
        let given = self.pull_straight(buf)?;
        if given > 0 {
            return Ok(given);
        }
        self.pull_unit(buf)
    }

    /// Those of the source that are given out as they are.
    fn held(&self) -> &[u8] {
        self.held.straight(self.source.held())
    }

    fn consume(&mut self, count: usize)
        requires { count ≤ length (straight_of self.old.held (R.shown self.old.source)) }
        ensures bytes { Consumes (supply_of self.old.held (R.supply self.old.source)).left
            (supply_of self.new.held (R.supply self.new.source)).left
            (take count (straight_of self.old.held (R.shown self.old.source))) }
        ensures rest { straight_of self.new.held (R.shown self.new.source)
            ≡ drop count (straight_of self.old.held (R.shown self.old.source)) }
        ensures works { (R.supply self.new.source).failed ≡ (R.supply self.old.source).failed }
        ensures file { StaysInFile self.old.held (R.supply self.old.source).left
            self.new.held (R.supply self.new.source).left count }
    {
        self.source.consume(count);
        self.held.pass(count as u64);
    }
}
