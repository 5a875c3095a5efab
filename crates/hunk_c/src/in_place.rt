//! Pieces that go into a loader's numbers in place, for which no position is made of them: most of a
//! payload, and a byte.
ghost use Rattle.std.specs.Prelude.{◌≡◌, ◌≤◌, ◌<◌, ◌+◌, ◌-◌, ◌^◌, ◌++◌, ◌∷◌, [], ◌*◌, false, true, length};
ghost use Rattle.hunk_words.specs.Carriers.{saturated};
ghost use Rattle.hunk_words.specs.Longs.{IsBytes};
ghost use Rattle.hunk_words.specs.PendingBytes.{pending_of};
ghost use Rattle.hunk_scatter.specs.StoreContent.{put_slice};
ghost use Rattle.hunk_c.specs.Loaders.{IsReady, pending_in, refusal_in, with_numbers};
ghost use Rattle.hunk_c.specs.Streams.{PassesOver, TakesPiece};

use crate::loader::{Loader, UNUSED};
use crate::phases::{CONTENT, PAYLOAD, SYMBOL};
use hunk_files::Row;

impl Loader {
    /// Passes over the piece, where that is longwords of a payload, and more of it is to come: no
    /// test looks at them. Whether it did; it does not where no loader stands so.
    #[inline(always)]
    pub(crate) fn pass_payload(&mut self, rows: &[Row], total: usize, piece: &[u8]) -> bool
        ensures passes { result ≡ true → PassesOver rows.now total self.old piece.now self.new }
        ensures stays { result ≡ false → self.new ≡ self.old }
    {
        if self.phase != PAYLOAD || self.pending > 0 || piece.len() % 4 > 0 {
            return false;
        }
        let longs = piece.len() / 4;
        if longs == 0 || longs > self.owed as usize {
            return false;
        }
        if !self.is_clean() || !self.counts_bytes() {
            return false;
        }
        if !self.may_be_open() || !self.lies_in(rows, total) {
            return false;
        }
        self.pass_longs(piece.len(), longs as u32);
        true
    }

    /// Takes a byte that completes no longword. Whether it did; it does not where the piece is
    /// anything else, or no loader with these rows and this memory stands so. Nor does it where
    /// more bytes came than are counted.
    ///
    /// Each number is tested by itself, for no more than the answer takes: a position is not made
    /// of them.
    #[inline(always)]
    pub(crate) fn pass_byte(&mut self, rows: &[Row], total: usize, piece: &[u8]) -> bool
        ensures passes { result ≡ true → PassesOver rows.now total self.old piece.now self.new }
        ensures stays { result ≡ false → self.new ≡ self.old }
    {
        if piece.len() != 1 || self.pending > 2 || !self.is_clean() {
            return false;
        }
        if self.start % 4 > 0 || self.fed % 4 != u64::from(self.pending) {
            return false;
        }
        if !self.may_be_open() || !self.lies_in(rows, total) {
            return false;
        }
        self.push(piece[0]);
        true
    }

    /// Takes the byte that completes a longword of a content, a payload or a symbol, where more of
    /// that is to come. Whether it did; it does not where the longword is anything else.
    ///
    /// Nothing changes but what is owed, and in a content the longword of the memory: so a position
    /// is not made of the numbers here, either.
    #[inline(always)]
    pub(crate) fn take_last(&mut self, rows: &[Row], memory: &mut [u8], piece: &[u8]) -> bool
        requires { IsReady rows.now (length memory.old) self.old }
        ensures takes { result ≡ true → TakesPiece rows.now self.old self.new memory.old
            memory.new piece.now 1 }
        ensures stays { result ≡ false → self.new ≡ self.old }
        ensures keeps { result ≡ false → memory.new ≡ memory.old }
    {
        // The rows are for the contract alone.
        let _ = rows;
        if piece.len() != 1 || self.pending != 3 || self.owed == 0 {
            return false;
        }
        let long = long_of(self.first, self.second, self.third, piece[0]);
        if self.phase == CONTENT {
            let at = self.content_at();
            put_long(memory, at as usize, long);
            self.pass_last();
            return true;
        }
        if self.phase == PAYLOAD {
            self.pass_last();
            return true;
        }
        if self.phase == SYMBOL {
            self.pass_last();
            return true;
        }
        false
    }

    /// Takes the piece, where that is longwords of a content, and more of it is to come. Whether it
    /// did; it does not where the piece is anything else.
    #[inline(always)]
    pub(crate) fn take_content(&mut self, rows: &[Row], memory: &mut [u8], piece: &[u8]) -> bool
        requires { IsReady rows.now (length memory.old) self.old }
        ensures takes { result ≡ true → TakesPiece rows.now self.old self.new memory.old
            memory.new piece.now (length piece.now) }
        ensures stays { result ≡ false → self.new ≡ self.old }
        ensures keeps { result ≡ false → memory.new ≡ memory.old }
    {
        // The rows are for the contract alone.
        let _ = rows;
        if self.phase != CONTENT || self.pending > 0 || piece.len() % 4 > 0 {
            return false;
        }
        let longs = piece.len() / 4;
        if longs == 0 || longs > self.owed as usize {
            return false;
        }
        let at = self.content_at();
        put_longs(memory, at as usize, piece);
        self.pass_longs(piece.len(), longs as u32);
        true
    }

    /// Counts so many bytes of a run, so many longwords, after which others are owed.
    #[inline(always)]
    fn pass_longs(&mut self, bytes: usize, longs: u32)
        requires { longs ≤ self.old.owed }
        ensures { self.new ≡ with_numbers self.old (saturated (self.old.fed + bytes))
            (self.old.owed - longs) (pending_in self.old) (refusal_in self.old) }
    {
        self.fed = self.fed.saturating_add(bytes as u64);
        self.owed -= longs;
        self.reserved = UNUSED;
    }

    /// The byte of the memory where the next longword of a content goes.
    #[inline(always)]
    fn content_at(&self) -> u64
        requires inside { self.now.owed < self.now.part }
        requires small { self.now.start + 4 * self.now.part < 2 ^ 64 }
        ensures { result ≡ self.now.start + 4 * (self.now.part - self.now.owed - 1) }
    {
        self.start + 4 * u64::from(self.part - self.owed - 1)
    }

    /// Counts a byte that completes a longword of a run, after which others are owed.
    #[inline(always)]
    fn pass_last(&mut self)
        requires { 0 < self.old.owed }
        ensures { self.new ≡ with_numbers self.old (saturated (self.old.fed + 1))
            (self.old.owed - 1) (record { count = 0; first = 0; second = 0; third = 0 })
            (refusal_in self.old) }
    {
        self.fed = self.fed.saturating_add(1);
        self.owed -= 1;
        self.pending = 0;
        self.first = 0;
        self.second = 0;
        self.third = 0;
        self.reserved = UNUSED;
    }

    /// Keeps a byte that does not complete the next longword.
    #[inline(always)]
    fn push(&mut self, byte: u8)
        requires few { self.old.pending < 3 }
        requires counted { self.old.fed < 2 ^ 64 - 1 }
        ensures gathers { pending_of (pending_in self.new)
            ≡ pending_of (pending_in self.old) ++ byte ∷ [] }
        ensures numbers { self.new ≡ with_numbers self.old (self.old.fed + 1) self.old.owed
            (pending_in self.new) (refusal_in self.old) }
        ensures few { self.new.pending < 4 }
    {
        match self.pending {
            0 => self.first = byte,
            1 => self.second = byte,
            _ => self.third = byte,
        }
        self.pending += 1;
        self.fed += 1;
        self.reserved = UNUSED;
    }
}

/// A longword of these bytes.
#[inline(always)]
fn long_of(first: u8, second: u8, third: u8, fourth: u8) -> [u8; 4]
    ensures value { result ≡ first ∷ second ∷ third ∷ fourth ∷ [] }
    ensures bytes { IsBytes result }
{
    [first, second, third, fourth]
}

/// Puts a longword at the offset.
#[inline(always)]
fn put_long(memory: &mut [u8], at: usize, long: [u8; 4])
    requires { at + 4 ≤ length memory.old }
    ensures { memory.new ≡ put_slice memory.old at long }
{
    memory[at..at + 4].copy_from_slice(long.as_slice());
}

/// Puts longwords at the offset.
#[inline(always)]
fn put_longs(memory: &mut [u8], at: usize, longs: &[u8])
    requires { at + length longs.now ≤ length memory.old }
    ensures { memory.new ≡ put_slice memory.old at longs.now }
{
    memory[at..at + longs.len()].copy_from_slice(longs);
}
