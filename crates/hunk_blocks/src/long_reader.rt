//! The longwords of a slice, read from the front.
ghost use Rattle.std.specs.Prelude.{◌≡◌, ◌<◌, ◌≤◌, ◌^◌, [], ◌∷◌, drop, length};
ghost use Rattle.hunk_words.specs.Bits.{name_longs};
ghost use Rattle.hunk_words.specs.Longs.{longs};
ghost use Rattle.hunk_blocks.specs.Cuts.{counted_cut, sized_cut};
ghost use Rattle.hunk_blocks.specs.Parts.{counted_text, sized_text};
ghost use Rattle.hunk_blocks.specs.Reading.{BeginsWithSome, Reads, ReadsValue};
ghost use Rattle.hunk_blocks.specs.Values.{IsPayload, IsSized};

use crate::payload::Payload;
use hunk_words::{CONTENT_LIMIT, NAME_LIMIT, word_at};
use std::marker::Model;

/// The longwords of a slice, read from the front. It goes by the place alone, so that passing over a
/// longword adds to one number.
#[derive(Drop)]
pub(crate) struct LongReader<'a> {
    /// The input.
    pub(crate) bytes: &'a [u8],
    /// The byte at which the next longword begins.
    pub(crate) at: usize,
}

impl<'a> Model for LongReader<'a> {
    ghost use Rattle.std.specs.Prelude.{◌≤◌, drop, length};
    ghost use Rattle.hunk_words.specs.Longs.{longs};
    ghost use Rattle.hunk_blocks.specs.Reading.{Unread};

    ghost Value = { Unread };

    ghost view = { λ s. record { rest = longs (drop s.at s.bytes.now); place = s.at } };

    ghost invariant = { λ s. s.at ≤ length s.bytes.now };
}

impl<'a> LongReader<'a> {
    /// This reader again.
    #[inline(always)]
    pub(crate) fn again(&self) -> LongReader<'a>
        ensures { result ≡ self.now }
    {
        LongReader {
            bytes: self.bytes,
            at: self.at,
        }
    }

    /// The next longword, which stays.
    #[inline(always)]
    pub(crate) fn peek(&self) -> u32
        requires { 0 < length self.now.rest }
        ensures { self.now.rest ≡ result ∷ drop 1 self.now.rest }
    {
        word_at(&self.bytes[self.at..], 0)
    }

    /// The next longwords, as many as `count`.
    #[inline(always)]
    pub(crate) fn payload(&mut self, count: u32) -> Payload<'a>
        requires { count ≤ length self.old.rest }
        ensures read { Reads self.old self.new (longs result) }
        ensures count { length (longs result) ≡ count }
        ensures bound { self.new.place < 2 ^ 64 }
    {
        let end = self.at + 4 * count as usize;
        let words = &self.bytes[self.at..end];
        self.at = end;
        Payload::of(words)
    }

    /// The next longword.
    #[inline(always)]
    pub(crate) fn long(&mut self) -> u32
        requires { 0 < length self.old.rest }
        ensures { Reads self.old self.new (result ∷ []) }
    {
        let word = word_at(&self.bytes[self.at..], 0);
        self.at += 4;
        word
    }
    /// A count, and that many longwords (The AmigaDOS Manual, `dos/doshunks.h`).
    ///
    /// The count of a NAME has no top byte. DEBUG and ADVISORY count with all 32 bits, and a list
    /// of references may be empty: this project's own choice.
    pub(crate) fn counted(&mut self) -> Payload<'a>
        requires { BeginsWithSome (IsPayload (2 ^ 32)) counted_text self.old.rest }
        ensures { ReadsValue counted_cut self.old self.new (longs result) }
    {
        let count = self.long();
        self.payload(count)
    }

    /// A size word, and as many longwords as its low 30 bits say. The number is its top two bits.
    ///
    /// Source: The AmigaDOS Manual, `dos/doshunks.h`.
    pub(crate) fn sized(&mut self) -> (u8, Payload<'a>)
        requires { BeginsWithSome IsSized sized_text self.old.rest }
        ensures { ReadsValue sized_cut self.old self.new (result.0, longs result.1) }
    {
        let size = self.long();
        let payload = self.payload(size % CONTENT_LIMIT);
        ((size / CONTENT_LIMIT) as u8, payload)
    }

    /// The name of an entry with this word, as many longwords as its low 24 bits say (The AmigaDOS
    /// Manual, `dos/doshunks.h`).
    ///
    /// Where they are 0 in a word that is not, the name is empty: this project's own choice.
    #[inline(always)]
    pub(crate) fn name(&mut self, word: u32) -> Payload<'a>
        requires { name_longs word ≤ length self.old.rest }
        ensures read { Reads self.old self.new (longs result) }
        ensures count { length (longs result) ≡ name_longs word }
        ensures bound { self.new.place < 2 ^ 64 }
    {
        self.payload(word % NAME_LIMIT)
    }
}
