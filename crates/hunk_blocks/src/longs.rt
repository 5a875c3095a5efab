//! Lists of longwords, as slices of the input.
ghost use Rattle.std.specs.Prelude.{◌≡◌, ◌<◌, ◌↔◌, [], IsTrue, length, slice_index};
ghost use Rattle.std.specs.Iterator.{YieldsFirst, at_most};
ghost use Rattle.hunk_words.specs.Longs.{longs};

use crate::payload::Payload;
use hunk_words::word_at;
use std::marker::Model;

/// Longwords of the input. Contracts see them as the list of their numbers.
#[derive(Debug, Drop)]
pub struct Longs<'a> {
    pub(crate) payload: Payload<'a>,
}

impl<'a> Model for Longs<'a> {
    ghost use Rattle.std.specs.Prelude.{ℕ, List};
    ghost use Rattle.hunk_words.specs.Longs.{longs};

    ghost Value = { List ℕ };

    ghost view = { λ s. longs s.payload };
}

impl<'a> Longs<'a> {
    /// No longwords.
    pub(crate) fn none() -> Longs<'a>
        ensures { result ≡ [] }
    {
        Longs {
            payload: Payload::of(&[]),
        }
    }

    /// How many longwords there are.
    pub fn len(&self) -> usize
        ensures { result ≡ length self.now }
    {
        (self.payload.byte_count() / 4) as usize
    }

    /// Whether there is no longword.
    pub fn is_empty(&self) -> bool
        ensures { IsTrue result ↔ (self.now ≡ []) }
    {
        self.len() == 0
    }

    /// The longwords in turn.
    pub fn iter(&self) -> LongsIter<'a>
        ensures { result ≡ self.now }
    {
        LongsIter {
            rest: self.payload.bytes,
        }
    }

    /// The longword number `i`, counted from 0.
    #[tactic(auto, using(crate::proofs::BytesOfLongs::long_counts))]
    pub fn at(&self, i: usize) -> u32
        requires { i < length self.now }
        ensures { result ≡ slice_index self.now i }
    {
        word_at(self.payload.bytes(), i)
    }

    /// The bytes of the longwords.
    pub(crate) fn payload(&self) -> &Payload<'a>
        ensures { longs result.now ≡ self.now }
    {
        &self.payload
    }
}

/// The longwords of a list that are still to come. Contracts see them as the list of their numbers.
#[derive(Drop)]
pub struct LongsIter<'a> {
    rest: &'a [u8],
}

impl<'a> Model for LongsIter<'a> {
    ghost use Rattle.std.specs.Prelude.{ℕ, List};
    ghost use Rattle.hunk_words.specs.Longs.{longs};

    ghost Value = { List ℕ };

    ghost view = { λ s. longs s.rest.now };
}

impl Iterator for LongsIter<'_> {
    type Item = u32;

    ghost next_gives = { YieldsFirst (λ rest. rest) };

    ghost remaining = { λ s. at_most (length s) };

    fn next(&mut self) -> Option<u32> {
        if self.rest.len() < 4 {
            return None;
        }
        let word = word_at(self.rest, 0);
        self.rest = &self.rest[4..];
        Some(word)
    }
}

impl<'a, 'b> IntoIterator for &'b Longs<'a> {
    type Item = u32;

    type IntoIter = LongsIter<'a>;

    ghost into_iter_gives = { λ longs it. it ≡ longs.now };

    fn into_iter(self) -> Self::IntoIter {
        self.iter()
    }
}
