//! Blocks that are read where they lie.
ghost use Rattle.std.specs.Prelude.{◌≡◌, ◌+◌, ◌<◌, ◌^◌, drop, length};
ghost use Rattle.hunk_words.specs.Longs.{bytes_of};
ghost use Rattle.hunk_blocks.specs.Begins.{BeginsWithSomeBlock, IsFrontBlock};
ghost use Rattle.hunk_blocks.specs.BodyViews.{HasListAt, viewed};
ghost use Rattle.hunk_blocks.specs.Parts.{block_text};
ghost use Rattle.hunk_blocks.specs.Values.{IsBlock};

use crate::body_view::{BodyView, read_body};
use crate::long_reader::LongReader;
use hunk_words::BlockWord;
use std::marker::Model;

/// A block of the input whose groups and entries are read as they are asked for. It takes no
/// memory. Contracts see its block value, and the byte of the input at which it begins.
#[derive(Drop)]
pub struct BlockView<'a> {
    word: BlockWord,
    body: BodyView<'a>,
    place: u64,
    len: u64,
}

impl<'a> Model for BlockView<'a> {
    ghost use Rattle.std.specs.Prelude.{◌≡◌, ◌+◌, ◌<◌, ◌^◌, length};
    ghost use Rattle.hunk_words.specs.Longs.{bytes_of};
    ghost use Rattle.hunk_blocks.specs.BodyViews.{HasListAt, viewed};
    ghost use Rattle.hunk_blocks.specs.Parts.{block_text};
    ghost use Rattle.hunk_blocks.specs.Placed.{Placed};
    ghost use Rattle.hunk_blocks.specs.Values.{BlockValue, IsBlock};

    ghost Value = { Placed BlockValue };

    ghost view = { λ s. record {
      place = s.place;
      value = record { word = s.word; body = viewed s.body };
    } };

    ghost invariant = { λ s.
        let b : BlockValue = record { word = s.word; body = viewed s.body } in
        IsBlock b × (s.len ≡ length (bytes_of (block_text b))) × HasListAt (s.place + 4) s.body
        × (s.place + s.len < 2 ^ 64) };
}

impl<'a> BlockView<'a> {
    /// The block that begins at this byte of the input, where one is known to begin.
    #[inline(always)]
    pub fn at(bytes: &'a [u8], place: usize) -> BlockView<'a>
        requires { BeginsWithSomeBlock (drop place bytes.now) }
        ensures block { IsFrontBlock (drop place bytes.entry.now) result.value
            (length (bytes_of (block_text result.value))) }
        ensures place { result.place ≡ place }
    {
        let mut reader = LongReader { bytes, at: place };
        let word = BlockWord::of(reader.long());
        let body = read_body(&mut reader, word);
        BlockView {
            word,
            body,
            place: place as u64,
            len: (reader.at - place) as u64,
        }
    }

    /// The block's first longword: its flags and its type.
    pub fn word(&self) -> BlockWord
        ensures value { result ≡ self.now.value.word }
        ensures block { IsBlock self.now.value }
    {
        self.word
    }

    /// What follows the block's word.
    pub fn body(&self) -> &BodyView<'a>
        ensures value { viewed result.now ≡ self.now.value.body }
        ensures place { HasListAt (self.now.place + 4) result.now }
        ensures block { IsBlock self.now.value }
    {
        &self.body
    }

    /// What follows the block's word, for its groups and entries to be read.
    pub fn into_body(self) -> BodyView<'a>
        ensures value { viewed result ≡ self.entry.value.body }
        ensures place { HasListAt (self.entry.place + 4) result }
        ensures block { IsBlock self.entry.value }
    {
        self.body
    }

    /// The byte of the input at which the block begins.
    pub fn place(&self) -> u64
        ensures { result ≡ self.now.place }
    {
        self.place
    }

    /// The length of the block's text in bytes, after which the input goes on.
    pub fn encoded_len(&self) -> u64
        ensures value { result ≡ length (bytes_of (block_text self.now.value)) }
        ensures inside { self.now.place + result < 2 ^ 64 }
    {
        self.len
    }
}
