//! Longwords that are handed over as bytes.
ghost use Rattle.std.specs.Prelude.{◌≡◌, ◌∷◌, ◌++◌, ◌%◌, [], length};
ghost use Rattle.hunk_words.specs.Longs.{bytes_of, longs};

use hunk_files::TakesBytes;

/// Hands over a longword, high byte first.
#[inline(always)]
#[tactic(auto, using(crate::proofs::LongBytes::long_bytes))]
pub(crate) fn put_word<T: TakesBytes>(taker: &mut T, word: u32)
    ensures { T.takes taker.old (bytes_of (word ∷ [])) taker.new }
{
    taker.take(&word.to_be_bytes());
}

/// Hands over the low 32 bits of a count, high byte first.
#[inline(always)]
#[tactic(auto, using(crate::proofs::LongBytes::low_bytes))]
pub(crate) fn put_count<T: TakesBytes>(taker: &mut T, count: u64)
    ensures { T.takes taker.old (bytes_of (count ∷ [])) taker.new }
{
    taker.take(&count.to_be_bytes()[4..]);
}

/// Hands over bytes, and the zero bytes that make a longword of a begun one.
pub(crate) fn put_padded<T: TakesBytes>(taker: &mut T, bytes: &[u8])
    ensures { T.takes taker.old (bytes_of (longs (bytes.now ++ 0 ∷ 0 ∷ 0 ∷ []))) taker.new }
{
    taker.take(bytes);
    let begun = bytes.len() % 4;
    if begun > 0 {
        taker.take(&[0; 3][..4 - begun]);
    }
}

/// Hands over the longwords that these bytes are.
pub(crate) fn put_whole<T: TakesBytes>(taker: &mut T, bytes: &[u8])
    requires { length bytes.now % 4 ≡ 0 }
    ensures { T.takes taker.old (bytes_of (longs bytes.now)) taker.new }
{
    taker.take(bytes);
}
