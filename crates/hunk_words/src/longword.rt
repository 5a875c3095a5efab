//! Longwords of a slice.
ghost use Rattle.std.specs.Prelude.{◌≡◌, ◌+◌, ◌*◌, ◌≤◌, length, slice_index};
ghost use Rattle.hunk_words.specs.Longs.{longs};

/// The longword number `i` of the slice, counted from 0, high byte first.
#[tactic(auto, using(crate::proofs::LongLaws::word_is))]
#[inline(always)]
pub fn word_at(bytes: &[u8], i: usize) -> u32
    requires { 4 * i + 4 ≤ length bytes.now }
    ensures { result ≡ slice_index (longs bytes.now) i }
{
    let start = 4 * i;
    let mut long = [0; 4];
    long.copy_from_slice(&bytes[start..start + 4]);
    u32::from_be_bytes(long)
}
