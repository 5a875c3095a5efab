//! Words of 16 bits of a short block that lie in a piece, passed group by group.
ghost use Rattle.std.specs.Prelude.{◌≡◌, ◌<◌, ◌≤◌, ◌*◌, length, take};
ghost use Rattle.hunk_wide.specs.Halves.{HalvesLead, flipped, part_after, words_to_count};
ghost use Rattle.hunk_wide.specs.declared.spot.Spot.TheVariants.{Half};

use crate::position::FilePosition;
use crate::spot::{ShortPart, Spot};

/// Words of 16 bits of a short block.
#[derive(Clone, Copy)]
pub(crate) struct Halves {
    /// How many they are.
    pub(crate) count: usize,
    /// What the bytes after them are for.
    pub(crate) next: Spot,
}

/// The words of a short block at the front of these bytes: all, or those up to the 0 that ends it.
///
/// It looks at counts alone, and passes over targets and offsets. `begun` words stand before the
/// target of the group that it is in, and `next` before the next count.
#[inline(always)]
pub(crate) fn halves_in(after: FilePosition, part: ShortPart, is_odd: bool, bytes: &[u8]) -> Halves
    ensures whole { 2 * result.count ≤ length bytes.now }
    ensures some { 2 ≤ length bytes.now → 0 < result.count }
    ensures leads { HalvesLead (take (2 * result.count) bytes.now) (Half after part is_odd)
        result.next }
{
    let count = bytes.len() / 2;
    let mut begun: usize = 0;
    let mut owed: u16 = 0;
    let mut next = words_to_count(part);
    'groups: while next < count {
        let offsets = bytes[2 * next] as u16 * 256 + bytes[2 * next + 1] as u16;
        if offsets == 0 {
            return Halves {
                count: next + 1,
                next: Spot::behind_half(after, ShortPart::Count, flipped(is_odd, next), 0),
            };
        }
        begun = next + 1;
        owed = offsets - 1;
        next = begun + owed as usize + 2;
    }
    let part = if begun == 0 {
        part
    } else {
        ShortPart::Target { owed }
    };
    Halves {
        count,
        next: Spot::Half {
            after,
            part: part_after(part, count - begun),
            is_odd: flipped(is_odd, count),
        },
    }
}

/// How many words stand before the next count.
#[inline(always)]
fn words_to_count(part: ShortPart) -> usize
    ensures value { result ≡ words_to_count part }
    ensures bound { result ≤ 65537 }
{
    match part {
        ShortPart::Count => 0,
        ShortPart::Target { owed } => owed as usize + 2,
        ShortPart::Offset { owed } => owed as usize + 1,
    }
}

/// After so many words, of which none is a count.
#[inline(always)]
fn part_after(part: ShortPart, count: usize) -> ShortPart
    requires { count ≤ words_to_count part }
    ensures { result ≡ part_after count part }
{
    let words = words_to_count(part);
    if count == 0 {
        part
    } else if count == words {
        ShortPart::Count
    } else {
        let owed = (words - count - 1) as u16;
        ShortPart::Offset { owed }
    }
}

/// Whether the number of words is odd after `count` more.
#[inline(always)]
fn flipped(is_odd: bool, count: usize) -> bool
    ensures { result ≡ flipped is_odd count }
{
    if count % 2 == 0 { is_odd } else { !is_odd }
}
