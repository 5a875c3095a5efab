//! How an input spells its file: what it has otherwise than the plain spelling.
ghost use Rattle.std.specs.Prelude.{◌≡◌, ◌+◌, ◌*◌, ◌^◌, ◌<◌, ◌≤◌, length, IfNone, IfSome, IsTrue};
ghost use Rattle.hunk_wide.specs.Plain.{plain, plain_from};
ghost use Rattle.hunk_wide.specs.Spellings.{BeginsWith, EndsThere};
ghost use Rattle.hunk_wide.specs.Spellings.{ends_from, ends_last, ends_of, has_end, is_short, one_if, short_blocks_from, short_blocks_of};
ghost use Rattle.hunk_wide.specs.declared.spot.Spot.TheVariants.{Filler, Half, Long, Straight};

use crate::behind::part_at;
use crate::expander::is_last;
use crate::halves::halves_in;
use crate::parts::{front_at, is_file_end};
use crate::place::given_len;
use crate::position::FilePosition;
use crate::spot::{Given, ShortPart, Spot};

/// How an input spells its file.
#[derive(Clone, Copy, Debug, PartialEq, Eq)]
pub struct Spelling {
    /// The number of bytes of its plain spelling.
    pub len: u64,
    /// How many blocks of short relocations it has.
    pub short_blocks: u64,
    /// How many END it leaves out.
    pub ends: u64,
}

impl Spelling {
    /// Whether the input is its own plain spelling.
    pub(crate) fn is_plain(self) -> bool
        ensures { IsTrue result → (self.short_blocks ≡ 0) × (self.ends ≡ 0) }
    {
        self.short_blocks == 0 && self.ends == 0
    }
}

/// The first units of a wide spelling.
#[derive(Clone, Copy)]
struct Units {
    /// The number of their bytes.
    size: usize,
    /// How many bytes are given out for them.
    given: u64,
    /// How many words of short blocks are among them: one or none.
    short_blocks: u64,
    /// How many END are put in.
    ends: u64,
    /// What the bytes after them are for.
    next: Spot,
}

/// How the input spells its file, by one pass over it. Nothing is written.
///
/// Where it has no short block and leaves out no END, it is its own plain spelling.
#[inline(never)]
pub fn spelling_of(bytes: &[u8]) -> Spelling
    ensures len { result.len ≡ length (plain bytes.now) }
    ensures short_blocks { result.short_blocks ≡ short_blocks_of bytes.now }
    ensures ends { result.ends ≡ ends_of bytes.now }
    ensures same { result.short_blocks ≡ 0 → result.ends ≡ 0 → plain bytes.now ≡ bytes.now }
    ensures bound { result.len ≤ 2 * length bytes.now }
{
    let front = front_at(bytes);
    let rest = &bytes[front.size..];
    // Most inputs are load files that are their own plain spelling, and end here.
    if is_file_end(front.next, rest) {
        return Spelling {
            len: bytes.len() as u64,
            short_blocks: 0,
            ends: 0,
        };
    }
    let behind = spelling_from(Spot::Long(front.next), rest);
    Spelling {
        len: front.size as u64 + behind.len,
        ..behind
    }
}

/// The same of the bytes from here to the end of the input, where they are for this.
#[inline(never)]
pub(crate) fn spelling_from(spot: Spot, bytes: &[u8]) -> Spelling
    requires { length (plain_from spot bytes.now) < 2 ^ 64 }
    ensures len { result.len ≡ length (plain_from spot bytes.now) }
    ensures short_blocks { result.short_blocks ≡ short_blocks_from spot bytes.now }
    ensures ends { result.ends ≡ ends_from spot bytes.now }
{
    let mut spot = spot;
    let mut rest = bytes;
    let mut len: u64 = 0;
    let mut short_blocks: u64 = 0;
    let mut ends: u64 = 0;
    'units: while let Some(units) = units_at(spot, rest) {
        len += units.given;
        short_blocks += units.short_blocks;
        ends += units.ends;
        rest = &rest[units.size..];
        spot = units.next;
    }
    let last = ends_last(spot, rest);
    Spelling {
        len: len + rest.len() as u64 + 4 * last,
        short_blocks,
        ends: ends + last,
    }
}

/// How many END are put in at the end of the input: 1 or none.
fn ends_last(spot: Spot, rest: &[u8]) -> u64
    ensures { result ≡ one_if (ends_last spot rest.now) }
{
    u64::from(rest.is_empty() && is_last(spot))
}

/// Whether it is the word of a short block.
#[inline(always)]
fn is_short(given: Given) -> bool
    ensures { result ≡ is_short given }
{
    match given {
        Given::AsLong => true,
        _ => false,
    }
}

/// Whether an END is put in.
#[inline(always)]
fn has_end(given: Given) -> bool
    ensures { result ≡ has_end given }
{
    match given {
        Given::BehindEnd => true,
        _ => false,
    }
}

/// The first unit, or as many of those that are given out as they are, or words of a short block,
/// as follow one another. `None` where no such thing is whole.
#[inline(always)]
fn units_at(spot: Spot, rest: &[u8]) -> Option<Units>
    ensures none { IfNone result (EndsThere spot rest.now) }
    ensures some { IfSome result
        (λ u. BeginsWith spot rest.now u.size u.given u.short_blocks u.ends
        u.next) }
{
    match spot {
        Spot::Passing => None,
        Spot::Straight { owed, next } => straight_at(owed, next, rest),
        Spot::Long(position) => long_at(position, rest),
        Spot::Half {
            after,
            part,
            is_odd,
        } => half_at(after, part, is_odd, rest),
        Spot::Filler(after) => filler_at(after, rest),
    }
}

#[inline(always)]
fn straight_at(owed: u64, next: FilePosition, rest: &[u8]) -> Option<Units>
    ensures none { IfNone result (EndsThere (Straight owed next) rest.now) }
    ensures some { IfSome result
        (λ u. BeginsWith (Straight owed next) rest.now u.size u.given u.short_blocks u.ends
        u.next) }
{
    if rest.len() as u64 <= owed {
        return None;
    }
    Some(Units {
        size: owed as usize + 1,
        given: owed + 1,
        short_blocks: 0,
        ends: 0,
        next: Spot::Long(next),
    })
}

#[inline(always)]
fn long_at(position: FilePosition, rest: &[u8]) -> Option<Units>
    ensures none { IfNone result (EndsThere (Long position) rest.now) }
    ensures some { IfSome result
        (λ u. BeginsWith (Long position) rest.now u.size u.given u.short_blocks u.ends
        u.next) }
{
    if rest.len() < 4 {
        return None;
    }
    let part = part_at(position, rest);
    if part.size > 0 {
        return Some(Units {
            size: part.size,
            given: (part.size + 4 * part.ends) as u64,
            short_blocks: 0,
            ends: part.ends as u64,
            next: Spot::Long(part.next),
        });
    }
    let word = u32::from_be_bytes([rest[0], rest[1], rest[2], rest[3]]);
    let put_in = Given::of(position, word);
    Some(Units {
        size: 4,
        given: given_len(put_in),
        short_blocks: u64::from(is_short(put_in)),
        ends: u64::from(has_end(put_in)),
        next: Spot::behind_long(position, word),
    })
}

/// Words of a short block, as many as are in front.
#[inline(always)]
fn half_at(after: FilePosition, part: ShortPart, is_odd: bool, rest: &[u8]) -> Option<Units>
    ensures none { IfNone result (EndsThere (Half after part is_odd) rest.now) }
    ensures some { IfSome result
        (λ u. BeginsWith (Half after part is_odd) rest.now u.size u.given u.short_blocks u.ends
        u.next) }
{
    if rest.len() < 2 {
        return None;
    }
    let halves = halves_in(after, part, is_odd, rest);
    Some(Units {
        size: 2 * halves.count,
        given: 4 * halves.count as u64,
        short_blocks: 0,
        ends: 0,
        next: halves.next,
    })
}

#[inline(always)]
fn filler_at(after: FilePosition, rest: &[u8]) -> Option<Units>
    ensures none { IfNone result (EndsThere (Filler after) rest.now) }
    ensures some { IfSome result
        (λ u. BeginsWith (Filler after) rest.now u.size u.given u.short_blocks u.ends
        u.next) }
{
    if rest.len() < 2 {
        return None;
    }
    let half = rest[0] as u16 * 256 + rest[1] as u16;
    if half == 0 {
        return Some(Units {
            size: 2,
            given: 0,
            short_blocks: 0,
            ends: 0,
            next: Spot::Long(after),
        });
    }
    Some(Units {
        size: 2,
        given: 6,
        short_blocks: 0,
        ends: 0,
        next: Spot::Passing,
    })
}
