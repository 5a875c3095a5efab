//! Places of the plain spelling, and where they are in a wide one.
ghost use Rattle.std.specs.Prelude.{◌≡◌, ◌-◌, ◌<◌, ◌≤◌, length, min, IfNone, IfSome};
ghost use Rattle.hunk_grammar.specs.declared.position.Position.TheVariants.{FirstLong};
ghost use Rattle.hunk_wide.specs.Places.{GoesBy, IsOfUnit, count_long, place_from, place_of};
ghost use Rattle.hunk_wide.specs.Plain.{plain};
ghost use Rattle.hunk_wide.specs.declared.position.FilePosition.TheVariants.{Load};
ghost use Rattle.hunk_wide.specs.declared.spot.Spot.TheVariants.{Filler, Half, Long, Straight};

use crate::behind::part_at;
use crate::halves::halves_in;
use crate::parts::run_at;
use crate::position::FilePosition;
use crate::spot::{Given, ShortPart, Spot};
use hunk_grammar::Position;

/// A unit of a wide spelling, or some that follow one another: a part that is given out as it is, or
/// words of a short block.
#[derive(Clone, Copy)]
struct Unit {
    /// The number of its bytes.
    size: usize,
    /// How many bytes are given out for it.
    given: u64,
    /// What the bytes after it are for.
    next: Spot,
}

/// Where in a wide spelling the byte `place` of the plain one stands, both counted from 0.
///
/// A byte that is put in has the place of the next one that is not. So it is of an END that is left
/// out, and of the upper 16 bits of a number of a short block. From the end of the plain spelling on
/// it is the end of the input.
pub fn place_in(bytes: &[u8], place: u64) -> u64
    ensures value { result ≡ place_of bytes.now place }
    ensures inside { result ≤ length bytes.now }
    ensures behind { length (plain bytes.now) ≤ place → result ≡ length bytes.now }
    ensures unit { IsOfUnit (Long (Load FirstLong)) bytes.now place result }
{
    let mut spot = Spot::Long(FilePosition::Load(Position::FirstLong));
    let mut rest = bytes;
    let mut owed = place;
    let mut at: u64 = 0;
    'units: while let Some(unit) = unit_at(spot, rest, owed) {
        if owed < unit.given {
            return at + place_in_unit(unit, owed);
        }
        owed -= unit.given;
        at += unit.size as u64;
        rest = &rest[unit.size..];
        spot = unit.next;
    }
    at + owed.min(rest.len() as u64)
}

/// Where in the unit this byte stands that is given out for it. What is put in comes first.
fn place_in_unit(unit: Unit, byte: u64) -> u64
    requires { byte < unit.given }
    ensures value { result ≡ byte - (unit.given - unit.size) }
    ensures inside { result ≤ unit.size }
{
    let put_in = unit.given.saturating_sub(unit.size as u64);
    byte.saturating_sub(put_in)
}

/// The unit that the bytes begin with, or bytes that are given out as they are, all before byte
/// `n`.
fn unit_at(spot: Spot, rest: &[u8], n: u64) -> Option<Unit>
    ensures none { IfNone result (place_from spot rest.now n ≡ min n (length rest.now)) }
    ensures some { IfSome result
        (λ unit. GoesBy spot rest.now n unit.size unit.given unit.next) }
{
    match spot {
        Spot::Passing => None,
        Spot::Straight { owed, next } => straight_unit(owed, next, rest, n),
        Spot::Long(position) => long_unit(position, rest, n),
        Spot::Half {
            after,
            part,
            is_odd,
        } => half_unit(after, part, is_odd, rest, n),
        Spot::Filler(after) => filler_unit(after, rest, n),
    }
}

fn straight_unit(owed: u64, next: FilePosition, rest: &[u8], n: u64) -> Option<Unit>
    ensures none { IfNone result
        (place_from (Straight owed next) rest.now n ≡ min n (length rest.now)) }
    ensures some { IfSome result
        (λ unit. GoesBy (Straight owed next) rest.now n unit.size unit.given unit.next) }
{
    if n <= owed || rest.len() as u64 <= owed {
        return None;
    }
    Some(Unit {
        size: owed as usize + 1,
        given: owed + 1,
        next: Spot::Long(next),
    })
}

fn long_unit(position: FilePosition, rest: &[u8], n: u64) -> Option<Unit>
    ensures none { IfNone result (place_from (Long position) rest.now n
        ≡ min n (length rest.now)) }
    ensures some { IfSome result
        (λ unit. GoesBy (Long position) rest.now n unit.size unit.given unit.next) }
{
    if rest.len() < 4 {
        return None;
    }
    if let Some(unit) = part_unit(position, rest, n) {
        return Some(unit);
    }
    let word = u32::from_be_bytes([rest[0], rest[1], rest[2], rest[3]]);
    Some(Unit {
        size: 4,
        given: given_len(Given::of(position, word)),
        next: Spot::behind_long(position, word),
    })
}

/// Bytes that are given out as they are, or that are given out before byte `n` with each END that is
/// put in among them.
#[inline(always)]
fn part_unit(position: FilePosition, rest: &[u8], n: u64) -> Option<Unit>
    ensures { IfSome result
        (λ unit. GoesBy (Long position) rest.now n unit.size unit.given unit.next) }
{
    let run = run_at(position, rest);
    if run.size > 0 {
        return Some(Unit {
            size: run.size,
            given: run.size as u64,
            next: Spot::Long(run.next),
        });
    }
    // For so many bytes no more than `n` are given out.
    let most = (rest.len() as u64).min(n / 2) as usize;
    let part = part_at(position, &rest[..most]);
    if part.size == 0 {
        return None;
    }
    Some(Unit {
        size: part.size,
        given: (part.size + 4 * part.ends) as u64,
        next: Spot::Long(part.next),
    })
}

/// Words of a short block that are given out before byte `n`, or the one that is given out for it.
fn half_unit(
    after: FilePosition,
    part: ShortPart,
    is_odd: bool,
    rest: &[u8],
    n: u64,
) -> Option<Unit>
    ensures none { IfNone result
        (place_from (Half after part is_odd) rest.now n ≡ min n (length rest.now)) }
    ensures some { IfSome result
        (λ unit. GoesBy (Half after part is_odd) rest.now n unit.size unit.given unit.next) }
{
    if rest.len() < 2 {
        return None;
    }
    let words = (n / 4).max(1).min(rest.len() as u64 / 2) as usize;
    let halves = halves_in(after, part, is_odd, &rest[..2 * words]);
    Some(Unit {
        size: 2 * halves.count,
        given: 4 * halves.count as u64,
        next: halves.next,
    })
}

fn filler_unit(after: FilePosition, rest: &[u8], n: u64) -> Option<Unit>
    ensures none { IfNone result (place_from (Filler after) rest.now n ≡ min n (length rest.now)) }
    ensures some { IfSome result
        (λ unit. GoesBy (Filler after) rest.now n unit.size unit.given unit.next) }
{
    if rest.len() < 2 {
        return None;
    }
    let half = rest[0] as u16 * 256 + rest[1] as u16;
    if half == 0 {
        return Some(Unit {
            size: 2,
            given: 0,
            next: Spot::Long(after),
        });
    }
    Some(Unit {
        size: 2,
        given: 6,
        next: Spot::Passing,
    })
}

/// How many bytes are given out for a longword.
pub(crate) fn given_len(given: Given) -> u64
    ensures { result ≡ count_long given }
{
    match given {
        Given::Same | Given::AsLong => 4,
        Given::BehindEnd => 8,
    }
}
