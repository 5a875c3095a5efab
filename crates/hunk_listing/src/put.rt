//! The parts of lines that are put together on the page.
ghost use Rattle.std.specs.Prelude.{◌≡◌, ◌≤◌, ◌+◌, ◌++◌, length, take, codes, decimal};
ghost use Rattle.hunk_listing.specs.Printed.{digits, hexadecimal};

use crate::line::encode;
use hunk_words::{LINE, PageLine};
use itoa::write_digits;
use std::marker::Model;

/// Puts the bytes to the room from `at` on, and answers where they end.
#[inline(always)]
pub(crate) fn put(room: &mut [u8], at: usize, bytes: &[u8]) -> usize
    requires { at + length bytes.now ≤ length room.old }
    ensures text { take result room.new ≡ take at room.old ++ bytes.now }
    ensures end { result ≡ at + length bytes.now }
{
    let end = at + bytes.len();
    room[at..end].copy_from_slice(bytes);
    end
}

/// Puts the number in decimal, which has at most 20 digits.
#[inline(always)]
pub(crate) fn put_decimal(room: &mut [u8], at: usize, number: u64) -> usize
    requires { at + 20 ≤ length room.old }
    ensures text { take result room.new ≡ take at room.old ++ decimal number }
    ensures end { result ≤ at + 20 }
{
    // Most numbers have one digit.
    if number < 10 {
        return put(room, at, &[b'0' + number as u8]);
    }
    put_long_decimal(room, at, number)
}

/// Puts the number in decimal, which has two digits at least.
fn put_long_decimal(room: &mut [u8], at: usize, number: u64) -> usize
    requires fits { at + 20 ≤ length room.old }
    requires long { 10 ≤ number }
    ensures text { take result room.new ≡ take at room.old ++ decimal number }
    ensures end { result ≤ at + 20 }
{
    let count = number.ilog10() as usize + 1;
    let end = at + count;
    write_digits(number, room, end);
    end
}

/// Puts `0x` and the number's eight hexadecimal digits.
#[inline(always)]
pub(crate) fn put_hexadecimal(room: &mut [u8], at: usize, number: u32) -> usize
    requires { at + 10 ≤ length room.old }
    ensures text { take result room.new ≡ take at room.old ++ hexadecimal number }
    ensures end { result ≡ at + 10 }
{
    let at = put(room, at, b"0x");
    put_digits(room, at, number)
}

/// Puts the number's eight hexadecimal digits.
#[inline(always)]
pub(crate) fn put_digits(room: &mut [u8], at: usize, number: u32) -> usize
    requires { at + 8 ≤ length room.old }
    ensures text { take result room.new ≡ take at room.old ++ digits number }
    ensures end { result ≡ at + 8 }
{
    let end = at + 8;
    encode(&number.to_be_bytes(), &mut room[at..end]);
    end
}

/// How many bytes the front of an offset's line has at most.
const FRONT: usize = 32;

/// The front of the lines of some offsets, up to the digits of an offset. It serves for all of them.
#[derive(Drop)]
pub(crate) struct OffsetFront {
    bytes: [u8; FRONT],
    len: usize,
}

impl Model for OffsetFront {
    ghost use Rattle.std.specs.Prelude.{ℕ, List, ◌≤◌, take};
    ghost use Rattle.hunk_listing.specs.declared.put.TheConstants.{FRONT};

    ghost Value = { List ℕ };

    ghost view = { λ s. take s.len s.bytes };

    ghost invariant = { λ s. s.len ≤ FRONT };
}

impl OffsetFront {
    /// The front of the lines of relocations to this hunk.
    pub(crate) fn of_target(target: u32) -> OffsetFront
        ensures { result ≡ codes "    " ++ decimal target ++ codes " 0x" }
    {
        let mut bytes = [0; FRONT];
        let at = put(&mut bytes, 0, b"    ");
        let at = put_decimal(&mut bytes, at, u64::from(target));
        let len = put(&mut bytes, at, b" 0x");
        OffsetFront { bytes, len }
    }

    /// The front of the lines of references.
    pub(crate) fn of_reference() -> OffsetFront
        ensures { result ≡ codes "      0x" }
    {
        let mut bytes = [0; FRONT];
        let len = put(&mut bytes, 0, b"      0x");
        OffsetFront { bytes, len }
    }

    /// Puts the front and the digits of the offset after it. All bytes of the front's array are put,
    /// so that their number is known where this is compiled.
    #[inline(always)]
    fn put_offset(&self, room: &mut [u8], offset: u32) -> usize
        requires { LINE ≤ length room.old }
        ensures text { take result room.new ≡ self.now ++ digits offset }
        ensures end { result ≤ 40 }
    {
        let _whole = put(room, 0, &self.bytes);
        put_digits(room, self.len, offset)
    }
}

/// The line of an offset.
#[derive(Drop)]
pub(crate) struct OffsetLine<'a> {
    pub(crate) front: &'a OffsetFront,
    pub(crate) offset: u32,
}

impl PageLine for OffsetLine<'_> {
    ghost text = { λ s. s.front.now ++ digits s.offset ++ codes "\n" };

    #[inline(always)]
    fn put(&self, room: &mut [u8]) -> usize {
        let front = self.front;
        let at = front.put_offset(room, self.offset);
        put(room, at, b"\n")
    }
}
