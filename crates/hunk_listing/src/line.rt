//! A line of bounded length, made before it is printed.
ghost use Rattle.std.specs.Prelude.{◌≡◌, ◌≤◌, ◌+◌, ◌*◌, ◌++◌, [], length, take, decimal};
ghost use Rattle.hex.specs.Hex.{encode_lower};
ghost use Rattle.hunk_words.specs.Prints.{Prints};
ghost use Rattle.hunk_listing.specs.Printed.{digits, hexadecimal};

use crate::put::{put, put_decimal, put_digits, put_hexadecimal};
use hunk_words::{LINE, PagePrinter, Sink};
use std::marker::Model;

/// A line of at most 96 bytes, which is put together here and printed at once.
#[derive(Drop)]
pub(crate) struct Line {
    bytes: [u8; LINE],
    len: usize,
}

impl Model for Line {
    ghost use Rattle.std.specs.Prelude.{ℕ, List, ◌≤◌, take};
    ghost use Rattle.hunk_words.specs.declared.printer.TheConstants.{LINE};

    ghost Value = { List ℕ };

    ghost view = { λ s. take s.len s.bytes };

    ghost invariant = { λ s. s.len ≤ LINE };
}

impl Line {
    /// A line of nothing yet.
    pub(crate) fn new() -> Line
        ensures { result ≡ [] }
    {
        Line {
            bytes: [0; LINE],
            len: 0,
        }
    }

    /// How many bytes were put.
    pub(crate) fn len(&self) -> usize
        ensures { result ≡ length self.now }
    {
        self.len
    }

    /// Keeps the first `len` bytes.
    pub(crate) fn truncate(&mut self, len: usize)
        requires { len ≤ length self.old }
        ensures { self.new ≡ take len self.old }
    {
        self.len = len;
    }

    /// Puts the bytes.
    pub(crate) fn put(&mut self, bytes: &[u8])
        requires { length self.old + length bytes.now ≤ LINE }
        ensures text { self.new ≡ self.old ++ bytes.now }
        ensures len { length self.new ≡ length self.old + length bytes.now }
    {
        self.len = put(&mut self.bytes, self.len, bytes);
    }

    /// Puts the number in decimal, which has at most 20 digits.
    pub(crate) fn put_decimal(&mut self, number: u64)
        requires { length self.old + 20 ≤ LINE }
        ensures text { self.new ≡ self.old ++ decimal number }
        ensures bound { length self.new ≤ length self.old + 20 }
    {
        self.len = put_decimal(&mut self.bytes, self.len, number);
    }

    /// Puts `0x` and the number's eight hexadecimal digits.
    pub(crate) fn put_hexadecimal(&mut self, number: u32)
        requires { length self.old + 10 ≤ LINE }
        ensures text { self.new ≡ self.old ++ hexadecimal number }
        ensures len { length self.new ≡ length self.old + 10 }
    {
        self.len = put_hexadecimal(&mut self.bytes, self.len, number);
    }

    /// Puts the number's eight hexadecimal digits.
    pub(crate) fn put_digits(&mut self, number: u32)
        requires { length self.old + 8 ≤ LINE }
        ensures text { self.new ≡ self.old ++ digits number }
        ensures len { length self.new ≡ length self.old + 8 }
    {
        self.len = put_digits(&mut self.bytes, self.len, number);
    }

    /// Prints the line.
    pub(crate) fn print<W: Sink, const ROOM: usize>(&self, page: &mut PagePrinter<'_, W, ROOM>)
        ensures { Prints page.old page.new self.now }
    {
        page.print(&self.bytes[..self.len]);
    }
}

/// Prints a line of a number between two texts, which have at most 76 bytes together.
///
/// The texts are arguments, so that the proof is the same whatever they say.
pub(crate) fn print_number<W: Sink, const ROOM: usize>(
    page: &mut PagePrinter<'_, W, ROOM>,
    before: &[u8],
    number: u64,
    after: &[u8],
)
    requires { length before.now + length after.now ≤ 76 }
    ensures { Prints page.old page.new (before.now ++ decimal number ++ after.now) }
{
    let mut line = Line::new();
    line.put(before);
    line.put_decimal(number);
    line.put(after);
    line.print(page);
}

/// The same of two numbers, with a text between them. The texts have at most 56 bytes together.
pub(crate) fn print_numbers<W: Sink, const ROOM: usize>(
    page: &mut PagePrinter<'_, W, ROOM>,
    before: &[u8],
    first: u64,
    between: &[u8],
    second: u64,
    after: &[u8],
)
    requires { length before.now + length between.now + length after.now ≤ 56 }
    ensures { Prints page.old page.new
        (before.now ++ decimal first ++ between.now ++ decimal second ++ after.now) }
{
    let mut line = Line::new();
    line.put(before);
    line.put_decimal(first);
    line.put(between);
    line.put_decimal(second);
    line.put(after);
    line.print(page);
}

/// The two digits of each byte in turn: half the steps of a digit at a time.
static PAIRS: [u8; 512] = *b"\
    000102030405060708090a0b0c0d0e0f\
    101112131415161718191a1b1c1d1e1f\
    202122232425262728292a2b2c2d2e2f\
    303132333435363738393a3b3c3d3e3f\
    404142434445464748494a4b4c4d4e4f\
    505152535455565758595a5b5c5d5e5f\
    606162636465666768696a6b6c6d6e6f\
    707172737475767778797a7b7c7d7e7f\
    808182838485868788898a8b8c8d8e8f\
    909192939495969798999a9b9c9d9e9f\
    a0a1a2a3a4a5a6a7a8a9aaabacadaeaf\
    b0b1b2b3b4b5b6b7b8b9babbbcbdbebf\
    c0c1c2c3c4c5c6c7c8c9cacbcccdcecf\
    d0d1d2d3d4d5d6d7d8d9dadbdcdddedf\
    e0e1e2e3e4e5e6e7e8e9eaebecedeeef\
    f0f1f2f3f4f5f6f7f8f9fafbfcfdfeff";

/// Makes two hexadecimal digits of each byte.
pub(crate) fn encode(bytes: &[u8], digits: &mut [u8])
    requires { length digits.old ≡ 2 * length bytes.now }
    ensures { digits.new ≡ encode_lower bytes.now }
{
    'bytes: for (i, byte) in bytes.iter().enumerate() {
        let pair = 2 * *byte as usize;
        let (high, low) = (PAIRS[pair], PAIRS[pair + 1]);
        digits[2 * i] = high;
        digits[2 * i + 1] = low;
    }
}
