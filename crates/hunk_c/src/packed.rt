//! Hunks one right after the other, by a table that is read where it lies.
ghost use Rattle.std.specs.Prelude.{◌≡◌, ◌≤◌, ◌+◌, ◌*◌, ◌/◌, ◌<◌, ◌^◌, ℕ, List, get_or, length};
ghost use Rattle.std.specs.Prelude.{IfErr, IfOk, IsTrue, OnOk};
ghost use Rattle.hunk_files.specs.LoadFile.{TableEntry};
ghost use Rattle.hunk_scatter.specs.HeaderBytes.{BeginsWithHeader};
ghost use Rattle.hunk_scatter.specs.Placing.{IsFirstUnplaced, packed_from};
ghost use Rattle.hunk_c.specs.Loads.{AreBasesOf};
ghost use Rattle.hunk_c.specs.Packs.{AreMarksTo, AreNearTo, ArePacked, AreShortFrom, HasRow, HasShortRows};
ghost use Rattle.hunk_c.specs.Packs.{IsRow, bases_in, hunks_a_mark, hunks_near};
ghost use Rattle.hunk_c.specs.Tables.{BeginsWithTableOf};

use hunk_files::Bases;
use hunk_grammar::TABLE_AT;
use hunk_words::{CONTENT_LIMIT, SizeWord};
use std::marker::Model;

/// Where a row of the table stands, and where its hunk begins.
#[derive(Clone, Copy)]
pub(crate) struct RowPlace {
    /// The longword of the header, counted from 0, at which the row stands.
    pub longword: usize,
    /// The address of the hunk's first byte; 2^32 where it lies after the address space.
    pub base: u64,
}

/// The place of a row as it is kept: 8 bytes.
#[derive(Clone, Copy)]
pub(crate) struct Mark {
    pub longword: u32,
    pub base: u32,
}

impl Mark {
    /// The mark of no row.
    pub(crate) const NONE: Mark = Mark {
        longword: 0,
        base: 0,
    };
}

/// How many marks are kept of a file: 4 KiB.
pub(crate) const MARKS: usize = 512;

/// How many marks are kept where there are few hunks: 128 bytes.
pub(crate) const FEW_MARKS: usize = 16;

/// The hunks from one mark to the next: `MARKS` times as many are the most of a file.
pub(crate) const HUNKS_A_MARK: usize = 128;

/// The hunks whose bases are kept together.
const HUNKS_NEAR: usize = 32;

/// No hunks of a file have this number, where each so many that are near have one.
const NONE_NEAR: usize = MARKS * HUNKS_A_MARK / HUNKS_NEAR;

/// The address space of 32 bits ends here.
pub(crate) const END: u64 = 1 << 32;

/// The bases of hunks one right after the other. Contracts see the list of them.
///
/// It keeps where every 128th row stands, and, once two bases in turn are those of hunks near each
/// other, the bases of 32 hunks there. So a base costs fewer than 128 rows, and none near others.
#[derive(Drop)]
pub(crate) struct PackedBases<'a> {
    bytes: &'a [u8],
    hunks: u32,
    start: u32,
    marks: &'a [Mark],
    /// Whether each row is one longword.
    short: bool,
    /// The number of the hunks near the one that was asked for last, and of those whose bases are
    /// in `near`.
    last: usize,
    number: usize,
    near: [u32; HUNKS_NEAR],
}

impl<'a> Model for PackedBases<'a> {
    ghost use Rattle.std.specs.Prelude.{ℕ, List, IsTrue};
    ghost use Rattle.hunk_c.specs.Packs.{AreNearTo, ArePacked, HasShortRows, bases_in};

    ghost Value = { List ℕ };

    ghost view = { λ s. bases_in s.start s.hunks s.bytes.now };

    ghost invariant = { λ s. ArePacked s.bytes.now s.hunks s.start s.marks.now
        × (IsTrue s.short → HasShortRows s.bytes.now)
        × AreNearTo (bases_in s.start s.hunks s.bytes.now) s.number s.near s.hunks };
}

/// The place of the next row.
pub(crate) fn next_row(bytes: &[u8], place: RowPlace) -> RowPlace
    requires { HasRow bytes.now place }
    ensures row { (t : List TableEntry) (h : BeginsWithHeader bytes.now t) (start i : ℕ)
        → i < length t → IsRow h start i place.longword place.base
        → IsRow h start (i + 1) result.longword result.base }
    ensures more { place.longword < result.longword }
    ensures near { result.longword ≤ place.longword + 2 }
{
    let size = SizeWord::at(bytes, place.longword);
    RowPlace {
        longword: place.longword + SizeWord::entry_longs(size.word),
        base: place.base + size.bytes(),
    }
}

/// Keeps the place of the hunk's row, if it is one of those that are kept.
fn put_mark(marks: &mut [Mark], hunk: usize, place: RowPlace)
    requires room { hunk < hunks_a_mark * length marks.old }
    requires longword { place.longword < 2 ^ 32 }
    requires base { place.base < 2 ^ 32 }
    ensures { (bytes : List ℕ) (t : List TableEntry) (h : BeginsWithHeader bytes t) (start : ℕ)
        → AreMarksTo h start marks.old hunk → IsRow h start hunk place.longword place.base
        → AreMarksTo h start marks.new (hunk + 1) }
{
    if hunk % HUNKS_A_MARK == 0 {
        marks[hunk / HUNKS_A_MARK] = Mark {
            longword: place.longword as u32,
            base: place.base as u32,
        };
    }
}

/// Sets the marks to those of the table of the header that the bytes begin with, whose hunks lie
/// from `start` on. Answers whether each row is one longword.
///
/// # Errors
///
/// The first hunk that passes the end of the address space of 32 bits.
pub(crate) fn place_marks(
    marks: &mut [Mark],
    bytes: &[u8],
    hunks: u32,
    start: u32,
) -> Result<bool, u32>
    requires table { BeginsWithTableOf hunks bytes.now }
    requires room { hunks ≤ hunks_a_mark * length marks.old }
    ensures packed { OnOk result (ArePacked bytes.now hunks start marks.new) }
    ensures short { IfOk result (λ short. IsTrue short → HasShortRows bytes.now) }
    ensures bases { OnOk result
        (AreBasesOf (packed_from start) bytes.now (bases_in start hunks bytes.now)) }
    ensures unplaced { IfErr result (λ hunk. (t : List TableEntry)
        → BeginsWithHeader bytes.now t → IsFirstUnplaced (packed_from start) t hunk) }
{
    let mut place = RowPlace {
        longword: TABLE_AT,
        base: u64::from(start),
    };
    'placing: for hunk in 0..hunks {
        let after = next_row(bytes, place);
        if place.base >= END || after.base > END {
            return Err(hunk);
        }
        put_mark(marks, hunk as usize, place);
        place = after;
    }
    Ok(place.longword == TABLE_AT + hunks as usize)
}

/// The place of this hunk's row, by the rows from the mark before it.
#[inline(never)]
fn place_by_rows(bytes: &[u8], hunks: u32, marks: &[Mark], hunk: usize) -> RowPlace
    requires packed { (start : ℕ) × ArePacked bytes.now hunks start marks.now }
    requires inside { hunk < hunks }
    ensures { (start : ℕ) (p : ArePacked bytes.now hunks start marks.now)
        → IsRow p.header start hunk result.longword result.base }
{
    let number = hunk / HUNKS_A_MARK;
    let mark = marks[number];
    let mut place = RowPlace {
        longword: mark.longword as usize,
        base: u64::from(mark.base),
    };
    'rows: for _row in HUNKS_A_MARK * number..hunk {
        place = next_row(bytes, place);
    }
    place
}

/// The same where each row from the mark on is one longword.
#[inline(never)]
fn place_by_longwords(bytes: &[u8], hunks: u32, marks: &[Mark], hunk: usize) -> RowPlace
    requires packed { (start : ℕ) × ArePacked bytes.now hunks start marks.now }
    requires short { (start : ℕ) (p : ArePacked bytes.now hunks start marks.now)
        → AreShortFrom p (hunk / hunks_a_mark) }
    requires inside { hunk < hunks }
    ensures { (start : ℕ) (p : ArePacked bytes.now hunks start marks.now)
        → IsRow p.header start hunk result.longword result.base }
{
    let mark = marks[hunk / HUNKS_A_MARK];
    let from = mark.longword as usize;
    let mut base = mark.base;
    let rows = hunk % HUNKS_A_MARK;
    'rows: for row in 0..rows {
        // Where a longword is put together from its bytes, and not read by `word_at`, the compiler
        // makes the loop four longwords wide.
        let at = 4 * (from + row);
        let word = u32::from_be_bytes([bytes[at], bytes[at + 1], bytes[at + 2], bytes[at + 3]]);
        base += 4 * (word % CONTENT_LIMIT);
    }
    RowPlace {
        longword: from + rows,
        base: u64::from(base),
    }
}

/// Whether each row from the mark of this number to the next is known to be one longword: where
/// `short` says so of the whole table, or where the next mark lies that far on.
#[inline(always)]
fn are_short(bytes: &[u8], hunks: u32, marks: &[Mark], short: bool, number: usize) -> bool
    requires room { hunks ≤ hunks_a_mark * length marks.now }
    requires short { IsTrue short → HasShortRows bytes.now }
    requires inside { hunks_a_mark * number < hunks }
    ensures { (start : ℕ) (p : ArePacked bytes.now hunks start marks.now)
        → IsTrue result → AreShortFrom p number }
{
    if short {
        return true;
    }
    let next = number + 1;
    HUNKS_A_MARK * next < hunks as usize
        && marks[next].longword as usize == marks[number].longword as usize + HUNKS_A_MARK
}

/// The place of this hunk's row, where `short` says that each row is one longword.
#[inline(always)]
fn place_of(bytes: &[u8], hunks: u32, marks: &[Mark], short: bool, hunk: usize) -> RowPlace
    requires packed { (start : ℕ) × ArePacked bytes.now hunks start marks.now }
    requires short { IsTrue short → HasShortRows bytes.now }
    requires inside { hunk < hunks }
    ensures { (start : ℕ) (p : ArePacked bytes.now hunks start marks.now)
        → IsRow p.header start hunk result.longword result.base }
{
    if are_short(bytes, hunks, marks, short, hunk / HUNKS_A_MARK) {
        place_by_longwords(bytes, hunks, marks, hunk)
    } else {
        place_by_rows(bytes, hunks, marks, hunk)
    }
}

/// Sets `near` to the bases of the hunks of this number.
#[inline(never)]
fn put_near(
    near: &mut [u32; HUNKS_NEAR],
    bytes: &[u8],
    hunks: u32,
    marks: &[Mark],
    short: bool,
    number: usize,
)
    requires packed { (start : ℕ) × ArePacked bytes.now hunks start marks.now }
    requires short { IsTrue short → HasShortRows bytes.now }
    requires inside { hunks_near * number < hunks }
    ensures { (start : ℕ) → ArePacked bytes.now hunks start marks.now
        → AreNearTo (bases_in start hunks bytes.now) number near.new hunks }
{
    let first = HUNKS_NEAR * number;
    let mut place = place_of(bytes, hunks, marks, short, first);
    let end = (hunks as usize).min(first + HUNKS_NEAR);
    'rows: for hunk in first..end {
        near[hunk % HUNKS_NEAR] = place.base as u32;
        place = next_row(bytes, place);
    }
}

/// The base of this hunk.
fn base_of(bytes: &[u8], hunks: u32, marks: &[Mark], short: bool, hunk: usize) -> u32
    requires packed { (start : ℕ) × ArePacked bytes.now hunks start marks.now }
    requires short { IsTrue short → HasShortRows bytes.now }
    requires inside { hunk < hunks }
    ensures { (start : ℕ) → ArePacked bytes.now hunks start marks.now
        → result ≡ get_or (bases_in start hunks bytes.now) hunk 0 }
{
    place_of(bytes, hunks, marks, short, hunk).base as u32
}

impl<'a> PackedBases<'a> {
    /// The bases by these marks, where `short` says that each row is one longword.
    pub(crate) fn by(
        marks: &'a [Mark],
        bytes: &'a [u8],
        hunks: u32,
        start: u32,
        short: bool,
    ) -> PackedBases<'a>
        requires packed { ArePacked bytes.now hunks start marks.now }
        requires short { IsTrue short → HasShortRows bytes.now }
        ensures { result ≡ bases_in start hunks bytes.entry.now }
    {
        PackedBases {
            bytes,
            hunks,
            start,
            marks,
            short,
            last: NONE_NEAR,
            number: NONE_NEAR,
            near: [0; HUNKS_NEAR],
        }
    }
}

impl Bases for PackedBases<'_> {
    ghost bases = { λ bases. bases };

    #[inline(always)]
    fn base(&mut self, hunk: u32) -> u32 {
        let hunk = hunk as usize;
        let number = hunk / HUNKS_NEAR;
        if self.number == number {
            return self.near[hunk % HUNKS_NEAR];
        }
        if self.last != number {
            self.last = number;
            return base_of(self.bytes, self.hunks, self.marks, self.short, hunk);
        }
        put_near(
            &mut self.near,
            self.bytes,
            self.hunks,
            self.marks,
            self.short,
            number,
        );
        self.number = number;
        self.near[hunk % HUNKS_NEAR]
    }
}
