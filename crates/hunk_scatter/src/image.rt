//! A load file in memory.
ghost use Rattle.std.specs.Prelude.{◌≡◌, ◌+◌, ◌*◌, ◌<◌, ◌≤◌, length, slice_get, slice_index, sum_by, Some};
ghost use Rattle.std.specs.Iterator.{at_most};
ghost use Rattle.hunk_words.specs.Limits.{most_hunks};
ghost use Rattle.hunk_files.specs.Image.{declared_bytes};
ghost use Rattle.hunk_scatter.specs.LoaderValues.{GivesSegment, segments_in, joined};
ghost use Rattle.hunk_scatter.specs.Rows.{AreStarts, entries_of, words_of, bases_of};

use hunk_files::Row;
use std::marker::Model;

/// How many segments an image's index has the start of.
const STARTS: usize = 32;

/// The hunks from one start of the index to the next: `STARTS` times as many are the most of a
/// file.
const HUNKS_A_START: usize = 2048;

/// The segments of a load file, each as it lies at its base.
///
/// Contracts see the rows with their bases, and the segments. No call takes memory.
#[derive(Drop)]
pub struct Image {
    pub(crate) rows: Vec<Row>,
    pub(crate) store: Vec<u8>,
    pub(crate) starts: [u64; STARTS],
}

impl Model for Image {
    ghost use Rattle.hunk_words.specs.Limits.{most_hunks};
    ghost use Rattle.std.specs.Prelude.{◌≡◌, ◌≤◌, length};
    ghost use Rattle.hunk_files.specs.Image.{declared_bytes};
    ghost use Rattle.hunk_scatter.specs.LoaderValues.{ImageValue, segments_in};
    ghost use Rattle.hunk_scatter.specs.Rows.{AreStarts, entries_of, words_of};

    ghost Value = { ImageValue };

    ghost view = { λ s. record {
      rows = s.rows.items;
      segments = segments_in (words_of s.rows.items) s.store.items;
    } };

    ghost invariant = { λ s. (length s.store.items ≡ declared_bytes (entries_of s.rows.items))
        × (length s.rows.items ≤ most_hunks)
        × AreStarts s.rows.items s.starts };
}

/// Where the segment of a hunk begins: the declared bytes of the rows before it.
fn start_of(rows: &[Row]) -> u64
    requires { length rows.now ≤ most_hunks }
    ensures { result ≡ declared_bytes (entries_of rows.now) }
{
    let mut bytes = 0;
    for row in rows {
        bytes += row.size().bytes();
    }
    bytes
}

/// The index of an image: where every 2,048th segment begins. It is made in one pass.
#[tactic(auto, using(crate::proofs::DeclaredBytes::declared_front, crate::proofs::DeclaredBytes::table_fits))]
pub(crate) fn starts_of(rows: &[Row]) -> [u64; STARTS]
    requires { length rows.now ≤ most_hunks }
    ensures { AreStarts rows.now result }
{
    let mut starts = [0; STARTS];
    let mut bytes = 0;
    let mut rest = rows;
    let mut k = 0;
    'starts: while k < STARTS {
        starts[k] = bytes;
        let (front, after) = rest.split_at(HUNKS_A_START.min(rest.len()));
        bytes += start_of(front);
        rest = after;
        k += 1;
    }
    starts
}

/// The bytes of a hunk in the store.
#[tactic(auto, using(crate::proofs::DeclaredBytes::declared_front, crate::proofs::DeclaredBytes::segment_within, crate::proofs::DeclaredBytes::start_at))]
fn segment_of<'a>(rows: &[Row], starts: &[u64], store: &'a [u8], i: usize) -> &'a [u8]
    requires hunk { i < length rows.now }
    requires few { length rows.now ≤ most_hunks }
    requires starts { AreStarts rows.now starts.now }
    requires size { length store.now ≡ declared_bytes (entries_of rows.now) }
    ensures { slice_get (segments_in (words_of rows.now) store.entry.now) i ≡ Some result.now }
{
    let k = i / HUNKS_A_START;
    let first = k * HUNKS_A_START;
    let front = start_of(&rows[first..i]);
    let start = (starts[k] + front) as usize;
    let row = rows[i];
    let bytes = row.size().bytes() as usize;
    &store[start..start + bytes]
}

impl Image {
    /// The number of hunks.
    pub fn hunks(&self) -> u32
        ensures { result ≡ length self.now.rows }
    {
        self.rows.len() as u32
    }

    /// The table's entry of hunk `i`, counted from 0, and its base.
    pub fn row(&self, i: u32) -> Row
        requires { i < length self.now.rows }
        ensures { slice_get self.now.rows i ≡ Some result }
    {
        self.rows[i as usize]
    }

    /// The address at which a hunk begins.
    pub fn base(&self, i: u32) -> u32
        requires { i < length self.now.rows }
        ensures { result ≡ slice_index (bases_of self.now.rows) i }
    {
        self.rows[i as usize].base
    }

    /// The bytes of a hunk. It is found by summing the bytes of at most 2,047 hunks: for all hunks
    /// take `segments`.
    pub fn segment(&self, i: u32) -> &[u8]
        requires { i < length self.now.rows }
        ensures { slice_get self.now.segments i ≡ Some result.now }
    {
        let rows = self.rows.as_slice();
        segment_of(rows, &self.starts, self.store.as_slice(), i as usize)
    }

    /// The segments in turn, each with its row: for all hunks, in time linear in their number.
    pub fn segments(&self) -> Segments<'_>
        ensures { result ≡ self.now }
    {
        Segments {
            rows: self.rows.as_slice(),
            rest: self.store.as_slice(),
        }
    }

    /// The segments of all hunks as one slice, each right after the one before it.
    pub fn joined(&self) -> &[u8]
        ensures segments { result.now ≡ joined self.now.segments }
        ensures size { length result.now ≡ declared_bytes (entries_of self.now.rows) }
    {
        self.store.as_slice()
    }

    /// The number of bytes of all hunks together.
    #[tactic(auto, using(crate::proofs::DeclaredBytes::cut_total))]
    pub fn bytes(&self) -> u64
        ensures declared { result ≡ declared_bytes (entries_of self.now.rows) }
        ensures sum { result ≡ sum_by length self.now.segments }
    {
        self.store.len() as u64
    }

    /// The bytes that are held: those of the store, and 12 for each hunk.
    pub fn held(&self) -> u64
        ensures { result ≡ declared_bytes (entries_of self.now.rows) + 12 * length self.now.rows }
    {
        self.bytes() + 12 * self.rows.len() as u64
    }
}

/// The segments that are still to come, from the front.
///
/// Contracts see their rows, and the segments. No call takes memory.
#[derive(Drop)]
pub struct Segments<'a> {
    pub(crate) rows: &'a [Row],
    pub(crate) rest: &'a [u8],
}

impl<'a> Model for Segments<'a> {
    ghost use Rattle.std.specs.Prelude.{◌≡◌, length};
    ghost use Rattle.hunk_files.specs.Image.{declared_bytes};
    ghost use Rattle.hunk_scatter.specs.LoaderValues.{ImageValue, segments_in};
    ghost use Rattle.hunk_scatter.specs.Rows.{entries_of, words_of};

    ghost Value = { ImageValue };

    ghost view = { λ s. record {
      rows = s.rows.now;
      segments = segments_in (words_of s.rows.now) s.rest.now;
    } };

    ghost invariant = { λ s. length s.rest.now ≡ declared_bytes (entries_of s.rows.now) };
}

impl<'a> Iterator for Segments<'a> {
    type Item = (Row, &'a [u8]);

    ghost next_gives = { λ s item t. GivesSegment s item t };

    ghost remaining = { λ s. at_most (length s.rows) };

    /// The next segment, after its row.
    fn next(&mut self) -> Option<(Row, &'a [u8])> {
        let (row, rows) = self.rows.split_first()?;
        let (segment, rest) = self.rest.split_at(row.size().bytes() as usize);
        self.rows = rows;
        self.rest = rest;
        Some((*row, segment))
    }
}
