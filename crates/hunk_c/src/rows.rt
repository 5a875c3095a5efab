//! Rows of what stands in a file, which the caller has room for.
ghost use Rattle.std.specs.Prelude.{◌≡◌, ◌<◌, ◌≤◌, ◌^◌, ◌++◌, ℕ, List, [], drop, length};
ghost use Rattle.std.proofs.Common.{◌∙◌, refl};
ghost use Rattle.hunk_words.specs.Carriers.{saturated};
ghost use Rattle.hunk_files.specs.FileView.{file_of};
ghost use Rattle.hunk_files.specs.HunkFile.{IsFileOf, file_bytes};
ghost use Rattle.hunk_files.specs.LoadFile.{IsLoadFile, LoadFileValue};
ghost use Rattle.hunk_files.specs.StandingBlocks.{StandingBlock};
ghost use Rattle.hunk_files.specs.declared.hunk_file.HunkFile.{HunkFile};
ghost use Rattle.hunk_files.specs.declared.hunk_file.HunkFile.TheVariants as files;
ghost use Rattle.hunk_parts.specs.Copying.{Copies, copies_none, copies_more};
ghost use Rattle.hunk_c.specs.Counting.{Counts, counts_none, counts_more};
ghost use Rattle.hunk_c.specs.Rows.{ListsWhatFits, Tabulates, rows_in};

use crate::answer::{Answer, done, no_room, refused};
use crate::file::hunks_in;
use hunk_blocks::BlockView;
use hunk_files::{FileView, Item, Takes};

/// A row of what stands in a file.
pub(crate) trait FileRow: Copy + Drop {
    ghost rows: { HunkFile → List Self };

    /// Hands over a row for each thing, in file order.
    fn list_file<T: Takes<Self>>(file: &FileView<'_>, taker: &mut T)
        ensures { T.takes taker.old (rows (file_of file.now)) taker.new };
}

/// Rows whose number is known before they are listed, or is no more than some.
pub(crate) trait CountedRow: FileRow {
    /// How many rows there are, up to 2 ^ 64 - 1.
    fn count(file: &FileView<'_>) -> u64
        ensures { result ≡ saturated (length (Self.rows (file_of file.now))) };

    /// As many rows as a file of so many bytes may have.
    fn most_rows(size: u64) -> u64
        ensures { (bytes : List ℕ) (file : HunkFile) → IsFileOf bytes file
            → length (file_bytes file) ≤ size → length (Self.rows file) ≤ result };
}

/// A row of what stands in a block.
pub(crate) trait InBlock: Copy + Drop {
    ghost in_block: { StandingBlock → List Self };

    /// Hands over a row for each thing in this block of a hunk of a unit.
    fn list<T: Takes<Self>>(unit: u64, hunk: u64, block: BlockView<'_>, taker: &mut T)
        ensures { T.takes taker.old
            (in_block (record { unit = unit; hunk = hunk; block = block.entry })) taker.new };
}

/// The rows of all blocks, one block after the other.
impl<R: InBlock> FileRow for R {
    ghost rows = { rows_in R.in_block };

    fn list_file<T: Takes<R>>(file: &FileView<'_>, taker: &mut T) {
        'listing: for item in file.items() {
            if let Item::Block { unit, hunk, view } = item {
                R::list(unit, hunk, view, taker);
            }
        }
    }
}

/// Counts rows, up to 2 ^ 64 - 1.
#[derive(Drop)]
pub(crate) struct RowCount {
    pub(crate) count: u64,
}

impl<R: Drop> Takes<R> for RowCount {
    ghost takes = { λ a xs b. Counts a.count xs b.count };

    ghost none = { λ s. counts_none R s.count };

    ghost more = { λ a b c xs ys. counts_more a.count b.count c.count xs ys };

    fn take(&mut self, _item: R) {
        self.count = self.count.saturating_add(1);
    }
}

/// Writes each row over the next of these, until none is left.
#[derive(Drop)]
pub(crate) struct RowFiller<'r, R> {
    pub(crate) rows: &'r mut [R],
    /// The number of the next row.
    pub(crate) at: usize,
}

impl<R: Copy + Drop> Takes<R> for RowFiller<'_, R> {
    ghost takes = { λ a xs b. (b.rows.ghost_name ≡ a.rows.ghost_name)
        × Copies a.rows.now a.at xs b.rows.now b.at };

    ghost none = { λ s. (refl, copies_none s.rows.now s.at) };

    ghost more = { λ a b c xs ys first next. (
      next.0 ∙ first.0,
      copies_more a.rows.now b.rows.now c.rows.now a.at b.at c.at xs ys first.1 next.1,
    ) };

    fn take(&mut self, item: R) {
        if self.at < self.rows.len() {
            self.rows[self.at] = item;
            self.at += 1;
        }
    }
}

/// Writes the rows of the file that the bytes are, or begin with, to the caller's.
///
/// # Errors
///
/// The first fault of the bytes; `NO_ROOM` where the caller has too few rows.
pub(crate) fn tabulate<R: CountedRow>(bytes: &[u8], rows: &mut [R]) -> Answer
    requires { length rows.old < 2 ^ 63 }
    ensures outcome { Tabulates R.rows bytes.now rows.old rows.new result }
    ensures succeeds { ListsWhatFits R.rows (length rows.old) bytes.now result }
{
    match FileView::read(bytes) {
        Ok(file) => write_rows(bytes, &file, rows),
        Err(refusal) => refused(refusal.fault),
    }
}

/// The same for rows of which a load file has none: its blocks are not looked at again.
///
/// # Errors
///
/// The first fault of the bytes; `NO_ROOM` where the caller has too few rows.
pub(crate) fn tabulate_object<R: CountedRow>(bytes: &[u8], rows: &mut [R]) -> Answer
    requires small { length rows.old < 2 ^ 63 }
    requires none { (value : LoadFileValue) (rest : ℕ) → IsLoadFile value
        → R.rows (files.Load value rest) ≡ [] }
    ensures outcome { Tabulates R.rows bytes.now rows.old rows.new result }
    ensures succeeds { ListsWhatFits R.rows (length rows.old) bytes.now result }
{
    match FileView::read(bytes) {
        Ok(file) => write_object_rows(bytes, &file, rows),
        Err(refusal) => refused(refusal.fault),
    }
}

/// Writes the rows of the file that the bytes are, or begin with; a load file has none.
fn write_object_rows<R: CountedRow>(bytes: &[u8], file: &FileView<'_>, rows: &mut [R]) -> Answer
    requires file { IsFileOf bytes.now (file_of file.now) }
    requires small { length rows.old < 2 ^ 63 }
    requires none { (value : LoadFileValue) (rest : ℕ) → file_of file.now ≡ files.Load value rest
        → R.rows (files.Load value rest) ≡ [] }
    ensures outcome { Tabulates R.rows bytes.now rows.old rows.new result }
    ensures succeeds { ListsWhatFits R.rows (length rows.old) bytes.now result }
{
    match file {
        FileView::Load { file, rest } => {
            let size = bytes.len() as u64 - *rest;
            done(file.hunks(), size, 0)
        }
        FileView::Object(_) => write_rows(bytes, file, rows),
    }
}

/// Writes the rows of the file that the bytes are, or begin with.
///
/// They are counted before, but where the caller has room for as many as the file may have.
#[inline(never)]
fn write_rows<R: CountedRow>(bytes: &[u8], file: &FileView<'_>, rows: &mut [R]) -> Answer
    requires file { IsFileOf bytes.now (file_of file.now) }
    requires small { length rows.old < 2 ^ 63 }
    ensures outcome { Tabulates R.rows bytes.now rows.old rows.new result }
    ensures succeeds { ListsWhatFits R.rows (length rows.old) bytes.now result }
{
    let hunks = hunks_in(file);
    let size = bytes.len() as u64 - file.rest();
    let room = rows.len() as u64;
    if R::most_rows(size) <= room {
        let count = put_rows(file, rows);
        return done(hunks, size, count);
    }
    let count = R::count(file);
    if count > room {
        return no_room(hunks, size, count);
    }
    // Nothing is looked for again where nothing was found.
    if count == 0 {
        return done(hunks, size, count);
    }
    put_rows(file, rows);
    done(hunks, size, count)
}

/// How many rows there are, up to 2 ^ 64 - 1, where they are listed for it.
#[inline(never)]
pub(crate) fn count_rows<R: FileRow>(file: &FileView<'_>) -> u64
    ensures { result ≡ saturated (length (R.rows (file_of file.now))) }
{
    let mut counter = RowCount { count: 0 };
    R::list_file(file, &mut counter);
    counter.count
}

/// Writes the row of each thing over the first of these, and gives their number.
#[inline(never)]
#[tactic(auto, using(hunk_parts::proofs::CopiedText::copied))]
fn put_rows<R: FileRow>(file: &FileView<'_>, rows: &mut [R]) -> u64
    requires { length (R.rows (file_of file.now)) ≤ length rows.old }
    ensures count { result ≡ length (R.rows (file_of file.now)) }
    ensures rows { rows.new ≡ R.rows (file_of file.now)
        ++ drop (length (R.rows (file_of file.now))) rows.old }
{
    let mut filler = RowFiller { rows, at: 0 };
    R::list_file(file, &mut filler);
    filler.at as u64
}
