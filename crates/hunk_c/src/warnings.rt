//! What is suspicious in a load file.
ghost use Rattle.std.specs.Prelude.{◌≡◌, ◌*◌, ◌<◌, ◌≤◌, ◌^◌, ◌++◌, IfErr, IfOk, OnErr, OnOk, drop, length, map};
ghost use Rattle.std.proofs.Common.{◌∙◌, refl};
ghost use Rattle.hunk_files.specs.Collecting.{mapped_more};
ghost use Rattle.hunk_files.specs.FileView.{file_of};
ghost use Rattle.hunk_files.specs.HunkFile.{IsFileOf};
ghost use Rattle.hunk_lint.specs.Room.{room_for};
ghost use Rattle.hunk_lint.specs.Warnings.{warnings};
ghost use Rattle.hunk_c.specs.Warnings.{Warns, WarnsWhatFits, kind_number, load_rows, warning_row};

use crate::answer::{Answer, done, no_room, refused};
use crate::file::hunks_in;
use crate::rows::{RowCount, RowFiller};
use hunk_files::{FileView, LoadView, Takes};
use hunk_lint::{NoRoom, Warning, WarningKind, list_in_room, list_warnings};

/// Something suspicious, `struct hunk_warning`: 40 bytes, with no padding.
#[repr(C)]
#[derive(Clone, Copy)]
pub struct WarningRow {
    pub place: u64,
    pub hunk: u64,
    pub kind: u32,
    pub offset: u32,
    pub target: u32,
    pub value: u32,
    pub other: u32,
    pub reserved: u32,
}

/// Lists what is suspicious in a load file; an object file has nothing of that.
///
/// The room is for the call alone: what it holds afterwards is not said.
#[unsafe(no_mangle)]
pub extern "C" fn hunk_warnings(bytes: &[u8], room: &mut [u32], rows: &mut [WarningRow]) -> Answer
    ensures outcome { Warns bytes.now (length room.old) rows.old rows.new result }
    ensures succeeds { WarnsWhatFits (length room.old) (length rows.old) bytes.now result }
{
    match FileView::read(bytes) {
        Ok(file) => write_warnings(bytes, &file, room, rows),
        Err(refusal) => refused(refusal.fault),
    }
}

/// Writes the warnings of the file that the bytes are, or begin with.
fn write_warnings(
    bytes: &[u8],
    file: &FileView<'_>,
    room: &mut [u32],
    rows: &mut [WarningRow],
) -> Answer
    requires file { IsFileOf bytes.now (file_of file.now) }
    requires small { length rows.old < 2 ^ 63 }
    ensures { Warns bytes.now (length room.old) rows.old rows.new result }
{
    let hunks = hunks_in(file);
    let size = bytes.len() as u64 - file.rest();
    let FileView::Load { file, rest: _ } = file else {
        return done(hunks, size, 0);
    };
    let most = rows.len() as u64;
    let count = match most_warnings(file, size, most, room) {
        Ok(count) => count,
        Err(NoRoom) => return no_room(hunks, size, 0),
    };
    if count > most {
        return no_room(hunks, size, count);
    }
    match put_warnings(file, size, room, rows) {
        Ok(count) => done(hunks, size, count),
        Err(NoRoom) => no_room(hunks, size, 0),
    }
}

/// No fewer than a load file of so many bytes has: as many as it has bytes, where the caller has
/// rows for these, and else just as many. So they are counted only where that may tell something.
fn most_warnings(file: &LoadView<'_>, size: u64, most: u64, room: &mut [u32]) -> Result<u64, NoRoom>
    requires few { length (warnings file.now) ≤ size }
    requires longs { 4 * room_for file.now ≤ size }
    ensures all { IfOk result (λ n. length (warnings file.now) ≤ n) }
    ensures exact { IfOk result (λ n. most < n → n ≡ length (warnings file.now)) }
    ensures too_small { IfErr result (λ e. length room.old < room_for file.now) }
{
    if size <= most {
        return Ok(size);
    }
    let mut counter = RowCount { count: 0 };
    match list_rows(file, size, room, &mut counter) {
        Ok(()) => Ok(counter.count),
        Err(NoRoom) => Err(NoRoom),
    }
}

/// Writes the row of each warning over the first of these, and gives their number.
fn put_warnings(
    file: &LoadView<'_>,
    size: u64,
    room: &mut [u32],
    rows: &mut [WarningRow],
) -> Result<u64, NoRoom>
    requires fits { length (load_rows file.now) ≤ length rows.old }
    requires longs { 4 * room_for file.now ≤ size }
    ensures count { IfOk result (λ n. n ≡ length (load_rows file.now)) }
    ensures rows { OnOk result (rows.new ≡ load_rows file.now
        ++ drop (length (load_rows file.now)) rows.old) }
    ensures too_small { IfErr result (λ e. length room.old < room_for file.now) }
    ensures stays { OnErr result (rows.new ≡ rows.old) }
{
    let mut filler = RowFiller { rows, at: 0 };
    match list_rows(file, size, room, &mut filler) {
        Ok(()) => Ok(filler.at as u64),
        Err(NoRoom) => Err(NoRoom),
    }
}

/// Hands over the row of each warning of a load file of so many bytes.
///
/// It needs no more room than it has longwords, so where there is that much no block is counted.
fn list_rows<T: Takes<WarningRow>>(
    file: &LoadView<'_>,
    size: u64,
    room: &mut [u32],
    taker: &mut T,
) -> Result<(), NoRoom>
    requires { 4 * room_for file.now ≤ size }
    ensures taken { OnOk result (T.takes taker.old (load_rows file.now) taker.new) }
    ensures too_small { IfErr result (λ e. length room.old < room_for file.now) }
    ensures stays { IfErr result (λ e. taker.new ≡ taker.old) }
{
    let mut rows = WarningRows { taker };
    if size / 4 <= room.len() as u64 {
        list_in_room(file, room, &mut rows);
        return Ok(());
    }
    list_warnings(file, room, &mut rows)
}

/// Hands over the row of each warning that it takes.
#[derive(Drop)]
struct WarningRows<'t, T> {
    taker: &'t mut T,
}

impl<T: Takes<WarningRow>> Takes<Warning> for WarningRows<'_, T> {
    ghost takes = { λ a found b. (b.taker.ghost_name ≡ a.taker.ghost_name)
        × T.takes a.taker.now (map warning_row found) b.taker.now };

    ghost none = { λ s. (refl, T.none s.taker.now) };

    ghost more = { λ a b c xs ys first next. (
      next.0 ∙ first.0,
      mapped_more warning_row T.takes T.more a.taker.now b.taker.now c.taker.now xs ys
          first.1 next.1,
    ) };

    fn take(&mut self, item: Warning) {
        self.taker.take(warning_row(&item));
    }
}

/// What callers see of a warning.
fn warning_row(found: &Warning) -> WarningRow
    ensures { result ≡ warning_row found.now }
{
    WarningRow {
        place: found.place,
        hunk: found.hunk,
        kind: kind_number(found.kind),
        offset: found.offset,
        target: found.target,
        value: found.value,
        other: found.other,
        reserved: 0,
    }
}

/// The number of a kind in `bindings/c/hunk.h`.
fn kind_number(kind: WarningKind) -> u32
    ensures { result ≡ kind_number kind }
{
    match kind {
        WarningKind::OddOffset => 1,
        WarningKind::Twice => 2,
        WarningKind::Overlap => 3,
        WarningKind::InBss => 4,
        WarningKind::OutsideTarget => 5,
        WarningKind::SymbolOutside => 6,
        WarningKind::NoEntry => 7,
        WarningKind::MemoryIgnored => 8,
    }
}
