//! The first row of which no file is made.
ghost use Rattle.std.specs.Prelude.{◌≡◌, ◌<◌, ◌^◌, ◌≤◌, ◌*◌, IfErr, IfOk, None, OnErr, OnOk};
ghost use Rattle.std.specs.Prelude.{Some, length};
ghost use Rattle.std.specs.List.{filter};
ghost use Rattle.hunk_words.specs.Limits.{most_hunks};
ghost use Rattle.hunk_words.specs.Longs.{longs};
ghost use Rattle.hunk_parts.specs.PartFaults.{end_fault, fault_at, first_place, is_hunk_row, nth_hunk};
ghost use Rattle.hunk_parts.specs.PartFaults.{refuse_far, refuse_offsets, row_fault, start, table_bytes};
ghost use Rattle.hunk_parts.specs.PartFaults.{too_many_hunks};
ghost use Rattle.hunk_parts.specs.PartFaults.{refuse_part, refuse_row, size_of_part, step_row};
ghost use Rattle.hunk_parts.specs.Parts.{seen};
ghost use Rattle.hunk_parts.specs.RowsText.{part_seen, rows_size};

use crate::part_row::{BLOCK_PART, GROUP_PART, HUNK_PART, PartRow, SYMBOL_PART};
use crate::place::PartPlace;
use crate::refusals::{STRANGE, because, is_before_units, is_open};
use crate::row_fault::{BuiltSize, Refusal, RowFault, RowRefusal};
use crate::seen_part::SeenPart;
use hunk_grammar::{TABLE_AT, WordPlace, is_outside};
use hunk_words::{MOST_HUNKS, Reason, SizeWord, word_at};

/// The bytes of a load file before its table.
const HEADER_BYTES: u64 = 4 * TABLE_AT as u64;

/// The first of the offsets that passes the end of a hunk of so many longwords. They stand after
/// the number of offsets and the target.
fn refuse_offsets(declared: u32, offsets: &[u8]) -> Option<Refusal>
    requires { length offsets.now < 2 ^ 34 }
    ensures { result ≡ refuse_offsets declared 8 (longs offsets.now) }
{
    'offsets: for i in 0..offsets.len() / 4 {
        if is_outside(word_at(offsets, i), declared) {
            return because(8 + 4 * i as u64, Reason::BadOffset);
        }
    }
    None
}

impl PartPlace {
    /// Where the rows of a file of this many hunks begin, after so many bytes.
    fn start(hunks: u32, size: u64) -> PartPlace
        ensures { result ≡ start hunks size }
    {
        PartPlace {
            hunks,
            longs: 0,
            place: WordPlace::BeforeUnits,
            list: None,
            entry: HEADER_BYTES,
            at: size,
        }
    }

    /// Why the offsets of a part are refused that is not refused otherwise.
    #[inline(always)]
    fn refuse_far(self, part: &SeenPart<'_>) -> Option<Refusal>
        requires { refuse_part self (size_of_part (part_seen part.now)) ≡ None }
        ensures { result ≡ refuse_far self (part_seen part.now) }
    {
        if part.what != GROUP_PART || self.hunks == 0 {
            return None;
        }
        refuse_offsets(self.longs, part.offsets)
    }

    /// The place after the row, or why it is refused. The most frequent kinds of parts are told apart
    /// here, once for all that is asked of one.
    fn pass(self, bytes: &[u8], row: &PartRow) -> Result<PartPlace, Refusal>
        ensures passes { OnOk result (refuse_row self (seen bytes.now row.now) ≡ None) }
        ensures next { IfOk result (λ next. next ≡ step_row self (seen bytes.now row.now)) }
        ensures refused { IfErr result (λ refusal.
            refuse_row self (seen bytes.now row.now) ≡ Some refusal) }
    {
        match row.what {
            BLOCK_PART => self.pass_any(bytes, row),
            GROUP_PART => self.pass_any(bytes, row),
            SYMBOL_PART => self.pass_any(bytes, row),
            _ => self.pass_any(bytes, row),
        }
    }

    /// The same, with no kind told apart beforehand.
    #[inline(always)]
    fn pass_any(self, bytes: &[u8], row: &PartRow) -> Result<PartPlace, Refusal>
        ensures passes { OnOk result (refuse_row self (seen bytes.now row.now) ≡ None) }
        ensures next { IfOk result (λ next. next ≡ step_row self (seen bytes.now row.now)) }
        ensures refused { IfErr result (λ refusal.
            refuse_row self (seen bytes.now row.now) ≡ Some refusal) }
    {
        let Some(part) = SeenPart::of(bytes, row) else {
            return Err(STRANGE);
        };
        let size = part.size();
        if let Some(refusal) = self.refuse(size) {
            return Err(refusal);
        }
        if let Some(refusal) = self.refuse_far(&part) {
            return Err(refusal);
        }
        Ok(self.step(size))
    }

    /// The fault of a row that is refused here.
    fn fault_at(self, row: &PartRow, number: u64, refusal: Refusal) -> RowFault
        ensures { result ≡ fault_at self row.now number refusal }
    {
        RowFault {
            refusal: refusal.why,
            place: self.begins_at(row).saturating_add(refusal.ahead),
            row: number,
        }
    }

    /// The fault of rows that end here, where a hunk is open, or there are no rows.
    fn end_fault(self, number: u64) -> Option<RowFault>
        ensures { result ≡ end_fault self number }
    {
        if !is_open(self.place) && !is_before_units(self.place) {
            return None;
        }
        Some(RowFault {
            refusal: RowRefusal::Refused(Reason::Truncated),
            place: self.ends_at(),
            row: number,
        })
    }
}

/// The table of a load file.
#[derive(Clone, Copy)]
struct Table {
    hunks: u32,
    bytes: u64,
}

/// The table of a load file with these rows, or the row of the first hunk that is too many.
fn table_of(rows: &[PartRow]) -> Result<Table, u64>
    ensures hunks { IfOk result (λ table. table.hunks ≡ length (filter is_hunk_row rows.now)) }
    ensures most { IfOk result (λ table. table.hunks ≤ most_hunks) }
    ensures bytes { IfOk result (λ table. table.bytes ≡ table_bytes rows.now) }
    ensures bound { IfOk result (λ table. table.bytes ≤ 8 * most_hunks) }
    ensures too_many { OnErr result (most_hunks < length (filter is_hunk_row rows.now)) }
    ensures row { IfErr result (λ row. row ≡ nth_hunk most_hunks 0 rows.now) }
{
    let mut hunks = 0;
    let mut bytes = 0;
    'rows: for i in 0..rows.len() {
        if rows[i].what == HUNK_PART {
            if hunks == MOST_HUNKS {
                return Err(i as u64);
            }
            hunks += 1;
            bytes += 4 * SizeWord::entry_longs(rows[i].word) as u64;
        }
    }
    Ok(Table { hunks, bytes })
}

/// Where the rows begin, or the fault of the first hunk that is too many.
fn first_place(rows: &[PartRow]) -> Result<PartPlace, RowFault>
    ensures place { IfOk result (λ place. place ≡ first_place rows.now) }
    ensures most { OnOk result ((first_place rows.now).hunks ≤ most_hunks) }
    ensures too_many { OnErr result (most_hunks < (first_place rows.now).hunks) }
    ensures fault { IfErr result (λ fault. fault ≡ too_many_hunks rows.now) }
{
    let is_load = match rows.first() {
        Some(row) => row.what == HUNK_PART,
        None => false,
    };
    if !is_load {
        return Ok(PartPlace::start(0, 0));
    }
    match table_of(rows) {
        Ok(table) => Ok(PartPlace::start(table.hunks, HEADER_BYTES + table.bytes)),
        Err(row) => Err(RowFault {
            refusal: RowRefusal::Refused(Reason::TooManyHunks),
            place: 8,
            row,
        }),
    }
}

/// The size of the file that the rows spell, or the first row of which no file is made.
pub(crate) fn find_fault(bytes: &[u8], rows: &[PartRow]) -> Result<BuiltSize, RowFault>
    ensures spells { OnOk result (row_fault bytes.now rows.now ≡ None) }
    ensures size { IfOk result (λ size. size ≡ rows_size bytes.now rows.now) }
    ensures fault { IfErr result (λ fault. row_fault bytes.now rows.now ≡ Some fault) }
{
    let mut place = first_place(rows)?;
    'rows: for i in 0..rows.len() {
        let row = &rows[i];
        place = match place.pass(bytes, row) {
            Ok(next) => next,
            Err(refusal) => return Err(place.fault_at(row, i as u64, refusal)),
        };
    }
    match place.end_fault(rows.len() as u64) {
        Some(fault) => Err(fault),
        None => Ok(BuiltSize {
            hunks: place.hunks,
            bytes: place.ends_at(),
        }),
    }
}
