//! The units of an object file.
ghost use Rattle.std.specs.Prelude.{◌≡◌, length};
ghost use Rattle.hunk_c.specs.Rows.{ListsWhatFits, Tabulates};
ghost use Rattle.hunk_files.specs.declared.hunk_file.HunkFile.TheVariants as files;
ghost use Rattle.hunk_c.specs.Units.{open_hunks, open_rows, unit_row, units_in};

use crate::answer::Answer;
use crate::name::text_length;
use crate::rows::{CountedRow, FileRow, tabulate_object};
use hunk_files::{FileView, Item, ObjectView, Takes, UnitView};

/// A unit of an object file, `struct hunk_unit`: 40 bytes, with no padding.
#[repr(C)]
#[derive(Clone, Copy)]
pub struct UnitRow {
    pub place: u64,
    pub name: u64,
    pub name_bytes: u64,
    pub hunks: u64,
    pub reserved: u64,
}

/// Lists the units of an object file; a load file has none.
#[unsafe(no_mangle)]
pub extern "C" fn hunk_units(bytes: &[u8], rows: &mut [UnitRow]) -> Answer
    ensures outcome { Tabulates units_in bytes.now rows.old rows.new result }
    ensures succeeds { ListsWhatFits units_in (length rows.old) bytes.now result }
{
    tabulate_object(bytes, rows)
}

impl FileRow for UnitRow {
    ghost rows = { units_in };

    fn list_file<T: Takes<UnitRow>>(file: &FileView<'_>, taker: &mut T) {
        match file {
            FileView::Load { .. } => {}
            FileView::Object(file) => list_units(file, taker),
        }
    }
}

impl CountedRow for UnitRow {
    fn count(file: &FileView<'_>) -> u64 {
        match file {
            FileView::Load { .. } => 0,
            // No hunk of theirs is looked at.
            FileView::Object(file) => file.units(),
        }
    }

    #[tactic(auto, using(crate::proofs::FewRows::few_units))]
    fn most_rows(size: u64) -> u64 {
        size / 4
    }
}

/// Hands over a row for each unit. Its hunks are counted on the way to the next one.
fn list_units<T: Takes<UnitRow>>(file: &ObjectView<'_>, taker: &mut T)
    ensures { T.takes taker.old (units_in (files.Object file.now)) taker.new }
{
    let mut current = None;
    let mut hunks = 0;
    'listing: for item in file.items() {
        match item {
            Item::Unit { view, .. } => {
                take_unit(current.replace(view), hunks, taker);
                hunks = 0;
            }
            Item::Hunk { .. } => hunks += 1,
            Item::Block { .. } => {}
        }
    }
    take_unit(current, hunks, taker);
}

/// Hands over the row of a unit of so many hunks, where one is open.
fn take_unit<T: Takes<UnitRow>>(unit: Option<UnitView<'_>>, hunks: u64, taker: &mut T)
    requires { hunks ≡ open_hunks unit }
    ensures { T.takes taker.old (open_rows unit.entry) taker.new }
{
    if let Some(unit) = unit {
        taker.take(unit_row(&unit, hunks));
    }
}

/// What the caller sees of a unit of so many hunks.
fn unit_row(unit: &UnitView<'_>, hunks: u64) -> UnitRow
    requires { hunks ≡ length unit.now.value.hunks }
    ensures { result ≡ unit_row unit.now.place unit.now.value }
{
    let (place, name) = (unit.place(), unit.name());
    UnitRow {
        place,
        name: place + 8,
        name_bytes: text_length(name.bytes()),
        hunks,
        reserved: 0,
    }
}
