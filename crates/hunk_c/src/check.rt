//! What is wrong with the offsets of object files.
ghost use Rattle.std.specs.Prelude.{◌≡◌, length, map};
ghost use Rattle.std.proofs.Common.{◌∙◌, refl};
ghost use Rattle.hunk_files.specs.Collecting.{mapped_more};
ghost use Rattle.hunk_c.specs.Checks.{Checks, finding_row, finding_rows, kind_number};
ghost use Rattle.hunk_c.specs.Rows.{ListsWhatFits};

use crate::answer::Answer;
use crate::rows::{CountedRow, FileRow, count_rows, tabulate};
use hunk_files::{FileView, FindingKind, PlacedFinding, Takes};

/// What is wrong with an offset, `struct hunk_finding`: 40 bytes, with no padding.
#[repr(C)]
#[derive(Clone, Copy)]
pub struct FindingRow {
    pub place: u64,
    pub unit: u64,
    pub hunk: u64,
    pub offset: u32,
    pub fault: u32,
    pub reserved: u64,
}

/// Lists what is wrong with the offsets of an object file; a load file that is accepted has none.
#[unsafe(no_mangle)]
pub extern "C" fn hunk_check(bytes: &[u8], rows: &mut [FindingRow]) -> Answer
    ensures outcome { Checks bytes.now rows.old rows.new result }
    ensures succeeds { ListsWhatFits finding_rows (length rows.old) bytes.now result }
{
    tabulate(bytes, rows)
}

impl FileRow for FindingRow {
    ghost rows = { finding_rows };

    fn list_file<T: Takes<FindingRow>>(file: &FileView<'_>, taker: &mut T) {
        if let FileView::Object(file) = file {
            let mut rows = FindingRows { taker };
            let _units = file.check_in_place(&mut rows);
        }
    }
}

impl CountedRow for FindingRow {
    fn count(file: &FileView<'_>) -> u64 {
        count_rows::<FindingRow>(file)
    }

    #[tactic(auto, using(crate::proofs::FewRows::few_findings))]
    fn most_rows(size: u64) -> u64 {
        size / 2
    }
}

/// Hands over the row of each finding that it takes.
#[derive(Drop)]
struct FindingRows<'t, T> {
    taker: &'t mut T,
}

impl<T: Takes<FindingRow>> Takes<PlacedFinding> for FindingRows<'_, T> {
    ghost takes = { λ a found b. (b.taker.ghost_name ≡ a.taker.ghost_name)
        × T.takes a.taker.now (map finding_row found) b.taker.now };

    ghost none = { λ s. (refl, T.none s.taker.now) };

    ghost more = { λ a b c xs ys first next. (
      next.0 ∙ first.0,
      mapped_more finding_row T.takes T.more a.taker.now b.taker.now c.taker.now xs ys
          first.1 next.1,
    ) };

    fn take(&mut self, item: PlacedFinding) {
        self.taker.take(finding_row(&item));
    }
}

/// What callers see of a finding.
fn finding_row(found: &PlacedFinding) -> FindingRow
    ensures { result ≡ finding_row found.now }
{
    let finding = &found.value;
    FindingRow {
        place: found.place,
        unit: finding.unit,
        hunk: finding.hunk,
        offset: finding.offset,
        fault: kind_number(finding.fault),
        reserved: 0,
    }
}

/// The number of a finding in `bindings/c/hunk.h`.
fn kind_number(kind: FindingKind) -> u32
    ensures { result ≡ kind_number kind }
{
    match kind {
        FindingKind::BadTarget => 1,
        FindingKind::OutsideHunk => 2,
    }
}
