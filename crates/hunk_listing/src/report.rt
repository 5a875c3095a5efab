//! The report on a whole file.
ghost use Rattle.std.specs.Prelude.{◌≡◌, ◌≤◌, ◌^◌, ◌++◌, codes, length};
ghost use Rattle.std.proofs.Common.{◌∙◌, refl};
ghost use Rattle.hunk_words.specs.Prints.{Prints};
ghost use Rattle.hunk_files.specs.Findings.{findings};
ghost use Rattle.hunk_listing.specs.FileLines.{load_line, where_rest};
ghost use Rattle.hunk_listing.specs.Printed.{hexadecimal};
ghost use Rattle.hunk_listing.specs.ReportLines.{finding_front, finding_line, finding_name, load_summary};
ghost use Rattle.hunk_listing.specs.ReportLines.{object_report, totals_line};
ghost use Rattle.hunk_listing.specs.Reporting.{Reports, reports_none, reports_more};

use crate::line::{Line, print_numbers};
use crate::load::{print_load_line, print_rest};
use hunk_files::{Finding, FindingKind, LoadView, ObjectView, Takes};
use hunk_words::{PagePrinter, Printer, Sink};
use std::marker::Model;

/// Reports a load file that `rest` bytes follow: nothing is found in one that was accepted.
pub fn print_load_summary<W: Sink>(page: &mut Printer<'_, W>, file: &LoadView<'_>, rest: u64)
    ensures { Prints page.old page.new (load_summary file.now rest) }
{
    print_load_totals(page, file.hunks(), file.total(), rest);
}

/// Reports a load file of so many hunks, which declare so many bytes, and that `rest` bytes follow.
pub fn print_load_totals<W: Sink, const ROOM: usize>(
    page: &mut PagePrinter<'_, W, ROOM>,
    hunks: u32,
    bytes: u64,
    rest: u64,
)
    ensures { Prints page.old page.new (load_line hunks bytes ++ where_rest rest) }
{
    print_load_line(page, hunks, bytes);
    if rest > 0 {
        print_rest(page, rest);
    }
}

/// Reports what is found in an object file, each finding as soon as it is found, and answers how
/// many there are. It takes no memory.
pub fn print_object_report<W: Sink>(page: &mut Printer<'_, W>, file: &ObjectView<'_>) -> u64
    ensures prints { Prints page.old page.new (object_report file.now) }
    ensures count { result ≡ length (findings file.now) }
{
    let mut lines = FindingLines {
        page,
        line: FindingLine::of(0, 0),
        count: 0,
    };
    let units = file.check_with(&mut lines);
    let FindingLines {
        page,
        line: _line,
        count,
    } = lines;
    print_totals(page, units, count);
    count
}

/// Prints a line for each finding, and counts them modulo 2 ^ 64.
struct FindingLines<'p, 'a, W: Sink> {
    page: &'p mut Printer<'a, W>,
    line: FindingLine,
    count: u64,
}

impl<W: Sink> Takes<Finding> for FindingLines<'_, '_, W> {
    ghost takes = { λ a xs b. (b.page.ghost_name ≡ a.page.ghost_name)
        × Reports a.page.now b.page.now a.count b.count xs };

    ghost none = { λ s. (refl, reports_none s.page.now s.count) };

    ghost more = { λ a b c xs ys first next. (
      next.0 ∙ first.0,
      reports_more a.page.now b.page.now c.page.now a.count b.count c.count xs ys first.1 next.1,
    ) };

    #[inline(always)]
    fn take(&mut self, item: Finding) {
        self.line.print(self.page, item);
        self.count = self.count.wrapping_add(1);
    }
}

/// The line of a finding. Its front, up to the offset, serves for all findings of a hunk. Contracts
/// see the front.
#[derive(Drop)]
struct FindingLine {
    unit: u64,
    hunk: u64,
    /// How many bytes the front has.
    start: usize,
    line: Line,
}

impl Model for FindingLine {
    ghost use Rattle.std.specs.Prelude.{ℕ, List, ◌≡◌, ◌≤◌, ◌+◌, length, take};
    ghost use Rattle.hunk_listing.specs.ReportLines.{finding_front};
    ghost use Rattle.hunk_words.specs.declared.printer.TheConstants.{LINE};

    ghost Value = { List ℕ };

    ghost view = { λ s. finding_front s.unit s.hunk };

    ghost invariant = { λ s. (s.start ≤ length s.line) × (s.start + 23 ≤ LINE)
        × (take s.start s.line ≡ finding_front s.unit s.hunk) };
}

impl FindingLine {
    /// The line of what is found in this hunk of this unit.
    #[tactic(auto, unfolding(crate::specs::ReportLines::finding_front))]
    #[inline(never)]
    fn of(unit: u64, hunk: u64) -> FindingLine
        ensures { result ≡ finding_front unit hunk }
    {
        let mut line = Line::new();
        line.put(b"unit ");
        line.put_decimal(unit);
        line.put(b" hunk ");
        line.put_decimal(hunk);
        line.put(b" offset ");
        let start = line.len();
        FindingLine {
            unit,
            hunk,
            start,
            line,
        }
    }

    /// Makes the front anew where what is found is in another hunk.
    fn turn_to(&mut self, unit: u64, hunk: u64)
        ensures { self.new ≡ finding_front unit hunk }
    {
        if self.unit != unit || self.hunk != hunk {
            *self = FindingLine::of(unit, hunk);
        }
    }

    /// Prints the front, which stays, and the rest of the line after it.
    fn print_rest<W: Sink>(&mut self, page: &mut Printer<'_, W>, fault: FindingKind, offset: u32)
        ensures prints { Prints page.old page.new
            (self.old ++ hexadecimal offset ++ codes " " ++ finding_name fault ++ codes "\n") }
        ensures kept { self.new ≡ self.old }
    {
        self.line.truncate(self.start);
        self.line.put_hexadecimal(offset);
        self.line.put(finding_end(fault).as_bytes());
        self.line.print(page);
    }

    #[tactic(auto, unfolding(crate::specs::ReportLines::finding_line))]
    fn print<W: Sink>(&mut self, page: &mut Printer<'_, W>, finding: Finding)
        ensures { Prints page.old page.new (finding_line finding) }
    {
        self.turn_to(finding.unit, finding.hunk);
        self.print_rest(page, finding.fault, finding.offset);
    }
}

/// What is wrong, at the end of a line.
fn finding_end(fault: FindingKind) -> &'static str
    ensures text { result.now ≡ codes " " ++ finding_name fault ++ codes "\n" }
    ensures bound { length result.now ≤ 13 }
{
    match fault {
        FindingKind::BadTarget => " BadTarget\n",
        FindingKind::OutsideHunk => " OutsideHunk\n",
    }
}

#[tactic(auto, unfolding(crate::specs::ReportLines::totals_line))]
fn print_totals<W: Sink>(page: &mut Printer<'_, W>, units: u64, count: u64)
    ensures { Prints page.old page.new (totals_line units count) }
{
    print_numbers(
        page,
        b"object file ",
        units,
        b" units ",
        count,
        b" findings\n",
    );
}
