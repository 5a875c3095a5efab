//! What is wrong with the offsets of an object file, found by one walk.
ghost use Rattle.std.specs.Prelude.{◌≡◌, ◌+◌, ◌*◌, ◌^◌, ◌<◌, ◌≤◌, length, map};
ghost use Rattle.std.proofs.Common.{◌∙◌, refl};
ghost use Rattle.std.specs.List.{AllByRecursion};
ghost use Rattle.hunk_blocks.specs.Values.{IsExtEntry};
ghost use Rattle.hunk_blocks.specs.Views.{entry_of, group_of};
ghost use Rattle.hunk_files.specs.Collecting.{mapped_more};
ghost use Rattle.hunk_files.specs.Findings.{finding, findings, hunk_bytes, outside, reference_width};
ghost use Rattle.hunk_files.specs.Findings.{relocation_findings, relocation_width};
ghost use Rattle.hunk_files.specs.ObjectFile.{IsObjectHunk};
ghost use Rattle.hunk_files.specs.PlacedFindings.{block_findings_at, entries_findings_at, entry_findings_at};
ghost use Rattle.hunk_files.specs.PlacedFindings.{group_findings_at, groups_findings_at, placed_findings, standing_at};

use crate::blocks::BlockViews;
use crate::items::Item;
use crate::object::view::ObjectView;
use crate::takes::Takes;
use hunk_blocks::{BlockView, BodyView, EntriesIter, Entry, Group, GroupsIter};
use hunk_words::Kind;

/// What is wrong with an offset of an object file.
#[derive(Clone, Copy, Debug, PartialEq, Eq)]
pub enum FindingKind {
    /// The target of the relocation is not a hunk of the unit.
    BadTarget,
    /// The bytes that are relocated or refer go past the end of the hunk.
    OutsideHunk,
}

/// What is wrong with an offset, and where it stands.
#[derive(Clone, Copy, Debug, PartialEq, Eq)]
pub struct Finding {
    /// The unit, counted from 0.
    pub unit: u64,
    /// The hunk, counted from 0 in its unit.
    pub hunk: u64,
    /// What is wrong.
    pub fault: FindingKind,
    /// The offset, in bytes from the start of the hunk.
    pub offset: u32,
}

/// A finding, and where its offset stands in the file.
#[derive(Clone, Copy, Debug, PartialEq, Eq)]
pub struct PlacedFinding {
    /// The byte of the file at which the offset stands.
    pub place: u64,
    /// The finding.
    pub value: Finding,
}

/// Hands over the findings that it takes, without their places.
#[derive(Drop)]
struct WithoutPlaces<'t, T> {
    taker: &'t mut T,
}

impl<T: Takes<Finding>> Takes<PlacedFinding> for WithoutPlaces<'_, T> {
    ghost takes = { λ a placed b. (b.taker.ghost_name ≡ a.taker.ghost_name)
        × T.takes a.taker.now (map (λ f. f.value) placed) b.taker.now };

    ghost none = { λ s. (refl, T.none s.taker.now) };

    ghost more = { λ a b c xs ys first next. (
      next.0 ∙ first.0,
      mapped_more (λ f. f.value) T.takes T.more a.taker.now b.taker.now c.taker.now xs ys
          first.1 next.1,
    ) };

    #[inline(always)]
    fn take(&mut self, item: PlacedFinding) {
        self.taker.take(item.value);
    }
}

/// Where offsets stand: the unit and the hunk, how many hunks the unit has, and how many bytes the
/// hunk has.
#[derive(Clone, Copy)]
pub(crate) struct HunkContext {
    unit: u64,
    hunk: u64,
    hunks: u64,
    bytes: u64,
}

impl HunkContext {
    fn finding(self, fault: FindingKind, offset: u32) -> Finding
        ensures { result ≡ finding self fault offset }
    {
        Finding {
            unit: self.unit,
            hunk: self.hunk,
            fault,
            offset,
        }
    }
}

/// How many bytes an offset of this kind of relocation stands for: this project's own choice.
pub fn relocation_width(kind: Kind) -> u64
    ensures value { result ≡ relocation_width kind }
    ensures bound { result ≤ 4 }
{
    match kind {
        Kind::Reloc16 | Kind::Drel16 | Kind::AbsReloc16 => 2,
        Kind::Reloc8 | Kind::Drel8 => 1,
        _ => 4,
    }
}

/// How many bytes an offset of this entry stands for; 0 for a definition, which has no offsets.
pub fn reference_width(entry: &Entry<'_>) -> u64
    ensures value { result ≡ reference_width (entry_of entry.now) }
    ensures bound { result ≤ 4 }
{
    let Some(kind) = entry.kind() else {
        return 0;
    };
    kind.width().unwrap_or(0)
}

/// How many bytes the hunk has: those of its content block, before which few blocks stand.
pub(super) fn hunk_bytes(blocks: BlockViews<'_>) -> u64
    requires { IsObjectHunk blocks.value }
    ensures { result ≡ hunk_bytes blocks.entry.value }
{
    'finding: for block in blocks {
        if let Some(bytes) = block.body().content_bytes() {
            return bytes;
        }
    }
    0
}

/// Hands over what is wrong with an offset of this width that stands at this byte.
fn check_offset<T: Takes<PlacedFinding>>(
    taker: &mut T,
    spot: HunkContext,
    width: u64,
    place: u64,
    offset: u32,
)
    requires { width ≤ 4 }
    ensures { T.takes taker.old (standing_at place (outside spot width offset)) taker.new }
{
    if u64::from(offset) + width > spot.bytes {
        let value = spot.finding(FindingKind::OutsideHunk, offset);
        taker.take(PlacedFinding { place, value });
    }
}

/// Hands over what is wrong with an offset of this width that is relocated to this target.
fn check_relocation<T: Takes<PlacedFinding>>(
    taker: &mut T,
    spot: HunkContext,
    width: u64,
    target: u32,
    place: u64,
    offset: u32,
)
    requires { width ≤ 4 }
    ensures { T.takes taker.old
        (standing_at place (relocation_findings spot width target offset)) taker.new }
{
    if u64::from(target) >= spot.hunks {
        let value = spot.finding(FindingKind::BadTarget, offset);
        taker.take(PlacedFinding { place, value });
    }
    check_offset(taker, spot, width, place, offset);
}

/// Hands over what is wrong with the offsets of a group that begins at this byte.
fn check_group<T: Takes<PlacedFinding>>(
    taker: &mut T,
    spot: HunkContext,
    width: u64,
    start: u64,
    group: &Group<'_>,
)
    requires width { width ≤ 4 }
    requires inside { start + 8 + 4 * length group.now.offsets < 2 ^ 64 }
    ensures { T.takes taker.old
        (group_findings_at spot width start (group_of group.now)) taker.new }
{
    let mut place = start + 8;
    'checking: for offset in &group.offsets {
        check_relocation(taker, spot, width, group.target, place, offset);
        place += 4;
    }
}

fn check_groups<T: Takes<PlacedFinding>>(
    taker: &mut T,
    spot: HunkContext,
    width: u64,
    mut groups: GroupsIter<'_>,
)
    requires { width ≤ 4 }
    ensures { T.takes taker.old
        (groups_findings_at spot width groups.entry.place groups.entry.value) taker.new }
{
    let mut place = groups.place();
    'checking: while let Some(group) = groups.next() {
        let after = groups.place();
        check_group(taker, spot, width, place, &group);
        place = after;
    }
}

/// Hands over what is wrong with the offsets of an entry that ends at this byte.
fn check_entry<T: Takes<PlacedFinding>>(
    taker: &mut T,
    spot: HunkContext,
    end: u64,
    entry: &Entry<'_>,
)
    requires { 4 * length entry.now.offsets ≤ end }
    ensures { T.takes taker.old (entry_findings_at spot end (entry_of entry.now)) taker.new }
{
    let width = reference_width(entry);
    let mut place = end - 4 * entry.offsets.len() as u64;
    'checking: for offset in &entry.offsets {
        check_offset(taker, spot, width, place, offset);
        place += 4;
    }
}

fn check_entries<T: Takes<PlacedFinding>>(
    taker: &mut T,
    spot: HunkContext,
    mut entries: EntriesIter<'_>,
)
    requires { AllByRecursion IsExtEntry entries.value }
    ensures { T.takes taker.old
        (entries_findings_at spot entries.entry.place entries.entry.value) taker.new }
{
    'checking: while let Some(entry) = entries.next() {
        check_entry(taker, spot, entries.place(), &entry);
    }
}

fn check_block<T: Takes<PlacedFinding>>(taker: &mut T, spot: HunkContext, block: BlockView<'_>)
    ensures { T.takes taker.old
        (block_findings_at spot block.entry.place block.entry.value) taker.new }
{
    let word = block.word();
    match block.into_body() {
        BodyView::Reloc(groups) => {
            check_groups(taker, spot, relocation_width(word.kind()), groups);
        }
        BodyView::Ext(entries) => check_entries(taker, spot, entries),
        _ => {}
    }
}

impl ObjectView<'_> {
    /// Hands over what is wrong with the offsets of all relocations and external references, in
    /// file order, each finding as soon as it is found. It takes no memory.
    ///
    /// For each offset there is `BadTarget` where it is a relocation's and the target is not below
    /// the unit's number of hunks, then `OutsideHunk` where the bytes that are relocated or refer
    /// go past the end of the hunk. Answers how many units there are.
    #[tactic(auto, using(crate::proofs::findings::PlacedFindingLaws::findings_placed))]
    pub fn check_with<T: Takes<Finding>>(&self, taker: &mut T) -> u64
        ensures taken { T.takes taker.old (findings self.now) taker.new }
        ensures few { length (findings self.now) < 2 ^ 64 }
        ensures units { result ≡ length self.now }
    {
        let mut findings = WithoutPlaces { taker };
        self.check_in_place(&mut findings)
    }

    /// Hands over the same findings, each with the byte of the file at which its offset stands.
    pub fn check_in_place<T: Takes<PlacedFinding>>(&self, taker: &mut T) -> u64
        ensures taken { T.takes taker.old (placed_findings self.now) taker.new }
        ensures few { length (placed_findings self.now) < 2 ^ 64 }
        ensures units { result ≡ length self.now }
    {
        let mut units = 0;
        let mut spot = HunkContext {
            unit: 0,
            hunk: 0,
            hunks: 0,
            bytes: 0,
        };
        // The unit that is open, until its hunks are counted: only a relocation needs their number.
        let mut uncounted = None;
        'checking: for item in self.items() {
            match item {
                Item::Unit { number, view } => {
                    units += 1;
                    spot = HunkContext {
                        unit: number,
                        hunk: 0,
                        hunks: 0,
                        bytes: 0,
                    };
                    uncounted = Some(view);
                }
                Item::Hunk { unit, number, view } => {
                    spot = HunkContext {
                        unit,
                        hunk: number,
                        hunks: spot.hunks,
                        bytes: view.content_bytes(),
                    };
                }
                Item::Block { view, .. } => {
                    if let BodyView::Reloc(_) = view.body()
                        && let Some(unit) = uncounted.take()
                    {
                        spot.hunks = unit.hunks();
                    }
                    check_block(taker, spot, view);
                }
            }
        }
        units
    }
}
