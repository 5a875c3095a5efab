//! The relocations of a file.
ghost use Rattle.std.specs.Prelude.{◌≡◌, ◌+◌, ◌*◌, ◌<◌, ◌^◌, length};
ghost use Rattle.hunk_c.specs.Relocations.{block_rows, group_rows, offset_rows, relocated, relocation_row};
ghost use Rattle.hunk_c.specs.Relocations.{relocations_in};
ghost use Rattle.hunk_c.specs.Rows.{ListsWhatFits, Tabulates};

use crate::answer::Answer;
use crate::rows::{CountedRow, InBlock, count_rows, tabulate};
use hunk_blocks::{BlockView, BodyView, GroupsIter, Longs};
use hunk_files::{FileView, Takes, relocation_width};
use hunk_words::BlockWord;

/// An offset that is relocated, `struct hunk_relocation`: 48 bytes, with no padding.
#[repr(C)]
#[derive(Clone, Copy)]
pub struct RelocationRow {
    pub place: u64,
    pub unit: u64,
    pub hunk: u64,
    pub kind: u32,
    pub width: u32,
    pub target: u32,
    pub offset: u32,
    pub reserved: u64,
}

/// Lists the offsets of the relocation blocks of a file.
#[unsafe(no_mangle)]
pub extern "C" fn hunk_relocations(bytes: &[u8], rows: &mut [RelocationRow]) -> Answer
    ensures outcome { Tabulates relocations_in bytes.now rows.old rows.new result }
    ensures succeeds { ListsWhatFits relocations_in (length rows.old) bytes.now result }
{
    tabulate(bytes, rows)
}

impl InBlock for RelocationRow {
    ghost in_block = { block_rows };

    fn list<T: Takes<RelocationRow>>(unit: u64, hunk: u64, block: BlockView<'_>, taker: &mut T) {
        let relocated = Relocated::by(unit, hunk, block.word());
        if let BodyView::Reloc(groups) = block.into_body() {
            list_groups(taker, relocated, groups);
        }
    }
}

impl CountedRow for RelocationRow {
    fn count(file: &FileView<'_>) -> u64 {
        count_rows::<RelocationRow>(file)
    }

    #[tactic(auto, using(crate::proofs::FewRows::few_relocations))]
    fn most_rows(size: u64) -> u64 {
        size / 4
    }
}

/// Where offsets are relocated, and how.
#[derive(Clone, Copy)]
struct Relocated {
    unit: u64,
    hunk: u64,
    kind: u32,
    width: u32,
}

impl Relocated {
    /// In this hunk, by a block of this word.
    fn by(unit: u64, hunk: u64, word: BlockWord) -> Relocated
        ensures { result ≡ relocated unit hunk word }
    {
        Relocated {
            unit,
            hunk,
            kind: word.word() % (1 << 29),
            width: relocation_width(word.kind()) as u32,
        }
    }
}

/// Hands over the row of each offset of a block.
fn list_groups<T: Takes<RelocationRow>>(
    taker: &mut T,
    relocated: Relocated,
    mut groups: GroupsIter<'_>,
)
    ensures { T.takes taker.old
        (group_rows relocated groups.entry.place groups.entry.value) taker.new }
{
    let mut place = groups.place();
    'listing: while let Some(group) = groups.next() {
        let after = groups.place();
        list_offsets(taker, relocated, group.target, place + 8, &group.offsets);
        place = after;
    }
}

/// Hands over the row of each offset of a group, from this byte of the file on.
fn list_offsets<T: Takes<RelocationRow>>(
    taker: &mut T,
    relocated: Relocated,
    target: u32,
    start: u64,
    offsets: &Longs<'_>,
)
    requires { start + 4 * length offsets.now < 2 ^ 64 }
    ensures { T.takes taker.old (offset_rows relocated target start offsets.now) taker.new }
{
    let mut place = start;
    'listing: for offset in offsets.iter() {
        taker.take(relocation_row(relocated, target, place, offset));
        place += 4;
    }
}

/// What the caller sees of an offset that stands at this byte.
fn relocation_row(relocated: Relocated, target: u32, place: u64, offset: u32) -> RelocationRow
    ensures { result ≡ relocation_row relocated target place offset }
{
    RelocationRow {
        place,
        unit: relocated.unit,
        hunk: relocated.hunk,
        kind: relocated.kind,
        width: relocated.width,
        target,
        offset,
        reserved: 0,
    }
}
