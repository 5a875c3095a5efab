//! The groups of a relocation block.
ghost use Rattle.std.specs.Prelude.{◌≡◌, IfErr, IfOk, map};
ghost use Rattle.std.specs.Iterator.{item_count};
ghost use Rattle.std.specs.List.{AllByRecursion};
ghost use Rattle.hunk_words.specs.declared.reason.Reason.TheVariants as reasons;
ghost use Rattle.hunk_words.specs.Carriers.{saturated};
ghost use Rattle.hunk_words.specs.Longs.{bytes_of};
ghost use Rattle.hunk_words.specs.Prints.{Prints};
ghost use Rattle.hunk_blocks.specs.Cuts.{group_cut, list_cut};
ghost use Rattle.hunk_blocks.specs.Parts.{group_text, list_text};
ghost use Rattle.hunk_blocks.specs.Placed.{EndsItemAt, GivesFirst};
ghost use Rattle.hunk_blocks.specs.Reading.{BeginsWithList, BeginsWithSome, ReadsValue};
ghost use Rattle.hunk_blocks.specs.Values.{IsGroup, offset_count};
ghost use Rattle.hunk_blocks.specs.Views.{group_of};

use crate::growing::append;
use crate::list::{BlockList, out_of_memory};
use crate::long_reader::LongReader;
use crate::longs::Longs;
use crate::payload::print_payload;
use hunk_words::{BlockFault, PagePrinter, Sink};
use std::alloc::Global;
use std::marker::Model;

/// Relocations to one target. In a load file the longs at these offsets are increased by its base.
///
/// Source: The AmigaDOS Manual, `dos/doshunks.h`.
#[derive(Debug, Drop)]
pub struct Group<'a> {
    /// The number of a hunk, counted from 0: of the file in a load file, of the unit in an object
    /// file.
    pub target: u32,
    /// The places in bytes from the start of the hunk, in file order. There is at least one.
    pub offsets: Longs<'a>,
}

/// The groups of a relocation block, in file order.
pub type Groups<'a> = BlockList<Group<'a>>;

/// The groups of a relocation block that are still to come, each read where it lies. It takes no
/// memory. Contracts see the list of them, and the byte of the input at which the next begins.
#[derive(Drop)]
pub struct GroupsIter<'a> {
    reader: LongReader<'a>,
}

impl<'a> Model for GroupsIter<'a> {
    ghost use Rattle.std.specs.Prelude.{List};
    ghost use Rattle.hunk_blocks.specs.Cuts.{group_cut, list_cut};
    ghost use Rattle.hunk_blocks.specs.Parts.{group_text};
    ghost use Rattle.hunk_blocks.specs.Placed.{Placed};
    ghost use Rattle.hunk_blocks.specs.Reading.{BeginsWithList};
    ghost use Rattle.hunk_blocks.specs.Values.{IsGroup, RelocGroup};

    ghost Value = { Placed (List RelocGroup) };

    ghost view = { λ s. record {
      place = s.reader.place;
      value = (list_cut group_cut s.reader.rest).value;
    } };

    ghost invariant = { λ s. BeginsWithList IsGroup group_text s.reader.rest };
}

impl<'a> GroupsIter<'a> {
    /// The groups that come next; the reader goes on after the count 0 that ends them.
    #[tactic(auto, using(crate::proofs::CutLaws::groups_are_cut, crate::proofs::ListReading::item_there))]
    pub(crate) fn of(reader: &mut LongReader<'a>) -> GroupsIter<'a>
        requires { BeginsWithList IsGroup group_text reader.old.rest }
        ensures read { ReadsValue (list_cut group_cut) reader.old reader.new result.value }
        ensures place { result.place ≡ reader.old.place }
    {
        let groups = GroupsIter {
            reader: reader.again(),
        };
        'passing: while reader.peek() != 0 {
            let _ = read_group(reader);
        }
        let _ = reader.long();
        groups
    }

    /// The byte of the input at which the next group begins, or the count 0 that ends the block.
    #[inline(always)]
    pub fn place(&self) -> u64
        ensures { result ≡ self.now.place }
    {
        self.reader.at as u64
    }

    /// How many offsets the groups have together, at most 2^64 - 1.
    pub fn offset_count(&self) -> u64
        ensures { result ≡ saturated (offset_count self.now.value) }
    {
        let mut count = 0u64;
        'groups: for group in self.again() {
            count = count.saturating_add(group.offsets.payload.byte_count() / 4);
        }
        count
    }

    /// The same groups again.
    #[inline(always)]
    pub fn again(&self) -> GroupsIter<'a>
        ensures { result ≡ self.now }
    {
        GroupsIter {
            reader: self.reader.again(),
        }
    }
}

impl<'a> Iterator for GroupsIter<'a> {
    type Item = Group<'a>;

    ghost next_gives = { GivesFirst group_of group_text };

    ghost remaining = { item_count (λ s. s.value) };

    #[tactic(auto, using(crate::proofs::CutLaws::groups_are_cut, crate::proofs::ListReading::item_there))]
    #[inline(always)]
    fn next(&mut self) -> Option<Group<'a>> {
        if self.reader.peek() == 0 {
            return None;
        }
        Some(read_group(&mut self.reader))
    }
}

/// The next group (The AmigaDOS Manual, `dos/doshunks.h`).
///
/// The count has all 32 bits: this project's own choice.
#[inline(always)]
fn read_group<'a>(reader: &mut LongReader<'a>) -> Group<'a>
    requires { BeginsWithSome IsGroup group_text reader.old.rest }
    ensures { ReadsValue group_cut reader.old reader.new (group_of result) }
{
    let count = reader.long();
    let target = reader.long();
    let payload = reader.payload(count);
    let offsets = Longs { payload };
    Group { target, offsets }
}

/// The groups in a list.
///
/// # Errors
///
/// `OutOfMemory` at the last longword of the group for which no memory was found.
pub(crate) fn keep_groups<'a>(
    alloc: Global,
    mut groups: GroupsIter<'a>,
) -> Result<Groups<'a>, BlockFault>
    ensures kept { IfOk result (λ kept. map group_of kept ≡ groups.entry.value) }
    ensures memory { IfErr result (λ fault. fault.reason ≡ reasons.OutOfMemory) }
    ensures place { IfErr result (λ fault. EndsItemAt group_text groups.entry fault.place) }
{
    let mut kept = Vec::new(alloc);
    'keeping: while let Some(group) = groups.next() {
        if append(&mut kept, group).is_err() {
            return Err(out_of_memory(groups.place()));
        }
    }
    Ok(Groups::of(kept))
}

/// The number of the offsets, the target and the offsets.
#[tactic(auto, using(crate::proofs::TextBytes::group_printed))]
fn print_group<W: Sink, const ROOM: usize>(page: &mut PagePrinter<'_, W, ROOM>, group: &Group<'_>)
    requires { IsGroup (group_of group.now) }
    ensures { Prints page.old page.new (bytes_of (group_text (group_of group.now))) }
{
    page.print_long(group.offsets.len() as u32);
    page.print_long(group.target);
    print_payload(page, group.offsets.payload());
}

/// The groups of a relocation block, and the zero that ends them.
pub(crate) fn print_groups<W: Sink, const ROOM: usize>(
    page: &mut PagePrinter<'_, W, ROOM>,
    groups: &[Group<'_>],
)
    requires { AllByRecursion IsGroup (map group_of groups.now) }
    ensures { Prints page.old page.new
        (bytes_of (list_text group_text (map group_of groups.now))) }
{
    'groups: for group in groups {
        print_group(page, group);
    }
    page.print_long(0);
}
