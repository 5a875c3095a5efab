//! What the warnings of a hunk depend on, collected from its blocks.
ghost use Rattle.std.specs.Prelude.{◌≡◌, ◌+◌, ◌*◌, ◌≤◌, ◌++◌, ◌||◌, false, length, map, nat_lt, take};
ghost use Rattle.std.specs.List.{count_by};
ghost use Rattle.hunk_grammar.specs.Standings.{is_ending};
ghost use Rattle.hunk_blocks.specs.BodyViews.{viewed};
ghost use Rattle.hunk_files.specs.Hunks.{block_texts};
ghost use Rattle.hunk_files.specs.Image.{block_relocations, offsets};
ghost use Rattle.hunk_files.specs.LoadFile.{AreInOrder, standing};
ghost use Rattle.hunk_lint.specs.Collecting.{blocks_content, blocks_offsets, content_after};
ghost use Rattle.hunk_lint.specs.Collecting.{groups_offsets};
ghost use Rattle.hunk_lint.specs.Facts.{is_bss};
ghost use Rattle.hunk_lint.specs.NextHunk.{after_blocks, first_blocks};

use crate::next_hunk::next_block;
use hunk_blocks::{BodyView, GroupsIter, Longs};
use hunk_files::Items;

/// What the blocks of a hunk have.
#[derive(Clone, Copy)]
pub(crate) struct Collected<'a> {
    /// The bytes of the content block.
    pub(crate) content: &'a [u8],
    /// Whether the content block is BSS.
    pub(crate) is_bss: bool,
    /// How many offsets stand in the room.
    pub(crate) count: usize,
}

/// Puts the offsets of all relocations of the open hunk to the front of the room, in file order. It
/// goes over the blocks of the hunk.
pub(crate) fn collect<'a>(room: &mut [u32], items: &mut Items<'a>) -> Collected<'a>
    requires order { AreInOrder false
        (map (λ b. standing b.body) (first_blocks items.old.value)) }
    requires room { length (blocks_offsets (first_blocks items.old.value)) ≤ length room.old }
    ensures content { result.content.now ≡ blocks_content (first_blocks items.old.value) }
    ensures bss { result.is_bss
        ≡ nat_lt 0 (count_by (λ b. is_bss b.body) (first_blocks items.old.value)) }
    ensures inside { result.count ≤ length room.new }
    ensures offsets { take result.count room.new
        ≡ blocks_offsets (first_blocks items.old.value) }
    ensures after { items.new.value ≡ after_blocks items.old.value }
    ensures place { items.new.place
        ≡ items.old.place + 4 * length (block_texts (first_blocks items.old.value)) }
{
    let mut collected = Collected {
        content: &[],
        is_bss: false,
        count: 0,
    };
    'collecting: loop {
        let body = next_block(items).into_body();
        if is_end(&body) {
            return collected;
        }
        collect_block(room, &mut collected, body);
    }
}

/// Whether this is END, after which no block of the hunk comes.
#[inline(always)]
fn is_end(body: &BodyView<'_>) -> bool
    ensures { result ≡ is_ending (standing (viewed body.now)) }
{
    matches!(body, BodyView::End)
}

/// Adds what one more block has.
///
/// The fields are written one by one: a struct that is copied whole is copied with the room between
/// them, which takes longer than all else here.
fn collect_block<'a>(room: &mut [u32], collected: &mut Collected<'a>, body: BodyView<'a>)
    requires { collected.old.count + length (offsets (block_relocations (viewed body)))
        ≤ length room.old }
    ensures content { collected.new.content.now
        ≡ content_after collected.old.content.now (viewed body.entry) }
    ensures bss { collected.new.is_bss ≡ (collected.old.is_bss || is_bss (viewed body.entry)) }
    ensures count { collected.new.count
        ≡ collected.old.count + length (offsets (block_relocations (viewed body.entry))) }
    ensures offsets { take collected.new.count room.new
        ≡ take collected.old.count room.old ++ offsets (block_relocations (viewed body.entry)) }
{
    match body {
        BodyView::Code { top: _, payload } => collected.content = payload.bytes(),
        BodyView::Data { top: _, payload } => collected.content = payload.bytes(),
        BodyView::Bss { size: _ } => collected.is_bss = true,
        BodyView::Reloc(groups) => collected.count = put_groups(room, collected.count, groups),
        _ => {}
    }
}

/// Puts the offsets of the groups into the room, from this place on, and gives the place after.
fn put_groups(room: &mut [u32], start: usize, groups: GroupsIter<'_>) -> usize
    requires { start + length (groups_offsets groups.value) ≤ length room.old }
    ensures end { result ≡ start + length (groups_offsets groups.entry.value) }
    ensures put { take result room.new
        ≡ take start room.old ++ groups_offsets groups.entry.value }
{
    let mut at = start;
    'putting: for group in groups {
        at = put_longs(room, at, &group.offsets);
    }
    at
}

/// Puts the longwords into the room, from this place on, and gives the place after.
fn put_longs(room: &mut [u32], start: usize, longs: &Longs<'_>) -> usize
    requires { start + length longs.now ≤ length room.old }
    ensures end { result ≡ start + length longs.now }
    ensures put { take result room.new ≡ take start room.old ++ longs.now }
{
    let mut at = start;
    'putting: for long in longs {
        room[at] = long;
        at += 1;
    }
    at
}
