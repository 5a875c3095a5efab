//! The memory of a load file's hunks, written where it is to be, with no memory taken.
ghost use Rattle.std.specs.Prelude.{◌≡◌, ◌+◌, ◌*◌, ◌/◌, ◌≤◌, length};
ghost use Rattle.std.specs.List.{AllByRecursion, flat_map, fold};
ghost use Rattle.hunk_words.specs.Longs.{bytes_of, longs};
ghost use Rattle.hunk_blocks.specs.BodyViews.{viewed};
ghost use Rattle.hunk_files.specs.Filling.{Fits, filled_by, memory_of};
ghost use Rattle.hunk_files.specs.Hunks.{block_texts};
ghost use Rattle.hunk_files.specs.Image.{add_at, declared_bytes, filled, group_relocations, images, relocated};
ghost use Rattle.hunk_files.specs.LoadFile.{FitsGroup, FitsHunk, IsInside};
ghost use Rattle.hunk_files.specs.LoadHunks.{FillsFirst, FitsFirst};
ghost use Rattle.hunk_files.specs.LoadText.{table};

use crate::bases::Bases;
use crate::blocks::BlockViews;
use crate::load::hunk_views::LoadHunkViews;
use crate::load::view::LoadView;
use hunk_blocks::{BodyView, Group, GroupsIter, Payload};

impl LoadView<'_> {
    /// Writes the memory of all hunks, one right after the other, as each lies at its base. It
    /// takes no memory.
    ///
    /// `memory` has the declared bytes, `total()`, and `bases` a base for each hunk. A hunk's
    /// memory is that of `LoadFile::image`: contents, zero bytes, and the bases of the targets
    /// added in file order. What stood in `memory` does not matter.
    pub fn fill_images<B: Bases>(&self, memory: &mut [u8], bases: &mut B)
        requires room { length memory.old ≡ declared_bytes (table self.now) }
        requires bases { length (B.bases bases.old) ≡ length self.now }
        ensures memory { memory.new ≡ images (B.bases bases.old) self.now }
        ensures stays { B.bases bases.new ≡ B.bases bases.old }
    {
        let bytes = self.bytes;
        let mut at = self.body();
        let mut start = 0;
        'filling: for size in self.table() {
            let end = start + size.bytes() as usize;
            let mut blocks = BlockViews::at(bytes, at);
            fill_hunk(&mut memory[start..end], &mut blocks, bases);
            at = blocks.place() as usize;
            start = end;
        }
    }
}

impl LoadHunkViews<'_> {
    /// Writes the memory of the next hunk alone, as it lies at its base, wherever `memory` is, and
    /// goes on to the hunk after it. It takes no memory.
    ///
    /// A hunk is still to come. `memory` has its declared bytes, and `bases` a base for each hunk
    /// of the file. All else is as `fill_images` does it.
    pub fn fill_next<B: Bases>(&mut self, memory: &mut [u8], bases: &mut B)
        requires { FitsFirst (length (B.bases bases.old)) (length memory.old) self.old.value }
        ensures fills { FillsFirst (B.bases bases.old) self.old.value memory.new self.new.value }
        ensures stays { B.bases bases.new ≡ B.bases bases.old }
    {
        let Some(_size) = self.table.next() else {
            return;
        };
        let mut blocks = BlockViews::at(self.bytes, self.at);
        fill_hunk(memory, &mut blocks, bases);
        self.at = blocks.place() as usize;
    }
}

/// Writes the memory of a hunk that has these blocks, with none left to come.
fn fill_hunk<B: Bases>(memory: &mut [u8], blocks: &mut BlockViews<'_>, bases: &mut B)
    requires { Fits (length (B.bases bases.old)) (length memory.old) blocks.old.value }
    ensures memory { memory.new
        ≡ memory_of (B.bases bases.old) (length memory.old) blocks.old.value }
    ensures stays { B.bases bases.new ≡ B.bases bases.old }
    ensures after { blocks.new.place
        ≡ blocks.old.place + 4 * length (block_texts blocks.old.value) }
{
    'filling: while let Some(block) = blocks.next() {
        fill_block(memory, block.into_body(), bases);
    }
}

/// Does to the memory of a hunk what a block of it says.
fn fill_block<B: Bases>(memory: &mut [u8], body: BodyView<'_>, bases: &mut B)
    requires { FitsHunk (length (B.bases bases.old)) (length memory.old / 4) (viewed body) }
    ensures memory { memory.new ≡ filled_by (B.bases bases.old) memory.old (viewed body.entry) }
    ensures stays { B.bases bases.new ≡ B.bases bases.old }
{
    match body {
        BodyView::Code { top: _, payload } => put_content(memory, &payload),
        BodyView::Data { top: _, payload } => put_content(memory, &payload),
        BodyView::Bss { size: _ } => memory.fill(0),
        BodyView::Reloc(groups) => relocate_groups(memory, groups, bases),
        _ => {}
    }
}

/// Writes the content to the front of the memory, and zero bytes after it.
fn put_content(memory: &mut [u8], payload: &Payload<'_>)
    requires { length (longs payload.now) ≤ length memory.old / 4 }
    ensures { memory.new ≡ filled (length memory.old) (bytes_of (longs payload.now)) }
{
    let content = payload.bytes();
    memory[..content.len()].copy_from_slice(content);
    memory[content.len()..].fill(0);
}

/// Adds the bases of all groups, in file order.
fn relocate_groups<B: Bases>(memory: &mut [u8], groups: GroupsIter<'_>, bases: &mut B)
    requires { AllByRecursion (FitsGroup (length (B.bases bases.old)) (length memory.old / 4))
        groups.value }
    ensures memory { memory.new ≡ relocated (B.bases bases.old) memory.old
        (flat_map group_relocations groups.entry.value) }
    ensures stays { B.bases bases.new ≡ B.bases bases.old }
{
    'relocating: for group in groups {
        let base = bases.base(group.target);
        relocate_group(memory, &group, base);
    }
}

/// Adds the base at each of the group's offsets.
fn relocate_group(memory: &mut [u8], group: &Group<'_>, base: u32)
    requires { AllByRecursion (IsInside (length memory.old / 4)) group.now.offsets }
    ensures { memory.new ≡ fold (λ bytes offset. add_at bytes offset base) memory.old
        group.now.offsets }
{
    'relocating: for offset in &group.offsets {
        add_base(memory, offset as usize, base);
    }
}

/// Increases the long at the offset, modulo 2^32.
fn add_base(memory: &mut [u8], offset: usize, base: u32)
    requires { offset + 4 ≤ length memory.old }
    ensures { memory.new ≡ add_at memory.old offset base }
{
    let long = &mut memory[offset..offset + 4];
    let sum = u32::from_be_bytes([long[0], long[1], long[2], long[3]]).wrapping_add(base);
    long.copy_from_slice(&sum.to_be_bytes());
}
