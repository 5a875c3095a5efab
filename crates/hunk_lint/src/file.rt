//! The warnings of a load file, hunk by hunk.
ghost use Rattle.std.specs.Prelude.{◌≡◌, ◌+◌, ◌*◌, ◌<◌, ◌≤◌, ◌^◌, IfErr, OnOk, length};
ghost use Rattle.hunk_files.specs.Hunks.{block_texts};
ghost use Rattle.hunk_files.specs.Image.{relocations};
ghost use Rattle.hunk_files.specs.LoadFile.{IsHunk};
ghost use Rattle.hunk_files.specs.LoadHunks.{hunk_seen};
ghost use Rattle.hunk_lint.specs.Room.{room_for};
ghost use Rattle.hunk_lint.specs.Facts.{facts_of};
ghost use Rattle.hunk_lint.specs.NextHunk.{after_blocks, first_blocks};
ghost use Rattle.hunk_lint.specs.Warnings.{blocks_warnings, warnings};

use crate::collecting::collect;
use crate::known::KnownHunk;
use crate::listing::list_blocks;
use crate::next_hunk::open_hunk;
use crate::room::{has_room, put_sizes};
use crate::sorting::sort;
use crate::warning::Warning;
use hunk_files::{Items, LoadHunkView, LoadView, Takes};

/// The room is too small for the warnings of a file.
#[derive(Clone, Copy)]
pub struct NoRoom;

/// Hands over what is suspicious in a load file, in file order.
///
/// It takes no memory but the room, and what the room holds afterwards is not said. The room needs
/// an element for each hunk and, of the hunk with the most relocations, one for each offset. There
/// the offsets of a hunk are sorted, which takes n log n steps for n of them.
///
/// # Errors
///
/// `NoRoom` where the room is smaller. Then nothing is handed over.
pub fn list_warnings<T: Takes<Warning>>(
    file: &LoadView<'_>,
    room: &mut [u32],
    taker: &mut T,
) -> Result<(), NoRoom>
    ensures taken { OnOk result (T.takes taker.old (warnings file.now) taker.new) }
    ensures enough { OnOk result (room_for file.now ≤ length room.old) }
    ensures too_small { IfErr result (λ e. length room.old < room_for file.now) }
    ensures stays { IfErr result (λ e. taker.new ≡ taker.old) }
{
    if !has_room(file, room.len()) {
        return Err(NoRoom);
    }
    list_in_room(file, room, taker);
    Ok(())
}

/// Hands over the same in a room that is known to be enough. So blocks are not counted before.
///
/// The caller also reads files: it needs less stack where it does not hold what this does.
#[inline(never)]
pub fn list_in_room<T: Takes<Warning>>(file: &LoadView<'_>, room: &mut [u32], taker: &mut T)
    requires { room_for file.now ≤ length room.old }
    ensures { T.takes taker.old (warnings file.now) taker.new }
{
    let (sizes, offsets) = room.split_at_mut(file.hunks() as usize);
    put_sizes(sizes, file.table());
    let mut items = file.items();
    let mut number = 0;
    'listing: for size in file.table() {
        let blocks = open_hunk(&mut items);
        let hunk = LoadHunkView { size, blocks };
        list_hunk(taker, sizes, offsets, number, hunk, &mut items);
        number += 1;
    }
}

/// Hands over the warnings of the open hunk.
///
/// What its blocks have is collected first. So they are read twice, and only then the next begins.
fn list_hunk<T: Takes<Warning>>(
    taker: &mut T,
    sizes: &[u32],
    offsets: &mut [u32],
    number: u64,
    hunk: LoadHunkView<'_>,
    items: &mut Items<'_>,
)
    requires hunk { IsHunk (length sizes.now) (hunk_seen hunk) }
    requires opened { first_blocks items.old.value ≡ hunk.blocks.value }
    requires room { length (relocations (hunk_seen hunk)) ≤ length offsets.old }
    requires number { number < 2 ^ 32 }
    ensures taken { T.takes taker.old (blocks_warnings
        (facts_of sizes.now number (hunk_seen hunk.entry))
        hunk.entry.blocks.place hunk.entry.blocks.value) taker.new }
    ensures items { items.new.value ≡ after_blocks items.old.value }
    ensures place { items.new.place
        ≡ items.old.place + 4 * length (block_texts hunk.entry.blocks.value) }
{
    let collected = collect(offsets, items);
    sort(&mut offsets[..collected.count]);
    let known = KnownHunk {
        number,
        size: hunk.size,
        sizes,
        content: collected.content,
        rising: &offsets[..collected.count],
        is_bss: collected.is_bss,
    };
    list_blocks(taker, &known, hunk.blocks);
}
