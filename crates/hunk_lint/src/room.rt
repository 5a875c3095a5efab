//! The caller's room: whether it is enough, and what stands in it of all hunks.
ghost use Rattle.std.specs.Prelude.{◌≡◌, ◌*◌, ◌<◌, ◌≤◌, length, map};
ghost use Rattle.std.specs.Bool.{MatchBool};
ghost use Rattle.hunk_words.specs.Bits.{size_longs};
ghost use Rattle.hunk_words.specs.Carriers.{saturated};
ghost use Rattle.hunk_lint.specs.Collecting.{blocks_offsets};
ghost use Rattle.hunk_lint.specs.Room.{room_for};

use hunk_blocks::BodyView;
use hunk_files::{BlockViews, LoadView, TableIter};

/// Whether so many elements are enough for the warnings of a file.
pub(crate) fn has_room(file: &LoadView<'_>, room: usize) -> bool
    ensures { MatchBool result (room_for file.now ≤ room) (room < room_for file.now) }
{
    let count = file.hunks() as usize;
    if room < count {
        return false;
    }
    let offsets = (room - count) as u64;
    let mut hunks = file.iter();
    'looking: while let Some(hunk) = hunks.next() {
        // No hunk has more offsets than longwords.
        let longs = (hunks.place() - hunk.blocks.place()) / 4;
        if offsets < longs && offsets < relocation_count(hunk.blocks) {
            return false;
        }
    }
    true
}

/// How many offsets the relocations of a hunk have together, at most 2^64 - 1.
fn relocation_count(mut blocks: BlockViews<'_>) -> u64
    ensures { result ≡ saturated (length (blocks_offsets blocks.entry.value)) }
{
    let mut count = 0u64;
    'counting: while let Some(block) = blocks.next() {
        if let BodyView::Reloc(groups) = block.body() {
            count = count.saturating_add(groups.offset_count());
        }
    }
    count
}

/// Puts the declared bytes of each hunk there.
pub(crate) fn put_sizes(sizes: &mut [u32], table: TableIter<'_>)
    requires { length sizes.old ≡ length table }
    ensures { sizes.new ≡ map (λ e. 4 * size_longs e.word) table.entry }
{
    let mut at = 0;
    'putting: for size in table {
        sizes[at] = size.bytes() as u32;
        at += 1;
    }
}
