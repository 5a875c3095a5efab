//! The hunk that comes next among the items of a file.
ghost use Rattle.std.specs.Prelude.{◌≡◌, ◌∷◌, ◌+◌, ◌*◌, ◌<◌, drop, length};
ghost use Rattle.hunk_blocks.specs.Parts.{block_text};
ghost use Rattle.hunk_lint.specs.NextHunk.{IsAtHunk, after_blocks, blocks_of_first, first_blocks};

use hunk_blocks::BlockView;
use hunk_files::{BlockViews, Item, Items};

/// Opens the hunk that comes next, and gives its blocks, which still come among the items, too.
#[inline(always)]
pub(crate) fn open_hunk<'a>(items: &mut Items<'a>) -> BlockViews<'a>
    requires { IsAtHunk items.old.value }
    ensures value { result.value ≡ blocks_of_first items.old.value }
    ensures place { result.place ≡ items.old.place }
    ensures items { items.new.value ≡ drop 1 items.old.value }
    ensures stays { items.new.place ≡ items.old.place }
{
    let Some(item) = items.next() else {
        unreachable!();
    };
    let Item::Hunk { view, .. } = item else {
        unreachable!();
    };
    view.blocks()
}

/// The next block of the open hunk.
#[inline(always)]
pub(crate) fn next_block<'a>(items: &mut Items<'a>) -> BlockView<'a>
    requires { 0 < length (first_blocks items.old.value) }
    ensures first { first_blocks items.old.value ≡ result.value ∷ first_blocks items.new.value }
    ensures after { after_blocks items.new.value ≡ after_blocks items.old.value }
    ensures place { items.new.place
        ≡ items.old.place + 4 * length (block_text result.value) }
{
    let Some(item) = items.next() else {
        unreachable!();
    };
    let Item::Block { view, .. } = item else {
        unreachable!();
    };
    view
}
