//! The warnings of a hunk, block by block.
ghost use Rattle.std.specs.Prelude.{◌+◌, ◌*◌, ◌<◌, ◌^◌, length};
ghost use Rattle.std.specs.List.{AllByRecursion};
ghost use Rattle.std.specs.List.Sorted.{IsNonDecreasing};
ghost use Rattle.hunk_words.specs.Bits.{size_longs};
ghost use Rattle.hunk_blocks.specs.Views.{group_of, symbol_of};
ghost use Rattle.hunk_files.specs.LoadFile.{FitsGroup, FitsHunk, IsInside};
ghost use Rattle.hunk_lint.specs.Known.{seen};
ghost use Rattle.hunk_lint.specs.Warnings.{block_warnings, blocks_warnings, content_warnings};
ghost use Rattle.hunk_lint.specs.Warnings.{group_warnings, groups_warnings, offset_warnings};
ghost use Rattle.hunk_lint.specs.Warnings.{symbol_warnings, symbols_warnings, told};

use crate::known::{KnownHunk, long_at};
use crate::neighbours::neighbours_of;
use crate::suspicious::{ignores_memory, is_outside};
use crate::warning::{Warning, WarningKind};
use hunk_blocks::{BlockView, BodyView, Group, GroupsIter, SymbolView, SymbolsIter};
use hunk_files::{BlockViews, Takes};
use hunk_words::BlockWord;

/// Hands over the warning with this kind, where it holds.
fn tell<T: Takes<Warning>>(taker: &mut T, holds: bool, kind: WarningKind, warning: Warning)
    ensures { T.takes taker.old (told holds (record warning { kind = kind })) taker.new }
{
    if holds {
        taker.take(Warning { kind, ..warning });
    }
}

/// Hands over the warnings of an offset with this target, which stands at this byte.
fn list_offset<T: Takes<Warning>>(
    taker: &mut T,
    hunk: &KnownHunk<'_>,
    target: u32,
    place: u64,
    offset: u32,
)
    requires rising { IsNonDecreasing hunk.now.rising.now }
    requires inside { IsInside (size_longs hunk.now.size.word) offset }
    requires target { target < length hunk.now.sizes.now }
    ensures { T.takes taker.old (offset_warnings (seen hunk.now) target place offset) taker.new }
{
    let neighbours = neighbours_of(hunk.rising, offset);
    let value = long_at(hunk.content, offset);
    let odd = Warning {
        place,
        hunk: hunk.number,
        kind: WarningKind::OddOffset,
        offset,
        target,
        value,
        other: 0,
    };
    tell(taker, offset % 2 == 1, WarningKind::OddOffset, odd);
    tell(taker, neighbours.is_twice, WarningKind::Twice, odd);
    if let Some(other) = neighbours.other {
        tell(taker, true, WarningKind::Overlap, Warning { other, ..odd });
    }
    tell(taker, hunk.is_bss, WarningKind::InBss, odd);
    let leads_outside = is_outside(hunk.sizes[target as usize], value);
    tell(taker, leads_outside, WarningKind::OutsideTarget, odd);
}

/// Hands over the warnings of a content block that begins at this byte.
fn list_content<T: Takes<Warning>>(
    taker: &mut T,
    hunk: &KnownHunk<'_>,
    place: u64,
    word: BlockWord,
    is_empty: bool,
)
    ensures { T.takes taker.old (content_warnings (seen hunk.now) place word is_empty) taker.new }
{
    let asked = word.word() >> 30;
    let no_entry = Warning {
        place,
        hunk: hunk.number,
        kind: WarningKind::NoEntry,
        offset: 0,
        target: 0,
        value: 0,
        other: 0,
    };
    tell(
        taker,
        is_empty && hunk.number == 0,
        WarningKind::NoEntry,
        no_entry,
    );
    let ignored = ignores_memory(asked, hunk.size.word >> 30);
    let value = asked;
    tell(
        taker,
        ignored,
        WarningKind::MemoryIgnored,
        Warning { value, ..no_entry },
    );
}

/// Hands over the warnings of a group that begins at this byte.
fn list_group<T: Takes<Warning>>(taker: &mut T, hunk: &KnownHunk<'_>, start: u64, group: &Group<'_>)
    requires rising { IsNonDecreasing hunk.now.rising.now }
    requires fits { FitsGroup (length hunk.now.sizes.now) (size_longs hunk.now.size.word)
        (group_of group.now) }
    requires place { start + 8 + 4 * length group.now.offsets < 2 ^ 64 }
    ensures { T.takes taker.old (group_warnings (seen hunk.now) start (group_of group.now))
        taker.new }
{
    let mut place = start + 8;
    'listing: for offset in &group.offsets {
        list_offset(taker, hunk, group.target, place, offset);
        place += 4;
    }
}

/// Hands over the warnings of the groups of a block.
fn list_groups<T: Takes<Warning>>(taker: &mut T, hunk: &KnownHunk<'_>, mut groups: GroupsIter<'_>)
    requires rising { IsNonDecreasing hunk.now.rising.now }
    requires fits { AllByRecursion (FitsGroup (length hunk.now.sizes.now)
        (size_longs hunk.now.size.word)) groups.value }
    ensures { T.takes taker.old
        (groups_warnings (seen hunk.now) groups.entry.place groups.entry.value) taker.new }
{
    let mut place = groups.place();
    'listing: while let Some(group) = groups.next() {
        let after = groups.place();
        list_group(taker, hunk, place, &group);
        place = after;
    }
}

/// Hands over the warning of a symbol that begins at this byte.
fn list_symbol<T: Takes<Warning>>(
    taker: &mut T,
    hunk: &KnownHunk<'_>,
    place: u64,
    symbol: &SymbolView<'_>,
)
    requires { hunk.now.number < 2 ^ 32 }
    ensures { T.takes taker.old (symbol_warnings (seen hunk.now) place (symbol_of symbol.now))
        taker.new }
{
    let warning = Warning {
        place,
        hunk: hunk.number,
        kind: WarningKind::SymbolOutside,
        offset: 0,
        target: hunk.number as u32,
        value: symbol.value,
        other: 0,
    };
    let leads_outside = is_outside(hunk.size.bytes() as u32, symbol.value);
    tell(taker, leads_outside, WarningKind::SymbolOutside, warning);
}

/// Hands over the warnings of the symbols of a block.
fn list_symbols<T: Takes<Warning>>(
    taker: &mut T,
    hunk: &KnownHunk<'_>,
    mut symbols: SymbolsIter<'_>,
)
    requires { hunk.now.number < 2 ^ 32 }
    ensures { T.takes taker.old
        (symbols_warnings (seen hunk.now) symbols.entry.place symbols.entry.value) taker.new }
{
    let mut place = symbols.place();
    'listing: while let Some(symbol) = symbols.next() {
        let after = symbols.place();
        list_symbol(taker, hunk, place, &symbol);
        place = after;
    }
}

/// Hands over the warnings of a block.
fn list_block<T: Takes<Warning>>(taker: &mut T, hunk: &KnownHunk<'_>, block: BlockView<'_>)
    requires rising { IsNonDecreasing hunk.now.rising.now }
    requires number { hunk.now.number < 2 ^ 32 }
    requires fits { FitsHunk (length hunk.now.sizes.now) (size_longs hunk.now.size.word)
        block.value.body }
    ensures { T.takes taker.old
        (block_warnings (seen hunk.now) block.entry.place block.entry.value) taker.new }
{
    let word = block.word();
    let place = block.place();
    match block.into_body() {
        BodyView::Code { top: _, payload } => {
            list_content(taker, hunk, place, word, payload.byte_count() == 0);
        }
        BodyView::Data { top: _, payload } => {
            list_content(taker, hunk, place, word, payload.byte_count() == 0);
        }
        BodyView::Bss { size: _ } => list_content(taker, hunk, place, word, true),
        BodyView::Reloc(groups) => list_groups(taker, hunk, groups),
        BodyView::Symbol(symbols) => list_symbols(taker, hunk, symbols),
        _ => {}
    }
}

/// Hands over the warnings of the blocks of a hunk.
pub(crate) fn list_blocks<T: Takes<Warning>>(
    taker: &mut T,
    hunk: &KnownHunk<'_>,
    mut blocks: BlockViews<'_>,
)
    requires rising { IsNonDecreasing hunk.now.rising.now }
    requires number { hunk.now.number < 2 ^ 32 }
    requires fits { AllByRecursion (λ b. FitsHunk (length hunk.now.sizes.now)
        (size_longs hunk.now.size.word) b.body) blocks.value }
    ensures { T.takes taker.old
        (blocks_warnings (seen hunk.now) blocks.entry.place blocks.entry.value) taker.new }
{
    'listing: while let Some(block) = blocks.next() {
        list_block(taker, hunk, block);
    }
}
