//! What stands in a file, item by item: its units, their hunks, and the blocks of these.
ghost use Rattle.std.specs.Prelude.{◌≡◌, []};
ghost use Rattle.std.specs.Iterator.{item_count};
ghost use Rattle.hunk_files.specs.ItemViews.{GivesItem, item_seen, stays};
ghost use Rattle.hunk_files.specs.Items.{ItemsAt, items_at};

use crate::blocks::BlockViews;
use crate::object::{HunkView, UnitView, ends_unit, read_header};
use hunk_blocks::{BlockView, BodyView};
use std::marker::Model;

/// A thing that stands in a file. Units and hunks are counted from 0, hunks in their unit; a load
/// file is one unit, which has no header.
#[derive(Drop)]
pub enum Item<'a> {
    /// A unit of an object file begins with its header: its hunks come next.
    Unit {
        /// Which one it is.
        number: u64,
        /// The unit, which knows its byte and its name.
        view: UnitView<'a>,
    },
    /// A hunk begins: its blocks come next, up to its END.
    Hunk {
        /// Its unit.
        unit: u64,
        /// Which one of the unit it is.
        number: u64,
        /// The hunk, which knows its byte and how many bytes it has.
        view: HunkView<'a>,
    },
    /// A block.
    Block {
        /// The unit of its hunk.
        unit: u64,
        /// Its hunk.
        hunk: u64,
        /// The block, which knows its byte.
        view: BlockView<'a>,
    },
}

impl Item<'_> {
    /// The byte of the input at which it begins.
    #[inline(always)]
    pub fn place(&self) -> u64
        ensures { result ≡ (item_seen self.now).place }
    {
        match self {
            Item::Unit { view, .. } => view.place(),
            Item::Hunk { view, .. } => view.place(),
            Item::Block { view, .. } => view.place(),
        }
    }

    /// Whether `strip` keeps it: all but blocks that name, describe or comment a hunk.
    #[inline(always)]
    pub(crate) fn stays(&self) -> bool
        ensures { result ≡ stays (item_seen self.now).value }
    {
        match self {
            Item::Block { view, .. } => !matches!(
                view.body(),
                BodyView::Name(_) | BodyView::Symbol(_) | BodyView::Debug(_) | BodyView::Advisory(_)
            ),
            _ => true,
        }
    }
}

/// The items of a file that are still to come, in file order, each read where it lies. It takes no
/// memory. Contracts see the list of them, and the byte of the input at which the next begins.
#[derive(Drop)]
pub struct Items<'a> {
    /// The input, up to the end of the file.
    bytes: &'a [u8],
    /// The blocks of the open hunk that are still to come. Where they end the next item begins.
    blocks: BlockViews<'a>,
    /// The open unit and hunk.
    unit: u64,
    hunk: u64,
    /// How many units began, and hunks of the open unit.
    units: u64,
    hunks: u64,
}

impl<'a> Model for Items<'a> {
    ghost use Rattle.std.specs.Prelude.{List};
    ghost use Rattle.hunk_blocks.specs.Placed.{Placed};
    ghost use Rattle.hunk_files.specs.Items.{ItemValue, ItemsAt, end_of_blocks, items_at};

    ghost Value = { Placed (List ItemValue) };

    ghost view = { λ s. items_at s.bytes.now s.unit s.hunk s.units s.hunks s.blocks };

    ghost invariant = { λ s. ItemsAt s.bytes.now s.units s.hunks (end_of_blocks s.blocks) };
}

impl<'a> Items<'a> {
    /// The items that stand from this byte on, up to the end of the bytes: hunks, and then units.
    pub(crate) fn at(bytes: &'a [u8], start: usize) -> Items<'a>
        requires { ItemsAt bytes.now 0 0 start }
        ensures { result ≡ items_at bytes.entry.now 0 0 0 0 (record { place = start; value = [] }) }
    {
        Items {
            bytes,
            blocks: BlockViews::none(start),
            unit: 0,
            hunk: 0,
            units: 0,
            hunks: 0,
        }
    }

    /// The byte of the input at which the next item begins, or after the last the byte at which
    /// the file ends.
    #[inline(always)]
    pub fn place(&self) -> u64
        ensures { result ≡ self.now.place }
    {
        self.blocks.place()
    }
}

impl<'a> Iterator for Items<'a> {
    type Item = Item<'a>;

    ghost next_gives = { GivesItem };

    ghost remaining = { item_count (λ s. s.value) };

    #[inline(always)]
    fn next(&mut self) -> Option<Item<'a>> {
        if let Some(view) = self.blocks.next() {
            return Some(Item::Block {
                unit: self.unit,
                hunk: self.hunk,
                view,
            });
        }
        let bytes = self.bytes;
        let at = self.blocks.place() as usize;
        if !ends_unit(&bytes[at..]) {
            let view = HunkView::at(bytes, at);
            self.hunk = self.hunks;
            self.hunks += 1;
            self.blocks = BlockViews::at(bytes, at);
            return Some(Item::Hunk {
                unit: self.unit,
                number: self.hunk,
                view,
            });
        }
        if at >= bytes.len() {
            return None;
        }
        let (_, hunks) = read_header(bytes, at);
        self.unit = self.units;
        self.units += 1;
        self.hunks = 0;
        self.blocks = BlockViews::none(hunks);
        Some(Item::Unit {
            number: self.unit,
            view: UnitView::at(bytes, at),
        })
    }
}
