//! The lists in a block's body.
ghost use Rattle.std.specs.Prelude.{◌≡◌, ◌+◌, ◌<◌, ◌≤◌, ◌↔◌, [], IsTrue, Some, length, slice_get};
ghost use Rattle.std.specs.Slice.Iter.{iter_rest};
ghost use Rattle.hunk_words.specs.declared.reason.Reason.TheVariants as reasons;

use hunk_words::{BlockFault, Reason};
use std::marker::Model;
use std::slice;

/// The groups, entries or symbols of a block, in file order. Contracts see them as a list.
#[derive(Debug, Drop)]
pub struct BlockList<T> {
    items: Vec<T>,
}

impl<T> Model for BlockList<T> {
    ghost use Rattle.std.specs.Prelude.{List};

    ghost Value = { List T };

    ghost view = { λ s. s.items.items };
}

impl<T> BlockList<T> {
    /// These items.
    pub(crate) fn of(items: Vec<T>) -> BlockList<T>
        ensures { result ≡ items.items }
    {
        BlockList { items }
    }

    /// How many items there are.
    pub fn len(&self) -> usize
        ensures { result ≡ length self.now }
    {
        self.items.len()
    }

    /// Whether there is no item.
    pub fn is_empty(&self) -> bool
        ensures { IsTrue result ↔ (self.now ≡ []) }
    {
        self.items.is_empty()
    }

    /// The items in turn.
    pub fn iter(&self) -> slice::Iter<'_, T>
        ensures { iter_rest result ≡ self.now }
    {
        self.items.iter()
    }

    /// The item number `i`, counted from 0.
    pub fn at(&self, i: usize) -> &T
        requires { i < length self.now }
        ensures { slice_get self.now i ≡ Some result.now }
    {
        &self.items[i]
    }

    /// All items.
    pub(crate) fn as_slice(&self) -> &[T]
        ensures { result.now ≡ self.now }
    {
        self.items.as_slice()
    }
}

impl<'b, T> IntoIterator for &'b BlockList<T> {
    type Item = &'b T;

    type IntoIter = slice::Iter<'b, T>;

    ghost into_iter_gives = { λ list it. iter_rest it ≡ list.now };

    fn into_iter(self) -> Self::IntoIter {
        self.iter()
    }
}

/// The refusal of memory for an item after which the input goes on at this byte: at the item's
/// last longword.
pub(crate) fn out_of_memory(after: u64) -> BlockFault
    requires { 4 ≤ after }
    ensures place { result.place + 4 ≡ after }
    ensures reason { result.reason ≡ reasons.OutOfMemory }
{
    BlockFault {
        place: after - 4,
        reason: Reason::OutOfMemory,
    }
}
