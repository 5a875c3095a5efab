//! The ranges of the input that a stripped file keeps.
ghost use Rattle.std.specs.Prelude.{◌≤◌, ℕ, List, [], ◌++◌, length, slice_range};
ghost use Rattle.std.proofs.Common.{◌∙◌, ap, append-nil, append_assoc, refl, sym};
ghost use Rattle.hunk_words.specs.Longs.{bytes_of};
ghost use Rattle.hunk_words.specs.Prints.{Prints};
ghost use Rattle.std.specs.List.{flat_map};
ghost use Rattle.hunk_files.specs.Items.{ItemsStand};
ghost use Rattle.hunk_files.specs.ItemViews.{kept_text};

use crate::items::Items;
use hunk_words::{PagePrinter, Sink};

/// Takes bytes range by range, and refuses none: what goes wrong with one is kept for the end.
///
/// `takes` says that just these bytes were taken, in this order, from the one state to the other.
pub trait TakesBytes {
    ghost takes: { Self → List ℕ → Self → Type 0 };

    /// Takes these bytes, after those that were taken before.
    fn take(&mut self, bytes: &[u8])
        ensures { takes self.old bytes.now self.new };

    ghost none: { (s : Self) → takes s [] s };

    ghost more: { (a b c : Self) (xs ys : List ℕ) → takes a xs b → takes b ys c
        → takes a (xs ++ ys) c };
}

/// A page prints them one after the other.
impl<W: Sink, const ROOM: usize> TakesBytes for PagePrinter<'_, W, ROOM> {
    ghost takes = { λ a xs b. Prints a b xs };

    ghost none = { λ s. (refl, sym (append-nil s.text)) };

    ghost more = { λ a b c xs ys first next. (
      next.0 ∙ first.0,
      next.1 ∙ ap (λ (text : List ℕ). text ++ ys) first.1 ∙ append_assoc a.text xs ys,
    ) };

    fn take(&mut self, bytes: &[u8]) {
        self.print(bytes);
    }
}

/// Hands over the bytes from the one place to the other, unless there are none.
#[inline(always)]
pub(crate) fn hand_over<T: TakesBytes>(taker: &mut T, bytes: &[u8], from: usize, end: usize)
    requires ordered { from ≤ end }
    requires inside { end ≤ length bytes.now }
    ensures { T.takes taker.old (slice_range bytes.now from end) taker.new }
{
    if from < end {
        taker.take(&bytes[from..end]);
    }
}

/// Hands over the bytes before the items, and what stays of these, in ranges that are each as long as
/// they can be.
pub(crate) fn strip_items<T: TakesBytes>(taker: &mut T, bytes: &[u8], mut items: Items<'_>)
    requires { ItemsStand bytes.now items }
    ensures { T.takes taker.old (slice_range bytes.now 0 items.entry.place
        ++ bytes_of (flat_map kept_text items.entry.value)) taker.new }
{
    // What stays and was not handed over yet begins after the last item that was dropped.
    let mut from = 0;
    'stripping: while let Some(item) = items.next() {
        if !item.stays() {
            hand_over(taker, bytes, from, item.place() as usize);
            from = items.place() as usize;
        }
    }
    hand_over(taker, bytes, from, items.place() as usize);
}
