//! Blocks and headers of units that are passed over at once.
ghost use Rattle.std.specs.Prelude.{◌≡◌, ◌≤◌, ◌<◌, ◌+◌, ◌*◌, ◌^◌, IfNone, IfSome, length, slice_index};
ghost use Rattle.hunk_words.specs.Longs.{longs};
ghost use Rattle.hunk_grammar.specs.ObjectPositions.{place_next, refuse_place};
ghost use Rattle.hunk_grammar.specs.Standings.{standing_of_kind};
ghost use Rattle.hunk_grammar.specs.declared.phase.Phase.TheVariants.{BssSize, ExtWord, GroupCount};
ghost use Rattle.hunk_files.specs.ObjectPassing.{AreEntries, AreStrides, EndsBlock, IsAfter, IsNamed, LeadsOn, LeadsTo};

use crate::load::passing::{after_content, after_counted, after_symbols};
use crate::object::part::counted;
use hunk_grammar::{ExtShape, ObjectPosition, WordPlace, refuse_place, shape_of};
use hunk_words::{BlockWord, Kind, NAME_LIMIT, UNIT_WORD, word_at};

/// A place of an object file where the word of a block or of a unit stands, or the file ends.
#[derive(Clone, Copy)]
pub(super) struct UnitPlace {
    /// The longword.
    pub at: usize,
    /// Where in its unit it is.
    pub place: WordPlace,
    /// The units that began before it.
    pub units: u64,
    /// The parts of the last unit that are whole, its name and hunks, but for one that ends here.
    pub whole: u64,
}

impl UnitPlace {
    /// Goes on to the place after a block of this kind, where that may stand here and has an end.
    #[inline(always)]
    fn pass(&mut self, kind: Kind, after: Option<usize>) -> Option<()>
        requires units { self.old.units < 2 ^ 63 }
        requires whole { self.old.whole < 2 ^ 63 }
        ensures passes { IfSome result (λ _. IsAfter self.old kind after self.new) }
        ensures stays { IfNone result (self.new ≡ self.old) }
    {
        let place = place_after(self.place, kind)?;
        self.at = after?;
        let here = ObjectPosition::Word(self.place);
        (self.units, self.whole) = counted(here, self.units, self.whole);
        self.place = place;
        Some(())
    }
}

/// The place after a block of this kind, where it may stand at this place.
#[inline(always)]
fn place_after(place: WordPlace, kind: Kind) -> Option<WordPlace>
    ensures passes { IfSome result (λ _. refuse_place place (standing_of_kind kind) ≡ None) }
    ensures next { IfSome result (λ next. next ≡ place_next place (standing_of_kind kind)) }
{
    let has_content = match place {
        WordPlace::BeforeUnits => return None,
        WordPlace::BetweenHunks => false,
        WordPlace::InHunk { has_content } => has_content,
    };
    if let Some(_) = refuse_place(kind, has_content) {
        return None;
    }
    Some(match kind {
        Kind::End => WordPlace::BetweenHunks,
        Kind::Code | Kind::Data | Kind::Bss => WordPlace::InHunk { has_content: true },
        _ => WordPlace::InHunk { has_content },
    })
}

/// What is passed over at once from `at` on, at this position and with these numbers of units and
/// parts: the longword after it, and what is there. Nothing of it is refused.
#[inline(always)]
pub(super) fn pass_over(
    bytes: &[u8],
    at: usize,
    position: ObjectPosition,
    units: u64,
    whole: u64,
) -> (usize, ObjectPosition, u64, u64)
    requires units { units ≤ at }
    requires whole { whole ≤ at }
    ensures { AreStrides (longs bytes.now) at position (units, whole)
        result.0 result.1 (result.2, result.3) }
{
    let ObjectPosition::Word(place) = position else {
        return (at, position, units, whole);
    };
    let from = UnitPlace {
        at,
        place,
        units,
        whole,
    };
    let end = after_units(bytes, from);
    (
        end.at,
        ObjectPosition::Word(end.place),
        end.units,
        end.whole,
    )
}

/// The place after the blocks and the headers of units that stand from this one on and end in the
/// bytes, up to the first that may be refused.
#[inline(never)]
#[tactic(auto, using(crate::proofs::object_walk::PassedUnits::few_units, crate::proofs::object_walk::PassedUnits::few_parts))]
pub(super) fn after_units(bytes: &[u8], from: UnitPlace) -> UnitPlace
    requires units { from.units ≤ from.at }
    requires whole { from.whole ≤ from.at }
    ensures { LeadsTo (longs bytes.now) from result }
{
    let mut place = from;
    'passing: while let Some(_) = pass_block(bytes, &mut place) {}
    place
}

/// Goes over one such block or header, where one stands here. `None` leaves the place as it was.
#[inline(always)]
fn pass_block(bytes: &[u8], place: &mut UnitPlace) -> Option<()>
    requires units { place.old.units ≤ place.old.at }
    requires whole { place.old.whole ≤ place.old.at }
    ensures passes { IfSome result (λ _. LeadsOn (longs bytes.now) place.old place.new) }
    ensures stays { IfNone result (place.new ≡ place.old) }
{
    if place.at >= bytes.len() / 4 {
        return None;
    }
    let word = word_at(bytes, place.at);
    let block = BlockWord::of(word);
    if block.has_both_memory_bits() {
        return None;
    }
    let at = place.at + 1;
    // Each kind is written out, so that the tests of its place are compiled for it alone.
    match block.kind() {
        Kind::Unit => pass_header(bytes, place, word),
        Kind::End => place.pass(Kind::End, Some(at)),
        Kind::Code => place.pass(Kind::Code, after_content(bytes, at, u32::MAX)),
        Kind::Data => place.pass(Kind::Data, after_content(bytes, at, u32::MAX)),
        Kind::Bss => place.pass(Kind::Bss, after_size(bytes, at)),
        Kind::Ext => place.pass(Kind::Ext, after_entries(bytes, at)),
        Kind::Name => place.pass(Kind::Name, after_name(bytes, at)),
        Kind::Symbol => place.pass(Kind::Symbol, after_symbols(bytes, at)),
        Kind::Debug => place.pass(Kind::Debug, after_counted(bytes, at)),
        kind if kind.is_relocation() => place.pass(Kind::Reloc32, after_groups(bytes, at)),
        _ => None,
    }
}

/// Goes over the header of the unit that begins at this place, by its word, where one may.
#[inline(always)]
fn pass_header(bytes: &[u8], place: &mut UnitPlace, word: u32) -> Option<()>
    requires inside { 4 * place.old.at + 4 ≤ length bytes.now }
    requires word { word ≡ slice_index (longs bytes.now) place.old.at }
    requires units { place.old.units < 2 ^ 63 }
    ensures passes { IfSome result (λ _. LeadsOn (longs bytes.now) place.old place.new) }
    ensures stays { IfNone result (place.new ≡ place.old) }
{
    if word != UNIT_WORD {
        return None;
    }
    let WordPlace::BetweenHunks = place.place else {
        return None;
    };
    place.at = after_name(bytes, place.at + 1)?;
    place.units += 1;
    place.whole = 0;
    Some(())
}

/// The longword after the name whose count stands at `at`, where it ends in the bytes.
#[inline(always)]
fn after_name(bytes: &[u8], at: usize) -> Option<usize>
    ensures { IfSome result (IsNamed (longs bytes.now) at) }
{
    let after = after_counted(bytes, at)?;
    if word_at(bytes, at) >= NAME_LIMIT {
        return None;
    }
    Some(after)
}

/// The longword after the size word of a BSS block that stands at `at`, where it is in the bytes.
#[inline(always)]
fn after_size(bytes: &[u8], at: usize) -> Option<usize>
    ensures { IfSome result (EndsBlock (longs bytes.now) BssSize at) }
{
    if at >= bytes.len() / 4 {
        return None;
    }
    Some(at + 1)
}

/// The longword after the groups that stand from `from` on and the 0 that ends them, where they end
/// in the bytes.
#[inline(always)]
fn after_groups(bytes: &[u8], from: usize) -> Option<usize>
    ensures { IfSome result (EndsBlock (longs bytes.now) GroupCount from) }
{
    let whole = bytes.len() / 4;
    let mut at = from;
    'groups: while at < whole {
        let count = word_at(bytes, at);
        if count == 0 {
            return Some(at + 1);
        }
        // The count, the number of a hunk, and the offsets.
        let longs = count as usize + 2;
        if longs > whole - at {
            return None;
        }
        at += longs;
    }
    None
}

/// The longword after the external entries that stand from `from` on and the 0 that ends them,
/// where they end in the bytes.
#[inline(always)]
fn after_entries(bytes: &[u8], from: usize) -> Option<usize>
    ensures { IfSome result (EndsBlock (longs bytes.now) ExtWord from) }
{
    let mut at = from;
    'entries: while at < bytes.len() / 4 {
        let word = word_at(bytes, at);
        if word == 0 {
            return Some(at + 1);
        }
        at = after_entry(bytes, at, word)?;
    }
    None
}

/// The longword after the external entry at `at`, which has this word, where it ends in the bytes.
#[inline(always)]
fn after_entry(bytes: &[u8], at: usize, word: u32) -> Option<usize>
    requires inside { 4 * at + 4 ≤ length bytes.now }
    requires word { word ≡ slice_index (longs bytes.now) at }
    requires some { 0 < word }
    ensures entry { IfSome result (AreEntries (longs bytes.now) at) }
    ensures on { IfSome result (λ after. at < after) }
{
    let name = at + 1 + (word % NAME_LIMIT) as usize;
    match shape_of(word)? {
        ExtShape::Definition if name < bytes.len() / 4 => Some(name + 1),
        ExtShape::Definition => None,
        ExtShape::References => after_counted(bytes, name),
        ExtShape::Common => after_counted(bytes, name + 1),
    }
}
