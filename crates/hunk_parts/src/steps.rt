//! What a part leads to.
ghost use Rattle.std.specs.Prelude.{◌&&◌, ◌||◌, ◌==◌, is_some, ◌≡◌, ◌≤◌, ◌+◌, ◌*◌};
ghost use Rattle.std.specs.Prelude.{◌<◌, ◌^◌};
ghost use Rattle.hunk_words.specs.Bits.{entry_longs};
ghost use Rattle.hunk_words.specs.Carriers.{saturated};
ghost use Rattle.hunk_grammar.specs.ExtKinds.{ext_shape};
ghost use Rattle.hunk_parts.specs.PartFaults.{begins_at, block_longs, closing_bytes, ends_at, list_after, part_longs};
ghost use Rattle.hunk_parts.specs.PartFaults.{place_after, shape_longs, step_part};
ghost use Rattle.hunk_parts.specs.Parts.{block_part, unit_part};

use crate::fields::{items_of, shape_of_type};
use crate::part_row::{
    BLOCK_PART, ENTRY_PART, GROUP_PART, HUNK_PART, PartRow, SYMBOL_PART, UNIT_PART,
};
use crate::part_size::PartSize;
use crate::place::PartPlace;
use crate::refusals::has_content;
use hunk_grammar::{ExtShape, WordPlace};
use hunk_words::{BlockWord, Kind, SizeWord};

/// Whether a zero ends the open list before such a part.
#[inline(always)]
pub(crate) fn closes(list: Option<Kind>, what: u32) -> bool
    ensures { result ≡ (is_some list && (what == unit_part || what == block_part)) }
{
    list.is_some() && (what == UNIT_PART || what == BLOCK_PART)
}

/// The bytes of the zero that ends the open list before such a part.
#[inline(always)]
fn closing_bytes(list: Option<Kind>, what: u32) -> u64
    ensures value { result ≡ closing_bytes list what }
    ensures bound { result ≤ 4 }
{
    if closes(list, what) { 4 } else { 0 }
}

/// The list that is open after such a part.
#[inline(always)]
pub(crate) fn list_after(list: Option<Kind>, what: u32, word: u32) -> Option<Kind>
    ensures { result ≡ list_after list what word }
{
    if what < BLOCK_PART {
        return None;
    }
    if what != BLOCK_PART {
        return list;
    }
    let kind = BlockWord::of(word).kind();
    (items_of(kind) > 0).then_some(kind)
}

/// Where the next block word stands, after a part.
#[inline(always)]
fn place_after(place: WordPlace, part: PartSize) -> WordPlace
    ensures { result ≡ place_after place part }
{
    match part.what {
        HUNK_PART => WordPlace::InHunk { has_content: false },
        UNIT_PART => WordPlace::BetweenHunks,
        BLOCK_PART => match BlockWord::of(part.word).kind() {
            Kind::End => WordPlace::BetweenHunks,
            Kind::Code | Kind::Data | Kind::Bss => WordPlace::InHunk { has_content: true },
            _ => WordPlace::InHunk {
                has_content: has_content(place),
            },
        },
        _ => place,
    }
}

impl PartSize {
    /// How many longwords an entry has after its name.
    fn shape_longs(self) -> u64
        requires { self.offsets < 2 ^ 62 }
        ensures { result ≡ shape_longs (ext_shape self.word) self }
    {
        match shape_of_type(self.word) {
            Some(ExtShape::Definition) => 1,
            Some(ExtShape::References) => 1 + self.offsets,
            Some(ExtShape::Common) => 2 + self.offsets,
            None => 0,
        }
    }

    /// How many longwords a block of this kind has, but for its items.
    fn block_longs(self, kind: Kind) -> u64
        requires { self.content ≤ 2 ^ 62 }
        ensures { result ≡ block_longs kind self }
    {
        match kind {
            Kind::End => 1,
            kind if items_of(kind) > 0 => 1,
            _ => 2 + self.content,
        }
    }

    /// How many longwords it has, but of HUNK in the body.
    #[inline(always)]
    fn longs(self) -> u64
        requires content { self.content ≤ 2 ^ 62 }
        requires offsets { self.offsets < 2 ^ 62 }
        ensures { result ≡ part_longs self }
    {
        match self.what {
            UNIT_PART | SYMBOL_PART => 2 + self.content,
            BLOCK_PART => self.block_longs(BlockWord::of(self.word).kind()),
            GROUP_PART => 2 + self.offsets,
            ENTRY_PART => 1 + self.content + self.shape_longs(),
            _ => 0,
        }
    }
}

impl PartPlace {
    /// After a part.
    #[inline(always)]
    pub(crate) fn step(self, part: PartSize) -> PartPlace
        requires content { part.content ≤ 2 ^ 62 }
        requires offsets { part.offsets < 2 ^ 62 }
        ensures { result ≡ step_part self part }
    {
        let size = SizeWord {
            word: part.word,
            extra: 0,
        };
        let is_hunk = part.what == HUNK_PART;
        PartPlace {
            hunks: self.hunks,
            longs: if is_hunk { size.longs() } else { self.longs },
            place: place_after(self.place, part),
            list: list_after(self.list, part.what, part.word),
            entry: if is_hunk {
                self.entry_after(part.word)
            } else {
                self.entry
            },
            at: self.at_after(part),
        }
    }

    /// The byte after an entry of the table that begins with this size word.
    fn entry_after(self, word: u32) -> u64
        ensures { result ≡ saturated (self.entry + 4 * entry_longs word) }
    {
        self.entry
            .saturating_add(4 * SizeWord::entry_longs(word) as u64)
    }

    /// The byte after the text of a part.
    #[inline(always)]
    fn at_after(self, part: PartSize) -> u64
        requires content { part.content ≤ 2 ^ 62 }
        requires offsets { part.offsets < 2 ^ 62 }
        ensures { result ≡ saturated (self.at + closing_bytes self.list part.what
            + 4 * part_longs part) }
    {
        self.at
            .saturating_add(closing_bytes(self.list, part.what))
            .saturating_add(part.longs().saturating_mul(4))
    }

    /// The byte at which the text of the row would begin, or its size word.
    pub(crate) fn begins_at(self, row: &PartRow) -> u64
        ensures { result ≡ saturated (begins_at self row.now) }
    {
        if row.what == HUNK_PART && self.hunks > 0 {
            return self.entry;
        }
        self.at.saturating_add(closing_bytes(self.list, row.what))
    }

    /// The byte after the last part.
    pub(crate) fn ends_at(self) -> u64
        ensures { result ≡ ends_at self }
    {
        self.at.saturating_add(closing_bytes(self.list, BLOCK_PART))
    }
}
