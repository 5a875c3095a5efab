//! Why a part is refused where it stands.
ghost use Rattle.std.specs.Prelude.{◌≡◌};
ghost use Rattle.hunk_grammar.specs.ObjectRoles.{has_content, refuse_object_word};
ghost use Rattle.hunk_parts.specs.PartFaults.{because, is_before_units, is_in_place, is_open, open_items};
ghost use Rattle.hunk_parts.specs.PartFaults.{refuse_block_part, refuse_block_word, refuse_content, refuse_entry_part};
ghost use Rattle.hunk_parts.specs.PartFaults.{refuse_group, refuse_group_part, refuse_hunk, refuse_name, refuse_part};
ghost use Rattle.hunk_parts.specs.PartFaults.{refuse_size, refuse_symbol_part, refuse_unit_part};

use crate::fields::{items_of, shape_of_type};
use crate::part_row::{BLOCK_PART, ENTRY_PART, GROUP_PART, HUNK_PART, SYMBOL_PART, UNIT_PART};
use crate::part_size::PartSize;
use crate::place::PartPlace;
use crate::row_fault::{Refusal, RowRefusal};
use hunk_grammar::{Mode, OpenHunk, Phase, Position, WordPlace, refuse_place};
use hunk_words::{BlockWord, CONTENT_LIMIT, Kind, NAME_LIMIT, Reason, SizeWord, UNIT_WORD};

/// The row spells nothing that a file has there.
pub(crate) const STRANGE: Refusal = Refusal {
    why: RowRefusal::Strange,
    ahead: 0,
};

/// Refused for this reason, at so many bytes after its first one.
pub(crate) fn because(ahead: u64, reason: Reason) -> Option<Refusal>
    ensures { result ≡ because ahead reason }
{
    Some(Refusal {
        why: RowRefusal::Refused(reason),
        ahead,
    })
}

/// Whether a hunk is open here.
pub(crate) fn is_open(place: WordPlace) -> bool
    ensures { result ≡ is_open place }
{
    matches!(place, WordPlace::InHunk { has_content: _ })
}

/// Whether no unit and no hunk has begun.
pub(crate) fn is_before_units(place: WordPlace) -> bool
    ensures { result ≡ is_before_units place }
{
    matches!(place, WordPlace::BeforeUnits)
}

/// Whether the open hunk has its content block.
pub(crate) fn has_content(place: WordPlace) -> bool
    ensures { result ≡ has_content place }
{
    match place {
        WordPlace::InHunk { has_content } => has_content,
        _ => false,
    }
}

/// Why a block word is refused in an object file, where it is.
fn refuse_object_word(place: WordPlace, word: u32) -> Option<Reason>
    ensures { result ≡ refuse_object_word place word }
{
    if word == UNIT_WORD {
        return is_open(place).then_some(Reason::Misplaced);
    }
    let word = BlockWord::of(word);
    if let Some(reason) = Mode::Object.refuse(word) {
        return Some(reason);
    }
    if is_before_units(place) {
        return Some(Reason::Misplaced);
    }
    refuse_place(word.kind(), has_content(place))
}

impl PartPlace {
    /// What the items of the open list are; 0 where none is open.
    fn open_items(self) -> u32
        ensures { result ≡ open_items self.list }
    {
        match self.list {
            Some(kind) => items_of(kind),
            None => 0,
        }
    }

    /// Why a block word is refused here.
    fn refuse_block_word(self, word: u32) -> Option<Reason>
        ensures { result ≡ refuse_block_word self word }
    {
        if self.hunks == 0 {
            return refuse_object_word(self.place, word);
        }
        let hunk = OpenHunk {
            hunks: self.hunks,
            ahead: 0,
            has_content: has_content(self.place),
        };
        Position::Body(hunk, Phase::BlockWord).refuse(self.longs, word)
    }

    /// Why a name is refused whose count stands so many bytes after the first one of its part.
    fn refuse_name(ahead: u64, part: PartSize) -> Option<Refusal>
        ensures { result ≡ refuse_name ahead part }
    {
        if part.content < u64::from(NAME_LIMIT) {
            return None;
        }
        because(ahead, Reason::NameWord)
    }

    /// Why a content of so many longwords is refused.
    fn refuse_content(self, longs: u64) -> Option<Refusal>
        ensures { result ≡ refuse_content self longs }
    {
        if longs >= u64::from(CONTENT_LIMIT) || self.hunks > 0 && longs > u64::from(self.longs) {
            return because(4, Reason::ContentTooLong);
        }
        None
    }

    /// Why a block of this kind is refused for its size.
    fn refuse_size(self, kind: Kind, part: PartSize) -> Option<Refusal>
        ensures { result ≡ refuse_size self kind part }
    {
        match kind {
            Kind::Code | Kind::Data | Kind::Bss => self.refuse_content(part.content_longs(kind)),
            Kind::Name => PartPlace::refuse_name(4, part),
            _ => None,
        }
    }

    /// Why a group is refused, but for its offsets.
    fn refuse_group(self, part: PartSize) -> Option<Refusal>
        ensures { result ≡ refuse_group self part }
    {
        if self.hunks == 0 {
            None
        } else if self.longs == 0 {
            because(0, Reason::NothingToRelocate)
        } else if part.word < self.hunks {
            None
        } else {
            because(4, Reason::BadTarget)
        }
    }

    fn refuse_hunk_part(self, part: PartSize) -> Option<Refusal>
        ensures { result ≡ refuse_hunk self part }
    {
        let opens = self.hunks != 0 && !is_open(self.place);
        let fits = part.has_no_content() && part.has_no_offsets();
        if opens && fits && (SizeWord::has_extra(part.word) || part.has_no_value()) {
            return None;
        }
        Some(STRANGE)
    }

    fn refuse_unit_part(self, part: PartSize) -> Option<Refusal>
        ensures { result ≡ refuse_unit_part self part }
    {
        if is_open(self.place) {
            return because(0, Reason::Misplaced);
        }
        if part.word != 0 || !part.has_no_value() || !part.has_no_offsets() {
            return Some(STRANGE);
        }
        PartPlace::refuse_name(4, part)
    }

    fn refuse_block_part(self, part: PartSize) -> Option<Refusal>
        ensures { result ≡ refuse_block_part self part }
    {
        if let Some(reason) = self.refuse_block_word(part.word) {
            return because(0, reason);
        }
        let kind = BlockWord::of(part.word).kind();
        if !part.fits_kind(kind) || !part.has_no_offsets() {
            return Some(STRANGE);
        }
        self.refuse_size(kind, part)
    }

    fn refuse_group_part(self, part: PartSize) -> Option<Refusal>
        ensures { result ≡ refuse_group_part self part }
    {
        let fits = part.has_no_value() && part.has_no_content() && part.has_offsets();
        if self.open_items() != GROUP_PART || !fits {
            return Some(STRANGE);
        }
        self.refuse_group(part)
    }

    fn refuse_symbol_part(self, part: PartSize) -> Option<Refusal>
        ensures { result ≡ refuse_symbol_part self part }
    {
        let fits = part.has_no_offsets() && part.word < 256 && part.goes_on();
        if self.open_items() != SYMBOL_PART || !fits {
            return Some(STRANGE);
        }
        PartPlace::refuse_name(0, part)
    }

    fn refuse_entry_part(self, part: PartSize) -> Option<Refusal>
        ensures { result ≡ refuse_entry_part self part }
    {
        if self.open_items() != ENTRY_PART {
            return Some(STRANGE);
        }
        let shape = shape_of_type(part.word);
        if shape.is_none() {
            return because(0, Reason::ExtKind);
        }
        if !part.fits_shape(shape) || !part.goes_on() || !part.fits_count() {
            return Some(STRANGE);
        }
        PartPlace::refuse_name(0, part)
    }

    /// Whether a hunk or a unit is open for a part that is no HUNK.
    #[inline(always)]
    fn is_in_place(self, part: PartSize) -> bool
        ensures { result ≡ is_in_place self part }
    {
        if self.hunks > 0 {
            is_open(self.place)
        } else {
            part.what == UNIT_PART || !is_before_units(self.place)
        }
    }

    /// Why the part is refused here, but for its offsets.
    #[inline(always)]
    pub(crate) fn refuse(self, part: PartSize) -> Option<Refusal>
        ensures { result ≡ refuse_part self part }
    {
        match part.what {
            HUNK_PART => self.refuse_hunk_part(part),
            _ if !self.is_in_place(part) => Some(STRANGE),
            UNIT_PART => self.refuse_unit_part(part),
            BLOCK_PART => self.refuse_block_part(part),
            GROUP_PART => self.refuse_group_part(part),
            SYMBOL_PART => self.refuse_symbol_part(part),
            ENTRY_PART => self.refuse_entry_part(part),
            _ => Some(STRANGE),
        }
    }
}
