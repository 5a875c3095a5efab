//! Which fields of a part its kind has a use for, and how many longwords it has.
ghost use Rattle.std.specs.Prelude.{◌≡◌, ◌^◌, nat_lt};
ghost use Rattle.hunk_grammar.specs.ExtKinds.{ext_shape};
ghost use Rattle.hunk_parts.specs.PartFaults as faults;
ghost use Rattle.hunk_parts.specs.PartFaults.{content_longs, fits_kind, fits_shape, goes_on, has_low_bits};
ghost use Rattle.hunk_parts.specs.PartFaults.{has_no_content, has_no_offsets, has_no_value, has_offsets};

use crate::part_row::{ENTRY_PART, GROUP_PART, SYMBOL_PART};
use crate::part_size::PartSize;
use hunk_grammar::{ExtKind, ExtShape};
use hunk_words::{BlockWord, Kind, SizeWord};

/// No list of offsets, DEBUG or ADVISORY block has as many longwords, since its count has 32 bits.
const COUNT_LIMIT: u64 = 1 << 32;

/// What the items of a block of this kind are; 0 where it is no list.
pub(crate) fn items_of(kind: Kind) -> u32
    ensures { result ≡ faults.items_of kind }
{
    match kind {
        Kind::Symbol => SYMBOL_PART,
        Kind::Ext => ENTRY_PART,
        kind if kind.is_relocation() => GROUP_PART,
        _ => 0,
    }
}

/// What stands after the name of an entry of this type.
#[tactic(auto, using(crate::proofs::ExtTypes::large_type))]
pub(crate) fn shape_of_type(word: u32) -> Option<ExtShape>
    ensures { result ≡ ext_shape word }
{
    let code = u8::try_from(word).ok()?;
    Some(ExtKind::from_code(code)?.shape())
}

impl PartSize {
    pub(crate) fn has_no_value(self) -> bool
        ensures { result ≡ has_no_value self }
    {
        self.value == 0
    }

    pub(crate) fn has_no_content(self) -> bool
        ensures { result ≡ has_no_content self }
    {
        self.content == 0
    }

    pub(crate) fn has_no_offsets(self) -> bool
        ensures { result ≡ has_no_offsets self }
    {
        self.offsets == 0
    }

    fn has_low_bits(self) -> bool
        ensures { result ≡ has_low_bits self }
    {
        let size = SizeWord {
            word: self.value,
            extra: 0,
        };
        size.longs() != 0
    }

    /// Whether the fields are those of a block of this kind.
    pub(crate) fn fits_kind(self, kind: Kind) -> bool
        ensures { result ≡ fits_kind kind self }
    {
        match kind {
            Kind::Code | Kind::Data => !self.has_low_bits(),
            Kind::Bss => self.has_no_content(),
            Kind::Unit => false,
            Kind::Name => self.has_no_value(),
            Kind::Debug | Kind::Unknown(_) => self.has_no_value() && self.content < COUNT_LIMIT,
            _ => self.has_no_value() && self.has_no_content(),
        }
    }

    /// Whether the fields are those of an entry of this shape.
    pub(crate) fn fits_shape(self, shape: Option<ExtShape>) -> bool
        ensures { result ≡ fits_shape shape self }
    {
        match shape {
            Some(ExtShape::Definition) => self.has_no_offsets(),
            Some(ExtShape::References) => self.has_no_value(),
            Some(ExtShape::Common) => true,
            None => false,
        }
    }

    /// Whether the longword that begins the item is not the 0 that ends the block.
    pub(crate) fn goes_on(self) -> bool
        ensures { result ≡ goes_on self }
    {
        self.word != 0 || !self.has_no_content()
    }

    /// Whether the number of its offsets fits a longword.
    pub(crate) fn fits_count(self) -> bool
        ensures { result ≡ nat_lt self.offsets (2 ^ 32) }
    {
        self.offsets < COUNT_LIMIT
    }

    pub(crate) fn has_offsets(self) -> bool
        ensures { result ≡ has_offsets self }
    {
        self.offsets > 0 && self.fits_count()
    }

    /// How many longwords of content a block of this kind declares.
    pub(crate) fn content_longs(self, kind: Kind) -> u64
        ensures { result ≡ content_longs kind self }
    {
        match kind {
            Kind::Bss => {
                let size = SizeWord {
                    word: self.value,
                    extra: 0,
                };
                u64::from(size.longs())
            }
            _ => self.content,
        }
    }
}
