//! The types of EXT entries.
ghost use Rattle.std.specs.Prelude.{◌≡◌, ◌≤◌, IfSome, length};
ghost use Rattle.hunk_words.specs.Bits.{entry_type};
ghost use Rattle.hunk_grammar.specs.ExtKinds.{ext_code, ext_kind, ext_name, ext_shape, ext_width, shape_of_kind};

use crate::ext_shape::ExtShape;
use hunk_words::NAME_LIMIT;

/// The type of an EXT entry, with its number and the names of `dos/doshunks.h`.
///
/// RES, number 3, is none of them: AmigaDOS no longer supports it, and it is refused.
///
/// Source: The AmigaDOS Manual, `dos/doshunks.h`, where no variant says otherwise.
#[derive(Clone, Copy, Debug, PartialEq, Eq)]
pub enum ExtKind {
    /// 0 (0x00): a symbol, with one value. That a value follows is this project's own choice.
    Symb,
    /// 1 (0x01): a definition, with one value.
    Def,
    /// 2 (0x02): an absolute definition, with one value.
    Abs,
    /// 129 (0x81): references of 4 bytes.
    Ref32,
    /// 130 (0x82): references of 4 bytes to a common block, with its size in bytes.
    Common,
    /// 131 (0x83): references of 2 bytes.
    Ref16,
    /// 132 (0x84): references of 1 byte.
    Ref8,
    /// 133 (0x85): data-relative references of 4 bytes.
    Dext32,
    /// 134 (0x86): data-relative references of 2 bytes.
    Dext16,
    /// 135 (0x87): data-relative references of 1 byte.
    Dext8,
    /// 136 (0x88): relative references of 4 bytes. The layout is this project's own choice.
    RelRef32,
    /// 137 (0x89): relative references of 4 bytes to a common block, with its size in bytes. The
    /// layout is this project's own choice.
    RelCommon,
    /// 138 (0x8A): absolute references of 2 bytes. The layout is this project's own choice.
    AbsRef16,
    /// 139 (0x8B): absolute references of 1 byte. The layout is this project's own choice.
    AbsRef8,
}

impl ExtKind {
    /// The type of a number; `None` for a number that is not accepted.
    #[tactic(auto, unfolding(crate::specs::ExtKinds::ext_kind))]
    #[inline(always)]
    pub fn from_code(code: u8) -> Option<ExtKind>
        ensures { result ≡ ext_kind code }
    {
        let kind = match code {
            0 => ExtKind::Symb,
            1 => ExtKind::Def,
            2 => ExtKind::Abs,
            129 => ExtKind::Ref32,
            130 => ExtKind::Common,
            131 => ExtKind::Ref16,
            132 => ExtKind::Ref8,
            133 => ExtKind::Dext32,
            134 => ExtKind::Dext16,
            135 => ExtKind::Dext8,
            136 => ExtKind::RelRef32,
            137 => ExtKind::RelCommon,
            138 => ExtKind::AbsRef16,
            139 => ExtKind::AbsRef8,
            _ => return None,
        };
        Some(kind)
    }

    /// The number, which stands in the top byte of an entry's word.
    pub fn code(self) -> u8
        ensures { result ≡ ext_code self }
    {
        match self {
            ExtKind::Symb => 0,
            ExtKind::Def => 1,
            ExtKind::Abs => 2,
            ExtKind::Ref32 => 129,
            ExtKind::Common => 130,
            ExtKind::Ref16 => 131,
            ExtKind::Ref8 => 132,
            ExtKind::Dext32 => 133,
            ExtKind::Dext16 => 134,
            ExtKind::Dext8 => 135,
            ExtKind::RelRef32 => 136,
            ExtKind::RelCommon => 137,
            ExtKind::AbsRef16 => 138,
            ExtKind::AbsRef8 => 139,
        }
    }

    /// What stands after the name of an entry of this type.
    #[inline(always)]
    pub fn shape(self) -> ExtShape
        ensures { result ≡ shape_of_kind self }
    {
        match self {
            ExtKind::Symb | ExtKind::Def | ExtKind::Abs => ExtShape::Definition,
            ExtKind::Common | ExtKind::RelCommon => ExtShape::Common,
            _ => ExtShape::References,
        }
    }

    /// How many bytes of the hunk each offset of an entry of this type stands for: 1, 2 or 4.
    /// `None` for a definition, which has no offsets.
    ///
    /// The widths are this project's own choice.
    #[inline(always)]
    pub fn width(self) -> Option<u64>
        ensures value { result ≡ ext_width self }
        ensures bound { IfSome result (λ width. width ≤ 4) }
    {
        match self {
            ExtKind::Symb | ExtKind::Def | ExtKind::Abs => None,
            ExtKind::Ref16 | ExtKind::Dext16 | ExtKind::AbsRef16 => Some(2),
            ExtKind::Ref8 | ExtKind::Dext8 | ExtKind::AbsRef8 => Some(1),
            _ => Some(4),
        }
    }

    /// The name that `dos/doshunks.h` has for it, without `EXT_`: 3 to 9 capital letters and
    /// digits.
    pub fn name(self) -> &'static str
        ensures value { result.now ≡ ext_name self }
        ensures bound { length result.now ≤ 9 }
    {
        match self {
            ExtKind::Symb => "SYMB",
            ExtKind::Def => "DEF",
            ExtKind::Abs => "ABS",
            ExtKind::Ref32 => "REF32",
            ExtKind::Common => "COMMON",
            ExtKind::Ref16 => "REF16",
            ExtKind::Ref8 => "REF8",
            ExtKind::Dext32 => "DEXT32",
            ExtKind::Dext16 => "DEXT16",
            ExtKind::Dext8 => "DEXT8",
            ExtKind::RelRef32 => "RELREF32",
            ExtKind::RelCommon => "RELCOMMON",
            ExtKind::AbsRef16 => "ABSREF16",
            ExtKind::AbsRef8 => "ABSREF8",
        }
    }
}

/// The type of an entry with this word, by its top byte.
#[inline(always)]
pub fn kind_of(word: u32) -> Option<ExtKind>
    ensures { result ≡ ext_kind (entry_type word) }
{
    ExtKind::from_code((word / NAME_LIMIT) as u8)
}

/// What stands after the name of an entry with this word, by its type.
#[inline(always)]
pub fn shape_of(word: u32) -> Option<ExtShape>
    ensures { result ≡ ext_shape (entry_type word) }
{
    Some(kind_of(word)?.shape())
}
