//! Block words.
ghost use Rattle.std.specs.Prelude.{◌≡◌, ◌<◌, ◌≤◌, IfSome, length};
ghost use Rattle.std.specs.Option.{option_copied};
ghost use Rattle.hunk_words.specs.Bits.{flags, has_both_bits, is_advisory, is_chip, is_fast, is_relocation, kind, kind_of_number};
ghost use Rattle.hunk_words.specs.KindNames.{name_of_kind};

use std::marker::Model;

/// The block word of a header, with which a load file begins: no flags, and the type HEADER.
///
/// Source: The AmigaDOS Manual, `dos/doshunks.h`. That it has no flags is this project's own
/// choice.
pub const HEADER_WORD: u32 = 0x3F3;

/// The block word with which each unit of an object file begins: no flags, and the type UNIT.
///
/// Source: The AmigaDOS Manual, `dos/doshunks.h`. That it has no flags is this project's own
/// choice.
pub const UNIT_WORD: u32 = 0x3E7;

/// The block word with which a library begins: no flags, and the type LIB.
///
/// Source: `dos/doshunks.h`.
pub const LIBRARY_WORD: u32 = 0x3FA;

/// The type of a block, with its number in hexadecimal digits and the names of `dos/doshunks.h`.
///
/// Source: The AmigaDOS Manual, `dos/doshunks.h`.
#[derive(Clone, Copy, Debug, PartialEq, Eq)]
pub enum Kind {
    /// 3E7: the name of a unit, with which each unit of an object file begins.
    Unit,
    /// 3E8: the name of a hunk.
    Name,
    /// 3E9: the content of a hunk, code.
    Code,
    /// 3EA: the content of a hunk, data.
    Data,
    /// 3EB: a hunk of zero bytes, of which only the size is in the file.
    Bss,
    /// 3EC: relocations of 4 bytes.
    Reloc32,
    /// 3ED: relocations of 2 bytes, in object files.
    Reloc16,
    /// 3EE: relocations of 1 byte, in object files.
    Reloc8,
    /// 3EF: definitions, references and common blocks, in object files.
    Ext,
    /// 3F0: symbols with their values, for debuggers.
    Symbol,
    /// 3F1: debug data.
    Debug,
    /// 3F2: the end of a hunk.
    End,
    /// 3F3: the header of a load file.
    Header,
    /// 3F5: the table of an overlay.
    Overlay,
    /// 3F6: the end of an overlay.
    Break,
    /// 3F7: relocations of 4 bytes in object files, in load files the short ones of V37's LoadSeg.
    Drel32,
    /// 3F8: relocations of 2 bytes, in object files.
    Drel16,
    /// 3F9: relocations of 1 byte, in object files.
    Drel8,
    /// 3FA: a library.
    Lib,
    /// 3FB: the index of a library.
    Index,
    /// 3FC: relocations with offsets of 16 bits.
    Reloc32Short,
    /// 3FD: relative relocations of 4 bytes, in object files.
    RelReloc32,
    /// 3FE: absolute relocations of 2 bytes, in object files.
    AbsReloc16,
    /// A number that `dos/doshunks.h` gives no name, 3F4 among them: the low 29 bits of the word.
    ///
    /// That a number outside of the table is of an unknown kind is this project's own choice.
    Unknown(u32),
}

impl Kind {
    /// The name that `dos/doshunks.h` has for it, without `HUNK_`: 3 to 12 capital letters and
    /// digits.
    ///
    /// `Unknown` has none.
    pub fn name(self) -> Option<&'static str>
        ensures value { option_copied result ≡ name_of_kind self }
        ensures bound { IfSome result (λ name. length name.now ≤ 12) }
    {
        let name = match self {
            Kind::Unit => "UNIT",
            Kind::Name => "NAME",
            Kind::Code => "CODE",
            Kind::Data => "DATA",
            Kind::Bss => "BSS",
            Kind::Reloc32 => "RELOC32",
            Kind::Reloc16 => "RELOC16",
            Kind::Reloc8 => "RELOC8",
            Kind::Ext => "EXT",
            Kind::Symbol => "SYMBOL",
            Kind::Debug => "DEBUG",
            Kind::End => "END",
            Kind::Header => "HEADER",
            Kind::Overlay => "OVERLAY",
            Kind::Break => "BREAK",
            Kind::Drel32 => "DREL32",
            Kind::Drel16 => "DREL16",
            Kind::Drel8 => "DREL8",
            Kind::Lib => "LIB",
            Kind::Index => "INDEX",
            Kind::Reloc32Short => "RELOC32SHORT",
            Kind::RelReloc32 => "RELRELOC32",
            Kind::AbsReloc16 => "ABSRELOC16",
            Kind::Unknown(_) => return None,
        };
        Some(name)
    }

    /// Whether it is one of the eight relocation kinds, whose blocks list the offsets that are
    /// relocated. `Reloc32Short` is none of them, since it is refused in each file.
    ///
    /// Source: The AmigaDOS Manual, `dos/doshunks.h`.
    #[inline(always)]
    pub fn is_relocation(self) -> bool
        ensures { result ≡ is_relocation self }
    {
        matches!(
            self,
            Kind::Reloc32
                | Kind::Reloc16
                | Kind::Reloc8
                | Kind::Drel32
                | Kind::Drel16
                | Kind::Drel8
                | Kind::RelReloc32
                | Kind::AbsReloc16
        )
    }

    /// The kind of the type with this number.
    #[inline(always)]
    fn of_number(number: u32) -> Kind
        ensures { result ≡ kind_of_number number }
    {
        match number {
            UNIT_WORD => Kind::Unit,
            0x3E8 => Kind::Name,
            0x3E9 => Kind::Code,
            0x3EA => Kind::Data,
            0x3EB => Kind::Bss,
            0x3EC => Kind::Reloc32,
            0x3ED => Kind::Reloc16,
            0x3EE => Kind::Reloc8,
            0x3EF => Kind::Ext,
            0x3F0 => Kind::Symbol,
            0x3F1 => Kind::Debug,
            0x3F2 => Kind::End,
            HEADER_WORD => Kind::Header,
            0x3F5 => Kind::Overlay,
            0x3F6 => Kind::Break,
            0x3F7 => Kind::Drel32,
            0x3F8 => Kind::Drel16,
            0x3F9 => Kind::Drel8,
            LIBRARY_WORD => Kind::Lib,
            0x3FB => Kind::Index,
            0x3FC => Kind::Reloc32Short,
            0x3FD => Kind::RelReloc32,
            0x3FE => Kind::AbsReloc16,
            other => Kind::Unknown(other),
        }
    }
}

/// The first longword of a block: three flags and a type. Contracts see it as the longword.
///
/// The flags are in the top three bits, the type in the low 29 bits: this project's own reading of
/// the bits that `dos/doshunks.h` names.
#[derive(Clone, Copy, Debug, PartialEq, Eq)]
pub struct BlockWord {
    word: u32,
}

impl Model for BlockWord {
    ghost use Rattle.std.specs.Prelude.{ℕ};

    ghost Value = { ℕ };

    ghost view = { λ s. s.word };

    ghost inverse = { λ word. record { word = word } };
}

impl BlockWord {
    const TYPE: u32 = 0x1FFF_FFFF;

    /// The block word that this longword is.
    pub fn of(word: u32) -> BlockWord
        ensures { result ≡ word }
    {
        BlockWord { word }
    }

    /// The longword.
    pub fn word(self) -> u32
        ensures { result ≡ self }
    {
        self.word
    }

    /// The top three bits, from 0 to 7: 1 is advisory, 2 chip memory and 4 fast memory.
    pub fn flags(self) -> u8
        ensures value { result ≡ flags self }
        ensures bound { result < 8 }
    {
        (self.word >> 29) as u8
    }

    /// Whether the advisory flag, bit 29, is set: a reader passes over the block where it does not
    /// know its type.
    ///
    /// Source: `dos/doshunks.h`. From V39 of dos such a block is ignored.
    #[inline(always)]
    pub fn is_advisory(self) -> bool
        ensures { result ≡ is_advisory self }
    {
        (self.word >> 29) & 1 == 1
    }

    /// Whether the flag for chip memory, bit 30, is set (`dos/doshunks.h`).
    pub fn is_chip(self) -> bool
        ensures { result ≡ is_chip self }
    {
        (self.word >> 30) & 1 == 1
    }

    /// Whether the flag for fast memory, bit 31, is set (`dos/doshunks.h`).
    pub fn is_fast(self) -> bool
        ensures { result ≡ is_fast self }
    {
        (self.word >> 31) == 1
    }

    /// Whether the flags for chip and for fast memory are both set, for which each block word is
    /// refused: this project's own choice.
    #[inline(always)]
    pub fn has_both_memory_bits(self) -> bool
        ensures { result ≡ has_both_bits self }
    {
        self.word >> 30 == 3
    }

    /// The type, by the low 29 bits.
    #[tactic(auto, unfolding(crate::specs::Bits::kind))]
    #[inline(always)]
    pub fn kind(self) -> Kind
        ensures { result ≡ kind self }
    {
        Kind::of_number(self.word & Self::TYPE)
    }
}
