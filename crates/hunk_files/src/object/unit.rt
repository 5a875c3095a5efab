//! The units of an object file, and their hunks.
ghost use Rattle.std.specs.Prelude.{◌≡◌};
ghost use Rattle.std.specs.List.{flat_map};
ghost use Rattle.hunk_words.specs.Longs.{bytes_of, longs};
ghost use Rattle.hunk_words.specs.Limits.{name_limit};
ghost use Rattle.hunk_words.specs.Prints.{Prints};
ghost use Rattle.hunk_blocks.specs.Values.{IsPayload};
ghost use Rattle.hunk_blocks.specs.Parts.{block_text};
ghost use Rattle.hunk_files.specs.ObjectFile.{IsObjectHunk, IsUnit, unit_header, unit_text};

use crate::blocks::print_blocks;
use hunk_blocks::{Block, Payload};
use hunk_words::{Printer, Sink, UNIT_WORD};
use std::marker::Model;

/// A hunk of a unit. Contracts see it as the list of its blocks.
#[derive(Debug, Drop)]
pub struct Hunk<'a> {
    pub(super) blocks: Vec<Block<'a>>,
}

impl<'a> Model for Hunk<'a> {
    ghost use Rattle.hunk_files.specs.ObjectFile.{ObjectHunk, IsObjectHunk};

    ghost Value = { ObjectHunk };

    ghost view = { λ s. s.blocks.items };

    ghost invariant = { λ s. IsObjectHunk s.blocks.items };
}

impl<'a> Hunk<'a> {
    /// The blocks, in file order: one of them holds the content, relocations and references come
    /// after it, and the last is END.
    pub fn blocks(&self) -> &[Block<'a>]
        ensures value { result.now ≡ self.now }
        ensures hunk { IsObjectHunk self.now }
    {
        self.blocks.as_slice()
    }
}

/// A unit of an object file. Contracts see it as its name, in longwords, and the list of its hunks.
#[derive(Debug, Drop)]
pub struct Unit<'a> {
    pub(super) name: Payload<'a>,
    pub(super) hunks: Vec<Hunk<'a>>,
}

impl<'a> Model for Unit<'a> {
    ghost use Rattle.hunk_words.specs.Longs.{longs};
    ghost use Rattle.hunk_files.specs.ObjectFile.{UnitValue, IsUnit};

    ghost Value = { UnitValue };

    ghost view = { λ s. record { name = longs s.name; hunks = s.hunks.items } };

    ghost invariant = { λ s. IsUnit (record { name = longs s.name; hunks = s.hunks.items }) };
}

impl<'a> Unit<'a> {
    /// The name that stands in the unit's header, padded with zero bytes to whole longwords.
    pub fn name(&self) -> &Payload<'a>
        ensures value { longs result.now ≡ self.now.name }
        ensures unit { IsUnit self.now }
    {
        &self.name
    }

    /// The hunks, in file order. There may be none.
    pub fn hunks(&self) -> &[Hunk<'a>]
        ensures value { result.now ≡ self.now.hunks }
        ensures unit { IsUnit self.now }
    {
        self.hunks.as_slice()
    }
}

/// The header of the unit, and its hunks.
pub(super) fn print_unit<W: Sink>(page: &mut Printer<'_, W>, unit: &Unit<'_>)
    ensures { Prints page.old page.new (bytes_of (unit_text unit.now)) }
{
    print_header(page, unit.name());
    print_hunks(page, unit.hunks());
}

/// The header of a unit with this name.
fn print_header<W: Sink>(page: &mut Printer<'_, W>, name: &Payload<'_>)
    requires { IsPayload name_limit (longs name.now) }
    ensures { Prints page.old page.new (bytes_of (unit_header (longs name.now))) }
{
    let bytes = name.bytes();
    page.print_long(UNIT_WORD);
    page.print_long((bytes.len() / 4) as u32);
    page.print(bytes);
}

/// The blocks of the hunks.
fn print_hunks<W: Sink>(page: &mut Printer<'_, W>, hunks: &[Hunk<'_>])
    ensures { Prints page.old page.new (bytes_of (flat_map (flat_map block_text) hunks.now)) }
{
    'writing: for hunk in hunks {
        print_blocks(page, hunk.blocks());
    }
}
