//! A unit of an object file, read where it lies.
ghost use Rattle.std.specs.Prelude.{◌≡◌, ◌+◌, ◌^◌, ◌<◌, length};
ghost use Rattle.hunk_words.specs.Longs.{longs};
ghost use Rattle.hunk_files.specs.Hunks.{IsRead};
ghost use Rattle.hunk_files.specs.ObjectFile.{IsUnit, unit_header};
ghost use Rattle.hunk_files.specs.ObjectViews.{HunksAt, hunks_at, unit_at};
ghost use Rattle.hunk_files.specs.Units.{UnitAt};

use crate::blocks::BlockViews;
use crate::object::unit_end::ends_unit;
use hunk_blocks::Payload;
use hunk_words::word_at;
use std::marker::Model;

/// The name in the header of the unit that stands at `start`, and the byte after the header (The
/// AmigaDOS Manual, `dos/doshunks.h`).
#[tactic(auto, using(std::proofs::lemmas::List::take_rest, crate::proofs::cuts::UnitReading::count_is, crate::proofs::cuts::UnitReading::name_is))]
pub(crate) fn read_header(bytes: &[u8], start: usize) -> (Payload<'_>, usize)
    requires { UnitAt bytes.now start }
    ensures { (here : UnitAt bytes.entry.now start) →
        IsRead unit_header here.unit.name start (longs result.0) result.1 }
{
    let unit = &bytes[start..];
    let end = 8 + 4 * word_at(unit, 1) as usize;
    (Payload::of(&unit[8..end]), start + end)
}

/// A unit of an object file, as it lies in the input. Contracts see its name, in longwords, the
/// list of its hunks, and the byte of the input at which it begins.
///
/// A unit may have no hunks: this project's own choice.
#[derive(Drop)]
pub struct UnitView<'a> {
    bytes: &'a [u8],
    place: usize,
}

impl<'a> Model for UnitView<'a> {
    ghost use Rattle.hunk_files.specs.ObjectFile.{UnitValue};
    ghost use Rattle.hunk_blocks.specs.Placed.{Placed};
    ghost use Rattle.hunk_files.specs.ObjectViews.{unit_at};
    ghost use Rattle.hunk_files.specs.Units.{UnitAt};

    ghost Value = { Placed UnitValue };

    ghost view = { λ s. unit_at s.bytes.now s.place };

    ghost invariant = { λ s. UnitAt s.bytes.now s.place };
}

impl<'a> UnitView<'a> {
    /// The unit that stands at `start`.
    pub(crate) fn at(bytes: &'a [u8], start: usize) -> UnitView<'a>
        requires { UnitAt bytes.now start }
        ensures { result ≡ unit_at bytes.entry.now start }
    {
        UnitView {
            bytes,
            place: start,
        }
    }

    /// The byte of the input at which the unit begins. Its name begins 8 bytes after it.
    pub fn place(&self) -> u64
        ensures value { result ≡ self.now.place }
        ensures bound { result + 8 < 2 ^ 64 }
    {
        self.place as u64
    }

    /// The name that stands in the unit's header, padded with zero bytes to whole longwords.
    pub fn name(&self) -> Payload<'a>
        ensures value { longs result ≡ self.now.value.name }
        ensures unit { IsUnit self.now.value }
    {
        let (name, _) = read_header(self.bytes, self.place);
        name
    }

    /// How many hunks the unit has, for which they are passed over. There may be none.
    pub fn hunks(&self) -> u64
        ensures { result ≡ length self.now.value.hunks }
    {
        let (_, hunks) = read_header(self.bytes, self.place);
        count_hunks(self.bytes, hunks)
    }
}

/// How many hunks stand from this byte on, up to the end of their unit.
fn count_hunks(bytes: &[u8], start: usize) -> u64
    requires { HunksAt bytes.now start }
    ensures { result ≡ length (hunks_at bytes.now start).value }
{
    let mut hunks = 0;
    let mut at = start;
    'counting: while !ends_unit(&bytes[at..]) {
        at = BlockViews::at(bytes, at).end();
        hunks += 1;
    }
    hunks
}
