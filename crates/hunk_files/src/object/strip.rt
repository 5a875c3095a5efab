//! An object file without what only names, describes or comments it.
ghost use Rattle.std.specs.Prelude.{◌≡◌, ◌≤◌, length, map};
ghost use Rattle.hunk_words.specs.Longs.{bytes_of};
ghost use Rattle.hunk_files.specs.ObjectFile.{object_text};
ghost use Rattle.hunk_files.specs.Strip.{strip_blocks, strip_object, strip_unit};

use crate::kept::is_kept;
use crate::object::file::ObjectFile;
use crate::object::unit::{Hunk, Unit};

impl Hunk<'_> {
    /// Drops the blocks that only name, describe or comment the hunk.
    fn strip(&mut self)
        ensures { self.new ≡ strip_blocks self.old }
    {
        self.blocks.retain(|block| is_kept(block))
    }
}

impl Unit<'_> {
    /// Drops the same of each hunk; the name of the unit stays.
    fn strip(&mut self)
        ensures { self.new ≡ strip_unit self.old }
    {
        strip_hunks(&mut self.hunks)
    }
}

/// Strips each of the hunks.
#[tactic(auto, using(crate::proofs::strip::StripSteps::turn_more))]
fn strip_hunks(hunks: &mut Vec<Hunk>)
    ensures { hunks.new.items ≡ map strip_blocks hunks.old.items }
{
    for hunk in hunks.iter_mut() {
        hunk.strip();
    }
}

/// Strips each of the units.
#[tactic(auto, using(crate::proofs::strip::StripSteps::turn_more))]
fn strip_units(units: &mut Vec<Unit>)
    ensures { units.new.items ≡ strip_object units.old.items }
{
    for unit in units.iter_mut() {
        unit.strip();
    }
}

impl<'a> ObjectFile<'a> {
    /// The file without the blocks that `HunkFile::strip` drops. A unit keeps its own name, and EXT
    /// blocks stay. Takes no memory.
    #[tactic(auto, using(crate::proofs::strip::StripLaws::findings_kept, crate::proofs::strip::StripLaws::object_kept, crate::proofs::strip::StripSteps::shorter))]
    pub fn strip(mut self) -> ObjectFile<'a>
        ensures stripped { result ≡ strip_object self.entry }
        ensures shorter { length (bytes_of (object_text result))
            ≤ length (bytes_of (object_text self.entry)) }
    {
        strip_units(&mut self.units);
        self
    }
}
