//! Where a unit ends.
ghost use Rattle.std.specs.Prelude.{◌≡◌};
ghost use Rattle.hunk_words.specs.Longs.{longs};
ghost use Rattle.hunk_files.specs.UnitCuts.{ends_unit};

use hunk_words::{UNIT_WORD, word_at};

/// Whether a unit ends before these bytes: no longword follows, or the next unit.
pub(crate) fn ends_unit(bytes: &[u8]) -> bool
    ensures { result ≡ ends_unit (longs bytes.now) }
{
    bytes.len() < 4 || word_at(bytes, 0) == UNIT_WORD
}
