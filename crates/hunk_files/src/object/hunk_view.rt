//! A hunk, read where it lies.
ghost use Rattle.std.specs.Prelude.{◌≡◌};
ghost use Rattle.hunk_files.specs.Findings.{hunk_bytes};
ghost use Rattle.hunk_files.specs.Hunks.{HunkAt};
ghost use Rattle.hunk_files.specs.ObjectFile.{IsObjectHunk};
ghost use Rattle.hunk_files.specs.ObjectViews.{hunk_at};

use crate::blocks::BlockViews;
use crate::object::check::hunk_bytes;
use std::marker::Model;

/// A hunk of a file of either kind, as it lies in the input. Contracts see it as the list of its
/// blocks, and the byte of the input at which it begins.
#[derive(Drop)]
pub struct HunkView<'a> {
    bytes: &'a [u8],
    place: usize,
}

impl<'a> Model for HunkView<'a> {
    ghost use Rattle.hunk_files.specs.ObjectFile.{ObjectHunk};
    ghost use Rattle.hunk_blocks.specs.Placed.{Placed};
    ghost use Rattle.hunk_files.specs.Hunks.{HunkAt};
    ghost use Rattle.hunk_files.specs.ObjectViews.{hunk_at};

    ghost Value = { Placed ObjectHunk };

    ghost view = { λ s. hunk_at s.bytes.now s.place };

    ghost invariant = { λ s. HunkAt s.bytes.now s.place };
}

impl<'a> HunkView<'a> {
    /// The hunk that stands at `start`.
    pub(crate) fn at(bytes: &'a [u8], start: usize) -> HunkView<'a>
        requires { HunkAt bytes.now start }
        ensures { result ≡ hunk_at bytes.entry.now start }
    {
        HunkView {
            bytes,
            place: start,
        }
    }

    /// The byte of the input at which the hunk begins.
    pub fn place(&self) -> u64
        ensures { result ≡ self.now.place }
    {
        self.place as u64
    }

    /// The blocks, in file order: one of them holds the content, relocations and references come
    /// after it, and the last is END.
    pub fn blocks(&self) -> BlockViews<'a>
        ensures value { result ≡ self.now }
        ensures hunk { IsObjectHunk self.now.value }
    {
        BlockViews::at(self.bytes, self.place)
    }

    /// How many bytes the hunk has: those of its content block.
    pub fn content_bytes(&self) -> u64
        ensures { result ≡ hunk_bytes self.now.value }
    {
        hunk_bytes(self.blocks())
    }
}
