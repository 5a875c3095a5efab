//! Load files without what is not loaded.
ghost use Rattle.std.specs.Prelude.{◌≡◌, ◌≤◌, length, map};
ghost use Rattle.hunk_words.specs.Longs.{bytes_of};
ghost use Rattle.hunk_files.specs.LoadText.{text};
ghost use Rattle.hunk_files.specs.Strip.{strip_hunk, strip_file};
ghost use Rattle.hunk_files.specs.Tables.{hunk_of};

use crate::kept::is_kept;
use crate::load::file::LoadFile;
use crate::load::hunk::LoadHunk;

impl<'a> LoadFile<'a> {
    /// The file without the blocks that `HunkFile::strip` drops. It has the same table, and the same
    /// image at all bases.
    ///
    /// It takes no memory.
    #[tactic(auto, using(crate::proofs::strip::StripText::bytes_shorter, crate::proofs::views::FileViews::whole_slice))]
    pub fn strip(self) -> LoadFile<'a>
        ensures value { result ≡ strip_file self.entry }
        ensures shorter { length (bytes_of (text result)) ≤ length (bytes_of (text self.entry)) }
    {
        let LoadFile { mut hunks, view } = self;
        strip_hunks(&mut hunks);
        LoadFile { hunks, view }
    }
}

/// The hunks without what is not loaded.
#[tactic(auto, using(crate::proofs::views::FileViews::stripped_more))]
fn strip_hunks(hunks: &mut [LoadHunk<'_>])
    ensures { map hunk_of hunks.new ≡ strip_file (map hunk_of hunks.old) }
{
    'hunks: for hunk in hunks.iter_mut() {
        strip_hunk(hunk);
    }
}

/// The hunk without what is not loaded.
fn strip_hunk(hunk: &mut LoadHunk<'_>)
    ensures { hunk_of hunk.new ≡ strip_hunk (hunk_of hunk.old) }
{
    hunk.blocks.retain(|block| is_kept(block));
}
