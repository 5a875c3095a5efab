//! The ranges that stay of a load file.
ghost use Rattle.hunk_words.specs.Longs.{bytes_of};
ghost use Rattle.hunk_files.specs.LoadText.{text};
ghost use Rattle.hunk_files.specs.Strip.{strip_file};

use crate::load::view::LoadView;
use crate::ranges::{TakesBytes, strip_items};

impl LoadView<'_> {
    /// Hands over the text of the file without the blocks that `HunkFile::strip` drops, in ranges
    /// of the input: each as long as it can be. It takes no memory.
    pub fn strip_with<T: TakesBytes>(&self, taker: &mut T)
        ensures { T.takes taker.old (bytes_of (text (strip_file self.now))) taker.new }
    {
        strip_items(taker, self.bytes, self.items());
    }
}
