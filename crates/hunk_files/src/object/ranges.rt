//! The ranges that stay of an object file.
ghost use Rattle.hunk_words.specs.Longs.{bytes_of};
ghost use Rattle.hunk_files.specs.ObjectFile.{object_text};
ghost use Rattle.hunk_files.specs.Strip.{strip_object};

use crate::object::view::ObjectView;
use crate::ranges::{TakesBytes, strip_items};

impl ObjectView<'_> {
    /// Hands over the text of the file without the blocks that `HunkFile::strip` drops, in ranges
    /// of the input: each as long as it can be. It takes no memory.
    pub fn strip_with<T: TakesBytes>(&self, taker: &mut T)
        ensures { T.takes taker.old (bytes_of (object_text (strip_object self.now))) taker.new }
    {
        strip_items(taker, self.bytes, self.items());
    }
}
