//! Files without names, symbols and debug data.
ghost use Rattle.std.specs.Prelude.{◌≡◌, ◌<◌, ◌≤◌, ◌^◌, ◌++◌, ℕ, IfNone, IfSome, drop, length};
ghost use Rattle.hunk_files.specs.FileView.{file_of};
ghost use Rattle.hunk_files.specs.HunkFile.{file_bytes};
ghost use Rattle.hunk_c.specs.Counting.{Counts, counts_none, counts_more};
ghost use Rattle.hunk_c.specs.Rows.{ListsWhatFits};
ghost use Rattle.hunk_c.specs.Strips.{Strips, stripped_bytes};

use crate::answer::{Answer, done, no_room, refused};
use crate::file::hunks_in;
use hunk_files::{FileView, TakesBytes};
use hunk_parts::Copier;

/// Copies the file to the text, without its NAME, SYMBOL, DEBUG and ADVISORY blocks.
#[unsafe(no_mangle)]
pub extern "C" fn hunk_strip(bytes: &[u8], text: &mut [u8]) -> Answer
    ensures outcome { Strips bytes.now text.old text.new result }
    ensures succeeds { ListsWhatFits stripped_bytes (length text.old) bytes.now result }
{
    let file = match FileView::read(bytes) {
        Ok(file) => file,
        Err(refusal) => return refused(refusal.fault),
    };
    let hunks = hunks_in(&file);
    let size = bytes.len() as u64 - file.rest();
    if let Some(count) = lacked(&file, size, text.len() as u64) {
        return no_room(hunks, size, count);
    }
    let count = copy_stripped(&file, text);
    done(hunks, size, count as u64)
}

/// How many bytes the file, which has `size` of them, has without those blocks, where there is no
/// room for as many.
#[inline(never)]
fn lacked(file: &FileView<'_>, size: u64, room: u64) -> Option<u64>
    requires size { size ≡ length (file_bytes (file_of file.now)) }
    ensures fits { IfNone result (length (stripped_bytes (file_of file.now)) ≤ room) }
    ensures lacks { IfSome result (λ count. (count ≡ length (stripped_bytes (file_of file.now)))
        × (room < count)) }
{
    // What is stripped is no longer than the file.
    if size <= room {
        return None;
    }
    let count = count_stripped(file);
    if count <= room {
        return None;
    }
    Some(count)
}

/// How many bytes the file has without those blocks.
fn count_stripped(file: &FileView<'_>) -> u64
    requires { length (stripped_bytes (file_of file.now)) < 2 ^ 64 }
    ensures { result ≡ length (stripped_bytes (file_of file.now)) }
{
    let mut counter = ByteCount { count: 0 };
    file.strip_with(&mut counter);
    counter.count
}

/// Writes the file without those blocks to the front of the text, and gives the number of its
/// bytes. The text after them is as it was.
#[inline(never)]
#[tactic(auto, using(hunk_parts::proofs::CopiedText::copied))]
fn copy_stripped(file: &FileView<'_>, text: &mut [u8]) -> usize
    requires { length (stripped_bytes (file_of file.now)) ≤ length text.old }
    ensures count { result ≡ length (stripped_bytes (file_of file.now)) }
    ensures text { text.new ≡ stripped_bytes (file_of file.now) ++ drop result text.old }
{
    let mut copier = Copier { text, at: 0 };
    file.strip_with(&mut copier);
    copier.at
}

/// Counts bytes, up to 2 ^ 64 - 1.
#[derive(Drop)]
struct ByteCount {
    count: u64,
}

impl TakesBytes for ByteCount {
    ghost takes = { λ a xs b. Counts a.count xs b.count };

    ghost none = { λ s. counts_none ℕ s.count };

    ghost more = { λ a b c xs ys. counts_more a.count b.count c.count xs ys };

    fn take(&mut self, bytes: &[u8]) {
        self.count = self.count.saturating_add(bytes.len() as u64);
    }
}
