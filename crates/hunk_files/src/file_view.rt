//! A load file or an object file, as its first longword announces, read where it lies.
ghost use Rattle.std.specs.Prelude.{◌≡◌, ◌≢◌, IfErr, IfOk};
ghost use Rattle.hunk_words.specs.Longs.{longs};
ghost use Rattle.hunk_words.specs.declared.reason.Reason.TheVariants as reasons;
ghost use Rattle.hunk_grammar.specs.FileKind.{sniffed};
ghost use Rattle.hunk_files.specs.FileParts.{IsPartAt};
ghost use Rattle.hunk_files.specs.FileView.{file_of};
ghost use Rattle.hunk_files.specs.HunkFile.{AreFile, IsFileOf, IsRefusal, EndsFilePart, bytes_after};
ghost use Rattle.hunk_files.specs.HunkFile.{file_bytes, stripped};
ghost use Rattle.hunk_files.specs.Lacks.{EndsAt};
ghost use Rattle.hunk_files.specs.StandingBlocks.{file_items};

use crate::hunk_file::HunkFile;
use crate::items::Items;
use crate::load::LoadView;
use crate::object::ObjectView;
use crate::ranges::TakesBytes;
use crate::refusal::Refusal;
use hunk_grammar::Sniff;
use hunk_words::{FileFault, HEADER_WORD, LIBRARY_WORD, UNIT_WORD, word_at};
use std::alloc::Global;

/// A file of either kind, as `read` finds it in the input, whose parts are read as they are asked
/// for. It takes no memory.
#[derive(Drop)]
pub enum FileView<'a> {
    /// A load file, and the number of bytes that follow it.
    Load { file: LoadView<'a>, rest: u64 },
    /// An object file, which all of the bytes are.
    Object(ObjectView<'a>),
}

impl<'a> FileView<'a> {
    /// The file that the bytes are, or begin with.
    ///
    /// Where `sniff` answers `Object` it is the object file that all of the bytes are; whatever
    /// else it answers, it is the load file that they begin with. It takes no memory.
    ///
    /// # Errors
    ///
    /// The refusal that `ObjectView::read` or `LoadView::read` answers, with its place in bytes
    /// from the start of the input.
    pub fn read(bytes: &'a [u8]) -> Result<FileView<'a>, Refusal>
        ensures file { IfOk result (λ file. IsFileOf bytes.entry.now (file_of file)) }
        ensures none { IfErr result (λ r. AreFile bytes.entry.now → ⊥) }
        ensures refused { IfErr result (λ r.
            IsRefusal (sniffed (longs bytes.entry.now)) bytes.entry.now r.fault) }
        ensures part { IfErr result (λ r.
            IsPartAt (sniffed (longs bytes.entry.now)) bytes.entry.now r.fault.place r.part) }
        ensures memory { IfErr result (λ r. r.fault.reason ≢ reasons.OutOfMemory) }
    {
        match sniff(bytes) {
            Sniff::Object => {
                let file = ObjectView::read(bytes)?;
                Ok(FileView::Object(file))
            }
            Sniff::Load | Sniff::Library | Sniff::Other => {
                let (file, size) = LoadView::read(bytes)?;
                let rest = (bytes.len() - size) as u64;
                Ok(FileView::Load { file, rest })
            }
        }
    }

    /// The number of bytes that follow the file.
    pub fn rest(&self) -> u64
        ensures { result ≡ bytes_after (file_of self.now) }
    {
        match self {
            FileView::Load { file: _, rest } => *rest,
            FileView::Object(_) => 0,
        }
    }

    /// Hands over the text of the file without its NAME, SYMBOL, DEBUG and ADVISORY blocks, in
    /// ranges of the input: each as long as it can be. It takes no memory.
    pub fn strip_with<T: TakesBytes>(&self, taker: &mut T)
        ensures { T.takes taker.old (file_bytes (stripped (file_of self.now))) taker.new }
    {
        match self {
            FileView::Load { file, rest: _ } => file.strip_with(taker),
            FileView::Object(file) => file.strip_with(taker),
        }
    }

    /// What stands in the file, in file order. It takes no memory.
    pub fn items(&self) -> Items<'a>
        ensures { result ≡ file_items (file_of self.now) }
    {
        match self {
            FileView::Load { file, rest: _ } => file.items(),
            FileView::Object(file) => file.items(),
        }
    }

    /// The file with its parts in lists.
    ///
    /// # Errors
    ///
    /// `OutOfMemory` at the last longword of the part for which no memory was found.
    pub(crate) fn keep(self, alloc: Global) -> Result<HunkFile<'a>, FileFault>
        ensures kept { IfOk result (λ file. file ≡ file_of self.entry) }
        ensures memory { IfErr result (λ fault. fault.reason ≡ reasons.OutOfMemory) }
        ensures place { IfErr result (λ fault.
            EndsAt (EndsFilePart (file_of self.entry)) 0 fault.place) }
    {
        match self {
            FileView::Load { file, rest } => {
                let file = file.keep(alloc)?;
                Ok(HunkFile::Load { file, rest })
            }
            FileView::Object(file) => {
                let file = file.keep(alloc)?;
                Ok(HunkFile::Object(file))
            }
        }
    }
}

/// The kind of file that the bytes look like, by the first longword alone.
///
/// Source: the block numbers of `dos/doshunks.h`.
pub fn sniff(bytes: &[u8]) -> Sniff
    ensures { result ≡ sniffed (longs bytes.now) }
{
    if bytes.len() < 4 {
        return Sniff::Other;
    }
    match word_at(bytes, 0) {
        HEADER_WORD => Sniff::Load,
        UNIT_WORD => Sniff::Object,
        LIBRARY_WORD => Sniff::Library,
        _ => Sniff::Other,
    }
}
