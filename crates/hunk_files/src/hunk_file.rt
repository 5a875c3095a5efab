//! A load file or an object file, as its first longword announces.
ghost use Rattle.std.specs.Prelude.{◌≡◌, ◌≢◌, ◌≤◌, IfErr, IfOk, length};
ghost use Rattle.hunk_words.specs.Longs.{longs};
ghost use Rattle.hunk_words.specs.Puts.{PutsText};
ghost use Rattle.hunk_words.specs.declared.reason.Reason.TheVariants as reasons;
ghost use Rattle.hunk_grammar.specs.FileKind.{sniffed};
ghost use Rattle.hunk_files.specs.HunkFile.{AreFile, IsFileOf, IsMemory, IsRefusal, bytes_after, file_bytes, stripped};

use crate::file_view::FileView;
use crate::load::LoadFile;
use crate::object::ObjectFile;
use hunk_words::{FileFault, LongWriter, Sink, WriteFault};
use std::alloc::Global;

/// A file of either kind, as `decode` makes it.
#[derive(Debug, Drop)]
pub enum HunkFile<'a> {
    /// A load file, and the number of bytes that follow it.
    Load { file: LoadFile<'a>, rest: u64 },
    /// An object file, which all of the bytes are.
    Object(ObjectFile<'a>),
}

impl<'a> HunkFile<'a> {
    /// The file that the bytes are, or begin with.
    ///
    /// Where `sniff` answers `Object` it is the object file that all of the bytes are; whatever
    /// else it answers, it is the load file that they begin with.
    ///
    /// # Errors
    ///
    /// The fault that `ObjectFile::decode` or `LoadFile::decode` answers, with its place in bytes
    /// from the start of the input.
    pub fn decode(alloc: Global, bytes: &'a [u8]) -> Result<HunkFile<'a>, FileFault>
        ensures file { IfOk result (IsFileOf bytes.entry.now) }
        ensures none { IfErr result (λ fault. fault.reason ≢ reasons.OutOfMemory →
            AreFile bytes.entry.now → ⊥) }
        ensures refused { IfErr result (λ fault. fault.reason ≢ reasons.OutOfMemory →
            IsRefusal (sniffed (longs bytes.entry.now)) bytes.entry.now fault) }
        ensures memory { IfErr result (λ fault. fault.reason ≡ reasons.OutOfMemory →
            IsMemory (sniffed (longs bytes.entry.now)) bytes.entry.now fault.place) }
    {
        FileView::read(bytes)?.keep(alloc)
    }

    /// The number of bytes that follow the file.
    pub fn rest(&self) -> u64
        ensures { result ≡ bytes_after self.now }
    {
        match self {
            HunkFile::Load { file: _, rest } => *rest,
            HunkFile::Object(_) => 0,
        }
    }

    /// The file without its NAME, SYMBOL, DEBUG and ADVISORY blocks.
    ///
    /// It takes no memory.
    pub fn strip(self) -> HunkFile<'a>
        ensures value { result ≡ stripped self.entry }
        ensures shorter { length (file_bytes result) ≤ length (file_bytes self.entry) }
    {
        match self {
            HunkFile::Load { file, rest } => HunkFile::Load {
                file: file.strip(),
                rest,
            },
            HunkFile::Object(file) => HunkFile::Object(file.strip()),
        }
    }

    /// Writes the file's text, without what follows the file.
    ///
    /// It goes out by pages, and takes no memory.
    ///
    /// # Errors
    ///
    /// A `WriteFault` where the writer's sink failed, now or before: just the first `written` bytes
    /// of all that was ever put have gone out. Later puts write nothing and answer the same. A
    /// writer that had failed before stays as it was.
    pub fn encode<W: Sink>(&self, writer: &mut LongWriter<W>) -> Result<(), WriteFault>
        ensures { PutsText W.outlet writer.old writer.new (file_bytes self.now) result }
    {
        match self {
            HunkFile::Load { file, rest: _ } => file.encode(writer),
            HunkFile::Object(file) => file.encode(writer),
        }
    }
}
