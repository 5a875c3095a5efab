//! Load files that are read where they lie.
ghost use Rattle.std.specs.Prelude.{◌≡◌, ◌≢◌, ◌*◌, ◌^◌, ◌≤◌, IfOk, IfErr, IsTrue, length, take};
ghost use Rattle.hunk_words.specs.declared.reason.Reason.TheVariants as reasons;
ghost use Rattle.hunk_words.specs.Longs.{bytes_of};
ghost use Rattle.hunk_files.specs.LoadFile.{IsLoadFile};
ghost use Rattle.hunk_files.specs.Image.{declared_bytes};
ghost use Rattle.hunk_files.specs.LoadText.{table, text};
ghost use Rattle.hunk_files.specs.Fault.{BeginsWithLoadFile, HasFault, is_load_refusal};
ghost use Rattle.hunk_files.specs.FileParts.{IsPartAt};
ghost use Rattle.hunk_grammar.specs.declared.file_kind.Sniff.TheVariants.{Load};
ghost use Rattle.hunk_files.specs.Items.{load_items};
ghost use Rattle.hunk_files.specs.Lacks.{EndsAt, EndsLoadPart};
ghost use Rattle.hunk_files.specs.Tables.{header_text};

use crate::items::Items;
use crate::load::file::LoadFile;
use crate::load::hunk_views::LoadHunkViews;
use crate::load::table::TableIter;
use crate::load::walk::walk;
use crate::refusal::Refusal;
use hunk_grammar::{TABLE_AT, TABLE_SIZE_AT};
use hunk_words::{FileFault, SizeWord, word_at};
use std::alloc::Global;
use std::marker::Model;

/// A load file of the input, made by `read` alone, whose hunks are read as they are asked for. It
/// takes no memory. Contracts see it as its load-file value.
#[derive(Debug, Drop)]
pub struct LoadView<'a> {
    /// The input, up to the end of the file.
    pub(super) bytes: &'a [u8],
}

impl<'a> Model for LoadView<'a> {
    ghost use Rattle.hunk_words.specs.Longs.{longs};
    ghost use Rattle.hunk_files.specs.LoadFile.{LoadFileValue};
    ghost use Rattle.hunk_files.specs.Cuts.{load_cut};
    ghost use Rattle.hunk_files.specs.InPlace.{AreLoadFile};

    ghost Value = { LoadFileValue };

    ghost view = { λ s. (load_cut (longs s.bytes.now)).value };

    ghost invariant = { λ s. AreLoadFile s.bytes.now };
}

impl<'a> LoadView<'a> {
    /// The load file that the bytes begin with, and the number of its bytes. It ends with the END
    /// of its last hunk; what follows is not read.
    ///
    /// # Errors
    ///
    /// As `LoadFile::decode`, but never `OutOfMemory`, and with the part of the file.
    pub fn read(bytes: &'a [u8]) -> Result<(LoadView<'a>, usize), Refusal>
        ensures valid { IfOk result (λ r. IsLoadFile r.0) }
        ensures text { IfOk result (λ r. take r.1 bytes.entry.now ≡ bytes_of (text r.0)) }
        ensures inside { IfOk result (λ r. r.1 ≤ length bytes.entry.now) }
        ensures fault { IfErr result (λ r.
            HasFault bytes.entry.now r.fault.place r.fault.reason) }
        ensures part { IfErr result (λ r. IsPartAt Load bytes.entry.now r.fault.place r.part) }
        ensures none { IfErr result (λ r. BeginsWithLoadFile bytes.entry.now → ⊥) }
        ensures memory { IfErr result (λ r. r.fault.reason ≢ reasons.OutOfMemory) }
        ensures own_reasons { IfErr result (λ r. IsTrue (is_load_refusal r.fault.reason)) }
    {
        let size = walk(bytes)?;
        let file = &bytes[..size];
        Ok((LoadView { bytes: file }, size))
    }

    /// The number of hunks, from 1 to 65,536, `MOST_HUNKS`.
    pub fn hunks(&self) -> u32
        ensures value { result ≡ length self.now }
        ensures file { IsLoadFile self.now }
    {
        word_at(self.bytes, TABLE_SIZE_AT)
    }

    /// The entries of the table, one a hunk.
    pub fn table(&self) -> TableIter<'a>
        ensures value { result ≡ table self.now }
        ensures file { IsLoadFile self.now }
    {
        TableIter {
            rest: &self.bytes[4 * TABLE_AT..],
            left: self.hunks(),
        }
    }

    /// The hunks in turn.
    pub fn iter(&self) -> LoadHunkViews<'a>
        ensures value { result.value ≡ self.now }
        ensures place { result.place ≡ 4 * length (header_text self.now) }
        ensures file { IsLoadFile self.now }
    {
        LoadHunkViews {
            table: self.table(),
            bytes: self.bytes,
            at: self.body(),
        }
    }

    /// What stands in the file: each hunk, and its blocks.
    pub fn items(&self) -> Items<'a>
        ensures { result ≡ load_items self.now }
    {
        Items::at(self.bytes, self.body())
    }

    /// The byte after the table, at which the blocks of the first hunk begin.
    #[tactic(auto, using(crate::proofs::cuts::TableReading::header_size))]
    pub(super) fn body(&self) -> usize
        ensures { result ≡ 4 * length (header_text self.now) }
    {
        let mut at = TABLE_AT;
        'entries: for size in self.table() {
            at += SizeWord::entry_longs(size.word);
        }
        4 * at
    }

    /// The number of bytes that the table declares, all hunks together.
    pub fn total(&self) -> u64
        ensures value { result ≡ declared_bytes (table self.now) }
        ensures bound { result ≤ 2 ^ 48 }
    {
        let mut sum = 0;
        'entries: for size in self.table() {
            sum += size.bytes();
        }
        sum
    }

    /// The file with its hunks in a list.
    ///
    /// # Errors
    ///
    /// `OutOfMemory` at the last longword of the part of a hunk for which no memory was found.
    #[tactic(auto, using(crate::proofs::keeping::LoadKeeping::load_lacks))]
    pub(crate) fn keep(self, alloc: Global) -> Result<LoadFile<'a>, FileFault>
        ensures kept { IfOk result (λ file. file ≡ self.entry) }
        ensures memory { IfErr result (λ fault. fault.reason ≡ reasons.OutOfMemory) }
        ensures place { IfErr result (λ fault. EndsAt (EndsLoadPart self.entry) 0 fault.place) }
    {
        let hunks = self.iter().keep(alloc)?;
        Ok(LoadFile { hunks, view: self })
    }
}
