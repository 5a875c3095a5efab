//! An object file, read where it lies.
ghost use Rattle.std.specs.Prelude.{◌≡◌, ◌≢◌, ◌*◌, ◌^◌, ◌<◌, IfErr, IfOk, IsTrue, length};
ghost use Rattle.hunk_words.specs.Longs.{bytes_of};
ghost use Rattle.hunk_words.specs.declared.reason.Reason.TheVariants as reasons;
ghost use Rattle.hunk_files.specs.ObjectFile.{IsNoObjectFile, IsObjectFile, is_object_refusal, object_text};
ghost use Rattle.hunk_files.specs.FileParts.{IsPartAt};
ghost use Rattle.hunk_files.specs.ObjectFault.{HasObjectFault};
ghost use Rattle.hunk_grammar.specs.declared.file_kind.Sniff.TheVariants.{Object};
ghost use Rattle.hunk_files.specs.Items.{object_items};
ghost use Rattle.hunk_files.specs.Lacks.{EndsAt, EndsObjectPart};

use crate::items::{Item, Items};
use crate::object::file::ObjectFile;
use crate::object::keeping::keep_units;
use crate::object::walk::walk_object;
use crate::refusal::Refusal;
use hunk_words::FileFault;
use std::alloc::Global;
use std::marker::Model;

/// An object file, as it lies in the input, read without memory. Contracts see it as the list of
/// its units.
#[derive(Debug, Drop)]
pub struct ObjectView<'a> {
    pub(super) bytes: &'a [u8],
}

impl<'a> Model for ObjectView<'a> {
    ghost use Rattle.hunk_files.specs.ObjectFile.{AreObjectFile, ObjectFileValue};
    ghost use Rattle.hunk_files.specs.ObjectViews.{units_of};

    ghost Value = { ObjectFileValue };

    ghost view = { λ s. units_of s.bytes.now };

    ghost invariant = { λ s. AreObjectFile s.bytes.now };
}

impl<'a> ObjectView<'a> {
    /// The object file that the bytes are, from the first to the last, read where it lies.
    ///
    /// It takes no memory. Targets and offsets are not tested.
    ///
    /// # Errors
    ///
    /// The first fault of the bytes, as of `ObjectFile::decode`, and the part of the file.
    pub fn read(bytes: &'a [u8]) -> Result<ObjectView<'a>, Refusal>
        ensures file { IfOk result (λ o. IsObjectFile o) }
        ensures text { IfOk result (λ o. bytes.entry.now ≡ bytes_of (object_text o)) }
        ensures none { IfErr result (λ r. IsNoObjectFile bytes.entry.now) }
        ensures fault { IfErr result (λ r.
            HasObjectFault bytes.entry.now r.fault.place r.fault.reason) }
        ensures part { IfErr result (λ r. IsPartAt Object bytes.entry.now r.fault.place r.part) }
        ensures memory { IfErr result (λ r. r.fault.reason ≢ reasons.OutOfMemory) }
        ensures own_reasons { IfErr result (λ r. IsTrue (is_object_refusal r.fault.reason)) }
    {
        walk_object(bytes)?;
        Ok(ObjectView { bytes })
    }

    /// How many units there are, for which the file is passed over. There is at least one.
    pub fn units(&self) -> u64
        ensures value { result ≡ length self.now }
        ensures file { IsObjectFile self.now }
    {
        let mut units = 0;
        'counting: for item in self.items() {
            if let Item::Unit { .. } = item {
                units += 1;
            }
        }
        units
    }

    /// What stands in the file: each unit, its hunks, and their blocks.
    pub fn items(&self) -> Items<'a>
        ensures value { result ≡ object_items self.now }
        ensures size { 4 * length (object_text self.now) < 2 ^ 64 }
        ensures file { IsObjectFile self.now }
    {
        Items::at(self.bytes, 0)
    }

    /// The file with its units in a list.
    ///
    /// # Errors
    ///
    /// `OutOfMemory` at the last longword of the part for which no memory was found.
    pub(crate) fn keep(self, alloc: Global) -> Result<ObjectFile<'a>, FileFault>
        ensures kept { IfOk result (λ o. o ≡ self.entry) }
        ensures memory { IfErr result (λ fault. fault.reason ≡ reasons.OutOfMemory) }
        ensures place { IfErr result (λ fault.
            EndsAt (EndsObjectPart self.entry) 0 fault.place) }
    {
        let units = keep_units(alloc, self.bytes)?;
        Ok(ObjectFile { units, view: self })
    }
}
