//! Object files.
ghost use Rattle.std.specs.Prelude.{◌≡◌, ◌≢◌, ◌^◌, ◌<◌, IfErr, IfOk, IsTrue, length};
ghost use Rattle.hunk_words.specs.Longs.{bytes_of};
ghost use Rattle.hunk_words.specs.declared.reason.Reason.TheVariants as reasons;
ghost use Rattle.hunk_words.specs.Prints.{Prints};
ghost use Rattle.hunk_words.specs.Puts.{PutsText};
ghost use Rattle.hunk_files.specs.ObjectFile.{IsNoObjectFile, is_object_refusal, IsObjectFile, object_text};
ghost use Rattle.hunk_files.specs.ObjectFault.{HasObjectFault};
ghost use Rattle.hunk_files.specs.Lacks.{LacksObjectPart};
ghost use Rattle.hunk_files.specs.Findings.{findings};

use crate::object::check::Finding;
use crate::object::unit::{Unit, print_unit};
use crate::object::view::ObjectView;
use crate::takes::Takes;
use hunk_words::{FileFault, LongWriter, Printer, Sink, WriteFault};
use std::alloc::Global;
use std::marker::Model;

/// An object file, read from bytes. Contracts see it as the list of its units.
#[derive(Debug, Drop)]
pub struct ObjectFile<'a> {
    pub(super) units: Vec<Unit<'a>>,
    /// The file that was read, in which the same is found: stripping leaves alone what is checked.
    pub(super) view: ObjectView<'a>,
}

impl<'a> Model for ObjectFile<'a> {
    ghost use Rattle.std.specs.Prelude.{◌≡◌};
    ghost use Rattle.hunk_files.specs.ObjectFile.{ObjectFileValue, IsObjectFile};
    ghost use Rattle.hunk_files.specs.Findings.{findings};

    ghost Value = { ObjectFileValue };

    ghost view = { λ s. s.units.items };

    ghost invariant = { λ s.
        IsObjectFile s.units.items × (findings s.units.items ≡ findings s.view) };
}

impl<'a> ObjectFile<'a> {
    /// The object file that the bytes are, from the first to the last.
    ///
    /// Targets and offsets are not tested; `check` lists what is wrong with them. No memory is asked
    /// for before the file was seen to be whole.
    ///
    /// Source: The AmigaDOS Manual, 3rd edition, Amiga binary file structure, and `dos/doshunks.h`.
    ///
    /// # Errors
    ///
    /// The longwords are tested in file order, each when it is whole, and the first that is
    /// refused is answered, at its first byte, counted from the start of the input:
    ///
    /// - a block word with both memory bits (`BothBits`), OVERLAY (`Overlay`), BREAK (`Break`),
    ///   short relocations (`ShortReloc`), library hunks (`Library`), an unknown block without the
    ///   advisory flag (`UnknownBlock`);
    /// - HEADER, a UNIT with a flag or inside a hunk, and anything else before the first UNIT
    ///   (`Misplaced`);
    /// - a second content block (`SecondContent`), a relocation kind or EXT before the content
    ///   block (`BeforeContent`), END before it (`NoContent`);
    /// - the count of a UNIT or NAME with a top byte that is not 0 (`NameWord`), and an EXT word
    ///   with a type that is not accepted (`ExtKind`).
    ///
    /// `Truncated` is answered where the input ends while no unit has begun, inside a block, while
    /// a hunk is open or with 1 to 3 bytes over, at 4 times the number of whole longwords.
    /// `OutOfMemory` is answered where memory is refused for the groups or entries of a block, a
    /// block, a hunk or a unit, at the last longword of what was to be kept. The bytes are an object
    /// file then, so it hides no fault.
    pub fn decode(alloc: Global, bytes: &'a [u8]) -> Result<ObjectFile<'a>, FileFault>
        ensures file { IfOk result (λ o. IsObjectFile o) }
        ensures text { IfOk result (λ o. bytes.entry.now ≡ bytes_of (object_text o)) }
        ensures none { IfErr result
            (λ fault. fault.reason ≢ reasons.OutOfMemory → IsNoObjectFile bytes.entry.now) }
        ensures fault { IfErr result (λ fault. fault.reason ≢ reasons.OutOfMemory →
            HasObjectFault bytes.entry.now fault.place fault.reason) }
        ensures memory { IfErr result (λ fault. fault.reason ≡ reasons.OutOfMemory →
            LacksObjectPart bytes.entry.now fault.place) }
        ensures own_reasons { IfErr result (λ fault. IsTrue (is_object_refusal fault.reason)) }
    {
        ObjectView::read(bytes)?.keep(alloc)
    }

    /// The units, in file order. There is at least one.
    pub fn units(&self) -> &[Unit<'a>]
        ensures value { result.now ≡ self.now }
        ensures file { IsObjectFile self.now }
    {
        self.units.as_slice()
    }

    /// Hands over what is wrong with the offsets of all relocations and external references, as
    /// `ObjectView::check_with` does. It takes no memory.
    pub fn check_with<T: Takes<Finding>>(&self, taker: &mut T)
        ensures taken { T.takes taker.old (findings self.now) taker.new }
        ensures few { length (findings self.now) < 2 ^ 64 }
    {
        let _units = self.view.check_with(taker);
    }

    /// Writes the file's text.
    ///
    /// It goes out by pages, and takes no memory.
    ///
    /// # Errors
    ///
    /// A `WriteFault` where the writer's sink failed, now or before: just the first `written`
    /// bytes of all that was ever put have gone out. Later puts write nothing and answer the same.
    /// A writer that had failed before stays as it was.
    pub fn encode<W: Sink>(&self, writer: &mut LongWriter<W>) -> Result<(), WriteFault>
        ensures { PutsText W.outlet writer.old writer.new
            (bytes_of (object_text self.now)) result }
    {
        let mut page = Printer::new(writer);
        print_units(&mut page, self.units());
        let result = page.flush();
        let _out = page.into_inner();
        result
    }
}

/// The units, one after the other.
fn print_units<W: Sink>(page: &mut Printer<'_, W>, units: &[Unit<'_>])
    ensures { Prints page.old page.new (bytes_of (object_text units.now)) }
{
    'writing: for unit in units {
        print_unit(page, unit);
    }
}
