//! The units and hunks of an object file that are kept in lists.
ghost use Rattle.std.specs.Prelude.{◌≡◌, ◌+◌, ◌*◌, IfErr, IfOk, length};
ghost use Rattle.std.specs.List.{flat_map};
ghost use Rattle.hunk_words.specs.declared.reason.Reason.TheVariants as reasons;
ghost use Rattle.hunk_files.specs.Hunks.{block_texts};
ghost use Rattle.hunk_files.specs.Lacks.{EndsAt, EndsHunkPart, EndsObjectPart, Within};
ghost use Rattle.hunk_files.specs.ObjectViews.{HunksAt, UnitsAt, hunks_at, units_of};

use crate::blocks::{BlockViews, keep_blocks};
use crate::object::unit::{Hunk, Unit};
use crate::object::unit_end::ends_unit;
use crate::object::unit_view::read_header;
use crate::out_of_memory::out_of_memory;
use hunk_blocks::append;
use hunk_words::FileFault;
use std::alloc::Global;

/// The units that the bytes are, in a list.
///
/// # Errors
///
/// `OutOfMemory` at the last longword of the part of a unit for which no memory was found.
pub(super) fn keep_units<'a>(alloc: Global, bytes: &'a [u8]) -> Result<Vec<Unit<'a>>, FileFault>
    requires { UnitsAt bytes.now 0 }
    ensures kept { IfOk result (λ units. units.items ≡ units_of bytes.entry.now) }
    ensures memory { IfErr result (λ fault. fault.reason ≡ reasons.OutOfMemory) }
    ensures place { IfErr result (λ fault.
        EndsAt (EndsObjectPart (units_of bytes.entry.now)) 0 fault.place) }
{
    let mut units = Vec::new(alloc);
    let mut at = 0;
    'keeping: while at < bytes.len() {
        let (name, start) = read_header(bytes, at);
        let (hunks, end) = keep_hunks(alloc, bytes, start)?;
        at = end;
        if units.push(Unit { name, hunks }).is_err() {
            return Err(out_of_memory(at));
        }
    }
    Ok(units)
}

/// The hunks that stand from this byte on, up to the end of their unit, in a list, and the byte
/// after them.
///
/// # Errors
///
/// `OutOfMemory` at the last longword of the part of a hunk for which no memory was found.
fn keep_hunks<'a>(
    alloc: Global,
    bytes: &'a [u8],
    start: usize,
) -> Result<(Vec<Hunk<'a>>, usize), FileFault>
    requires { HunksAt bytes.now start }
    ensures kept { IfOk result (λ r. r.0.items ≡ (hunks_at bytes.entry.now start).value) }
    ensures end { IfOk result (λ r. r.1
        ≡ start + 4 * length (flat_map block_texts (hunks_at bytes.entry.now start).value)) }
    ensures memory { IfErr result (λ fault. fault.reason ≡ reasons.OutOfMemory) }
    ensures place { IfErr result (λ fault. EndsAt
        (Within block_texts EndsHunkPart (hunks_at bytes.entry.now start).value) start
        fault.place) }
{
    let mut hunks = Vec::new(alloc);
    let mut at = start;
    'keeping: while !ends_unit(&bytes[at..]) {
        let mut views = BlockViews::at(bytes, at);
        let blocks = keep_blocks(alloc, &mut views)?;
        at = views.place() as usize;
        if append(&mut hunks, Hunk { blocks }).is_err() {
            return Err(out_of_memory(at));
        }
    }
    Ok((hunks, at))
}
