//! Load files, each hunk loaded to its own place of one memory.
ghost use Rattle.std.specs.Prelude.{◌≡◌, ◌≤◌, ◌<◌, ◌^◌, ℕ, List, length, slice_get, take, IfErr, OnOk};
ghost use Rattle.hunk_files.specs.LoadFile.{TableEntry};
ghost use Rattle.hunk_files.specs.LoadText.{table};
ghost use Rattle.hunk_scatter.specs.HeaderBytes.{BeginsWithHeader};
ghost use Rattle.hunk_scatter.specs.Placing.{AreBases, IsFirstUnplaced};
ghost use Rattle.hunk_c.specs.Loads.{AreBasesOf};
ghost use Rattle.hunk_c.specs.LoadsAt.{HasHunks, LoadsAt, LoadsWhatIsPlaced, base_in, lies_in, placed_in};
ghost use Rattle.hunk_c.specs.Tables.{BeginsWithTableOf};

use crate::answer::{Answer, done, refused};
use crate::load::no_base;
use crate::packed::{END, RowPlace, next_row};
use hunk_files::LoadView;
use hunk_grammar::TABLE_AT;
use hunk_scatter::stream::header_size;

/// Loads the load file that the bytes begin with, each hunk for the base of its number in `bases`,
/// to its own place of the memory, whose first byte has the address `start`.
///
/// The file is read to its end before the first byte of the memory is written.
#[unsafe(no_mangle)]
pub extern "C" fn hunk_load_at(bytes: &[u8], bases: &[u32], start: u32, memory: &mut [u8]) -> Answer
    ensures outcome { LoadsAt (placed_in start (length memory.old) bases.now)
        start bytes.now memory.old memory.new result }
    ensures succeeds { LoadsWhatIsPlaced (placed_in start (length memory.old) bases.now)
        bytes.now result }
{
    let size = match header_size(bytes, u64::MAX) {
        Ok(size) => size,
        Err(none) => return refused(none.fault),
    };
    if let Err(hunk) = find_places(bytes, size.hunks, bases, start, memory.len()) {
        return no_base(size.bytes, hunk);
    }
    let (file, read) = match LoadView::read(bytes) {
        Ok(found) => found,
        Err(refusal) => return refused(refusal.fault),
    };
    put_hunks(&file, &bases[..size.hunks as usize], start, memory);
    done(size.hunks, read as u64, size.declared)
}

/// Finds a base for each hunk of the table of the header that the bytes begin with, at which it
/// lies in a memory of `room` bytes from the address `start` on.
///
/// # Errors
///
/// The first hunk that has none.
fn find_places(bytes: &[u8], hunks: u32, bases: &[u32], start: u32, room: usize) -> Result<(), u32>
    requires table { BeginsWithTableOf hunks bytes.now }
    ensures placed { OnOk result
        (AreBasesOf (placed_in start room bases.now) bytes.now (take hunks bases.now)) }
    ensures enough { OnOk result (hunks ≤ length bases.now) }
    ensures unplaced { IfErr result (λ hunk. (t : List TableEntry) → BeginsWithHeader bytes.now t
        → IsFirstUnplaced (placed_in start room bases.now) t hunk) }
{
    let mut place = RowPlace {
        longword: TABLE_AT,
        base: 0,
    };
    'placing: for hunk in 0..hunks {
        let after = next_row(bytes, place);
        let size = after.base - place.base;
        if base_in(bases, hunk, start, room, size).is_none() {
            return Err(hunk);
        }
        place = after;
    }
    Ok(())
}

/// The base of the hunk, where it has one, and its bytes, so many, lie in the memory there.
fn base_in(bases: &[u32], hunk: u32, start: u32, room: usize, size: u64) -> Option<u32>
    requires size { size < 2 ^ 32 }
    ensures { result ≡ base_in start room size (slice_get bases.now hunk) }
{
    let base = bases.get(hunk as usize).copied();
    base.filter(|&base| lies_in(start, room, size, base))
}

/// Whether bytes of this size lie in the memory from the base on, and below the address 2^32.
fn lies_in(start: u32, room: usize, size: u64, base: u32) -> bool
    requires size { size < 2 ^ 32 }
    ensures { result ≡ lies_in start room size base }
{
    let end = u64::from(base) + size;
    start <= base && end - u64::from(start) <= room as u64 && end <= END
}

/// Writes each hunk to its place of the memory, one after the other.
fn put_hunks(file: &LoadView<'_>, bases: &[u32], start: u32, memory: &mut [u8])
    requires bases { (listed : List ℕ)
        × AreBases (placed_in start (length memory.old) listed) (table file.now) bases.now }
    ensures { HasHunks start bases.now file.now memory.old memory.new }
{
    // The number of hunks has 32 bits, so they can be numbered.
    let _count = file.hunks();
    let mut hunks = file.iter();
    let mut bases = bases;
    let mut number = 0;
    'putting: for size in file.table() {
        let at = (bases[number] - start) as usize;
        let end = at + size.bytes() as usize;
        hunks.fill_next(&mut memory[at..end], &mut bases);
        number += 1;
    }
}
