//! Load files, loaded into the caller's memory.
ghost use Rattle.std.specs.Prelude.{◌≡◌, ◌≤◌, ◌-◌, ◌*◌, ◌^◌, length, IfOk, IfErr};
ghost use Rattle.hunk_words.specs.declared.reason.Reason.TheVariants as reasons;
ghost use Rattle.hunk_scatter.specs.HeaderSizes.{HasHeaderSize};
ghost use Rattle.hunk_scatter.specs.Placing.{Placing, listed_in, packed_from};
ghost use Rattle.hunk_c.specs.Answers.{refused};
ghost use Rattle.hunk_c.specs.Loads.{AreBasesOf, IsNotLoaded, Loads, LoadsWhatFits};
ghost use Rattle.hunk_c.specs.Packs.{hunks_a_mark};

use crate::answer::{Answer, done, no_room, refused};
use crate::packed::{FEW_MARKS, HUNKS_A_MARK, MARKS, Mark, PackedBases, place_marks};
use hunk_files::{Bases, LoadView};
use hunk_scatter::stream::{HeaderSize, header_size};
use hunk_words::{Fault, Reason};

/// Loads the load file that the bytes begin with, each hunk for the base of its number in `bases`.
///
/// The file is read to its end before the first byte of the memory is written.
#[unsafe(no_mangle)]
pub extern "C" fn hunk_load(bytes: &[u8], bases: &[u32], memory: &mut [u8]) -> Answer
    ensures outcome { Loads (listed_in bases.now) bytes.now memory.old memory.new result }
    ensures succeeds { LoadsWhatFits (listed_in bases.now) (length memory.old) bytes.now result }
{
    let size = match fitting_header(bytes, memory.len()) {
        Ok(size) => size,
        Err(answer) => return answer,
    };
    let hunks = size.hunks as usize;
    if bases.len() < hunks {
        return no_base(size.bytes, bases.len() as u32);
    }
    let mut bases = &bases[..hunks];
    load_at(bytes, size, memory, &mut bases)
}

/// The same for hunks one right after the other from `base` on, as they then lie in the memory.
#[unsafe(no_mangle)]
pub extern "C" fn hunk_load_packed(bytes: &[u8], base: u32, memory: &mut [u8]) -> Answer
    ensures outcome { Loads (packed_from base) bytes.now memory.old memory.new result }
    ensures succeeds { LoadsWhatFits (packed_from base) (length memory.old) bytes.now result }
{
    let size = match fitting_header(bytes, memory.len()) {
        Ok(size) => size,
        Err(answer) => return answer,
    };
    if size.hunks as usize <= HUNKS_A_MARK * FEW_MARKS {
        return load_few(bytes, size, base, memory);
    }
    load_many(bytes, size, base, memory)
}

/// Loads the file that the bytes begin with, which has few hunks, one right after the other from
/// `base` on. Only so many marks are cleared.
#[inline(never)]
fn load_few(bytes: &[u8], size: HeaderSize, base: u32, memory: &mut [u8]) -> Answer
    requires size { HasHeaderSize (2 ^ 64 - 1) bytes.now size }
    requires room { size.declared ≤ length memory.old }
    requires few { size.hunks ≤ 16 * hunks_a_mark }
    ensures { Loads (packed_from base) bytes.now memory.old memory.new result }
{
    let mut marks = [Mark::NONE; FEW_MARKS];
    load_marked(&mut marks, bytes, size, base, memory)
}

/// The same for a file of any number of hunks.
#[inline(never)]
fn load_many(bytes: &[u8], size: HeaderSize, base: u32, memory: &mut [u8]) -> Answer
    requires size { HasHeaderSize (2 ^ 64 - 1) bytes.now size }
    requires room { size.declared ≤ length memory.old }
    ensures { Loads (packed_from base) bytes.now memory.old memory.new result }
{
    let mut marks = [Mark::NONE; MARKS];
    load_marked(&mut marks, bytes, size, base, memory)
}

/// The same by these marks, whatever they were.
fn load_marked(
    marks: &mut [Mark],
    bytes: &[u8],
    size: HeaderSize,
    base: u32,
    memory: &mut [u8],
) -> Answer
    requires size { HasHeaderSize (2 ^ 64 - 1) bytes.now size }
    requires room { size.declared ≤ length memory.old }
    requires marks { size.hunks ≤ hunks_a_mark * length marks.old }
    ensures { Loads (packed_from base) bytes.now memory.old memory.new result }
{
    let short = match place_marks(marks, bytes, size.hunks, base) {
        Ok(short) => short,
        Err(hunk) => return no_base(size.bytes, hunk),
    };
    let mut bases = PackedBases::by(marks, bytes, size.hunks, base, short);
    load_at(bytes, size, memory, &mut bases)
}

/// The answer where a hunk has no base.
pub(crate) fn no_base(header: u64, hunk: u32) -> Answer
    ensures { result ≡ refused (record { place = header; reason = reasons.NoBase hunk }) }
{
    refused(Fault {
        place: header,
        reason: Reason::NoBase(hunk),
    })
}

/// The size of the header that the bytes begin with, whose hunks fit into `room` bytes; or what a
/// load answers where there is none, or they do not.
fn fitting_header(bytes: &[u8], room: usize) -> Result<HeaderSize, Answer>
    ensures size { IfOk result (HasHeaderSize (2 ^ 64 - 1) bytes.now) }
    ensures fits { IfOk result (λ size. size.declared ≤ room) }
    ensures not_loaded { IfErr result
        (λ answer. (base : Placing) → IsNotLoaded base room bytes.now answer) }
{
    let size = match header_size(bytes, u64::MAX) {
        Ok(size) => size,
        Err(none) => return Err(refused(none.fault)),
    };
    if size.declared > room as u64 {
        return Err(no_room(size.hunks, size.bytes, size.declared));
    }
    Ok(size)
}

/// Loads the file that the bytes begin with, each hunk for its base.
fn load_at<B: Bases>(bytes: &[u8], size: HeaderSize, memory: &mut [u8], bases: &mut B) -> Answer
    requires size { HasHeaderSize (2 ^ 64 - 1) bytes.now size }
    requires room { size.declared ≤ length memory.old }
    requires count { length (B.bases bases.old) ≡ size.hunks }
    ensures { (base : Placing) → AreBasesOf base bytes.now (B.bases bases.old)
        → Loads base bytes.now memory.old memory.new result }
{
    let (file, read) = match LoadView::read(bytes) {
        Ok(found) => found,
        Err(refusal) => return refused(refusal.fault),
    };
    file.fill_images(&mut memory[..size.declared as usize], bases);
    done(size.hunks, read as u64, size.declared)
}
