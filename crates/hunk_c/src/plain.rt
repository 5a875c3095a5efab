//! Load files in other spellings: their plain spelling, and what they have otherwise.
ghost use Rattle.std.specs.Prelude.{◌≡◌, ◌*◌, ◌≤◌, length};
ghost use Rattle.hunk_wide.specs.Plain.{plain};
ghost use Rattle.hunk_wide.specs.Places.{place_of};
ghost use Rattle.hunk_c.specs.Plains.{Plains, spelling};

use crate::answer::{Answer, done, no_room};
use hunk_wide::{NoRoom, place_in, spelling_of, write_plain};

/// How an input spells its file, `struct hunk_spelling`: 32 bytes, with no padding.
#[repr(C)]
#[derive(Clone, Copy)]
pub struct SpellingRow {
    pub bytes: u64,
    pub short_blocks: u64,
    pub ends: u64,
    pub reserved: u64,
}

/// Tells how the input spells its file.
#[unsafe(no_mangle)]
pub extern "C" fn hunk_spelling_of(bytes: &[u8]) -> SpellingRow
    ensures value { result ≡ spelling bytes.now }
    ensures same { result.short_blocks ≡ 0 → result.ends ≡ 0 → plain bytes.now ≡ bytes.now }
    ensures bound { result.bytes ≤ 2 * length bytes.now }
{
    let spelling = spelling_of(bytes);
    SpellingRow {
        bytes: spelling.len,
        short_blocks: spelling.short_blocks,
        ends: spelling.ends,
        reserved: 0,
    }
}

/// Writes the plain spelling of the input to the front of the text.
#[unsafe(no_mangle)]
pub extern "C" fn hunk_plain(bytes: &[u8], text: &mut [u8]) -> Answer
    ensures outcome { Plains bytes.now text.old text.new result }
    ensures succeeds { length (plain bytes.now) ≤ length text.old → result.number ≡ 0 }
{
    let read = bytes.len() as u64;
    match write_plain(bytes, text) {
        Ok(count) => done(0, read, count as u64),
        Err(NoRoom { needed }) => no_room(0, read, needed),
    }
}

/// Tells at which byte of the input a byte of its plain spelling stands.
#[unsafe(no_mangle)]
pub extern "C" fn hunk_input_place(bytes: &[u8], place: u64) -> u64
    ensures value { result ≡ place_of bytes.now place }
    ensures inside { result ≤ length bytes.now }
    ensures behind { length (plain bytes.now) ≤ place → result ≡ length bytes.now }
{
    place_in(bytes, place)
}
