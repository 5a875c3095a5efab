//! What a call answers.
ghost use Rattle.std.specs.Prelude.{◌≡◌};
ghost use Rattle.hunk_c.specs.Answers.{done, refused_hunk, no_room, refused, strange};

use hunk_words::{Fault, Reason};

/// What a call answers, `struct hunk_answer`: 24 bytes, with no padding.
#[repr(C)]
#[derive(Clone, Copy)]
pub struct Answer {
    pub number: u32,
    pub hunk: u32,
    pub place: u64,
    pub count: u64,
}

/// The number which says that the caller's array has too few elements.
pub(crate) const NO_ROOM: u32 = 32;

/// The number which says that the numbers of a loader are none that it may have.
pub(crate) const STRANGE: u32 = 33;

/// The answer of a refusal.
pub(crate) fn refused(fault: Fault) -> Answer
    ensures { result ≡ refused fault }
{
    Answer {
        number: u32::from(fault.reason.number()),
        hunk: refused_hunk(fault.reason),
        place: fault.place,
        count: 0,
    }
}

/// The hunk that a reason names; of most reasons, 0.
fn refused_hunk(reason: Reason) -> u32
    ensures { result ≡ refused_hunk reason }
{
    match reason {
        Reason::NoBase(hunk) => hunk,
        _ => 0,
    }
}

/// The answer where the caller's array is too small, and needs `count` elements.
pub(crate) fn no_room(hunks: u32, place: u64, count: u64) -> Answer
    ensures { result ≡ no_room hunks place count }
{
    Answer {
        number: NO_ROOM,
        hunk: hunks,
        place,
        count,
    }
}

/// The answer where all was done: how many bytes were read, and how much was written.
pub(crate) fn done(hunks: u32, read: u64, written: u64) -> Answer
    ensures { result ≡ done hunks read written }
{
    Answer {
        number: 0,
        hunk: hunks,
        place: read,
        count: written,
    }
}

/// The answer where the numbers of a loader are none that it may have.
pub(crate) fn strange() -> Answer
    ensures { result ≡ strange }
{
    Answer {
        number: STRANGE,
        hunk: 0,
        place: 0,
        count: 0,
    }
}
