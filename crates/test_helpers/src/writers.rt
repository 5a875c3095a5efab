//! A writer that takes its time, and stops where it is told to.
ghost use Rattle.std.specs.Prelude.{◌≡◌, ◌≤◌};

use hunk_words::{FromWrite, LongWriter};
use std::io;
use std::io::Write;

/// How many bytes a `Narrow` can have at most.
pub const WIDTH: usize = 1_024;

/// A writer that takes `room` bytes in all and at most `step` at a time, and then fails, or takes
/// none. It needs no memory.
#[derive(Drop)]
pub struct Narrow {
    room: usize,
    step: usize,
    takes_none: bool,
    taken: [u8; WIDTH],
    count: usize,
    ghost below: { count ≤ 1024 },
}

impl Narrow {
    pub fn new(room: usize, step: usize, takes_none: bool) -> Narrow {
        Narrow {
            room,
            step,
            takes_none,
            taken: [0; WIDTH],
            count: 0,
        }
    }

    /// With room for this many bytes, and after them each write fails.
    pub fn failing(room: usize) -> Narrow {
        Narrow::new(room, WIDTH, false)
    }

    /// The bytes that it has taken.
    pub fn taken(&self) -> &[u8] {
        &self.taken[..self.count]
    }
}

/// What is put goes to a `Narrow` with room for all that it can have.
pub fn wide() -> LongWriter<FromWrite<Narrow>>
    ensures { result.written ≡ 0 }
{
    LongWriter::new(FromWrite::new(Narrow::failing(WIDTH)))
}

impl Write for Narrow {
    fn write(&mut self, bytes: &[u8]) -> io::Result<usize> {
        let left = self.room.min(WIDTH - self.count);
        if left == 0 && !self.takes_none {
            return Err(io::Error::from(io::ErrorKind::BrokenPipe));
        }
        let count = bytes.len().min(self.step).min(left);
        let end = self.count + count;
        self.taken[self.count..end].copy_from_slice(&bytes[..count]);
        self.count = end;
        self.room -= count;
        Ok(count)
    }

    fn flush(&mut self) -> io::Result<()> {
        Ok(())
    }
}
