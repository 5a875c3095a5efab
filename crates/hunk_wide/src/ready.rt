//! Bytes that are ready to be given out.
ghost use Rattle.std.specs.Prelude.{◌≡◌, ◌==◌, ◌≤◌, ◌<◌, [], ◌∷◌, ◌++◌, length, take};
ghost use Rattle.std.specs.Prelude.{min};

use std::marker::Model;

/// Up to eight bytes that are ready to be given out. Contracts see them.
#[derive(Drop)]
pub(crate) struct Ready {
    bytes: [u8; 8],
    from: usize,
    to: usize,
}

impl Model for Ready {
    ghost use Rattle.std.specs.Prelude.{List, ℕ, ◌≤◌, slice_range};

    ghost Value = { List ℕ };

    ghost view = { λ s. slice_range s.bytes s.from s.to };

    ghost invariant = { λ s. (s.from ≤ s.to) × (s.to ≤ 8) };
}

impl Ready {
    /// No byte.
    pub(crate) fn none() -> Ready
        ensures { result ≡ [] }
    {
        Ready {
            bytes: [0; 8],
            from: 0,
            to: 0,
        }
    }

    /// This one.
    pub(crate) fn one(byte: u8) -> Ready
        ensures { result ≡ byte ∷ [] }
    {
        Ready {
            bytes: [byte, 0, 0, 0, 0, 0, 0, 0],
            from: 0,
            to: 1,
        }
    }

    /// These four.
    pub(crate) fn four(four: [u8; 4]) -> Ready
        ensures { result ≡ four }
    {
        Ready {
            bytes: [four[0], four[1], four[2], four[3], 0, 0, 0, 0],
            from: 0,
            to: 4,
        }
    }

    /// These eight.
    pub(crate) fn eight(front: [u8; 4], back: [u8; 4]) -> Ready
        ensures { result ≡ front ++ back }
    {
        Ready {
            bytes: [
                front[0], front[1], front[2], front[3], back[0], back[1], back[2], back[3],
            ],
            from: 0,
            to: 8,
        }
    }

    /// The word of a short block, and two bytes after it.
    pub(crate) fn six(high: u8, low: u8) -> Ready
        ensures { result ≡ 0 ∷ 0 ∷ 3 ∷ 0xFC ∷ high ∷ low ∷ [] }
    {
        Ready {
            bytes: [0, 0, 3, 0xFC, high, low, 0, 0],
            from: 0,
            to: 6,
        }
    }

    /// The first of these.
    pub(crate) fn some(bytes: [u8; 4], count: usize) -> Ready
        requires { count ≤ 4 }
        ensures { result ≡ take count bytes }
    {
        Ready {
            bytes: [bytes[0], bytes[1], bytes[2], bytes[3], 0, 0, 0, 0],
            from: 0,
            to: count,
        }
    }

    /// Whether there is none. There are never more than 8.
    pub(crate) fn is_empty(&self) -> bool
        ensures value { result ≡ (length self.now == 0) }
        ensures few { length self.now ≤ 8 }
    {
        self.from == self.to
    }

    /// Gives out as many as fit, and their number.
    pub(crate) fn give(&mut self, buf: &mut [u8]) -> usize
        ensures number { result ≡ min (length self.old) (length buf.old) }
        ensures rest { result < length buf.new → self.new ≡ [] }
        ensures gives { self.old ≡ take result buf.new ++ self.new }
    {
        let count = buf.len().min(self.to - self.from);
        buf[..count].copy_from_slice(&self.bytes[self.from..self.from + count]);
        self.from += count;
        count
    }
}
