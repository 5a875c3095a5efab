//! Longwords of bytes that come in pieces.
ghost use Rattle.std.specs.Prelude.{◌≡◌, ◌<◌, ◌≤◌, [], ◌∷◌, ◌++◌, length, take, IfNone};
ghost use Rattle.hunk_words.specs.Longs.{Gathers};

use crate::pending::Pending;
use std::marker::Model;

/// Makes longwords of bytes that come in pieces, however they were cut, high byte first.
///
/// Contracts see the bytes that are pending, 0 to 3 of them.
#[derive(Debug, Drop)]
pub struct Assembler {
    pending: Pending,
}

impl Model for Assembler {
    ghost use Rattle.std.specs.Prelude.{List, ℕ, ◌<◌};
    ghost use Rattle.hunk_words.specs.PendingBytes.{pending_of};

    ghost Value = { List ℕ };

    ghost view = { λ s. pending_of s.pending };

    ghost invariant = { λ s. s.pending.count < 4 };
}

impl Assembler {
    /// An assembler with nothing pending.
    pub fn new() -> Assembler
        ensures { result ≡ [] }
    {
        Assembler {
            pending: Pending::NONE,
        }
    }

    /// How many bytes of the next longword have come, 0 to 3.
    pub fn pending(&self) -> usize
        ensures value { result ≡ length self.now }
        ensures bound { result < 4 }
    {
        usize::from(self.pending.count)
    }

    /// Takes one byte, and gives the longword that it completes.
    pub fn push(&mut self, byte: u8) -> Option<u32>
        ensures gathers { Gathers (self.old ++ byte ∷ []) self.new result }
        ensures bound { length self.new < 4 }
    {
        let (pending, word) = self.pending.take(byte);
        self.pending = pending;
        word
    }

    /// Takes bytes until a longword is whole or the slice ends, and gives the number of bytes taken
    /// and the longword, where one is whole.
    pub fn take(&mut self, piece: &[u8]) -> (usize, Option<u32>)
        ensures inside { result.0 ≤ length piece.now }
        ensures gathers { Gathers (self.old ++ take result.0 piece.now) self.new result.1 }
        ensures takes_all { IfNone result.1 (result.0 ≡ length piece.now) }
        ensures bound { length self.new < 4 }
    {
        // The proof learns the bound on what is pending.
        let _ = &self.pending;
        let mut taken = 0;
        for byte in piece {
            taken += 1;
            if let Some(word) = self.push(*byte) {
                return (taken, Some(word));
            }
        }
        (taken, None)
    }
}
