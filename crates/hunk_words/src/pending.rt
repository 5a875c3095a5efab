//! The bytes of a longword in progress, in numbers alone.
ghost use Rattle.std.specs.Prelude.{◌<◌, ◌≤◌, [], ◌∷◌, ◌++◌, length, take};
ghost use Rattle.hunk_words.specs.Longs.{Gathers};
ghost use Rattle.hunk_words.specs.PendingBytes.{pending_of};

use crate::longword::word_at;

/// How many bytes of the next longword have come, 0 to 3, and which. Any numbers may stand here.
#[derive(Clone, Copy, Debug, PartialEq, Eq)]
pub struct Pending {
    /// How many bytes have come. What takes bytes wants at most 3 here.
    pub count: u8,
    /// The first byte, the high one of the longword, where one has come.
    pub first: u8,
    /// The second byte, where two have come.
    pub second: u8,
    /// The third byte, where three have come.
    pub third: u8,
}

impl Pending {
    /// No byte of the next longword.
    pub const NONE: Pending = Pending {
        count: 0,
        first: 0,
        second: 0,
        third: 0,
    };

    /// Takes a byte, and gives what is pending then, and the longword that it completes.
    #[tactic(auto, unfolding(crate::specs::Longs::bytes_of))]
    pub fn take(mut self, byte: u8) -> (Pending, Option<u32>)
        requires few { self.count < 4 }
        ensures gathers { Gathers (pending_of self ++ byte ∷ []) (pending_of result.0) result.1 }
        ensures few { result.0.count < 4 }
    {
        match self.count {
            0 => self.first = byte,
            1 => self.second = byte,
            2 => self.third = byte,
            _ => {
                let word = u32::from_be_bytes([self.first, self.second, self.third, byte]);
                return (Pending::NONE, Some(word));
            }
        }
        self.count += 1;
        (self, None)
    }

    /// Takes a byte, or a longword that lies whole in the piece where none is begun.
    ///
    /// Gives what is pending then, the number of bytes taken, 1 or 4, and the longword that they
    /// complete.
    pub fn take_front(self, piece: &[u8]) -> (Pending, usize, Option<u32>)
        requires few { self.count < 4 }
        requires nonempty { 0 < length piece.now }
        ensures inside { result.1 ≤ length piece.now }
        ensures positive { 0 < result.1 }
        ensures gathers { Gathers (pending_of self ++ take result.1 piece.now)
            (pending_of result.0) result.2 }
        ensures few { result.0.count < 4 }
    {
        if self.count == 0 && piece.len() >= 4 {
            return (self, 4, Some(word_at(piece, 0)));
        }
        let (pending, next) = self.take(piece[0]);
        (pending, 1, next)
    }
}
