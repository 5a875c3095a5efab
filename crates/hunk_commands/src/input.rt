//! A source read to its end.
ghost use Rattle.std.specs.Prelude.{◌≡◌, ◌++◌, [], ℕ, List, IfErr, IfOk, OnErr, OnOk, ⊤};
ghost use Rattle.hunk_commands.specs.Inputs.{ReadsAtMost, ReadsWhole, WantedFor};
ghost use Rattle.hunk_commands.specs.declared.fault.RunFault.TheVariants.{Memory};

use crate::fault::RunFault;
use hunk_words::{Fault, Reason, Source};
use std::alloc::{AllocError, Global};

/// How many bytes are asked for at a time: 32 KiB.
const PIECE: usize = 32_768;

/// The room of a list to which more than a piece comes, at first: 256 KiB.
const ROOM: usize = 262_144;

/// What takes the bytes of a source piece by piece.
pub(crate) trait Taker {
    ghost took: { Self → List ℕ };

    /// What holds of the bytes that were taken and of those that follow, where memory is wanted.
    ghost wants: { List ℕ → List ℕ → Type 0 };

    /// Takes the bytes that follow.
    fn take(&mut self, piece: &[u8]) -> Result<(), AllocError>
        ensures taken { OnOk result (took self.new ≡ took self.old ++ piece.now) }
        ensures wanted { OnErr result (wants (took self.old) piece.now) };
}

/// A list keeps them all.
impl Taker for Vec<u8> {
    ghost took = { λ s. s.items };

    ghost wants = { λ _ _. ⊤ };

    fn take(&mut self, piece: &[u8]) -> Result<(), AllocError> {
        if self.is_empty() && piece.len() == PIECE {
            self.reserve(ROOM)?;
        }
        self.extend_from_slice(piece)
    }
}

/// Hands all that the source has left, which are fewer than `most` bytes, to the taker, which has
/// taken nothing yet.
///
/// # Errors
///
/// The places are in bytes from where the source stood before the call.
///
/// - `Refused` with `FileLimit`, at `most`, where that many bytes were given, before an end is
///   looked for.
/// - `Read` where the source failed, at the number of bytes given.
/// - `Memory` where memory is refused.
///
/// What was read of the source stays read, at most `most` bytes.
#[inline(never)]
pub(crate) fn read_all<S: Source, T: Taker>(
    source: &mut S,
    most: u64,
    taker: &mut T,
) -> Result<(), RunFault>
    requires { T.took taker.old ≡ [] }
    ensures reads { OnOk result
        (ReadsWhole (S.supply source.old) (S.supply source.new) most (T.took taker.new)) }
    ensures reads_at_most { ReadsAtMost (S.supply source.old) (S.supply source.new) most result }
    ensures wanted { IfErr result (λ fault. fault ≡ Memory
        → WantedFor T.wants (S.supply source.old) (S.supply source.new)) }
{
    let mut buf = [0u8; PIECE];
    let mut count = 0u64;
    'reading: while count < most {
        let room = most - count;
        let ask = if room < PIECE as u64 {
            room as usize
        } else {
            PIECE
        };
        match source.pull(&mut buf[..ask]) {
            Ok(0) => return Ok(()),
            Ok(n) => {
                taker.take(&buf[..n])?;
                count += n as u64;
            }
            Err(_) => return Err(RunFault::Read { place: count }),
        }
    }
    Err(RunFault::Refused(Fault {
        place: most,
        reason: Reason::FileLimit,
    }))
}

/// All the bytes that the source has left, which are fewer than `most`.
///
/// # Errors
///
/// The places are in bytes from where the source stood before the call.
///
/// - `Refused` with `FileLimit`, at `most`, where that many bytes were given, before an end is
///   looked for.
/// - `Read` where the source failed, at the number of bytes given.
/// - `Memory` where memory is refused.
///
/// What was read of the source stays read, at most `most` bytes.
pub fn read_input<S: Source>(alloc: Global, source: &mut S, most: u64) -> Result<Vec<u8>, RunFault>
    ensures reads { IfOk result
        (λ bytes. ReadsWhole (S.supply source.old) (S.supply source.new) most bytes.items) }
    ensures reads_at_most { ReadsAtMost (S.supply source.old) (S.supply source.new) most result }
{
    let mut input = Vec::new(alloc);
    read_all(source, most, &mut input)?;
    Ok(input)
}
