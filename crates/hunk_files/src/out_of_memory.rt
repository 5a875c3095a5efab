//! Places where memory is refused.
ghost use Rattle.std.specs.Prelude.{◌≡◌, ◌+◌, ◌≤◌};
ghost use Rattle.hunk_words.specs.declared.reason.Reason.TheVariants as reasons;

use hunk_words::{FileFault, Reason};

/// Out of memory at the longword that ends at byte `end`.
pub(crate) fn out_of_memory(end: usize) -> FileFault
    requires { 4 ≤ end }
    ensures place { result.place + 4 ≡ end }
    ensures reason { result.reason ≡ reasons.OutOfMemory }
{
    FileFault {
        place: end as u64 - 4,
        reason: Reason::OutOfMemory,
    }
}
