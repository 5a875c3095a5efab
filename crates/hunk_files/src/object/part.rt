//! The part of an object file at which a walk stands.
ghost use Rattle.std.specs.Prelude.{◌≡◌, ◌+◌, ◌^◌, ◌<◌, ◌≤◌};
ghost use Rattle.hunk_files.specs.FileParts.{fault_at, counted, part_by};

use crate::part::Part;
use crate::refusal::Refusal;
use hunk_grammar::{ObjectPosition, WordPlace};
use hunk_words::{FileFault, Reason};

/// The units that began, and the parts of the last that are whole, its name and hunks, where a
/// longword led here.
#[inline(always)]
pub(super) fn counted(position: ObjectPosition, units: u64, whole: u64) -> (u64, u64)
    requires few { units < 2 ^ 63 }
    requires parts { whole < 2 ^ 63 }
    ensures value { result ≡ counted position (units, whole) }
    ensures few { (result.0 ≤ units + 1) × (result.1 ≤ whole + 1) }
{
    match position {
        ObjectPosition::UnitCount => (units + 1, 0),
        ObjectPosition::Word(WordPlace::BetweenHunks) => (units, whole + 1),
        _ => (units, whole),
    }
}

/// The refusal at this place, where so many units began, and so many parts of the last are whole.
#[inline(never)]
#[tactic(auto, using(crate::proofs::parts::UnitParts::part_is))]
pub(super) fn refusal_at(units: u64, whole: u64, place: u64, reason: Reason) -> Refusal
    ensures fault { result.fault ≡ fault_at place reason }
    ensures part { result.part ≡ part_by units whole }
{
    let part = Part::Unit {
        number: units.saturating_sub(1),
        hunk: whole.checked_sub(1),
    };
    let fault = FileFault { place, reason };
    Refusal { fault, part }
}
