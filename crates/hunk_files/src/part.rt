//! The parts of a file that refusals name.
ghost use Rattle.std.specs.Prelude.{Some};
ghost use Rattle.hunk_files.specs.FileParts.{part_line};

use std::fmt;

/// The part of a file that a longword is of. All numbers count from 0.
///
/// It is displayed as `the header`, `hunk 3`, `unit 0` or `unit 0 hunk 2`.
#[derive(Clone, Copy, Debug, PartialEq, Eq)]
pub enum Part {
    /// The header of a load file.
    Header,
    /// A hunk of a load file.
    Hunk { number: u64 },
    /// A unit of an object file, and the hunk in it: none up to the end of the unit's name. After
    /// a whole hunk, or the name, it is the hunk that is to come.
    Unit { number: u64, hunk: Option<u64> },
}

impl fmt::Display for Part {
    ghost output = { λ part. Some (part_line part) };

    fn fmt<W: fmt::Write>(&self, f: &mut fmt::Formatter<W>) -> fmt::Result {
        match self {
            Part::Header => write!(f, "the header"),
            Part::Hunk { number } => write!(f, "hunk {number}"),
            Part::Unit { number, hunk: None } => write!(f, "unit {number}"),
            Part::Unit {
                number,
                hunk: Some(hunk),
            } => write!(f, "unit {number} hunk {hunk}"),
        }
    }
}
