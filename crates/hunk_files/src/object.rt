//! Object files.

mod check;
mod file;
mod findings;
mod hunk_view;
mod keeping;
mod part;
mod passing;
mod ranges;
mod strip;
mod unit;
mod unit_end;
mod unit_view;
mod view;
mod walk;

pub use crate::object::check::{
    Finding, FindingKind, PlacedFinding, reference_width, relocation_width,
};
pub use crate::object::file::ObjectFile;
pub use crate::object::findings::Findings;
pub use crate::object::hunk_view::HunkView;
pub use crate::object::unit::{Hunk, Unit};
pub(crate) use crate::object::unit_end::ends_unit;
pub use crate::object::unit_view::UnitView;
pub(crate) use crate::object::unit_view::read_header;
pub use crate::object::view::ObjectView;
