//! Load files and object files of the Amiga, read from bytes and written to them.
#![tactic(auto)]

mod bases;
mod blocks;
mod file_view;
mod hunk_file;
mod items;
mod kept;
pub mod laws;
mod load;
mod object;
mod out_of_memory;
mod part;
mod ranges;
mod refusal;
mod row;
mod takes;

pub use crate::bases::Bases;
pub use crate::blocks::BlockViews;
pub use crate::file_view::{FileView, sniff};
pub use crate::hunk_file::HunkFile;
pub use crate::items::{Item, Items};
pub use crate::load::{
    ImageFault, LoadFile, LoadHunkView, LoadHunkViews, LoadView, TableIter, header_hunks,
};
pub use crate::object::{
    Finding, FindingKind, Findings, Hunk, HunkView, ObjectFile, ObjectView, PlacedFinding, Unit,
    UnitView, reference_width, relocation_width,
};
pub use crate::part::Part;
pub use crate::ranges::TakesBytes;
pub use crate::refusal::Refusal;
pub use crate::row::Row;
pub use crate::takes::Takes;
pub use hunk_grammar::Sniff;
