//! The parts of a hunk file in a flat list of rows, and the file that such rows spell.
#![tactic(auto)]

mod building;
mod copier;
mod faults;
mod fields;
pub mod laws;
mod listing;
mod longs;
mod part_row;
mod part_size;
mod place;
mod refusals;
mod row_fault;
mod row_fields;
mod rows;
mod seen_part;
mod steps;
mod text;
mod writing;

pub use crate::building::build;
pub use crate::copier::Copier;
pub use crate::listing::list_parts;
pub use crate::part_row::{
    BLOCK_PART, ENTRY_PART, GROUP_PART, HUNK_PART, PartRow, SYMBOL_PART, UNIT_PART,
};
pub use crate::row_fault::{BuiltSize, NotBuilt, RowFault, RowRefusal};
pub use crate::rows::payload_of;
