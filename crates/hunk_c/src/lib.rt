//! Hunk files for programs in C: `bindings/c/hunk.h` declares what is exported here, and tells what
//! each call takes and answers, and each field.
//!
//! Each export is a thin layer over a library of this repository. It takes no memory, keeps nothing
//! between two calls, hands out no pointer, and tests every number that it is given.
#![tactic(auto)]

mod abi;
mod answer;
mod blocks;
mod build;
mod check;
mod entries;
mod file;
mod front;
mod in_place;
mod laws;
mod load;
mod load_at;
mod loader;
mod name;
mod packed;
mod parts;
mod phases;
mod places;
mod plain;
mod reason;
mod references;
mod relocations;
mod rows;
mod stream;
mod strides;
mod strip;
mod symbols;
mod table;
mod units;
mod warnings;

pub use crate::abi::hunk_abi;
pub use crate::answer::Answer;
pub use crate::blocks::{BlockRow, hunk_blocks};
pub use crate::build::hunk_build;
pub use crate::check::{FindingRow, hunk_check};
pub use crate::entries::{EntryRow, hunk_entries};
pub use crate::front::hunk_front;
pub use crate::laws::{
    answered_numbers, answered_numbers_of_items, closed_file, longest_words, room_for_front,
    room_for_plain, room_for_stripped, strange_after_no_begin,
};
pub use crate::load::{hunk_load, hunk_load_packed};
pub use crate::load_at::hunk_load_at;
pub use crate::loader::Loader;
pub use crate::parts::hunk_parts;
pub use crate::plain::{SpellingRow, hunk_input_place, hunk_plain, hunk_spelling_of};
pub use crate::reason::{hunk_reason, hunk_reason_text};
pub use crate::references::{ReferenceRow, hunk_references};
pub use crate::relocations::{RelocationRow, hunk_relocations};
pub use crate::stream::{hunk_begin, hunk_end, hunk_feed, hunk_want};
pub use crate::strip::hunk_strip;
pub use crate::symbols::{SymbolRow, hunk_symbols};
pub use crate::table::{TableRow, hunk_table};
pub use crate::units::{UnitRow, hunk_units};
pub use crate::warnings::{WarningRow, hunk_warnings};
