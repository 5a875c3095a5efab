//! The lines that are printed of hunk files: listings, reports, segments and rewritings.
#![tactic(auto)]

mod block;
mod entry;
mod line;
mod load;
mod object;
mod put;
mod report;
mod rewriting;
mod segment;
mod text;

pub use crate::load::print_load_file;
pub use crate::object::print_object_file;
pub use crate::report::{print_load_summary, print_load_totals, print_object_report};
pub use crate::rewriting::print_rewriting;
pub use crate::segment::print_segment;
