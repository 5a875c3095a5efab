//! The conformance suite: hunk files, each with what a reader has to answer.
#![tactic(auto)]

mod image_table;
mod load_table;
mod object_table;
mod spelling;
mod vector;
mod wide_table;
mod wide_texts;
mod write_table;

pub use crate::image_table::{IMAGES, MEMORY_TEXTS};
pub use crate::load_table::{LOAD_TEXTS, VECTORS};
pub use crate::object_table::{OBJECT_TEXTS, OBJECTS};
pub use crate::spelling::{
    bytes, memory_bytes, object_bytes, plain_bytes, wide_bytes, written_bytes,
};
pub use crate::vector::{
    ImageVector, ObjectVector, ObjectWant, Vector, Want, WideVector, WideWant,
};
pub use crate::wide_table::WIDE;
pub use crate::wide_texts::{PLAIN_TEXTS, WIDE_TEXTS};
pub use crate::write_table::{WRITE_TEXTS, WRITE_VALUES};
