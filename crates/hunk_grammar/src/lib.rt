//! What each longword of a load file, an object file or a block is for, why it is refused, and what
//! follows.
//!
//! It takes no memory and sees one longword at a time, and stands below every reader.
#![tactic(auto)]

mod by_case;
mod ext_kind;
mod ext_shape;
mod file_kind;
mod mode;
mod object_position;
mod phase;
mod position;
mod refusal;

pub use crate::ext_kind::{ExtKind, kind_of, shape_of};
pub use crate::ext_shape::ExtShape;
pub use crate::file_kind::Sniff;
pub use crate::mode::Mode;
pub use crate::object_position::{ObjectPosition, ObjectStride, WordPlace};
pub use crate::phase::Phase;
pub use crate::position::{OpenHunk, Position, TABLE_AT, TABLE_SIZE_AT, open_next};
pub use crate::refusal::{is_outside, refuse_place};
