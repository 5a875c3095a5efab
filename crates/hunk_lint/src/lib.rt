//! What is suspicious in a load file, though the format allows it.
#![tactic(auto)]

mod collecting;
mod file;
mod known;
pub mod laws;
mod listing;
mod neighbours;
mod next_hunk;
mod room;
mod sorting;
mod suspicious;
mod warning;

pub use crate::file::{NoRoom, list_in_room, list_warnings};
pub use crate::warning::{Warning, WarningKind};
