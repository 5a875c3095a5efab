//! A load file is placed in memory while it is read, within a budget.
#![tactic(auto)]

mod body_check;
mod body_loader;
mod debug;
mod declared;
mod header_loader;
mod header_state;
mod image;
pub mod laws;
mod load_check;
mod load_refusal;
mod loading;
mod placer;
mod store;
pub mod stream;

pub use crate::body_loader::BodyLoader;
pub use crate::declared::{Declared, Unplaced};
pub use crate::header_loader::HeaderLoader;
pub use crate::image::{Image, Segments};
pub use crate::load_check::{LoadCheck, LoadSummary};
pub use crate::load_refusal::LoadRefusal;
pub use crate::loading::{Limits, load, load_naming_part};
pub use crate::placer::{Listed, Packed, Placer};
