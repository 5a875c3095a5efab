//! What the commands of hunkinfo do, over any reader and writer: `show`, `validate`, `relocate` and
//! `rewrite`, and hexadecimal text.
#![tactic(auto)]

mod fault;
mod hex_text;
mod incoming;
mod input;
mod relocating;
mod rewriting;
mod showing;
mod validating;

pub use crate::fault::RunFault;
pub use crate::hex_text::{read_hex, unhex};
pub use crate::input::read_input;
pub use crate::relocating::relocate;
pub use crate::rewriting::{Rewritten, rewrite, rewrite_bytes};
pub use crate::showing::{show, show_bytes};
pub use crate::validating::{validate, validate_bytes};
