//! Callers of the libraries, each whole, and short enough to begin with.
#![tactic(auto)]

mod archive;
mod assembler;
mod collection;
mod emulator;
mod libraries;
mod pieces;
mod program;
mod rom;
mod symbols;
mod upload;

pub use crate::archive::describe;
pub use crate::assembler::write_program;
pub use crate::collection::{Collection, survey, survey_folder};
pub use crate::emulator::load_program;
pub use crate::libraries::{Seen, tour};
pub use crate::pieces::load_pieces;
pub use crate::program::{show_file, strip};
pub use crate::rom::place_in_rom;
pub use crate::symbols::{Symbol, list_symbols};
pub use crate::upload::has_header;
