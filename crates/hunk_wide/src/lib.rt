//! Load files and object files in their wide spelling, as real producers write them, read as the
//! plain one.
//!
//! In a wide spelling blocks of relocations may have 16-bit words, and in a load file the END of a
//! hunk may be left out. Nothing here takes memory.
#![tactic(auto)]

mod behind;
mod entries;
mod expander;
mod halves;
mod laws;
mod parts;
mod place;
mod plain;
mod position;
mod ready;
mod spelling;
mod spot;
mod unit_blocks;
mod units;
mod writing;

pub use crate::expander::Expander;
pub use crate::laws::{
    from_wide_spelling, input_places, one_object_spelling, one_spelling, plain_spelling,
};
pub use crate::place::place_in;
pub use crate::plain::Plain;
pub use crate::position::FilePosition;
pub use crate::spelling::{Spelling, spelling_of};
pub use crate::spot::{Given, ShortPart, Spot};
pub use crate::writing::{NoRoom, write_plain};
