//! The command line of hunkinfo: which order its words are, or why they are none.
#![tactic(auto)]

mod asked;
mod line;

pub use crate::asked::{FileName, Order, OrderFault, VERSION_LINE};
pub use crate::line::order;
