//! Blocks of AmigaDOS hunk files, read from bytes and written to them.
#![tactic(auto)]

mod block;
mod block_view;
mod body;
mod body_view;
mod entries;
mod groups;
mod growing;
pub mod laws;
mod list;
mod long_reader;
mod longs;
mod payload;
mod symbols;
mod walk;

pub use crate::block::Block;
pub use crate::block_view::BlockView;
pub use crate::body::Body;
pub use crate::body_view::BodyView;
pub use crate::entries::{Entries, EntriesIter, Entry};
pub use crate::groups::{Group, Groups, GroupsIter};
pub use crate::growing::append;
pub use crate::list::BlockList;
pub use crate::longs::{Longs, LongsIter};
pub use crate::payload::Payload;
pub use crate::symbols::{SymbolView, Symbols, SymbolsIter};
pub use crate::walk::walk_block;
pub use hunk_grammar::{ExtKind, ExtShape, Mode};
