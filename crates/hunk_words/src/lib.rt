//! Longwords, size words, block words, reasons of refusals, and what bytes come from and go to.
//!
//! Nothing here takes memory but `FromRead::buffered`, for its buffer.
#![tactic(auto)]

mod assembler;
mod block_word;
mod class;
mod fault;
mod history;
mod limits;
mod long_writer;
mod longword;
mod meaning;
mod pending;
mod printer;
mod reason;
mod sink;
mod size_word;
mod source;

pub use crate::assembler::Assembler;
pub use crate::block_word::{BlockWord, HEADER_WORD, Kind, LIBRARY_WORD, UNIT_WORD};
pub use crate::class::Class;
pub use crate::fault::{BlockFault, Fault, FileFault, LoadFault};
pub use crate::history::History;
pub use crate::limits::{CONTENT_LIMIT, MOST_HUNKS, NAME_LIMIT};
pub use crate::long_writer::{LongWriter, WriteFault};
pub use crate::longword::word_at;
pub use crate::pending::Pending;
pub use crate::printer::{LINE, PageLine, PagePrinter, Printer};
pub use crate::reason::Reason;
pub use crate::sink::{FromWrite, Sink};
pub use crate::size_word::{Memory, SizeWord};
pub use crate::source::{Failed, FromRead, FromSlice, Source};
