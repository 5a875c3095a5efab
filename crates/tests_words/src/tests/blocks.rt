//! Single blocks: the worked examples, what is written of them, and refused memory.

mod answers;
mod items;
mod memory;
mod texts;
