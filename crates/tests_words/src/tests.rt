//! What no clause says of longwords and blocks, and the worked examples of single blocks.

mod asserts;
mod blocks;
mod carriers;
mod faults;
mod longwords;
mod printing;
mod sizes;
