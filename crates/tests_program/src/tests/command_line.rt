//! What tells of an order and of none. Which words are which is in `tests/program/cases/words.tsv`.

mod faults;
mod memory;
