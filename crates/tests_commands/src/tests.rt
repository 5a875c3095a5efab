//! The commands, by any source and any sink. What the program prints of more files is in `tests/program/cases`.

mod asserts;
mod bytes;
mod calls;
mod examples;
mod faults;
mod hex_text;
mod listing_ends;
mod memory;
mod reading;
mod relocating;
mod validating;
mod writing;
