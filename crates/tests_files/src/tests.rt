//! What no clause says of load files and object files, and their worked examples.

mod asserts;
mod decoding;
mod faults;
mod findings;
mod images;
mod large;
mod memory;
mod texts;
