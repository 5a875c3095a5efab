//! What no clause says of the program, and the callers that the pages show.

mod asserts;
mod callers;
mod command_line;
mod line;
mod runs;
