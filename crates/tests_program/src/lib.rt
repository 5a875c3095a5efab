//! Tests of hunk_command_line, hunk_run and hunk_examples, by their public calls.
#![tactic(auto)]

#[cfg(test)]
mod tests;
