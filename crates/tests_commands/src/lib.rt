//! Tests of hunk_commands, by its public calls.
#![tactic(auto)]

#[cfg(test)]
mod tests;
