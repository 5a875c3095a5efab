//! Tests of hunk_files, by its public calls.
#![tactic(auto)]

#[cfg(test)]
mod tests;
