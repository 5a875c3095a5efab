//! Tests of hunk_scatter, by its public calls.
#![tactic(auto)]

#[cfg(test)]
mod tests;
