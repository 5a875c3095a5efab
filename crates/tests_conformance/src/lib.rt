//! Tests of hunk_vectors and hunk_wide, by their public calls.
#![tactic(auto)]

#[cfg(test)]
mod tests;
