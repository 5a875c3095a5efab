//! Tests of hunk_words and hunk_blocks, by their public calls.
#![tactic(auto)]

#[cfg(test)]
mod tests;
