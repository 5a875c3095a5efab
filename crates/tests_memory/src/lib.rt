//! Tests of the memory that hunk_scatter asks for and holds, by its public calls.
#![tactic(auto)]

#[cfg(test)]
mod tests;
