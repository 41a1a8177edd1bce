//! Tests of the shared store.
#![tactic(auto)]

#[cfg(test)]
mod tests;
