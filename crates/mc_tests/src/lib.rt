//! Tests over all crates: the worked examples, cut streams, and sources and sinks that fail.
#![tactic(auto)]

#[cfg(test)]
mod tests;
