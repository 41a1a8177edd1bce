//! Tests of the text protocol, and of the directives of scripts.
#![tactic(auto)]

#[cfg(test)]
mod tests;
