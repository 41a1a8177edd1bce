//! Tests of judgements, walks, rounds, juggling and crawls: small classes whose outcomes were worked out by hand.
#![tactic(auto)]

#[cfg(test)]
mod tests;
