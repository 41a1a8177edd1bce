//! Tests of class lists, growing histories and queues of hits alone: small classes by calls, and what threads race for.
#![tactic(auto)]

#[cfg(test)]
mod tests;
