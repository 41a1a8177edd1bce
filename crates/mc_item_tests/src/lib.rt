//! Tests of mc_item's and mc_options' calls against values from outside.
#![tactic(auto)]

#[cfg(test)]
mod tests;
