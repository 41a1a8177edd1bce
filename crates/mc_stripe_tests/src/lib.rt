//! Tests of mc_stripe: small histories of one stripe, worked out by hand from the table of commands.
#![tactic(auto)]

#[cfg(test)]
mod tests;
