//! Tests of the whole: lines, cuts, limits, texts and sinks, and scripts over calls that are made up. Expected values are written
//! from the rules by hand.
mod dice;
mod directives;
mod drawn;
mod gathered;
mod hostile;
mod keepers;
mod lines;
mod noted;
mod pieces;
mod plain;
mod replies;
mod roundtrip;
mod short;
mod show;
mod sinks;
mod spelling;
mod splitting;
mod table;

/// What drawn bytes are drawn from.
const SEED: u64 = 7_919;
