//! Makes a plan of the command line: a store's configuration, and the times of upkeep. Upkeep is the work of maintainer and
//! crawler beside the scripts. The code calls a time, in seconds, a moment.
#![tactic(auto)]

mod help;
mod plans;
mod words;

pub use plans::{Options, Plan, PlanFault, plan_for};
pub use words::{WordsFault, read_words};
