//! Runs scripts of requests at once on one store, and the whole program around them.
#![tactic(auto)]

mod caller;
mod conversing;
mod cutting;
mod fault;
mod input;
mod jobs;
mod live;
mod memory;
mod printing;
mod program;
mod reading;
mod running;

pub use fault::RunFault;
pub use mc_options::{Options, Plan, PlanFault, WordsFault, plan_for, read_words};
pub use mc_script::{Ends, Outcome, Source, SourceFault};
pub use mc_store::Final;
pub use program::run_words;
pub use running::{Host, Run, run_scripts};
