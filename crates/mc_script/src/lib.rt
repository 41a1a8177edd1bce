//! Runs a script, from the bytes it reads to the bytes it prints, and upkeep beside scripts, over any type that has `Calls`.
#![tactic(auto)]

mod answering;
mod calls;
mod crawling;
mod ends;
mod juggling;
mod outcome;
mod scripting;
mod source;
mod target;
mod upkeep;

pub use calls::Calls;
pub use ends::Ends;
pub use outcome::Outcome;
pub use scripting::run_script;
pub use source::{Source, SourceFault};
pub use upkeep::{Keeper, run_upkeep};
