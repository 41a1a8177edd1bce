//! What tests share: a store of one stripe and one class, commands, random draws, and a plain memcached to compare with. No call
//! here asserts, since only a test may end the process. Each returns what the test then compares.
#![tactic(auto)]

mod commands;
mod dice;
mod drawing;
mod links;
mod numerals;
mod plain;
mod plain_class;
mod world;

pub use commands::{key, storage, try_key, try_storage};
pub use dice::Dice;
pub use drawing::Drawing;
pub use links::{is_dead, may_give};
pub use plain::Plain;
pub use plain_class::{Checked, PlainClass};
pub use world::{WHO, World, ask, context, juggle, one_class, opened, store};
