//! Values and rules of the cache: keys, items, commands, replies, events, the configuration, and the sequential cache that the
//! other crates' promises refer to. Nothing here locks, reads or writes.
#![tactic(auto)]

mod answer;
mod call_event;
mod class_event;
mod command;
mod config;
mod counting;
mod counts;
mod event;
mod fault;
mod item;
mod key;
mod lists;
mod measure;
mod numbers;
mod reply;
mod short;
mod storing;
mod stripe_event;
mod value;

pub use answer::{Answer, Change, Need, Site};
pub use call_event::{Answered, Asked, Asking, CallEvent, Limits, Worked};
pub use class_event::{
    ClassEvent, Evicted, Limited, Linked, Reclaimed, Refused, Shifted, Surveyed, Unlinked, Why,
};
pub use command::{Command, Verb};
pub use config::{Config, ConfigFault};
pub use counting::{Making, Offer, Step, counted, digits_len};
pub use counts::{Histogram, Moves};
pub use event::{Event, Logged};
pub use fault::{Fault, NoMemory};
pub use item::{ClassNo, Expiry, Item, Link, Marks, StripeNo, Who, expiry_of};
pub use key::{Key, KeyFault, MAX_KEY_LEN};
pub use lists::{Entry, Passed, Seg};
pub use measure::{class_of, cost, least_class, number_of, numeral_of, stripe_of};
pub use numbers::{ClassSizes, Numbers};
pub use reply::{Reply, Room};
pub use storing::Content;
pub use stripe_event::{Cause, Cooled, Did, Lost, StripeEvent};
pub use value::Value;
