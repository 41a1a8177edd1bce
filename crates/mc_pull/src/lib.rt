//! Steps on a class and a stripe together. One entry is judged with its item; a walk from a list's tail judges up to five. Rounds
//! of walks make room in a class, or juggle: move entries between its lists. A command is tried on the classes that it is lent.
//! Nothing here locks.
#![tactic(auto)]

mod advancing;
mod attempting;
mod certain;
mod context;
mod from_tail;
mod judge;
mod juggling;
mod lone;
mod looking;
mod making;
mod outcome;
mod parts;
mod pulled;
mod pulling;
mod rounds;
mod settling;
mod trying;
mod verdict;

pub use advancing::advance;
pub use attempting::{
    Attempt, Replied, Tried, attempt_none, attempt_one, attempt_two, offer_home, offer_other, ready,
};
pub use context::Context;
pub use from_tail::walks_go_from_the_tail;
pub use judge::{Ask, Done, Judge, Mode};
pub use juggling::juggle;
pub use lone::Lone;
pub use looking::{Answer, Gate, Judged, Look};
pub use pulled::Pulled;
pub use pulling::{look_at, pull_tail};
pub use rounds::make_room;
pub use settling::settle;
pub use trying::a_search_in_vain_has_tried;
