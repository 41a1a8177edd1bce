//! Laws of the sequential cache, as a user of memcached would say them. Each law is the contract of a function that does nothing.
//! It is proved of every cache or every legal history.
#![tactic(auto)]

mod counting;
mod dying;
mod reading;
mod stepping;
mod versions;

pub use counting::incr_then_decr_gives_the_number_back;
pub use dying::{
    cooling_shows_nothing, forgetting_the_dead_shows_nothing, the_dead_answer_as_the_absent,
};
pub use reading::{
    a_value_is_that_of_its_last_version, append_is_read_back, other_keys_stay, set_is_read_back,
};
pub use stepping::a_legal_history_is_a_chain_of_steps;
pub use versions::{
    cas_numbers_rise, cas_stores_over_what_was_read, equal_cas_numbers_are_one_version,
};
