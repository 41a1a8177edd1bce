//! Laws about the histories of stripes and slab classes. They say which events are partners, that a stripe's items are exactly
//! the entries of its keys, and that each loss has its cause. A law is the contract of a function that does nothing. What it says
//! is proved of all histories. *Partners* are two events that one call makes, one in each history. Two histories are *evidence*
//! of each other if each event that is about both has its partner in the other.
#![tactic(auto)]

mod agreeing;
mod commands;
mod entries;
mod example;
mod finding;
mod keeping;
mod locking;
mod losing;
mod partnering;
mod seeing;
mod storing;

pub use agreeing::{
    a_command_keeps_agreement, a_judgement_keeps_agreement, agreement_begins_and_outlasts_surveys,
};
pub use commands::{
    a_checked_configuration_has_small_sizes, a_command_without_room_was_refused,
    a_new_item_is_small, new_numbers_are_unnamed, readers_spare_links, the_new_entry_is_a_partner,
};
pub use entries::items_are_exactly_entries;
pub use example::a_run_with_an_eviction_agrees;
pub use finding::{
    each_event_of_a_class_finds_its_partner, each_event_of_a_stripe_finds_its_partner,
};
pub use keeping::{
    a_command_keeps_evidence, a_cooling_keeps_evidence, a_loss_keeps_evidence,
    events_of_the_class_alone_keep_evidence, events_of_the_stripe_alone_keep_evidence,
};
pub use locking::{
    a_command_keeps_its_classes, a_command_keeps_its_stripe, a_judged_entry_is_no_stranger,
    a_judgement_keeps_both_locks, a_replacement_keeps_both_locks, lent_states_are_evidence,
    locks_begin,
};
pub use losing::{
    a_living_item_stays_while_chunks_are_free, between_commands_items_only_go,
    each_loss_has_its_cause,
};
pub use partnering::{
    a_class_event_is_the_only_partner, a_stripe_event_is_the_only_partner,
    cited_items_of_partners_suit, no_eviction_is_cited_twice, no_mark_is_cleared_again,
    numbers_come_and_go_once,
};
pub use seeing::{
    a_pass_that_saw_it_has_the_partners, evidence_stays_as_more_is_seen, seen_lists_show_histories,
};
pub use storing::{
    a_sound_store_has_items_exactly_as_entries, in_a_sound_store_each_loss_has_its_cause,
    locks_keep_a_sound_store,
};
