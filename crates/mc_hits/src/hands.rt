//! A caller's hands in the queues of all classes.
use crate::hand::Hand;
use std::marker::Model;

/// A caller's hands in the queues of all classes: what it has offered to each and taken from each.
#[derive(Drop)]
pub struct Hands {
    pub(crate) caller: u32,
    pub(crate) each: Vec<Hand>,
}

impl Model for Hands {
    ghost use Rattle.mc_hits.specs.Views.{HandsView, hands_of, AreOf};

    ghost Value = { HandsView };

    ghost view = { λ h. hands_of h.caller h.each.items };

    ghost invariant = { λ h. AreOf h.caller h.each.items };
}
