//! The queue of one class.
ghost use Rattle.std.specs.Prelude.{◌≡◌, ◌<◌, ◌++◌, ◌∷◌, [], IfOk, IfNone, IfSome, MatchBool};
ghost use Rattle.std.specs.List.{All, Contains};
ghost use Rattle.mc_hits.specs.{Rule.IsBefore, Views.dealer_at, Views.hit_of};

use crate::hand::{Dealer, Hand};
use crate::rule::{Hit, Line};
use crate::steps::{Offers, Takes};
use mc_item::{NoMemory, Who};
use std::alloc::Global;
use std::marker::Model;
use std::sync::Wait;

/// A queue of hits that all callers share.
#[derive(Drop)]
pub(crate) struct Hits {
    pub(crate) queue: Line,
}

impl Model for Hits {
    ghost use Rattle.mc_hits.specs.Views.{HitsView};

    ghost Value = { HitsView };

    ghost view = { λ h. record { table = h.queue.table.shared.table_id; room = h.queue.cap } };
}

impl Hits {
    // Returns a queue with room for so many hits, and what gives out its hands. Errors: `NoMemory`.
    pub(crate) fn open(alloc: Global, room: usize) -> Result<(Hits, Dealer), NoMemory>
        requires room { 0 < room }
        ensures room { IfOk result (λ r. r.0.room ≡ room) }
        ensures dealer { IfOk result (λ r. r.1 ≡ dealer_at 0 r.0) }
    {
        let (queue, root) = Line::ruled(alloc, room)?;
        Ok((Hits { queue }, Dealer { given: 0, root }))
    }

    // Offers a hit of the caller's turn, and returns whether the queue had room for it. If not, nothing changes. It waits
    // for callers that are in the middle of such a call.
    pub(crate) fn offer<R: Wait>(&self, rt: &R, hand: &mut Hand, turn: u64, number: u64) -> bool
        requires queue { hand.old.table ≡ self.now.table }
        requires turn { All (IsBefore turn) hand.old.offers }
        ensures hand { MatchBool result
            (hand.new ≡ record hand.old { offers = hand.old.offers ++ hit_of hand.old.caller turn number ∷ [] })
            (hand.new ≡ hand.old) }
    {
        let who = Who {
            caller: hand.caller,
            turn,
        };
        self.queue
            .push_as::<Offers, R>(rt, &mut hand.place, Hit { who, number })
            .is_ok()
    }

    // Takes the oldest hit, if there is one. The caller hasn't taken it before.
    pub(crate) fn take<R: Wait>(&self, rt: &R, hand: &mut Hand) -> Option<Hit>
        requires queue { hand.old.table ≡ self.now.table }
        ensures taken { IfSome result (λ hit. hand.new ≡ record hand.old { takings = hand.old.takings ++ hit ∷ [] }) }
        ensures once { IfSome result (λ hit. ¬ (Contains hand.old.takings hit)) }
        ensures none { IfNone result (hand.new ≡ hand.old) }
    {
        self.queue.pop_as::<Takes, R>(rt, &mut hand.place)
    }
}
