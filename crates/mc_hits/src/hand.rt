//! What one caller has of one queue, and what gives it out.
ghost use Rattle.std.specs.Prelude.{◌≡◌, ◌+◌, ◌<◌, ◌^◌, []};
ghost use Rattle.crossbeam_queue.specs.Passes.{view};
ghost use Rattle.mc_hits.specs.{Steps.held_of, Views.untouched_hand};
ghost use Rattle.mc_hits.specs.declared.rule.View.TheVariants as views;

use crate::hits::Hits;
use crate::rule::Place;
use crate::steps::Deals;
use std::marker::Model;

/// What one caller has offered to a queue and taken from it.
#[derive(Drop)]
pub(crate) struct Hand {
    pub(crate) caller: u32,
    pub(crate) place: Place,
}

impl Model for Hand {
    ghost use Rattle.std.specs.Prelude.{◌≡◌, []};
    ghost use Rattle.crossbeam_queue.specs.Passes.{view as seat_view};
    ghost use Rattle.mc_hits.specs.{Views.HandView, Steps.held_of};
    ghost use Rattle.mc_hits.specs.declared.rule.View.TheVariants as views;

    ghost Value = { HandView };

    ghost view = { λ h. record {
      table = h.place.table_id;
      caller = h.caller;
      offers = (held_of (seat_view h.place)).offers;
      takings = (held_of (seat_view h.place)).takings;
    } };

    ghost invariant = { λ h.
        (seat_view h.place ≡ views.Hand (held_of (seat_view h.place)))
        × ((held_of (seat_view h.place)).caller ≡ h.caller)
        × (h.place.me.1 ≡ []) };
}

impl Hand {
    // The hand of a place.
    fn at(caller: u32, place: Place) -> Hand
        requires hand { (view place ≡ views.Hand (held_of (view place))) × (place.me.1 ≡ []) }
        requires caller { (held_of (view place)).caller ≡ caller }
        ensures { result ≡ record {
          table = place.table_id;
          caller = caller;
          offers = (held_of (view place)).offers;
          takings = (held_of (view place)).takings;
        } }
    {
        Hand { caller, place }
    }
}

/// What gives out the hands of one queue, in the order of the callers.
#[derive(Drop)]
pub(crate) struct Dealer {
    pub(crate) given: u32,
    pub(crate) root: Place,
}

impl Model for Dealer {
    ghost use Rattle.std.specs.Prelude.{◌≡◌, []};
    ghost use Rattle.crossbeam_queue.specs.Passes.{view as seat_view};
    ghost use Rattle.mc_hits.specs.Views.{DealerView};
    ghost use Rattle.mc_hits.specs.declared.rule.View.TheVariants as views;

    ghost Value = { DealerView };

    ghost view = { λ d. record { table = d.root.table_id; given = d.given } };

    ghost invariant = { λ d. (seat_view d.root ≡ views.Root (record { given = d.given })) × (d.root.me.1 ≡ []) };
}

impl Dealer {
    // The hand of the next caller.
    pub(crate) fn deal(&mut self, hits: &Hits) -> Hand
        requires queue { self.old.table ≡ hits.now.table }
        requires more { self.old.given + 1 < 2 ^ 32 }
        ensures given { self.new ≡ record self.old { given = self.old.given + 1 } }
        ensures hand { result ≡ untouched_hand self.old.table self.old.given }
    {
        let caller = self.given;
        let place = hits.queue.another::<Deals>(&mut self.root);
        self.given += 1;
        Hand::at(caller, place)
    }
}
