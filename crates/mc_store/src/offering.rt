//! Offering a hit to the queue of its class.
ghost use Rattle.std.specs.Prelude.{◌≡◌, ◌+◌, IfSome};
ghost use Rattle.mc_evidence.specs.Setting.{IsClass};
ghost use Rattle.mc_hits.specs.{Rule.AreBefore, Views.tables_of};
ghost use Rattle.mc_store.specs.{Hits.OffersOne, Locked.setting_of};

use crate::named::Named;
use crate::store::Store;
use mc_hits::Hands;
use mc_item::Link;
use std::sync::Wait;

impl<N: Named> Store<N> {
    // Offers a turn's hit of the item that it made ACTIVE, if it did, to the queue of the item's class. A full queue drops it.
    pub(crate) fn offer(&self, rt: &impl Wait, hands: &mut Hands, turn: u64, woken: Option<Link>)
        requires class { IfSome woken (λ link. IsClass (setting_of N.config) link.class) }
        requires hands { hands.old.tables ≡ tables_of N.queues }
        requires turn { AreBefore turn hands.old.offers }
        ensures offers { OffersOne turn woken hands.old hands.new }
        ensures same { hands.new ≡ record hands.old { offers = hands.new.offers } }
        ensures before { AreBefore (turn + 1) hands.new.offers }
    {
        if let Some(link) = woken {
            let queue = link.class.0 as usize - 1;
            self.queues.offer(rt, hands, queue, turn, link.number);
        }
    }
}
