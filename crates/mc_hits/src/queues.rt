//! The queues of all classes.
ghost use Rattle.std.specs.Prelude.{◌≡◌, ℕ, ◌+◌, ◌<◌, ◌^◌, IfOk, IfNone, IfSome, MatchBool, length};
ghost use Rattle.std.specs.List.{All, Contains};
ghost use Rattle.mc_hits.specs.Rule.{IsBefore, AreBefore};
ghost use Rattle.mc_hits.specs.Views.{tables_of, HasRoom, hit_of, hits_at, with_hit, dealers_at, untouched_hands, AreHands};

use crate::hand::Dealer;
use crate::hands::Hands;
use crate::hits::Hits;
use crate::rule::Hit;
use mc_item::NoMemory;
use std::alloc::Global;
use std::marker::Model;
use std::sync::Wait;

/// The queues of hits of all slab classes, in the classes' order.
#[derive(Drop)]
pub struct Queues {
    each: Vec<Hits>,
}

impl Model for Queues {
    ghost use Rattle.std.specs.Prelude.{List};
    ghost use Rattle.mc_hits.specs.Views.{HitsView};

    ghost Value = { List HitsView };

    ghost view = { λ q. q.each.items };
}

impl Queues {
    /// Opens so many queues, each with room for so many hits, and returns them with each caller's hands, in the callers'
    /// order. Nothing has been offered or taken.
    /// Errors: `NoMemory`.
    pub fn open(
        alloc: Global,
        queues: usize,
        room: usize,
        callers: u32,
    ) -> Result<(Queues, Vec<Hands>), NoMemory>
        requires room { 0 < room }
        ensures queues { IfOk result (λ r. length r.0 ≡ queues) }
        ensures room { IfOk result (λ r. All (HasRoom room) r.0) }
        ensures hands { IfOk result (λ r. AreHands (tables_of r.0) callers r.1.items) }
    {
        let (each, mut dealers) = open_each(alloc, queues, room)?;
        let mut all = Vec::new(alloc);
        for caller in 0..callers {
            let hands = deal(alloc, each.as_slice(), dealers.as_mut_slice(), caller)?;
            all.push(hands)?;
        }
        Ok((Queues { each }, all))
    }

    /// Offers a hit of the caller's turn to a queue, and returns whether the queue had room for it. If not, nothing changes.
    /// It waits for callers that are in the middle of such a call.
    pub fn offer<R: Wait>(
        &self,
        rt: &R,
        hands: &mut Hands,
        queue: usize,
        turn: u64,
        number: u64,
    ) -> bool
        requires hands { hands.old.tables ≡ tables_of self.now }
        requires queue { queue < length self.now }
        requires turn { All (IsBefore turn) (hits_at hands.old.offers queue) }
        ensures hands { MatchBool result
            (hands.new ≡ record hands.old { offers = with_hit hands.old.offers queue (hit_of hands.old.caller turn number) })
            (hands.new ≡ hands.old) }
        ensures before { (bound : ℕ) → turn < bound → AreBefore turn hands.old.offers → AreBefore bound hands.new.offers }
    {
        self.each[queue].offer(rt, &mut hands.each[queue], turn, number)
    }

    /// Takes the oldest hit of a queue, if there is one. The caller hasn't taken it before. It waits for callers that are
    /// in the middle of such a call.
    pub fn take<R: Wait>(&self, rt: &R, hands: &mut Hands, queue: usize) -> Option<Hit>
        requires hands { hands.old.tables ≡ tables_of self.now }
        requires queue { queue < length self.now }
        ensures taken { IfSome result (λ hit. hands.new ≡ record hands.old { takings = with_hit hands.old.takings queue hit }) }
        ensures once { IfSome result (λ hit. ¬ (Contains (hits_at hands.old.takings queue) hit)) }
        ensures none { IfNone result (hands.new ≡ hands.old) }
    {
        self.each[queue].take(rt, &mut hands.each[queue])
    }
}

// Opens so many queues, and returns them with what gives out the hands of each, in the same order.
fn open_each(
    alloc: Global,
    queues: usize,
    room: usize,
) -> Result<(Vec<Hits>, Vec<Dealer>), NoMemory>
    requires room { 0 < room }
    ensures queues { IfOk result (λ r. length r.0.items ≡ queues) }
    ensures room { IfOk result (λ r. All (HasRoom room) r.0.items) }
    ensures dealers { IfOk result (λ r. r.1.items ≡ dealers_at 0 r.0.items) }
{
    let mut each = Vec::new(alloc);
    let mut dealers = Vec::new(alloc);
    for _queue in 0..queues {
        let (hits, dealer) = Hits::open(alloc, room)?;
        each.push(hits)?;
        dealers.push(dealer)?;
    }
    Ok((each, dealers))
}

// Gives out the hands of the next caller.
fn deal(
    alloc: Global,
    queues: &[Hits],
    dealers: &mut [Dealer],
    caller: u32,
) -> Result<Hands, NoMemory>
    requires dealers { dealers.old ≡ dealers_at caller queues.now }
    requires more { caller + 1 < 2 ^ 32 }
    ensures given { IfOk result (λ _. dealers.new ≡ dealers_at (caller + 1) queues.now) }
    ensures hands { IfOk result (λ hands. hands ≡ untouched_hands (tables_of queues.now) caller) }
{
    let mut each = Vec::new(alloc);
    for queue in 0..queues.len() {
        let hand = dealers[queue].deal(&queues[queue]);
        each.push(hand)?;
    }
    Ok(Hands { caller, each })
}
