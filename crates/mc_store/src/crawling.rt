//! The crawl of a class that threads share: a snapshot of its links under its lock, then each link under the lock again.
ghost use Rattle.std.specs.Prelude.{◌≡◌, ◌⊎◌, ◌+◌, ◌^◌, length, IfErr, IfOk, MatchResult, OnOk, IsErrOf, ◌≤◌, []};
ghost use Rattle.mc_item.specs.declared.fault.Fault.TheVariants.{HistoryFull, NoMemory};
ghost use Rattle.mc_evidence.specs.Setting.{IsClass};
ghost use Rattle.mc_board.specs.Histories.{list_at};
ghost use Rattle.mc_pull.specs.Growth as classes;
ghost use Rattle.mc_crawl.specs.CrawlCount.{IsBalanced, MayCount};
ghost use Rattle.mc_store.specs.Accounts.{Enters, IsOfStretch, IsOfStretches, StillCalls, Stretch, stretch_of};
ghost use Rattle.mc_store.specs.Crawls.{CountsOne, HasCountedLink, IsCrawledBy, IsCrawledTill, IsSeenSound, IsSnapshot, MayCrawl};
ghost use Rattle.mc_store.specs.{Locked.class_lock, Locked.setting_of, Locked.HasBegunAs};
ghost use Rattle.mc_store.specs.{Reached.seen_stripes, Sides.class_told, Serving.IsLater, Serving.IsShortFor, Serving.MayFailSeen};
ghost use Rattle.mc_store.specs.Walking.{LeavesTokens, MayTry, StillWalksFrom, class_sight};
ghost use Rattle.mc_store.specs.{Callers.crawling_of, Callers.turns_of, Calls.IsUnbegun};

use crate::caller::Caller;
use crate::gates::Trying;
use crate::locked::LockedClass;
use crate::named::Named;
use crate::pass::Pass;
use crate::store::Store;
use crate::task::Call;
use mc_crawl::{crawl_one, snapshot};
use mc_history::GhostList;
use mc_item::{CallEvent, ClassNo, Fault, Histogram, Link, Worked};
use mc_pull::Context;
use mc_segment::ClassState;
use mc_stripe::Turn;
use std::alloc::Global;
use std::sync::Wait;

// What is fixed for the crawl of a class: the class, and the call's turn.
#[derive(Clone, Copy)]
struct Crawling {
    class: ClassNo,
    turn: Turn,
}

impl<'a, N: Named> Trying<'a, N> {
    // Crawls one link of a class by `crawl_one`, whose contract is for any gate. This one adds what is true of this gate: it
    // holds the same references, its caller's account gains only events of the class and of stripes, and the class gains only
    // events of this call.
    fn crawl(
        &mut self,
        context: Context<'_>,
        class: &mut ClassState,
        link: Link,
        histogram: &mut Histogram,
    ) -> Result<(), Fault>
        requires gate { MayTry N.board.table N.config context self.old.caller.now self.old.owner.now self.old.seen.now class.old self.old.who
            self.old.moment }
        requires counts { MayCount histogram.old }
        ensures counted { MatchResult result (λ done. CountsOne N.config (seen_stripes self.old.seen.now.sight) (seen_stripes self.new.seen.now.sight)
            class.old class.new context.entry.turn link histogram.old histogram.new) (λ fault. class.new.history ≡ class.old.history) }
        ensures balanced { IsBalanced histogram.old → IsBalanced histogram.new }
        ensures fault { IfErr result (MayFailSeen N.config self.new.seen.now.sight class.new) }
        ensures references { (self.new.caller.ghost_name ≡ self.old.caller.ghost_name) × (self.new.owner.ghost_name ≡ self.old.owner.ghost_name)
            × (self.new.seen.ghost_name ≡ self.old.seen.ghost_name)
            × StillWalksFrom N.config class.old.number (length self.old.owner.now.history) context.entry.turn.who.turn self.old.seen.now.sight
            self.new.seen.now.sight class.old.history class.new.history self.old.caller.now self.new.caller.now }
        ensures left { LeavesTokens N.board.table N.config context.entry.turn.who context.entry.turn.moment self.old.seen.now.sight class.old
            self.new.owner.now self.new.seen.now class.new }
    {
        let done = crawl_one(context, class, link, histogram, self);
        let store = self.store;
        let who = self.who;
        Caller::catch_up_class(
            &mut *self.caller,
            &store.board,
            who,
            class,
            &mut *self.owner,
        );
        done
    }
}

// Crawls one link of a class under its lock. The lock of the entry's stripe is only tried.
fn crawl_under<N: Named>(
    call: Call<'_, N>,
    class: &mut LockedClass<N>,
    link: Link,
    histogram: &mut Histogram,
    caller: &mut Caller<N>,
) -> Result<(), Fault>
    requires begun { HasBegunAs N.config class.old.sight call.turn.who call.turn.moment (crawling_of class.old.class.number call.turn.moment) }
    requires caller { call.turn.who.caller ≡ caller.old.number }
    requires counts { MayCount histogram.old }
    ensures counted { MatchResult result (λ done. CountsOne N.config (seen_stripes class.old.sight) (seen_stripes class.new.sight) class.old.class
        class.new.class call.entry.turn link histogram.old histogram.new) (λ fault. class.new.class.history ≡ class.old.class.history) }
    ensures balanced { IsBalanced histogram.old → IsBalanced histogram.new }
    ensures class { classes.GainsEvents class.old.class class.new.class }
    ensures still { StillCalls (IsOfStretch N.config class.old.class.number (stretch_of class.old.class class.new.class)) call.entry.turn.who.turn
        (class_sight N.config class.old) (class_sight N.config class.new) caller.old caller.new }
    ensures fault { IfErr result (MayFailSeen N.config class.new.sight class.new.class) }
{
    let store = call.store;
    let who = call.turn.who;
    let side = &mut class.side;
    let mut gate = Trying {
        store,
        caller: &mut *caller,
        owner: &mut side.owner,
        seen: &mut side.seen,
        answers: &mut GhostList::new(),
        who,
        moment: call.turn.moment,
    };
    let context = Context {
        turn: call.turn,
        config: &store.config,
    };
    gate.crawl(context, &mut side.state, link, histogram)
}

impl<N: Named> Store<N> {
    // Returns a snapshot of the links of a class, made under the class's lock, for which it waits.
    fn snapshot_of(
        &self,
        alloc: Global,
        rt: &impl Wait,
        pass: &mut Pass<N>,
        class: ClassNo,
    ) -> Result<Vec<Link>, Fault>
        requires class { IsClass (setting_of N.config) class }
        ensures links { IfOk result (λ links. (snapshot : IsSnapshot N.config class pass.old.sight pass.new.sight (length links.items))
            × (snapshot.links ≡ links.items) × (list_at pass.new.sight.seen (class_lock N.config class) ≡ class_told snapshot.history)) }
        ensures few { IfOk result (λ links. length links.items ≤ 2 ^ 32) }
        ensures sound { IsSeenSound N.config class pass.new.sight }
        ensures grows { IsLater pass.old.sight pass.new.sight }
        ensures same { pass.new ≡ record pass.old { sight = pass.new.sight } }
        ensures memory { IfErr result (λ fault. fault ≡ NoMemory) }
    {
        let mut guard = self.lock_class(rt, class);
        let own = &mut *guard;
        own.side.compare(&self.board, &mut pass.seen);
        own.side.share(&self.board, &mut pass.seen);
        let links = snapshot(alloc, own.side.state())?;
        Ok(links)
    }

    // Crawls one link of a class under its lock, for which it waits. The class learns what the pass has seen, so the entry's stripe is
    // found after that. The events that it makes are of the class and of stripes.
    fn crawl_link(
        &self,
        rt: &impl Wait,
        pass: &mut Pass<N>,
        crawling: Crawling,
        link: Link,
        histogram: &mut Histogram,
    ) -> Result<(), Fault>
        requires may { MayCrawl N.config pass.old crawling.class crawling.turn }
        requires counts { MayCount histogram.old }
        ensures balanced { IsBalanced histogram.old → IsBalanced histogram.new }
        ensures counted { MatchResult result
            (λ done. (stretch : Stretch)
            × HasCountedLink N.config crawling.class pass.old.sight pass.new.sight crawling.turn link stretch histogram.old histogram.new
            × Enters (IsOfStretch N.config crawling.class stretch) crawling.turn.who.turn pass.new.sight pass.old.made pass.new.made)
            (λ fault. Enters (IsOfStretches N.config crawling.class []) crawling.turn.who.turn pass.new.sight pass.old.made pass.new.made) }
        ensures sound { IsSeenSound N.config crawling.class pass.new.sight }
        ensures grows { IsLater pass.old.sight pass.new.sight }
        ensures same { pass.new ≡ record pass.old { sight = pass.new.sight; made = pass.new.made } }
        ensures full { IsErrOf result HistoryFull → IsShortFor N.config crawling.class pass.new.sight }
    {
        let Crawling { class, turn } = crawling;
        let call = Call { store: self, turn };
        let mut guard = self.lock_class(rt, class);
        let own = &mut *guard;
        own.side.compare(&self.board, &mut pass.seen);
        own.learn(&self.board, &mut pass.seen);
        pass.caller.tell_class(&self.board, own);
        let done = crawl_under(call, own, link, histogram, &mut pass.caller);
        own.side.share(&self.board, &mut pass.seen);
        done
    }

    /// Crawls a class, and returns a histogram that counts each of its links as one kind, at most 2^32 links.
    /// It takes a snapshot of the links under the class's lock, then looks at each link under the lock again. It waits for the
    /// class's lock, and only tries those of stripes. A link is counted by its item as the stripe has it after all that the pass had
    /// seen of the stripe. An item that is dead at `moment` is removed, with its entry. `moment` is the time in whole seconds. The
    /// events that it makes are of this class and of stripes.
    /// After a fault what happened so far stays: none of the links was counted, or not all. `HistoryFull` comes only if the history
    /// of this class or of a stripe is full, or the pass has had `max_events` turns. `NoMemory` comes if an allocation fails.
    pub fn crawl(
        &self,
        alloc: Global,
        rt: &impl Wait,
        pass: &mut Pass<N>,
        class: ClassNo,
        moment: u64,
    ) -> Result<Histogram, Fault>
        requires class { IsClass (setting_of N.config) class }
        ensures crawled { IfOk result (IsCrawledBy N.config class pass.old pass.new moment) }
        ensures cut { IfErr result (λ fault. IsUnbegun N.config pass.old pass.new fault ⊎ IsCrawledTill N.config class pass.old pass.new moment fault) }
        ensures few { IfOk result (λ histogram. histogram.seen ≤ 2 ^ 32) }
        ensures hands { pass.new.hands ≡ pass.old.hands }
        ensures grows { IsLater pass.old.sight pass.new.sight }
        ensures caller { pass.new.caller ≡ pass.old.caller }
        ensures turn { (pass.new.turn ≡ length (turns_of pass.new.calls)) × OnOk result (pass.new.turn ≡ pass.old.turn + 1) }
    {
        let event = CallEvent::Crawled(Worked { class, moment });
        let who = pass.take_turn(self, &event)?;
        let links = self.snapshot_of(alloc, rt, pass, class)?;
        let mut histogram = Histogram::new();
        for i in 0..links.len() {
            let turn = Turn { who, moment };
            let crawling = Crawling { class, turn };
            self.crawl_link(rt, pass, crawling, links[i], &mut histogram)?;
        }
        Ok(histogram)
    }
}
