//! Gates: how a walk under a class's lock reaches the stripes of its entries. A stripe's lock is tried, and never waited for.
ghost use Rattle.std.specs.Prelude.{◌≡◌, ◌≢◌, ◌≤◌, ◌↔◌, ◌+◌, IfErr, IfOk, IfSome, MatchResult, false, length, true};
ghost use Rattle.std.specs.Sync.Mutex.{mutex_guard_value};
ghost use Rattle.mc_pull.specs.{Growth.GainsFor, Rounds.rounds_by};
ghost use Rattle.mc_pull.specs.Walker.{walker_by};
ghost use Rattle.mc_store.specs.{Calls.IsJuggleCut, Calls.IsJuggledWith, Earned.HasSearchedForAny, Reached.IsSeenState, Serving.MayFailSeen};
ghost use Rattle.mc_store.specs.Searches.{IsSearchBroken, IsSearchedWith};
ghost use Rattle.mc_store.specs.Walking.{LeavesSearch, LeavesTokens, MayTry, StillWalks, StillWalksFrom};

use crate::caller::Caller;
use crate::judging::judge;
use crate::locked::LockedStripe;
use crate::named::Named;
use crate::store::Store;
use mc_board::{Owner, Seen};
use mc_history::GhostList;
use mc_item::{Fault, Moves, StripeNo, Who};
use mc_pull::{Answer, Context, Gate, Look, a_search_in_vain_has_tried, juggle, make_room};
use mc_segment::ClassState;
use std::sync::MutexGuard;

/// A gate for one call (`who`, at `moment`). It tries the lock of each stripe that is asked for, and passes the entry if the lock
/// isn't free, or if another call asks.
/// It holds the call's caller, the owner and token of the class that is walked, and a list for its answers, which only contracts
/// see. The token has seen that the call began.
#[derive(Drop)]
pub(crate) struct Trying<'a, N: Named> {
    pub(crate) store: &'a Store<N>,
    pub(crate) caller: &'a mut Caller<N>,
    pub(crate) owner: &'a mut Owner,
    pub(crate) seen: &'a mut Seen,
    pub(crate) answers: &'a mut GhostList<Answer>,
    pub(crate) who: Who,
    pub(crate) moment: u64,
}

impl<'a, N: Named> Trying<'a, N> {
    // Whether a look belongs to the gate's call.
    fn is_own(&self, look: &Look<'_>) -> bool
        ensures { result ≡ true ↔ (look.now.ask.who ≡ self.now.who) × (look.now.ask.moment ≡ self.now.moment) }
    {
        look.ask.who == self.who && look.ask.moment == self.moment
    }

    // The stripe for a look, if its lock is free and the look belongs to the gate's call.
    fn free_stripe(
        &self,
        stripe: StripeNo,
        look: &Look<'_>,
    ) -> Option<MutexGuard<'a, LockedStripe<N>>>
        ensures of { IfSome result (λ guard. (mutex_guard_value guard).stripe.site.stripe ≡ stripe.0) }
        ensures own { IfSome result (λ guard. (look.now.ask.who ≡ self.now.who) × (look.now.ask.moment ≡ self.now.moment)) }
    {
        if !self.is_own(look) {
            return None;
        }
        self.store.try_stripe(stripe)
    }
}

impl<'a, N: Named> Trying<'a, N> {
    // Juggles a class by `juggle`, whose contract is for any gate. This one adds what is true of this gate: it holds the same
    // references, it judges by states that stripes had after all that its token had seen of them, its caller's account gains only
    // events of the class and of stripes, and the class gains only events of this call, all of which the board then has.
    pub(crate) fn juggle(
        &mut self,
        context: Context<'_>,
        class: &mut ClassState,
    ) -> Result<Moves, Fault>
        requires gate { MayTry N.board.table N.config context self.old.caller.now self.old.owner.now self.old.seen.now class.old self.old.who
            self.old.moment }
        ensures juggle { MatchResult result
            (IsJuggledWith (IsSeenState N.config.stripes self.old.seen.now.sight self.new.seen.now.sight) (rounds_by class.old context.entry)
            class.old.history class.new.history)
            (λ fault. IsJuggleCut (IsSeenState N.config.stripes self.old.seen.now.sight self.new.seen.now.sight) (rounds_by class.old context.entry)
            fault class.old.history class.new.history) }
        ensures few { IfOk result (λ moves. moves.reclaimed + moves.moved ≤ 10000) }
        ensures gains { GainsFor false class.old class.new }
        ensures fault { IfErr result (MayFailSeen N.config self.new.seen.now.sight class.new) }
        ensures references { (self.new.caller.ghost_name ≡ self.old.caller.ghost_name) × (self.new.owner.ghost_name ≡ self.old.owner.ghost_name)
            × (self.new.seen.ghost_name ≡ self.old.seen.ghost_name) }
        ensures still { StillWalks N.config class.old.number context.entry.turn.who.turn self.old.seen.now.sight self.new.seen.now.sight
            class.old.history class.new.history self.old.caller.now self.new.caller.now }
        ensures left { LeavesTokens N.board.table N.config context.entry.turn.who context.entry.turn.moment self.old.seen.now.sight class.old
            self.new.owner.now self.new.seen.now class.new }
    {
        let moves = juggle(context, class, self);
        let store = self.store;
        let who = self.who;
        Caller::catch_up_class(
            &mut *self.caller,
            &store.board,
            who,
            class,
            &mut *self.owner,
        );
        moves
    }
}

impl<'a, N: Named> Gate for Trying<'a, N> {
    ghost use Rattle.std.specs.Prelude.{◌≡◌, ◌≤◌, ◌∷◌, [], length};
    ghost use Rattle.mc_store.specs.{Locked.HasBegun, Made.WalksOwn, Reached.GainsAnswers, Reached.IsSeenState, Serving.IsServed, Serving.MayFailSeen};
    ghost use Rattle.mc_store.specs.Walking.{StillWalksFrom};

    ghost answers = { λ g. g.answers.now };

    ghost serves = { λ g config who c. (config ≡ N.config) × IsServed N.board.table N.config who g.owner.now g.seen.now c
        × HasBegun N.config g.seen.now.sight g.who g.moment × (g.who.caller ≡ g.caller.now.number) };

    ghost reaches = { λ g h. IsSeenState N.config.stripes g.seen.now.sight h.seen.now.sight };

    ghost references = { λ g. g.caller.ghost_name ∷ g.owner.ghost_name ∷ g.seen.ghost_name ∷ [] };

    ghost faults = { λ g c. MayFailSeen N.config g.seen.now.sight c };

    ghost keeps = { λ w g begun h history. (h.who ≡ g.who) × (h.moment ≡ g.moment)
        × WalksOwn w.who w.moment g.seen.now.sight h.seen.now.sight begun history
        × (length g.owner.now.history ≤ length h.owner.now.history)
        × StillWalksFrom N.config w.class (length g.owner.now.history) w.who.turn g.seen.now.sight h.seen.now.sight begun history g.caller.now
        h.caller.now
        × GainsAnswers N.config.stripes g.seen.now.sight h.seen.now.sight g.answers.now h.answers.now };

    fn visit(&mut self, stripe: StripeNo, look: &mut Look<'_>) -> Result<bool, Fault> {
        let Some(mut guard) = self.free_stripe(stripe, look) else {
            self.answers.push(&Answer {
                stripe,
                judged: None,
            });
            return Ok(false);
        };
        let own = &mut *guard;
        let store = self.store;
        own.learn(&store.board, &mut *self.seen);
        let judged = judge(
            &store.board,
            own,
            &mut *self.caller,
            &mut *self.owner,
            &mut *self.seen,
            look,
        )?;
        self.answers.push(&Answer {
            stripe,
            judged: Some(judged),
        });
        Ok(true)
    }
}

/// A gate for a call that has locked one stripe already. It uses that stripe, and tries the locks of the others.
#[derive(Drop)]
pub(crate) struct Holding<'a, 'b, N: Named> {
    pub(crate) own: &'a mut LockedStripe<N>,
    pub(crate) others: Trying<'b, N>,
}

impl<'a, 'b, N: Named> Gate for Holding<'a, 'b, N> {
    ghost use Rattle.std.specs.Prelude.{◌≡◌, ◌≤◌, ◌∷◌, [], length};
    ghost use Rattle.mc_pull.specs.Lone.{StripeGrows};
    ghost use Rattle.mc_store.specs.{Looked.HasLooked, Looked.IsOfCall, Locked.HasBegun, Made.WalksOwn, Walking.StillWalksFrom};
    ghost use Rattle.mc_store.specs.{Reached.GainsAnswers, Reached.IsSeenState, Serving.IsServed, Serving.MayFailSeen};

    ghost answers = { λ g. g.others.answers.now };

    ghost serves = { λ g config who c. (config ≡ N.config) × IsServed N.board.table N.config who g.others.owner.now g.others.seen.now c
        × HasBegun N.config g.others.seen.now.sight g.others.who g.others.moment × (g.others.who.caller ≡ g.others.caller.now.number) };

    ghost reaches = { λ g h. IsSeenState N.config.stripes g.others.seen.now.sight h.others.seen.now.sight };

    ghost references = { λ g. g.own.ghost_name ∷ g.others.caller.ghost_name ∷ g.others.owner.ghost_name ∷ g.others.seen.ghost_name ∷ [] };

    ghost faults = { λ g c. MayFailSeen N.config g.others.seen.now.sight c };

    ghost keeps = { λ w g begun h history. StripeGrows w g.own.now.stripe h.own.now.stripe
        × (IsOfCall w g.others.who g.others.moment → IsOfCall w h.others.who h.others.moment
        × HasLooked N.config.stripes w g.own.now.stripe g.others.answers.now h.others.answers.now begun history)
        × WalksOwn w.who w.moment g.others.seen.now.sight h.others.seen.now.sight begun history
        × (length g.others.owner.now.history ≤ length h.others.owner.now.history)
        × StillWalksFrom N.config w.class (length g.others.owner.now.history) w.who.turn g.others.seen.now.sight h.others.seen.now.sight begun
        history g.others.caller.now h.others.caller.now
        × GainsAnswers N.config.stripes g.others.seen.now.sight h.others.seen.now.sight g.others.answers.now h.others.answers.now };

    fn visit(&mut self, stripe: StripeNo, look: &mut Look<'_>) -> Result<bool, Fault> {
        if !self.lends(stripe, look) {
            return self.others.visit(stripe, look);
        }
        let own = &mut *self.own;
        let others = &mut self.others;
        let store = others.store;
        own.learn(&store.board, &mut *others.seen);
        let judged = judge(
            &store.board,
            own,
            &mut *others.caller,
            &mut *others.owner,
            &mut *others.seen,
            look,
        )?;
        others.answers.push(&Answer {
            stripe,
            judged: Some(judged),
        });
        Ok(true)
    }
}

impl<'a, 'b, N: Named> Holding<'a, 'b, N> {
    // Whether a look belongs to the gate's call and asks for the stripe that the gate holds.
    fn lends(&self, stripe: StripeNo, look: &Look<'_>) -> bool
        ensures own { result ≡ true → (stripe ≡ record { 0 = self.now.own.now.stripe.site.stripe }) × (look.now.ask.who ≡ self.now.others.who)
            × (look.now.ask.moment ≡ self.now.others.moment) }
        ensures other { result ≡ false → look.now.ask.who ≡ self.now.others.who → look.now.ask.moment ≡ self.now.others.moment
            → stripe ≢ record { 0 = self.now.own.now.stripe.site.stripe } }
    {
        self.own.side().number() == stripe && self.others.is_own(look)
    }

    // Makes room in a class by `make_room`, whose contract is for any gate. This one adds what is true of this gate. It holds the same
    // references, reaches its own stripe whenever it is asked for it and finds the entry's item there, and judges by states that
    // stripes had after all that its token had seen of them. Its caller's account gains only events of the class and of stripes, its
    // stripe and the class gain only events of this call, and a search that finds no chunk has tried.
    pub(crate) fn make_room(
        &mut self,
        context: Context<'_>,
        class: &mut ClassState,
    ) -> Result<bool, Fault>
        requires gate { MayTry N.board.table N.config context self.old.others.caller.now self.old.others.owner.now self.old.others.seen.now class.old
            self.old.others.who self.old.others.moment }
        ensures room { MatchResult result
            (IsSearchedWith (rounds_by class.old context.entry) (record { 0 = self.old.own.now.stripe.site.stripe }) (IsSeenState N.config.stripes
            self.old.others.seen.now.sight self.new.others.seen.now.sight) class.old.history class.new.history)
            (λ fault. IsSearchBroken (rounds_by class.old context.entry) (record { 0 = self.old.own.now.stripe.site.stripe }) (IsSeenState
            N.config.stripes self.old.others.seen.now.sight self.new.others.seen.now.sight) class.old.history class.new.history) }
        ensures gains { GainsFor true class.old class.new }
        ensures fault { IfErr result (MayFailSeen N.config self.new.others.seen.now.sight class.new) }
        ensures references { (self.new.own.ghost_name ≡ self.old.own.ghost_name) × (self.new.others.caller.ghost_name ≡ self.old.others.caller.ghost_name)
            × (self.new.others.owner.ghost_name ≡ self.old.others.owner.ghost_name) × (self.new.others.seen.ghost_name ≡ self.old.others.seen.ghost_name) }
        ensures still { (length self.old.others.owner.now.history ≤ length self.new.others.owner.now.history)
            × StillWalksFrom N.config class.old.number (length self.old.others.owner.now.history) context.entry.turn.who.turn
            self.old.others.seen.now.sight self.new.others.seen.now.sight class.old.history class.new.history self.old.others.caller.now
            self.new.others.caller.now }
        ensures left { LeavesSearch N.board.table N.config (walker_by class.old context.entry) self.old.others.seen.now.sight class.old
            self.old.own.now.stripe self.new.others.owner.now self.new.others.seen.now class.new self.new.own.now.stripe }
        ensures tried { IfOk result (λ found. found ≡ false → HasSearchedForAny N.config.stripes self.old.own.now.stripe context.entry.turn.who
            context.entry.turn.moment class.new.history) }
    {
        a_search_in_vain_has_tried();
        make_room(context, class, self)
    }
}
