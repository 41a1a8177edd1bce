//! Taking the hits of a class's queue, and advancing the entries that they name.
ghost use Rattle.std.specs.Prelude.{false, ◌≡◌, ◌+◌, ◌≤◌, IfOk, IfErr, MatchResult, OnOk, OnErr};
ghost use Rattle.mc_hits.specs.Views.{tables_of};
ghost use Rattle.mc_pull.specs.Growth as classes;
ghost use Rattle.mc_pull.specs.Rounds.{rounds, rounds_by};
ghost use Rattle.mc_store.specs.{Accounts.IsOfWalk, Accounts.StillCalls, Callers.juggling_of, Calls.IsUpkeepCut, Calls.IsUpkept};
ghost use Rattle.mc_store.specs.Hits.{IsAdvancedBy, IsAdvancedTill, IsAdvancedWith, MayUpkeep, Takes, queue_of};
ghost use Rattle.mc_store.specs.{Locked.HasBegunAs, Reached.IsSeenState, Serving.MayFailSeen, Walking.LeavesTokens, Walking.MayTry};
ghost use Rattle.mc_store.specs.Walking.{StillWalks, class_sight};

use crate::caller::Caller;
use crate::gates::Trying;
use crate::locked::LockedClass;
use crate::named::Named;
use crate::task::Call;
use crate::walking::juggle_under;
use mc_history::GhostList;
use mc_hits::Hands;
use mc_item::{Fault, Moves};
use mc_pull::{Context, advance};
use mc_segment::ClassState;
use std::sync::Wait;

/// How many hits a call takes from a queue, at most. A queue has room for as many.
pub const MOST_HITS: usize = 256;

impl<'a, N: Named> Trying<'a, N> {
    // Advances the entry of a hit by `advance`, whose contract is for any gate. This one adds what is true of this gate: it holds
    // the same references, it judges by a state that the stripe had after all that its token had seen of it, its caller's account
    // gains only events of the class and of stripes, and the class gains only events of this call.
    fn advance(
        &mut self,
        context: Context<'_>,
        class: &mut ClassState,
        number: u64,
    ) -> Result<bool, Fault>
        requires gate { MayTry N.board.table N.config context self.old.caller.now self.old.owner.now self.old.seen.now class.old self.old.who
            self.old.moment }
        ensures advanced { IfOk result (IsAdvancedWith (IsSeenState N.config.stripes self.old.seen.now.sight self.new.seen.now.sight)
            (rounds_by class.old context.entry) number class.old.history class.new.history) }
        ensures err { OnErr result (class.new.history ≡ class.old.history) }
        ensures gains { classes.GainsFor false class.old class.new }
        ensures fault { IfErr result (MayFailSeen N.config self.new.seen.now.sight class.new) }
        ensures references { (self.new.caller.ghost_name ≡ self.old.caller.ghost_name) × (self.new.owner.ghost_name ≡ self.old.owner.ghost_name)
            × (self.new.seen.ghost_name ≡ self.old.seen.ghost_name) }
        ensures still { StillWalks N.config class.old.number context.entry.turn.who.turn self.old.seen.now.sight self.new.seen.now.sight
            class.old.history class.new.history self.old.caller.now self.new.caller.now }
        ensures left { LeavesTokens N.board.table N.config context.entry.turn.who context.entry.turn.moment self.old.seen.now.sight class.old
            self.new.owner.now self.new.seen.now class.new }
    {
        let moved = advance(context, class, number, self);
        let store = self.store;
        let who = self.who;
        Caller::catch_up_class(
            &mut *self.caller,
            &store.board,
            who,
            class,
            &mut *self.owner,
        );
        moved
    }
}

// Advances the entry of a hit under its class's lock. The lock of the entry's stripe is only tried.
fn advance_under<N: Named>(
    call: Call<'_, N>,
    class: &mut LockedClass<N>,
    number: u64,
    caller: &mut Caller<N>,
) -> Result<bool, Fault>
    requires begun { HasBegunAs N.config class.old.sight call.turn.who call.turn.moment (juggling_of class.old.class.number call.turn.moment) }
    requires caller { call.turn.who.caller ≡ caller.old.number }
    ensures advanced { IfOk result (IsAdvancedWith (IsSeenState N.config.stripes class.old.sight class.new.sight) (rounds class.old.class
        call.entry.turn.who call.entry.turn.moment N.config) number class.old.class.history class.new.class.history) }
    ensures err { OnErr result (class.new.class.history ≡ class.old.class.history) }
    ensures class { classes.GainsEvents class.old.class class.new.class }
    ensures begun { HasBegunAs N.config class.new.sight call.entry.turn.who call.entry.turn.moment (juggling_of class.new.class.number
        call.entry.turn.moment) }
    ensures still { StillCalls (IsOfWalk N.config class.old.class.number) call.entry.turn.who.turn (class_sight N.config class.old)
        (class_sight N.config class.new) caller.old caller.new }
    ensures fault { IfErr result (MayFailSeen N.config class.new.sight class.new.class) }
{
    let store = call.store;
    let who = call.turn.who;
    let side = &mut class.side;
    let mut gate = Trying {
        store,
        caller: &mut *caller,
        owner: &mut side.owner,
        seen: &mut side.seen,
        answers: &mut GhostList::new(),
        who,
        moment: call.turn.moment,
    };
    let context = Context {
        turn: call.turn,
        config: &store.config,
    };
    gate.advance(context, &mut side.state, number)
}

// Takes hits from the queue of a class whose lock is held, one by one, and advances the entry of each. It ends when the queue is
// empty, or after 256 hits. After a fault the hit is gone, and the others stay queued.
fn advance_hits<N: Named>(
    call: Call<'_, N>,
    rt: &impl Wait,
    class: &mut LockedClass<N>,
    hands: &mut Hands,
    caller: &mut Caller<N>,
) -> Result<(), Fault>
    requires upkeep { MayUpkeep N.config (tables_of N.queues) class.old call.turn hands.old caller.old }
    ensures advanced { OnOk result (IsAdvancedBy (IsSeenState N.config.stripes class.old.sight class.new.sight) (rounds class.old.class
        call.entry.turn.who call.entry.turn.moment N.config) hands.old hands.new class.old.class.history class.new.class.history) }
    ensures cut { OnErr result (IsAdvancedTill (IsSeenState N.config.stripes class.old.sight class.new.sight) (rounds class.old.class
        call.entry.turn.who call.entry.turn.moment N.config) hands.old hands.new class.old.class.history class.new.class.history) }
    ensures same { hands.new ≡ record hands.old { takings = hands.new.takings } }
    ensures class { classes.GainsEvents class.old.class class.new.class }
    ensures begun { HasBegunAs N.config class.new.sight call.entry.turn.who call.entry.turn.moment (juggling_of class.new.class.number
        call.entry.turn.moment) }
    ensures still { StillCalls (IsOfWalk N.config class.old.class.number) call.entry.turn.who.turn (class_sight N.config class.old)
        (class_sight N.config class.new) caller.old caller.new }
    ensures fault { IfErr result (MayFailSeen N.config class.new.sight class.new.class) }
{
    let store = call.store;
    let queue = class.side().number().0 as usize - 1;
    'hits: for _ in 0..MOST_HITS {
        let Some(hit) = store.queues.take(rt, hands, queue) else {
            break;
        };
        advance_under(call, class, hit.number, caller)?;
    }
    Ok(())
}

// Advances the hits of a class's queue, then juggles the class, under its lock. The locks of stripes are only tried.
pub(crate) fn upkeep_under<N: Named>(
    call: Call<'_, N>,
    rt: &impl Wait,
    class: &mut LockedClass<N>,
    hands: &mut Hands,
    caller: &mut Caller<N>,
) -> Result<Moves, Fault>
    requires upkeep { MayUpkeep N.config (tables_of N.queues) class.old call.turn hands.old caller.old }
    ensures upkept { MatchResult result
        (IsUpkept (IsSeenState N.config.stripes class.old.sight class.new.sight) (rounds class.old.class call.entry.turn.who call.entry.turn.moment
        N.config) hands.old hands.new class.old.class.history class.new.class.history)
        (IsUpkeepCut (IsSeenState N.config.stripes class.old.sight class.new.sight) (rounds class.old.class call.entry.turn.who
        call.entry.turn.moment N.config) hands.old hands.new class.old.class.history class.new.class.history) }
    ensures taken { Takes (queue_of class.old.class.number) hands.old hands.new }
    ensures same { hands.new ≡ record hands.old { takings = hands.new.takings } }
    ensures few { IfOk result (λ moves. moves.reclaimed + moves.moved ≤ 10000) }
    ensures class { classes.GainsEvents class.old.class class.new.class }
    ensures still { StillCalls (IsOfWalk N.config class.old.class.number) call.entry.turn.who.turn (class_sight N.config class.old)
        (class_sight N.config class.new) caller.old caller.new }
    ensures fault { IfErr result (MayFailSeen N.config class.new.sight class.new.class) }
{
    advance_hits(call, rt, class, hands, caller)?;
    juggle_under(call, class, caller)
}
