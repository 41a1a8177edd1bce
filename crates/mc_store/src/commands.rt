//! One command on a store, under the lock of its key's stripe.
ghost use Rattle.std.specs.Prelude.{◌≡◌, ◌≤◌, ◌⊎◌, ◌+◌, ◌^◌, IfOk, IfErr, IfSome, OnOk, length};
ghost use Rattle.mc_item.specs.{Command.key_of, Measure.stripe_of};
ghost use Rattle.mc_evidence.specs.Setting.{IsClass};
ghost use Rattle.mc_store.specs.{Calls.IsCutBy, Calls.IsRepliedBy, Calls.IsUnbegun, Callers.turns_of, Hits.IsOffered, Locked.setting_of, Passes.next_who};
ghost use Rattle.mc_store.specs.Serving.{IsLater};
ghost use Rattle.mc_store.specs.Waking.{reply_in, woken_in};

use crate::answering::{answer, answer_for};
use crate::named::Named;
use crate::pass::Pass;
use crate::store::Store;
use crate::task::Task;
use mc_item::{
    Asking, ClassNo, Command, Config, Fault, Link, Reply, Verb, class_of, cost, stripe_of,
};
use mc_pull::Replied;
use mc_stripe::Turn;
use std::alloc::Global;
use std::sync::Wait;

// The class that a storage command's new version would be of, if there is one. That of an `append` or `prepend` depends on the
// old value.
#[inline(always)]
fn class_for(config: &Config, command: &Command) -> Option<ClassNo>
    requires { length config.now.sizes ≤ 63 }
    ensures { IfSome result (λ class. IsClass (setting_of config.now) class) }
{
    match command {
        Command::Store {
            verb,
            key,
            value,
            ..
        } => match verb {
            Verb::Append | Verb::Prepend => None,
            Verb::Set | Verb::Add | Verb::Replace | Verb::Cas(_) => {
                let cost = cost(key.bytes().len() as u64, value.bytes().len() as u64);
                class_of(config, cost)
            }
        },
        _ => None,
    }
}

// The link of the item that a command's hit made ACTIVE, if it did.
#[inline(always)]
fn woken_of(replied: &Result<Replied, Fault>) -> Option<Link>
    ensures { result ≡ woken_in replied.now }
{
    match replied {
        Ok(replied) => replied.woken,
        Err(_) => None,
    }
}

// The reply of a command, or its fault.
#[inline(always)]
fn reply_of(replied: Result<Replied, Fault>) -> Result<Reply, Fault>
    ensures { result ≡ reply_in replied }
{
    match replied {
        Ok(replied) => Ok(replied.reply),
        Err(fault) => Err(fault),
    }
}

impl<N: Named> Store<N> {
    /// Makes one command and returns its reply. The reply is what a sequential memcached gives at one point of the stripe's
    /// history, after all that the pass had seen. The caller's history gains the call and the place of its answer.
    /// It waits for the lock of the key's stripe, and then for those of at most two classes, the lower number first. `moment` is
    /// the time in whole seconds, at most 2^62.
    /// The caller's account gains events of this turn alone, all of which the pass has then seen: of the key's stripe, of classes
    /// where entries come and leave with their items, and if a new chunk is needed, those of a search in its class. The search judges
    /// an entry by its item as the item's stripe had it after all that the pass had seen.
    /// If the command's hit made its item ACTIVE, it offers the hit to the queue of the item's class, without any lock. If the queue
    /// is full, the hit is dropped.
    /// After a fault the stripe's history has gained at most what leads up to the command: the dead item's removal, and a search
    /// for a chunk. The caller's history has gained at most the call. `HistoryFull` comes only if the pass has had `max_events`
    /// turns, or a history lacks places for this command: that of the key's stripe is full, or that of a class lacks places for
    /// the entries that come and leave. To remove a dead item takes a place in each, and a step of a search at most one in each: if
    /// the class of a new chunk was ever full, it may be the history of that class or of any stripe that is full.
    /// `NoMemory` comes if an allocation fails.
    pub fn command(
        &self,
        alloc: Global,
        rt: &impl Wait,
        pass: &mut Pass<N>,
        command: Command,
        moment: u64,
    ) -> Result<Reply, Fault>
        requires early { moment ≤ 2 ^ 62 }
        ensures replied { IfOk result (IsRepliedBy N.config (stripe_of (key_of command) N.config.stripes).0 pass.old pass.new command moment) }
        ensures cut { IfErr result (λ fault. IsUnbegun N.config pass.old pass.new fault
            ⊎ IsCutBy N.config (stripe_of (key_of command) N.config.stripes).0 pass.old pass.new command moment fault) }
        ensures offers { (pass.new.hands ≡ pass.old.hands) ⊎ IsOffered N.config (stripe_of (key_of command) N.config.stripes).0 pass.new.sight
            (next_who pass.old) command moment pass.old.hands pass.new.hands }
        ensures grows { IsLater pass.old.sight pass.new.sight }
        ensures caller { pass.new.caller ≡ pass.old.caller }
        ensures turn { (pass.new.turn ≡ length (turns_of pass.new.calls)) × OnOk result (pass.new.turn ≡ pass.old.turn + 1) }
    {
        let asking = Asking {
            command: &command,
            moment,
        };
        let number = stripe_of(command.key(), self.config.stripes);
        let mut guard = self.lock_stripe(rt, number);
        let own = &mut *guard;
        let who = pass.take_turn_on(self, &asking, own)?;
        own.learn(&self.board, &mut pass.seen);
        own.side.compare(&self.board, &mut pass.seen);
        let task = Task {
            alloc,
            store: self,
            command: &command,
            turn: Turn { who, moment },
        };
        let caller = &mut pass.caller;
        // A storage command is tried at once on its new version's class, if that is known, and any other on its stripe alone.
        let replied = match class_for(&self.config, &command) {
            Some(class) => answer_for(task, rt, own, caller, class),
            None => answer(task, rt, own, caller),
        };
        own.side.share(&self.board, &mut pass.seen);
        drop(guard);
        drop(command);
        self.offer(rt, &mut pass.hands, who.turn, woken_of(&replied));
        reply_of(replied)
    }
}
