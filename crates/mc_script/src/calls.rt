//! The trait `Calls`: a caller, with whatever answers its calls.
ghost use Rattle.std.specs.Prelude.{◌≤◌, ◌<◌, ◌^◌, ◌∷◌, ℕ, [], IfErr, IfOk, OnOk};
ghost use Rattle.mc_proto.specs.Answers.{Counted, Limited, Moved, Replied};
ghost use Rattle.mc_script.specs.Calls.{AddsUp, BreaksOff, CallsView, GoesOn, MakesCalls};
ghost use Rattle.mc_script.specs.Exchanges.{Asks, Crawls, Juggles, Limits};

use mc_item::{ClassNo, Command, Fault, Histogram, Moves, Reply};
use std::sync::Wait;

/// A caller that makes calls, each in a turn of its own. Contracts see its `CallsView`: `turn` is the next turn's number.
/// `notes` is what is known of its calls so far: a fact about the list of them with their answers, and about the last call if it
/// failed: with which fault, and if it had begun. Each call adds itself to it.
/// `has_class` says which slab classes it has. They never change.
/// `may_call` says when the next call may be made, which is always so after a call that succeeded.
pub trait Calls: Drop {
    ghost view: { Self → CallsView };

    /// Makes a command's call at a moment (time in seconds, at most 2^62), and returns the reply.
    /// After `NoMemory` or `HistoryFull` it has no answer, and at most this call was begun.
    fn command(&mut self, rt: &impl Wait, command: Command, moment: u64) -> Result<Reply, Fault>
        requires may { (view self.old).may_call }
        requires early { moment ≤ 2 ^ 62 }
        ensures caller { GoesOn (view self.old) (view self.new) result }
        ensures ok { IfOk result (λ reply. MakesCalls (Asks command ∷ []) (Replied reply ∷ []) moment (view self.old) (view self.new)) }
        ensures err { IfErr result (λ e. BreaksOff e (Asks command) moment (view self.old) (view self.new)) };

    /// Makes a call of the maintainer's work on a slab class at a moment, and returns how many entries it reclaimed and moved.
    /// Both numbers are below 2^32. Errors are those of `command`.
    fn juggle(&mut self, rt: &impl Wait, class: ClassNo, moment: u64) -> Result<Moves, Fault>
        requires may { (view self.old).may_call }
        requires early { moment ≤ 2 ^ 62 }
        requires there { (view self.old).has_class class }
        ensures caller { GoesOn (view self.old) (view self.new) result }
        ensures ok { IfOk result (λ moves. MakesCalls (Juggles class ∷ []) (Moved moves ∷ []) moment (view self.old) (view self.new)) }
        ensures small { IfOk result (λ moves. (moves.reclaimed < 2 ^ 32) × (moves.moved < 2 ^ 32)) }
        ensures err { IfErr result (λ e. BreaksOff e (Juggles class) moment (view self.old) (view self.new)) };

    /// Makes a call of the crawler's work on a slab class at a moment, and returns how many entries of each kind it saw.
    /// It sees at most 2^32 entries. Errors are those of `command`.
    fn crawl(&mut self, rt: &impl Wait, class: ClassNo, moment: u64) -> Result<Histogram, Fault>
        requires may { (view self.old).may_call }
        requires early { moment ≤ 2 ^ 62 }
        requires there { (view self.old).has_class class }
        ensures caller { GoesOn (view self.old) (view self.new) result }
        ensures ok { IfOk result (λ histogram. MakesCalls (Crawls class ∷ []) (Counted histogram ∷ []) moment (view self.old) (view self.new)) }
        ensures small { IfOk result (λ histogram. histogram.seen ≤ 2 ^ 32) }
        ensures kinds { IfOk result AddsUp }
        ensures err { IfErr result (λ e. BreaksOff e (Crawls class) moment (view self.old) (view self.new)) };

    /// Makes a call that sets the limit of chunks of a slab class, from 1 to 2^20. No moment is noted for it, so its exchange may
    /// have any. Errors are those of `command`.
    fn limit(&mut self, rt: &impl Wait, class: ClassNo, chunks: u64) -> Result<(), Fault>
        requires may { (view self.old).may_call }
        requires there { (view self.old).has_class class }
        requires some { 1 ≤ chunks }
        requires bound { chunks ≤ 2 ^ 20 }
        ensures caller { GoesOn (view self.old) (view self.new) result }
        ensures ok { (moment : ℕ) → OnOk result (MakesCalls (Limits class chunks ∷ []) (Limited ∷ []) moment (view self.old) (view self.new)) }
        ensures err { (moment : ℕ) → IfErr result (λ e. BreaksOff e (Limits class chunks) moment (view self.old) (view self.new)) };
}
