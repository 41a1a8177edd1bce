//! Rounds of walks that make room in a full class.
ghost use Rattle.std.specs.Prelude.{◌≡◌, ◌++◌, List, true, false, IfOk, IfErr, OnErr};
ghost use Rattle.mc_pull.specs.{
  Gates.IsServedBy,
  Gates.LeavesGate,
  Growth.GainsFor,
  Rounds.rounds_by,
  Rounds.IsRoomRound,
  Rounds.IsRoom,
  Walker.walker_by,
};
ghost use Rattle.mc_pull.specs.Rounds as words;
ghost use Rattle.mc_pull.specs.Broken.{BreaksRoomRound, BreaksRoom};
ghost use Rattle.mc_pull.specs.declared.looking.Answer.{Answer};

use crate::context::Context;
use crate::judge::Mode;
use crate::looking::Gate;
use crate::pulling::pull_tail;
use mc_item::{Fault, Seg};
use mc_segment::ClassState;

// The most rounds in a search for a chunk (own).
const MOST_ROUNDS: u64 = 10;

fn is_free(class: &ClassState) -> bool
    ensures { result ≡ words.is_free class.now class.now.history }
{
    class.count() < class.chunks()
}

// Makes one round in a full class: pulls COLD to evict an entry, and if that did nothing, HOT to force one to COLD.
fn room_round<G: Gate>(
    context: Context<'_>,
    class: &mut ClassState,
    gate: &mut G,
) -> Result<(), Fault>
    requires full { words.is_free class.old class.old.history ≡ false }
    requires gate { IsServedBy G.serves context.config.now context.turn.who gate.old class.old }
    ensures round { IfOk result (λ _. (xs : List Answer) × (G.answers gate.new ≡ G.answers gate.old ++ xs) × IsRoomRound (rounds_by class.old context.entry)
        class.old.history xs class.new.history) }
    ensures err { OnErr result ((xs : List Answer) × (G.answers gate.new ≡ G.answers gate.old ++ xs) × BreaksRoomRound (rounds_by class.old context.entry)
        class.old.history xs class.new.history) }
    ensures gains { GainsFor true class.old class.new }
    ensures fault { IfErr result (G.faults gate.new class.new) }
    ensures gate { LeavesGate G.references G.serves G.keeps context.entry.config.now (walker_by class.old context.entry) gate.old class.old gate.new class.new }
{
    let pulled = pull_tail(context, class, Seg::Cold, Mode::Evict, gate)?;
    if pulled.did_something() {
        return Ok(());
    }
    pull_tail(context, class, Seg::Hot, Mode::Force, gate)?;
    Ok(())
}

/// Makes room in a class, and returns whether a chunk is free. It takes up to ten rounds, until one is. A round pulls COLD to
/// evict an entry, and if that did nothing, HOT to force one to COLD. Errors: the gate's faults. Events made so far remain.
pub fn make_room<G: Gate>(
    context: Context<'_>,
    class: &mut ClassState,
    gate: &mut G,
) -> Result<bool, Fault>
    requires gate { IsServedBy G.serves context.config.now context.turn.who gate.old class.old }
    ensures room { IfOk result (λ found. (xs : List Answer) × (G.answers gate.new ≡ G.answers gate.old ++ xs) × IsRoom (rounds_by class.old context.entry)
        class.old.history xs class.new.history found) }
    ensures err { OnErr result ((xs : List Answer) × (G.answers gate.new ≡ G.answers gate.old ++ xs) × BreaksRoom (rounds_by class.old context.entry)
        class.old.history xs class.new.history) }
    ensures gains { GainsFor true class.old class.new }
    ensures fault { IfErr result (G.faults gate.new class.new) }
    ensures gate { LeavesGate G.references G.serves G.keeps context.entry.config.now (walker_by class.old context.entry) gate.old class.old gate.new class.new }
{
    let mut left: u64 = MOST_ROUNDS;
    'rounds: while left > 0 {
        if is_free(class) {
            break;
        }
        room_round(context, class, gate)?;
        left -= 1;
    }
    Ok(is_free(class))
}
