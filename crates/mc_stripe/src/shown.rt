//! How events reach a stripe's history: as copies if it keeps them, else by snapshots, which have no bytes.
ghost use Rattle.std.specs.Prelude.{◌≡◌, ◌+◌, ◌<◌, ◌++◌, ◌∷◌, [], IfOk, Some, None, true, if◌then◌else◌};
ghost use Rattle.mc_stripe.specs.Shown as words;
ghost use Rattle.mc_stripe.specs.Shown.{did_of};

use crate::trying::{Done, Turn};
use mc_history::{History, Shows};
use mc_item::{Command, Did, NoMemory, Reply, Room, StripeEvent, Who};
use std::alloc::Global;
use std::snapshot::Snapshot;

/// An event as it is shown to a history that doesn't keep it. Nothing of a command is copied.
#[derive(Drop)]
pub enum ShownStripe {
    Did {
        who: Who,
        command: Snapshot<Command>,
        moment: u64,
        reply: Snapshot<Reply>,
        room: Room,
    },
    Whole(Snapshot<StripeEvent>),
}

impl Shows<StripeEvent> for ShownStripe {
    ghost use Rattle.mc_stripe.specs.Shown.{event_of};

    ghost event = { event_of };
}

/// Returns a copy of a command for its event, if events are kept.
#[inline(always)]
pub(crate) fn copy_if(
    alloc: Global,
    command: &Command,
    keeps: bool,
) -> Result<Option<Command>, NoMemory>
    ensures { IfOk result (λ copy. copy ≡ (if keeps then Some command.now else None)) }
{
    if keeps {
        Ok(Some(command.copy(alloc)?))
    } else {
        Ok(None)
    }
}

// The event of an answered command, made of its copies, if the reply was copied.
#[inline(always)]
fn did_if(turn: Turn, command: Command, reply: Option<Reply>, room: Room) -> Option<StripeEvent>
    ensures { result ≡ words.did_if turn.who command turn.moment reply room }
{
    match reply {
        None => None,
        Some(reply) => Some(StripeEvent::Did(Did {
            who: turn.who,
            command,
            moment: turn.moment,
            reply,
            room,
        })),
    }
}

/// Adds the event of an answered command at the end of a history that has room for it. If events are kept, `copy` and `noted` are
/// the copies of command and reply.
#[inline(always)]
pub(crate) fn push_answer(
    history: &mut History<StripeEvent, ShownStripe>,
    turn: Turn,
    command: &Command,
    done: &Done,
    copy: Option<Command>,
    noted: Option<Reply>,
)
    requires room { 0 < history.old.room }
    requires copy { history.old.kept ≡ true → copy ≡ Some command.now }
    requires noted { history.old.kept ≡ true → noted ≡ Some done.now.reply }
    ensures items { history.new.items ≡ history.old.items ++ did_of turn.who command.now turn.moment done.now.reply done.now.room ∷ [] }
    ensures room { history.old.room ≡ history.new.room + 1 }
    ensures kept { history.new.kept ≡ history.old.kept }
{
    let shown = ShownStripe::Did {
        who: turn.who,
        command: Snapshot::of(command),
        moment: turn.moment,
        reply: Snapshot::of(&done.reply),
        room: done.room,
    };
    match copy {
        None => history.push_reserved(&shown, None),
        Some(copy) => history.push_reserved(&shown, did_if(turn, copy, noted, done.room)),
    }
}

/// Adds an event at the end of a history that has room for it.
pub(crate) fn push_event(history: &mut History<StripeEvent, ShownStripe>, event: StripeEvent)
    requires room { 0 < history.old.room }
    ensures items { history.new.items ≡ history.old.items ++ event ∷ [] }
    ensures room { history.old.room ≡ history.new.room + 1 }
    ensures kept { history.new.kept ≡ history.old.kept }
{
    let shown = ShownStripe::Whole(Snapshot::of(&event));
    history.push_reserved(&shown, Some(event));
}
