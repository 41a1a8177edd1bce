//! What a try of a command is handed, and what it returns.
ghost use Rattle.std.specs.Prelude.{◌≡◌, Some};
ghost use Rattle.mc_item.specs.declared.reply.Room.TheVariants as rooms;
ghost use Rattle.mc_stripe.specs.declared.fate.Fate.TheVariants as fates;

use crate::fate::Fate;
use crate::wanting::Given;
use mc_item::{Reply, Room, Site, Who};
use std::alloc::Global;

/// A caller's turn: the caller with the number of its call, and the moment, which is the time of the call in seconds.
#[derive(Clone, Copy, Debug, PartialEq, Eq)]
pub struct Turn {
    pub who: Who,
    pub moment: u64,
}

/// What is fixed for one try of a command: the allocator, the stripe's site and how many versions it has made, the moment, and
/// what the command is given.
#[derive(Clone, Copy)]
pub(crate) struct Trial<'a> {
    pub(crate) alloc: Global,
    pub(crate) site: &'a Site,
    pub(crate) versions: u64,
    pub(crate) moment: u64,
    pub(crate) given: &'a Given,
}

/// What a command did: its reply, the room that it took, and what became of its key's item and its chunk.
#[derive(Drop)]
pub struct Done {
    pub reply: Reply,
    pub room: Room,
    pub fate: Fate,
}

/// A command that was made: what it did, a copy of its reply for an event that is kept, and how many versions it added.
#[derive(Drop)]
pub(crate) struct Made {
    pub(crate) done: Done,
    pub(crate) noted: Option<Reply>,
    pub(crate) added: u64,
}

/// Returns a made command of these parts. `noted` is a copy of the reply.
#[inline(always)]
pub(crate) fn made_with(reply: Reply, noted: Reply, room: Room, fate: Fate, added: u64) -> Made
    ensures { result ≡ record { done = record { reply = reply; room = room; fate = fate }; noted = Some noted; added = added } }
{
    Made {
        done: Done { reply, room, fate },
        noted: Some(noted),
        added,
    }
}

/// Returns a made command that takes no room and touches no chunk. `noted` is a copy of the reply.
#[inline(always)]
pub(crate) fn untouched(reply: Reply, noted: Reply, added: u64) -> Made
    ensures { result ≡ record { done = record { reply = reply; room = rooms.Keep; fate = fates.Untouched }; noted = Some noted; added = added } }
{
    made_with(reply, noted, Room::Keep, Fate::Untouched, added)
}
