//! Events that are let go as they come, and only counted.
ghost use Rattle.std.specs.Prelude.{◌≡◌, ◌+◌, ◌<◌, ◌≤◌, ◌^◌, ◌∷◌, ◌++◌, [], false, length, OnOk, IsOk};
ghost use Rattle.mc_history.specs.Events.{Events};

use crate::ghost_list::GhostList;
use std::alloc::AllocError;
use std::marker::Model;

/// The most events that there can be. It keeps all sums within 64 bits.
const MOST_EVENTS: usize = 1 << 63;

/// Events of which only the number is in memory: there are `len`, and room was promised up to `end`.
#[derive(Drop)]
pub(crate) struct LetGo<E> {
    events: GhostList<E>,
    len: usize,
    end: usize,
}

impl<E> Model for LetGo<E> {
    ghost use Rattle.std.specs.Prelude.{◌≡◌, ◌-◌, ◌≤◌, ◌^◌, false, length};
    ghost use Rattle.mc_history.specs.Events.{Events, events_code};

    ghost Value = { Events E };

    ghost coded = { events_code E.code };

    ghost view = { λ l. record { items = l.events; room = l.end - l.len; kept = false } };

    ghost invariant = { λ l. (length l.events ≡ l.len) × (l.len ≤ l.end) × (l.end ≤ 2 ^ 63) };
}

impl<E: Drop> LetGo<E> {
    pub(crate) fn new() -> LetGo<E>
        ensures { result ≡ record { items = []; room = 0; kept = false } }
    {
        LetGo {
            events: GhostList::new(),
            len: 0,
            end: 0,
        }
    }

    #[inline(always)]
    pub(crate) fn len(&self) -> usize
        ensures { result ≡ length self.now.items }
    {
        self.len
    }

    // Promises room for `n` more events. It takes no memory, so it fails only if there would be more than 2^63 events.
    #[inline(always)]
    pub(crate) fn reserve(&mut self, n: usize) -> Result<(), AllocError>
        ensures items { self.new ≡ record self.old { room = self.new.room } }
        ensures ok { OnOk result (n ≤ self.new.room) }
        ensures room { self.old.room ≤ self.new.room }
        ensures succeeds { n ≤ self.old.room → IsOk result }
        ensures few { length self.old.items + n ≤ 2 ^ 63 → IsOk result }
    {
        if n <= self.end - self.len {
            return Ok(());
        }
        if MOST_EVENTS - self.len < n {
            return Err(AllocError);
        }
        self.end = self.len + n;
        Ok(())
    }

    // Lets an event go that it is shown, and counts it. There must be room for it.
    #[inline(always)]
    pub(crate) fn push_shown(&mut self, event: &E)
        requires room { 0 < self.old.room }
        ensures items { self.new ≡ record self.old { items = self.old.items ++ event.now ∷ []; room = self.new.room } }
        ensures room { self.old.room ≡ self.new.room + 1 }
    {
        self.events.push(event);
        self.len += 1;
    }
}
