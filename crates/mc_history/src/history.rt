//! A history's events: kept in memory, or let go as they come.
ghost use Rattle.std.specs.Prelude.{◌≡◌, ◌+◌, ◌^◌, ◌<◌, ◌≤◌, [], ◌∷◌, ◌++◌, length, OnOk, IsOk, Some, IfSome, true, false};
ghost use Rattle.std.specs.{Option.option_copied, List.slice_get};

use crate::let_go::LetGo;
use crate::pieces::Pieces;
use std::alloc::{AllocError, Global};
use std::marker::Model;

/// What a history that lets events go is shown of an event. It needs to own nothing of the event.
pub trait Shows<E> {
    /// The event that it shows.
    ghost event: { Self → E };
}

#[derive(Drop)]
pub(crate) enum Form<E, S> {
    Kept(Pieces<E>),
    LetGo(LetGo<S>),
}

/// A list of events, oldest first. It keeps them in memory, or lets each go as it comes and only counts it. Kept events never
/// move: growing takes memory for 4,096 more and copies none. Contracts see the events, how many more need no memory, and whether
/// events are kept.
#[derive(Drop)]
pub struct History<E, S: Shows<E>> {
    form: Form<E, S>,
    alloc: Global,
}

impl<E, S: Shows<E>> Model for History<E, S> {
    ghost use Rattle.mc_history.specs.Events.{Events, events_code};

    ghost Value = { Events E };

    ghost coded = { events_code E.code };

    ghost use Rattle.mc_history.specs.Forms.{history_of, IsHeld};

    ghost view = { λ h. history_of S.event h.form };

    ghost invariant = { λ h. IsHeld h.form };
}

impl<E: Drop, S: Shows<E> + Drop> History<E, S> {
    /// Returns a history without events, which keeps those that come. It takes no memory.
    pub fn new(alloc: Global) -> History<E, S>
        ensures items { result.items ≡ [] }
        ensures room { result.room ≡ 0 }
        ensures kept { result.kept ≡ true }
    {
        History {
            form: Form::Kept(Pieces::new(alloc)),
            alloc,
        }
    }

    /// Returns a history without events. It keeps those that come, or, if `keeps` is false, lets each go and never takes memory.
    pub fn keeping(alloc: Global, keeps: bool) -> History<E, S>
        ensures items { result.items ≡ [] }
        ensures room { result.room ≡ 0 }
        ensures kept { result.kept ≡ keeps }
    {
        if keeps {
            return History::new(alloc);
        }
        History {
            form: Form::LetGo(LetGo::new()),
            alloc,
        }
    }

    /// Returns the number of events, kept or let go.
    #[inline(always)]
    pub fn len(&self) -> usize
        ensures { result ≡ length self.now.items }
    {
        match &self.form {
            Form::Kept(pieces) => pieces.len(),
            Form::LetGo(events) => events.len(),
        }
    }

    /// Returns the event at a place, counted from 0. Returns `None` from the end on, and for events that were let go.
    pub fn get(&self, place: usize) -> Option<&E>
        ensures there { IfSome result (λ event. slice_get self.now.items place ≡ Some event.now) }
        ensures all { self.now.kept ≡ true → option_copied result ≡ slice_get self.now.items place }
    {
        match &self.form {
            Form::Kept(pieces) => pieces.get(place),
            Form::LetGo(_) => None,
        }
    }

    /// Makes room for `n` more events.
    /// Errors: `AllocError` if memory is refused or there would be more than 2^63 events. No event changes, and no room is lost.
    /// A history that lets events go takes no memory, so it fails only if there would be more than 2^63 events.
    #[inline(always)]
    pub fn reserve(&mut self, n: usize) -> Result<(), AllocError>
        ensures items { self.new.items ≡ self.old.items }
        ensures ok { OnOk result (n ≤ self.new.room) }
        ensures room { self.old.room ≤ self.new.room }
        ensures succeeds { n ≤ self.old.room → IsOk result }
        ensures let_go { self.old.kept ≡ false → length self.old.items + n ≤ 2 ^ 63 → IsOk result }
        ensures kept { self.new.kept ≡ self.old.kept }
    {
        match &mut self.form {
            Form::Kept(pieces) => pieces.reserve(self.alloc, n),
            Form::LetGo(events) => events.reserve(n),
        }
    }

    /// Returns whether events are kept.
    #[inline(always)]
    pub fn keeps(&self) -> bool
        ensures { result ≡ self.now.kept }
    {
        match &self.form {
            Form::Kept(_) => true,
            Form::LetGo(_) => false,
        }
    }

    /// Adds an event at the end. It takes no memory: there must be room for the event. A history that lets events go only looks
    /// at `shown`. One that keeps them must be given the `event` too.
    #[inline(always)]
    pub fn push_reserved(&mut self, shown: &S, event: Option<E>)
        requires room { 0 < self.old.room }
        requires event { self.old.kept ≡ true → event ≡ Some (S.event shown.now) }
        ensures items { self.new.items ≡ self.old.items ++ S.event shown.now ∷ [] }
        ensures room { self.old.room ≡ self.new.room + 1 }
        ensures kept { self.new.kept ≡ self.old.kept }
    {
        match &mut self.form {
            Form::Kept(pieces) => match event {
                Some(event) => pieces.push_reserved(event),
                None => unreachable!(),
            },
            Form::LetGo(events) => events.push_shown(shown),
        }
    }
}
