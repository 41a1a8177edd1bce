//! The state of a class: its fields, how it is made, and how memory is reserved for its events.
ghost use Rattle.std.specs.Prelude.{◌≡◌, ◌≤◌, ◌↔◌, length, IsTrue, OnOk, MatchResult};
ghost use Rattle.mc_item.specs.Config.{IsSound};
ghost use Rattle.mc_segment.specs.ClassState.{opened, with_room, HasPlaces, MayRefuse};

use crate::arena::Arena;
use crate::shown::ShownClass;
use mc_history::History;
use mc_item::{ClassEvent, ClassNo, Config, Fault};
use std::alloc::Global;
use std::marker::Model;

/// The lists of a slab class, and its history. Contracts see the class's number, the limits with which it opened, the numbers of
/// its rule, the history, and the room: how many more events take no memory. The limit of chunks now follows from the history.
#[derive(Drop)]
pub struct ClassState {
    pub(crate) number: ClassNo,
    // The limit of chunks with which the class opened.
    pub(crate) opening: u64,
    // The limit of chunks now.
    pub(crate) chunks: u64,
    pub(crate) max_events: u64,
    pub(crate) temp: bool,
    pub(crate) temp_ttl: u64,
    pub(crate) hot_percent: u64,
    pub(crate) warm_percent: u64,
    pub(crate) hot_factor: u64,
    pub(crate) warm_factor: u64,
    pub(crate) lists: Arena,
    pub(crate) history: History<ClassEvent, ShownClass>,
    pub(crate) alloc: Global,
}

impl Model for ClassState {
    ghost use Rattle.std.specs.Prelude.{min};
    ghost use Rattle.mc_segment.specs.ClassState.{ClassView, class_view, rule_with, IsReplay};

    ghost Value = { ClassView };

    ghost view = { λ s. class_view s.number s.opening s.max_events s.history.kept
        (rule_with s.temp s.temp_ttl s.hot_percent s.warm_percent s.hot_factor s.warm_factor) s.history.items
        (min s.lists.room s.history.room) };

    ghost invariant = { λ s. IsReplay s.lists s.opening s.chunks s.max_events
        (rule_with s.temp s.temp_ttl s.hot_percent s.warm_percent s.hot_factor s.warm_factor) s.history.items };
}

impl ClassState {
    /// Makes the class with this number (from 1) of a checked configuration, without entries or events. It takes no memory.
    pub fn new(alloc: Global, number: ClassNo, config: &Config) -> ClassState
        requires sound { IsSound config.now }
        requires number { (1 ≤ number.0) × (number.0 ≤ length config.now.sizes) }
        ensures { result ≡ opened config.now number }
    {
        let chunks = config.chunks.as_slice()[number.0 as usize - 1];
        ClassState {
            number,
            opening: chunks,
            chunks,
            max_events: config.max_events,
            temp: config.temp,
            temp_ttl: config.temp_ttl,
            hot_percent: config.hot_percent,
            warm_percent: config.warm_percent,
            hot_factor: config.hot_factor,
            warm_factor: config.warm_factor,
            lists: Arena::new(alloc),
            history: History::keeping(alloc, config.keeps_events),
            alloc,
        }
    }

    /// Returns whether the history's limit leaves places for n more events.
    #[inline(always)]
    pub fn has_places(&self, n: usize) -> bool
        ensures { IsTrue result ↔ HasPlaces self.now n }
    {
        n as u64 <= self.max_events - (self.history.len() as u64)
    }

    /// Reserves memory for n events: the next n calls that make one take none. Only the room changes, and it doesn't shrink.
    /// Errors: `HistoryFull` exactly if the history has fewer than n places left, `NoMemory` only if the room was less than n.
    #[inline(always)]
    pub fn reserve(&mut self, n: usize) -> Result<(), Fault>
        ensures same { self.new ≡ with_room self.old self.new.room }
        ensures ok { OnOk result (n ≤ self.new.room) }
        ensures kept { self.old.room ≤ self.new.room }
        ensures refusal { MatchResult result (λ _. HasPlaces self.old n) (MayRefuse self.old n) }
    {
        if !self.has_places(n) {
            return Err(Fault::HistoryFull);
        }
        self.history.reserve(n)?;
        self.lists.reserve(n)?;
        Ok(())
    }
}
