//! A caller of the shared store: answers the calls of a script or of upkeep.
ghost use Rattle.std.specs.Prelude.{◌≡◌};

use mc_item::{ClassNo, Command, Fault, Histogram, Moves, Reply};
use mc_script::Calls;
use mc_store::{Named, Pass, Store};
use std::alloc::Global;
use std::sync::Wait;

/// A caller of a store, with its pass (which knows what the caller has seen).
#[derive(Drop)]
pub(crate) struct Caller<'a, N: Named> {
    alloc: Global,
    store: &'a Store<N>,
    pass: Pass<N>,
}

impl<'a, N: Named> Caller<'a, N> {
    /// Creates the caller of a pass.
    pub fn new(alloc: Global, store: &'a Store<N>, pass: Pass<N>) -> Caller<'a, N>
        ensures pass { result.pass ≡ pass }
    {
        Caller { alloc, store, pass }
    }

    /// Returns the pass, as the caller's calls have left it.
    pub fn into_pass(self) -> Pass<N>
        ensures { result ≡ self.entry.pass }
    {
        self.pass
    }
}

impl<'a, N: Named> Calls for Caller<'a, N> {
    ghost use Rattle.mc_driver.specs.Caller.{view_of};

    ghost view = { λ s. view_of N.config s.pass };

    fn command(&mut self, rt: &impl Wait, command: Command, moment: u64) -> Result<Reply, Fault> {
        self.store
            .command(self.alloc, rt, &mut self.pass, command, moment)
    }

    fn juggle(&mut self, rt: &impl Wait, class: ClassNo, moment: u64) -> Result<Moves, Fault> {
        self.store.juggle(rt, &mut self.pass, class, moment)
    }

    fn crawl(&mut self, rt: &impl Wait, class: ClassNo, moment: u64) -> Result<Histogram, Fault> {
        self.store
            .crawl(self.alloc, rt, &mut self.pass, class, moment)
    }

    fn limit(&mut self, rt: &impl Wait, class: ClassNo, chunks: u64) -> Result<(), Fault> {
        self.store.chunks(rt, &mut self.pass, class, chunks)
    }
}
