//! Opening a store.
ghost use Rattle.std.specs.Prelude.{◌≡◌, ◌≤◌, ◌<◌, ◌+◌, ◌-◌, ◌^◌, IfOk};
ghost use Rattle.mc_item.specs.Config.{IsBounded, IsSound};
ghost use Rattle.mc_board.specs.{Histories.blind, Views.new_owner};
ghost use Rattle.mc_hits.specs.Views.{tables_of, untouched_hands};
ghost use Rattle.mc_store.specs.{Locked.histories_for, Locked.locks_for, Opening.AreParts, Passes.ArePasses, Passes.new_pass};

use crate::caller::Caller;
use crate::locked::{LockedClass, LockedStripe};
use crate::named::Named;
use crate::owned_class::OwnedClass;
use crate::owned_stripe::OwnedStripe;
use crate::pass::Pass;
use crate::shelf::Shelf;
use crate::store::Store;
use crate::tokens::Tokens;
use mc_board::{Owner, Seen};
use mc_hits::Hands;
use mc_item::{ClassNo, Config, NoMemory, StripeNo};
use mc_segment::ClassState;
use mc_stripe::StripeState;
use std::alloc::Global;
use std::hash::RandomState;
use std::marker::PhantomData;
use std::sync::Mutex;

// A stripe without events, ready for its lock.
fn open_stripe<N: Named>(
    alloc: Global,
    config: &Config,
    number: u32,
    owner: Owner,
    seen: Seen,
    seed: RandomState,
) -> LockedStripe<N>
    requires config { (config.now ≡ N.config) × IsBounded N.config × IsSound N.config }
    requires number { number < N.config.stripes }
    requires owner { owner ≡ new_owner N.board.table (locks_for N.config) number }
    requires seen { seen.board ≡ N.board.table }
{
    let state = StripeState::new(alloc, StripeNo(number), config, seed);
    LockedStripe::new(OwnedStripe::new(state, owner, seen))
}

// A class without events, ready for its lock. On the board its lock comes after those of the stripes.
fn open_class<N: Named>(
    alloc: Global,
    config: &Config,
    lock: usize,
    owner: Owner,
    seen: Seen,
) -> LockedClass<N>
    requires config { (config.now ≡ N.config) × IsBounded N.config × IsSound N.config }
    requires lock { (N.config.stripes ≤ lock) × (lock < locks_for N.config) }
    requires owner { owner ≡ new_owner N.board.table (locks_for N.config) lock }
    requires seen { seen.board ≡ N.board.table }
{
    let number = (lock - config.stripes as usize) as u32 + 1;
    let state = ClassState::new(alloc, ClassNo(number), config);
    LockedClass::new(OwnedClass::new(state, owner, seen))
}

// The pass of the caller whose history has this place on the board, after the locks. It has had no turn, seen nothing and made no
// event.
fn open_pass<N: Named>(
    alloc: Global,
    config: &Config,
    place: usize,
    owner: Owner,
    seen: Seen,
    hands: Hands,
) -> Pass<N>
    requires config { (config.now ≡ N.config) × IsBounded N.config }
    requires place { (locks_for N.config ≤ place) × (place < histories_for N.config) }
    requires owner { owner ≡ new_owner N.board.table (locks_for N.config) place }
    requires seen { seen ≡ record { board = N.board.table; sight = blind } }
    requires hands { hands ≡ untouched_hands (tables_of N.queues) (place - locks_for N.config) }
    ensures { result ≡ new_pass (tables_of N.queues) (place - locks_for N.config) }
{
    let number = (place - locks_in(config)) as u32;
    Pass::new(Caller::new(alloc, config, number, owner), seen, hands)
}

// How many locks a configuration asks for: one for each stripe and each class.
fn locks_in(config: &Config) -> usize
    requires { IsBounded config.now }
    ensures { result ≡ locks_for config.now }
{
    config.stripes as usize + config.sizes.as_slice().len()
}

// The place on the board that comes after so many stripes, classes and passes.
fn next_place(stripes: usize, classes: usize, passes: usize) -> usize
    requires { stripes + classes + passes < 2 ^ 32 }
    ensures { result ≡ stripes + classes + passes }
{
    stripes + classes + passes
}

// Reserves the memory that closing a store of this configuration needs.
fn shelf_for<N: Named>(alloc: Global, config: &Config) -> Result<Shelf<N>, NoMemory>
    requires { (config.now ≡ N.config) × IsBounded N.config }
{
    Ok(Shelf {
        stripes: Vec::with_capacity(alloc, config.stripes as usize)?,
        classes: Vec::with_capacity(alloc, config.sizes.as_slice().len())?,
        of: PhantomData,
    })
}

impl<N: Named> Store<N> {
    /// Opens a store without events, and returns it with a pass for each caller, which has seen nothing and made no event.
    /// The configuration has been checked. The board has as many histories as the store needs: stripes first, then classes, then
    /// callers. Each class has a queue of hits, and each caller has its hands in them. Keys are hashed with the seed, on which no
    /// reply depends. The memory that closing needs is reserved here. Errors: `NoMemory` if an allocation fails.
    pub fn open(
        alloc: Global,
        config: Config,
        tokens: Tokens,
        seed: RandomState,
    ) -> Result<(Store<N>, Vec<Pass<N>>), NoMemory>
        requires named { (tokens.board ≡ N.board) × (config ≡ N.config) × (tokens.queues ≡ N.queues) }
        requires fit { AreParts N.board N.config N.queues tokens }
        ensures passes { IfOk result (λ r. ArePasses (tables_of N.queues) N.config.callers r.1.items) }
    {
        let Tokens {
            board,
            owners,
            mut seen,
            queues,
            mut hands,
        } = tokens;
        let locks = locks_in(&config);
        let mut stripes = Vec::new(alloc);
        let mut classes = Vec::new(alloc);
        let mut passes = Vec::new(alloc);
        for owner in owners {
            let token = seen.split(&board);
            let place = next_place(stripes.len(), classes.len(), passes.len());
            if place < config.stripes as usize {
                let stripe = open_stripe::<N>(alloc, &config, place as u32, owner, token, seed);
                stripes.push(Mutex::new(stripe))?;
            } else if place < locks {
                let class = open_class::<N>(alloc, &config, place, owner, token);
                classes.push(Mutex::new(class))?;
            } else {
                let own = hands.remove(0);
                passes.push(open_pass::<N>(alloc, &config, place, owner, token, own))?;
            }
        }
        let shelf = Mutex::new(shelf_for::<N>(alloc, &config)?);
        let store = Store {
            board,
            config,
            stripes,
            classes,
            queues,
            shelf,
            of: PhantomData,
        };
        Ok((store, passes))
    }
}
