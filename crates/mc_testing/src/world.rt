//! A store of one stripe and one class without locks, which tests fill by hand.
ghost use Rattle.std.specs.Prelude.{◌≡◌};
ghost use Rattle.mc_testing.specs.World.{IsWorld};

use crate::commands::storage;
use crate::links::may_give;
use mc_history::GhostList;
use mc_item::{ClassNo, Command, Config, Link, Moves, Numbers, Room, StripeNo, Verb, Who};
use mc_pull::{Context, Lone};
use mc_segment::{ClassState, EntryKey};
use mc_stripe::{Given, Home, Other, StripeState, Turn};
use std::alloc::Global;
use std::hash::RandomState;
use std::random::RandomSource;
use std::test::Fail;

/// The caller and the turn of each call in a world.
pub const WHO: Who = Who { caller: 0, turn: 0 };

/// A stripe and a class of the same configuration. The type says that they belong together, so no clause needs to.
#[derive(Drop)]
pub struct World {
    pub alloc: Global,
    pub config: Config,
    pub class: ClassState,
    pub stripe: StripeState,
    ghost sound: { IsWorld config class stripe },
}

/// Returns the usual configuration, but with one slab class of this many chunks of 96 bytes.
pub fn one_class(alloc: Global, chunks: u64) -> Result<Config, Fail> {
    let sizes = Numbers::from_vec(Vec::from_slice(alloc, &[96])?);
    let chunks = Numbers::from_vec(Vec::from_slice(alloc, &[chunks])?);
    let usual = Config::usual(alloc, 1)?;
    Ok(Config {
        sizes,
        chunks,
        ..usual
    })
}

/// Opens the first stripe and the first class of this configuration. Fails if the configuration isn't sound.
pub fn opened<R: RandomSource>(rt: &R, alloc: Global, config: Config) -> Result<World, Fail> {
    let config = config.check()?;
    let seed = RandomState::new(rt)?;
    let class = ClassState::new(alloc, ClassNo(1), &config);
    let stripe = StripeState::new(alloc, StripeNo(0), &config, seed);
    Ok(World {
        alloc,
        config,
        class,
        stripe,
    })
}

/// Makes a command on the stripe, with the next number of the class for a new version. The class isn't changed. Fails if the
/// command may not be made, or wants more.
pub fn ask(world: &mut World, command: Command, moment: u64) -> Result<(), Fail> {
    let class = world.class.number();
    let number = world.class.next_number();
    let given = Given {
        home: Some(Home {
            class,
            room: Room::At(Link { class, number }),
            places: 2,
        }),
        other: Some(Other { class, places: 2 }),
    };
    let stripe = &mut world.stripe;
    let may = moment <= 1 << 62 && stripe.owns(command.key());
    if !may || !may_give(given, stripe.history()) {
        return Err(Fail::from("no such command may be made"));
    }
    let who = WHO;
    match stripe.attempt(&command, Turn { who, moment }, &given)? {
        Ok(_) => Ok(()),
        Err(_) => Err(Fail::from("the command wants more than it is given")),
    }
}

/// Stores an item of 66 bytes under the key of one letter, and links its entry. Fails if the class is full.
pub fn store(world: &mut World, letter: u8, exptime: i64, moment: u64) -> Result<(), Fail> {
    let alloc = world.alloc;
    let command = storage(alloc, Verb::Set, letter, 0, exptime, &[letter])?;
    let key = command.key().copy(alloc)?;
    ask(world, command, moment)?;
    let Some(item) = world.stripe.find(&key) else {
        return Err(Fail::from("no item was stored"));
    };
    let expiry = item.expiry;
    let class = &mut world.class;
    if class.count() >= class.chunks() {
        return Err(Fail::from("the class is full"));
    }
    let copy = Some(key.copy(alloc)?);
    class.link(WHO, EntryKey { key, copy }, 66, moment, expiry)?;
    Ok(())
}

/// Returns what is fixed for the steps of the call at this moment.
pub fn context(moment: u64, config: &Config) -> Context<'_>
    ensures turn { result.turn ≡ record { who = record { caller = 0; turn = 0 }; moment = moment } }
    ensures config { result.config.now ≡ config.now }
{
    let turn = Turn { who: WHO, moment };
    Context { turn, config }
}

/// Juggles the class, as the LRU maintainer does, through a gate that is lent the stripe.
pub fn juggle(world: &mut World, moment: u64) -> Result<Moves, Fail> {
    let mut gate = Lone {
        number: StripeNo(0),
        stripe: &mut world.stripe,
        answers: &mut GhostList::new(),
    };
    let context = context(moment, &world.config);
    Ok(gate.juggle(context, &mut world.class)?)
}
