//! Small classes by chance, and beside each a plain class, which takes its events one after another, and what is known of its items.
ghost use Rattle.std.specs.Prelude.{◌≤◌};

use super::plain_table::{Known, Shares};
use mc_item::{Command, Config, Seg, Verb};
use mc_segment::EntryKey;
use mc_testing::{Dice, PlainClass, WHO, World, ask, key, one_class, opened, storage};
use std::alloc::Global;
use std::random::RandomSource;
use std::test::Fail;

// Items that die within so many seconds go to TEMP, where that is in use.
const TEMP_LIFE: u64 = 5;

// Exptimes to choose from: some at once, some near, some far, and some never.
static EXPTIMES: [i64; 8] = [0, 0, -1, 1, 4, 5, 6, 12];

// Shares to choose from: those of HOT and WARM.
static SHARES: [Shares; 6] = [
    Shares {
        hot_percent: 20,
        warm_percent: 40,
        hot_factor: 20,
        warm_factor: 200,
    },
    Shares {
        hot_percent: 1,
        warm_percent: 1,
        hot_factor: 0,
        warm_factor: 0,
    },
    Shares {
        hot_percent: 33,
        warm_percent: 66,
        hot_factor: 10000,
        warm_factor: 1,
    },
    Shares {
        hot_percent: 50,
        warm_percent: 49,
        hot_factor: 100,
        warm_factor: 50,
    },
    Shares {
        hot_percent: 49,
        warm_percent: 50,
        hot_factor: 50,
        warm_factor: 100,
    },
    Shares {
        hot_percent: 98,
        warm_percent: 1,
        hot_factor: 100,
        warm_factor: 10000,
    },
];

/// A class and its stripe, the plain class, how many events it has taken, and what is known of the items by the numbers of their
/// entries.
#[derive(Drop)]
pub struct Game {
    pub world: World,
    pub plain: PlainClass,
    pub taken: usize,
    pub items: Vec<Known>,
    pub shares: Shares,
    pub moment: u64,
}

// A class of two to four chunks.
fn drawn_config(alloc: Global, dice: &mut Dice) -> Result<(Config, Shares), Fail> {
    let chunks = 2 + dice.below(3);
    let shares = SHARES[dice.below(6) as usize];
    let mut config = one_class(alloc, chunks)?;
    config.temp = dice.below(2) == 1;
    config.temp_ttl = TEMP_LIFE;
    config.hot_percent = shares.hot_percent;
    config.warm_percent = shares.warm_percent;
    config.hot_factor = shares.hot_factor;
    config.warm_factor = shares.warm_factor;
    Ok((config, shares))
}

/// A class of two to four chunks, without entries.
pub(super) fn begun<R: RandomSource>(rt: &R, alloc: Global, dice: &mut Dice) -> Result<Game, Fail> {
    let (config, shares) = drawn_config(alloc, dice)?;
    let world = opened(rt, alloc, config)?;
    let plain = PlainClass::new(alloc, world.class.chunks());
    Ok(Game {
        world,
        plain,
        taken: 0,
        items: Vec::new(alloc),
        shares,
        moment: 1000,
    })
}

/// The letter of the key of an entry, of which a game has fewer than 26.
pub(super) fn letter_of(number: u64) -> u8 {
    b'a' + (number % 26) as u8
}

// When an item dies.
fn dies_of(exptime: i64, moment: u64) -> Option<u64> {
    match exptime {
        0 => None,
        -1 => Some(0),
        _ => Some(moment.saturating_add_signed(exptime)),
    }
}

// The list of a new entry.
fn seg_of(temp: bool, dies: Option<u64>, moment: u64) -> Seg {
    match dies {
        Some(dies) if temp && moment < dies && dies <= moment.saturating_add(TEMP_LIFE) => {
            Seg::Temp
        }
        _ => Seg::Hot,
    }
}

// Stores an item whose value is a letter once or 31 times, mostly once, so that bytes are often just at a limit, and links
// its entry.
fn store(world: &mut World, letter: u8, long: bool, exptime: i64, moment: u64) -> Result<(), Fail> {
    let alloc = world.alloc;
    let text = [letter; 31];
    let len = if long { 31 } else { 1 };
    let command = storage(alloc, Verb::Set, letter, 0, exptime, &text[..len])?;
    ask(world, command, moment)?;
    let cost = if long { 96 } else { 66 };
    link(world, letter, cost, moment)
}

// Links the entry of an item.
fn link(world: &mut World, letter: u8, cost: u64, moment: u64) -> Result<(), Fail>
    requires { cost ≤ 96 }
{
    let alloc = world.alloc;
    let key = key(alloc, letter)?;
    let Some(item) = world.stripe.find(&key) else {
        return Err(Fail::from("no item was stored"));
    };
    let expiry = item.expiry;
    let class = &mut world.class;
    if class.is_full() {
        return Err(Fail::from("the class is full"));
    }
    let copy = Some(key.copy(alloc)?);
    class.link(WHO, EntryKey { key, copy }, cost, moment, expiry)?;
    Ok(())
}

/// A new item and its entry, which goes to the list that is wanted.
pub(super) fn link_one(game: &mut Game, dice: &mut Dice) -> Result<(), Fail> {
    let number = game.world.class.next_number();
    let long = dice.below(4) == 3;
    let exptime = EXPTIMES[dice.below(8) as usize];
    let moment = game.moment;
    store(&mut game.world, letter_of(number), long, exptime, moment)?;
    let dies = dies_of(exptime, moment);
    game.items.push(Known {
        dies,
        hits: 0,
        held: true,
    })?;
    let seg = seg_of(game.world.config.temp, dies, moment);
    if game.world.class.segment_of(number) != Some(seg) {
        return Err(Fail::from("the entry is in another list"));
    }
    Ok(())
}

/// A hit of some item, or seldom its removal, which leaves its entry alone. Those that are dead are spared.
pub(super) fn ask_one(game: &mut Game, dice: &mut Dice) -> Result<(), Fail> {
    let number = dice.below(1 + game.items.len() as u64);
    let gone = dice.below(16) == 0;
    let Some(known) = game.items.get_mut(number as usize) else {
        return Ok(());
    };
    if !known.held || known.is_dead(game.moment) {
        return Ok(());
    }
    let key = key(game.world.alloc, letter_of(number))?;
    if gone {
        known.held = false;
        ask(&mut game.world, Command::Delete(key), game.moment)
    } else {
        known.hits = u64::min(known.hits.saturating_add(1), 2);
        ask(&mut game.world, Command::Get(key), game.moment)
    }
}
