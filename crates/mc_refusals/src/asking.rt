//! Commands on a stripe.
use crate::end::{End, end_of};
use crate::marks::Marks;
use mc_item::{Command, Fault, Key, KeyFault, Link, NoMemory, Room, Value, Verb};
use mc_stripe::{Done, Given, Home, Other, Turn, Want};
use mc_testing::{WHO, World, may_give};
use std::alloc::Global;

/// The moment of each command.
pub(crate) const MOMENT: u64 = 1000;

/// What is asked of a key.
#[derive(Clone, Copy)]
pub(crate) enum Asked {
    Get,
    Gat,
    /// A storage command with this text as its value, and this exptime.
    Store(Verb, &'static str, i64),
    Incr,
    Touch,
    Delete,
}

/// Returns the key of 31 times this letter. Keys of more than 30 bytes take memory.
pub(crate) fn key_of(alloc: Global, letter: u8) -> Result<Key, KeyFault> {
    Key::of(alloc, &[letter; 31])
}

/// Returns the value of a text.
pub(crate) fn value_of(alloc: Global, text: &str) -> Result<Value, NoMemory> {
    Value::of(alloc, Vec::from_slice(alloc, text.as_bytes())?)
}

/// Returns the command that asks it of the key of this letter.
pub(crate) fn command_of(alloc: Global, letter: u8, asked: Asked) -> Option<Command> {
    let key = key_of(alloc, letter).ok()?;
    match asked {
        Asked::Get => Some(Command::Get(key)),
        Asked::Gat => Some(Command::Gat(key, 60)),
        Asked::Store(verb, text, exptime) => {
            let value = value_of(alloc, text).ok()?;
            Some(Command::Store {
                verb,
                key,
                flags: 7,
                exptime,
                value,
            })
        }
        Asked::Incr => Some(Command::Incr(key, 5)),
        Asked::Touch => Some(Command::Touch(key, 60)),
        Asked::Delete => Some(Command::Delete(key)),
    }
}

// What a command is given: the class of the world with its next link.
fn given_by(world: &World) -> Given {
    let class = world.class.number();
    let number = world.class.next_number();
    Given {
        home: Some(Home {
            class,
            room: Room::At(Link { class, number }),
            places: 2,
        }),
        other: Some(Other { class, places: 2 }),
    }
}

fn end_of_try(tried: Result<Result<Done, Want>, Fault>) -> End {
    match tried {
        Ok(Err(_)) => End::Other,
        Ok(Ok(_)) => End::Made,
        Err(fault) => end_of::<()>(Err(fault)),
    }
}

// A get of an absent key wants no class.
const NOTHING: Given = Given {
    home: None,
    other: None,
};

// Tries a command on the stripe.
fn attempt(world: &mut World, command: &Command, given: Given, marks: Marks) -> End {
    let stripe = &mut world.stripe;
    if !stripe.owns(command.key()) || !may_give(given, stripe.history()) {
        return End::Other;
    }
    let turn = Turn {
        who: WHO,
        moment: MOMENT,
    };
    marks.begin();
    let tried = stripe.attempt(command, turn, &given);
    marks.end();
    end_of_try(tried)
}

// Tries a command on the stripe with what it is given.
fn ask_with(world: &mut World, letter: u8, asked: Asked, given: Given, marks: Marks) -> End {
    match command_of(world.alloc, letter, asked) {
        Some(command) => attempt(world, &command, given, marks),
        None => End::Other,
    }
}

/// Tries a command on the stripe.
pub(crate) fn ask(world: &mut World, letter: u8, asked: Asked, marks: Marks) -> End {
    let given = given_by(world);
    ask_with(world, letter, asked, given, marks)
}

/// Looks up an absent key until the stripe's history has as many events as a piece of it holds: 4,096.
pub(crate) fn fill(world: &mut World, marks: Marks) -> End {
    for _ in world.stripe.history().len()..4096 {
        ask_with(world, b'f', Asked::Get, NOTHING, marks);
    }
    End::Made
}
