//! One try of a command on its stripe and the classes that it is lent, whose histories agree with the stripe's. Either the
//! command is made, with its part in each class, or it wants something and nothing has happened. A hit has no part in any class:
//! the try returns the link of the item that it woke. All memory is taken first, so nothing has happened after a fault either.
//! `HistoryFull` comes only if the stripe's history has no place left.
ghost use Rattle.std.specs.Prelude.{if◌then◌else◌, ◌≡◌, ◌≤◌, ◌<◌, ◌↔◌, ◌∷◌, [], true, Some, None, IfOk, OnErr, OnOk, IsErrOf, IsOk, length};
ghost use Rattle.mc_item.specs.Command.{key_of};
ghost use Rattle.mc_item.specs.declared.{config.Config.Config, fault.Fault.TheVariants.HistoryFull};
ghost use Rattle.mc_segment.specs.ClassState.{with_room};
ghost use Rattle.mc_stripe.specs.StripeCalls.{KeepsSite};
ghost use Rattle.mc_pull.specs.Attempt.{GivesHome, HasFree, HasRoomFor, IsNoted, IsReady, IsSmallFate};
ghost use Rattle.mc_pull.specs.Attempt.{IsTriedBy, LeavesPlaces, MayMakePart, MayTryOn, OffersHome, OffersOther};
ghost use Rattle.mc_pull.specs.Parts as words;
ghost use Rattle.mc_pull.specs.{Parts.MayMake, Parts.part_for, Performed.IsUntouched, Question.IsClassOf, Question.IsStripeOf, Settled.class_with};

use crate::making::make;
use crate::parts::{Part, entry_number, gone_part, is_here, linked_part};
use mc_item::{Command, Fault, Key, Link, NoMemory, Reply, Room};
use mc_segment::{ClassState, EntryKey};
use mc_stripe::{Done, Fate, Given, Home, Other, StripeState, Turn, Want};
use std::alloc::Global;

/// A command's reply, and the link of the item that its hit made ACTIVE, if it did.
#[derive(Drop)]
pub struct Replied {
    pub reply: Reply,
    pub woken: Option<Link>,
}

/// What a try came to: the command was made, or it wants something first.
#[derive(Drop)]
pub enum Tried {
    Made(Replied),
    Wants(Want),
}

// For how many more events a class's history has places, counted up to `most`, which is 1 or 2.
#[inline(always)]
fn places(class: &ClassState, most: usize) -> usize
    requires { (0 < most) × (most ≤ 2) }
    ensures { LeavesPlaces most class.now result }
{
    class.law();
    if class.has_places(most) {
        most
    } else if class.has_places(most - 1) {
        most - 1
    } else {
        0
    }
}

// The room that a class gives a command: its next link if a chunk is free, else the refusal at place `refused`, if there is one.
#[inline(always)]
fn room_of(class: &ClassState, refused: Option<u64>, turn: Turn) -> Room
    requires noted { IsNoted refused turn.who class.now }
    ensures { GivesHome class.now refused turn.who result }
{
    if !class.is_full() {
        return Room::At(Link {
            class: class.number(),
            number: class.next_number(),
        });
    }
    match refused {
        None => Room::Keep,
        Some(place) => Room::Refused {
            class: class.number(),
            place,
        },
    }
}

/// Returns what the class of a command's new version offers: a room, and places for at most two events. The room is the class's
/// next link if a chunk is free. Else it is the class's refusal of this call, which is at place `refused` of its history, or
/// `Keep` if that is `None`.
#[inline(always)]
pub fn offer_home(class: &ClassState, refused: Option<u64>, turn: Turn) -> Home
    requires noted { IsNoted refused turn.who class.now }
    ensures { OffersHome class.now refused turn.who result }
{
    Home {
        class: class.number(),
        room: room_of(class, refused, turn),
        places: places(class, 2) as u64,
    }
}

/// Returns what the class of a command's item offers: places for at most one event.
#[inline(always)]
pub fn offer_other(class: &ClassState) -> Other
    ensures { OffersOther class.now result }
{
    Other {
        class: class.number(),
        places: places(class, 1) as u64,
    }
}

/// Makes room in a class for a command's events: for two, or for fewer if its history has no more places. Errors: `NoMemory`
/// only, and only if there was room for fewer than two. Nothing but the room ever changes, and it doesn't shrink.
#[inline(always)]
pub fn ready(class: &mut ClassState) -> Result<(), Fault>
    ensures ready { OnOk result (IsReady class.new) }
    ensures same { class.new ≡ with_room class.old class.new.room }
    ensures memory { IsErrOf result HistoryFull → ⊥ }
    ensures kept { class.old.room ≤ class.new.room }
    ensures succeeds { 2 ≤ class.old.room → IsOk result }
{
    let places = places(class, 2);
    class.reserve(places)
}

// A copy of a key, if one is wanted.
#[inline(always)]
fn key_if(alloc: Global, key: &Key, wanted: bool) -> Result<Option<Key>, NoMemory>
    ensures { IfOk result (λ copy. copy ≡ (if wanted then Some key.now else None)) }
{
    if wanted {
        Ok(Some(key.copy(alloc)?))
    } else {
        Ok(None)
    }
}

// Copies a command's key for its part in a class.
#[inline(always)]
fn keys_for(alloc: Global, class: &ClassState, command: &Command) -> Result<EntryKey, NoMemory>
    ensures key { IfOk result (λ keys. keys.key ≡ key_of command.now) }
    ensures copy { IfOk result (λ keys. class.now.keeps_events ≡ true → keys.copy ≡ Some keys.key) }
{
    let key = command.key().copy(alloc)?;
    let copy = key_if(alloc, &key, class.keeps_events())?;
    Ok(EntryKey { key, copy })
}

// A class's part in a command that was made, by the command's room and what becomes of its key's chunks.
#[inline(always)]
fn part_after(class: &ClassState, key: Key, room: Room, fate: Fate) -> Part
    requires free { words.is_here class.now room ≡ true → HasFree class.now }
    requires small { words.is_here class.now room ≡ true → IsSmallFate fate }
    ensures part { result ≡ part_for class.now key room fate }
    ensures may { MayMake class.now result }
{
    match fate {
        Fate::Untouched | Fate::Woken(_) => Part::Nothing,
        Fate::Renewed { cost, expiry, old } => {
            let number = entry_number(class, &key, old);
            if is_here(class, room) {
                linked_part(key, cost, expiry, number)
            } else {
                gone_part(number)
            }
        }
        Fate::Goes(link) => gone_part(entry_number(class, &key, Some(link))),
    }
}

// Makes a class's part in a command that was made.
#[inline(always)]
fn make_part(class: &mut ClassState, keys: EntryKey, room: Room, fate: Fate, turn: Turn)
    requires may { MayMakePart class.old keys.key room fate }
    requires copy { class.old.keeps_events ≡ true → keys.copy ≡ Some keys.key }
    ensures { class.new ≡ class_with class.old (words.part_events class.old turn.who turn.moment (part_for class.old keys.key room fate)) class.new.room }
{
    let part = part_after(class, keys.key, room, fate);
    make(class, part, keys.copy, turn);
}

/// Tries a command that is lent no class. Returns its reply and what its hit woke, or, with nothing done, what it wants first.
/// Errors: `NoMemory`; `HistoryFull` exactly if the stripe's history has no place left. No history has changed then.
#[inline(always)]
pub fn attempt_none(stripe: &mut StripeState, command: &Command, turn: Turn) -> Result<Tried, Fault>
    requires may { MayTryOn stripe.old [] command.now turn (record { home = None; other = None }) }
    ensures tried { (config : Config) → IsStripeOf config stripe.old
        → IfOk result (IsTriedBy config stripe.old stripe.new command.now turn (record { home = None; other = None }) [] []) }
    ensures err { OnErr result (IsUntouched stripe.old stripe.new [] []) }
    ensures full { IsErrOf result HistoryFull ↔ (stripe.old.limit ≤ length stripe.old.history) }
    ensures site { KeepsSite stripe.old stripe.new }
{
    stripe.history();
    let given = Given {
        home: None,
        other: None,
    };
    match stripe.attempt(command, turn, &given)? {
        Ok(done) => Ok(Tried::Made(Replied {
            reply: done.reply,
            woken: done.fate.woken(),
        })),
        Err(want) => Ok(Tried::Wants(want)),
    }
}

/// What is fixed for one try: the allocator, the command, who makes it and when, and what the lent classes offer.
#[derive(Clone, Copy)]
pub struct Attempt<'a> {
    pub alloc: Global,
    pub command: &'a Command,
    pub turn: Turn,
    pub given: Given,
}

/// Tries a command that is lent one class, which must have room for what it offers (`ready`). Returns the command's reply and
/// what its hit woke, or, with nothing done, what it wants first.
/// Errors: `NoMemory`; `HistoryFull` only if the stripe's history has no place left. No history has changed then.
#[inline(always)]
pub fn attempt_one(
    attempt: Attempt<'_>,
    stripe: &mut StripeState,
    class: &mut ClassState,
) -> Result<Tried, Fault>
    requires may { MayTryOn stripe.old (class.old ∷ []) attempt.command.now attempt.turn attempt.given }
    requires room { HasRoomFor attempt.given class.old }
    ensures tried { (config : Config) → IsStripeOf config stripe.old → IsClassOf config class.old
        → IfOk result (IsTriedBy config stripe.old stripe.new attempt.entry.command.now attempt.entry.turn attempt.entry.given (class.old ∷ []) (class.new
        ∷ [])) }
    ensures err { OnErr result (IsUntouched stripe.old stripe.new (class.old ∷ []) (class.new ∷ [])) }
    ensures full { IsErrOf result HistoryFull → stripe.old.limit ≤ length stripe.old.history }
    ensures site { KeepsSite stripe.old stripe.new }
{
    let Attempt {
        alloc,
        command,
        turn,
        given,
    } = attempt;
    class.law();
    stripe.history();
    let keys = keys_for(alloc, class, command)?;
    match stripe.attempt(command, turn, &given)? {
        Err(want) => Ok(Tried::Wants(want)),
        Ok(done) => {
            let Done { reply, room, fate } = done;
            make_part(class, keys, room, fate, turn);
            Ok(Tried::Made(Replied {
                reply,
                woken: fate.woken(),
            }))
        }
    }
}

/// Tries a command that is lent two classes. All else is as for `attempt_one`.
#[inline(never)]
pub fn attempt_two(
    attempt: Attempt<'_>,
    stripe: &mut StripeState,
    home: &mut ClassState,
    other: &mut ClassState,
) -> Result<Tried, Fault>
    requires may { MayTryOn stripe.old (home.old ∷ other.old ∷ []) attempt.command.now attempt.turn attempt.given }
    requires room { HasRoomFor attempt.given home.old × HasRoomFor attempt.given other.old }
    ensures tried { (config : Config) → IsStripeOf config stripe.old → IsClassOf config home.old → IsClassOf config other.old
        → IfOk result (IsTriedBy config stripe.old stripe.new attempt.entry.command.now attempt.entry.turn attempt.entry.given (home.old ∷ other.old ∷ [])
        (home.new ∷ other.new ∷ [])) }
    ensures err { OnErr result (IsUntouched stripe.old stripe.new (home.old ∷ other.old ∷ []) (home.new ∷ other.new ∷ [])) }
    ensures full { IsErrOf result HistoryFull → stripe.old.limit ≤ length stripe.old.history }
    ensures site { KeepsSite stripe.old stripe.new }
{
    let Attempt {
        alloc,
        command,
        turn,
        given,
    } = attempt;
    home.law();
    other.law();
    stripe.history();
    let first = keys_for(alloc, home, command)?;
    let second = keys_for(alloc, other, command)?;
    match stripe.attempt(command, turn, &given)? {
        Err(want) => Ok(Tried::Wants(want)),
        Ok(done) => {
            let Done { reply, room, fate } = done;
            make_part(home, first, room, fate, turn);
            make_part(other, second, room, fate, turn);
            Ok(Tried::Made(Replied {
                reply,
                woken: fate.woken(),
            }))
        }
    }
}
