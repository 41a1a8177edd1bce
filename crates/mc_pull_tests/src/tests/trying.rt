//! Tries of commands on a stripe and two classes, whose histories agree.
ghost use Rattle.std.specs.Prelude.{◌≡◌, ◌≤◌, ◌^◌, true, IfOk, OnOk, Some, slice_get};
ghost use Rattle.mc_item.specs.{Command.key_of, Measure.stripe_of};
ghost use Rattle.mc_item.specs.declared.class_event.ClassEvent.TheVariants as class_events;
ghost use Rattle.mc_item.specs.declared.item.Who.{Who};
ghost use Rattle.mc_pull.specs.Attempt.{IsNoted, IsReady};
ghost use Rattle.mc_pull_tests.specs.Met.{AreMet};

use mc_item::{ClassEvent, ClassNo, Command, Config, Fault, Link, Numbers, Reply, StripeNo, Who};
use mc_pull::{
    Attempt, Tried, attempt_none, attempt_one, attempt_two, offer_home, offer_other, ready,
};
use mc_segment::ClassState;
use mc_stripe::{Given, StripeState, Turn};
use mc_testing::WHO;
use std::alloc::Global;
use std::hash::RandomState;
use std::random::RandomSource;
use std::test::Fail;

/// What a command is lent: the first class for its new version, or for its item; or the second one and the first.
#[derive(Clone, Copy)]
pub(super) enum Lend {
    Nothing,
    Home,
    Other,
    Both,
}

/// A stripe and two classes, for items of up to 96 and 192 bytes, whose histories agree, and the moment of each call.
#[derive(Drop)]
pub struct Pair {
    pub alloc: Global,
    pub config: Config,
    pub stripe: StripeState,
    pub first: ClassState,
    pub second: ClassState,
    pub moment: u64,
}

// A configuration of one stripe, with so many chunks of each class, and places of each history.
fn two_classes(alloc: Global, chunks: u64, places: u64) -> Result<Config, Fail> {
    let usual = Config::usual(alloc, 1)?;
    Ok(Config {
        sizes: Numbers::from_vec(Vec::from_slice(alloc, &[96, 192])?),
        chunks: Numbers::from_vec(Vec::from_slice(alloc, &[chunks, chunks])?),
        max_events: places,
        ..usual
    })
}

/// An empty stripe and two empty classes, at 1000.
pub(super) fn opened<R: RandomSource>(
    rt: &R,
    alloc: Global,
    chunks: u64,
    places: u64,
) -> Result<Pair, Fail>
    ensures met { IfOk result (λ p. AreMet p.config p.stripe p.first p.second) }
{
    let config = two_classes(alloc, chunks, places)?.check()?;
    let seed = RandomState::new(rt)?;
    if config.sizes.as_slice().len() < 2 {
        return Err(Fail::from("there is no second class"));
    }
    let stripe = StripeState::new(alloc, StripeNo(0), &config, seed);
    let first = ClassState::new(alloc, ClassNo(1), &config);
    let second = ClassState::new(alloc, ClassNo(2), &config);
    Ok(Pair {
        alloc,
        config,
        stripe,
        first,
        second,
        moment: 1000,
    })
}

// Whether the event at a place of a class's history is a refusal for a call.
fn is_refusal(class: &ClassState, who: Who, place: u64) -> bool
    ensures { result ≡ true → slice_get class.now.history place ≡ Some (class_events.Refused (record { who = who })) }
{
    match class.history().get(place as usize) {
        Some(ClassEvent::Refused(refused)) => refused.who == who,
        _ => false,
    }
}

// Whether the refusal that a command is lent, if any, is noted.
fn is_noted(class: &ClassState, who: Who, refused: Option<u64>) -> bool
    ensures { result ≡ true → IsNoted refused who class.now }
{
    match refused {
        None => true,
        Some(place) => is_refusal(class, who, place),
    }
}

// Tries a command on what it is lent: it is given what that offers.
fn try_lent(
    pair: &mut Pair,
    command: &Command,
    lend: Lend,
    turn: Turn,
    refused: Option<u64>,
) -> Result<Tried, Fault>
    requires met { AreMet pair.old.config pair.old.stripe pair.old.first pair.old.second }
    requires ready { IsReady pair.old.first × IsReady pair.old.second }
    requires stripe { stripe_of (key_of command.now) pair.old.stripe.site.stripes ≡ record { 0 = pair.old.stripe.site.stripe } }
    requires moment { turn.moment ≤ 2 ^ 62 }
    requires noted { IsNoted refused turn.who pair.old.first }
    ensures met { AreMet pair.new.config pair.new.stripe pair.new.first pair.new.second }
{
    let alloc = pair.alloc;
    match lend {
        Lend::Nothing => attempt_none(&mut pair.stripe, command, turn),
        Lend::Home => {
            let home = Some(offer_home(&pair.first, refused, turn));
            let attempt = Attempt {
                alloc,
                command,
                turn,
                given: Given { home, other: None },
            };
            attempt_one(attempt, &mut pair.stripe, &mut pair.first)
        }
        Lend::Other => {
            let other = Some(offer_other(&pair.first));
            let attempt = Attempt {
                alloc,
                command,
                turn,
                given: Given { home: None, other },
            };
            attempt_one(attempt, &mut pair.stripe, &mut pair.first)
        }
        Lend::Both => {
            let home = Some(offer_home(&pair.second, None, turn));
            let other = Some(offer_other(&pair.first));
            let attempt = Attempt {
                alloc,
                command,
                turn,
                given: Given { home, other },
            };
            attempt_two(attempt, &mut pair.stripe, &mut pair.second, &mut pair.first)
        }
    }
}

fn text_of_reply(alloc: Global, reply: Reply) -> Result<String, Fail> {
    match reply {
        Reply::Value { .. } => Ok(format!(in alloc; "a value")?),
        reply => Ok(format!(in alloc; "{reply:?}")?),
    }
}

// The reply, and the link of the item that a hit made ACTIVE.
fn text_of_made(alloc: Global, reply: Reply, woken: Option<Link>) -> Result<String, Fail> {
    let text = text_of_reply(alloc, reply)?;
    match woken {
        None => Ok(text),
        Some(link) => Ok(format!(in alloc;
            "{text}, {} of class {} woken",
            link.number, link.class.0
        )?),
    }
}

fn text_of_tried(alloc: Global, tried: Result<Tried, Fault>) -> Result<String, Fail> {
    match tried {
        Ok(Tried::Made(made)) => text_of_made(alloc, made.reply, made.woken),
        Ok(Tried::Wants(want)) => Ok(format!(in alloc; "{want:?}")?),
        Err(fault) => Ok(format!(in alloc; "{fault:?}")?),
    }
}

/// Tries a command on what it is lent, after both classes are ready, and tells what came of it: a refusal that is cited is
/// at this place of the first class's history.
pub(super) fn tell_command(
    pair: &mut Pair,
    command: &Command,
    lend: Lend,
    refused: Option<u64>,
) -> Result<String, Fail>
    requires met { AreMet pair.old.config pair.old.stripe pair.old.first pair.old.second }
    ensures met { OnOk result (AreMet pair.new.config pair.new.stripe pair.new.first pair.new.second) }
{
    let turn = Turn {
        who: WHO,
        moment: pair.moment,
    };
    let may = turn.moment <= 1 << 62 && pair.stripe.owns(command.key());
    if !may || !is_noted(&pair.first, WHO, refused) {
        return Err(Fail::from("no such command may be tried"));
    }
    ready(&mut pair.first)?;
    ready(&mut pair.second)?;
    let tried = try_lent(pair, command, lend, turn, refused);
    text_of_tried(pair.alloc, tried)
}
