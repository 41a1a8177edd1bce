//! Judgements by direct calls.
ghost use Rattle.std.specs.Prelude.{◌≡◌, true};
ghost use Rattle.mc_pull.specs.Question.{IsFullFor, IsSurveyIn, MayWalk};

use mc_item::{ClassEvent, Command, Fault, Passed, Seg, Verb, Who};
use mc_pull::{Done, Judge, Mode, settle};
use mc_segment::{ClassState, Survey};
use mc_testing::{WHO, World, ask, context, key, storage};
use std::alloc::Global;
use std::test::Fail;

/// A judgement, or a command that the stripe alone is given, so that the class learns of it by judging.
#[derive(Clone, Copy)]
pub enum Judged {
    /// A list's tail at this moment, by a survey that is made first.
    Tail(Seg, u64),
    /// Whether COLD's tail is dead at this moment.
    IsDead(u64),
    /// What a hit makes of COLD's tail at this moment.
    IsHit(u64),
    /// A get of the key of one letter at 1000.
    Get(u8),
    /// A touch at 1000, with this exptime.
    Touch(u8, i64),
    /// A delete at 1000.
    Delete(u8),
    /// A set at 1000, whose link has no entry.
    Set(u8),
}

// Whether a survey is noted in a class's history.
fn is_noted(class: &ClassState, who: Who, moment: u64, survey: Survey) -> bool
    ensures { result ≡ true → IsSurveyIn class.now.history who moment survey }
{
    match class.history().get(survey.place as usize) {
        Some(ClassEvent::Surveyed(noted)) => {
            noted.who == who
                && noted.moment == moment
                && noted.total == survey.total
                && noted.cold_age == survey.cold_age
        }
        _ => false,
    }
}

/// Whether a list may be judged so.
pub(super) fn may_walk(class: &ClassState, seg: Seg, mode: Mode, who: Who, moment: u64) -> bool
    ensures { result ≡ true → MayWalk class.now seg mode who moment × IsFullFor class.now mode }
{
    match mode {
        Mode::Plain(survey) => is_noted(class, who, moment, survey),
        Mode::Evict => class.is_full() && seg == Seg::Cold,
        Mode::Force => class.is_full() && seg == Seg::Hot,
    }
}

/// Judges the tail of a list, and tells its number; nothing where there is no tail, or the list may not be judged so.
pub(super) fn judge(
    world: &mut World,
    seg: Seg,
    mode: Mode,
    moment: u64,
) -> Result<Option<(u64, Done)>, Fault> {
    let class = &mut world.class;
    if !may_walk(class, seg, mode, WHO, moment) {
        return Ok(None);
    }
    let Some(entry) = class.from_tail(seg, 0) else {
        return Ok(None);
    };
    let number = entry.number;
    let judge = Judge::Walk {
        seg,
        mode,
        passed: Passed::of(&[]),
    };
    let stripe = &mut world.stripe;
    let context = context(moment, &world.config);
    let done = settle(context, class, stripe, number, &judge)?;
    Ok(Some((number, done)))
}

// Judges a list's tail by a survey that is made first.
fn judge_tail(world: &mut World, seg: Seg, moment: u64) -> Result<Option<Done>, Fault> {
    let survey = world.class.survey(WHO, moment)?;
    match judge(world, seg, Mode::Plain(survey), moment)? {
        Some((_, done)) => Ok(Some(done)),
        None => Ok(None),
    }
}

// Asks whether COLD's tail is dead.
fn ask_tail(world: &mut World, moment: u64) -> Result<Option<Done>, Fault> {
    let class = &mut world.class;
    let Some(entry) = class.from_tail(Seg::Cold, 0) else {
        return Ok(None);
    };
    let number = entry.number;
    let stripe = &mut world.stripe;
    let context = context(moment, &world.config);
    let done = settle(context, class, stripe, number, &Judge::Dead)?;
    Ok(Some(done))
}

// Judges COLD's tail by a hit.
fn hit_tail(world: &mut World, moment: u64) -> Result<Option<Done>, Fault> {
    let class = &mut world.class;
    let Some(entry) = class.from_tail(Seg::Cold, 0) else {
        return Ok(None);
    };
    let number = entry.number;
    let stripe = &mut world.stripe;
    let context = context(moment, &world.config);
    let done = settle(context, class, stripe, number, &Judge::Hit)?;
    Ok(Some(done))
}

// The text of an outcome.
fn text_of_done(alloc: Global, done: Result<Option<Done>, Fault>) -> Result<String, Fail> {
    match done {
        Ok(Some(done)) => Ok(format!(in alloc; "{done:?}")?),
        Ok(None) => Ok(format!(in alloc; "no tail")?),
        Err(fault) => Ok(format!(in alloc; "{fault:?}")?),
    }
}

// A command on the stripe alone.
fn text_of_ask(world: &mut World, command: Command) -> Result<String, Fail> {
    ask(world, command, 1000)?;
    Ok(format!(in world.alloc; "asked")?)
}

/// Judges or asks, and tells what came of it.
pub(super) fn tell_judged(world: &mut World, judged: Judged) -> Result<String, Fail> {
    let alloc = world.alloc;
    match judged {
        Judged::Tail(seg, moment) => text_of_done(alloc, judge_tail(world, seg, moment)),
        Judged::IsDead(moment) => text_of_done(alloc, ask_tail(world, moment)),
        Judged::IsHit(moment) => text_of_done(alloc, hit_tail(world, moment)),
        Judged::Get(letter) => text_of_ask(world, Command::Get(key(alloc, letter)?)),
        Judged::Touch(letter, exptime) => {
            text_of_ask(world, Command::Touch(key(alloc, letter)?, exptime))
        }
        Judged::Delete(letter) => text_of_ask(world, Command::Delete(key(alloc, letter)?)),
        Judged::Set(letter) => {
            text_of_ask(world, storage(alloc, Verb::Set, letter, 0, 0, &[letter])?)
        }
    }
}
