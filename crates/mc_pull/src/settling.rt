//! Judges one entry with its stripe, and does what follows in both.
ghost use Rattle.std.specs.Prelude.{◌≡◌, ◌<◌, ◌⊎◌, length, IfOk, IfErr, OnOk, OnErr, IsSomeAnd, MatchResult};
ghost use Rattle.mc_rule.specs.{Segment.rule_of, Lawful.IsListed, Lists.lists_of};
ghost use Rattle.mc_segment.specs.{ClassState.with_room, ClassState.HasPlaces, ClassState.MayRefuse, Entries.entry_of};
ghost use Rattle.mc_stripe.specs.{StripeState.cache_now, StripeCalls.KeepsSite};
ghost use Rattle.mc_pull.specs.{Judgement.done_of, Settled.done_class_events, Settled.class_with, Settled.IsSettled, Sight.KeepsPartners};
ghost use Rattle.mc_pull.specs.Question.{question_by, question_of, IsAsked, IsClassOf, IsStripeOf, MayJudge};
ghost use Rattle.mc_pull.specs.Refusal.{HavePlaces, MayFail, MayRefuseBoth, MayRefuseFor, Refuses};
ghost use Rattle.mc_pull.specs.Settled as words;
ghost use Rattle.mc_pull.specs.Outcome as table;
ghost use Rattle.mc_pull.specs.declared.judge.Done.TheVariants as done;
ghost use Rattle.mc_pull.specs.declared.judge.Judge.TheVariants as judges;

use crate::certain;
use crate::context::Context;
use crate::judge::{Ask, Done, Judge, Mode};
use crate::verdict::{is_over, verdict};
use mc_item::{Config, Fault, Key, Passed, Seg, Shifted, Why};
use mc_segment::ClassState;
use mc_stripe::StripeState;

// Makes room for one event of the class and one of the stripe, and copies the entry's key for the stripe's event.
fn prepare(class: &mut ClassState, stripe: &mut StripeState, ask: &Ask<'_>) -> Result<Key, Fault>
    requires asked { IsAsked class.old stripe.old ask.now }
    requires there { IsListed ask.now.number (lists_of class.old.history) }
    ensures key { IfOk result (λ key. IsSomeAnd (entry_of ask.now.number (lists_of class.old.history)) (λ e. key ≡ e.key)) }
    ensures class { class.new ≡ with_room class.old class.new.room }
    ensures history { stripe.new.history ≡ stripe.old.history }
    ensures site { KeepsSite stripe.old stripe.new }
    ensures room { OnOk result ((0 < class.new.room) × (0 < stripe.new.room)) }
    ensures refusal { MatchResult result (λ _. HavePlaces class.old stripe.old) (MayRefuseBoth class.old stripe.old) }
{
    if class.history().len() as u64 >= ask.config.max_events {
        return Err(Fault::HistoryFull);
    }
    if stripe.history().len() as u64 >= ask.config.max_events {
        return Err(Fault::HistoryFull);
    }
    let key = class.key(ask.number)?;
    class.reserve(1)?;
    stripe.reserve(1)?;
    Ok(key)
}

// The numbers of the entries between this one and the tail.
fn passed_of(judge: &Judge) -> Passed
    ensures { result ≡ words.passed_of judge.now }
{
    match judge {
        Judge::Walk { passed, .. } => Passed::of(passed.as_slice()),
        Judge::Dead => Passed::of(&[]),
        Judge::Hit => Passed::of(&[]),
    }
}

// Why an entry goes to WARM.
fn warm_why(judge: &Judge) -> Why
    ensures { result ≡ words.warm_why judge.now }
{
    match judge {
        Judge::Walk { .. } => Why::Active,
        Judge::Dead => Why::Active,
        Judge::Hit => Why::Hit,
    }
}

// Why an entry of this segment moves to COLD.
fn cold_why(class: &ClassState, seg: Seg, mode: Mode, config: &Config) -> Why
    ensures { result ≡ table.cold_why (rule_of config.now) (lists_of class.now.history) seg mode }
{
    match mode {
        Mode::Plain(survey) => {
            if is_over(class, seg, survey, config) {
                Why::Over(survey.place)
            } else {
                Why::Old(survey.place)
            }
        }
        Mode::Evict => Why::Forced,
        Mode::Force => Why::Forced,
    }
}

// Removes a dead item and its entry.
fn settle_dead(class: &mut ClassState, stripe: &mut StripeState, ask: &Ask<'_>) -> Result<(), Fault>
    requires asked { IsAsked class.old stripe.old ask.now }
    requires done { done_of class.old (cache_now stripe.old) (question_of ask.now) ≡ done.Reclaimed }
    ensures settled { OnOk result (IsSettled class.old class.new stripe.old stripe.new (question_of ask.now) done.Reclaimed) }
    ensures err { OnErr result ((class.new ≡ with_room class.old class.new.room) × (stripe.new.history ≡ stripe.old.history)) }
    ensures site { KeepsSite stripe.old stripe.new }
    ensures refusal { MatchResult result (λ _. HavePlaces class.old stripe.old) (MayRefuseBoth class.old stripe.old) }
{
    let key = prepare(class, stripe, ask)?;
    let at = stripe.history().len() as u64;
    certain::reclaim(class, ask.who, ask.number, ask.moment, at);
    certain::forget_expired(stripe, ask.who, key, ask.moment);
    Ok(())
}

// Evicts an entry of COLD with its item.
fn settle_taken(
    class: &mut ClassState,
    stripe: &mut StripeState,
    ask: &Ask<'_>,
) -> Result<(), Fault>
    requires asked { IsAsked class.old stripe.old ask.now }
    requires done { done_of class.old (cache_now stripe.old) (question_of ask.now) ≡ done.Evicted }
    ensures settled { OnOk result (IsSettled class.old class.new stripe.old stripe.new (question_of ask.now) done.Evicted) }
    ensures err { OnErr result ((class.new ≡ with_room class.old class.new.room) × (stripe.new.history ≡ stripe.old.history)) }
    ensures site { KeepsSite stripe.old stripe.new }
    ensures refusal { MatchResult result (λ _. HavePlaces class.old stripe.old) (MayRefuseBoth class.old stripe.old) }
{
    let key = prepare(class, stripe, ask)?;
    let at = stripe.history().len() as u64;
    let place = class.history().len() as u64;
    certain::evict(class, ask.who, ask.number, passed_of(ask.judge), at);
    certain::forget_taken(stripe, ask.who, key, class.number(), place);
    Ok(())
}

// Moves the entry of an ACTIVE item to WARM's head, and clears the mark.
fn settle_active(
    class: &mut ClassState,
    stripe: &mut StripeState,
    ask: &Ask<'_>,
) -> Result<(), Fault>
    requires asked { IsAsked class.old stripe.old ask.now }
    requires done { (done_of class.old (cache_now stripe.old) (question_of ask.now) ≡ done.ToWarm) ⊎ (done_of class.old (cache_now stripe.old) (question_of
        ask.now) ≡ done.WithinWarm) }
    ensures settled { OnOk result (IsSettled class.old class.new stripe.old stripe.new (question_of ask.now) (done_of class.old (cache_now stripe.old)
        (question_of ask.now))) }
    ensures err { OnErr result ((class.new ≡ with_room class.old class.new.room) × (stripe.new.history ≡ stripe.old.history)) }
    ensures site { KeepsSite stripe.old stripe.new }
    ensures refusal { MatchResult result (λ _. HavePlaces class.old stripe.old) (MayRefuseBoth class.old stripe.old) }
{
    let key = prepare(class, stripe, ask)?;
    let at = stripe.history().len() as u64;
    class.law();
    certain::shift(
        class,
        ask,
        Seg::Warm,
        warm_why(ask.judge),
        passed_of(ask.judge),
        at,
    );
    certain::cool(stripe, ask.who, key);
    Ok(())
}

// Moves an entry to COLD's head.
fn settle_cold(
    class: &mut ClassState,
    stripe: &StripeState,
    ask: &Ask<'_>,
    seg: Seg,
    mode: Mode,
    passed: &Passed,
) -> Result<(), Fault>
    requires judge { ask.now.judge.now ≡ judges.Walk seg mode passed.now }
    requires asked { IsAsked class.old stripe.now ask.now }
    requires done { done_of class.old (cache_now stripe.now) (question_of ask.now) ≡ done.ToCold }
    ensures ok { OnOk result (class.new ≡ class_with class.old (done_class_events class.old (question_of ask.now) (length stripe.now.history) done.ToCold)
        class.new.room) }
    ensures err { OnErr result (class.new ≡ with_room class.old class.new.room) }
    ensures refusal { MatchResult result (λ _. HasPlaces class.old 1) (MayRefuse class.old 1) }
{
    let why = cold_why(class, seg, mode, ask.config);
    let at = stripe.history().len() as u64;
    class.law();
    class.shift(Shifted {
        who: ask.who,
        number: ask.number,
        from_seg: seg,
        to_seg: Seg::Cold,
        why,
        moment: ask.moment,
        passed: Passed::of(passed.as_slice()),
        at,
    })
}

// Finds what is to be done with an entry, and does it.
fn settle_by(class: &mut ClassState, stripe: &mut StripeState, ask: &Ask<'_>) -> Result<Done, Fault>
    requires asked { IsAsked class.old stripe.old ask.now }
    ensures done { IfOk result (λ made. made ≡ done_of class.old (cache_now stripe.old) (question_of ask.now)) }
    ensures settled { IfOk result (λ made. IsSettled class.old class.new stripe.old stripe.new (question_of ask.now) made) }
    ensures err { OnErr result ((class.new ≡ with_room class.old class.new.room) × (stripe.new.history ≡ stripe.old.history)) }
    ensures site { KeepsSite stripe.old stripe.new }
    ensures full { IfErr result (MayFail class.new stripe.new) }
    ensures refusal { IfErr result (MayRefuseFor class.old stripe.old (done_of class.old (cache_now stripe.old) (question_of ask.now))) }
{
    let made = verdict(class, stripe, ask.number, ask.judge, ask.moment, ask.config);
    match made {
        Done::Reclaimed => settle_dead(class, stripe, ask)?,
        Done::ToWarm => settle_active(class, stripe, ask)?,
        Done::WithinWarm => settle_active(class, stripe, ask)?,
        Done::ToCold => match ask.judge {
            Judge::Walk { seg, mode, passed } => {
                settle_cold(class, stripe, ask, *seg, *mode, passed)?
            }
            Judge::Dead => unreachable!(),
            Judge::Hit => unreachable!(),
        },
        Done::Evicted => settle_taken(class, stripe, ask)?,
        Done::Stayed => {}
        Done::Alive(_) => {}
        Done::Stranger => {}
    }
    Ok(made)
}

// Judges the entry that is asked about, as `settle` does.
pub(crate) fn settle_ask(
    class: &mut ClassState,
    stripe: &mut StripeState,
    ask: &Ask<'_>,
) -> Result<Done, Fault>
    requires asked { IsAsked class.old stripe.old ask.now }
    ensures done { IfOk result (λ made. made ≡ done_of class.old (cache_now stripe.old) (question_of ask.now)) }
    ensures settled { IfOk result (λ made. IsSettled class.old class.new stripe.old stripe.new (question_of ask.now) made) }
    ensures keeps { KeepsPartners class.old class.new stripe.old stripe.new }
    ensures err { OnErr result ((class.new ≡ with_room class.old class.new.room) × (stripe.new.history ≡ stripe.old.history)) }
    ensures refusal { IfErr result (Refuses class.old class.new stripe.old stripe.new (done_of class.old (cache_now stripe.old) (question_of ask.now))) }
{
    class.law();
    stripe.history();
    settle_by(class, stripe, ask)
}

/// Judges one entry with its stripe, makes the events of both histories, and returns what was done. It goes by the rule of the
/// entry's segment, or asks only whether the item is dead, or whether a hit moves the entry. If the stripe has no item with the
/// entry's chunk, nothing changes. The entry must be in a list, for a hit in COLD. A walk must name its list, just the entries
/// between this one and the tail, and a mode that fits.
/// Errors: `HistoryFull` exactly if a history has no place for an event to be made, `NoMemory` only if an event is to be made.
/// Neither history has changed then.
pub fn settle(
    context: Context<'_>,
    class: &mut ClassState,
    stripe: &mut StripeState,
    number: u64,
    judge: &Judge,
) -> Result<Done, Fault>
    requires class { IsClassOf context.config.now class.old }
    requires stripe { IsStripeOf context.config.now stripe.old }
    requires judge { MayJudge class.old (question_by context number judge.now) }
    ensures done { IfOk result (λ made. made ≡ done_of class.old (cache_now stripe.old) (question_by context.entry number judge.now)) }
    ensures settled { IfOk result (λ made. IsSettled class.old class.new stripe.old stripe.new (question_by context.entry number judge.now) made) }
    ensures keeps { KeepsPartners class.old class.new stripe.old stripe.new }
    ensures err { OnErr result ((class.new ≡ with_room class.old class.new.room) × (stripe.new.history ≡ stripe.old.history)) }
    ensures refusal { IfErr result (Refuses class.old class.new stripe.old stripe.new (done_of class.old (cache_now stripe.old) (question_by context.entry
        number judge.now))) }
{
    settle_ask(
        class,
        stripe,
        &Ask {
            who: context.turn.who,
            number,
            judge,
            moment: context.turn.moment,
            config: context.config,
        },
    )
}
