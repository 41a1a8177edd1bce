//! What is to be done with an entry.
ghost use Rattle.std.specs.Prelude.{◌≡◌, ◌*◌, ◌/◌};
ghost use Rattle.mc_rule.specs.{Lists.lists_of, Segment.rule_of};
ghost use Rattle.mc_rule.specs.Segment as rules;
ghost use Rattle.mc_item.specs.declared.item.Who.{Who};
ghost use Rattle.mc_pull.specs.Judgement as words;
ghost use Rattle.mc_pull.specs.{Judgement.done_of, Question.question};
ghost use Rattle.mc_pull.specs.Outcome as table;
ghost use Rattle.mc_stripe.specs.StripeState.{cache_now};

use crate::judge::{Done, Judge, Mode};
use crate::outcome::outcome;
use mc_item::{ClassNo, Config, Entry, Item, Seg};
use mc_segment::{ClassState, Survey};
use mc_stripe::StripeState;

// This many hundredths of an amount, rounded down.
fn share(amount: u64, hundredths: u64) -> u128
    ensures { result ≡ amount * hundredths / 100 }
{
    amount as u128 * hundredths as u128 / 100
}

// A segment's share of the bytes, in percent.
fn percent_of(config: &Config, seg: Seg) -> u64
    ensures { result ≡ rules.percent_of (rule_of config.now) seg }
{
    match seg {
        Seg::Hot => config.hot_percent,
        Seg::Warm => config.warm_percent,
        Seg::Cold | Seg::Temp => 0,
    }
}

// A segment's share of the cold age, in hundredths.
fn factor_of(config: &Config, seg: Seg) -> u64
    ensures { result ≡ rules.factor_of (rule_of config.now) seg }
{
    match seg {
        Seg::Hot => config.hot_factor,
        Seg::Warm => config.warm_factor,
        Seg::Cold | Seg::Temp => 0,
    }
}

// Whether a segment has more bytes than a survey allows it.
pub(crate) fn is_over(class: &ClassState, seg: Seg, survey: Survey, config: &Config) -> bool
    ensures { result ≡ table.is_over (rule_of config.now) (lists_of class.now.history) seg survey }
{
    share(survey.total, percent_of(config, seg)) < class.bytes(seg) as u128
}

// Whether an entry of a segment is older than a survey allows.
fn is_old(seg: Seg, survey: Survey, moment: u64, entry: &Entry, config: &Config) -> bool
    ensures { result ≡ table.is_old (rule_of config.now) seg survey moment entry.now }
{
    share(survey.cold_age, factor_of(config, seg)) < moment.saturating_sub(entry.time) as u128
}

// Whether an entry is due to move by a survey: its segment has too many bytes, or it is too old. Other modes have no survey.
fn is_due(
    class: &ClassState,
    seg: Seg,
    mode: Mode,
    moment: u64,
    entry: &Entry,
    config: &Config,
) -> bool
    ensures { result ≡ table.is_due (rule_of config.now) (lists_of class.now.history) seg mode moment entry.now }
{
    match mode {
        Mode::Plain(survey) => {
            is_over(class, seg, survey, config) || is_old(seg, survey, moment, entry, config)
        }
        Mode::Evict | Mode::Force => false,
    }
}

// Whether an item has the chunk of an entry.
fn has_link(class: ClassNo, number: u64, item: &Item) -> bool
    ensures { result ≡ words.has_link class number item.now }
{
    item.link.class.0 == class.0 && item.link.number == number
}

// What is to be done with an entry that has this item.
fn verdict_by(
    class: &ClassState,
    judge: &Judge,
    moment: u64,
    entry: &Entry,
    item: &Item,
    config: &Config,
) -> Done
    ensures { result ≡ words.done_by (rule_of config.now) (lists_of class.now.history) moment judge.now entry.now item.now }
{
    let dead = item.dead(moment);
    match judge {
        Judge::Walk { seg, mode, .. } => {
            let due = is_due(class, *seg, *mode, moment, entry, config);
            outcome(*seg, *mode, dead, item.marks.active, due)
        }
        Judge::Dead => {
            if dead {
                Done::Reclaimed
            } else {
                Done::Alive(item.expiry)
            }
        }
        Judge::Hit => {
            if item.marks.active && !dead {
                Done::ToWarm
            } else {
                Done::Stayed
            }
        }
    }
}

// What is to be done with an entry of a class, by its key's stripe.
pub(crate) fn verdict(
    class: &ClassState,
    stripe: &StripeState,
    number: u64,
    judge: &Judge,
    moment: u64,
    config: &Config,
) -> Done
    requires { class.now.rule ≡ rule_of config.now }
    ensures { (who : Who) → result ≡ done_of class.now (cache_now stripe.now) (question who number judge.now moment) }
{
    let Some(entry) = class.entry(number) else {
        return Done::Stranger;
    };
    let Some(item) = stripe.find(&entry.key) else {
        return Done::Stranger;
    };
    if has_link(class.number(), number, item) {
        verdict_by(class, judge, moment, entry, item, config)
    } else {
        Done::Stranger
    }
}
