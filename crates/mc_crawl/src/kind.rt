//! The kinds that a crawl counts links as.
ghost use Rattle.std.specs.Prelude.{◌≡◌};
ghost use Rattle.mc_crawl.specs.{CrawlCount.counted_as, CrawlCount.IsBalanced, CrawlCount.MayCount, CrawlKind.kind_answered, CrawlKind.IsCounted};
ghost use Rattle.mc_crawl.specs.CrawlKind as words;

use mc_item::{Expiry, Histogram};
use mc_pull::Done;

/// What a crawl counts a link as.
#[derive(Clone, Copy)]
pub enum Kind {
    /// Its number is in no list of the class.
    Gone,
    /// Its stripe wasn't reached, or has no item with this chunk.
    Passed,
    /// Its item was dead, and was removed.
    Reclaimed,
    /// Its item never expires.
    NoExpiry,
    /// Its item has an hour or more left.
    HourPlus,
    /// Its item has this many whole minutes left, fewer than 60.
    Minute(u64),
}

// The longest time, in seconds, that is less than an hour (crawler.c).
const BELOW_AN_HOUR: u64 = 3599;

fn kind_alive(expiry: Expiry, moment: u64) -> Kind
    ensures value { result ≡ words.kind_alive moment expiry }
    ensures counted { IsCounted result }
{
    let Expiry::At(end) = expiry else {
        return Kind::NoExpiry;
    };
    let left = end.saturating_sub(moment);
    if left > BELOW_AN_HOUR {
        Kind::HourPlus
    } else {
        Kind::Minute(left / 60)
    }
}

// The kind of an entry, by what was done with it. A crawl meets only the first three cases.
fn kind_done(done: Done, moment: u64) -> Kind
    ensures value { result ≡ words.kind_done moment done }
    ensures counted { IsCounted result }
{
    match done {
        Done::Reclaimed => Kind::Reclaimed,
        Done::Alive(expiry) => kind_alive(expiry, moment),
        Done::Stranger => Kind::Passed,
        Done::ToWarm => Kind::Passed,
        Done::WithinWarm => Kind::Passed,
        Done::ToCold => Kind::Passed,
        Done::Evicted => Kind::Passed,
        Done::Stayed => Kind::Passed,
    }
}

// The kind of an entry, by what was done with it, if its stripe was reached.
pub(crate) fn kind_of(done: Option<Done>, moment: u64) -> Kind
    ensures value { result ≡ kind_answered moment done }
    ensures counted { IsCounted result }
{
    match done {
        None => Kind::Passed,
        Some(done) => kind_done(done, moment),
    }
}

// Counts one more link as seen and as this kind.
pub(crate) fn count(histogram: &mut Histogram, kind: Kind)
    requires may { MayCount histogram.old }
    requires counted { IsCounted kind }
    ensures value { histogram.new ≡ counted_as kind histogram.old }
    ensures balanced { IsBalanced histogram.old → IsBalanced histogram.new }
{
    histogram.seen += 1;
    match kind {
        Kind::Gone => histogram.gone += 1,
        Kind::Passed => histogram.passed += 1,
        Kind::Reclaimed => histogram.reclaimed += 1,
        Kind::NoExpiry => histogram.no_expiry += 1,
        Kind::HourPlus => histogram.hour_plus += 1,
        Kind::Minute(minute) => histogram.minutes[minute as usize] += 1,
    }
}
