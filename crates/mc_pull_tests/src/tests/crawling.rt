//! Crawls of links, through a gate that answers from a list, and what they count.
ghost use Rattle.mc_crawl.specs.CrawlCount.{IsBalanced, MayCount};

use super::by_list::ByList;
use mc_crawl::{crawl_one, kinds_add_up};
use mc_item::{Fault, Histogram, Link};
use mc_pull::Answer;
use mc_testing::{World, context};
use std::alloc::Global;
use std::test::Fail;

/// A crawl: its moment, the numbers of the links, and what the gate answers.
#[derive(Clone, Copy)]
pub struct Crawled(pub u64, pub &'static [u64], pub &'static [bool]);

// A histogram of nothing, which has room for one link.
fn empty() -> Histogram
    ensures may { MayCount result }
    ensures balanced { IsBalanced result }
{
    kinds_add_up();
    Histogram::new()
}

// Crawls one link into a histogram, unless that may be full.
fn crawl_into(
    world: &mut World,
    crawled: Crawled,
    number: u64,
    answers: &mut Vec<Answer>,
    histogram: &mut Histogram,
) -> Result<(), Fault>
    requires balanced { IsBalanced histogram.old }
    ensures balanced { IsBalanced histogram.new }
{
    kinds_add_up();
    if histogram.seen >= 1000 {
        return Ok(());
    }
    let class = &mut world.class;
    let link = Link {
        class: class.number(),
        number,
    };
    let mut gate = ByList {
        stripe: &mut world.stripe,
        answers,
        yes: crawled.2,
        fails: None,
    };
    let context = context(crawled.0, &world.config);
    crawl_one(context, class, link, histogram, &mut gate)
}

// Crawls links into a histogram. It says how often the gate was asked.
fn crawl(
    world: &mut World,
    crawled: Crawled,
    histogram: &mut Histogram,
) -> (Result<(), Fault>, usize)
    requires balanced { IsBalanced histogram.old }
{
    let mut answers = Vec::new(world.alloc);
    for number in crawled.1 {
        if let Err(fault) = crawl_into(world, crawled, *number, &mut answers, histogram) {
            return (Err(fault), answers.len());
        }
    }
    (Ok(()), answers.len())
}

// The minutes that were counted, each with its count.
fn minutes(alloc: Global, histogram: &Histogram) -> Result<Vec<(usize, u64)>, Fail> {
    let mut got = Vec::new(alloc);
    for (minute, count) in histogram.minutes.iter().enumerate() {
        if *count > 0 {
            got.push((minute, *count))?;
        }
    }
    Ok(got)
}

// How many links were seen, reclaimed, passed, gone, without an expiry, and with an hour or more to live; then the minutes.
fn text_of_counts(alloc: Global, histogram: &Histogram) -> Result<String, Fail> {
    let counts = [
        histogram.seen,
        histogram.reclaimed,
        histogram.passed,
        histogram.gone,
        histogram.no_expiry,
        histogram.hour_plus,
    ];
    let minutes = minutes(alloc, histogram)?;
    Ok(format!(in alloc; "{:?} {:?}", counts.as_slice(), minutes.as_slice())?)
}

/// Crawls links, and tells what was counted, and after how many looks.
pub(super) fn tell_crawled(world: &mut World, crawled: Crawled) -> Result<String, Fail> {
    let alloc = world.alloc;
    let mut histogram = empty();
    let (made, looks) = crawl(world, crawled, &mut histogram);
    let counts = text_of_counts(alloc, &histogram)?;
    match made {
        Ok(()) => Ok(format!(in alloc; "{counts} after {looks}")?),
        Err(fault) => Ok(format!(in alloc; "{counts} after {looks}: {fault:?}")?),
    }
}
