//! The crawl of one link.
ghost use Rattle.std.specs.Prelude.{◌≡◌, IfOk, IfErr, OnOk, OnErr};
ghost use Rattle.mc_segment.specs.ClassState.{with_room};
ghost use Rattle.mc_pull.specs.{Gates.IsServedBy, Gates.LeavesGate, Growth.GainsEvents, Walker.walker_by};
ghost use Rattle.mc_crawl.specs.{Crawl.crawl_by, Crawl.HasCounted, Crawl.IsCrawled, CrawlCount.IsBalanced, CrawlCount.MayCount};
ghost use Rattle.mc_crawl.specs.CrawlKind.{IsCounted};

use crate::kind::{Kind, count, kind_of};
use mc_item::{Fault, Histogram, Link, stripe_of};
use mc_pull::{Context, Gate, Judge, look_at};
use mc_segment::ClassState;

// What one link counts as. Its entry is looked at, if it is still in a list.
fn kind_at<G: Gate>(
    context: Context<'_>,
    class: &mut ClassState,
    number: u64,
    gate: &mut G,
) -> Result<Kind, Fault>
    requires gate { IsServedBy G.serves context.config.now context.turn.who gate.old class.old }
    ensures crawled { IfOk result (IsCrawled (G.reaches gate.old gate.new) (crawl_by context.entry number) class.old class.new (G.answers
        gate.old) (G.answers gate.new)) }
    ensures counted { IfOk result IsCounted }
    ensures err { OnErr result ((class.new ≡ with_room class.old class.new.room) × (G.answers gate.new ≡ G.answers gate.old)) }
    ensures fault { IfErr result (G.faults gate.new class.new) }
    ensures gate { LeavesGate G.references G.serves G.keeps context.entry.config.now (walker_by class.old context.entry) gate.old class.old gate.new class.new }
{
    let Some(entry) = class.entry(number) else {
        return Ok(Kind::Gone);
    };
    let stripe = stripe_of(&entry.key, context.config.stripes);
    let done = look_at(context, class, stripe, number, &Judge::Dead, gate)?;
    Ok(kind_of(done, context.turn.moment))
}

/// Crawls one link of a class's snapshot. If the link's number is still in a list, the gate is asked once for the stripe of the
/// entry's key. An item that is dead by then is removed with its entry. The histogram counts the link as seen, and as gone,
/// passed, reclaimed, or by how long its item has left. Each count must be less than 2^64 - 1.
/// Errors: the gate's faults. The histogram, the class's history and the gate's answers are then unchanged.
pub fn crawl_one<G: Gate>(
    context: Context<'_>,
    class: &mut ClassState,
    link: Link,
    histogram: &mut Histogram,
    gate: &mut G,
) -> Result<(), Fault>
    requires gate { IsServedBy G.serves context.config.now context.turn.who gate.old class.old }
    requires counts { MayCount histogram.old }
    ensures crawled { OnOk result (HasCounted (G.reaches gate.old gate.new) (crawl_by context.entry link.number) class.old class.new
        (G.answers gate.old) (G.answers gate.new) histogram.old histogram.new) }
    ensures balanced { IsBalanced histogram.old → IsBalanced histogram.new }
    ensures err { OnErr result ((class.new ≡ with_room class.old class.new.room) × (G.answers gate.new ≡ G.answers gate.old) × (histogram.new ≡
        histogram.old)) }
    ensures grows { GainsEvents class.old class.new }
    ensures fault { IfErr result (G.faults gate.new class.new) }
    ensures gate { LeavesGate G.references G.serves G.keeps context.entry.config.now (walker_by class.old context.entry) gate.old class.old gate.new class.new }
{
    let kind = kind_at(context, class, link.number, gate)?;
    count(histogram, kind);
    Ok(())
}
