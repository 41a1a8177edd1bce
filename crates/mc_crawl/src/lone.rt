//! The crawl of one link with a gate that is lent one stripe.
ghost use Rattle.std.specs.Prelude.{◌≡◌, IfErr, OnOk, OnErr};
ghost use Rattle.mc_segment.specs.ClassState.{with_room};
ghost use Rattle.mc_pull.specs.{Growth.GainsEvents, Lone.IsServedAlone, Lone.LeavesAlone, Refusal.MayFail, Walker.walker_by};
ghost use Rattle.mc_crawl.specs.{Crawl.crawl_by, Crawl.HasCounted, CrawlCount.IsBalanced, CrawlCount.MayCount};

use crate::crawling::crawl_one;
use mc_item::{Fault, Histogram, Link};
use mc_pull::{Context, Lone};
use mc_segment::ClassState;

/// Crawls one link as `crawl_one` does. As this gate has a single stripe, the contract adds: the link is counted by just that
/// stripe as it was, the gate still holds it, it has gained only events of this call, and histories that agreed with it still agree.
pub fn crawl_lone(
    context: Context<'_>,
    class: &mut ClassState,
    link: Link,
    histogram: &mut Histogram,
    gate: &mut Lone<'_>,
) -> Result<(), Fault>
    requires gate { IsServedAlone gate.old context.config.now class.old }
    requires counts { MayCount histogram.old }
    ensures crawled { OnOk result (HasCounted (λ state. state ≡ gate.old.stripe.now) (crawl_by context.entry link.number) class.old class.new
        gate.old.answers.now gate.new.answers.now histogram.old histogram.new) }
    ensures balanced { IsBalanced histogram.old → IsBalanced histogram.new }
    ensures err { OnErr result ((class.new ≡ with_room class.old class.new.room) × (gate.new.answers.now ≡ gate.old.answers.now) × (histogram.new
        ≡ histogram.old)) }
    ensures grows { GainsEvents class.old class.new }
    ensures fault { IfErr result (MayFail class.new gate.new.stripe.now) }
    ensures walked { LeavesAlone (walker_by class.old context.entry) context.entry.config.now gate.old class.old.history gate.new class.new.history }
{
    crawl_one(context, class, link, histogram, gate)
}
