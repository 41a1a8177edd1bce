//! Walks, rounds and crawls of a class. The stripe of each entry is lent by a gate.
ghost use Rattle.mc_crawl.specs.CrawlCount.{MayCount};

use crate::end::{End, end_by, end_of};
use crate::marks::Marks;
use mc_crawl::{Histogram, crawl_lone, kinds_add_up, snapshot};
use mc_history::GhostList;
use mc_item::{Link, Seg, StripeNo};
use mc_pull::{Lone, Mode, advance, pull_tail};
use mc_testing::{World, context};

// The moment of each step, at which the items that expire are dead.
const LATER: u64 = 1001;

/// Walks along COLD for an entry to take.
pub(crate) fn pull(world: &mut World, marks: Marks) -> End {
    let context = context(LATER, &world.config);
    let mut gate = Lone {
        number: StripeNo(0),
        stripe: &mut world.stripe,
        answers: &mut GhostList::new(),
    };
    marks.begin();
    let pulled = pull_tail(context, &mut world.class, Seg::Cold, Mode::Evict, &mut gate);
    marks.end();
    end_of(pulled)
}

/// Makes room in the class.
pub(crate) fn make_room(world: &mut World, marks: Marks) -> End {
    let context = context(LATER, &world.config);
    let mut gate = Lone {
        number: StripeNo(0),
        stripe: &mut world.stripe,
        answers: &mut GhostList::new(),
    };
    marks.begin();
    let found = gate.make_room(context, &mut world.class);
    marks.end();
    end_of(found)
}

/// Juggles the class.
pub(crate) fn juggle(world: &mut World, marks: Marks) -> End {
    let context = context(LATER, &world.config);
    let mut gate = Lone {
        number: StripeNo(0),
        stripe: &mut world.stripe,
        answers: &mut GhostList::new(),
    };
    marks.begin();
    let moves = gate.juggle(context, &mut world.class);
    marks.end();
    end_of(moves)
}

/// Moves the entry of the first link, whose item was hit.
pub(crate) fn take_hit(world: &mut World, marks: Marks) -> End {
    let context = context(LATER, &world.config);
    let mut gate = Lone {
        number: StripeNo(0),
        stripe: &mut world.stripe,
        answers: &mut GhostList::new(),
    };
    marks.begin();
    let moved = advance(context, &mut world.class, 0, &mut gate);
    marks.end();
    end_of(moved)
}

/// Takes the links of all entries of the class.
pub(crate) fn take_links(world: &mut World, marks: Marks) -> End {
    marks.begin();
    let links = snapshot(world.alloc, &world.class);
    marks.end();
    end_by(links)
}

// A histogram of nothing, which has room for one link.
fn empty() -> Histogram
    ensures { MayCount result }
{
    kinds_add_up();
    Histogram::new()
}

/// Crawls the first link.
pub(crate) fn crawl(world: &mut World, marks: Marks) -> End {
    let class = &mut world.class;
    let link = Link {
        class: class.number(),
        number: 0,
    };
    let mut gate = Lone {
        number: StripeNo(0),
        stripe: &mut world.stripe,
        answers: &mut GhostList::new(),
    };
    let mut counts = empty();
    let context = context(LATER, &world.config);
    marks.begin();
    let crawled = crawl_lone(context, class, link, &mut counts, &mut gate);
    marks.end();
    end_of(crawled)
}
